// The linking of one tree by reading its text, without tables or work: where each reference leads, the first line with a fault (01, 'Linking and tables'), and
// whether record rows that somebody else linked are the tree's (02, Wish 13). Linking alone is asked for with no rows.
// Every function takes any bytes and any rows. A place is an index into the slice; the questions are those of the text that begins at `at`.
#![tactic(auto)]

ghost use Rattle.std.specs.Prelude.{◌≡◌, ◌&&◌, true, [], ◌∷◌, length};
ghost use Rattle.tree_question.specs.Questions.{questions_at};
ghost use Rattle.tree_line.specs.Lines.{lines_at};
ghost use Rattle.tree_body.specs.Trees.{head_at};
ghost use Rattle.link_find.specs.Find.{Lines};
ghost use Rattle.link_alone.specs.Alone.{target_in, link_in, judged_line, judged_lines, ended, judged_alone, single_in, judged_braces, judged_head};

use error::{LineFault, LinkFault};
use link_find::{ids_in_order, last_question, line_of};
use link_fits::{Target, is_leaf_of, is_nowhere, leaves_from, row_fits};
use link_order::id_key;
use table_rows::record_rows;
use text_parts::{natural, part_inside};
use tree_body::{TreeHead, tree_head};
use tree_line::{Line, LineStep, next_line};
use tree_reference::{TreeIndex, same_index};
use tree_survey_lines::count_lines;

// A line's question and where its references lead; or what is wrong with it.
#[derive(Clone, Copy)]
pub struct LineLink {
    pub question: u64,
    pub yes: Target,
    pub no: Target,
}

// Where a reference of one of the n lines from `first` on leads.
pub fn target_of(s: &[u8], first: usize, n: u64, in_order: bool, index: TreeIndex) -> Target
    requires { Lines s.now first n in_order }
    ensures { result ≡ target_in (lines_at s.now first).items index }
{
    match index {
        TreeIndex::Node(id) => match line_of(s, first, n, in_order, id_key(id)) {
            Some(line) => Target::Line(line),
            None => Target::Nowhere,
        },
        TreeIndex::Pdf(number) => Target::Leaf(natural(number)),
    }
}

// A line's question and targets, tested in the order yes, no, question.
pub fn link_line(
    s: &[u8],
    at: usize,
    first: usize,
    n: u64,
    in_order: bool,
    line: Line,
) -> Result<LineLink, LinkFault>
    requires { Lines s.now first n in_order }
    ensures { result ≡ link_in s.now (questions_at s.now at).items (lines_at s.now first).items line }
{
    let to_yes = line.yes;
    let to_no = line.no;
    let yes = target_of(s, first, n, in_order, to_yes);
    if is_nowhere(yes) {
        return Err(LinkFault::NodeRef);
    }
    let no = target_of(s, first, n, in_order, to_no);
    if is_nowhere(no) {
        return Err(LinkFault::NodeRef);
    }
    match last_question(s, at, part_inside(s, line.start as u64, line.len as u64)) {
        Some(question) => Ok(LineLink { question, yes, no }),
        None => Err(LinkFault::QuestionRef),
    }
}

// Line k of the tree.
fn judge_line(
    s: &[u8],
    at: usize,
    first: usize,
    n: u64,
    in_order: bool,
    records: &[u64],
    line: Line,
    k: u64,
) -> Result<bool, LineFault>
    requires { Lines s.now first n in_order }
    ensures { result ≡ judged_line records.now k (link_in s.now (questions_at s.now at).items (lines_at s.now first).items line) }
{
    match link_line(s, at, first, n, in_order, line) {
        Ok(link) => Ok(row_fits(records, k, link.question, link.yes, link.no)),
        Err(fault) => Err(LineFault {
            fault,
            line: k as usize,
        }),
    }
}

fn both(a: bool, b: bool) -> bool
    ensures { result ≡ a && b }
{
    a && b
}

// All lines: the first that has a fault; else whether every row fits.
fn judge_lines(
    s: &[u8],
    at: usize,
    first: usize,
    n: u64,
    in_order: bool,
    records: &[u64],
) -> Result<bool, LineFault>
    requires { Lines s.now first n in_order }
    ensures { result ≡ judged_lines s.now (questions_at s.now at).items (lines_at s.now first).items records.now 0 true (lines_at s.now first).items }
{
    let mut i = first;
    let mut k: u64 = 0;
    let mut fits = true;
    // No `for`: where the next line stands is what the reader of this one answers.
    loop {
        match next_line(s, i) {
            LineStep::Next { line, next } => {
                match judge_line(s, at, first, n, in_order, records, line, k) {
                    Ok(fit) => {
                        fits = both(fits, fit);
                        k = k + 1;
                        i = next;
                    }
                    Err(LineFault { fault, line }) => {
                        return Err(LineFault { fault, line });
                    }
                }
            }
            LineStep::Last { line, next: _ } => {
                return last_judged(
                    judge_line(s, at, first, n, in_order, records, line, k),
                    fits,
                );
            }
            LineStep::Broken => {
                return Ok(fits);
            }
        }
    }
}

// The last line, after the others fitted or not.
fn last_judged(judged: Result<bool, LineFault>, fits: bool) -> Result<bool, LineFault>
    ensures { result ≡ ended fits judged }
{
    match judged {
        Ok(fit) => Ok(both(fits, fit)),
        Err(LineFault { fault, line }) => Err(LineFault { fault, line }),
    }
}

// A tree that is one reference: with a PDF one leaf, with a node refused.
fn judge_alone(records: &[u64], index: TreeIndex) -> Result<bool, LineFault>
    ensures { result ≡ judged_alone records.now index }
{
    match index {
        TreeIndex::Pdf(number) => {
            let one = record_rows(records) == 1;
            Ok(both(one, is_leaf_of(records, 0, natural(number))))
        }
        TreeIndex::Node(_) => Err(LineFault {
            fault: LinkFault::LoneNode,
            line: 0,
        }),
    }
}

fn one_of(line: Line) -> Option<TreeIndex>
    ensures { result ≡ single_in (line ∷ []) }
{
    let no = line.no;
    let yes = line.yes;
    if same_index(no, yes) { Some(yes) } else { None }
}

// Whether the so many lines from `first` on are one reference.
pub fn single_of(s: &[u8], first: usize, lines: usize) -> Option<TreeIndex>
    requires { lines ≡ length (lines_at s.now first).items }
    ensures { result ≡ single_in (lines_at s.now first).items }
{
    if lines != 1 {
        return None;
    }
    match next_line(s, first) {
        LineStep::Next { line, next: _ } => one_of(line),
        LineStep::Last { line, next: _ } => one_of(line),
        LineStep::Broken => None,
    }
}

// The tree in braces whose first line stands at `first`.
pub fn judge_braces(s: &[u8], at: usize, first: usize, records: &[u64]) -> Result<bool, LineFault>
    ensures { result ≡ judged_braces s.now (questions_at s.now at).items records.now (lines_at s.now first) }
{
    match count_lines(s, first) {
        Some(count) => match single_of(s, first, count.value.lines) {
            Some(index) => judge_alone(records, index),
            None => {
                let n = count.value.lines as u64;
                let judged = judge_lines(s, at, first, n, ids_in_order(s, first), records);
                last_judged(judged, leaves_from(records, n))
            }
        },
        // never, of a tree that can be read
        None => Ok(false),
    }
}

// The tree that stands at `star`.
pub fn judge_tree(s: &[u8], at: usize, star: usize, records: &[u64]) -> Result<bool, LineFault>
    ensures { result ≡ judged_head s.now (questions_at s.now at).items records.now (head_at s.now star) }
{
    match tree_head(s, star) {
        TreeHead::Lone {
            state: _,
            index,
            next: _,
        } => judge_alone(records, index),
        TreeHead::Empty { state: _, next: _ } => Ok(record_rows(records) == 0),
        TreeHead::Lines { state: _, first } => judge_braces(s, at, first, records),
        // never, of a tree that can be read
        TreeHead::NoTree => Ok(false),
    }
}
