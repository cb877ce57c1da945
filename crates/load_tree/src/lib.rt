// After model/mod.rs, `convert_tree`: the records of one tree of the text, into its part of the record table (01, 'Linking and tables').
// A lone reference, or one braced line with equal references, is a bare leaf if it is a PDF.
#![tactic(auto)]

ghost use Rattle.std.specs.Prelude.{◌≡◌, [], ◌∷◌, ◌+◌, ◌*◌, ◌≤◌, ◌<◌, ◌^◌, length};
ghost use Rattle.std.proofs.lemmas.List.Edits.{sets};
ghost use Rattle.laws.specs.Steps.{done_at};
ghost use Rattle.link_order.specs.Keys.{name_key, name_at};
ghost use Rattle.link_search.specs.Index.{Index};
ghost use Rattle.tree_line.specs.Lines.{lines_at};
ghost use Rattle.tree_survey_lines.specs.Counts.{records_of};
ghost use Rattle.link_targets.specs.Lines.{lines_from, pdfs_of};
ghost use Rattle.load_tree.specs.Bodies.{leaf_result, link_result, lines_end, single_of, BracesFilled};

use error::{LineFault, LinkFault};
use link_tree::link_tree;
use load_lines::fill_lines;
use table_put::put4;
use table_rows::RECORD_ROW;
use text_parts::natural;
use tree_line::{Line, LineStep, next_line};
use tree_reference::{TreeIndex, same_index};

// A tree with its records: how many, and the lines of its row.
#[derive(Clone, Copy)]
pub struct Filled {
    pub records: usize,
    pub lines: usize,
}

// How a tree ends, and the place past its body.
#[derive(Clone, Copy)]
pub struct TreeFill {
    pub filled: Result<Filled, LineFault>,
    pub next: usize,
}

// The one record of a tree that is one reference, from `first` on.
pub fn fill_leaf(records: &mut [u64], first: usize, index: TreeIndex) -> Result<Filled, LineFault>
    requires { first + 4 ≤ length records.old }
    ensures { (result ≡ (leaf_result index).ends) × (records.new ≡ sets records.old first (leaf_result index).rows) }
{
    match index {
        TreeIndex::Pdf(number) => {
            put4(records, first, 1, natural(number), 0, 0);
            Ok(Filled {
                records: 1,
                lines: 0,
            })
        }
        TreeIndex::Node(_) => Err(LineFault {
            fault: LinkFault::LoneNode,
            line: 0,
        }),
    }
}

// The one reference that a tree of so many lines is, if it is one.
fn single_of(s: &[u8], at: usize, lines: usize) -> Option<TreeIndex>
    requires { lines ≡ length (lines_at s.now at).items }
    ensures { result ≡ single_of (lines_at s.now at).items }
{
    if lines != 1 {
        return None;
    }
    match next_line(s, at) {
        LineStep::Next { line, next: _ } => one_of(line),
        LineStep::Last { line, next: _ } => one_of(line),
        LineStep::Broken => None,
    }
}

fn one_of(line: Line) -> Option<TreeIndex>
    ensures { result ≡ single_of (line ∷ []) }
{
    let no = line.no;
    let yes = line.yes;
    if same_index(no, yes) { Some(yes) } else { None }
}

// The records of so many lines in the work, from `first` on.
fn link_lines(
    work: &[i64],
    lines: usize,
    needed: usize,
    records: &mut [u64],
    first: usize,
) -> Result<Filled, LineFault>
    requires { (6 * lines ≤ length work.now) × (needed ≡ lines + length (pdfs_of (lines_from work.now 0 lines))) × (first + 4 * needed ≤ length records.old) }
    ensures { (result ≡ (link_result work.now lines needed).ends) × (records.new ≡ sets records.old first (link_result work.now lines needed).rows) }
{
    let end = first + RECORD_ROW * needed;
    link_tree(work, lines, needed - lines, &mut records[first..end])?;
    Ok(Filled {
        records: needed,
        lines,
    })
}

// The records of a tree in braces whose lines can be read, from `first` on; its lines stand in the work afterwards.
pub fn fill_braces(
    s: &[u8],
    at: usize,
    questions: &[u64],
    index: &[u64],
    records: &mut [u64],
    first: usize,
    work: &mut [i64],
) -> TreeFill
    requires index { Index (λ e. name_key (name_at s.now questions.now e)) index.now × (length index.now < 2 ^ 62) }
    requires at_value { (lines_at s.now at).ending ≡ done_at (lines_end s.now at) }
    requires at_in_bounds { (first + 4 * records_of (lines_at s.now at).items ≤ length records.old) × (6 * length (lines_at s.now at).items ≤ length work.old) }
    ensures { BracesFilled s.now questions.now (length index.now) at first records.old work.old result records.new work.new }
{
    match fill_lines(s, at, questions, index, work) {
        Some(read) => match single_of(s, at, read.value.lines) {
            Some(reference) => TreeFill {
                filled: fill_leaf(records, first, reference),
                next: read.next,
            },
            None => TreeFill {
                filled: link_lines(
                    work,
                    read.value.lines,
                    read.value.lines + read.value.pdfs,
                    records,
                    first,
                ),
                next: read.next,
            },
        },
        // never, of lines that can be read
        None => TreeFill {
            filled: Err(LineFault {
                fault: LinkFault::LoneNode,
                line: 0,
            }),
            next: at,
        },
    }
}
