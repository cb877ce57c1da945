// The walk straight over a tree text, without tables (02, Wish 12): a tree is chosen by its number, linked alone, and walked line by line; each line is found
// again by reading the tree. Every function takes any bytes, any number, any answers and any limit.
#![tactic(auto)]

ghost use Rattle.std.specs.Prelude.{◌≡◌, [], ◌∷◌, ◌≤◌, length};
ghost use Rattle.std.proofs.lemmas.List.Edits.{sets};
ghost use Rattle.tree_question.specs.Questions.{questions_at};
ghost use Rattle.tree_line.specs.Lines.{lines_at};
ghost use Rattle.tree_body.specs.Trees.{head_at};
ghost use Rattle.walk.specs.Walking.{walk_from};
ghost use Rattle.walk_bare.specs.Bare.{reply_in, reply_to, reply_borne, first_of, sought_in, turn_of, meets_in, read_count, ended_of, alone_of, head_of, refused_by, refused_as, metered_of, meter_at, bare_of, BareTells};

use error::{LineFault, Refusal};
use link_find::{last_bearing, last_question};
use link_order::id_key;
use link_shape::{Shape, shape_of};
use link_window::link_tree;
use text_parts::{natural, part_inside};
use tree_line::{Line, LineStep, next_line};
use tree_reference::TreeIndex;
use walk::Walked;
use walk_accepts::choose_tree;

// 20: a lent slice is too short.
const ROOM: u64 = 20;

// Number, place, line, PDF number, questions asked, lines read.
const BARE_OUT: usize = 6;

// How the walk of a tree ends that is not refused: at a PDF, after so many questions and lines read.
#[derive(Clone, Copy)]
pub struct Bare {
    pub number: u64,
    pub asked: u64,
    pub read: u64,
}

// ---- one line

// The byte of a question: any but 0 is yes.
fn reply_of(answers: &[u8], question: u64, yes: TreeIndex, no: TreeIndex) -> Option<TreeIndex>
    ensures { result ≡ reply_in answers.now question yes no }
{
    if question < answers.len() as u64 {
        if answers[question as usize] == 0 {
            Some(no)
        } else {
            Some(yes)
        }
    } else {
        None
    }
}

// The answer to a line's question, the last of its name in the text that begins at `at`.
fn reply_to(s: &[u8], at: usize, answers: &[u8], line: Line) -> Option<TreeIndex>
    ensures { result ≡ reply_to s.now (questions_at s.now at).items answers.now line }
{
    let yes = line.yes;
    let no = line.no;
    let question = last_question(s, at, part_inside(s, line.start as u64, line.len as u64))?;
    reply_of(answers, question, yes, no)
}

// ---- which line is asked

// The first line of a tree, or the last that bears the id of a key.
#[derive(Clone, Copy)]
pub enum Sought {
    First,
    Bearing(u64),
}

// The line that stands at a place.
fn line_at(s: &[u8], place: usize) -> Option<Line>
    ensures { result ≡ first_of (lines_at s.now place).items }
{
    match next_line(s, place) {
        LineStep::Next { line, next: _ } => Some(line),
        LineStep::Last { line, next: _ } => Some(line),
        // never, of a tree that can be read
        LineStep::Broken => None,
    }
}

// One line is read for the first, all from `first` on for an id.
fn seek(s: &[u8], first: usize, sought: Sought) -> Option<Line>
    ensures { result ≡ sought_in (lines_at s.now first).items sought }
{
    match sought {
        Sought::First => line_at(s, first),
        Sought::Bearing(key) => last_bearing(s, first, key),
    }
}

// The answer to the question of the line that is sought, among those from `first` on.
fn ask(s: &[u8], at: usize, first: usize, answers: &[u8], sought: Sought) -> Option<TreeIndex>
    ensures { result ≡ reply_borne s.now (questions_at s.now at).items answers.now (sought_in (lines_at s.now first).items sought) }
{
    // None: never, of a tree that links.
    let line = seek(s, first, sought)?;
    reply_to(s, at, answers, line)
}

// ---- line after line

// Where a reference leads: to a PDF, or to the last line that bears the id of a key.
#[derive(Clone, Copy)]
pub enum Turn {
    Leaf(u64),
    Line(u64),
}

fn turn_of(index: TreeIndex) -> Turn
    ensures { result ≡ turn_of index }
{
    match index {
        TreeIndex::Pdf(number) => Turn::Leaf(natural(number)),
        TreeIndex::Node(id) => Turn::Line(id_key(id)),
    }
}

// From the first of n lines on. A line met after as many questions as there are lines was met before: the walk goes round, and whatever the limit is, it is met.
// It asks in two places, so that asking, with the line that it finds, has a frame of its own, which does not stand below the windows of linking.
fn follow(
    s: &[u8],
    at: usize,
    first: usize,
    n: u64,
    answers: &[u8],
    limit: u64,
) -> Result<Walked, Refusal>
    requires { n ≡ length (lines_at s.now first).items }
    ensures { result ≡ walk_from (meets_in s.now (questions_at s.now at).items answers.now (lines_at s.now first).items) limit 0 }
{
    let mut reply = ask(s, at, first, answers, Sought::First);
    let mut asked: u64 = 0;
    // No `for`: a limit is met only where another line is to be asked.
    loop {
        match reply {
            Some(index) => {
                if asked == limit {
                    return Err(Refusal::Steps);
                }
                if asked == n {
                    return Err(Refusal::Steps);
                }
                asked = asked + 1;
                match turn_of(index) {
                    Turn::Leaf(number) => {
                        return Ok(Walked { number, asked });
                    }
                    Turn::Line(key) => {
                        reply = ask(s, at, first, answers, Sought::Bearing(key));
                    }
                }
            }
            None => {
                return Err(Refusal::WalkTable);
            }
        }
    }
}

// ---- the lines read

// The first line, and all lines for each question but the last; 2^64 - 1 where it were more.
fn read_count(lines: u64, asked: u64) -> u64
    ensures { result ≡ read_count lines asked }
{
    if asked <= 1 {
        return 1;
    }
    let passes = asked - 1;
    if 18446744073709551614 / passes < lines {
        return 18446744073709551615;
    }
    1 + lines * passes
}

// How the walk of so many lines ended.
fn ended(lines: u64, walked: Result<Walked, Refusal>) -> Result<Bare, Refusal>
    ensures { result ≡ ended_of lines walked }
{
    let walked = walked?;
    Ok(Bare {
        number: walked.number,
        asked: walked.asked,
        read: read_count(lines, walked.asked),
    })
}

// ---- a tree

// A tree that is one reference, for which so many lines were read.
fn alone(index: TreeIndex, read: u64) -> Result<Bare, Refusal>
    ensures { result ≡ alone_of read index }
{
    match index {
        TreeIndex::Pdf(number) => Ok(Bare {
            number: natural(number),
            asked: 0,
            read,
        }),
        // never, of a tree that links
        TreeIndex::Node(_) => Err(Refusal::WalkTable),
    }
}

// The tree that stands at `star`, once it is known to link.
fn walk_tree(s: &[u8], at: usize, star: usize, answers: &[u8], limit: u64) -> Result<Bare, Refusal>
    ensures { result ≡ head_of s.now (questions_at s.now at).items answers.now limit (head_at s.now star) }
{
    match shape_of(s, star) {
        Shape::One { index, lines } => alone(index, lines),
        Shape::Empty => Err(Refusal::WalkTable),
        Shape::Lines { first, n } => ended(n, follow(s, at, first, n, answers, limit)),
        // never, of a tree that can be read
        Shape::Broken => Err(Refusal::WalkTable),
    }
}

// ---- the call

// Number, place and line of a refusal, else 0; PDF number, questions asked and lines read, or 0. An exported call hands it to C number by number.
#[derive(Clone, Copy)]
pub struct Meter {
    pub number: u64,
    pub place: u64,
    pub line: u64,
    pub pdf: u64,
    pub asked: u64,
    pub read: u64,
}

fn refused_by(number: u64, place: u64, line: u64) -> Meter
    ensures { result ≡ refused_by number place line }
{
    Meter {
        number,
        place,
        line,
        pdf: 0,
        asked: 0,
        read: 0,
    }
}

fn refused_as(refusal: Refusal) -> Meter
    ensures { result ≡ refused_as refusal }
{
    let told = refusal.told();
    refused_by(told.number, told.place as u64, told.line as u64)
}

fn metered(bare: Result<Bare, Refusal>) -> Meter
    ensures { result ≡ metered_of bare }
{
    match bare {
        Ok(walked) => Meter {
            number: 0,
            place: 0,
            line: 0,
            pdf: walked.number,
            asked: walked.asked,
            read: walked.read,
        },
        Err(refusal) => refused_by(refusal.number(), 0, 0),
    }
}

// The chosen tree, which stands at `star`: 21 to 23 for it alone, then the walk.
fn meter_tree(s: &[u8], tree: u64, star: usize, answers: &[u8], limit: u64) -> Meter
    ensures { result ≡ meter_at s.now tree answers.now limit star }
{
    match link_tree(s, 0, star) {
        Ok(()) => metered(walk_tree(s, 0, star, answers, limit)),
        Err(LineFault { fault, line }) => refused_by(fault.number(), tree, line as u64),
    }
}

// A tree of a text, answers and a limit.
fn meter_text(s: &[u8], tree: u64, answers: &[u8], limit: u64) -> Meter
    ensures { result ≡ bare_of s.now tree answers.now limit }
{
    match choose_tree(s, tree) {
        Ok(star) => meter_tree(s, tree, star, answers, limit),
        Err(refusal) => refused_as(refusal),
    }
}

fn put6(out: &mut [u64], a: u64, b: u64, c: u64, d: u64, e: u64, f: u64)
    requires { 6 ≤ length out.old }
    ensures { out.new ≡ sets out.old 0 (a ∷ b ∷ c ∷ d ∷ e ∷ f ∷ []) }
{
    out[0] = a;
    out[1] = b;
    out[2] = c;
    out[3] = d;
    out[4] = e;
    out[5] = f;
}

// The same, written to `out`.
pub fn bare_said(s: &[u8], tree: u64, answers: &[u8], limit: u64, out: &mut [u64]) -> u64
    ensures { BareTells s.now tree answers.now limit out.old result out.new }
{
    if out.len() < BARE_OUT {
        return ROOM;
    }
    let m = meter_text(s, tree, answers, limit);
    put6(out, m.number, m.place, m.line, m.pdf, m.asked, m.read);
    m.number
}
