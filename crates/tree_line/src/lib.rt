// After model/tree.rs, `parse_node`: the lines of a tree (01, 'Tree text'). Id, question name, no reference, yes reference: on the page no stands before yes.
// A caller reads the lines of a tree in order, by `next_line` from the place of the first up to the last.
// Every function takes any bytes and any place, also one past the end. A place is an index into the slice.
#![tactic(auto)]

ghost use Rattle.std.specs.Prelude.{◌≡◌};
ghost use Rattle.tree_line.specs.Lines.{branches_at, yes_at, line_at, after_line, line_step_at};

use text_base::blank_end;
use text_numbers::parse_signed;
use text_parts::Read;
use text_spaces::{line_parting, name_between, past_byte};
use tree_reference::{TreeIndex, parse_tree_index};

// A line; `start` and `len` say where its question's name stands.
#[derive(Clone, Copy)]
pub struct Line {
    pub id: i64,
    pub start: usize,
    pub len: usize,
    pub no: TreeIndex,
    pub yes: TreeIndex,
}

// The two references of a line, no and yes.
#[derive(Clone, Copy)]
pub struct Branches {
    pub no: TreeIndex,
    pub yes: TreeIndex,
}

// A line, and where the next one stands; or the tree's last, and the place past its `}`.
#[derive(Clone, Copy)]
pub enum LineStep {
    Next { line: Line, next: usize },
    Last { line: Line, next: usize },
    Broken,
}

// Blanks, and the yes reference of a line whose no reference is `no`.
fn parse_yes(s: &[u8], at: usize, no: TreeIndex) -> Option<Read<Branches>>
    ensures { result ≡ yes_at s.now at no }
{
    let start = blank_end(s, at);
    if start <= at {
        return None;
    }
    let yes = parse_tree_index(s, start)?;
    Some(Read {
        value: Branches { no, yes: yes.value },
        next: yes.next,
    })
}

// The no reference, blanks, the yes reference.
fn parse_branches(s: &[u8], at: usize) -> Option<Read<Branches>>
    ensures { result ≡ branches_at s.now at }
{
    let no = parse_tree_index(s, at)?;
    parse_yes(s, no.next, no.value)
}

// A line: id, blanks, question name, blanks, and its references.
pub fn parse_line(s: &[u8], at: usize) -> Option<Read<Line>>
    ensures { result ≡ line_at s.now at }
{
    let id = parse_signed(s, at)?;
    let name = name_between(s, id.next)?;
    let branches = parse_branches(s, name.next)?;
    Some(Read {
        value: Line {
            id: id.value,
            start: name.value.start,
            len: name.value.len,
            no: branches.value.no,
            yes: branches.value.yes,
        },
        next: branches.next,
    })
}

// What follows a line that ends at `end`: blanks and `}`, or what parts it from the next.
fn after_line(s: &[u8], line: Line, end: usize) -> LineStep
    ensures { result ≡ after_line s.now line end }
{
    let past = blank_end(s, end);
    match past_byte(s, past, b'}') {
        Some(next) => LineStep::Last { line, next },
        None => match line_parting(s, end, past) {
            Some(next) => LineStep::Next { line, next },
            None => LineStep::Broken,
        },
    }
}

// A line and what follows it.
pub fn next_line(s: &[u8], at: usize) -> LineStep
    ensures { result ≡ line_step_at s.now at }
{
    match parse_line(s, at) {
        Some(line) => after_line(s, line.value, line.next),
        None => LineStep::Broken,
    }
}
