// The linking of one tree by reading its text, without tables or work, and quickly: the first line with a fault (01, 'Linking and tables'; 02, Wish 12).
// A question is looked for in the text for 40 lines at a time, their names' places and a byte of each name on the stack: reading the questions once for each line
// would take lines times questions. Every function takes any bytes and any place, also one past the end. A place is an index into the slice; the questions are those of the text that begins at `at`.
#![tactic(auto)]

ghost use Rattle.std.specs.Prelude.{◌≡◌, ◌<◌, length, set, Err};
ghost use Rattle.tree_line.specs.Lines.{lines_at};
ghost use Rattle.tree_question.specs.Questions.{questions_at};
ghost use Rattle.tree_body.specs.Trees.{head_at};
ghost use Rattle.link_stray.specs.Stray.{first_from};
ghost use Rattle.link_window.specs.Windows.{Filling, taken_of, behind_of, Windowed, unheard, fault_alone, fault_lines, fault_head};
ghost use Rattle.error.specs.Numbers.{line_fault};

use error::{LineFault, LinkFault};
use link_find::ids_in_order;
use link_names::look_up;
use link_shape::{Shape, shape_of};
use link_stray::first_astray;
use tree_line::{LineStep, next_line};
use tree_reference::TreeIndex;

// How many lines are looked up at a time.
const WINDOW: usize = 40;

// Whether more lines follow those whose names were taken, or how many were taken in all.
#[derive(Clone, Copy)]
pub enum Filled {
    More(usize),
    All(usize),
}

// A window of lines: one that asks for a question that isn't there, or where the next window begins, or that there is none.
#[derive(Clone, Copy)]
pub enum Window {
    Missing(u64),
    Next(usize),
    Clean,
}

// ---- the names of a window

// Name k begins at `start`. How long it is isn't kept: it ends where no byte of a name follows.
fn put_name(names: &mut [u64], k: usize, start: usize)
    requires { k < length names.old }
    ensures { names.new ≡ set names.old k start }
{
    names[k] = start as u64;
}

// The names of the lines from `first` on, as many as there is room for.
fn fill(s: &[u8], first: usize, names: &mut [u64]) -> Filled
    requires { length names.old ≡ 40 }
    ensures { Filling s.now first names.old result names.new }
{
    let mut i = first;
    for k in 0..WINDOW {
        match next_line(s, i) {
            LineStep::Next { line, next } => {
                put_name(names, k, line.start);
                i = next;
            }
            LineStep::Last { line, next: _ } => {
                put_name(names, k, line.start);
                return Filled::All(k + 1);
            }
            LineStep::Broken => {
                return Filled::All(k);
            }
        }
    }
    Filled::More(i)
}

// ---- the lines of a tree, window by window

// How many names were taken.
fn taken(filled: Filled) -> usize
    ensures { result ≡ taken_of filled }
{
    match filled {
        Filled::More(_) => WINDOW,
        Filled::All(n) => n,
    }
}

// What follows a window of which every question is there.
fn behind(filled: Filled) -> Window
    ensures { result ≡ behind_of filled }
{
    match filled {
        Filled::More(next) => Window::Next(next),
        Filled::All(_) => Window::Clean,
    }
}

// The lines from `first` on, as many as are looked up at a time.
fn read_window(s: &[u8], at: usize, first: usize) -> Window
    ensures { Windowed s.now (questions_at s.now at).items first result }
{
    let mut names = [0u64; 40];
    let filled = fill(s, first, &mut names);
    match look_up(s, at, &names, taken(filled)) {
        Some(j) => Window::Missing(j),
        None => behind(filled),
    }
}

// The first of the lines from `first` on whose question isn't there. The window is read in two places, so that its names have a frame of their own, and the text's
// survey doesn't stand on top of them.
pub fn first_unasked(s: &[u8], at: usize, first: usize) -> Option<u64>
    ensures { result ≡ first_from (unheard s.now (questions_at s.now at).items) 0 (lines_at s.now first).items }
{
    let mut k: u64 = 0;
    let mut window = read_window(s, at, first);
    // No `for`: where the next window begins is what the reader of this one answers.
    loop {
        match window {
            Window::Missing(j) => {
                return Some(k + j);
            }
            Window::Next(next) => {
                k = k + 40;
                window = read_window(s, at, next);
            }
            Window::Clean => {
                return None;
            }
        }
    }
}

fn refused(fault: LinkFault, line: u64) -> Result<(), LineFault>
    ensures { result ≡ Err (line_fault fault line) }
{
    Err(LineFault {
        fault,
        line: line as usize,
    })
}

// The fault of the lower line; on one line a reference comes before the question.
fn lower(astray: Option<u64>, unasked: Option<u64>) -> Result<(), LineFault>
    ensures { result ≡ fault_lines astray unasked }
{
    match astray {
        Some(a) => match unasked {
            Some(b) => {
                if b < a {
                    refused(LinkFault::QuestionRef, b)
                } else {
                    refused(LinkFault::NodeRef, a)
                }
            }
            None => refused(LinkFault::NodeRef, a),
        },
        None => match unasked {
            Some(b) => refused(LinkFault::QuestionRef, b),
            None => Ok(()),
        },
    }
}

// ---- a tree

// A tree that is one reference.
fn link_alone(index: TreeIndex) -> Result<(), LineFault>
    ensures { result ≡ fault_alone index }
{
    match index {
        TreeIndex::Pdf(_) => Ok(()),
        TreeIndex::Node(_) => refused(LinkFault::LoneNode, 0),
    }
}

// The tree that stands at `star`.
pub fn link_tree(s: &[u8], at: usize, star: usize) -> Result<(), LineFault>
    ensures { result ≡ fault_head s.now (questions_at s.now at).items (head_at s.now star) }
{
    match shape_of(s, star) {
        Shape::One { index, lines: _ } => link_alone(index),
        Shape::Empty => Ok(()),
        Shape::Lines { first, n } => lower(
            first_astray(s, first, n, ids_in_order(s, first)),
            first_unasked(s, at, first),
        ),
        // never, of a tree that can be read
        Shape::Broken => Ok(()),
    }
}
