// The first line of a tree of which a reference leads nowhere, by reading the tree (01, 'Linking and tables'; 02, Wish 12).
// Every function takes any bytes and any place, also one past the end. A place is an index into the slice.
#![tactic(auto)]

ghost use Rattle.std.specs.Prelude.{◌≡◌};
ghost use Rattle.tree_line.specs.Lines.{line_step_at, lines_at};
ghost use Rattle.link_find.specs.Find.{Lines};
ghost use Rattle.link_stray.specs.Stray.{first_from, strays, stray_of};

use link_alone::target_of;
use link_fits::is_nowhere;
use tree_line::{Line, LineStep, next_line};

// A line that leads nowhere; or one that doesn't, and where the next stands, or that there is none.
#[derive(Clone, Copy)]
pub enum Stray {
    Astray,
    Next(usize),
    Clean,
}

// Whether a line's yes or no leads nowhere.
fn is_astray(s: &[u8], first: usize, n: u64, in_order: bool, line: Line) -> bool
    requires { Lines s.now first n in_order }
    ensures { result ≡ strays (lines_at s.now first).items line }
{
    let to_yes = line.yes;
    let to_no = line.no;
    if is_nowhere(target_of(s, first, n, in_order, to_yes)) {
        return true;
    }
    is_nowhere(target_of(s, first, n, in_order, to_no))
}

// The line that stands at a place, of a tree of n lines from `first` on.
fn stray_at(s: &[u8], first: usize, n: u64, in_order: bool, place: usize) -> Stray
    requires { Lines s.now first n in_order }
    ensures { result ≡ stray_of (lines_at s.now first).items (line_step_at s.now place) }
{
    match next_line(s, place) {
        LineStep::Next { line, next } => {
            if is_astray(s, first, n, in_order, line) {
                return Stray::Astray;
            }
            Stray::Next(next)
        }
        LineStep::Last { line, next: _ } => {
            if is_astray(s, first, n, in_order, line) {
                return Stray::Astray;
            }
            Stray::Clean
        }
        LineStep::Broken => Stray::Clean,
    }
}

// The first of the n lines from `first` on of which yes or no leads nowhere. A line is read in two places, so that it has a frame of its own, and nothing else stands on top of it.
pub fn first_astray(s: &[u8], first: usize, n: u64, in_order: bool) -> Option<u64>
    requires { Lines s.now first n in_order }
    ensures { result ≡ first_from (strays (lines_at s.now first).items) 0 (lines_at s.now first).items }
{
    let mut k: u64 = 0;
    let mut stray = stray_at(s, first, n, in_order, first);
    // No `for`: where the next line stands is what the reader of this one answers.
    loop {
        match stray {
            Stray::Astray => {
                return Some(k);
            }
            Stray::Next(next) => {
                k = k + 1;
                stray = stray_at(s, first, n, in_order, next);
            }
            Stray::Clean => {
                return None;
            }
        }
    }
}
