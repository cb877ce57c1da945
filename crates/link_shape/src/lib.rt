// The shape of one tree of a text, as its linking and the walk straight over the text see it: one reference, empty braces, or lines (01, 'Linking and tables'; 02, Wish 12).
// Every function takes any bytes and any place, also one past the end. A place is an index into the slice.
#![tactic(auto)]

ghost use Rattle.std.specs.Prelude.{◌≡◌};
ghost use Rattle.tree_line.specs.Lines.{lines_at};
ghost use Rattle.tree_body.specs.Trees.{head_at};
ghost use Rattle.link_shape.specs.Shapes.{shape_braces, shape_head};

use link_alone::single_of;
use tree_body::{TreeHead, tree_head};
use tree_reference::TreeIndex;
use tree_survey_lines::count_lines;

#[derive(Clone, Copy)]
pub enum Shape {
    // one reference, for which so many lines are read: none where it stands alone, one where that one's sides are alike
    One { index: TreeIndex, lines: u64 },
    Empty,
    // n lines, from `first` on
    Lines { first: usize, n: u64 },
    // never, of a tree that can be read
    Broken,
}

// The tree in braces whose first line stands at `first`.
fn braces_shape(s: &[u8], first: usize) -> Shape
    ensures { result ≡ shape_braces first (lines_at s.now first) }
{
    match count_lines(s, first) {
        Some(count) => match single_of(s, first, count.value.lines) {
            Some(index) => Shape::One { index, lines: 1 },
            None => Shape::Lines {
                first,
                n: count.value.lines as u64,
            },
        },
        None => Shape::Broken,
    }
}

// The tree that stands at `star`.
pub fn shape_of(s: &[u8], star: usize) -> Shape
    ensures { result ≡ shape_head s.now (head_at s.now star) }
{
    match tree_head(s, star) {
        TreeHead::Lone {
            state: _,
            index,
            next: _,
        } => Shape::One { index, lines: 0 },
        TreeHead::Empty { state: _, next: _ } => Shape::Empty,
        TreeHead::Lines { state: _, first } => braces_shape(s, first),
        TreeHead::NoTree => Shape::Broken,
    }
}
