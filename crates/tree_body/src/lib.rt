// After model/tree.rs, `parse_tree` and `parse_trees`: a tree's head and body, and what follows a tree (01, 'Tree text').
// `{*}`, `[state]` with blanks around it, then one reference, or `{` lines `}` with possibly no line. Lines are read by `tree_line`.
// A caller reads in order: `tree_head`; where it has lines, these up to the last; then `after_tree`.
// Every function takes any bytes and any place, also one past the end. A place is an index into the slice.
#![tactic(auto)]

ghost use Rattle.std.specs.Prelude.{◌≡◌};
ghost use Rattle.tree_body.specs.Trees.{past_star, number_at, state_at, body_at, head_at, after_tree};

use text_base::blank_end;
use text_numbers::parse_signed;
use text_parts::Read;
use text_spaces::{past_brace, past_byte, past_parting};
use tree_reference::{TreeIndex, parse_tree_index};

// A tree's state and what its body is: a reference alone, braces with no line, or braces whose first line stands at `first`.
#[derive(Clone, Copy)]
pub enum TreeHead {
    Lone {
        state: i64,
        index: TreeIndex,
        next: usize,
    },
    Empty {
        state: i64,
        next: usize,
    },
    Lines {
        state: i64,
        first: usize,
    },
    NoTree,
}

// What follows a tree: where the next one stands, the end of the text, or a byte that is neither.
#[derive(Clone, Copy)]
pub enum TreeStep {
    Next(usize),
    End,
    Broken(usize),
}

// The place past `{*}`.
fn past_star(s: &[u8], at: usize) -> Option<usize>
    ensures { result ≡ past_star s.now at }
{
    let second = past_byte(s, at, b'{')?;
    let third = past_byte(s, second, b'*')?;
    past_byte(s, third, b'}')
}

// The number from `at` on, and the `]` and blanks behind it.
fn parse_number(s: &[u8], at: usize) -> Option<Read<i64>>
    ensures { result ≡ number_at s.now at }
{
    let number = parse_signed(s, at)?;
    let past = past_byte(s, number.next, b']')?;
    Some(Read {
        value: number.value,
        next: blank_end(s, past),
    })
}

// `{*}`, blanks, `[state]`, blanks: the state, and where the body stands.
fn parse_state(s: &[u8], at: usize) -> Option<Read<i64>>
    ensures { result ≡ state_at s.now at }
{
    let past = past_star(s, at)?;
    let inside = past_byte(s, blank_end(s, past), b'[')?;
    parse_number(s, inside)
}

// What the body at `at` is.
fn parse_body(s: &[u8], at: usize, state: i64) -> TreeHead
    ensures { result ≡ body_at s.now at state }
{
    match past_byte(s, at, b'{') {
        Some(inside) => match past_brace(s, inside) {
            Some(next) => TreeHead::Empty { state, next },
            None => TreeHead::Lines {
                state,
                first: blank_end(s, inside),
            },
        },
        None => match parse_tree_index(s, at) {
            Some(lone) => TreeHead::Lone {
                state,
                index: lone.value,
                next: lone.next,
            },
            None => TreeHead::NoTree,
        },
    }
}

// A tree, up to the end of its body or to its first line.
pub fn tree_head(s: &[u8], at: usize) -> TreeHead
    ensures { result ≡ head_at s.now at }
{
    match parse_state(s, at) {
        Some(state) => parse_body(s, state.next, state.value),
        None => TreeHead::NoTree,
    }
}

// What follows a tree that ends at `at`: blanks up to the end of the text, or what parts it from the next.
pub fn after_tree(s: &[u8], at: usize) -> TreeStep
    ensures { result ≡ after_tree s.now at }
{
    let end = blank_end(s, at);
    if end == s.len() {
        return TreeStep::End;
    }
    match past_parting(s, at) {
        Some(next) => {
            if next < s.len() {
                TreeStep::Next(next)
            } else {
                TreeStep::Broken(end)
            }
        }
        None => TreeStep::Broken(end),
    }
}
