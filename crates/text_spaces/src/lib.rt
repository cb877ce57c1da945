// After base.rs, `sp` and `sp1`, and what the readers build of them: a name between blanks, what parts two items, what closes braces (01, 'Tree text').
// Every function takes any bytes and any place, also one past the end. A place is an index into the slice.
#![tactic(auto)]

ghost use Rattle.std.specs.Prelude.{◌≡◌};
ghost use Rattle.written.specs.Bytes.{blank};
ghost use Rattle.laws.specs.Runs.{stop};
ghost use Rattle.text_spaces.specs.Spaces.{past_byte, name_of, name_at, newline_at, parting_at, line_parting_at, close_at};

use text_base::{blank_end, byte_at, name_end, space_or_tab_end};
use text_parts::{Read, Span};

// The place past the byte `b`.
pub fn past_byte(s: &[u8], at: usize, b: u8) -> Option<usize>
    ensures { result ≡ past_byte b s.now at }
{
    if s.len() <= at {
        return None;
    }
    if s[at] == b { Some(at + 1) } else { None }
}

// The name from `start` to `end`, where blanks stand from `at` to `start` and from `end` to `next`: at least one of each.
fn some_name(at: usize, start: usize, end: usize, next: usize) -> Option<Read<Span>>
    ensures { result ≡ name_of at start end next }
{
    if at < start {
        if start < end {
            if end < next {
                return Some(Read {
                    value: Span {
                        start,
                        len: end - start,
                    },
                    next,
                });
            }
        }
    }
    None
}

// Blanks, a name, blanks.
pub fn name_between(s: &[u8], at: usize) -> Option<Read<Span>>
    ensures { result ≡ name_at s.now at }
{
    let start = blank_end(s, at);
    let end = name_end(s, start);
    let next = blank_end(s, end);
    some_name(at, start, end, next)
}

// Any spaces or tabs, and a newline.
fn past_newline(s: &[u8], at: usize) -> Option<usize>
    ensures { result ≡ newline_at s.now at }
{
    past_byte(s, space_or_tab_end(s, at), b'\n')
}

// What parts two questions or two trees: where the next one stands.
pub fn past_parting(s: &[u8], at: usize) -> Option<usize>
    ensures { result ≡ parting_at s.now at }
{
    let next = past_newline(s, at)?;
    Some(blank_end(s, next))
}

// What parts two lines: after the newline spaces and tabs, then blanks.
pub fn past_line_parting(s: &[u8], at: usize) -> Option<usize>
    ensures { result ≡ line_parting_at s.now at }
{
    let next = past_newline(s, at)?;
    Some(blank_end(s, space_or_tab_end(s, next)))
}

// The same, where the blanks from `at` on are known to end at `past`: unless a tab stands there, this is where the next line does.
pub fn line_parting(s: &[u8], at: usize, past: usize) -> Option<usize>
    requires { past ≡ stop blank s.now at }
    ensures { result ≡ line_parting_at s.now at }
{
    if byte_at(s, past) == 9 {
        return past_line_parting(s, at);
    }
    past_newline(s, at)?;
    Some(past)
}

// Any blanks, and the brace that closes.
pub fn past_brace(s: &[u8], at: usize) -> Option<usize>
    ensures { result ≡ close_at s.now at }
{
    past_byte(s, blank_end(s, at), b'}')
}
