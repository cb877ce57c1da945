// After parser/mod.rs, `split_sections`: where the four sections of a file stand (01, 'Sections').
#![tactic(auto)]

ghost use Rattle.std.specs.Prelude.{◌≡◌, ◌<◌, length};
ghost use Rattle.head_sections.specs.Split.{starts_at, break_here, break_at, section_at, split_of};

use text_base::{byte_at, newline_end};
use text_parts::{Span, part_of, same_bytes};

// The parts of a file: the texts of its three header sections, and its data.
#[derive(Clone, Copy)]
pub struct Parts {
    pub global: Span,
    pub stream: Span,
    pub position: Span,
    pub rest: Span,
}

// The text of a section: from `start` up to the next "\n[".
#[derive(Clone, Copy)]
pub struct Section {
    pub start: usize,
    pub end: usize,
}

// Whether w stands at a place.
fn starts_with(s: &[u8], at: usize, w: &[u8]) -> bool
    ensures { result ≡ starts_at s.now at w.now }
{
    same_bytes(part_of(s, at, w.len()), w)
}

// Whether "\n[" stands at a place.
fn is_break(s: &[u8], at: usize) -> bool
    ensures { result ≡ break_here s.now at }
{
    if byte_at(s, at) != 10 {
        return false;
    }
    byte_at(s, at + 1) == 91
}

// The first place from `at` on where "\n[" stands; the end if it stands nowhere. A `while`: the place where the loop stops is the answer.
fn next_break(s: &[u8], at: usize) -> usize
    ensures { result ≡ break_at s.now at }
{
    let mut i = at;
    while i < s.len() {
        if is_break(s, i) {
            return i;
        }
        i = i + 1;
    }
    i
}

// The section whose heading stands at a place, if one does.
fn section_at(s: &[u8], at: usize, heading: &[u8]) -> Option<Section>
    requires { 0 < length heading.now }
    ensures { result ≡ section_at s.now at heading.now }
{
    if !starts_with(s, at, heading) {
        return None;
    }
    let start = at + heading.len();
    let end = next_break(s, start);
    if end < s.len() {
        return Some(Section { start, end });
    }
    None
}

// Any newlines, "[GLOBAL]\n", text up to the next "\n["; then [STREAM], [POSITION] likewise, and [DATA], which has the rest. None
// where the file does not split so.
pub fn split_sections(file: &[u8]) -> Option<Parts>
    ensures { result ≡ split_of file.now }
{
    let first = newline_end(file, 0);
    let global = section_at(file, first, b"[GLOBAL]\n")?;
    let stream = section_at(file, global.end + 1, b"[STREAM]\n")?;
    let position = section_at(file, stream.end + 1, b"[POSITION]\n")?;
    if !starts_with(file, position.end + 1, b"[DATA]\n") {
        return None;
    }
    let rest = position.end + 8;
    let parts = Parts {
        global: Span {
            start: global.start,
            len: global.end - global.start,
        },
        stream: Span {
            start: stream.start,
            len: stream.end - stream.start,
        },
        position: Span {
            start: position.start,
            len: position.end - position.start,
        },
        rest: Span {
            start: rest,
            len: file.len() - rest,
        },
    };
    Some(parts)
}
