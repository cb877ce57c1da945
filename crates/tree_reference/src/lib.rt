// After model/tree.rs, `parse_tree_index`: references (01, 'Tree text').
// A reference is bare or in `"`: a number that fits signed 64 bits is a node; failing that, letters, digits and `_` are a PDF, by the digits at their end.
// Every function takes any bytes and any place, also one past the end. A place is an index into the slice.
#![tactic(auto)]

ghost use Rattle.std.specs.Prelude.{◌≡◌, Some};
ghost use Rattle.tree_reference.specs.References.{pdf_of, pdf_at, bare_at, quoted_at, reference_at, same_index, pdf_count};
ghost use Rattle.text_parts.specs.Parts.{read_to};

use text_base::{is_digit, is_word};
use text_numbers::parse_signed;
use text_parts::Read;
use text_spaces::past_byte;

// Where a line leads: to the line that bears an id, or to the PDF of a number.
#[derive(Clone, Copy)]
pub enum TreeIndex {
    Node(i64),
    Pdf(i64),
}

// The PDF whose number the bytes from `start` up to `end` say, digits at the end of a word.
fn some_pdf(s: &[u8], start: usize, end: usize) -> Option<Read<TreeIndex>>
    ensures { result ≡ pdf_of s.now end start }
{
    if end <= start {
        return None;
    }
    let number = parse_signed(s, start)?;
    Some(Read {
        value: TreeIndex::Pdf(number.value),
        next: number.next,
    })
}

// Letters, digits and `_`, as far as they go; the digits at their end say the number, and begin at `start`.
fn parse_pdf(s: &[u8], at: usize) -> Option<Read<TreeIndex>>
    ensures { result ≡ pdf_at s.now at }
{
    let mut start = at;
    let mut i = at;
    // A `while`: the place where the loop stops is an answer.
    while i < s.len() {
        let b = s[i];
        if !is_digit(b) {
            if !is_word(b) {
                break;
            }
            start = i + 1;
        }
        i = i + 1;
    }
    some_pdf(s, start, i)
}

// A reference without quotes.
fn parse_bare(s: &[u8], at: usize) -> Option<Read<TreeIndex>>
    ensures { result ≡ bare_at s.now at }
{
    match parse_signed(s, at) {
        Some(number) => Some(Read {
            value: TreeIndex::Node(number.value),
            next: number.next,
        }),
        None => parse_pdf(s, at),
    }
}

// What was found, put together from its parts: copied whole, as bytes, it would be read before its parts are written, and a processor waits for that.
fn found(index: TreeIndex, next: usize) -> Option<Read<TreeIndex>>
    ensures { result ≡ Some (read_to index next) }
{
    match index {
        TreeIndex::Node(x) => Some(Read {
            value: TreeIndex::Node(x),
            next,
        }),
        TreeIndex::Pdf(x) => Some(Read {
            value: TreeIndex::Pdf(x),
            next,
        }),
    }
}

// A reference from `at` on, and the quote behind it.
fn parse_quoted(s: &[u8], at: usize) -> Option<Read<TreeIndex>>
    ensures { result ≡ quoted_at s.now at }
{
    let inside = parse_bare(s, at)?;
    let past = past_byte(s, inside.next, b'"')?;
    found(inside.value, past)
}

// A reference, bare or in `"`.
pub fn parse_tree_index(s: &[u8], at: usize) -> Option<Read<TreeIndex>>
    ensures { result ≡ reference_at s.now at }
{
    match past_byte(s, at, b'"') {
        Some(inside) => parse_quoted(s, inside),
        None => {
            let bare = parse_bare(s, at)?;
            found(bare.value, bare.next)
        }
    }
}

// Whether two references are of the same kind and number.
pub fn same_index(a: TreeIndex, b: TreeIndex) -> bool
    ensures { result ≡ same_index a b }
{
    match a {
        TreeIndex::Node(x) => match b {
            TreeIndex::Node(y) => x == y,
            TreeIndex::Pdf(_) => false,
        },
        TreeIndex::Pdf(x) => match b {
            TreeIndex::Node(_) => false,
            TreeIndex::Pdf(y) => x == y,
        },
    }
}

// The leaves that a reference asks for: one for a PDF, none for a node.
pub fn pdf_count(a: TreeIndex) -> usize
    ensures { result ≡ pdf_count a }
{
    match a {
        TreeIndex::Node(_) => 0,
        TreeIndex::Pdf(_) => 1,
    }
}
