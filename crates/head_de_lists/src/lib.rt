// After header/de.rs, `List`: comma lists of strings and of pairs (01, 'Header text', its second paragraph). A list keeps as many items as the longest
// limit on it, and counts them all.
#![tactic(auto)]

ghost use Rattle.std.specs.Prelude.{◌≡◌, ◌+◌, ◌<◌, ◌^◌, []};
ghost use Rattle.head_de.specs.Values.{delimiters_of, text_at, pair_at};
ghost use Rattle.head_de.specs.Readings.{of_text, of_pair};
ghost use Rattle.head_de_lists.specs.Lists.{spans_of, ranges_of, spans_with, ranges_with, strings_in, pairs_in, items_at, list_at};

use error::Refusal;
use head_de::{Cursor, Delimiter, Delimiters, Read};
use head_record::Range;
use text_parts::Span;

// The first 32 strings of a list, and how many it has.
#[derive(Clone, Copy)]
pub struct Spans {
    pub items: [Span; 32],
    pub count: usize,
}

// The first 8 pairs of a list, and how many it has. Apart from `Spans`: a generic struct holds no array of a type parameter, and a trait over both lists,
// with its laws, is longer than what it would save.
#[derive(Clone, Copy)]
pub struct Ranges {
    pub items: [Range; 8],
    pub count: usize,
}

impl Spans {
    pub fn none() -> Spans
        ensures { result ≡ spans_of [] }
    {
        Spans {
            items: [Span { start: 0, len: 0 }; 32],
            count: 0,
        }
    }

    fn push(self, item: Span) -> Spans
        requires { self.count + 1 < 2 ^ 64 }
        ensures { result ≡ spans_with self item }
    {
        let n = self.count;
        let mut out = self;
        if n < 32 {
            out.items[n] = item;
            out.count = n + 1;
            return out;
        }
        out.count = n + 1;
        out
    }
}

impl Ranges {
    pub fn none() -> Ranges
        ensures { result ≡ ranges_of [] }
    {
        Ranges {
            items: [Range { from: 0, to: 0 }; 8],
            count: 0,
        }
    }

    fn push(self, item: Range) -> Ranges
        requires { self.count + 1 < 2 ^ 64 }
        ensures { result ≡ ranges_with self item }
    {
        let n = self.count;
        let mut out = self;
        if n < 8 {
            out.items[n] = item;
            out.count = n + 1;
            return out;
        }
        out.count = n + 1;
        out
    }
}

// The strings from a place on: `inner` is open in an item, `outer` around the list.
fn strings_from(
    c: Cursor,
    s: &[u8],
    inner: Delimiters,
    outer: Delimiters,
) -> Result<Read<Spans>, Refusal>
    ensures { result ≡ strings_in (items_at (λ i. of_text (text_at (delimiters_of inner) s.now i)) (delimiters_of outer) s.now c.at) }
{
    let mut at = c;
    let mut list = Spans::none();
    loop {
        let item = at.string(s, inner)?;
        list = list.push(item.value);
        let next = item.next;
        match next.delimiter(s, 44, outer) {
            Delimiter::Passed(after) => {
                at = after;
            }
            Delimiter::Closed => {
                return Ok(Read { value: list, next });
            }
            Delimiter::Missing => {
                return Err(Refusal::ExpectedArrayComma(next.at));
            }
        }
    }
}

// A list of strings; one leading comma is swallowed, and empty text is no item.
pub fn strings(
    c: Cursor,
    s: &[u8],
    inner: Delimiters,
    outer: Delimiters,
) -> Result<Read<Spans>, Refusal>
    ensures { result ≡ strings_in (list_at (λ i. of_text (text_at (delimiters_of inner) s.now i)) (delimiters_of outer) s.now c.at) }
{
    match c.delimiter(s, 44, outer) {
        Delimiter::Passed(next) => strings_from(next, s, inner, outer),
        Delimiter::Closed => Ok(Read {
            value: Spans::none(),
            next: c,
        }),
        Delimiter::Missing => strings_from(c, s, inner, outer),
    }
}

// The pairs from a place on.
fn pairs_from(
    c: Cursor,
    s: &[u8],
    inner: Delimiters,
    outer: Delimiters,
) -> Result<Read<Ranges>, Refusal>
    ensures { result ≡ pairs_in (items_at (λ i. of_pair (pair_at (delimiters_of inner) s.now i)) (delimiters_of outer) s.now c.at) }
{
    let mut at = c;
    let mut list = Ranges::none();
    loop {
        let item = at.pair(s, inner)?;
        list = list.push(item.value);
        let next = item.next;
        match next.delimiter(s, 44, outer) {
            Delimiter::Passed(after) => {
                at = after;
            }
            Delimiter::Closed => {
                return Ok(Read { value: list, next });
            }
            Delimiter::Missing => {
                return Err(Refusal::ExpectedArrayComma(next.at));
            }
        }
    }
}

// A list of pairs, likewise.
pub fn pairs(
    c: Cursor,
    s: &[u8],
    inner: Delimiters,
    outer: Delimiters,
) -> Result<Read<Ranges>, Refusal>
    ensures { result ≡ pairs_in (list_at (λ i. of_pair (pair_at (delimiters_of inner) s.now i)) (delimiters_of outer) s.now c.at) }
{
    match c.delimiter(s, 44, outer) {
        Delimiter::Passed(next) => pairs_from(next, s, inner, outer),
        Delimiter::Closed => Ok(Read {
            value: Ranges::none(),
            next: c,
        }),
        Delimiter::Missing => pairs_from(c, s, inner, outer),
    }
}
