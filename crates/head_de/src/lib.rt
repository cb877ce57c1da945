// After header/de.rs: the values of header text (01, 'Header text'), read by a cursor that is passed by value and handed back.
// A reader gets the file up to the end of the section or of the group value, so that a place is a file offset. It takes any bytes and any place.
//
#![tactic(auto)]

ghost use Rattle.std.specs.Prelude.{◌≡◌};
ghost use Rattle.written.specs.Bytes.{one_of, none_of};
ghost use Rattle.laws.specs.Runs.{stop};
ghost use Rattle.head_de.specs.Values.{cursor, delimiters_of, ends_at, text_at, number_at, flag_at, delimiter_at, element_at, pair_at};

use error::Refusal;
use head_record::Range;
use text_base::byte_at;
use text_numbers::{NumberError, parse_unsigned};
use text_parts::Span;

#[derive(Clone, Copy)]
pub struct Cursor {
    pub at: usize,
}

// The delimiters now open, two at most: what a string without quotes runs up to.
#[derive(Clone, Copy)]
pub enum Delimiters {
    Nothing,
    Newline,
    NewlineColon,
    Comma,
    CommaNewline,
    // what a string in quotes runs up to
    Quote,
    // what the field's name in a key of a group runs up to
    Bracket,
}

// What was read, and the cursor behind it.
#[derive(Clone, Copy)]
pub struct Read<T> {
    pub value: T,
    pub next: Cursor,
}

// What stands where a sequence may go on. Three answers: what closes one sequence refuses nothing.
#[derive(Clone, Copy)]
pub enum Delimiter {
    // its own delimiter, now passed
    Passed(Cursor),
    // another open one, or the end
    Closed,
    Missing,
}

pub fn is_delimiter(d: Delimiters, b: u32) -> bool
    ensures { result ≡ one_of (delimiters_of d) b }
{
    match d {
        Delimiters::Nothing => false,
        Delimiters::Newline => b == 10,
        Delimiters::NewlineColon => b == 10 || b == 58,
        Delimiters::Comma => b == 44,
        Delimiters::CommaNewline => b == 44 || b == 10,
        Delimiters::Quote => b == 34,
        Delimiters::Bracket => b == 91,
    }
}

impl Cursor {
    // Whether an open delimiter or the end stands there.
    pub fn ends(self, s: &[u8], d: Delimiters) -> bool
        ensures { result ≡ ends_at (delimiters_of d) s.now self.at }
    {
        let b = byte_at(s, self.at);
        if b == 256 {
            return true;
        }
        is_delimiter(d, b)
    }

    // To the first open delimiter, or to the end. A `while`: the place where the loop stops is the answer, also for one past the end.
    pub fn until(self, s: &[u8], d: Delimiters) -> Cursor
        ensures { result ≡ cursor (stop (none_of (delimiters_of d)) s.now self.at) }
    {
        let mut i = self.at;
        while i < s.len() {
            if is_delimiter(d, byte_at(s, i)) {
                return Cursor { at: i };
            }
            i = i + 1;
        }
        Cursor { at: i }
    }

    // A string: a part of the file, without quotes. One that opens with a quote runs to the next one, newlines included; otherwise to an open delimiter.
    pub fn string(self, s: &[u8], d: Delimiters) -> Result<Read<Span>, Refusal>
        ensures { result ≡ text_at (delimiters_of d) s.now self.at }
    {
        let at = self.at;
        if byte_at(s, at) == 34 {
            let start = at + 1;
            let inside = Cursor { at: start };
            let closing = inside.until(s, Delimiters::Quote);
            let end = closing.at;
            if end < s.len() {
                let value = Span {
                    start,
                    len: end - start,
                };
                return Ok(Read {
                    value,
                    next: Cursor { at: end + 1 },
                });
            }
            return Err(Refusal::Eof(s.len()));
        }
        let next = self.until(s, d);
        let value = Span {
            start: at,
            len: next.at - at,
        };
        Ok(Read { value, next })
    }

    pub fn number(self, s: &[u8]) -> Result<Read<u64>, Refusal>
        ensures { result ≡ number_at s.now self.at }
    {
        let at = self.at;
        match parse_unsigned(s, at) {
            Ok(read) => Ok(Read {
                value: read.value,
                next: Cursor { at: read.next },
            }),
            Err(NumberError::TooLarge) => Err(Refusal::Number(at)),
            Err(NumberError::NoDigit) => {
                if byte_at(s, at) == 256 {
                    return Err(Refusal::Eof(s.len()));
                }
                Err(Refusal::ExpectedInteger(at))
            }
        }
    }

    pub fn flag(self, s: &[u8]) -> Result<Read<bool>, Refusal>
        ensures { result ≡ flag_at s.now self.at }
    {
        let at = self.at;
        let b = byte_at(s, at);
        if b == 256 {
            return Err(Refusal::Eof(s.len()));
        }
        if b == 48 {
            return Ok(Read {
                value: false,
                next: Cursor { at: at + 1 },
            });
        }
        if b == 49 {
            return Ok(Read {
                value: true,
                next: Cursor { at: at + 1 },
            });
        }
        Err(Refusal::ExpectedBool(at))
    }

    // The delimiter of the innermost sequence is passed; d are those around it.
    pub fn delimiter(self, s: &[u8], current: u32, d: Delimiters) -> Delimiter
        ensures { result ≡ delimiter_at current (delimiters_of d) s.now self.at }
    {
        let at = self.at;
        let b = byte_at(s, at);
        if b == 256 {
            return Delimiter::Closed;
        }
        if b == current {
            return Delimiter::Passed(Cursor { at: at + 1 });
        }
        if is_delimiter(d, b) {
            return Delimiter::Closed;
        }
        Delimiter::Missing
    }

    // A number of a pair, behind its `-`; the first may stand without. A pair that ends before it has fewer than two numbers.
    pub fn element(self, s: &[u8], d: Delimiters, first: bool) -> Result<Read<u64>, Refusal>
        ensures { result ≡ element_at (delimiters_of d) first s.now self.at }
    {
        match self.delimiter(s, 45, d) {
            Delimiter::Passed(next) => next.number(s),
            Delimiter::Closed => Err(Refusal::Field),
            Delimiter::Missing => {
                if first {
                    return self.number(s);
                }
                Err(Refusal::ExpectedArrayComma(self.at))
            }
        }
    }

    pub fn pair(self, s: &[u8], d: Delimiters) -> Result<Read<Range>, Refusal>
        ensures { result ≡ pair_at (delimiters_of d) s.now self.at }
    {
        let first = self.element(s, d, true)?;
        let second = first.next.element(s, d, false)?;
        let value = Range {
            from: first.value,
            to: second.value,
        };
        Ok(Read {
            value,
            next: second.next,
        })
    }
}
