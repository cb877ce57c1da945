// After header/de.rs: a value of any kind, as its field says (01, 'Header text'). A line's value is read with the newline open, a group's alone.
//
#![tactic(auto)]

ghost use Rattle.std.specs.Prelude.{◌≡◌, ◌∷◌};
ghost use Rattle.written.specs.Bytes.{comma};
ghost use Rattle.written.specs.HeaderText.{a_string, a_number, a_bool, strings, a_pair, pairs, perhaps_a_pair, anything};
ghost use Rattle.head_de.specs.Values.{delimiters_of};
ghost use Rattle.head_de_values.specs.Values.{around_of, kind_from, kind_asked, blank_value, of_scalar, value_in, read_at};

use error::Refusal;
use head_de::{Cursor, Delimiters, Read};
use head_de_lists::{Ranges, Spans, pairs, strings};
use head_deserializer::{Asked, Scalar, scalar_in};
use head_record::Range;
use text_parts::Span;

// How the value of a field is read.
#[derive(Clone, Copy)]
pub enum Kind {
    Text,
    Number,
    Flag,
    Strings,
    Pair,
    Pairs,
    // an empty one counts as absent
    PerhapsPair,
    // of an unknown key: to the newline, quotes ignored
    Anything,
}

// What is open around a value: the newline, or nothing.
#[derive(Clone, Copy)]
pub enum Around {
    Line,
    Alone,
}

// A value; the parts that its kind does not have are zero. `flag` says too whether a perhaps absent pair is there. One struct for every kind, and no enum:
// `stored` of the sections is said by the parts, whatever the kind.
#[derive(Clone, Copy)]
pub struct Value {
    pub number: u64,
    pub flag: bool,
    pub span: Span,
    pub range: Range,
    pub spans: Spans,
    pub ranges: Ranges,
}

impl Around {
    fn outer(self) -> Delimiters
        ensures { delimiters_of result ≡ around_of self }
    {
        match self {
            Around::Line => Delimiters::Newline,
            Around::Alone => Delimiters::Nothing,
        }
    }

    // in an item of a list
    fn inner(self) -> Delimiters
        ensures { delimiters_of result ≡ comma ∷ around_of self }
    {
        match self {
            Around::Line => Delimiters::CommaNewline,
            Around::Alone => Delimiters::Comma,
        }
    }
}

impl Value {
    #[tactic(auto, unfolding(crate::specs::Values::blank_value))]
    pub fn blank() -> Value
        ensures { result ≡ blank_value }
    {
        Value {
            number: 0,
            flag: false,
            span: Span { start: 0, len: 0 },
            range: Range { from: 0, to: 0 },
            spans: Spans::none(),
            ranges: Ranges::none(),
        }
    }

    #[tactic(auto, unfolding(crate::specs::Values::blank_value))]
    fn of_scalar(x: Scalar) -> Value
        ensures { result ≡ of_scalar x }
    {
        Value {
            number: x.number,
            flag: x.flag,
            span: x.span,
            range: x.range,
            ..Value::blank()
        }
    }
}

// A value that is no list, by a reader that holds the section.
fn read_scalar(c: Cursor, s: &[u8], around: Around, asked: Asked) -> Result<Read<Value>, Refusal>
    ensures { result ≡ value_in (read_at (around_of around) s.now c.at (kind_asked asked)) }
{
    let x = scalar_in(s, c, around.outer(), asked);
    let next = x.outcome?;
    Ok(Read {
        value: Value::of_scalar(x),
        next,
    })
}

fn read_text(c: Cursor, s: &[u8], around: Around) -> Result<Read<Value>, Refusal>
    ensures { result ≡ value_in (read_at (around_of around) s.now c.at a_string) }
{
    read_scalar(c, s, around, Asked::Text)
}

fn read_number(c: Cursor, s: &[u8], around: Around) -> Result<Read<Value>, Refusal>
    ensures { result ≡ value_in (read_at (around_of around) s.now c.at a_number) }
{
    read_scalar(c, s, around, Asked::Number)
}

fn read_flag(c: Cursor, s: &[u8], around: Around) -> Result<Read<Value>, Refusal>
    ensures { result ≡ value_in (read_at (around_of around) s.now c.at a_bool) }
{
    read_scalar(c, s, around, Asked::Flag)
}

fn read_strings(c: Cursor, s: &[u8], around: Around) -> Result<Read<Value>, Refusal>
    ensures { result ≡ value_in (read_at (around_of around) s.now c.at strings) }
{
    let found = strings(c, s, around.inner(), around.outer())?;
    let mut value = Value::blank();
    value.spans = found.value;
    Ok(Read {
        value,
        next: found.next,
    })
}

fn read_pair(c: Cursor, s: &[u8], around: Around) -> Result<Read<Value>, Refusal>
    ensures { result ≡ value_in (read_at (around_of around) s.now c.at a_pair) }
{
    read_scalar(c, s, around, Asked::Pair)
}

fn read_pairs(c: Cursor, s: &[u8], around: Around) -> Result<Read<Value>, Refusal>
    ensures { result ≡ value_in (read_at (around_of around) s.now c.at pairs) }
{
    let found = pairs(c, s, around.inner(), around.outer())?;
    let mut value = Value::blank();
    value.ranges = found.value;
    Ok(Read {
        value,
        next: found.next,
    })
}

fn read_perhaps(c: Cursor, s: &[u8], around: Around) -> Result<Read<Value>, Refusal>
    ensures { result ≡ value_in (read_at (around_of around) s.now c.at perhaps_a_pair) }
{
    if c.ends(s, Delimiters::Newline) {
        return Ok(Read {
            value: Value::blank(),
            next: c,
        });
    }
    let mut found = read_pair(c, s, around)?;
    found.value.flag = true;
    Ok(found)
}

fn read_anything(c: Cursor, s: &[u8], around: Around) -> Result<Read<Value>, Refusal>
    ensures { result ≡ value_in (read_at (around_of around) s.now c.at anything) }
{
    let next = c.until(s, around.outer());
    let span = Span {
        start: c.at,
        len: next.at - c.at,
    };
    let mut value = Value::blank();
    value.span = span;
    Ok(Read { value, next })
}

pub fn read(c: Cursor, s: &[u8], kind: Kind, around: Around) -> Result<Read<Value>, Refusal>
    ensures { result ≡ value_in (read_at (around_of around) s.now c.at (kind_from kind)) }
{
    match kind {
        Kind::Text => read_text(c, s, around),
        Kind::Number => read_number(c, s, around),
        Kind::Flag => read_flag(c, s, around),
        Kind::Strings => read_strings(c, s, around),
        Kind::Pair => read_pair(c, s, around),
        Kind::Pairs => read_pairs(c, s, around),
        Kind::PerhapsPair => read_perhaps(c, s, around),
        Kind::Anything => read_anything(c, s, around),
    }
}
