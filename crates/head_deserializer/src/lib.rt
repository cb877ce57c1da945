// After header/de.rs, `Deserializer<'de>`: a reader that holds its section, the cursor in it and the delimiters now open (01, 'Header text').
// The functions over a struct that holds a slice are few and thin: a method takes it apart and calls the one of `head_de`.
// Whoever reads a section calls `scalar_in`, whose parameters are plain.
#![tactic(auto)]

ghost use Rattle.std.specs.Prelude.{◌≡◌, false};
ghost use Rattle.head_record.specs.Empty.{no_span, no_range};
ghost use Rattle.head_de.specs.Values.{cursor, delimiters_of, text_at, number_at, flag_at, delimiter_at, pair_at};
ghost use Rattle.head_deserializer.specs.Scalars.{holding, scalar_of, with_text, with_number, with_flag, with_pair, scalar_at};

use error::Refusal;
use head_de::{Cursor, Delimiter, Delimiters, Read};
use head_record::Range;
use text_parts::Span;

#[derive(Clone, Copy)]
pub struct Deserializer<'de> {
    pub section: &'de [u8],
    pub cursor: Cursor,
    pub delimiters: Delimiters,
}

// What is asked for: a value that is no list.
#[derive(Clone, Copy)]
pub enum Asked {
    Text,
    Number,
    Flag,
    Pair,
}

// A value that is no list; the parts that its kind does not have are zero, and so are all where it is refused. One struct, and no enum of kinds or of a value and a
// refusal: so the value is filled where it stands.
#[derive(Clone, Copy)]
pub struct Scalar {
    pub outcome: Result<Cursor, Refusal>,
    pub number: u64,
    pub flag: bool,
    pub span: Span,
    pub range: Range,
}

impl Scalar {
    fn none(outcome: Result<Cursor, Refusal>) -> Scalar
        ensures { result ≡ scalar_of outcome 0 false no_span no_range }
    {
        Scalar {
            outcome,
            number: 0,
            flag: false,
            span: Span { start: 0, len: 0 },
            range: Range { from: 0, to: 0 },
        }
    }

    fn of_text(x: Result<Read<Span>, Refusal>) -> Scalar
        ensures { result ≡ with_text x }
    {
        match x {
            Ok(x) => Scalar {
                span: x.value,
                ..Scalar::none(Ok(x.next))
            },
            Err(refusal) => Scalar::none(Err(refusal)),
        }
    }

    fn of_number(x: Result<Read<u64>, Refusal>) -> Scalar
        ensures { result ≡ with_number x }
    {
        match x {
            Ok(x) => Scalar {
                number: x.value,
                ..Scalar::none(Ok(x.next))
            },
            Err(refusal) => Scalar::none(Err(refusal)),
        }
    }

    fn of_flag(x: Result<Read<bool>, Refusal>) -> Scalar
        ensures { result ≡ with_flag x }
    {
        match x {
            Ok(x) => Scalar {
                flag: x.value,
                ..Scalar::none(Ok(x.next))
            },
            Err(refusal) => Scalar::none(Err(refusal)),
        }
    }

    fn of_pair(x: Result<Read<Range>, Refusal>) -> Scalar
        ensures { result ≡ with_pair x }
    {
        match x {
            Ok(x) => Scalar {
                range: x.value,
                ..Scalar::none(Ok(x.next))
            },
            Err(refusal) => Scalar::none(Err(refusal)),
        }
    }
}

impl<'de> Deserializer<'de> {
    pub fn from_section(section: &'de [u8], delimiters: Delimiters) -> Deserializer<'de>
        ensures { result ≡ holding section.entry (cursor 0) delimiters }
    {
        Deserializer {
            section,
            cursor: Cursor { at: 0 },
            delimiters,
        }
    }

    // On to the cursor that a step handed back.
    pub fn moved(self, cursor: Cursor) -> Deserializer<'de>
        ensures { result ≡ holding self.entry.section cursor self.entry.delimiters }
    {
        Deserializer {
            section: self.section,
            cursor,
            delimiters: self.delimiters,
        }
    }

    pub fn string(self) -> Result<Read<Span>, Refusal>
        ensures { result ≡ text_at (delimiters_of self.entry.delimiters) self.entry.section.now self.entry.cursor.at }
    {
        self.cursor.string(self.section, self.delimiters)
    }

    pub fn number(self) -> Result<Read<u64>, Refusal>
        ensures { result ≡ number_at self.entry.section.now self.entry.cursor.at }
    {
        self.cursor.number(self.section)
    }

    pub fn flag(self) -> Result<Read<bool>, Refusal>
        ensures { result ≡ flag_at self.entry.section.now self.entry.cursor.at }
    {
        self.cursor.flag(self.section)
    }

    // The delimiter of a sequence inside those that are open.
    pub fn delimiter(self, current: u32) -> Delimiter
        ensures { result ≡ delimiter_at current (delimiters_of self.entry.delimiters) self.entry.section.now self.entry.cursor.at }
    {
        self.cursor
            .delimiter(self.section, current, self.delimiters)
    }

    pub fn pair(self) -> Result<Read<Range>, Refusal>
        ensures { result ≡ pair_at (delimiters_of self.entry.delimiters) self.entry.section.now self.entry.cursor.at }
    {
        self.cursor.pair(self.section, self.delimiters)
    }

    // By the method for what is asked.
    pub fn value(self, asked: Asked) -> Scalar
        ensures { result ≡ scalar_at asked (delimiters_of self.entry.delimiters) self.entry.section.now self.entry.cursor.at }
    {
        match asked {
            Asked::Text => Scalar::of_text(self.string()),
            Asked::Number => Scalar::of_number(self.number()),
            Asked::Flag => Scalar::of_flag(self.flag()),
            Asked::Pair => Scalar::of_pair(self.pair()),
        }
    }
}

// The value of a kind that stands at a cursor of a section.
pub fn scalar_in(section: &[u8], cursor: Cursor, delimiters: Delimiters, asked: Asked) -> Scalar
    ensures { result ≡ scalar_at asked (delimiters_of delimiters) section.now cursor.at }
{
    Deserializer::from_section(section, delimiters)
        .moved(cursor)
        .value(asked)
}
