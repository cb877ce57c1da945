// After header/de.rs, `NewlineSeparated`: the lines of a section, key, `:`, value (01, 'Header text').
#![tactic(auto)]

ghost use Rattle.std.specs.Prelude.{◌≡◌, ◌≤◌};
ghost use Rattle.head_de_values.specs.Values.{kind_from, value_in};
ghost use Rattle.head_fields.specs.Fields.{fields_of};
ghost use Rattle.head_lines.specs.Lines.{key_at, stood_at, marked, line_value_at, line_at, line_in};

use error::Refusal;
use head_de::{Cursor, Delimiters, Read};
use head_de_values::{Around, Kind, Value, read};
use head_fields::{Table, field_of, kind_of};
use text_base::{byte_at, newline_end};
use text_parts::{Span, part_of};

// A line: the number of the field that its key names, its value, and the cursor behind it.
#[derive(Clone, Copy)]
pub struct Line {
    pub field: usize,
    pub value: Value,
    pub next: Cursor,
}

// The key of the next line, without its quotes if it has any; blank lines are passed over. None at the end.
pub fn next_key(c: Cursor, s: &[u8]) -> Result<Option<Read<Span>>, Refusal>
    ensures { result ≡ key_at s.now c.at }
{
    let at = newline_end(s, c.at);
    if byte_at(s, at) == 256 {
        return Ok(None);
    }
    let first = Cursor { at };
    let key = first.string(s, Delimiters::NewlineColon)?;
    Ok(Some(key))
}

// Whether the field of a number stood before; an unknown key never did.
pub fn stood(seen: [bool; 10], field: usize) -> bool
    ensures { result ≡ stood_at seen field }
{
    if field < 10 { seen[field] } else { false }
}

// The fields that stood, with the field of a number, of the first n.
pub fn mark(seen: [bool; 10], field: usize, n: usize) -> [bool; 10]
    requires { n ≤ 10 }
    ensures { result ≡ marked n seen field }
{
    let mut out = seen;
    if field < n {
        out[field] = true;
    }
    out
}

// What stands behind a key: `:`, a value, and then a newline or the end.
fn line_value(c: Cursor, s: &[u8], kind: Kind) -> Result<Read<Value>, Refusal>
    ensures { result ≡ value_in (line_value_at s.now c.at (kind_from kind)) }
{
    let at = c.at;
    let b = byte_at(s, at);
    if b == 256 {
        return Err(Refusal::Eof(s.len()));
    }
    if b != 58 {
        return Err(Refusal::ExpectedMapColon(at));
    }
    let found = read(Cursor { at: at + 1 }, s, kind, Around::Line)?;
    let next = found.next;
    if !next.ends(s, Delimiters::Newline) {
        return Err(Refusal::ExpectedMapNewline(next.at));
    }
    Ok(found)
}

// The next line, where `seen` says which fields stood before; a field that repeats is refused at its key. None at the end.
pub fn next_line(
    c: Cursor,
    s: &[u8],
    table: Table,
    seen: [bool; 10],
) -> Result<Option<Line>, Refusal>
    ensures { result ≡ line_in (fields_of table) (line_at (fields_of table) seen s.now c.at) }
{
    let Some(key) = next_key(c, s)? else {
        return Ok(None);
    };
    let name = key.value;
    let field = field_of(table, part_of(s, name.start, name.len));
    if stood(seen, field) {
        return Err(Refusal::Field);
    }
    let found = line_value(key.next, s, kind_of(table, field))?;
    Ok(Some(Line {
        field,
        value: found.value,
        next: found.next,
    }))
}
