// After header/deserialize_hashmap.rs: the lines of [STREAM] and [POSITION] that belong to bracketed groups (01, 'Header text', its third paragraph).
// The lines are known to be whole when they are gone through by groups; one that is not ends them.
#![tactic(auto)]

ghost use Rattle.std.specs.Prelude.{◌≡◌, ◌+◌};
ghost use Rattle.head_fields.specs.Fields.{fields_of};
ghost use Rattle.head_lines.specs.Lines.{some_of, line_in};
ghost use Rattle.head_brackets.specs.Rows.{split_of, key_row, row_at, row_line_at};

use error::Refusal;
use head_de::{Cursor, Delimiters, Read};
use head_de_values::{Around, read};
use head_fields::{Table, field_of, kind_of};
use head_lines::{Line, next_key, stood};
use text_base::byte_at;
use text_parts::{Span, part_of, up_to};

// A key that names a group: the lengths of the field's name before the bracket and of the group's name inside.
#[derive(Clone, Copy)]
pub struct Brackets {
    pub field: usize,
    pub name: usize,
}

// A line of a group: where the field's and the group's names stand, and its value's start and end.
#[derive(Clone, Copy)]
pub struct Row {
    pub field: Span,
    pub name: Span,
    pub value: usize,
    pub end: usize,
}

// The next line. No Option: a line of no group still says where the one behind it starts.
#[derive(Clone, Copy)]
pub enum RowAt {
    Found(Row),
    // a line of no group, up to there
    Other(Cursor),
    End,
}

// The names of the groups found, as contracts speak of them: the first 8 of them; 9 counts for more, so it is no `Spans` of `head_de_lists`, which counts
// them all.
#[derive(Clone, Copy)]
pub struct Names {
    pub items: [Span; 8],
    pub count: usize,
}

// A key ending in `]` with a `[` names the group between its first `[` and its last `]`.
pub fn split_key(key: &[u8]) -> Option<Brackets>
    ensures { result ≡ split_of key.now }
{
    let n = key.len();
    if n == 0 {
        return None;
    }
    if byte_at(key, n - 1) != 93 {
        return None;
    }
    let first = Cursor { at: 0 };
    let bracket = first.until(key, Delimiters::Bracket);
    let field = bracket.at;
    if n <= field + 1 {
        return None;
    }
    Some(Brackets {
        field,
        name: n - field - 2,
    })
}

// The line behind a key.
fn row_behind(key: Read<Span>, s: &[u8]) -> RowAt
    ensures { result ≡ key_row s.now key.value.start key.value.len key.next.at }
{
    let colon = key.next.at;
    if byte_at(s, colon) != 58 {
        return RowAt::End;
    }
    let value = colon + 1;
    let behind = Cursor { at: value };
    let end = behind.until(s, Delimiters::Newline);
    let start = key.value.start;
    match split_key(part_of(s, start, key.value.len)) {
        Some(split) => {
            let row = Row {
                field: Span {
                    start,
                    len: split.field,
                },
                name: Span {
                    start: start + split.field + 1,
                    len: split.name,
                },
                value,
                end: end.at,
            };
            RowAt::Found(row)
        }
        None => RowAt::Other(end),
    }
}

// The next line, as a line of a group if it is one.
#[tactic(auto, unfolding(crate::specs::Rows::row_at))]
pub fn row_at(c: Cursor, s: &[u8]) -> RowAt
    ensures { result ≡ row_at s.now c.at }
{
    match next_key(c, s) {
        Ok(Some(key)) => row_behind(key, s),
        Ok(None) => RowAt::End,
        Err(_) => RowAt::End,
    }
}

// A row's value, read alone; what follows a complete value is ignored. A field that repeats is refused.
pub fn row_line(s: &[u8], row: Row, table: Table, seen: [bool; 10]) -> Result<Line, Refusal>
    ensures { some_of result ≡ line_in (fields_of table) (row_line_at (fields_of table) seen s.now row) }
{
    let name = row.field;
    let field = field_of(table, part_of(s, name.start, name.len));
    if stood(seen, field) {
        return Err(Refusal::Field);
    }
    let found = read(
        Cursor { at: row.value },
        up_to(s, row.end),
        kind_of(table, field),
        Around::Alone,
    )?;
    Ok(Line {
        field,
        value: found.value,
        next: found.next,
    })
}
