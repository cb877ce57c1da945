// After header/mod.rs, `StreamData`: the fields of a group of [STREAM], row by row into the words of the record (01, 'Header text', its third paragraph).
//
#![tactic(auto)]

ghost use Rattle.std.specs.Prelude.{◌≡◌, length, replicate};
ghost use Rattle.head_brackets.specs.Rows.{rows_at, over, last_of};
ghost use Rattle.text_parts.specs.Parts.{bytes_of};
ghost use Rattle.head_words.specs.Words.{stream_words};
ghost use Rattle.head_stream.specs.Group.{named, stored_in, with_row, group_in};

use error::Refusal;
use head_brackets::{RowAt, row_at, row_line};
use head_de::Cursor;
use head_de_values::Value;
use head_fields::{Table, missing};
use head_lines::mark;
use head_put::{put_span, put_spans, put1};
use head_record::StreamData;
use head_words::{IS_MSD, NUM_WINDOWS, OPTION, OPTION_COUNT, USE_GV, VECTOR_LENGTH};
use text_parts::{Span, same_part};

// A group while it is read, as the contract speaks of it: which fields stood, and their values.
#[derive(Clone, Copy)]
pub struct Group {
    pub seen: [bool; 10],
    pub item: StreamData,
}

// What a group says, as contracts speak of it; where it is refused, the empty struct. No Result: `with_group` names the parts, whatever the verdict.
#[derive(Clone, Copy)]
pub struct GroupRead {
    pub verdict: Result<(), Refusal>,
    pub item: StreamData,
}

// A value where the group has its field; an unknown one's is dropped.
fn store(item: &mut [u64], field: usize, v: Value)
    requires { length item.old ≡ 39 }
    ensures { item.new ≡ stored_in item.old field v }
{
    match field {
        0 => put1(item, VECTOR_LENGTH, v.number),
        1 => put1(item, NUM_WINDOWS, v.number),
        2 => put1(item, IS_MSD, v.flag as u64),
        3 => put1(item, USE_GV, v.flag as u64),
        4 => {
            put_spans(item, OPTION, v.spans.items, 16);
            put1(item, OPTION_COUNT, v.spans.count as u64);
        }
        _ => {}
    }
}

// The group of that name into its words, out of the rows of the section that starts at `start`; where it is refused, what stood before the fault.
pub fn read_group(s: &[u8], start: usize, name: Span, item: &mut [u64]) -> Result<(), Refusal>
    requires { item.old ≡ replicate 39 0 }
    ensures { (result ≡ (group_in (over (with_row s.now (bytes_of s.now name)) (named name) (rows_at s.now start))).verdict) × (item.new ≡ stream_words (last_of (with_row s.now (bytes_of s.now name)) (named name) (rows_at s.now start)).item) }
{
    let mut at = Cursor { at: start };
    let mut seen = [false; 10];
    put_span(item, 0, name);
    loop {
        match row_at(at, s) {
            RowAt::Found(row) => {
                at = Cursor { at: row.end };
                if same_part(s, row.name, name) {
                    let line = row_line(s, row, Table::StreamGroup, seen)?;
                    let with_field = mark(seen, line.field, 5);
                    seen = with_field;
                    store(item, line.field, line.value);
                }
            }
            RowAt::Other(next) => {
                at = next;
            }
            RowAt::End => {
                if missing(seen, 3) {
                    return Err(Refusal::Field);
                }
                return Ok(());
            }
        }
    }
}
