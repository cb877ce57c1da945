// After header/mod.rs, `Stream` and `Position`: the lines of the two sections, with the fields that stand in no group (01, 'Header text').
//
#![tactic(auto)]

ghost use Rattle.std.specs.Prelude.{◌≡◌};
ghost use Rattle.written.specs.Record.{stream_fields, position_fields};
ghost use Rattle.head_lines.specs.Lines.{lines_at};
ghost use Rattle.head_ungrouped.specs.Ungrouped.{no_durations, stored, judged, durations_in, verdict_in};

use error::Refusal;
use head_de::Cursor;
use head_de_values::Value;
use head_fields::{Table, missing};
use head_lines::{mark, next_line};
use head_record::Range;

// The two ranges of [POSITION] that stand in no group.
#[derive(Clone, Copy)]
pub struct Durations {
    pub pdf: Range,
    pub tree: Range,
}

impl Durations {
    pub fn none() -> Durations
        ensures { result ≡ no_durations }
    {
        Durations {
            pdf: Range { from: 0, to: 0 },
            tree: Range { from: 0, to: 0 },
        }
    }
}

pub fn store(durations: Durations, field: usize, v: Value) -> Durations
    ensures { result ≡ stored durations field v }
{
    let mut d = durations;
    match field {
        0 => {
            d.pdf = v.range;
        }
        1 => {
            d.tree = v.range;
        }
        _ => {}
    }
    d
}

fn judge(seen: [bool; 10], durations: Durations) -> Result<Durations, Refusal>
    ensures { result ≡ judged seen durations }
{
    if missing(seen, 2) {
        return Err(Refusal::Field);
    }
    Ok(durations)
}

// The lines of [POSITION], from its start to the end of s.
pub fn read_durations(s: &[u8], start: usize) -> Result<Durations, Refusal>
    ensures { result ≡ durations_in (lines_at position_fields s.now start) }
{
    let mut at = Cursor { at: start };
    let mut seen = [false; 10];
    let mut durations = Durations::none();
    while let Some(line) = next_line(at, s, Table::Position, seen)? {
        durations = store(durations, line.field, line.value);
        let with_field = mark(seen, line.field, 2);
        seen = with_field;
        at = line.next;
    }
    judge(seen, durations)
}

// The lines of [STREAM], which has no field of its own.
pub fn check_lines(s: &[u8], start: usize) -> Result<(), Refusal>
    ensures { result ≡ verdict_in (lines_at stream_fields s.now start) }
{
    let mut at = Cursor { at: start };
    let seen = [false; 10];
    while let Some(line) = next_line(at, s, Table::Stream, seen)? {
        at = line.next;
    }
    Ok(())
}
