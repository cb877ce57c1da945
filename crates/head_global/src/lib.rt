// After header/mod.rs, `Global`: the fields of [GLOBAL], line by line into the words of the record (01, 'Header text').
#![tactic(auto)]

ghost use Rattle.std.specs.Prelude.{◌≡◌, ◌≤◌, length};
ghost use Rattle.written.specs.Record.{global_fields};
ghost use Rattle.std.proofs.lemmas.List.Edits.{sets};
ghost use Rattle.head_record.specs.Empty.{empty_global};
ghost use Rattle.head_words.specs.Words.{Zeros, global_words};
ghost use Rattle.head_lines.specs.Lines.{lines_at, lines_read, kept};
ghost use Rattle.head_global.specs.Global.{stored_in, judged_in, with_line, global_in};

use error::Refusal;
use head_de::Cursor;
use head_de_values::Value;
use head_fields::{Table, missing};
use head_lines::{mark, next_line};
use head_put::{put_span, put_spans, put1};
use head_record::Global;
use head_words::{
    COMMENT, FRAME_PERIOD, FULLCONTEXT_FORMAT, FULLCONTEXT_VERSION, GV_OFF_CONTEXT,
    GV_OFF_CONTEXT_COUNT, HAS_COMMENT, HTS_VOICE_VERSION, NUM_STATES, NUM_STREAMS,
    SAMPLING_FREQUENCY, STREAM_TYPE, STREAM_TYPE_COUNT,
};

// What [GLOBAL] says, as contracts speak of it; where it is refused, the empty struct. No Result: `open_of` and its theorems name the parts, whatever the
// verdict.
#[derive(Clone, Copy)]
pub struct GlobalRead {
    pub verdict: Result<(), Refusal>,
    pub global: Global,
}

// A value where the record has its field; an unknown key's value is dropped.
fn store(words: &mut [u64], field: usize, v: Value)
    requires { 95 ≤ length words.old }
    ensures { words.new ≡ stored_in words.old field v }
{
    match field {
        0 => put_span(words, HTS_VOICE_VERSION, v.span),
        1 => put1(words, SAMPLING_FREQUENCY, v.number),
        2 => put1(words, FRAME_PERIOD, v.number),
        3 => put1(words, NUM_STATES, v.number),
        4 => put1(words, NUM_STREAMS, v.number),
        5 => {
            put_spans(words, STREAM_TYPE, v.spans.items, 8);
            put1(words, STREAM_TYPE_COUNT, v.spans.count as u64);
        }
        6 => put_span(words, FULLCONTEXT_FORMAT, v.span),
        7 => put_span(words, FULLCONTEXT_VERSION, v.span),
        8 => {
            put_spans(words, GV_OFF_CONTEXT, v.spans.items, 32);
            put1(words, GV_OFF_CONTEXT_COUNT, v.spans.count as u64);
        }
        9 => {
            put_span(words, COMMENT, v.span);
            put1(words, HAS_COMMENT, 1);
        }
        _ => {}
    }
}

// Missing fields first, then the limits on counts.
fn judge(seen: [bool; 10], words: &[u64]) -> Result<(), Refusal>
    requires { 95 ≤ length words.now }
    ensures { result ≡ judged_in seen words.now }
{
    if missing(seen, 8) {
        return Err(Refusal::Field);
    }
    if 8 < words[STREAM_TYPE_COUNT] {
        return Err(Refusal::Limit);
    }
    if 32 < words[GV_OFF_CONTEXT_COUNT] {
        return Err(Refusal::Limit);
    }
    Ok(())
}

// [GLOBAL]'s text, from its start to the end of s, into the words of the record; where a line is refused, those before it.
pub fn read_global(s: &[u8], start: usize, words: &mut [u64]) -> Result<(), Refusal>
    requires { (95 ≤ length words.old) × Zeros words.old 0 95 }
    ensures { (result ≡ (global_in (lines_at global_fields s.now start)).verdict) × (words.new ≡ sets words.old 0 (global_words (kept with_line empty_global (lines_read global_fields s.now start)))) }
{
    let mut at = Cursor { at: start };
    let mut seen = [false; 10];
    while let Some(line) = next_line(at, s, Table::Global, seen)? {
        store(words, line.field, line.value);
        let with_field = mark(seen, line.field, 10);
        seen = with_field;
        at = line.next;
    }
    judge(seen, words)
}
