// Tree text written out of the rows of lent tables (02, Wish 6). Everything is judged and measured before the first byte is stored, so that a refusal
// leaves the buffer as it was. Any data, any tables, any buffer.
#![tactic(auto)]

ghost use Rattle.std.specs.Prelude.{◌≡◌, min, length};
ghost use Rattle.write_tables.specs.Answers.{judged_of, bytes_of, measure_of, Answered};

use write_bytes::bytes_fit;
use write_links::links_fit;
use write_rows::rows_in;
use write_text::put_text;

// Why no text is written.
#[derive(Clone, Copy)]
pub enum WriteFault {
    // 24: a row points outside its table or the data
    Outside,
    // 22: a byte that no name or pattern has
    OddByte,
    // 17: rows that no text reads back to
    Unread,
    // 20: the buffer is shorter than the text
    Room,
}

// Whether the rows can be written; each test over all rows before the next.
fn judge(
    s: &[u8],
    questions: &[u64],
    patterns: &[u64],
    trees: &[u64],
    records: &[u64],
) -> Result<(), WriteFault>
    ensures { result ≡ judged_of s.now questions.now patterns.now trees.now records.now }
{
    if !rows_in(s, questions, patterns, trees, records) {
        return Err(WriteFault::Outside);
    }
    if !bytes_fit(s, questions, patterns) {
        return Err(WriteFault::OddByte);
    }
    if !links_fit(s, questions, patterns, trees, records) {
        return Err(WriteFault::Unread);
    }
    Ok(())
}

// The text's length, or 2^64 - 1 where that is no number: the text put where no buffer is.
fn text_len(s: &[u8], questions: &[u64], patterns: &[u64], trees: &[u64], records: &[u64]) -> usize
    ensures { result ≡ min (length (bytes_of s.now questions.now patterns.now trees.now records.now)) 18446744073709551615 }
{
    let mut none = [0u8; 1];
    put_text(&mut none, s, questions, patterns, trees, records)
}

// How long the text is, or why there is none.
pub fn measure(
    s: &[u8],
    questions: &[u64],
    patterns: &[u64],
    trees: &[u64],
    records: &[u64],
) -> Result<usize, WriteFault>
    ensures { result ≡ measure_of s.now questions.now patterns.now trees.now records.now }
{
    judge(s, questions, patterns, trees, records)?;
    Ok(text_len(s, questions, patterns, trees, records))
}

// Writes the text to the front of the buffer.
pub fn write_tables(
    b: &mut [u8],
    s: &[u8],
    questions: &[u64],
    patterns: &[u64],
    trees: &[u64],
    records: &[u64],
) -> Result<usize, WriteFault>
    ensures { Answered b.old s.now questions.now patterns.now trees.now records.now result b.new }
{
    judge(s, questions, patterns, trees, records)?;
    let n = text_len(s, questions, patterns, trees, records);
    if b.len() < n {
        return Err(WriteFault::Room);
    }
    let end = put_text(b, s, questions, patterns, trees, records);
    Ok(end)
}
