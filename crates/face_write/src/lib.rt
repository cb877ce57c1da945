// Tree text out of the rows of lent tables (02, Wish 6), in numbers (host/larsavim.h): 24, 22, 17 and 20 in this order, or the text's length.
// Any data, any tables, any buffer.
#![tactic(auto)]

ghost use Rattle.std.specs.Prelude.{◌≡◌, Err};
ghost use Rattle.write_tables.specs.Answers.{number_of};
ghost use Rattle.face_write.specs.Answers.{wrote_by, length_said, WriteSaid};

use write_tables::{WriteFault, measure, write_tables};

// 0 and the length, or why nothing is written and 0. An exported call hands it to C number by number.
#[derive(Clone, Copy)]
pub struct Wrote {
    pub number: u64,
    pub len: u64,
}

// The number of what keeps a text from being written.
fn number_of(why: WriteFault) -> u64
    ensures { result ≡ number_of (Err why) }
{
    match why {
        WriteFault::Outside => 24,
        WriteFault::OddByte => 22,
        WriteFault::Unread => 17,
        WriteFault::Room => 20,
    }
}

fn wrote_of(answer: Result<usize, WriteFault>) -> Wrote
    ensures { result ≡ wrote_by answer }
{
    match answer {
        Ok(n) => Wrote {
            number: 0,
            len: n as u64,
        },
        Err(why) => Wrote {
            number: number_of(why),
            len: 0,
        },
    }
}

// How long the text is.
pub fn length_said(
    s: &[u8],
    questions: &[u64],
    patterns: &[u64],
    trees: &[u64],
    records: &[u64],
) -> Wrote
    ensures { result ≡ length_said s.now questions.now patterns.now trees.now records.now }
{
    wrote_of(measure(s, questions, patterns, trees, records))
}

// The text to the front of the buffer.
pub fn write_said(
    b: &mut [u8],
    s: &[u8],
    questions: &[u64],
    patterns: &[u64],
    trees: &[u64],
    records: &[u64],
) -> Wrote
    ensures { WriteSaid b.old s.now questions.now patterns.now trees.now records.now result b.new }
{
    wrote_of(write_tables(b, s, questions, patterns, trees, records))
}
