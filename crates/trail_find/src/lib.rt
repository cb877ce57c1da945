// The rows of a trailer at a file's end (02, Wish 7): where they begin and how many there are, by the last 12 bytes; and those of one model. A row is three 32-bit
// numbers, little-endian: the model, the offset of the tree's `{*}` from the first data byte, the lines of its row. Any bytes; only the rows and the last 12 are read.
#![tactic(auto)]

ghost use Rattle.std.specs.Prelude.{◌≡◌, ◌+◌, ◌*◌, ◌≤◌, length};
ghost use Rattle.trail_find.specs.Rows.{trail_at, offsets_at, nth_of};

use error::Refusal;
use pdf_blocks::word;

// Where the rows of a trailer begin, and how many there are.
#[derive(Clone, Copy)]
pub struct Trail {
    pub begin: usize,
    pub count: usize,
}

// What the last 12 bytes say, of a file that has so many bytes of data: 26 where there are fewer than 12, 28 where the rows don't end where the three numbers begin.
pub fn find_trail(s: &[u8], len: usize) -> Result<Trail, Refusal>
    requires { len ≤ length s.now }
    ensures { result ≡ trail_at s.now len }
{
    if len < 12 {
        return Err(Refusal::NoTrailer);
    }
    let end = s.len() - 12;
    let count = word(s, end) as usize;
    let begin = word(s, end + 4) as usize;
    if begin + 12 * count == end {
        return Ok(Trail { begin, count });
    }
    Err(Refusal::TrailerRows)
}

// The offset in the k-th of a model's rows.
pub fn find_offset(s: &[u8], begin: usize, count: usize, model: u64, k: u64) -> Option<u64>
    requires { begin + 12 * count ≤ length s.now }
    ensures { result ≡ nth_of (offsets_at s.now model begin count) k }
{
    let mut before = k;
    for row in 0..count {
        let i = begin + 12 * row;
        if word(s, i) as u64 == model {
            if before == 0 {
                return Some(word(s, i + 4) as u64);
            }
            before -= 1;
        }
    }
    None
}

// How many rows a model has.
pub fn count_offsets(s: &[u8], begin: usize, count: usize, model: u64) -> usize
    requires { begin + 12 * count ≤ length s.now }
    ensures { result ≡ length (offsets_at s.now model begin count) }
{
    let mut n = 0;
    for row in 0..count {
        if word(s, begin + 12 * row) as u64 == model {
            n += 1;
        }
    }
    n
}
