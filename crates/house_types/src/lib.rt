// The house's two rules on a voice as a whole (02, Wish 11): NUM_STREAMS is the number of names in STREAM_TYPE (30), and no name stands twice there (31).
#![tactic(auto)]

ghost use Rattle.std.specs.Prelude.{◌≡◌, ◌+◌, ◌*◌, ◌≤◌, ◌<◌, length};
ghost use Rattle.head_words.specs.Words.{word_at, span_at, header_at};
ghost use Rattle.house_types.specs.Types.{new_name, types_once, types_rule};

use head_words::{NUM_STREAMS, STREAM_TYPE, STREAM_TYPE_COUNT};
use text_parts::{Span, same_part};

// The rules' numbers.
pub const STREAM_NUMBER: u64 = 30;

pub const STREAM_TWICE: u64 = 31;

// Where the i-th name stands in the file.
fn type_at(words: &[u64], i: usize) -> Span
    requires { (647 ≤ length words.now) × (i < 8) }
    ensures { result ≡ span_at words.now (6 + 2 * i) }
{
    let at = STREAM_TYPE + 2 * i;
    Span {
        start: words[at] as usize,
        len: words[at + 1] as usize,
    }
}

// Whether no name before the i-th has its bytes.
fn new_name(file: &[u8], words: &[u64], i: usize) -> bool
    requires { (647 ≤ length words.now) × (i < 8) }
    ensures { result ≡ new_name file.now (header_at words.now) i }
{
    let name = type_at(words, i);
    for k in 0..i {
        if same_part(file, type_at(words, k), name) {
            return false;
        }
    }
    true
}

// Whether that is so of each name.
fn types_once(file: &[u8], words: &[u64]) -> bool
    requires { (647 ≤ length words.now) × (word_at words.now 22 ≤ 8) }
    ensures { result ≡ types_once file.now (header_at words.now) }
{
    let n = words[STREAM_TYPE_COUNT] as usize;
    (0..n).all(|i| new_name(file, words, i))
}

// The rule that is broken, or 0. There are at most 8 names.
pub fn judge_types(file: &[u8], words: &[u64]) -> u64
    requires { (647 ≤ length words.now) × (word_at words.now 22 ≤ 8) }
    ensures { result ≡ types_rule file.now (header_at words.now) }
{
    if words[NUM_STREAMS] != words[STREAM_TYPE_COUNT] {
        return STREAM_NUMBER;
    }
    if types_once(file, words) {
        return 0;
    }
    STREAM_TWICE
}
