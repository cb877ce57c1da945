// The groups of [STREAM] and [POSITION] while they stand in the words of the record, 8 of one width behind each other: which names are known, and the limits
// on their counts (01, 'What the loader covers'). Any numbers in the words.
#![tactic(auto)]

ghost use Rattle.std.specs.Prelude.{◌≡◌, ◌+◌, ◌*◌, ◌≤◌, ◌<◌, length};
ghost use Rattle.head_brackets.specs.Rows.{known_in};
ghost use Rattle.text_parts.specs.Parts.{bytes_of};
ghost use Rattle.head_group_words.specs.Groups.{names_at, judged_in};

use error::Refusal;
use text_parts::{Span, same_part};

// Whether one of the first n groups from `at` on has the bytes of x for its name, of the first 8.
pub fn known(s: &[u8], words: &[u64], at: usize, width: usize, n: usize, x: Span) -> bool
    requires { (2 ≤ width) × (at + width * 8 ≤ length words.now) }
    ensures { result ≡ known_in s.now (names_at words.now at width) n (bytes_of s.now x) }
{
    for k in 0..n {
        if k < 8 {
            let place = at + width * k;
            let name = Span {
                start: words[place] as usize,
                len: words[place + 1] as usize,
            };
            if same_part(s, name, x) {
                return true;
            }
        }
    }
    false
}

// The limits on counts: n groups, and in each the list whose count stands at `at` for the first.
pub fn judge(words: &[u64], at: usize, width: usize, limit: u64, n: usize) -> Result<(), Refusal>
    requires { at + width * 7 < length words.now }
    ensures { result ≡ judged_in words.now at width limit n }
{
    if 8 < n {
        return Err(Refusal::Limit);
    }
    for k in (0..8).rev() {
        if limit < words[at + width * k] {
            return Err(Refusal::Limit);
        }
    }
    Ok(())
}
