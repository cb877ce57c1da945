// Whether the names and patterns of question and pattern rows have no byte that the grammar doesn't (02, Wish 6: 22). Any tables; of a row that points
// outside the data the bytes inside count.
#![tactic(auto)]

ghost use Rattle.std.specs.Prelude.{◌≡◌, ◌<◌};
ghost use Rattle.written.specs.Bytes.{part};
ghost use Rattle.laws.specs.Every.{all};
ghost use Rattle.table_rows.specs.Rows.{question_rows, pattern_rows};
ghost use Rattle.write_bytes.specs.Tests.{fits, every, name_fits, pattern_fits, bytes_fit};

use table_rows::{
    pattern_len, pattern_rows, pattern_start, question_len, question_rows, question_start,
};
use text_base::{is_name, is_pattern};
use text_parts::part_of;

// Whether a name has such a byte, or else a pattern.
fn byte_fits(name: bool, x: u8) -> bool
    ensures { result ≡ fits name x }
{
    if name { is_name(x) } else { is_pattern(x) }
}

// Whether all of the n bytes from a on are such.
fn part_fits(s: &[u8], a: usize, n: usize, name: bool) -> bool
    ensures { result ≡ every (fits name) (part s.now a n) }
{
    part_of(s, a, n).iter().all(|&x| byte_fits(name, x))
}

fn name_fits(s: &[u8], questions: &[u64], q: u64) -> bool
    requires { q < question_rows questions.now }
    ensures { result ≡ name_fits s.now questions.now q }
{
    let start = question_start(questions, q);
    let len = question_len(questions, q);
    part_fits(s, start as usize, len as usize, true)
}

fn names_fit(s: &[u8], questions: &[u64]) -> bool
    ensures { result ≡ all (name_fits s.now questions.now) 0 (question_rows questions.now) }
{
    let n = question_rows(questions);
    (0..n).all(|q| name_fits(s, questions, q))
}

fn pattern_fits(s: &[u8], patterns: &[u64], p: u64) -> bool
    requires { p < pattern_rows patterns.now }
    ensures { result ≡ pattern_fits s.now patterns.now p }
{
    let start = pattern_start(patterns, p);
    let len = pattern_len(patterns, p);
    part_fits(s, start as usize, len as usize, false)
}

fn patterns_fit(s: &[u8], patterns: &[u64]) -> bool
    ensures { result ≡ all (pattern_fits s.now patterns.now) 0 (pattern_rows patterns.now) }
{
    let n = pattern_rows(patterns);
    (0..n).all(|p| pattern_fits(s, patterns, p))
}

// All names and all patterns.
pub fn bytes_fit(s: &[u8], questions: &[u64], patterns: &[u64]) -> bool
    ensures { result ≡ bytes_fit s.now questions.now patterns.now }
{
    if !names_fit(s, questions) {
        return false;
    }
    patterns_fit(s, patterns)
}
