// Whether some text reads back to question and pattern rows (02, Wish 6: 17), and which question a line can ask: the last of its name. Any tables.
#![tactic(auto)]

ghost use Rattle.std.specs.Prelude.{◌≡◌, not, ◌<◌, ◌≤◌};
ghost use Rattle.written.specs.Bytes.{same};
ghost use Rattle.laws.specs.Every.{all};
ghost use Rattle.table_rows.specs.Rows.{question_rows, pattern_rows, record_rows};
ghost use Rattle.write_questions.specs.Tests.{next_in, chained, some_byte, questions_fit, last_named, asks_other, not_hidden, none_hidden};

use link_order::{compare_names, name_of};
use std::cmp::Ordering;
use table_rows::{
    pattern_len, pattern_rows, question_first, question_len, question_patterns, question_rows,
    record_kind, record_question, record_rows,
};

// Whether question q has a name, and patterns that begin behind the k before them.
fn next_in(questions: &[u64], patterns: &[u64], k: u64, q: u64) -> bool
    requires { (q < question_rows questions.now) × (k ≤ pattern_rows patterns.now) }
    ensures { result ≡ next_in questions.now patterns.now k q }
{
    if question_len(questions, q) == 0 {
        return false;
    }
    let n = question_patterns(questions, q);
    if n == 0 {
        return false;
    }
    if question_first(questions, q) != k {
        return false;
    }
    n <= pattern_rows(patterns) - k
}

// All questions one behind the other, and no pattern left.
fn follow(questions: &[u64], patterns: &[u64]) -> bool
    ensures { result ≡ chained questions.now patterns.now 0 0 (question_rows questions.now) }
{
    let n = question_rows(questions);
    let mut k = 0;
    for q in 0..n {
        if !next_in(questions, patterns, k, q) {
            return false;
        }
        k += question_patterns(questions, q);
    }
    k == pattern_rows(patterns)
}

// Whether pattern p has a byte.
fn some_byte(patterns: &[u64], p: u64) -> bool
    requires { p < pattern_rows patterns.now }
    ensures { result ≡ some_byte patterns.now p }
{
    0 < pattern_len(patterns, p)
}

fn some_bytes(patterns: &[u64]) -> bool
    ensures { result ≡ all (some_byte patterns.now) 0 (pattern_rows patterns.now) }
{
    let n = pattern_rows(patterns);
    (0..n).all(|p| some_byte(patterns, p))
}

// All questions and all patterns.
pub fn questions_fit(questions: &[u64], patterns: &[u64]) -> bool
    ensures { result ≡ questions_fit questions.now patterns.now }
{
    if !follow(questions, patterns) {
        return false;
    }
    some_bytes(patterns)
}

// Whether two names are the same. By their ends: names mostly begin alike.
fn same_name(a: &[u8], b: &[u8]) -> bool
    ensures { result ≡ same a.now b.now }
{
    match compare_names(a, b) {
        Ordering::Equal => true,
        Ordering::Less => false,
        Ordering::Greater => false,
    }
}

// Whether q is the last question of its name.
fn last_named(s: &[u8], questions: &[u64], q: u64) -> bool
    requires { q < question_rows questions.now }
    ensures { result ≡ last_named s.now questions.now q }
{
    let n = question_rows(questions);
    let name = name_of(s, questions, q);
    for j in q + 1..n {
        if same_name(name_of(s, questions, j), name) {
            return false;
        }
    }
    true
}

// Whether record i asks q.
fn asks(records: &[u64], q: u64, i: u64) -> bool
    requires { i < record_rows records.now }
    ensures { not result ≡ asks_other records.now q i }
{
    record_kind(records, i) == 0 && record_question(records, i) == q
}

// Whether no record asks q.
fn none_asks(records: &[u64], q: u64) -> bool
    ensures { result ≡ all (asks_other records.now q) 0 (record_rows records.now) }
{
    let n = record_rows(records);
    (0..n).all(|i| !asks(records, q, i))
}

// Question q: nothing asks it, if a later one has its name.
fn not_hidden(s: &[u8], questions: &[u64], records: &[u64], q: u64) -> bool
    requires { q < question_rows questions.now }
    ensures { result ≡ not_hidden s.now questions.now records.now q }
{
    if last_named(s, questions, q) {
        return true;
    }
    none_asks(records, q)
}

// Whether every question that a record asks is the last of its name. Questions by questions, not records by questions: a tree asks the same ones often.
pub fn none_hidden(s: &[u8], questions: &[u64], records: &[u64]) -> bool
    ensures { result ≡ none_hidden s.now questions.now records.now }
{
    let n = question_rows(questions);
    (0..n).all(|q| not_hidden(s, questions, records, q))
}
