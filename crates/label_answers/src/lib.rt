// After voice/question.rs: the answers to all questions of a model, for one label (02, Wish 1). One byte a question row, 1 where any of its patterns matches the whole
// label. All rows are judged before the first byte is written. Any label, any tables, any data.
#![tactic(auto)]

ghost use Rattle.std.specs.Prelude.{◌≡◌, true, ◌+◌, ◌≤◌, ◌<◌, length};
ghost use Rattle.std.proofs.lemmas.List.Edits.{sets};
ghost use Rattle.table_rows.specs.Rows.{question_rows};
ghost use Rattle.label_answers.specs.Answering.{bytes_fit, pattern_fits, row_fits, rows_fit, pattern_matches, row_matches, answer_bytes, Answering};

use label_match::matches;
use table_rows::{
    pattern_len, pattern_rows, pattern_start, question_first, question_patterns, question_rows,
    row_there,
};

// 20: the answer slice is shorter than the questions.
const ROOM: u64 = 20;

// 24: a pattern isn't in its table, or its bytes aren't in the data.
const OUTSIDE: u64 = 24;

// Whether so many bytes from a start on stand in the data; none do wherever they start.
fn bytes_fit(data: &[u8], start: u64, len: u64) -> bool
    ensures { result ≡ bytes_fit «data».now start len }
{
    if len == 0 {
        return true;
    }
    let all = data.len() as u64;
    if all < start {
        return false;
    }
    len <= all - start
}

// Whether pattern first + k is a row of its table, with its bytes in the data.
fn pattern_fits(patterns: &[u64], data: &[u8], first: u64, k: u64) -> bool
    ensures { result ≡ pattern_fits patterns.now «data».now (first + k) }
{
    if !row_there(pattern_rows(patterns), first, k) {
        return false;
    }
    let p = first + k;
    bytes_fit(data, pattern_start(patterns, p), pattern_len(patterns, p))
}

// Whether all patterns of question q fit. The first that isn't in the table ends it, however many the row claims.
fn row_fits(questions: &[u64], patterns: &[u64], data: &[u8], q: u64) -> bool
    requires { q < question_rows questions.now }
    ensures { result ≡ row_fits questions.now patterns.now «data».now q }
{
    let first = question_first(questions, q);
    let count = question_patterns(questions, q);
    (0..count).all(|k| pattern_fits(patterns, data, first, k))
}

// Whether all rows fit.
fn rows_fit(questions: &[u64], patterns: &[u64], data: &[u8]) -> bool
    ensures { result ≡ rows_fit questions.now patterns.now «data».now }
{
    let rows = question_rows(questions);
    (0..rows).all(|q| row_fits(questions, patterns, data, q))
}

// Whether pattern p matches the label. An empty one matches the empty label, wherever it starts.
fn pattern_matches(label: &[u8], patterns: &[u64], data: &[u8], p: u64) -> bool
    requires { pattern_fits patterns.now «data».now p ≡ true }
    ensures { result ≡ pattern_matches label.now patterns.now «data».now p }
{
    let len = pattern_len(patterns, p);
    if len == 0 {
        return label.len() == 0;
    }
    let start = pattern_start(patterns, p) as usize;
    let end = start + len as usize;
    matches(&data[start..end], label)
}

// Whether any pattern of question q matches the label.
#[tactic(auto, using(laws::proofs::Every::seeking))]
fn any_matches(label: &[u8], questions: &[u64], patterns: &[u64], data: &[u8], q: u64) -> bool
    requires { (q < question_rows questions.now) × (row_fits questions.now patterns.now «data».now q ≡ true) }
    ensures { result ≡ row_matches label.now questions.now patterns.now «data».now q }
{
    let first = question_first(questions, q);
    let count = question_patterns(questions, q);
    for k in 0..count {
        if pattern_matches(label, patterns, data, first + k) {
            return true;
        }
    }
    false
}

// The byte of each question, in front.
fn fill_answers(label: &[u8], questions: &[u64], patterns: &[u64], data: &[u8], answers: &mut [u8])
    requires { (rows_fit questions.now patterns.now «data».now ≡ true) × (question_rows questions.now ≤ length answers.old) }
    ensures { answers.new ≡ sets answers.old 0 (answer_bytes label.now questions.now patterns.now «data».now) }
{
    let rows = question_rows(questions);
    for q in 0..rows {
        answers[q as usize] = any_matches(label, questions, patterns, data, q) as u8;
    }
}

// The number of the call; on 0 the bytes stand in front of the slice, else it is unchanged.
pub fn answers_said(
    label: &[u8],
    questions: &[u64],
    patterns: &[u64],
    data: &[u8],
    answers: &mut [u8],
) -> u64
    ensures { Answering label.now questions.now patterns.now «data».now answers.old result answers.new }
{
    if !rows_fit(questions, patterns, data) {
        return OUTSIDE;
    }
    if (answers.len() as u64) < question_rows(questions) {
        return ROOM;
    }
    fill_answers(label, questions, patterns, data, answers);
    0
}
