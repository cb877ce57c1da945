// The tree text of all rows of lent tables (02, Wish 6), put into a buffer from a place on; the place behind it says its length, also without a
// buffer. Any tables; whether they can be written is judged before.
#![tactic(auto)]

ghost use mathlib.Core.List.{map, flatten};
ghost use Rattle.std.specs.Prelude.{◌<◌};
ghost use Rattle.written.specs.Writing.{spelled_patterns, spelled_question, spelled_line, spelled_body, spelled_tree, spelled};
ghost use Rattle.write_put.specs.Puts.{Put};
ghost use Rattle.table_rows.specs.Rows.{question_rows, tree_rows};
ghost use Rattle.write_parts.specs.Parts.{each, pattern_of, question_of, line_of, body_of, tree_of};
ghost use Rattle.write_text.specs.Text.{text_of};

use table_rows::{
    question_first, question_patterns, question_rows, tree_first, tree_lines, tree_records,
    tree_rows, tree_state,
};
use write_figures::put_figures;
use write_parts::{put_leaf, put_line, put_name, put_quoted};
use write_put::{put1, put2, put3, put5};

// "x*", "y": n patterns from row `first` on.
fn put_patterns(b: &mut [u8], at: usize, s: &[u8], patterns: &[u64], first: u64, n: u64) -> usize
    ensures { Put b.old at (spelled_patterns (each (pattern_of s.now patterns.now first) 0 n)) result b.new }
{
    let mut i = at;
    for k in 0..n {
        let more = k + 1 < n;
        i = put_quoted(b, i, s, patterns, first, k, more);
    }
    i
}

// QS A { patterns }
fn put_question(
    b: &mut [u8],
    at: usize,
    s: &[u8],
    questions: &[u64],
    patterns: &[u64],
    q: u64,
) -> usize
    requires { q < question_rows questions.now }
    ensures { Put b.old at (spelled_question (question_of s.now questions.now patterns.now q)) result b.new }
{
    let first = question_first(questions, q);
    let n = question_patterns(questions, q);
    let name = put3(b, at, 81, 83, 32);
    let brace = put_name(b, name, s, questions, q);
    let list = put3(b, brace, 32, 123, 32);
    let end = put_patterns(b, list, s, patterns, first, n);
    put3(b, end, 32, 125, 10)
}

fn put_questions(b: &mut [u8], at: usize, s: &[u8], questions: &[u64], patterns: &[u64]) -> usize
    ensures { Put b.old at (flatten (map spelled_question (each (question_of s.now questions.now patterns.now) 0 (question_rows questions.now)))) result b.new }
{
    let n = question_rows(questions);
    let mut i = at;
    for q in 0..n {
        i = put_question(b, i, s, questions, patterns, q);
    }
    i
}

// The lines of a tree whose first record stands in row `first`.
fn put_lines(
    b: &mut [u8],
    at: usize,
    s: &[u8],
    questions: &[u64],
    records: &[u64],
    first: u64,
    lines: u64,
) -> usize
    ensures { Put b.old at (flatten (map spelled_line (each (line_of s.now questions.now records.now first lines) 0 lines))) result b.new }
{
    let mut i = at;
    for k in 0..lines {
        i = put_line(b, i, s, questions, records, first, lines, k);
    }
    i
}

// What follows [state]: a bare leaf, or braces with the lines.
fn put_body(
    b: &mut [u8],
    at: usize,
    s: &[u8],
    questions: &[u64],
    records: &[u64],
    first: u64,
    count: u64,
    lines: u64,
) -> usize
    ensures { Put b.old at (spelled_body (body_of s.now questions.now records.now first count lines)) result b.new }
{
    if lines == 0 {
        if count == 0 {
            return put3(b, at, 123, 10, 125);
        }
        return put_leaf(b, at, records, first, 0);
    }
    let start = put2(b, at, 123, 10);
    let end = put_lines(b, start, s, questions, records, first, lines);
    put1(b, end, 125)
}

// {*} [2] body
fn put_tree(
    b: &mut [u8],
    at: usize,
    s: &[u8],
    questions: &[u64],
    trees: &[u64],
    records: &[u64],
    t: u64,
) -> usize
    requires { t < tree_rows trees.now }
    ensures { Put b.old at (spelled_tree (tree_of s.now questions.now trees.now records.now t)) result b.new }
{
    let state = tree_state(trees, t);
    let first = tree_first(trees, t);
    let count = tree_records(trees, t);
    let lines = tree_lines(trees, t);
    let digits = put5(b, at, 123, 42, 125, 32, 91);
    let bracket = put_figures(b, digits, state);
    let body = put2(b, bracket, 93, 32);
    let end = put_body(b, body, s, questions, records, first, count, lines);
    put1(b, end, 10)
}

fn put_trees(
    b: &mut [u8],
    at: usize,
    s: &[u8],
    questions: &[u64],
    trees: &[u64],
    records: &[u64],
) -> usize
    ensures { Put b.old at (flatten (map spelled_tree (each (tree_of s.now questions.now trees.now records.now) 0 (tree_rows trees.now)))) result b.new }
{
    let n = tree_rows(trees);
    let mut i = at;
    for t in 0..n {
        i = put_tree(b, i, s, questions, trees, records, t);
    }
    i
}

// The whole text, from the buffer's front on.
pub fn put_text(
    b: &mut [u8],
    s: &[u8],
    questions: &[u64],
    patterns: &[u64],
    trees: &[u64],
    records: &[u64],
) -> usize
    ensures { Put b.old 0 (spelled (text_of s.now questions.now patterns.now trees.now records.now)) result b.new }
{
    let first_tree = put_questions(b, 0, s, questions, patterns);
    put_trees(b, first_tree, s, questions, trees, records)
}
