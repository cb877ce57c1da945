// Whether all that the rows of lent tables point at stands inside its table or the data (02, Wish 6: 24). Any tables.
#![tactic(auto)]

ghost use Rattle.std.specs.Prelude.{◌≡◌, ◌<◌};
ghost use Rattle.laws.specs.Every.{all};
ghost use Rattle.table_rows.specs.Rows.{question_rows, pattern_rows, tree_rows, record_rows};
ghost use Rattle.write_rows.specs.Tests.{among, question_in, pattern_in, asks_in, goes_in, tree_in, rows_in};

use table_rows::{
    pattern_len, pattern_rows, pattern_start, question_first, question_len, question_patterns,
    question_rows, question_start, question_there, record_kind, record_no, record_question,
    record_rows, record_yes, row_there, tree_first, tree_records, tree_rows,
};

// Whether n things from a on stand among m; none do wherever they start. The sum is not made: it may be no number.
fn among_them(a: u64, n: u64, m: u64) -> bool
    ensures { result ≡ among a n m }
{
    if n == 0 {
        return true;
    }
    if m < n {
        return false;
    }
    a <= m - n
}

// Question q: its name in the data, its patterns in their table.
fn question_in(s: &[u8], questions: &[u64], patterns: &[u64], q: u64) -> bool
    requires { q < question_rows questions.now }
    ensures { result ≡ question_in s.now questions.now patterns.now q }
{
    let start = question_start(questions, q);
    let len = question_len(questions, q);
    if !among_them(start, len, s.len() as u64) {
        return false;
    }
    let first = question_first(questions, q);
    let n = question_patterns(questions, q);
    among_them(first, n, pattern_rows(patterns))
}

fn questions_in(s: &[u8], questions: &[u64], patterns: &[u64]) -> bool
    ensures { result ≡ all (question_in s.now questions.now patterns.now) 0 (question_rows questions.now) }
{
    let n = question_rows(questions);
    (0..n).all(|q| question_in(s, questions, patterns, q))
}

// Pattern p: its bytes in the data.
fn pattern_in(s: &[u8], patterns: &[u64], p: u64) -> bool
    requires { p < pattern_rows patterns.now }
    ensures { result ≡ pattern_in s.now patterns.now p }
{
    let start = pattern_start(patterns, p);
    let len = pattern_len(patterns, p);
    among_them(start, len, s.len() as u64)
}

fn patterns_in(s: &[u8], patterns: &[u64]) -> bool
    ensures { result ≡ all (pattern_in s.now patterns.now) 0 (pattern_rows patterns.now) }
{
    let n = pattern_rows(patterns);
    (0..n).all(|p| pattern_in(s, patterns, p))
}

// Record i, in a tree or not: the question that it asks.
fn asks_in(questions: &[u64], records: &[u64], i: u64) -> bool
    requires { i < record_rows records.now }
    ensures { result ≡ asks_in questions.now records.now i }
{
    if record_kind(records, i) == 0 {
        return question_there(questions, record_question(records, i));
    }
    true
}

fn all_ask_in(questions: &[u64], records: &[u64]) -> bool
    ensures { result ≡ all (asks_in questions.now records.now) 0 (record_rows records.now) }
{
    let n = record_rows(records);
    (0..n).all(|i| asks_in(questions, records, i))
}

// Record k of a tree whose first stands in row `first`: in the table, and so where it goes.
fn goes_in(records: &[u64], first: u64, k: u64) -> bool
    ensures { result ≡ goes_in records.now first k }
{
    let rows = record_rows(records);
    if !row_there(rows, first, k) {
        return false;
    }
    let i = first + k;
    if record_kind(records, i) == 0 {
        if !row_there(rows, first, record_yes(records, i)) {
            return false;
        }
        return row_there(rows, first, record_no(records, i));
    }
    true
}

// The records of tree t. The first that is not in the table ends it, however many the tree claims.
fn tree_in(trees: &[u64], records: &[u64], t: u64) -> bool
    requires { t < tree_rows trees.now }
    ensures { result ≡ tree_in trees.now records.now t }
{
    let first = tree_first(trees, t);
    let n = tree_records(trees, t);
    (0..n).all(|k| goes_in(records, first, k))
}

fn trees_in(trees: &[u64], records: &[u64]) -> bool
    ensures { result ≡ all (tree_in trees.now records.now) 0 (tree_rows trees.now) }
{
    let n = tree_rows(trees);
    (0..n).all(|t| tree_in(trees, records, t))
}

// All rows of all tables.
pub fn rows_in(
    s: &[u8],
    questions: &[u64],
    patterns: &[u64],
    trees: &[u64],
    records: &[u64],
) -> bool
    ensures { result ≡ rows_in s.now questions.now patterns.now trees.now records.now }
{
    if !questions_in(s, questions, patterns) {
        return false;
    }
    if !patterns_in(s, patterns) {
        return false;
    }
    if !all_ask_in(questions, records) {
        return false;
    }
    trees_in(trees, records)
}
