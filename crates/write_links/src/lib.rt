// Whether some text reads back to the rows of lent tables (02, Wish 6: 17). Any tables; of tables whose rows point inside it is the whole answer.
#![tactic(auto)]

ghost use Rattle.std.specs.Prelude.{◌≡◌, ◌-◌, ◌<◌, ◌≤◌};
ghost use Rattle.laws.specs.Every.{all};
ghost use Rattle.table_rows.specs.Rows.{tree_rows, record_rows};
ghost use Rattle.write_links.specs.Tests.{leaf_at, leaf_in, ref_in, line_in, unlike, bare_in, lines_in, body_in, tree_in, grown, links_fit};

use table_rows::{record_rows, tree_first, tree_lines, tree_records, tree_rows, tree_state};
use write_counts::{all_counted, first_leaf};
use write_questions::{none_hidden, questions_fit};
use write_records::{goes_no, goes_yes, kind, number};

// 2^63: a state or a number of a PDF that a text can have is below it.
const TOO_LARGE: u64 = 9223372036854775808;

// Whether record k is a leaf that a text can have.
fn leaf_at(records: &[u64], first: u64, k: u64) -> bool
    ensures { result ≡ leaf_at records.now first k }
{
    if kind(records, first, k) != 1 {
        return false;
    }
    if TOO_LARGE <= number(records, first, k) {
        return false;
    }
    if goes_yes(records, first, k) != 0 {
        return false;
    }
    goes_no(records, first, k) == 0
}

// Record k behind the lines: a leaf, and not below the one before it.
fn leaf_in(records: &[u64], first: u64, lines: u64, k: u64) -> bool
    requires { lines ≤ k }
    ensures { result ≡ leaf_in records.now first lines k }
{
    if !leaf_at(records, first, k) {
        return false;
    }
    if k == lines {
        return true;
    }
    number(records, first, k - 1) <= number(records, first, k)
}

fn leaves_in(records: &[u64], first: u64, count: u64, lines: u64) -> bool
    ensures { result ≡ all (leaf_in records.now first lines) lines (count - lines) }
{
    (lines..count).all(|k| leaf_in(records, first, lines, k))
}

// A reference to record k: a line, or the first leaf of its number.
fn ref_in(records: &[u64], first: u64, count: u64, lines: u64, k: u64) -> bool
    ensures { result ≡ ref_in records.now first count lines k }
{
    if count <= k {
        return false;
    }
    if k < lines {
        return true;
    }
    first_leaf(records, first, lines, k)
}

fn line_in(records: &[u64], first: u64, count: u64, lines: u64, k: u64) -> bool
    ensures { result ≡ line_in records.now first count lines k }
{
    if kind(records, first, k) != 0 {
        return false;
    }
    if !ref_in(records, first, count, lines, goes_yes(records, first, k)) {
        return false;
    }
    ref_in(records, first, count, lines, goes_no(records, first, k))
}

fn lines_stand(records: &[u64], first: u64, count: u64, lines: u64) -> bool
    ensures { result ≡ all (line_in records.now first count lines) 0 lines }
{
    (0..lines).all(|k| line_in(records, first, count, lines, k))
}

// Whether it isn't one line with two like references.
fn unlike_refs(records: &[u64], first: u64, lines: u64) -> bool
    ensures { result ≡ unlike records.now first lines }
{
    if lines != 1 {
        return true;
    }
    goes_yes(records, first, 0) != goes_no(records, first, 0)
}

// No line: no record, or one leaf.
fn bare_in(records: &[u64], first: u64, count: u64) -> bool
    ensures { result ≡ bare_in records.now first count }
{
    if count == 0 {
        return true;
    }
    if count != 1 {
        return false;
    }
    leaf_at(records, first, 0)
}

// Lines, then leaves.
fn lines_in(records: &[u64], first: u64, count: u64, lines: u64) -> bool
    requires { count ≤ record_rows records.now }
    ensures { result ≡ lines_in records.now first count lines }
{
    if count < lines {
        return false;
    }
    if !unlike_refs(records, first, lines) {
        return false;
    }
    if !lines_stand(records, first, count, lines) {
        return false;
    }
    if !leaves_in(records, first, count, lines) {
        return false;
    }
    all_counted(records, first, count, lines)
}

fn body_in(records: &[u64], first: u64, count: u64, lines: u64) -> bool
    requires { count ≤ record_rows records.now }
    ensures { result ≡ body_in records.now first count lines }
{
    if lines == 0 {
        return bare_in(records, first, count);
    }
    lines_in(records, first, count, lines)
}

// Tree t, whose records begin behind the k before them.
fn tree_in(trees: &[u64], records: &[u64], k: u64, t: u64) -> bool
    requires { (t < tree_rows trees.now) × (k ≤ record_rows records.now) }
    ensures { result ≡ tree_in trees.now records.now k t }
{
    if TOO_LARGE <= tree_state(trees, t) {
        return false;
    }
    let first = tree_first(trees, t);
    if first != k {
        return false;
    }
    let count = tree_records(trees, t);
    if record_rows(records) - k < count {
        return false;
    }
    body_in(records, first, count, tree_lines(trees, t))
}

// All trees one behind the other, and no record left.
fn grow(trees: &[u64], records: &[u64]) -> bool
    ensures { result ≡ grown trees.now records.now 0 0 (tree_rows trees.now) }
{
    let n = tree_rows(trees);
    let mut k = 0;
    for t in 0..n {
        if !tree_in(trees, records, k, t) {
            return false;
        }
        k += tree_records(trees, t);
    }
    k == record_rows(records)
}

// All rows. Names last: looking for a later question of the same name takes the longest.
pub fn links_fit(
    s: &[u8],
    questions: &[u64],
    patterns: &[u64],
    trees: &[u64],
    records: &[u64],
) -> bool
    ensures { result ≡ links_fit s.now questions.now patterns.now trees.now records.now }
{
    if tree_rows(trees) == 0 {
        return false;
    }
    if !questions_fit(questions, patterns) {
        return false;
    }
    if !grow(trees, records) {
        return false;
    }
    none_hidden(s, questions, records)
}
