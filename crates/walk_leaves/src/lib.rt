// The leaf check (01, 'Linking and tables'; 02, Wishes 3 and 10): whether every leaf of loaded tables has its entry, and all that the tables refer to stands
// inside them. For any tables and any width.
#![tactic(auto)]

ghost use Rattle.std.specs.Prelude.{◌≡◌, ◌<◌};
ghost use Rattle.table_rows.specs.Rows.{tree_rows, record_rows};
ghost use Rattle.laws.specs.Every.{all};
ghost use Rattle.walk_leaves.specs.Checks.{line_fits, record_fits, values_fit, tree_fits, leaves_fit};
ghost use Rattle.walk_leaves.specs.Conditions.{leaf_fits};

use table_rows::{
    question_there, record_kind, record_no, record_pdf, record_question, record_there, record_yes,
    tree_entries, tree_first, tree_records, tree_rows, tree_value,
};

// Whether a leaf's number is that of an entry of its tree's block: entries count from 1.
pub fn leaf_fits(number: u64, entries: u64) -> bool
    ensures { result ≡ leaf_fits number entries }
{
    1 <= number && number <= entries
}

// Whether entries of so many values stand in the table. The product is not made: it may be above any number.
fn values_fit(values: &[u64], first: u64, entries: u64, width: u64) -> bool
    ensures { result ≡ values_fit values.now first entries width }
{
    if entries == 0 {
        return true;
    }
    if width == 0 {
        return true;
    }
    let len = values.len() as u64;
    if len < first {
        return false;
    }
    width <= (len - first) / entries
}

// A line at row i: its question, and its yes and no among the tree's records.
fn line_fits(questions: &[u64], records: &[u64], count: u64, i: u64) -> bool
    requires { i < record_rows records.now }
    ensures { result ≡ line_fits questions.now records.now count i }
{
    if !question_there(questions, record_question(records, i)) {
        return false;
    }
    if count <= record_yes(records, i) {
        return false;
    }
    record_no(records, i) < count
}

// Record k of a tree with `count` records from `first` on, whose block has so many entries.
fn record_fits(
    questions: &[u64],
    records: &[u64],
    first: u64,
    count: u64,
    entries: u64,
    k: u64,
) -> bool
    ensures { result ≡ record_fits questions.now records.now first count entries k }
{
    if !record_there(records, first, count, k) {
        return false;
    }
    let i = first + k;
    let kind = record_kind(records, i);
    if kind == 0 {
        line_fits(questions, records, count, i)
    } else if kind == 1 {
        leaf_fits(record_pdf(records, i), entries)
    } else {
        false
    }
}

// All records of a tree. The first that is not in the table ends it, however many the tree claims.
fn records_fit(questions: &[u64], records: &[u64], first: u64, count: u64, entries: u64) -> bool
    ensures { result ≡ all (record_fits questions.now records.now first count entries) 0 count }
{
    (0..count).all(|k| record_fits(questions, records, first, count, entries, k))
}

// Tree t: its values, its records.
fn tree_fits(
    questions: &[u64],
    trees: &[u64],
    records: &[u64],
    values: &[u64],
    width: u64,
    t: u64,
) -> bool
    requires { t < tree_rows trees.now }
    ensures { result ≡ tree_fits questions.now trees.now records.now values.now width t }
{
    let entries = tree_entries(trees, t);
    if !values_fit(values, tree_value(trees, t), entries, width) {
        return false;
    }
    records_fit(
        questions,
        records,
        tree_first(trees, t),
        tree_records(trees, t),
        entries,
    )
}

// Whether all trees fit.
pub fn leaves_fit(
    questions: &[u64],
    trees: &[u64],
    records: &[u64],
    values: &[u64],
    width: u64,
) -> bool
    ensures { result ≡ leaves_fit questions.now trees.now records.now values.now width }
{
    (0..tree_rows(trees)).all(|t| tree_fits(questions, trees, records, values, width, t))
}
