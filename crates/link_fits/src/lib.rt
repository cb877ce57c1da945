// Record rows against what a text says: where a reference leads, whether a row is a leaf, a leaf of a number, or a line's own (02, Wish 13). Any rows, any numbers.
#![tactic(auto)]

ghost use Rattle.std.specs.Prelude.{◌≡◌};
ghost use Rattle.link_fits.specs.Fits.{nowhere, is_leaf, leaf_of, leads_to, row_fits, leaves_from};

use table_rows::{record_kind, record_no, record_pdf, record_question, record_rows, record_yes};

// Where a reference leads: to a line of the tree, to a leaf of a number, or nowhere.
#[derive(Clone, Copy)]
pub enum Target {
    Line(u64),
    Leaf(u64),
    Nowhere,
}

pub fn is_nowhere(target: Target) -> bool
    ensures { result ≡ nowhere target }
{
    match target {
        Target::Line(_) => false,
        Target::Leaf(_) => false,
        Target::Nowhere => true,
    }
}

// Whether row i is there and is a leaf: (1, a number, 0, 0).
fn is_leaf(records: &[u64], i: u64) -> bool
    ensures { result ≡ is_leaf records.now i }
{
    if record_rows(records) <= i {
        return false;
    }
    if record_kind(records, i) != 1 {
        return false;
    }
    if record_yes(records, i) != 0 {
        return false;
    }
    record_no(records, i) == 0
}

// Whether it is a leaf of a number.
pub fn is_leaf_of(records: &[u64], i: u64, number: u64) -> bool
    ensures { result ≡ leaf_of records.now number i }
{
    if !is_leaf(records, i) {
        return false;
    }
    record_pdf(records, i) == number
}

// Whether a row is one that a reference may lead to.
fn leads_to(records: &[u64], target: Target, row: u64) -> bool
    ensures { result ≡ leads_to records.now target row }
{
    match target {
        Target::Line(line) => row == line,
        Target::Leaf(number) => is_leaf_of(records, row, number),
        Target::Nowhere => false,
    }
}

// Whether row k is that of a line with this question and these targets.
pub fn row_fits(records: &[u64], k: u64, question: u64, yes: Target, no: Target) -> bool
    ensures { result ≡ row_fits records.now k question yes no }
{
    if record_rows(records) <= k {
        return false;
    }
    if record_kind(records, k) != 0 {
        return false;
    }
    if record_question(records, k) != question {
        return false;
    }
    if !leads_to(records, yes, record_yes(records, k)) {
        return false;
    }
    leads_to(records, no, record_no(records, k))
}

// Whether every row from n on is a leaf.
pub fn leaves_from(records: &[u64], n: u64) -> bool
    ensures { result ≡ leaves_from records.now n }
{
    let rows = record_rows(records);
    (n..rows).all(|i| is_leaf(records, i))
}
