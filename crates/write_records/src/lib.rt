// The numbers of a tree's records, by their place in the tree whose first record stands in row `first` (02, Wish 6). Any tables: a record that isn't
// there says 0, so that nothing is required here.
#![tactic(auto)]

ghost use Rattle.std.specs.Prelude.{◌≡◌, ◌+◌, ◌<◌, IfSome};
ghost use Rattle.table_rows.specs.Rows.{record_kind, record_question, record_pdf, record_yes, record_no, record_rows};
ghost use Rattle.write_records.specs.Records.{row_of, of_record};

use table_rows::{
    record_kind, record_no, record_pdf, record_question, record_rows, record_yes, row_there,
};

// The row of record k, if it is there.
fn row_of(records: &[u64], first: u64, k: u64) -> Option<u64>
    ensures row { result ≡ row_of records.now first k }
    ensures there { IfSome result (λ i. i < record_rows records.now) }
{
    if row_there(record_rows(records), first, k) {
        return Some(first + k);
    }
    None
}

// 0 for a line, 1 for a leaf.
#[tactic(auto, using(crate::proofs::Laws::row_missing))]
pub fn kind(records: &[u64], first: u64, k: u64) -> u64
    ensures { result ≡ of_record record_kind records.now first k }
{
    match row_of(records, first, k) {
        Some(i) => record_kind(records, i),
        None => 0,
    }
}

// The question of line k, and where its answers go.
#[tactic(auto, using(crate::proofs::Laws::row_missing))]
pub fn asked(records: &[u64], first: u64, k: u64) -> u64
    ensures { result ≡ of_record record_question records.now first k }
{
    match row_of(records, first, k) {
        Some(i) => record_question(records, i),
        None => 0,
    }
}

#[tactic(auto, using(crate::proofs::Laws::row_missing))]
pub fn goes_yes(records: &[u64], first: u64, k: u64) -> u64
    ensures { result ≡ of_record record_yes records.now first k }
{
    match row_of(records, first, k) {
        Some(i) => record_yes(records, i),
        None => 0,
    }
}

#[tactic(auto, using(crate::proofs::Laws::row_missing))]
pub fn goes_no(records: &[u64], first: u64, k: u64) -> u64
    ensures { result ≡ of_record record_no records.now first k }
{
    match row_of(records, first, k) {
        Some(i) => record_no(records, i),
        None => 0,
    }
}

// The PDF number of leaf k.
#[tactic(auto, using(crate::proofs::Laws::row_missing))]
pub fn number(records: &[u64], first: u64, k: u64) -> u64
    ensures { result ≡ of_record record_pdf records.now first k }
{
    match row_of(records, first, k) {
        Some(i) => record_pdf(records, i),
        None => 0,
    }
}
