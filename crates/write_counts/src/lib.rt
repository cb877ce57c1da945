// Whether lines refer to each leaf of a tree as often as they have to (02, Wish 6: 17). References are counted for 128 leaves at a time, the counts on the
// stack: no memory is lent, and counting for one leaf at a time would take lines times leaves.
#![tactic(auto)]

ghost use Rattle.std.specs.Prelude.{◌≡◌, ◌+◌, ◌-◌, ◌<◌, ◌≤◌, length};
ghost use Rattle.laws.specs.Every.{all};
ghost use Rattle.table_rows.specs.Rows.{record_rows, record_pdf};
ghost use Rattle.write_records.specs.Records.{of_record};
ghost use Rattle.write_counts.specs.Counts.{first_leaf, run_of, due_of, goals, counted, added, Says, Zeros, Small, Tallied};

use write_records::{goes_no, goes_yes, number};

// How many leaves are counted for at a time.
const WINDOW: u64 = 128;

// Whether leaf k is the first of its number.
pub fn first_leaf(records: &[u64], first: u64, lines: u64, k: u64) -> bool
    requires { lines ≤ k }
    ensures { result ≡ first_leaf records.now first lines k }
{
    k == lines || number(records, first, k - 1) != number(records, first, k)
}

// How many leaves from k on bear the number of leaf k, one behind the other.
fn run_of(records: &[u64], first: u64, count: u64, k: u64) -> u64
    ensures { result ≡ run_of records.now first (of_record record_pdf records.now first k) k (count - k) }
{
    let x = number(records, first, k);
    for i in k..count {
        if number(records, first, i) != x {
            return i - k;
        }
    }
    count.saturating_sub(k)
}

// How often lines have to refer to leaf k.
fn due(records: &[u64], first: u64, count: u64, lines: u64, k: u64) -> u64
    requires { lines ≤ k }
    ensures { result ≡ due_of records.now first count lines k }
{
    if first_leaf(records, first, lines, k) {
        return run_of(records, first, count, k);
    }
    0
}

// One more for record k, if the slice, whose first count is for record `base`, has one for it.
fn add(tally: &mut [u64], base: u64, k: u64)
    requires { Small tally.old }
    ensures { tally.new ≡ added base k tally.old }
{
    if base <= k {
        let j = k - base;
        if j < tally.len() as u64 {
            let at = j as usize;
            tally[at] = tally[at] + 1;
        }
    }
}

// How often lines refer to each record from `base` on.
fn tally_refs(tally: &mut [u64], records: &[u64], first: u64, lines: u64, base: u64)
    requires { (lines ≤ record_rows records.now) × Zeros tally.old }
    ensures { Tallied base (goals records.now first 0 lines) tally.old tally.new }
{
    for k in 0..lines {
        add(tally, base, goes_yes(records, first, k));
        add(tally, base, goes_no(records, first, k));
    }
}

// Whether the counts are as they have to be.
fn window_fits(
    tally: &[u64],
    records: &[u64],
    first: u64,
    count: u64,
    lines: u64,
    base: u64,
    size: u64,
) -> bool
    requires { (size ≤ length tally.now) × (base + size ≤ count) × (lines ≤ base) × Says base (goals records.now first 0 lines) tally.now size }
    ensures { result ≡ all (counted records.now first count lines) base size }
{
    for j in 0..size {
        let at = j as usize;
        if tally[at] != due(records, first, count, lines, base + j) {
            return false;
        }
    }
    true
}

// So many leaves from `base` on.
fn window_counted(records: &[u64], first: u64, count: u64, lines: u64, base: u64, size: u64) -> bool
    requires { (size ≤ 128) × (base + size ≤ count) × (lines ≤ base) × (lines ≤ record_rows records.now) }
    ensures { result ≡ all (counted records.now first count lines) base size }
{
    let mut tally = [0u64; 128];
    tally_refs(&mut tally, records, first, lines, base);
    window_fits(&tally, records, first, count, lines, base, size)
}

// How many of those that are left are taken at once.
fn window(left: u64) -> u64
    ensures { (result ≤ 128) × (result ≤ left) × (0 < left → 0 < result) }
{
    if left < WINDOW { left } else { WINDOW }
}

// All leaves.
pub fn all_counted(records: &[u64], first: u64, count: u64, lines: u64) -> bool
    requires { (lines ≤ count) × (lines ≤ record_rows records.now) }
    ensures { result ≡ all (counted records.now first count lines) lines (count - lines) }
{
    let mut base = lines;
    // No `for`: the last window is shorter.
    while base < count {
        let size = window(count - base);
        if !window_counted(records, first, count, lines, base, size) {
            return false;
        }
        base += size;
    }
    true
}
