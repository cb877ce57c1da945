// After voice/model.rs, `from_linear`: what a PDF block says of each tree, into the rows of the trees, and its values (01, 'PDF blocks'; 02, Wish 10).
// Value i of an entry pairs with value i + half: mean, variance, mean, variance, ..; an odd last one is msd.
#![tactic(auto)]

ghost use Rattle.std.specs.Prelude.{◌≡◌, ◌+◌, ◌*◌, ◌/◌, ◌%◌, ◌≤◌, length};
ghost use Rattle.std.proofs.lemmas.List.Edits.{sets};
ghost use Rattle.written.specs.Blocks.{total, rows_from};
ghost use Rattle.pdf_blocks.specs.Values.{words_at, value_at, pairs_at, entry_at, values_at};
ghost use Rattle.pdf_values.specs.Folded.{with_blocks};

use pdf_blocks::word;
use pdf_widen::widen;
use table_put::{put_block, put2};

// The binary64 pattern of the binary32 at `at`.
fn value(s: &[u8], at: usize) -> u64
    requires { at + 4 ≤ length s.now }
    ensures { result ≡ value_at s.now at }
{
    widen(word(s, at))
}

// So many pairs, means from `at` on and variances from `behind` on, stored from `first` on.
fn fill_pairs(s: &[u8], at: usize, behind: usize, pairs: usize, values: &mut [u64], first: usize)
    requires { (at + 4 * pairs ≤ length s.now) × (behind + 4 * pairs ≤ length s.now) × (first + 2 * pairs ≤ length values.old) }
    ensures { values.new ≡ sets values.old first (pairs_at s.now at behind pairs) }
{
    for k in 0..pairs {
        let mean = value(s, at + 4 * k);
        let variance = value(s, behind + 4 * k);
        put2(values, first + 2 * k, mean, variance);
    }
}

// One entry, stored from `first` on.
fn fill_entry(s: &[u8], at: usize, half: usize, odd: bool, values: &mut [u64], first: usize)
    requires { (at + 4 * length (entry_at s.now at half odd) ≤ length s.now) × (first + length (entry_at s.now at half odd) ≤ length values.old) }
    ensures { values.new ≡ sets values.old first (entry_at s.now at half odd) }
{
    fill_pairs(s, at, at + 4 * half, half, values, first);
    if odd {
        values[first + 2 * half] = value(s, at + 8 * half);
    }
}

// So many entries of `width` numbers, stored from the front on.
pub fn fill_values(s: &[u8], at: usize, width: usize, entries: u64, values: &mut [u64])
    requires { (at + 4 * length (values_at s.now at width entries) ≤ length s.now) × (length (values_at s.now at width entries) ≤ length values.old) }
    ensures { values.new ≡ sets values.old 0 (values_at s.now at width entries) }
{
    let half = width / 2;
    let odd = width % 2 == 1;
    let mut i = at;
    let mut first = 0;
    // Counted down: it was measured quicker than counted up (docs/LOOK-BACK.md).
    for _ in (0..entries).rev() {
        fill_entry(s, i, half, odd, values, first);
        i += 4 * width;
        first += width;
    }
}

// First value and entries of so many trees, set into their rows from the first on.
pub fn fill_blocks(s: &[u8], at: usize, count: usize, width: u64, trees: &mut [u64])
    requires { (at + 4 * count ≤ length s.now) × (6 * count ≤ length trees.old) × (at + 4 * count + 4 * (total (words_at s.now at count) * width) ≤ length s.now) }
    ensures { trees.new ≡ with_blocks trees.old 0 (rows_from width 0 (words_at s.now at count)) }
{
    let mut first: u64 = 0;
    for k in 0..count {
        let entries = word(s, at + 4 * k) as u64;
        put_block(trees, k, first, entries);
        first += entries * width;
    }
}
