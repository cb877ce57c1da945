// Rows stored in lent tables, and tables made zero (01, 'Linking and tables'; 02, Wish 10).
#![tactic(auto)]

ghost use Rattle.std.specs.Prelude.{◌≡◌, [], ◌∷◌, ◌+◌, ◌*◌, ◌≤◌, length, replicate, pos};
ghost use Rattle.std.proofs.lemmas.List.Edits.{sets};

use table_rows::TREE_ROW;

// Two numbers from k on.
pub fn put2(t: &mut [u64], k: usize, a: u64, b: u64)
    requires { k + 2 ≤ length t.old }
    ensures { t.new ≡ sets t.old k (a ∷ b ∷ []) }
{
    t[k] = a;
    t[k + 1] = b;
}

// Four numbers from k on.
pub fn put4(t: &mut [u64], k: usize, a: u64, b: u64, c: u64, d: u64)
    requires { k + 4 ≤ length t.old }
    ensures { t.new ≡ sets t.old k (a ∷ b ∷ c ∷ d ∷ []) }
{
    t[k] = a;
    t[k + 1] = b;
    t[k + 2] = c;
    t[k + 3] = d;
}

// Row k of the trees: what the tree's text says of it, and 0, 0 until its block is read.
pub fn put_tree(trees: &mut [u64], k: usize, state: u64, first: u64, records: u64, lines: u64)
    requires { 6 * k + 6 ≤ length trees.old }
    ensures { trees.new ≡ sets trees.old (6 * k) (state ∷ first ∷ records ∷ lines ∷ 0 ∷ 0 ∷ []) }
{
    put4(trees, TREE_ROW * k, state, first, records, lines);
    put2(trees, TREE_ROW * k + 4, 0, 0);
}

// What the block says of tree k: its first value and its entries.
pub fn put_block(trees: &mut [u64], k: usize, first: u64, entries: u64)
    requires { 6 * k + 6 ≤ length trees.old }
    ensures { trees.new ≡ sets trees.old (6 * k + 4) (first ∷ entries ∷ []) }
{
    put2(trees, TREE_ROW * k + 4, first, entries);
}

// A table all zero.
pub fn zero(t: &mut [u64])
    ensures { t.new ≡ replicate (length t.old) 0 }
{
    t.fill(0);
}

// The work all zero.
pub fn zero_work(t: &mut [i64])
    ensures { t.new ≡ replicate (length t.old) (pos 0) }
{
    t.fill(0);
}
