// After model/mod.rs, `convert_tree`: the records of a tree, written where their parts stand (01, 'Linking and tables').
// The rows of a tree of n lines have four numbers a line, then four a leaf. Before these functions the yes and no of line k stand at
// 2n + 2k, and the leaves' numbers side by side from 4n on.
#![tactic(auto)]

ghost use Rattle.std.specs.Prelude.{◌≡◌, ◌+◌, ◌-◌, ◌*◌, ◌≤◌, pos, length, get_or, take, drop};
ghost use Rattle.std.proofs.lemmas.List.Edits.{sets};
ghost use Rattle.text_parts.specs.Parts.{nat_of};
ghost use Rattle.link_rows.specs.Rows.{leaf_rows, line_rows};

use table_put::put4;
use table_rows::{LINE_QUESTION, RECORD_ROW, WORK_A_LINE};
use text_parts::natural;

// The leaves, from the last to the first, so that no number is written over before it is read.
pub fn spread_leaves(rows: &mut [u64], first: usize, leaves: usize)
    requires { first + 4 * leaves ≤ length rows.old }
    ensures { rows.new ≡ sets rows.old first (leaf_rows (take leaves (drop first rows.old))) }
{
    for k in (0..leaves).rev() {
        let number = rows[first + k];
        put4(rows, first + RECORD_ROW * k, 1, number, 0, 0);
    }
}

// The question row of a line that has one.
fn question_of(work: &[i64], line: usize) -> u64
    requires { 6 * line + 6 ≤ length work.now }
    ensures { result ≡ nat_of (get_or work.now (6 * line + 5) (pos 0)) - 1 }
{
    let q = work[WORK_A_LINE * line + LINE_QUESTION];
    let row = natural(q);
    if row == 0 { 0 } else { row - 1 }
}

// The lines, from the first on: row k ends before the yes and no of line k + 1.
pub fn write_lines(work: &[i64], n: usize, rows: &mut [u64])
    requires { (6 * n ≤ length work.now) × (4 * n ≤ length rows.old) }
    ensures { rows.new ≡ sets rows.old 0 (line_rows work.now rows.old (2 * n) 0 n) }
{
    for k in 0..n {
        let yes = rows[2 * n + 2 * k];
        let no = rows[2 * n + 2 * k + 1];
        put4(rows, RECORD_ROW * k, 0, question_of(work, k), yes, no);
    }
}
