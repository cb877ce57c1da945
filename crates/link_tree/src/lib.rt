// After model/mod.rs, `convert_tree`: the records of one tree out of its lines (01, 'Linking and tables').
// A tree that is one reference is not for this crate: its record is written by whoever reads the tree.
#![tactic(auto)]

ghost use Rattle.std.specs.Prelude.{◌≡◌, cond, ◌+◌, ◌*◌, ◌≤◌, length, take, drop};
ghost use Rattle.std.proofs.lemmas.List.Edits.{sets};
ghost use Rattle.link_order.specs.Keys.{key_of, id_key, id_at};
ghost use Rattle.link_search.specs.Found.{count_from};
ghost use Rattle.link_sort.specs.Sorted.{sorted};
ghost use Rattle.link_targets.specs.Lines.{line_in, lines_from, pdfs_of};
ghost use Rattle.link_targets.specs.Targets.{target_of, order_from, Rows};
ghost use Rattle.link_tree.specs.Steps.{step_of, outcome, goals};
ghost use Rattle.link_tree.specs.Linked.{leaves_of, Linking};

use error::{LineFault, LinkFault};
use link_rows::{spread_leaves, write_lines};
use link_sort::{sort_ids, sort_numbers};
use link_targets::{gather, in_order, number_lines, target};
use table_put::{put2, zero};
use table_rows::{LINE_NO, LINE_QUESTION, LINE_YES, RECORD_ROW, WORK_A_LINE};
use text_parts::natural;

// Where a line leads: both records, or what is wrong with it.
#[derive(Clone, Copy)]
pub struct Sides {
    pub yes: u64,
    pub no: u64,
}

// Where a line leads, tested in 01's order: yes, no, question.
fn resolve_line(
    work: &[i64],
    line: usize,
    rows: &[u64],
    n: usize,
    leaves: usize,
    ordered: bool,
) -> Result<Sides, LinkFault>
    requires { (6 * line + 6 ≤ length work.now) × Rows work.now n leaves ordered rows.now }
    ensures { result ≡ step_of (target_of work.now n (take leaves (drop (4 * n) rows.now))) (line_in work.now line) }
{
    match target(
        work,
        WORK_A_LINE * line + LINE_YES,
        rows,
        n,
        leaves,
        ordered,
    ) {
        Some(yes) => match target(work, WORK_A_LINE * line + LINE_NO, rows, n, leaves, ordered) {
            Some(no) => {
                let q = work[WORK_A_LINE * line + LINE_QUESTION];
                if natural(q) == 0 {
                    Err(LinkFault::QuestionRef)
                } else {
                    Ok(Sides { yes, no })
                }
            }
            None => Err(LinkFault::NodeRef),
        },
        None => Err(LinkFault::NodeRef),
    }
}

// The yes and no of each line, from 2n on, up to a line that leads nowhere.
fn resolve_lines(
    work: &[i64],
    n: usize,
    rows: &mut [u64],
    leaves: usize,
    ordered: bool,
) -> Result<(), LineFault>
    requires { (6 * n ≤ length work.now) × Rows work.now n leaves ordered rows.old }
    ensures { (result ≡ outcome (step_of (target_of work.now n (take leaves (drop (4 * n) rows.old)))) 0 (lines_from work.now 0 n)) × (rows.new ≡ sets rows.old (2 * n) (goals (step_of (target_of work.now n (take leaves (drop (4 * n) rows.old)))) (lines_from work.now 0 n))) }
{
    for line in 0..n {
        match resolve_line(work, line, rows, n, leaves, ordered) {
            Ok(sides) => {
                put2(rows, 2 * n + 2 * line, sides.yes, sides.no);
            }
            Err(fault) => {
                return Err(LineFault { fault, line });
            }
        }
    }
    Ok(())
}

// The leaves, ascending, side by side from 4n on.
fn sort_leaves(work: &[i64], n: usize, rows: &mut [u64], leaves: usize)
    requires { (6 * n ≤ length work.now) × (leaves ≡ length (pdfs_of (lines_from work.now 0 n))) × (4 * n + leaves ≤ length rows.old) }
    ensures { rows.new ≡ sets rows.old (4 * n) (leaves_of work.now n) }
{
    let first = RECORD_ROW * n;
    let end = gather(work, n, rows, first);
    sort_numbers(&mut rows[first..end]);
}

// An index of the lines in front of the rows, unless the ids are in order.
fn index_lines(work: &[i64], n: usize, rows: &mut [u64]) -> bool
    requires { n ≤ length rows.old }
    ensures { (result ≡ order_from work.now 0 n) × (rows.new ≡ cond (order_from work.now 0 n) rows.old (sets rows.old 0 (sorted (key_of (λ e. id_key (id_at work.now e))) (count_from 0 n)))) }
{
    if in_order(work, n) {
        return true;
    }
    number_lines(rows, n);
    sort_ids(work, &mut rows[0..n]);
    false
}

// The records of a tree whose n lines, with so many PDF references, stand in the work; zeros where linking is refused.
pub fn link_tree(work: &[i64], n: usize, leaves: usize, rows: &mut [u64]) -> Result<(), LineFault>
    requires { (6 * n ≤ length work.now) × (leaves ≡ length (pdfs_of (lines_from work.now 0 n))) × (length rows.old ≡ 4 * n + 4 * leaves) }
    ensures { Linking work.now n rows.old rows.new result }
{
    sort_leaves(work, n, rows, leaves);
    let ordered = index_lines(work, n, rows);
    match resolve_lines(work, n, rows, leaves, ordered) {
        Ok(()) => {
            spread_leaves(rows, RECORD_ROW * n, leaves);
            write_lines(work, n, rows);
            Ok(())
        }
        Err(LineFault { fault, line }) => {
            zero(rows);
            Err(LineFault { fault, line })
        }
    }
}
