// After model/mod.rs, `convert_tree`: what linking reads of the lines in the work, and where references lead (01, 'Linking and tables').
// Six numbers a line: id; 0 and an id, or 1 and a PDF number, for yes; the same for no; one more than the question's row, or 0 for none.
#![tactic(auto)]

ghost use Rattle.std.specs.Prelude.{◌≡◌, ◌+◌, ◌*◌, ◌<◌, ◌≤◌, eqb, length, take, drop};
ghost use Rattle.std.proofs.lemmas.List.Edits.{sets};
ghost use Rattle.link_order.specs.Keys.{id_key, id_at};
ghost use Rattle.link_search.specs.Found.{count_from, last_below};
ghost use Rattle.written.specs.Linking.{pdf_of};
ghost use Rattle.link_targets.specs.Lines.{ref_at, pdfs_of, lines_from};
ghost use Rattle.link_targets.specs.Targets.{target_of, order_from, Ready, Rows};

use link_order::{id_key, id_of};
use link_search::{first_leaf, last_id};
use table_rows::{LINE_NO, LINE_YES, RECORD_ROW, WORK_A_LINE};
use text_parts::natural;

// One more leaf, where the reference whose kind stands at `kind` is a PDF.
fn push_pdf(work: &[i64], kind: usize, rows: &mut [u64], at: usize) -> usize
    requires { (kind + 1 < length work.now) × (at + length (pdf_of (ref_at work.now kind)) ≤ length rows.old) }
    ensures { (rows.new ≡ sets rows.old at (pdf_of (ref_at work.now kind))) × (result ≡ at + length (pdf_of (ref_at work.now kind))) }
{
    let k = work[kind];
    if natural(k) == 0 {
        return at;
    }
    let v = work[kind + 1];
    rows[at] = natural(v);
    at + 1
}

// The leaves of one line: yes before no, as the Rust gathers them.
fn push_line(work: &[i64], line: usize, rows: &mut [u64], at: usize) -> usize
    requires { (6 * line + 6 ≤ length work.now) × (at + length (pdfs_of (lines_from work.now line 1)) ≤ length rows.old) }
    ensures { (rows.new ≡ sets rows.old at (pdfs_of (lines_from work.now line 1))) × (result ≡ at + length (pdfs_of (lines_from work.now line 1))) }
{
    let mid = push_pdf(work, WORK_A_LINE * line + LINE_YES, rows, at);
    push_pdf(work, WORK_A_LINE * line + LINE_NO, rows, mid)
}

// The PDF numbers of n lines, from `at` on; and where they end.
pub fn gather(work: &[i64], n: usize, rows: &mut [u64], at: usize) -> usize
    requires { (6 * n ≤ length work.now) × (at + length (pdfs_of (lines_from work.now 0 n)) ≤ length rows.old) }
    ensures { (rows.new ≡ sets rows.old at (pdfs_of (lines_from work.now 0 n))) × (result ≡ at + length (pdfs_of (lines_from work.now 0 n))) }
{
    let mut end = at;
    for line in 0..n {
        end = push_line(work, line, rows, end);
    }
    end
}

// The numbers 0, 1, .. in front.
pub fn number_lines(rows: &mut [u64], n: usize)
    requires { n ≤ length rows.old }
    ensures { rows.new ≡ sets rows.old 0 (count_from 0 n) }
{
    for line in 0..n {
        rows[line] = line as u64;
    }
}

// Whether the ids run 0, -1, -2, .., so that a line stands where its id says.
pub fn in_order(work: &[i64], n: usize) -> bool
    ensures { result ≡ order_from work.now 0 n }
{
    for line in 0..(n as u64) {
        let key = id_key(id_of(work, line));
        if 9223372036854775808 < key {
            return false;
        }
        if 9223372036854775808 - key != line {
            return false;
        }
    }
    true
}

// The last line with an id: where the id says, or by the index in front of the rows.
fn find_line(work: &[i64], rows: &[u64], n: usize, ordered: bool, id: i64) -> Option<u64>
    requires { (n ≤ length rows.now) × Ready work.now n (take n rows.now) ordered }
    ensures { result ≡ last_below (λ e. eqb (id_key (id_at work.now e)) (id_key id)) n }
{
    if !ordered {
        return last_id(work, &rows[..n], id);
    }
    let key = id_key(id);
    if 9223372036854775808 < key {
        return None;
    }
    let line = 9223372036854775808 - key;
    if line < n as u64 { Some(line) } else { None }
}

// Where the reference leads whose kind stands at `kind`: to a line, or behind the n lines to a leaf.
pub fn target(
    work: &[i64],
    kind: usize,
    rows: &[u64],
    n: usize,
    leaves: usize,
    ordered: bool,
) -> Option<u64>
    requires { (kind + 1 < length work.now) × Rows work.now n leaves ordered rows.now }
    ensures { result ≡ target_of work.now n (take leaves (drop (4 * n) rows.now)) (ref_at work.now kind) }
{
    let k = work[kind];
    let v = work[kind + 1];
    if natural(k) == 0 {
        return find_line(work, rows, n, ordered, v);
    }
    let first = RECORD_ROW * n;
    let end = first + leaves;
    let leaf = first_leaf(&rows[first..end], natural(v))?;
    Some(n as u64 + leaf)
}
