// The parts of a tree text out of the rows of lent tables (02, Wish 6): names, patterns, references, lines. Any tables: a row that isn't there says
// nothing, so that nothing is required here; whether the rows can be written is judged before.
#![tactic(auto)]

ghost use Rattle.std.specs.Prelude.{pos, neg_ℤ};
ghost use Rattle.written.specs.Said.{pdf};
ghost use Rattle.written.specs.Writing.{spelled_number, spelled_ref, spelled_line};
ghost use Rattle.write_put.specs.Puts.{Put};
ghost use Rattle.link_order.specs.Keys.{name_at};
ghost use Rattle.table_rows.specs.Rows.{record_pdf};
ghost use Rattle.write_records.specs.Records.{of_record};
ghost use Rattle.write_parts.specs.Parts.{pattern_of, quoted, ref_of, line_of};

use link_order::name_of;
use table_rows::{pattern_len, pattern_rows, pattern_start, row_there};
use write_figures::put_figures;
use write_put::{put_part, put1, put3};
use write_records::{asked, goes_no, goes_yes, number};

// The name of question q.
pub fn put_name(b: &mut [u8], at: usize, s: &[u8], questions: &[u64], q: u64) -> usize
    ensures { Put b.old at (name_at s.now questions.now q) result b.new }
{
    let name = name_of(s, questions, q);
    put_part(b, at, name, 0, name.len())
}

// Pattern k of those from row `first` on, without quotes.
fn put_pattern(b: &mut [u8], at: usize, s: &[u8], patterns: &[u64], first: u64, k: u64) -> usize
    ensures { Put b.old at (pattern_of s.now patterns.now first k) result b.new }
{
    if row_there(pattern_rows(patterns), first, k) {
        let start = pattern_start(patterns, first + k);
        let len = pattern_len(patterns, first + k);
        return put_part(b, at, s, start as usize, len as usize);
    }
    at
}

// The same in quotes, and what stands before the next one.
pub fn put_quoted(
    b: &mut [u8],
    at: usize,
    s: &[u8],
    patterns: &[u64],
    first: u64,
    k: u64,
    more: bool,
) -> usize
    ensures { Put b.old at (quoted (pattern_of s.now patterns.now first k) more) result b.new }
{
    let open = put1(b, at, 34);
    let end = put_pattern(b, open, s, patterns, first, k);
    if more {
        put3(b, end, 34, 44, 32)
    } else {
        put1(b, end, 34)
    }
}

// The id of line k: 0, -1, -2 and on.
fn put_id(b: &mut [u8], at: usize, k: u64) -> usize
    ensures { Put b.old at (spelled_number (neg_ℤ (pos k))) result b.new }
{
    if k == 0 {
        return put1(b, at, 48);
    }
    let next = put1(b, at, 45);
    put_figures(b, next, k)
}

// A leaf: "p_3".
pub fn put_leaf(b: &mut [u8], at: usize, records: &[u64], first: u64, k: u64) -> usize
    ensures { Put b.old at (spelled_ref (pdf (of_record record_pdf records.now first k))) result b.new }
{
    let n = number(records, first, k);
    let digits = put3(b, at, 34, 112, 95);
    let end = put_figures(b, digits, n);
    put1(b, end, 34)
}

// A reference to record k of a tree with so many lines.
fn put_reference(b: &mut [u8], at: usize, records: &[u64], first: u64, lines: u64, k: u64) -> usize
    ensures { Put b.old at (spelled_ref (ref_of records.now first lines k)) result b.new }
{
    if k < lines {
        return put_id(b, at, k);
    }
    put_leaf(b, at, records, first, k)
}

// Line k: id, question, no, yes.
pub fn put_line(
    b: &mut [u8],
    at: usize,
    s: &[u8],
    questions: &[u64],
    records: &[u64],
    first: u64,
    lines: u64,
    k: u64,
) -> usize
    ensures { Put b.old at (spelled_line (line_of s.now questions.now records.now first lines k)) result b.new }
{
    let id = put_id(b, at, k);
    let before_name = put1(b, id, 32);
    let q = asked(records, first, k);
    let name = put_name(b, before_name, s, questions, q);
    let before_no = put1(b, name, 32);
    let n = goes_no(records, first, k);
    let no = put_reference(b, before_no, records, first, lines, n);
    let before_yes = put1(b, no, 32);
    let y = goes_yes(records, first, k);
    let yes = put_reference(b, before_yes, records, first, lines, y);
    put1(b, yes, 10)
}
