// Which records of a tree paths can meet, each branch taken freely, and whether all of them are lines or leaves of the tree (02, Wish 8). Breadth first, with a mark and a
// place in a queue for each record in the lent work, so that every record is looked at once. Any tables.
#![tactic(auto)]

ghost use Rattle.std.specs.Prelude.{◌≡◌, ◌+◌, ◌*◌, ◌<◌, ◌≤◌, pos, length, set, replicate};
ghost use Rattle.written.specs.Depths.{Met};
ghost use Rattle.table_rows.specs.Rows.{records_in};
ghost use Rattle.walk_reach.specs.Work.{slot_at, Pushed};
ghost use Rattle.walk_reach.specs.Seeing.{tree_records_of, seen_at};
ghost use Rattle.walk_reach.specs.Reaching.{Queue, Visits, Reaches};

use table_rows::{record_kind, record_no, record_there, record_yes, records_in};
use text_parts::natural;

// Numbers of work for each record of a tree, and their places: whether it is met; the i-th record met; one more than its depth, once that is known; the i-th record of a way.
pub const WORK_A_RECORD: usize = 4;

pub const MARK: usize = 0;

pub const QUEUE: usize = 1;

pub const KNOWN: usize = 2;

pub const WAY: usize = 3;

// What stands at a record.
#[derive(Clone, Copy)]
pub enum Seen {
    Leaf,
    Line { yes: u64, no: u64 },
    // no record of the tree or the table, or of another kind
    Wrong,
}

// Number `part` of record i.
pub fn slot(work: &[i64], part: usize, i: u64) -> u64
    requires { 4 * i + part < length work.now }
    ensures { result ≡ slot_at part work.now i }
{
    let at = WORK_A_RECORD * i as usize + part;
    let v = work[at];
    natural(v)
}

pub fn put_slot(work: &mut [i64], part: usize, i: u64, v: u64)
    requires { (4 * i + part < length work.old) × (v < 9223372036854775808) }
    ensures { work.new ≡ set work.old (4 * i + part) (pos v) }
{
    let at = WORK_A_RECORD * i as usize + part;
    let signed = v as i64;
    work[at] = signed;
}

// Record k of a tree with `count` records from `first` on.
pub fn look(records: &[u64], first: u64, count: u64, k: u64) -> Seen
    ensures { result ≡ seen_at records.now first count k }
{
    if !record_there(records, first, count, k) {
        return Seen::Wrong;
    }
    let i = first + k;
    let kind = record_kind(records, i);
    if kind == 0 {
        Seen::Line {
            yes: record_yes(records, i),
            no: record_no(records, i),
        }
    } else if kind == 1 {
        Seen::Leaf
    } else {
        Seen::Wrong
    }
}

// A record that isn't marked yet is marked and goes to the queue's end; and where that is then.
fn push(work: &mut [i64], tail: u64, j: u64) -> u64
    requires { (4 * j + 4 ≤ length work.old) × (slot_at 0 work.old j ≡ 0 → 4 * tail + 4 ≤ length work.old) }
    ensures { Pushed work.old tail j result work.new }
{
    if slot(work, MARK, j) != 0 {
        return tail;
    }
    put_slot(work, MARK, j, 1);
    put_slot(work, QUEUE, tail, j);
    tail + 1
}

// Record k, which a path meets: what it refers to goes to the queue.
fn visit(
    records: &[u64],
    first: u64,
    count: u64,
    work: &mut [i64],
    k: u64,
    tail: u64,
) -> Option<u64>
    requires { Queue (tree_records_of records.now first count) (records_in records.now first count) work.old tail × Met (tree_records_of records.now first count) k }
    ensures { Visits (tree_records_of records.now first count) (records_in records.now first count) work.old tail k result work.new }
{
    match look(records, first, count, k) {
        Seen::Leaf => Some(tail),
        Seen::Line { yes, no } => {
            let many = records_in(records, first, count);
            if many <= yes {
                return None;
            }
            if many <= no {
                return None;
            }
            let next = push(work, tail, yes);
            Some(push(work, next, no))
        }
        Seen::Wrong => None,
    }
}

// Whether every record that a path from the first one can meet is a line or a leaf of the tree. The work is zero before.
pub fn reach(records: &[u64], first: u64, count: u64, work: &mut [i64]) -> bool
    requires { (4 * records_in records.now first count ≤ length work.old) × (work.old ≡ replicate (length work.old) (pos 0)) }
    ensures { Reaches (tree_records_of records.now first count) result }
{
    if records_in(records, first, count) == 0 {
        return false;
    }
    let mut head = 0;
    let mut tail = push(work, 0, 0);
    // No `for`: the queue grows as it is read.
    while head < tail {
        let k = slot(work, QUEUE, head);
        match visit(records, first, count, work, k, tail) {
            Some(next) => {
                tail = next;
                head = head + 1;
            }
            None => {
                return false;
            }
        }
    }
    true
}
