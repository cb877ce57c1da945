// How many questions a walk of one tree can ask, whatever the answers (02, Wish 8). First `walk_reach` judges every record that a path can meet; then depths are found from the
// leaves up, along one way of records from the first on that is kept in the lent work: no recursion, each record settled once. Any tables, any work.
#![tactic(auto)]

ghost use Rattle.std.specs.Prelude.{◌≡◌, ◌+◌, ◌*◌, ◌<◌, ◌≤◌, pos, length, replicate};
ghost use Rattle.written.specs.Depths.{Met};
ghost use Rattle.table_rows.specs.Rows.{records_in};
ghost use Rattle.walk_reach.specs.Seeing.{tree_records_of};
ghost use Rattle.walk_depth.specs.Climbing.{Small, Settles, Deepest};
ghost use Rattle.walk_depth.specs.Said.{AllGood, JudgedAs, DepthSays};

use table_put::zero_work;
use table_rows::{
    record_kind, record_no, record_yes, records_in, tree_first, tree_records, tree_there,
};
use walk_reach::{KNOWN, WAY, WORK_A_RECORD, put_slot, reach, slot};

// 20: less than four numbers of work a record.
const ROOM: u64 = 20;

// 24: no such tree, no record in it, or a record that a path can meet is outside or of another kind.
const OUTSIDE: u64 = 24;

// Number; 1 where no path meets a record twice; the greatest number of questions on any path. An exported call hands it to C number by number.
#[repr(C)]
#[derive(Clone, Copy)]
pub struct Depth {
    pub number: u64,
    pub answer: u64,
    pub questions: u64,
}

// What is next at the last record of a way.
#[derive(Clone, Copy)]
enum Next {
    // its depth is known now: one more than it
    Settled(u64),
    // the depth of this record, to which it refers, has to be known first
    Down(u64),
}

fn said(number: u64, answer: u64, questions: u64) -> Depth
    ensures { result ≡ (record { number = number; answer = answer; questions = questions }) }
{
    Depth {
        number,
        answer,
        questions,
    }
}

// Record k: a leaf asks nothing; a line one question more than the deeper of its sides, once both are known.
fn settle(records: &[u64], first: u64, count: u64, work: &[i64], k: u64) -> Next
    requires { AllGood (tree_records_of records.now first count) × Met (tree_records_of records.now first count) k × (4 * records_in records.now first count ≤ length work.now) × Small (records_in records.now first count) work.now }
    ensures { Settles (tree_records_of records.now first count) (records_in records.now first count) work.now k result }
{
    let i = first + k;
    if record_kind(records, i) != 0 {
        return Next::Settled(1);
    }
    let yes = record_yes(records, i);
    let deep = slot(work, KNOWN, yes);
    if deep == 0 {
        return Next::Down(yes);
    }
    let no = record_no(records, i);
    let other = slot(work, KNOWN, no);
    if other == 0 {
        return Next::Down(no);
    }
    if deep < other {
        Next::Settled(other + 1)
    } else {
        Next::Settled(deep + 1)
    }
}

// From the first record: the last of the way is settled and leaves it, or what it needs goes behind it, unless the way has all records already: then there is none. The work is zero before.
fn climb(records: &[u64], first: u64, count: u64, work: &mut [i64]) -> Option<u64>
    requires { AllGood (tree_records_of records.now first count) × (4 * records_in records.now first count ≤ length work.old) × (work.old ≡ replicate (length work.old) (pos 0)) }
    ensures { Deepest (tree_records_of records.now first count) result }
{
    let many = records_in(records, first, count);
    let mut len = 1;
    // No `for`: the way grows and shrinks.
    while 0 < len {
        let k = slot(work, WAY, len - 1);
        match settle(records, first, count, work, k) {
            Next::Settled(deep) => {
                put_slot(work, KNOWN, k, deep);
                len = len - 1;
            }
            Next::Down(j) => {
                if len == many {
                    return None;
                }
                put_slot(work, WAY, len, j);
                len = len + 1;
            }
        }
    }
    Some(slot(work, KNOWN, 0) - 1)
}

// The records of a tree, with work that is zero before and enough.
fn judge(records: &[u64], first: u64, count: u64, work: &mut [i64]) -> Depth
    requires { (4 * count ≤ length work.old) × (work.old ≡ replicate (length work.old) (pos 0)) }
    ensures { JudgedAs (tree_records_of records.now first count) result }
{
    if !reach(records, first, count, work) {
        return said(OUTSIDE, 0, 0);
    }
    zero_work(work);
    match climb(records, first, count, work) {
        Some(deep) => said(0, 1, deep),
        None => said(0, 0, 0),
    }
}

// Tree t. The work is zero over its whole length afterwards, but unchanged where there is too little of it.
pub fn depth_said(trees: &[u64], records: &[u64], tree: u64, work: &mut [i64]) -> Depth
    ensures { DepthSays trees.now records.now tree work.old result work.new }
{
    if !tree_there(trees, tree) {
        zero_work(work);
        return said(OUTSIDE, 0, 0);
    }
    let count = tree_records(trees, tree);
    if ((work.len() / WORK_A_RECORD) as u64) < count {
        return said(ROOM, 0, 0);
    }
    zero_work(work);
    let depth = judge(records, tree_first(trees, tree), count, work);
    zero_work(work);
    depth
}
