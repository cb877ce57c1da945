// After voice/tree.rs, `search_node`: the walk over loaded tables (01, 'Linking and tables'). Only records met are judged, in this
// order: inside the tree's records and the table, kind, answer byte, limit. Any tables, any lengths, any tree.
#![tactic(auto)]

ghost use Rattle.std.specs.Prelude.{◌≡◌, ◌<◌};
ghost use Rattle.table_rows.specs.Rows.{record_rows};
ghost use Rattle.walk.specs.Walking.{line_at, meet_at, walk_from, walk_of};

use error::Refusal;
use table_rows::{
    record_kind, record_no, record_pdf, record_question, record_there, record_yes, records_in,
    tree_first, tree_records, tree_there,
};

// How a walk ends: at a PDF, after so many questions; or refused, by 24 or 25.
#[derive(Clone, Copy)]
pub struct Walked {
    pub number: u64,
    pub asked: u64,
}

// What stands where the walk is.
#[derive(Clone, Copy)]
pub enum Met {
    // a leaf: its PDF number
    Leaf(u64),
    // a line whose question is answered: the record to which the answer leads
    Line(u64),
    // no record of the tree, another kind, or a question without an answer
    Wrong,
}

// A line at row i: its question's byte leads to yes or no. Any byte but 0 is yes.
fn ask(records: &[u64], i: u64, answers: &[u8]) -> Met
    requires { i < record_rows records.now }
    ensures { result ≡ line_at records.now answers.now i }
{
    let question = record_question(records, i);
    if question < answers.len() as u64 {
        if answers[question as usize] == 0 {
            Met::Line(record_no(records, i))
        } else {
            Met::Line(record_yes(records, i))
        }
    } else {
        Met::Wrong
    }
}

// Record k of a tree with `count` records from `first` on.
fn meet(records: &[u64], first: u64, count: u64, k: u64, answers: &[u8]) -> Met
    ensures { result ≡ meet_at records.now first count answers.now k }
{
    if !record_there(records, first, count, k) {
        return Met::Wrong;
    }
    let i = first + k;
    let kind = record_kind(records, i);
    if kind == 0 {
        ask(records, i, answers)
    } else if kind == 1 {
        Met::Leaf(record_pdf(records, i))
    } else {
        Met::Wrong
    }
}

// The walk from a tree's first record on. A line met after as many questions as the tree has records in the table was met before: the
// walk goes round, and whatever the limit is, it is met.
fn follow(
    records: &[u64],
    first: u64,
    count: u64,
    answers: &[u8],
    limit: u64,
) -> Result<Walked, Refusal>
    ensures { result ≡ walk_from (meet_at records.now first count answers.now) limit 0 }
{
    let most = records_in(records, first, count);
    let mut k = 0;
    for asked in 0..=limit.min(most) {
        match meet(records, first, count, k, answers) {
            Met::Leaf(number) => {
                return Ok(Walked { number, asked });
            }
            Met::Line(next) => {
                k = next;
            }
            Met::Wrong => {
                return Err(Refusal::WalkTable);
            }
        }
    }
    Err(Refusal::Steps)
}

// The walk of one tree, with an answer byte for each question and a limit on the questions asked.
pub fn walk(
    trees: &[u64],
    records: &[u64],
    tree: u64,
    answers: &[u8],
    limit: u64,
) -> Result<Walked, Refusal>
    ensures { result ≡ walk_of trees.now records.now tree answers.now limit }
{
    if !tree_there(trees, tree) {
        return Err(Refusal::WalkTable);
    }
    follow(
        records,
        tree_first(trees, tree),
        tree_records(trees, tree),
        answers,
        limit,
    )
}
