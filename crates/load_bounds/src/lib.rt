// A task's bounds in tables that two share (02, Wish 9): five counts. Where its rows stand, what a plan needs, whether two tasks' rows stand beside each other. Any numbers.
#![tactic(auto)]

ghost use Rattle.std.specs.Prelude.{◌≡◌, ◌+◌, ◌*◌, ◌/◌, ◌≤◌, ◌<◌, ◌^◌, leb};
ghost use Rattle.written.specs.Sharing.{nothing, first_row, holds};
ghost use Rattle.load_bounds.specs.Bounds.{side_of, held_of, need_of, stands_at, Cut, Roomy, Cuts};

use load_plan::Plan;
use table_rows::{PATTERN_ROW, QUESTION_ROW, RECORD_ROW, TREE_ROW};

// A task's bounds: the rows that it holds of each table, and the values. All 0: it holds nothing.
#[derive(Clone, Copy)]
pub struct Held {
    pub questions: usize,
    pub patterns: usize,
    pub trees: usize,
    pub records: usize,
    pub values: usize,
}

// The bounds of a task that holds nothing.
pub fn nobody() -> Held
    ensures { held_of result ≡ nothing }
{
    Held {
        questions: 0,
        patterns: 0,
        trees: 0,
        records: 0,
        values: 0,
    }
}

// The first of a task's n rows in a table of so many.
fn first_row(top: bool, rows: usize, n: usize) -> usize
    requires { n ≤ rows }
    ensures { (result ≡ first_row (side_of top) rows n) × (result + n ≤ rows) }
{
    if top { rows - n } else { 0 }
}

// A part of a table: from one number up to another.
#[derive(Clone, Copy)]
pub struct Part {
    pub from: usize,
    pub to: usize,
}

// A task's n rows in a table of `len` numbers, `width` to a row.
pub fn own_part(top: bool, len: usize, width: usize, n: usize) -> Part
    requires { (1 ≤ width) × (n ≤ len / width) }
    ensures { Cut (side_of top) width len n result.from result.to }
{
    let from = width * first_row(top, len / width, n);
    let to = from + width * n;
    Part { from, to }
}

// The parts of the five tables in which a task's rows stand.
#[derive(Clone, Copy)]
pub struct Parts {
    pub questions: Part,
    pub patterns: Part,
    pub trees: Part,
    pub records: Part,
    pub values: Part,
}

// The parts of tables of so many numbers, of a task that has these bounds.
pub fn own_parts(
    top: bool,
    held: Held,
    questions: usize,
    patterns: usize,
    trees: usize,
    records: usize,
    values: usize,
) -> Parts
    requires { Roomy held questions patterns trees records values }
    ensures { Cuts (side_of top) held questions patterns trees records values result }
{
    Parts {
        questions: own_part(top, questions, QUESTION_ROW, held.questions),
        patterns: own_part(top, patterns, PATTERN_ROW, held.patterns),
        trees: own_part(top, trees, TREE_ROW, held.trees),
        records: own_part(top, records, RECORD_ROW, held.records),
        values: own_part(top, values, 1, held.values),
    }
}

// Whether a table of so many rows has a and b of them, one beside the other.
fn beside(rows: usize, a: usize, b: usize) -> bool
    ensures { result ≡ leb (a + b) rows }
{
    if rows < b {
        return false;
    }
    a <= rows - b
}

// Whether bounds stand beside each other in tables of so many numbers.
pub fn stand(
    a: Held,
    b: Held,
    questions: usize,
    patterns: usize,
    trees: usize,
    records: usize,
    values: usize,
) -> bool
    ensures { result ≡ stands_at (held_of a) (held_of b) questions patterns trees records values }
{
    if !beside(questions / QUESTION_ROW, a.questions, b.questions) {
        return false;
    }
    if !beside(patterns / PATTERN_ROW, a.patterns, b.patterns) {
        return false;
    }
    if !beside(trees / TREE_ROW, a.trees, b.trees) {
        return false;
    }
    if !beside(records / RECORD_ROW, a.records, b.records) {
        return false;
    }
    beside(values, a.values, b.values)
}

// Whether a task holds a model: some number is not 0.
pub fn holding(h: Held) -> bool
    ensures { result ≡ holds (held_of h) }
{
    if h.questions != 0 {
        return true;
    }
    if h.patterns != 0 {
        return true;
    }
    if h.trees != 0 {
        return true;
    }
    if h.records != 0 {
        return true;
    }
    h.values != 0
}

// The rows that a plan needs.
pub fn need(p: Plan) -> Held
    requires { p.entries * p.width < 2 ^ 63 }
    ensures { held_of result ≡ need_of p }
{
    let values = (p.entries * p.width) as usize;
    Held {
        questions: p.questions,
        patterns: p.patterns,
        trees: p.trees,
        records: p.records,
        values: values,
    }
}
