// Two tasks in one set of tables (02, Wish 9): a load into one task's rows. A plan is filled into parts of the five tables that
// have exactly the rows that it needs, so that filling in front and zeroing whole slices touch nothing else. Stages of a load in 01's order: what the model needs
// (`load_plan`: 16, 13 to 15, 12, 16 to 19), whether the rows fit beside the other task's (20), then rows and linking (21 to 23). Takes any bytes, any record,
// any bounds and tables of any length.
#![tactic(auto)]

ghost use Rattle.std.specs.Prelude.{◌≤◌, length};
ghost use Rattle.head_words.specs.Words.{header_at};
ghost use Rattle.load_plan.specs.Plans.{Sound};
ghost use Rattle.load_bounds.specs.Bounds.{side_of, held_of};
ghost use Rattle.load_model.specs.Load.{lent};
ghost use Rattle.load_shared.specs.Beside.{Fits, FillsOwn, PlacesBeside, LoadsBeside};

use error::Refusal;
use load_bounds::{Held, need, own_parts, stand};
use load_choose::Which;
use load_model::{Loaded, fill};
use load_plan::{Plan, data_of, needs};
use table_rows::WORK_A_LINE;

// A plan into a task's own rows.
fn fill_own(
    d: &[u8],
    p: Plan,
    top: bool,
    questions: &mut [u64],
    patterns: &mut [u64],
    trees: &mut [u64],
    records: &mut [u64],
    values: &mut [u64],
    work: &mut [i64],
) -> Result<Loaded, Refusal>
    requires { Sound d.now p × Fits p (length questions.old) (length patterns.old) (length trees.old) (length records.old) (length values.old) (length work.old) }
    ensures { FillsOwn (side_of top) d.now p (lent questions.old patterns.old trees.old records.old values.old work.old) result (lent questions.new patterns.new trees.new records.new values.new work.new) }
{
    let own = own_parts(
        top,
        need(p),
        questions.len(),
        patterns.len(),
        trees.len(),
        records.len(),
        values.len(),
    );
    fill(
        d,
        p,
        &mut questions[own.questions.from..own.questions.to],
        &mut patterns[own.patterns.from..own.patterns.to],
        &mut trees[own.trees.from..own.trees.to],
        &mut records[own.records.from..own.records.to],
        &mut values[own.values.from..own.values.to],
        work,
    )
}

// A plan into one task's rows, beside those that the other holds. The task holds nothing; a table that lacks the other's rows has no room.
pub fn load_planned(
    d: &[u8],
    p: Plan,
    top: bool,
    other: Held,
    questions: &mut [u64],
    patterns: &mut [u64],
    trees: &mut [u64],
    records: &mut [u64],
    values: &mut [u64],
    work: &mut [i64],
) -> Result<Loaded, Refusal>
    requires { Sound d.now p }
    ensures { PlacesBeside (side_of top) d.now p (held_of other) (lent questions.old patterns.old trees.old records.old values.old work.old) result (lent questions.new patterns.new trees.new records.new values.new work.new) }
{
    if !stand(
        need(p),
        other,
        questions.len(),
        patterns.len(),
        trees.len(),
        records.len(),
        values.len(),
    ) {
        return Err(Refusal::Room);
    }
    if work.len() / WORK_A_LINE < p.lines {
        return Err(Refusal::Room);
    }
    fill_own(d, p, top, questions, patterns, trees, records, values, work)
}

// Loads the model asked for into one task's rows, beside those that the other holds.
pub fn load(
    file: &[u8],
    words: &[u64],
    which: Which,
    top: bool,
    other: Held,
    questions: &mut [u64],
    patterns: &mut [u64],
    trees: &mut [u64],
    records: &mut [u64],
    values: &mut [u64],
    work: &mut [i64],
) -> Result<Loaded, Refusal>
    requires { 647 ≤ length words.now }
    ensures { LoadsBeside (side_of top) file.now (header_at words.now) which (held_of other) (lent questions.old patterns.old trees.old records.old values.old work.old) result (lent questions.new patterns.new trees.new records.new values.new work.new) }
{
    let p = needs(file, words, which)?;
    load_planned(
        data_of(file, words),
        p,
        top,
        other,
        questions,
        patterns,
        trees,
        records,
        values,
        work,
    )
}
