// One model of a voice by the house's rules (02, Wish 11): what the task holds is unloaded, the model is loaded into the task's rows beside the other's, and judged there.
// Takes any bytes, any record, any bounds and tables of any length. A refused load leaves what a load leaves; a model that breaks a rule stays loaded.
#![tactic(auto)]

ghost use Rattle.std.specs.Prelude.{◌≤◌, length};
ghost use Rattle.head_words.specs.Words.{header_at};
ghost use Rattle.load_plan.specs.Plans.{Sound};
ghost use Rattle.load_model.specs.Load.{lent};
ghost use Rattle.load_bounds.specs.Bounds.{side_of, held_of};
ghost use Rattle.house_step.specs.Steps.{StepsPlanned, Steps};

use error::Refusal;
use house_own::judge_own;
use load_bounds::Held;
use load_choose::Which;
use load_plan::{Plan, data_of, needs};
use load_shared::load_planned;
use load_unload::unload;

// The rule that a loaded model breaks, 0 for none, and the bounds that it stands in.
#[derive(Clone, Copy)]
pub struct Judged {
    pub rule: u64,
    pub held: Held,
}

// A plan into the task's rows, which hold nothing, and judged there.
fn judge_planned(
    d: &[u8],
    p: Plan,
    top: bool,
    other: Held,
    questions: &mut [u64],
    patterns: &mut [u64],
    trees: &mut [u64],
    records: &mut [u64],
    values: &mut [u64],
    work: &mut [i64],
) -> Result<Judged, Refusal>
    requires { Sound d.now p }
    ensures { StepsPlanned (side_of top) d.now p (held_of other) (lent questions.old patterns.old trees.old records.old values.old work.old) result (lent questions.new patterns.new trees.new records.new values.new work.new) }
{
    let loaded = load_planned(
        d, p, top, other, questions, patterns, trees, records, values, work,
    )?;
    let rule = judge_own(d, p, top, questions, patterns, trees, values);
    let held = Held {
        questions: loaded.questions,
        patterns: loaded.patterns,
        trees: loaded.trees,
        records: loaded.records,
        values: loaded.values as usize,
    };
    Ok(Judged { rule, held })
}

// The model asked for in place of what the task holds, and judged.
pub fn judge_next(
    file: &[u8],
    words: &[u64],
    which: Which,
    top: bool,
    mine: Held,
    other: Held,
    questions: &mut [u64],
    patterns: &mut [u64],
    trees: &mut [u64],
    records: &mut [u64],
    values: &mut [u64],
    work: &mut [i64],
) -> Result<Judged, Refusal>
    requires { 647 ≤ length words.now }
    ensures { Steps (side_of top) file.now (header_at words.now) which (held_of mine) (held_of other) (lent questions.old patterns.old trees.old records.old values.old work.old) result (lent questions.new patterns.new trees.new records.new values.new work.new) }
{
    unload(
        top, mine, other, questions, patterns, trees, records, values,
    );
    let p = needs(file, words, which)?;
    judge_planned(
        data_of(file, words),
        p,
        top,
        other,
        questions,
        patterns,
        trees,
        records,
        values,
        work,
    )
}
