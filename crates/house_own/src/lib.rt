// The first of the house's rules that the model in a task's rows breaks (02, Wishes 9 and 11): the task's own rows are cut out of the tables that two tasks share.
// Nothing is changed in the end.
#![tactic(auto)]

ghost use Rattle.std.specs.Prelude.{◌≡◌, length};
ghost use Rattle.load_bounds.specs.Bounds.{side_of};
ghost use Rattle.house_own.specs.Own.{rule_in, LoadedIn};

use house_model::judge_model;
use load_bounds::own_part;
use load_plan::Plan;
use table_rows::{PATTERN_ROW, QUESTION_ROW, TREE_ROW};

// The rule, or 0.
pub fn judge_own(
    d: &[u8],
    p: Plan,
    top: bool,
    questions: &[u64],
    patterns: &mut [u64],
    trees: &[u64],
    values: &[u64],
) -> u64
    requires { LoadedIn (side_of top) d.now p (length questions.now) patterns.old (length trees.now) (length values.now) }
    ensures { (result ≡ rule_in (side_of top) d.now p questions.now trees.now values.now) × (patterns.new ≡ patterns.old) }
{
    let n = (p.entries * p.width) as usize;
    let q = own_part(top, questions.len(), QUESTION_ROW, p.questions);
    let q_from = q.from;
    let q_to = q.to;
    let a = own_part(top, patterns.len(), PATTERN_ROW, p.patterns);
    let a_from = a.from;
    let a_to = a.to;
    let t = own_part(top, trees.len(), TREE_ROW, p.trees);
    let t_from = t.from;
    let t_to = t.to;
    let v = own_part(top, values.len(), 1, n);
    let v_from = v.from;
    let v_to = v.to;
    judge_model(
        d,
        p,
        &questions[q_from..q_to],
        &mut patterns[a_from..a_to],
        &trees[t_from..t_to],
        &values[v_from..v_to],
    )
}
