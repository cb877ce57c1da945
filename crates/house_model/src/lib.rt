// The first of the house's rules that a loaded model breaks (02, Wish 11): 32 to 36, each over the whole model before the next. Takes a plan in its data and the model's
// own rows, as a load leaves them; nothing is changed in the end.
#![tactic(auto)]

ghost use Rattle.std.specs.Prelude.{◌≡◌, length};
ghost use Rattle.house_model.specs.Model.{rule_of, Loaded};

use house_names::names_once;
use house_text::{ids_run, leaves_run};
use house_values::values_good;
use load_plan::Plan;
use text_parts::up_to;

// The rules' numbers.
pub const IDS: u64 = 32;

pub const NAMES: u64 = 33;

pub const LEAVES: u64 = 34;

pub const MEANS: u64 = 35;

pub const VARIANCES: u64 = 36;

// The rule, or 0.
pub fn judge_model(
    d: &[u8],
    p: Plan,
    questions: &[u64],
    patterns: &mut [u64],
    trees: &[u64],
    values: &[u64],
) -> u64
    requires { Loaded d.now p patterns.old (length trees.now) }
    ensures { (result ≡ rule_of d.now p questions.now trees.now values.now) × (patterns.new ≡ patterns.old) }
{
    let s = up_to(d, p.text_end);
    if !ids_run(s, p.first) {
        return IDS;
    }
    if !names_once(s, p.text, questions, p.questions, patterns) {
        return NAMES;
    }
    if !leaves_run(s, p.first, trees) {
        return LEAVES;
    }
    let width = p.width as usize;
    if !values_good(values, width, false) {
        return MEANS;
    }
    if !values_good(values, width, true) {
        return VARIANCES;
    }
    0
}
