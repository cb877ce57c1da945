// A voice's models by the house's rules, one after the other in a task's rows (02, Wish 11): each in place of the one before, the first rule that one breaks remembered.
// A refused load ends it; a broken rule doesn't, so that the last model stays loaded. Takes any bytes, any record, any bounds and tables of any length.
#![tactic(auto)]

ghost use Rattle.std.specs.Prelude.{◌≡◌, ◌≤◌, length};
ghost use Rattle.head_words.specs.Words.{header_at};
ghost use Rattle.load_model.specs.Load.{lent};
ghost use Rattle.load_bounds.specs.Bounds.{side_of, held_of};
ghost use Rattle.house_voice.specs.Voice.{first_of, JudgesVoice};

use error::Refusal;
use house_step::judge_next;
use load_bounds::{Held, nobody};
use load_choose::Which;
use load_voice::next_model;
use trail_voice::number_of;

// A rule that is broken, and the number of the model that breaks it; both 0 for none. No Option: the exported call answers these numbers.
#[derive(Clone, Copy)]
pub struct Broken {
    pub rule: u64,
    pub model: u64,
}

// The first broken rule, and the bounds of the last model.
#[derive(Clone, Copy)]
pub struct VoiceJudged {
    pub first: Broken,
    pub held: Held,
}

// A load that is refused, and its model's number.
#[derive(Clone, Copy)]
pub struct ModelRefused {
    pub refusal: Refusal,
    pub model: u64,
}

// The first broken rule, of what is known and a model behind that.
fn first_of(first: Broken, rule: u64, model: u64) -> Broken
    ensures { result ≡ first_of first rule model }
{
    if first.rule != 0 {
        return first;
    }
    if rule == 0 {
        return first;
    }
    Broken { rule, model }
}

// All models of a voice, duration first.
pub fn judge_voice(
    file: &[u8],
    words: &[u64],
    top: bool,
    other: Held,
    questions: &mut [u64],
    patterns: &mut [u64],
    trees: &mut [u64],
    records: &mut [u64],
    values: &mut [u64],
    work: &mut [i64],
) -> Result<VoiceJudged, ModelRefused>
    requires { 647 ≤ length words.now }
    ensures { JudgesVoice (side_of top) file.now (header_at words.now) (held_of other) (lent questions.old patterns.old trees.old records.old values.old work.old) result (lent questions.new patterns.new trees.new records.new values.new work.new) }
{
    let mut which = Which::Duration;
    let mut held = nobody();
    let mut first = Broken { rule: 0, model: 0 };
    // No `for`: the models of a record follow one another by `next_model`.
    loop {
        match judge_next(
            file, words, which, top, held, other, questions, patterns, trees, records, values, work,
        ) {
            Err(refusal) => {
                return Err(ModelRefused {
                    refusal,
                    model: number_of(which),
                });
            }
            Ok(judged) => {
                first = first_of(first, judged.rule, number_of(which));
                held = judged.held;
            }
        }
        match next_model(file, words, which) {
            Some(next) => {
                which = next;
            }
            None => {
                return Ok(VoiceJudged { first, held });
            }
        }
    }
}
