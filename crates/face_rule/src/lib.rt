// What is told of a voice that is judged by the house's rules (02, Wish 11): why it is refused, or the first rule that it breaks.
#![tactic(auto)]

ghost use Rattle.std.specs.Prelude.{◌≡◌, ◌≤◌, length};
ghost use Rattle.head_words.specs.Words.{word_at, header_at};
ghost use Rattle.house_types.specs.Types.{types_rule};
ghost use Rattle.face_rule.specs.Answers.{house, refused_as, ruled_by};

use error::Refusal;
use house_types::judge_types;
use house_voice::Broken;

// 01's number, its place and line, and the number of the model that was refused or that breaks a rule. An exported call hands it to C number by number.
#[repr(C)]
#[derive(Clone, Copy)]
pub struct House {
    pub number: u64,
    pub place: u64,
    pub line: u64,
    pub model: u64,
}

// These four.
pub fn told(number: u64, place: u64, line: u64, model: u64) -> House
    ensures { result ≡ house number place line model }
{
    House {
        number,
        place,
        line,
        model,
    }
}

// Why a load of a model is refused.
pub fn refused_as(refusal: Refusal, model: u64) -> House
    ensures { result ≡ refused_as refusal model }
{
    told(
        refusal.number(),
        refusal.place() as u64,
        refusal.line() as u64,
        model,
    )
}

// The rules on the whole voice, then what its models broke.
pub fn ruled(file: &[u8], words: &[u64], first: Broken) -> House
    requires { (647 ≤ length words.now) × (word_at words.now 22 ≤ 8) }
    ensures { result ≡ ruled_by (types_rule file.now (header_at words.now)) first }
{
    let number = judge_types(file, words);
    if number == 0 {
        return told(first.rule, 0, 0, first.model);
    }
    told(number, 0, 0, 0)
}
