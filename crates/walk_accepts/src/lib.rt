// One tree of a tree text, chosen by its number, and whether record rows that somebody else linked are its own (02, Wish 13).
// Every function takes any bytes, any number and any rows. Nothing lent is written.
#![tactic(auto)]

ghost use Rattle.std.specs.Prelude.{◌≡◌};
ghost use Rattle.tree_question.specs.Questions.{questions_at};
ghost use Rattle.walk_accepts.specs.Accepting.{in_text, chosen_tree, accepted_of, accepts_of, accepts_told};

use error::{LineFault, Refusal, Told};
use link_alone::judge_tree;
use link_find::find_tree;
use tree_survey::{SurveyError, survey_text};
use tree_survey_questions::survey_questions;

// A tree of a text that can be read, by its number.
fn tree_in(s: &[u8], tree: u64) -> Result<usize, Refusal>
    ensures { result ≡ in_text s.now tree (questions_at s.now 0).ending }
{
    match survey_questions(s, 0) {
        Ok(asked) => match find_tree(s, asked.next, tree) {
            Some(star) => Ok(star),
            None => Err(Refusal::WalkTable),
        },
        // never, of a text that can be read
        Err(_) => Err(Refusal::WalkTable),
    }
}

// A tree of a text: 17 and 18 for the text first, then 24 where there is no such tree.
pub fn choose_tree(s: &[u8], tree: u64) -> Result<usize, Refusal>
    ensures { result ≡ chosen_tree s.now tree }
{
    match survey_text(s, 0) {
        Ok(counts) => tree_in(s, tree),
        Err(SurveyError::Broken(at)) => Err(Refusal::Text(at)),
        Err(SurveyError::Negative) => Err(Refusal::State),
    }
}

// What was judged of a tree: 21 to 23, then 37.
fn accepted_of(tree: u64, judged: Result<bool, LineFault>) -> Result<(), Refusal>
    ensures { result ≡ accepted_of tree judged }
{
    let tree = tree as usize;
    match judged {
        Ok(fits) => {
            if fits {
                Ok(())
            } else {
                Err(Refusal::OtherRows)
            }
        }
        Err(LineFault { fault, line }) => Err(Refusal::Unlinked { fault, tree, line }),
    }
}

// Whether the rows are those of a tree of the text.
pub fn accepts(s: &[u8], tree: u64, records: &[u64]) -> Result<(), Refusal>
    ensures { result ≡ accepts_of s.now tree records.now }
{
    let star = choose_tree(s, tree)?;
    accepted_of(tree, judge_tree(s, 0, star, records))
}

// The same in numbers; 0 where they are accepted.
pub fn accepts_said(s: &[u8], tree: u64, records: &[u64]) -> Told
    ensures { result ≡ accepts_told (accepts_of s.now tree records.now) }
{
    match accepts(s, tree, records) {
        Ok(()) => Told {
            number: 0,
            place: 0,
            line: 0,
        },
        Err(refusal) => refusal.told(),
    }
}
