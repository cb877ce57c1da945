// The survey of a tree text's questions: how many there are, how many patterns they have, and where the first tree is to stand (01, 'Tree text').
// Every function takes any bytes and any place, also one past the end. A place is an index into the slice.
#![tactic(auto)]

ghost use Rattle.std.specs.Prelude.{◌≡◌, length};
ghost use Rattle.tree_question.specs.Questions.{patterns_at, question_step_at, questions_at};
ghost use Rattle.laws.specs.Steps.{read};
ghost use Rattle.tree_survey_questions.specs.Counts.{patterns_counted, question_surveyed, questions_counted};

use text_parts::Read;
use tree_question::{Item, PatternStep, after_question, first_item, next_pattern, question_head};

// A question: how many patterns it has, and where the next question, or after the last one the first tree, stands.
#[derive(Clone, Copy)]
pub enum QuestionSurvey {
    Next { patterns: usize, next: usize },
    Last { patterns: usize, next: usize },
    Broken,
}

// All questions; or the start of the one that doesn't fit.
#[derive(Clone, Copy)]
pub struct Questions {
    pub questions: usize,
    pub patterns: usize,
}

// The patterns from `at` on.
pub fn count_patterns(s: &[u8], at: usize) -> Option<Read<usize>>
    ensures { result ≡ patterns_counted 0 (patterns_at s.now at) }
{
    let mut i = at;
    let mut n = 0;
    // No `for`: where the next pattern stands is what the reader of this one answers.
    loop {
        match next_pattern(s, i) {
            PatternStep::Next {
                start: _,
                len: _,
                next,
            } => {
                n = n + 1;
                i = next;
            }
            PatternStep::Last {
                start: _,
                len: _,
                next,
            } => {
                return Some(Read { value: n + 1, next });
            }
            PatternStep::Broken => {
                return None;
            }
        }
    }
}

// The question at `at`, and whether another follows it.
pub fn survey_question(s: &[u8], at: usize) -> QuestionSurvey
    ensures { result ≡ question_surveyed (question_step_at s.now at) }
{
    match question_head(s, at) {
        Some(head) => match count_patterns(s, head.next) {
            Some(patterns) => match after_question(s, patterns.next) {
                Item::Question(next) => QuestionSurvey::Next {
                    patterns: patterns.value,
                    next,
                },
                Item::Tree(next) => QuestionSurvey::Last {
                    patterns: patterns.value,
                    next,
                },
            },
            None => QuestionSurvey::Broken,
        },
        None => QuestionSurvey::Broken,
    }
}

// The questions from the first one's place on.
fn count_questions(s: &[u8], at: usize) -> Result<Read<Questions>, usize>
    ensures { result ≡ questions_counted 0 0 (read (question_step_at s.now) (length s.now) at) }
{
    let mut i = at;
    let mut n = 0;
    let mut m = 0;
    // No `for`: where the next question stands is what the reader of this one answers.
    loop {
        match survey_question(s, i) {
            QuestionSurvey::Next { patterns, next } => {
                n = n + 1;
                m = m + patterns;
                i = next;
            }
            QuestionSurvey::Last { patterns, next } => {
                return Ok(Read {
                    value: Questions {
                        questions: n + 1,
                        patterns: m + patterns,
                    },
                    next,
                });
            }
            QuestionSurvey::Broken => {
                return Err(i);
            }
        }
    }
}

// The questions of a text that begins at `at`, possibly none.
pub fn survey_questions(s: &[u8], at: usize) -> Result<Read<Questions>, usize>
    ensures { result ≡ questions_counted 0 0 (questions_at s.now at) }
{
    match first_item(s, at) {
        Item::Question(first) => count_questions(s, first),
        Item::Tree(next) => Ok(Read {
            value: Questions {
                questions: 0,
                patterns: 0,
            },
            next,
        }),
    }
}
