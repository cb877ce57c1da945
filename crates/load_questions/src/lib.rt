// After model/mod.rs, `parse_questions`: the question rows and the pattern rows of a tree text, into lent tables (01, 'Linking and tables').
// Question rows: any bytes and any place; a text that doesn't fit gives the rows of the questions before the fault. Pattern rows: questions that can be
// read, so that no pattern is counted once more before it is stored.
#![tactic(auto)]

ghost use Rattle.std.specs.Prelude.{◌≡◌, ◌+◌, ◌*◌, ◌≤◌, length};
ghost use Rattle.std.proofs.lemmas.List.Edits.{sets};
ghost use Rattle.laws.specs.Steps.{read};
ghost use Rattle.laws.specs.Totals.{total};
ghost use Rattle.tree_question.specs.Questions.{patterns_at, question_step_at, questions_at};
ghost use Rattle.tree_survey_questions.specs.Counts.{pattern_count, patterns_counted};
ghost use Rattle.load_questions.specs.Words.{Done, row_at, span_words, pattern_words, question_words};

use table_put::{put2, put4};
use table_rows::{PATTERN_ROW, QUESTION_ROW};
use text_parts::Read;
use tree_question::{Item, PatternStep, after_question, first_item, next_pattern, question_head};
use tree_survey_questions::count_patterns;

// A question: its name, where its first pattern stands, how many it has; and where the next question stands, if one follows. The three steps of a reader, so
// that the loop matches Next, Last and Broken: an Option in an Option would be no plainer.
#[derive(Clone, Copy)]
enum QuestionRow {
    Next {
        start: usize,
        len: usize,
        first: usize,
        patterns: usize,
        next: usize,
    },
    Last {
        start: usize,
        len: usize,
        first: usize,
        patterns: usize,
    },
    Broken,
}

// The question at `at`.
fn question_row(s: &[u8], at: usize) -> QuestionRow
    ensures { result ≡ row_at s.now at }
{
    match question_head(s, at) {
        Some(head) => match count_patterns(s, head.next) {
            Some(patterns) => match after_question(s, patterns.next) {
                Item::Question(next) => QuestionRow::Next {
                    start: head.value.start,
                    len: head.value.len,
                    first: head.next,
                    patterns: patterns.value,
                    next,
                },
                Item::Tree(_) => QuestionRow::Last {
                    start: head.value.start,
                    len: head.value.len,
                    first: head.next,
                    patterns: patterns.value,
                },
            },
            None => QuestionRow::Broken,
        },
        None => QuestionRow::Broken,
    }
}

// The question rows from the first question's place on.
fn fill_questions_from(s: &[u8], at: usize, questions: &mut [u64])
    requires { 4 * length (read (question_step_at s.now) (length s.now) at).items ≤ length questions.old }
    ensures { questions.new ≡ sets questions.old 0 (question_words 0 (read (question_step_at s.now) (length s.now) at).items) }
{
    let mut i = at;
    let mut word = 0;
    let mut pattern = 0;
    // No `for`: where the next question stands is what the reader of this one answers.
    loop {
        match question_row(s, i) {
            QuestionRow::Next {
                start,
                len,
                first: _,
                patterns,
                next,
            } => {
                put4(
                    questions,
                    word,
                    start as u64,
                    len as u64,
                    pattern as u64,
                    patterns as u64,
                );
                word = word + QUESTION_ROW;
                pattern = pattern + patterns;
                i = next;
            }
            QuestionRow::Last {
                start,
                len,
                first: _,
                patterns,
            } => {
                put4(
                    questions,
                    word,
                    start as u64,
                    len as u64,
                    pattern as u64,
                    patterns as u64,
                );
                return;
            }
            QuestionRow::Broken => {
                return;
            }
        }
    }
}

// The question rows of a text that begins at `at`, into the table from its front on.
pub fn fill_questions(s: &[u8], at: usize, questions: &mut [u64])
    requires { 4 * length (questions_at s.now at).items ≤ length questions.old }
    ensures { questions.new ≡ sets questions.old 0 (question_words 0 (questions_at s.now at).items) }
{
    match first_item(s, at) {
        Item::Question(first) => fill_questions_from(s, first, questions),
        Item::Tree(_) => {}
    }
}

// The pattern rows of the question whose first pattern stands at `at`, from word `from` on; and their count.
pub fn fill_patterns(s: &[u8], at: usize, patterns: &mut [u64], from: usize) -> Option<Read<usize>>
    requires { from + 2 * length (patterns_at s.now at).items ≤ length patterns.old }
    ensures { (result ≡ patterns_counted 0 (patterns_at s.now at)) × (patterns.new ≡ sets patterns.old from (span_words (patterns_at s.now at).items)) }
{
    let mut i = at;
    let mut word = from;
    let mut n = 0;
    // No `for`: where the next pattern stands is what the reader of this one answers.
    loop {
        match next_pattern(s, i) {
            PatternStep::Next { start, len, next } => {
                put2(patterns, word, start as u64, len as u64);
                word = word + 2;
                n = n + 1;
                i = next;
            }
            PatternStep::Last { start, len, next } => {
                put2(patterns, word, start as u64, len as u64);
                return Some(Read { value: n + 1, next });
            }
            PatternStep::Broken => {
                return None;
            }
        }
    }
}

// The pattern rows of all questions from the first question's place on.
fn fill_patterns_from(s: &[u8], at: usize, patterns: &mut [u64])
    requires done { Done (read (question_step_at s.now) (length s.now) at) }
    requires at_in_bounds { 2 * total pattern_count (read (question_step_at s.now) (length s.now) at).items ≤ length patterns.old }
    ensures { patterns.new ≡ sets patterns.old 0 (pattern_words (read (question_step_at s.now) (length s.now) at).items) }
{
    let mut i = at;
    let mut word = 0;
    // No `for`: where the next question stands is what the reader of this one answers.
    loop {
        match question_head(s, i) {
            Some(head) => match fill_patterns(s, head.next, patterns, word) {
                Some(filled) => match after_question(s, filled.next) {
                    Item::Question(next) => {
                        word = word + PATTERN_ROW * filled.value;
                        i = next;
                    }
                    Item::Tree(_) => {
                        return;
                    }
                },
                // never, of questions that can be read
                None => {
                    return;
                }
            },
            None => {
                return;
            }
        }
    }
}

// The pattern rows of all questions of a text that begins at `at`, into the table from its front on.
pub fn fill_all_patterns(s: &[u8], at: usize, patterns: &mut [u64])
    requires done { Done (questions_at s.now at) }
    requires at_in_bounds { 2 * total pattern_count (questions_at s.now at).items ≤ length patterns.old }
    ensures { patterns.new ≡ sets patterns.old 0 (pattern_words (questions_at s.now at).items) }
{
    match first_item(s, at) {
        Item::Question(first) => fill_patterns_from(s, first, patterns),
        Item::Tree(_) => {}
    }
}
