// After model/question.rs: the questions of a tree text (01, 'Tree text'). `QS`, blanks, a name, blanks, `{`, patterns parted by commas, `}`.
// A caller reads in order: `first_item`; for each question its `question_head`, then `next_pattern` up to the last, then `after_question`.
// Every function takes any bytes and any place, also one past the end. A place is an index into the slice.
#![tactic(auto)]

ghost use Rattle.std.specs.Prelude.{◌≡◌};
ghost use Rattle.tree_question.specs.Questions.{past_qs, starts_question, head_at, after_pattern, pattern_step_at, item_at, after_question};

use text_base::blank_end;
use text_numbers::parse_pattern;
use text_parts::{Read, Span};
use text_spaces::{name_between, past_brace, past_byte, past_parting};

// A pattern, without its quotes, and where the next one stands; or the question's last, and the place past its `}`.
#[derive(Clone, Copy)]
pub enum PatternStep {
    Next {
        start: usize,
        len: usize,
        next: usize,
    },
    Last {
        start: usize,
        len: usize,
        next: usize,
    },
    Broken,
}

// Where the next question stands, or where the first tree does.
#[derive(Clone, Copy)]
pub enum Item {
    Question(usize),
    Tree(usize),
}

// The place past `QS`.
fn past_qs(s: &[u8], at: usize) -> Option<usize>
    ensures { result ≡ past_qs s.now at }
{
    let next = past_byte(s, at, b'Q')?;
    past_byte(s, next, b'S')
}

// Whether `QS` and a blank stand here: what then stands here is a question, or nothing that fits.
fn starts_question(s: &[u8], at: usize) -> bool
    ensures { result ≡ starts_question s.now at }
{
    match past_qs(s, at) {
        Some(next) => next < blank_end(s, next),
        None => false,
    }
}

// `QS`, blanks, name, blanks, `{`, blanks.
pub fn question_head(s: &[u8], at: usize) -> Option<Read<Span>>
    ensures { result ≡ head_at s.now at }
{
    let past = past_qs(s, at)?;
    let name = name_between(s, past)?;
    let inside = past_byte(s, name.next, b'{')?;
    Some(Read {
        value: name.value,
        next: blank_end(s, inside),
    })
}

// What follows a pattern that ends at `end`: a comma at once and blanks, or blanks and `}`.
fn after_pattern(s: &[u8], start: usize, len: usize, end: usize) -> PatternStep
    ensures { result ≡ after_pattern s.now start len end }
{
    match past_byte(s, end, b',') {
        Some(past) => PatternStep::Next {
            start,
            len,
            next: blank_end(s, past),
        },
        None => match past_brace(s, end) {
            Some(next) => PatternStep::Last { start, len, next },
            None => PatternStep::Broken,
        },
    }
}

// A pattern and what follows it.
pub fn next_pattern(s: &[u8], at: usize) -> PatternStep
    ensures { result ≡ pattern_step_at s.now at }
{
    match parse_pattern(s, at) {
        Some(found) => after_pattern(s, found.value.start, found.value.len, found.next),
        None => PatternStep::Broken,
    }
}

// What a text begins with: a question at once, or a tree after blanks.
pub fn first_item(s: &[u8], at: usize) -> Item
    ensures { result ≡ item_at s.now at }
{
    if starts_question(s, at) {
        Item::Question(at)
    } else {
        Item::Tree(blank_end(s, at))
    }
}

// What follows a question that ends at `at`: another one, parted from it, or a tree after blanks.
pub fn after_question(s: &[u8], at: usize) -> Item
    ensures { result ≡ after_question s.now at }
{
    match past_parting(s, at) {
        Some(next) => {
            if starts_question(s, next) {
                Item::Question(next)
            } else {
                Item::Tree(blank_end(s, at))
            }
        }
        None => Item::Tree(blank_end(s, at)),
    }
}
