// Finding things in a tree text by reading it, without tables: a tree by its number, the last line that bears an id, the last question of a name, and
// whether a tree's ids run 0, -1, -2, .., so that no line need be searched for (01, 'Linking and tables'; 02, Wishes 12 and 13).
// Every function takes any bytes and any place, also one past the end. A place is an index into the slice.
#![tactic(auto)]

ghost use Rattle.std.specs.Prelude.{◌≡◌, cond, length, Some};
ghost use Rattle.written.specs.Bytes.{same};
ghost use Rattle.laws.specs.Steps.{read};
ghost use Rattle.tree_line.specs.Lines.{lines_at};
ghost use Rattle.tree_question.specs.Questions.{question_step_at, questions_at};
ghost use Rattle.tree_body.specs.Trees.{trees_at};
ghost use Rattle.link_find.specs.Find.{star_of, name_step, asked, bears, bearer, bearing, placed, ordered, Lines};

use link_order::{compare_names, id_key};
use std::cmp::Ordering;
use text_parts::part_inside;
use tree_line::{Line, LineStep, next_line};
use tree_question::{Item, after_question, first_item, question_head};
use tree_survey::{TreeSurvey, survey_tree};
use tree_survey_questions::count_patterns;

// A question's name, and where the next question stands; or the last one's; or no question.
#[derive(Clone, Copy)]
pub enum NameStep {
    Next {
        start: usize,
        len: usize,
        next: usize,
    },
    Last {
        start: usize,
        len: usize,
    },
    Broken,
}

// Where tree n of those from `first` on stands.
pub fn find_tree(s: &[u8], first: usize, n: u64) -> Option<usize>
    ensures { result ≡ star_of (trees_at s.now first).items n }
{
    let mut i = first;
    let mut left = n;
    // No `for`: where the next tree stands is what the reader of this one answers.
    loop {
        match survey_tree(s, i) {
            TreeSurvey::Next {
                negative: _,
                records: _,
                lines: _,
                next,
            } => {
                if left == 0 {
                    return Some(i);
                }
                left = left - 1;
                i = next;
            }
            TreeSurvey::Last {
                negative: _,
                records: _,
                lines: _,
            } => {
                if left == 0 {
                    return Some(i);
                }
                return None;
            }
            TreeSurvey::Broken(_) => {
                return None;
            }
        }
    }
}

// Whether two names are the same.
pub fn same_name(a: &[u8], b: &[u8]) -> bool
    ensures { result ≡ same a.now b.now }
{
    match compare_names(a, b) {
        Ordering::Equal => true,
        Ordering::Less => false,
        Ordering::Greater => false,
    }
}

// The name of the question at `at`, and whether another question follows it.
pub fn next_name(s: &[u8], at: usize) -> NameStep
    ensures { result ≡ name_step (question_step_at s.now at) }
{
    match question_head(s, at) {
        Some(head) => match count_patterns(s, head.next) {
            Some(patterns) => match after_question(s, patterns.next) {
                Item::Question(next) => NameStep::Next {
                    start: head.value.start,
                    len: head.value.len,
                    next,
                },
                Item::Tree(_) => NameStep::Last {
                    start: head.value.start,
                    len: head.value.len,
                },
            },
            None => NameStep::Broken,
        },
        None => NameStep::Broken,
    }
}

// What is found once a row was looked at.
fn found_after(before: Option<u64>, hit: bool, row: u64) -> Option<u64>
    ensures { result ≡ cond hit (Some row) before }
{
    if hit { Some(row) } else { before }
}

// The last of the questions from the first one's place on that has a name.
fn last_named(s: &[u8], first: usize, name: &[u8]) -> Option<u64>
    ensures { result ≡ asked s.now name.now (read (question_step_at s.now) (length s.now) first).items }
{
    let mut i = first;
    let mut row: u64 = 0;
    let mut last = None;
    // No `for`: where the next question stands is what the reader of this one answers.
    loop {
        match next_name(s, i) {
            NameStep::Next { start, len, next } => {
                last = found_after(
                    last,
                    same_name(part_inside(s, start as u64, len as u64), name),
                    row,
                );
                row = row + 1;
                i = next;
            }
            NameStep::Last { start, len } => {
                return found_after(
                    last,
                    same_name(part_inside(s, start as u64, len as u64), name),
                    row,
                );
            }
            NameStep::Broken => {
                return last;
            }
        }
    }
}

// The last question of a name, in a text that begins at `at`.
pub fn last_question(s: &[u8], at: usize, name: &[u8]) -> Option<u64>
    ensures { result ≡ asked s.now name.now (questions_at s.now at).items }
{
    match first_item(s, at) {
        Item::Question(first) => last_named(s, first, name),
        Item::Tree(_) => None,
    }
}

// Whether a line bears the id of a key.
fn bears_id(line: Line, key: u64) -> bool
    ensures { result ≡ bears key line }
{
    let id = line.id;
    id_key(id) == key
}

// The number of the last of a tree's lines, from the first one's place on, that bears the id of a key.
pub fn last_line(s: &[u8], first: usize, key: u64) -> Option<u64>
    ensures { result ≡ bearer key (lines_at s.now first).items }
{
    let mut i = first;
    let mut number: u64 = 0;
    let mut last = None;
    // No `for`: where the next line stands is what the reader of this one answers.
    loop {
        match next_line(s, i) {
            LineStep::Next { line, next } => {
                last = found_after(last, bears_id(line, key), number);
                number = number + 1;
                i = next;
            }
            LineStep::Last { line, next: _ } => {
                return found_after(last, bears_id(line, key), number);
            }
            LineStep::Broken => {
                return last;
            }
        }
    }
}

// The last of a tree's lines, from the first one's place on, that bears the id of a key: the line itself, so that none is read twice.
pub fn last_bearing(s: &[u8], first: usize, key: u64) -> Option<Line>
    ensures { result ≡ bearing key (lines_at s.now first).items }
{
    let mut i = first;
    let mut last = None;
    // No `for`: where the next line stands is what the reader of this one answers.
    loop {
        match next_line(s, i) {
            LineStep::Next { line, next } => {
                if bears_id(line, key) {
                    last = Some(line);
                }
                i = next;
            }
            LineStep::Last { line, next: _ } => {
                if bears_id(line, key) {
                    return Some(line);
                }
                return last;
            }
            LineStep::Broken => {
                return last;
            }
        }
    }
}

// Whether a line's id is minus its number.
fn in_place(line: Line, number: u64) -> bool
    ensures { result ≡ placed number line }
{
    let id = line.id;
    let key = id_key(id);
    if 9223372036854775808 < key {
        return false;
    }
    9223372036854775808 - key == number
}

// Whether the ids of a tree's lines run 0, -1, -2, .., so that a line stands where its id says.
pub fn ids_in_order(s: &[u8], first: usize) -> bool
    ensures { result ≡ ordered 0 (lines_at s.now first).items }
{
    let mut i = first;
    let mut number: u64 = 0;
    // No `for`: where the next line stands is what the reader of this one answers.
    loop {
        match next_line(s, i) {
            LineStep::Next { line, next } => {
                if !in_place(line, number) {
                    return false;
                }
                number = number + 1;
                i = next;
            }
            LineStep::Last { line, next: _ } => {
                return in_place(line, number);
            }
            LineStep::Broken => {
                return true;
            }
        }
    }
}

// The number of the last of n lines that bears the id of a key: where the id says, or by reading them all.
pub fn line_of(s: &[u8], first: usize, n: u64, in_order: bool, key: u64) -> Option<u64>
    requires { Lines s.now first n in_order }
    ensures { result ≡ bearer key (lines_at s.now first).items }
{
    if in_order {
        if 9223372036854775808 < key {
            return None;
        }
        let line = 9223372036854775808 - key;
        if line < n {
            return Some(line);
        }
        return None;
    }
    last_line(s, first, key)
}
