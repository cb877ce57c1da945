// Replays stored answers on tree texts: a line is a text as hex, and then the numbers that are to be said of it (judge/README.md, `trees`).
// It reads them from standard input, surveys each text, reads it again item by item as a load does, and says how many lines there are and how many differ.
// Assumes that the lines fit its room, and a text 4,096 bytes; a line that doesn't differs.
#![tactic(auto)]

use replay::{Stored, ended, number, other, pair, read_full, replay, say, signed};
use std::io;
use text_parts::{Read, Span};
use tree_body::{TreeHead, TreeStep, after_tree, tree_head};
use tree_line::{Line, LineStep, next_line};
use tree_question::{Item, PatternStep, after_question, first_item, next_pattern, question_head};
use tree_reference::TreeIndex;
use tree_survey::{Survey, SurveyError, survey_text};
use tree_survey_lines::{LineCount, count_lines};
use tree_survey_questions::count_patterns;

fn reference(c: Stored, s: &[u8], index: TreeIndex) -> Stored {
    match index {
        TreeIndex::Node(x) => signed(number(c, s, 0), s, x),
        TreeIndex::Pdf(n) => signed(number(c, s, 1), s, n),
    }
}

// Id, name, no, yes.
fn one_line(c: Stored, s: &[u8], line: Line) -> Stored {
    let no = line.no;
    let yes = line.yes;
    let named = pair(signed(c, s, line.id), s, line.start, line.len);
    reference(reference(named, s, no), s, yes)
}

// A cursor in the text, and beside it the one in what is stored.
#[derive(Clone, Copy)]
struct Both {
    at: usize,
    stored: Stored,
}

fn broken(c: Stored) -> Both {
    Both {
        at: 0,
        stored: other(c),
    }
}

// A pattern.
fn one_pattern(b: Both, s: &[u8], text: &[u8]) -> Both {
    let at = b.at;
    let c = b.stored;
    match next_pattern(text, at) {
        PatternStep::Next { start, len, next } => Both {
            at: next,
            stored: pair(c, s, start, len),
        },
        PatternStep::Last { start, len, next } => Both {
            at: next,
            stored: pair(c, s, start, len),
        },
        PatternStep::Broken => broken(c),
    }
}

// The patterns of a question.
fn patterns(b: Both, s: &[u8], text: &[u8], count: usize) -> Both {
    let mut cursor = b;
    for _ in 0..count {
        cursor = one_pattern(cursor, s, text);
    }
    cursor
}

// A question, with the count of its patterns; then where the next item stands.
fn one_question(b: Both, s: &[u8], text: &[u8]) -> Both {
    let at = b.at;
    let c = b.stored;
    match question_head(text, at) {
        Some(
            Read {
                value: Span { start, len },
                next: first,
            },
        ) => match count_patterns(text, first) {
            Some(Read { value: n, next: _ }) => {
                let head = Both {
                    at: first,
                    stored: number(pair(c, s, start, len), s, n as u64),
                };
                let read = patterns(head, s, text, n);
                let end = read.at;
                let stored = read.stored;
                match after_question(text, end) {
                    Item::Question(next) => Both { at: next, stored },
                    Item::Tree(next) => Both { at: next, stored },
                }
            }
            None => broken(c),
        },
        None => broken(c),
    }
}

fn questions(b: Both, s: &[u8], text: &[u8], count: usize) -> Both {
    let mut cursor = b;
    for _ in 0..count {
        cursor = one_question(cursor, s, text);
    }
    cursor
}

// A line of a tree.
fn written_line(b: Both, s: &[u8], text: &[u8]) -> Both {
    let at = b.at;
    let c = b.stored;
    match next_line(text, at) {
        LineStep::Next { line, next } => Both {
            at: next,
            stored: one_line(c, s, line),
        },
        LineStep::Last { line, next } => Both {
            at: next,
            stored: one_line(c, s, line),
        },
        LineStep::Broken => broken(c),
    }
}

fn lines(b: Both, s: &[u8], text: &[u8], count: usize) -> Both {
    let mut cursor = b;
    for _ in 0..count {
        cursor = written_line(cursor, s, text);
    }
    cursor
}

// The body of a tree, whose place and state were compared.
fn body(c: Stored, s: &[u8], text: &[u8], head: TreeHead) -> Both {
    match head {
        TreeHead::Lone { state, index, next } => Both {
            at: next,
            stored: reference(number(signed(c, s, state), s, 0), s, index),
        },
        TreeHead::Empty { state, next } => Both {
            at: next,
            stored: pair(signed(c, s, state), s, 1, 0),
        },
        TreeHead::Lines { state, first } => match count_lines(text, first) {
            Some(
                Read {
                    value: LineCount { lines: n, pdfs: _ },
                    next: _,
                },
            ) => lines(
                Both {
                    at: first,
                    stored: pair(signed(c, s, state), s, 1, n),
                },
                s,
                text,
                n,
            ),
            None => broken(c),
        },
        TreeHead::NoTree => broken(c),
    }
}

// A tree: the place of its `{*}`, its state, its body; then where the next one stands.
fn one_tree(b: Both, s: &[u8], text: &[u8]) -> Both {
    let at = b.at;
    let read = body(number(b.stored, s, at as u64), s, text, tree_head(text, at));
    let end = read.at;
    let stored = read.stored;
    match after_tree(text, end) {
        TreeStep::Next(next) => Both { at: next, stored },
        TreeStep::End => Both { at: end, stored },
        TreeStep::Broken(_) => broken(stored),
    }
}

fn trees(b: Both, s: &[u8], text: &[u8], count: usize) -> Both {
    let mut cursor = b;
    for _ in 0..count {
        cursor = one_tree(cursor, s, text);
    }
    cursor
}

fn first_place(text: &[u8]) -> usize {
    match first_item(text, 0) {
        Item::Question(at) => at,
        Item::Tree(at) => at,
    }
}

// Whether all that is stored from `at` on is said of the text.
fn replay_text(s: &[u8], at: usize, text: &[u8]) -> bool {
    let c = Stored { at, same: true };
    match survey_text(text, 0) {
        Ok(
            Survey {
                questions: q,
                patterns: p,
                trees: t,
                records: r,
                lines: k,
            },
        ) => {
            let counts = number(pair(pair(number(c, s, 0), s, q, p), s, t, r), s, k as u64);
            let start = Both {
                at: first_place(text),
                stored: counts,
            };
            let end = trees(questions(start, s, text, q), s, text, t);
            let last = end.stored;
            ended(last, s)
        }
        Err(SurveyError::Broken(place)) => ended(pair(c, s, 17, place), s),
        Err(SurveyError::Negative) => ended(pair(c, s, 18, 0), s),
    }
}

fn room() -> [u8; 1048576] {
    [0; 1048576]
}

fn main(rt: HostRuntime) -> io::Result<()> {
    let mut buffer = room();
    let n = read_full(&mut rt.reader(), &mut buffer)?;
    let t = replay(&replay_text, &buffer[..n]);
    let mut out = io::writer(&rt);
    say(&mut out, t.cases, b" lines, ")?;
    say(&mut out, t.differ, b" differ\n")
}
