// Replays the vectors of the public documents and of the scope on the lowest crates: a line is a text as hex, and then what is to be said of it (judge/README.md, `leaves`):
// where its first bad UTF-8 sequence stands, its number without and with a sign, the class and the tests of its first byte, and the double of its first four bytes.
// Assumes that the lines fit its room, and a text 4,096 bytes; a line that doesn't differs.
#![tactic(auto)]

use pdf_blocks::word;
use pdf_widen::widen;
use replay::{Stored, ended, number, pair, read_full, replay, say, signed};
use std::io;
use text_base::{Class, class_of, is_blank, is_name, is_pattern, is_space_or_tab, is_word};
use text_numbers::{NumberError, parse_signed, parse_unsigned};
use text_parts::Read;
use text_utf8::check;

// 0, or 1 and where the first bad sequence starts.
fn utf8_of(c: Stored, s: &[u8], text: &[u8]) -> Stored {
    match check(text) {
        Ok(()) => number(c, s, 0),
        Err(at) => pair(c, s, 1, at),
    }
}

// 0, the number and where its digits end; or 1 for 2^64 or more, 2 for no digit.
fn unsigned_of(c: Stored, s: &[u8], text: &[u8]) -> Stored {
    match parse_unsigned(text, 0) {
        Ok(Read { value, next }) => number(number(number(c, s, 0), s, value), s, next as u64),
        Err(NumberError::TooLarge) => number(c, s, 1),
        Err(NumberError::NoDigit) => number(c, s, 2),
    }
}

// 0, the number and where its digits end; or 1.
fn signed_of(c: Stored, s: &[u8], text: &[u8]) -> Stored {
    match parse_signed(text, 0) {
        Some(Read { value, next }) => number(signed(number(c, s, 0), s, value), s, next as u64),
        None => number(c, s, 1),
    }
}

fn class_number(b: u8) -> u64 {
    match class_of(b) {
        Class::Letter => 0,
        Class::Digit => 1,
        Class::Wildcard => 2,
        Class::Mark => 3,
        Class::Rest => 4,
    }
}

fn told(c: Stored, s: &[u8], b: bool) -> Stored {
    number(c, s, if b { 1 } else { 0 })
}

// The class, and whether the byte may stand in a pattern, a reference, a name, and is a blank, or a space or tab.
fn byte_of(c: Stored, s: &[u8], b: u8) -> Stored {
    let spelt = told(
        told(
            told(number(c, s, class_number(b)), s, is_pattern(b)),
            s,
            is_word(b),
        ),
        s,
        is_name(b),
    );
    told(told(spelt, s, is_blank(b)), s, is_space_or_tab(b))
}

// The first byte, where there is one.
fn class_said(c: Stored, s: &[u8], text: &[u8]) -> Stored {
    if 0 < text.len() {
        byte_of(c, s, text[0])
    } else {
        c
    }
}

// The first four bytes as a double's bits, where there are four.
fn widened_of(c: Stored, s: &[u8], text: &[u8]) -> Stored {
    if 4 <= text.len() {
        number(c, s, widen(word(text, 0)))
    } else {
        c
    }
}

// Whether all that is stored from `at` on is said of the text.
fn replay_text(s: &[u8], at: usize, text: &[u8]) -> bool {
    let c = Stored { at, same: true };
    let read = signed_of(unsigned_of(utf8_of(c, s, text), s, text), s, text);
    ended(widened_of(class_said(read, s, text), s, text), s)
}

fn room() -> [u8; 1048576] {
    [0; 1048576]
}

fn main(rt: HostRuntime) -> io::Result<()> {
    let mut buffer = room();
    let n = read_full(&mut rt.reader(), &mut buffer)?;
    let t = replay(&replay_text, &buffer[..n]);
    let mut out = io::writer(&rt);
    say(&mut out, t.cases, b" lines, ")?;
    say(&mut out, t.differ, b" differ\n")
}
