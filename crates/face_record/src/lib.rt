// The calls on the words of a record, their answers in numbers (host/larsavim.h): COMMENT, and the record's fields. Any words, any numbers.
#![tactic(auto)]

ghost use Rattle.std.specs.Prelude.{◌≡◌};
ghost use Rattle.face_record.specs.Answers.{part_of, judged_of, comment_in, comment_said, get_said, pair_said};

use head_words::{COMMENT, HAS_COMMENT, WORDS, flags_fit};

// 01's number, and its place; of a field, its value. An exported call hands it to C number by number.
#[repr(C)]
#[derive(Clone, Copy)]
pub struct Said {
    pub number: u64,
    pub place: u64,
}

// A part of the file (slice 0) or of the fallback (slice 1). An exported call hands it to C number by number.
#[repr(C)]
#[derive(Clone, Copy)]
pub struct Part {
    pub number: u64,
    pub slice: u64,
    pub start: u64,
    pub len: u64,
}

// A string or a range. An exported call hands it to C number by number.
#[repr(C)]
#[derive(Clone, Copy)]
pub struct Pair {
    pub number: u64,
    pub first: u64,
    pub second: u64,
}

// 20 where the words are too few, 16 where a flag is neither 0 nor 1, otherwise 0.
pub fn judged(words: &[u64]) -> u64
    ensures { result ≡ judged_of words.now }
{
    if words.len() < WORDS {
        return 20;
    }
    if flags_fit(words) {
        return 0;
    }
    16
}

// The fallback, whole.
fn fallback_of(fallback: u64) -> Part
    ensures { result ≡ part_of 0 1 0 fallback }
{
    Part {
        number: 0,
        slice: 1,
        start: 0,
        len: fallback,
    }
}

// COMMENT of a file of so many bytes, where it stands by the record.
fn comment_in(file: u64, fallback: u64, there: bool, start: u64, len: u64) -> Part
    ensures { result ≡ comment_in file fallback there start len }
{
    if !there {
        return fallback_of(fallback);
    }
    if file < start {
        return fallback_of(fallback);
    }
    if file - start < len {
        return fallback_of(fallback);
    }
    Part {
        number: 0,
        slice: 0,
        start,
        len,
    }
}

// COMMENT by the words of a record.
pub fn comment_said(file: u64, words: &[u64], fallback: u64) -> Part
    ensures { result ≡ comment_said file words.now fallback }
{
    let number = judged(words);
    if number == 0 {
        return comment_in(
            file,
            fallback,
            words[HAS_COMMENT] == 1,
            words[COMMENT],
            words[COMMENT + 1],
        );
    }
    Part {
        number,
        slice: 0,
        start: 0,
        len: 0,
    }
}

// A number, a count or a flag.
pub fn get_said(words: &[u64], field: u64) -> Said
    ensures { result ≡ get_said words.now field }
{
    let number = judged(words);
    if number == 0 {
        if field < WORDS as u64 {
            return Said {
                number: 0,
                place: words[field as usize],
            };
        }
        return Said {
            number: 16,
            place: 0,
        };
    }
    Said { number, place: 0 }
}

// A string or a range.
pub fn pair_said(words: &[u64], field: u64) -> Pair
    ensures { result ≡ pair_said words.now field }
{
    let number = judged(words);
    if number == 0 {
        if field < 646 {
            let at = field as usize;
            return Pair {
                number: 0,
                first: words[at],
                second: words[at + 1],
            };
        }
        return Pair {
            number: 16,
            first: 0,
            second: 0,
        };
    }
    Pair {
        number,
        first: 0,
        second: 0,
    }
}
