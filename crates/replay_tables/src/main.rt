// Replays walks and leaf checks over stored tables (judge/README.md, `tables`). The input is numbers: how many cases, and of each 0, trees,
// records and walks, or 1, questions, trees, records, values, width and the answer, 1 for yes. A table is its length and its
// numbers; a walk is tree, answer bytes and limit, and then number, PDF number and questions asked.
// Assumes that the input fits 65,536 bytes, a table 256 numbers and the answer bytes 64; what doesn't fit differs.
#![tactic(auto)]

ghost use Rattle.std.specs.Prelude.{◌≤◌};
ghost use Rattle.replay.specs.Counts.{IsPrefixLen};

use error::Refusal;
use replay::{read_full, say};
use std::io;
use text_base::blank_end;
use text_numbers::{NumberError, parse_unsigned};
use text_parts::Read;
use walk::{Walked, walk};
use walk_leaves::leaves_fit;

// A number of the input, and the place behind it.
#[derive(Clone, Copy)]
struct Taken {
    value: u64,
    next: usize,
}

// How many numbers were put into a table, and the place behind them.
#[derive(Clone, Copy)]
struct Filled {
    count: usize,
    next: usize,
}

// The place reached, how many answers were given, and how many of them differ.
#[derive(Clone, Copy)]
struct Tally {
    next: usize,
    given: usize,
    differ: usize,
}

fn word(s: &[u8], at: usize) -> Taken {
    match parse_unsigned(s, blank_end(s, at)) {
        Ok(Read { value, next }) => Taken { value, next },
        Err(NumberError::TooLarge) => Taken { value: 0, next: at },
        Err(NumberError::NoDigit) => Taken { value: 0, next: at },
    }
}

// A count, or the length of the table where that is less.
fn at_most(count: u64, len: usize) -> usize
    ensures { result ≤ len }
{
    if count <= len as u64 {
        count as usize
    } else {
        len
    }
}

fn fill(s: &[u8], at: usize, t: &mut [u64]) -> Filled
    ensures { IsPrefixLen result.count t.new }
{
    let n = word(s, at);
    let count = at_most(n.value, t.len());
    let mut next = n.next;
    for k in 0..count {
        let w = word(s, next);
        t[k] = w.value;
        next = w.next;
    }
    Filled { count, next }
}

fn byte(value: u64) -> u8 {
    if value < 256 { value as u8 } else { 255 }
}

fn fill_bytes(s: &[u8], at: usize, t: &mut [u8]) -> Filled
    ensures { IsPrefixLen result.count t.new }
{
    let n = word(s, at);
    let count = at_most(n.value, t.len());
    let mut next = n.next;
    for k in 0..count {
        let w = word(s, next);
        t[k] = byte(w.value);
        next = w.next;
    }
    Filled { count, next }
}

fn one_more(n: usize) -> usize {
    if n < 18446744073709551615 { n + 1 } else { n }
}

// One answer more, up to `next`.
fn told(c: Tally, next: usize, same: bool) -> Tally {
    let given = one_more(c.given);
    if same {
        Tally {
            next,
            given,
            differ: c.differ,
        }
    } else {
        Tally {
            next,
            given,
            differ: one_more(c.differ),
        }
    }
}

// Whether a walk ended with these three numbers.
fn ended(w: Result<Walked, Refusal>, number: u64, pdf: u64, asked: u64) -> bool {
    match w {
        Ok(
            Walked {
                number: n,
                asked: a,
            },
        ) => {
            if number == 0 {
                if pdf == n { asked == a } else { false }
            } else {
                false
            }
        }
        Err(r) => {
            if number == r.number() {
                if pdf == 0 { asked == 0 } else { false }
            } else {
                false
            }
        }
    }
}

fn one_walk(c: Tally, s: &[u8], trees: &[u64], records: &[u64]) -> Tally {
    let mut answers = [0u8; 64];
    let tree = word(s, c.next);
    let a = fill_bytes(s, tree.next, &mut answers);
    let limit = word(s, a.next);
    let number = word(s, limit.next);
    let pdf = word(s, number.next);
    let asked = word(s, pdf.next);
    let count = a.count;
    let w = walk(trees, records, tree.value, &answers[..count], limit.value);
    told(
        c,
        asked.next,
        ended(w, number.value, pdf.value, asked.value),
    )
}

fn walks(c: Tally, s: &[u8], trees: &[u64], records: &[u64]) -> Tally {
    let n = word(s, c.next);
    let mut c = Tally {
        next: n.next,
        given: c.given,
        differ: c.differ,
    };
    for _ in 0..n.value {
        c = one_walk(c, s, trees, records);
    }
    c
}

fn walk_case(c: Tally, s: &[u8]) -> Tally {
    let mut trees = [0u64; 256];
    let mut records = [0u64; 256];
    let t = fill(s, c.next, &mut trees);
    let r = fill(s, t.next, &mut records);
    let tn = t.count;
    let rn = r.count;
    walks(
        Tally {
            next: r.next,
            given: c.given,
            differ: c.differ,
        },
        s,
        &trees[..tn],
        &records[..rn],
    )
}

fn leaf_case(c: Tally, s: &[u8]) -> Tally {
    let mut questions = [0u64; 256];
    let mut trees = [0u64; 256];
    let mut records = [0u64; 256];
    let mut values = [0u64; 256];
    let q = fill(s, c.next, &mut questions);
    let t = fill(s, q.next, &mut trees);
    let r = fill(s, t.next, &mut records);
    let v = fill(s, r.next, &mut values);
    let width = word(s, v.next);
    let answer = word(s, width.next);
    let qn = q.count;
    let tn = t.count;
    let rn = r.count;
    let vn = v.count;
    if leaves_fit(
        &questions[..qn],
        &trees[..tn],
        &records[..rn],
        &values[..vn],
        width.value,
    ) {
        told(c, answer.next, answer.value == 1)
    } else {
        told(c, answer.next, answer.value == 0)
    }
}

fn one_case(c: Tally, s: &[u8]) -> Tally {
    let kind = word(s, c.next);
    let c = Tally {
        next: kind.next,
        given: c.given,
        differ: c.differ,
    };
    if kind.value == 0 {
        walk_case(c, s)
    } else {
        leaf_case(c, s)
    }
}

fn cases(s: &[u8]) -> Tally {
    let n = word(s, 0);
    let mut c = Tally {
        next: n.next,
        given: 0,
        differ: 0,
    };
    for _ in 0..n.value {
        c = one_case(c, s);
    }
    c
}

fn main(rt: HostRuntime) -> io::Result<()> {
    let mut input = [0u8; 65536];
    let n = read_full(&mut rt.reader(), &mut input)?;
    let c = cases(&input[..n]);
    let mut out = io::writer(&rt);
    say(&mut out, c.given, b" walks and leaf checks, ")?;
    say(&mut out, c.differ, b" differ\n")
}
