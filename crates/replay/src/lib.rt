// What the replaying programs share: lines of a text as hex and the numbers that are to be said of it, and how a count is said.
//
#![tactic(auto)]

ghost use Rattle.std.specs.Prelude.{◌≤◌, ◌<◌, ◌++◌, length, take, IfOk, OnOk, OnErr, ◌≡◌, suc, cond, drop};
ghost use Rattle.std.specs.Fmt.{decimal};
ghost use Rattle.std.specs.Io.KnownBytes.{Appends, Consumes, IsAtEnd};
ghost use Rattle.replay.specs.Counts.{IsPrefixLen, StandsInFront};
ghost use Rattle.replay.specs.Lines.{lines};

use std::io;
use std::io::{Read, Write};
use text_numbers::{parse_signed, parse_unsigned};
use text_spaces::past_byte;

// Where the next of a line's numbers stands, and whether all so far were as stored.
#[derive(Clone, Copy)]
pub struct Stored {
    pub at: usize,
    pub same: bool,
}

pub fn other(c: Stored) -> Stored {
    Stored {
        at: c.at,
        same: false,
    }
}

// A space and the number `want`.
pub fn number(c: Stored, s: &[u8], want: u64) -> Stored {
    let at = c.at;
    let same = c.same;
    match past_byte(s, at, b' ') {
        Some(start) => match parse_unsigned(s, start) {
            Ok(read) => Stored {
                at: read.next,
                same: same && read.value == want,
            },
            Err(_) => other(c),
        },
        None => other(c),
    }
}

pub fn signed(c: Stored, s: &[u8], want: i64) -> Stored {
    let at = c.at;
    let same = c.same;
    match past_byte(s, at, b' ') {
        Some(start) => match parse_signed(s, start) {
            Some(read) => Stored {
                at: read.next,
                same: same && read.value == want,
            },
            None => other(c),
        },
        None => other(c),
    }
}

pub fn pair(c: Stored, s: &[u8], a: usize, b: usize) -> Stored {
    number(number(c, s, a as u64), s, b as u64)
}

// Whether the line ends here, and all was as stored.
pub fn ended(c: Stored, s: &[u8]) -> bool {
    let at = c.at;
    let same = c.same;
    match past_byte(s, at, b'\n') {
        Some(_) => same,
        None => false,
    }
}

fn hex(b: u8) -> u8 {
    match b {
        b'0'..=b'9' => b - 48,
        b'a'..=b'f' => b - 87,
        _ => 255,
    }
}

fn two(high: u8, low: u8) -> u8 {
    (high % 16) * 16 + low % 16
}

// The text of a line, and where the numbers begin.
#[derive(Clone, Copy)]
pub struct Text {
    pub len: usize,
    pub at: usize,
}

pub fn decode(s: &[u8], from: usize, text: &mut [u8; 4096]) -> Text
    requires { from < length s.now }
    ensures { result.len ≤ 4096 }
{
    let mut i = from;
    for n in 0..text.len() {
        if s.len() - i < 2 {
            return Text { len: n, at: i };
        }
        if 15 < hex(s[i]) {
            return Text { len: n, at: i };
        }
        text[n] = two(hex(s[i]), hex(s[i + 1]));
        i += 2;
    }
    Text {
        len: text.len(),
        at: i,
    }
}

// The place past the next newline, or the end.
pub fn past_line(s: &[u8], from: usize) -> usize
    requires { from < length s.now }
    ensures within { (from < result) × (result ≤ length s.now) }
    ensures one_line { lines (drop from s.now) ≡ suc (lines (drop result s.now)) }
{
    for i in from..s.len() {
        if s[i] == 10 {
            return i + 1;
        }
    }
    s.len()
}

pub fn wrong(same: bool) -> usize
    ensures { result ≡ cond same 0 1 }
{
    if same { 0 } else { 1 }
}

// Whether `said` says of a line's text what is stored behind it: of the input, the place where that stands, and the text.
fn replay_line<F: Fn(&[u8], usize, &[u8]) -> bool>(said: &F, s: &[u8], from: usize) -> bool
    requires callable { F.IsAlwaysCallable said.now }
    requires within { from < length s.now }
{
    let mut room = [0u8; 4096];
    let text = decode(s, from, &mut room);
    said(s, text.at, &room[..text.len])
}

// How many lines there are, and of how many of them something else is said than what is stored.
#[derive(Clone, Copy)]
pub struct Tally {
    pub cases: usize,
    pub differ: usize,
}

// Every line of an input.
pub fn replay<F: Fn(&[u8], usize, &[u8]) -> bool>(said: &F, s: &[u8]) -> Tally
    requires { F.IsAlwaysCallable said.now }
    ensures every { result.cases ≡ lines s.now }
    ensures some { result.differ ≤ result.cases }
{
    let mut at = 0;
    let mut cases = 0;
    let mut differ = 0;
    // No `for`: where the next line stands is what the end of this one answers.
    while at < s.len() {
        differ += wrong(replay_line(said, s, at));
        cases += 1;
        at = past_line(s, at);
    }
    Tally { cases, differ }
}

// Reads until the room is full or the input ends, and says how many bytes it put at the room's start. Before an error too, what was read stands there. A turn that goes on
// has read a byte, so there are at most as many turns as bytes.
pub fn read_full<R: Read>(input: &mut R, room: &mut [u8]) -> io::Result<usize>
    ensures in_bounds { IfOk result (λ n. IsPrefixLen n room.new) }
    ensures bytes { IfOk result (λ n. Consumes (R.remaining input.old) (R.remaining input.new) (take n room.new)) }
    ensures end { IfOk result (λ n. n < length room.new → IsAtEnd (R.remaining input.new)) }
    ensures err { OnErr result (StandsInFront (R.remaining input.old) (R.remaining input.new) room.new) }
{
    let mut n = 0;
    for _ in 0..room.len() {
        let got = input.read(&mut room[n..])?;
        if got == 0 {
            return Ok(n);
        }
        n = n + got;
    }
    Ok(n)
}

// The number in decimal, and what is counted. After an error some of it may have been written.
pub fn say<W: Write>(out: &mut W, n: usize, what: &[u8]) -> io::Result<()>
    ensures { OnOk result (Appends (W.contents out.old) (W.contents out.new) (decimal n ++ what.now)) }
{
    write!(out, "{n}")?;
    out.write_all(what)
}
