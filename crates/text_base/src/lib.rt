// After base.rs: classes of bytes, blanks, runs (01, 'Tree text'); numbers and patterns are in `text_numbers`. Not its `&str` twin.
// Every function takes any bytes and any place, also one past the end. A place is an index into the slice.
#![tactic(auto)]

ghost use Rattle.std.specs.Prelude.{◌≡◌, ◌+◌, ◌<◌, ◌≤◌, length, ◌==◌, nat_lt};
ghost use Rattle.written.specs.Bytes.{letter, digit, in_pattern, in_word, blank, space_or_tab, in_name, is_newline, byte_at};
ghost use Rattle.laws.specs.Runs.{stop};
ghost use Rattle.text_base.specs.Ahead.{bytes_at, little, is_space, is_printed, unprinted, ahead};
ghost use Rattle.text_base.specs.Classes.{in_set, class_of, usual};

use std::num::wrapping_sub_u64;

// The sets of the first four classes, each of two constants.
const LETTERS_LOW: u64 = 0;

const LETTERS_HIGH: u64 = 0x07FF_FFFE_07FF_FFFE;

const DIGITS_LOW: u64 = 0x03FF_0000_0000_0000;

const DIGITS_HIGH: u64 = 0;

const WILDCARDS_LOW: u64 = 0x8000_0400_0000_0000;

const WILDCARDS_HIGH: u64 = 0;

const MARKS_LOW: u64 = 0x2400_A86A_0000_0000;

const MARKS_HIGH: u64 = 0x1000_0000_C000_0001;

// Of all four, what nearly all bytes of patterns are: letters, digits and `*+-/:=@^_|`.
const USUAL_LOW: u64 = 0x27FF_AC00_0000_0000;

const USUAL_HIGH: u64 = 0x17FF_FFFE_C7FF_FFFF;

// 01's classes.
#[derive(Clone, Copy)]
pub enum Class {
    Letter,
    Digit,
    // * ?
    Wildcard,
    // ! # % & + - / : = @ ^ _ |
    Mark,
    Rest,
}

// A set of 128 bits: a bit for each byte below 64 and one for each from 64 on. Bytes from 128 up are in none.
fn in_set(low: u64, high: u64, b: u8) -> bool
    ensures { result ≡ in_set low high b }
{
    if 127 < b {
        return false;
    }
    let bits: u64 = if b < 64 { low } else { high };
    (bits >> (b & 63)) & 1 == 1
}

// The class of a byte, which patterns and references go by: the set that it is in.
pub fn class_of(b: u8) -> Class
    ensures { result ≡ class_of b }
{
    if in_set(LETTERS_LOW, LETTERS_HIGH, b) {
        return Class::Letter;
    }
    if in_set(DIGITS_LOW, DIGITS_HIGH, b) {
        return Class::Digit;
    }
    if in_set(WILDCARDS_LOW, WILDCARDS_HIGH, b) {
        return Class::Wildcard;
    }
    if in_set(MARKS_LOW, MARKS_HIGH, b) {
        return Class::Mark;
    }
    Class::Rest
}

// A digit, of a number above all: numbers are much of a tree text, so this doesn't go by the class.
pub fn is_digit(b: u8) -> bool
    ensures { result ≡ digit b }
{
    b'0' <= b && b <= b'9'
}

fn is_letter(b: u8) -> bool
    ensures { result ≡ letter b }
{
    if b'a' <= b && b <= b'z' {
        return true;
    }
    b'A' <= b && b <= b'Z'
}

// Whether a byte is usual in patterns. Such bytes come in no order that a branch could foresee, so one set has them all.
fn is_usual(b: u8) -> bool
    ensures { result ≡ usual b }
{
    in_set(USUAL_LOW, USUAL_HIGH, b)
}

// A byte that patterns are made of. Most patterns end at a quote; the class is asked for what is neither usual nor one.
pub fn is_pattern(b: u8) -> bool
    ensures { result ≡ in_pattern b }
{
    if is_usual(b) {
        return true;
    }
    if b == b'"' {
        return false;
    }
    match class_of(b) {
        Class::Digit => true,
        Class::Letter => true,
        Class::Wildcard => true,
        Class::Mark => true,
        Class::Rest => false,
    }
}

// A byte that PDF references are made of: a letter, a digit, or the mark _.
pub fn is_word(b: u8) -> bool
    ensures { result ≡ in_word b }
{
    if is_letter(b) {
        return true;
    }
    if is_digit(b) {
        return true;
    }
    b == b'_'
}

// Space or newline; a tab is not blank.
pub fn is_blank(b: u8) -> bool
    ensures { result ≡ blank b }
{
    b == b' ' || b == b'\n'
}

// The spaces and tabs of what parts two items.
pub fn is_space_or_tab(b: u8) -> bool
    ensures { result ≡ space_or_tab b }
{
    b == b' ' || b == b'\t'
}

// ASCII without blanks: a byte that names of questions are made of. Nearly all are printed ones, so these are decided at once.
pub fn is_name(b: u8) -> bool
    ensures { result ≡ in_name b }
{
    if b' ' < b && b <= 127 {
        return true;
    }
    b < b' ' && b != b'\n'
}

fn wide(b: u8) -> u32
    ensures { result ≡ b }
{
    b as u32
}

// The byte at a place; 256 past the end.
pub fn byte_at(s: &[u8], at: usize) -> u32
    ensures { result ≡ byte_at s.now at }
{
    if at < s.len() { wide(s[at]) } else { 256 }
}

fn broad(b: u8) -> u64
    ensures { (result ≡ b) × (result < 256) }
{
    b as u64
}

// The eight bytes at `at` as a number, the first one lowest. The compiler makes this one read.
pub fn eight(s: &[u8], at: usize) -> u64
    requires { at + 8 ≤ length s.now }
    ensures { result ≡ little (bytes_at 8 s.now at) }
{
    broad(s[at])
        + broad(s[at + 1]) * 0x100
        + broad(s[at + 2]) * 0x1_0000
        + broad(s[at + 3]) * 0x100_0000
        + broad(s[at + 4]) * 0x1_0000_0000
        + broad(s[at + 5]) * 0x100_0000_0000
        + broad(s[at + 6]) * 0x1_0000_0000_0000
        + broad(s[at + 7]) * 0x100_0000_0000_0000
}

// Whether a ninth byte stands behind the eight at `at`: a run that goes on over the eight then has a byte to end at.
fn has_nine(s: &[u8], at: usize) -> bool
    ensures { result ≡ nat_lt (at + 8) (length s.now) }
{
    if s.len() <= at {
        return false;
    }
    8 < s.len() - at
}

// How many spaces come first in the eight bytes at `at`; none where no ninth byte stands behind them. Half of a tree text are spaces, most of them in long runs.
fn spaces_ahead(s: &[u8], at: usize) -> usize
    ensures { result ≡ ahead is_space s.now at }
{
    if !has_nine(s, at) {
        return 0;
    }
    // zero in each byte that is a space, up to the first that isn't
    let apart = wrapping_sub_u64(eight(s, at), 0x2020_2020_2020_2020);
    (u64::trailing_zeros(apart) / 8) as usize
}

// Whether all eight are: what comes next then doesn't wait for a count.
fn eight_spaces(s: &[u8], at: usize) -> bool
    ensures { result ≡ (ahead is_space s.now at == 8) }
{
    if !has_nine(s, at) {
        return false;
    }
    eight(s, at) == 0x2020_2020_2020_2020
}

// Of the eight bytes at `at`, the top bit of the first that isn't a printed one, `!` to 127, which names are made of; none below it, and above it some.
fn not_printed(s: &[u8], at: usize) -> u64
    requires { at + 8 < length s.now }
    ensures { result ≡ unprinted (little (bytes_at 8 s.now at)) }
{
    let bytes = eight(s, at);
    // set in those above 127, and in the difference from 160 of those up to the space
    (wrapping_sub_u64(0xA0A0_A0A0_A0A0_A0A0, bytes) | bytes) & 0x8080_8080_8080_8080
}

// How many printed bytes come first in the eight at `at`, as of spaces.
fn printed_ahead(s: &[u8], at: usize) -> usize
    ensures { result ≡ ahead is_printed s.now at }
{
    if !has_nine(s, at) {
        return 0;
    }
    (u64::trailing_zeros(not_printed(s, at)) / 8) as usize
}

fn eight_printed(s: &[u8], at: usize) -> bool
    ensures { result ≡ (ahead is_printed s.now at == 8) }
{
    if !has_nine(s, at) {
        return false;
    }
    not_printed(s, at) == 0
}

// The ends of the runs that most of a tree text is read by: a loop each, so that the test is not chosen anew at every byte.
pub fn blank_end(s: &[u8], at: usize) -> usize
    ensures { result ≡ stop blank s.now at }
{
    let mut i = at;
    // No `for`: eight bytes are passed at once where all are blank.
    while i < s.len() {
        if eight_spaces(s, i) {
            i += 8;
        } else {
            i += spaces_ahead(s, i);
            if !is_blank(s[i]) {
                return i;
            }
            i += 1;
        }
    }
    i
}

pub fn name_end(s: &[u8], at: usize) -> usize
    ensures { result ≡ stop in_name s.now at }
{
    let mut i = at;
    // No `for`: eight bytes are passed at once where all are of a name.
    while i < s.len() {
        if eight_printed(s, i) {
            i += 8;
        } else {
            i += printed_ahead(s, i);
            if !is_name(s[i]) {
                return i;
            }
            i += 1;
        }
    }
    i
}

#[tactic(auto, using(laws::proofs::Runs::scanning))]
pub fn pattern_end(s: &[u8], at: usize) -> usize
    ensures { result ≡ stop in_pattern s.now at }
{
    for i in at..s.len() {
        if !is_pattern(s[i]) {
            return i;
        }
    }
    at.max(s.len())
}

#[tactic(auto, using(laws::proofs::Runs::scanning))]
pub fn space_or_tab_end(s: &[u8], at: usize) -> usize
    ensures { result ≡ stop space_or_tab s.now at }
{
    for i in at..s.len() {
        if !is_space_or_tab(s[i]) {
            return i;
        }
    }
    at.max(s.len())
}

#[tactic(auto, using(laws::proofs::Runs::scanning))]
pub fn newline_end(s: &[u8], at: usize) -> usize
    ensures { result ≡ stop is_newline s.now at }
{
    for i in at..s.len() {
        if s[i] != b'\n' {
            return i;
        }
    }
    at.max(s.len())
}
