// After base.rs: decimal numbers, patterns, and comparing two byte strings (01, 'Tree text').
// Every function takes any bytes and any place, also one past the end. A place is an index into the slice.
#![tactic(auto)]

ghost use Rattle.std.specs.Prelude.{◌≡◌, ◌≤◌, ◌<◌, ◌^◌, leb, ltb, pos, neg_ℤ};
ghost use Rattle.text_numbers.specs.Answers.{unsigned_from, unsigned_at, signed_of, signed_at, pattern_of, pattern_at};

use text_base::{byte_at, is_digit, pattern_end};
use text_parts::{Read, Span};

// What decimal digits say.
#[derive(Clone, Copy)]
pub enum NumberError {
    // 2^64 or more
    TooLarge,
    NoDigit,
}

// The number that the digits from `at` on say behind those that said `said`, however many they are.
fn parse_rest(s: &[u8], at: usize, said: u64) -> Result<Read<u64>, NumberError>
    ensures { result ≡ unsigned_from said s.now at }
{
    let mut value = said;
    for i in at..s.len() {
        let b = s[i];
        if !is_digit(b) {
            return Ok(Read { value, next: i });
        }
        let d = (b - 48) as u64;
        // the largest value to which a digit can be added
        if 1844674407370955161 < value {
            return Err(NumberError::TooLarge);
        }
        if 18446744073709551615 - d < value * 10 {
            return Err(NumberError::TooLarge);
        }
        value = value * 10 + d;
    }
    Ok(Read {
        value,
        next: at.max(s.len()),
    })
}

// Decimal digits, as far as they go; leading zeros without limit. Nineteen digits always fit, and nearly every number has fewer.
pub fn parse_unsigned(s: &[u8], at: usize) -> Result<Read<u64>, NumberError>
    ensures { result ≡ unsigned_at s.now at }
{
    if s.len() <= at {
        return Err(NumberError::NoDigit);
    }
    if !is_digit(s[at]) {
        return Err(NumberError::NoDigit);
    }
    let most = if s.len() - at <= 19 { s.len() } else { at + 19 };
    let mut value: u64 = 0;
    for i in at..most {
        let b = s[i];
        if !is_digit(b) {
            return Ok(Read { value, next: i });
        }
        value = value * 10 + (b - 48) as u64;
    }
    parse_rest(s, most, value)
}

fn plus(m: u64) -> i64
    requires { m < 2 ^ 63 }
    ensures { result ≡ pos m }
{
    m as i64
}

// -m; reaches -2^63, which m as an i64 doesn't.
fn minus(m: u64) -> i64
    requires { m ≤ 2 ^ 63 }
    ensures { result ≡ neg_ℤ (pos m) }
{
    if m == 0 {
        return 0;
    }
    let k = (m - 1) as i64;
    !k
}

fn positive(u: Result<Read<u64>, NumberError>) -> Option<Read<i64>>
    ensures { result ≡ signed_of (λ n. ltb n (2 ^ 63)) pos u }
{
    match u {
        Ok(Read { value, next }) => {
            if value < 9223372036854775808 {
                Some(Read {
                    value: plus(value),
                    next,
                })
            } else {
                None
            }
        }
        Err(_) => None,
    }
}

fn negative(u: Result<Read<u64>, NumberError>) -> Option<Read<i64>>
    ensures { result ≡ signed_of (λ n. leb n (2 ^ 63)) (λ n. neg_ℤ (pos n)) u }
{
    match u {
        Ok(Read { value, next }) => {
            if value <= 9223372036854775808 {
                Some(Read {
                    value: minus(value),
                    next,
                })
            } else {
                None
            }
        }
        Err(_) => None,
    }
}

// Decimal digits, perhaps after -, that fit signed 64 bits; -0 is 0.
pub fn parse_signed(s: &[u8], at: usize) -> Option<Read<i64>>
    ensures { result ≡ signed_at s.now at }
{
    let minus = byte_at(s, at) == 45;
    let digits = if minus { at + 1 } else { at };
    let u = parse_unsigned(s, digits);
    if minus { negative(u) } else { positive(u) }
}

fn some_pattern(start: usize, end: usize, next: usize) -> Option<Read<Span>>
    ensures { result ≡ pattern_of start end next }
{
    if start < end {
        Some(Read {
            value: Span {
                start,
                len: end - start,
            },
            next,
        })
    } else {
        None
    }
}

// A pattern: one or more bytes of the first four classes, bare or in ".
pub fn parse_pattern(s: &[u8], at: usize) -> Option<Read<Span>>
    ensures { result ≡ pattern_at s.now at }
{
    if byte_at(s, at) == 34 {
        let end = pattern_end(s, at + 1);
        if byte_at(s, end) == 34 {
            return some_pattern(at + 1, end, end + 1);
        }
        return None;
    }
    let end = pattern_end(s, at);
    some_pattern(at, end, end)
}
