// Decimal digits of a number, without zeros in front (02, Wish 6): how many, and stored from the last to the first. Any number and any place.
//
#![tactic(auto)]

ghost use Rattle.std.specs.Prelude.{◌≡◌, length};
ghost use Rattle.written.specs.Writing.{figures};
ghost use Rattle.write_put.specs.Puts.{Put};

use write_put::{past, put1};

// How many digits there are.
pub fn figures_len(n: u64) -> usize
    ensures { result ≡ length (figures n) }
{
    let mut m = n;
    let mut k = 1;
    // No `for`: a figure less each time, as many as there are.
    while 10 <= m {
        m = m / 10;
        k = k + 1;
    }
    k
}

// The digits; a place behind the buffer's end needs none of them.
pub fn put_figures(b: &mut [u8], at: usize, n: u64) -> usize
    ensures { Put b.old at (figures n) result b.new }
{
    let len = figures_len(n);
    if b.len() <= at {
        return past(at, len);
    }
    let mut m = n;
    let mut k = len;
    // No `for`: a figure less each time, as many as there are.
    while 10 <= m {
        k = k - 1;
        put1(b, at + k, (48 + m % 10) as u8);
        m = m / 10;
    }
    put1(b, at, (48 + m) as u8);
    past(at, len)
}
