// Bytes put into a lent buffer at a place (02, Wish 6). What doesn't fit isn't stored, and the place goes on, up to 2^64 - 1: so one walk both
// measures a text, with no buffer at all, and stores it. Any place and any bytes; every function answers the place behind its bytes.
#![tactic(auto)]

ghost use Rattle.std.specs.Prelude.{◌≡◌, [], ◌∷◌, ◌+◌, min};
ghost use Rattle.written.specs.Bytes.{part};
ghost use Rattle.write_put.specs.Puts.{Put};

use text_parts::part_of;

const LAST: usize = 18446744073709551615;

// The place n behind `at`; the last one where that is no number.
pub fn past(at: usize, n: usize) -> usize
    ensures { result ≡ min (at + n) 18446744073709551615 }
{
    if n <= LAST - at { at + n } else { LAST }
}

pub fn put1(b: &mut [u8], at: usize, x: u8) -> usize
    ensures { Put b.old at (x ∷ []) result b.new }
{
    if at < b.len() {
        b[at] = x;
        return at + 1;
    }
    past(at, 1)
}

pub fn put2(b: &mut [u8], at: usize, x: u8, y: u8) -> usize
    ensures { Put b.old at (x ∷ y ∷ []) result b.new }
{
    let i = put1(b, at, x);
    put1(b, i, y)
}

pub fn put3(b: &mut [u8], at: usize, x: u8, y: u8, z: u8) -> usize
    ensures { Put b.old at (x ∷ y ∷ z ∷ []) result b.new }
{
    let i = put2(b, at, x, y);
    put1(b, i, z)
}

pub fn put5(b: &mut [u8], at: usize, x: u8, y: u8, z: u8, v: u8, w: u8) -> usize
    ensures { Put b.old at (x ∷ y ∷ z ∷ v ∷ w ∷ []) result b.new }
{
    let i = put3(b, at, x, y, z);
    put2(b, i, v, w)
}

// The n bytes of s from a on, as far as there are any.
pub fn put_part(b: &mut [u8], at: usize, s: &[u8], a: usize, n: usize) -> usize
    ensures { Put b.old at (part s.now a n) result b.new }
{
    let mut k = at;
    for &x in part_of(s, a, n) {
        k = put1(b, k, x);
    }
    k
}
