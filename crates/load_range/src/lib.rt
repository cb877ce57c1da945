// A range in the data, and a product up to the limit of an entry's width (01, 'Limits'): no number wraps.
#![tactic(auto)]

ghost use Rattle.std.specs.Prelude.{◌≡◌, ◌*◌, min};
ghost use Rattle.load_range.specs.Ranges.{within_of};

// Bytes of the data from `start` up to `end`.
#[derive(Clone, Copy)]
pub struct Bounds {
    pub start: usize,
    pub end: usize,
}

// A range, whose end belongs to it; none where it does not stand in data of `len` bytes (16).
pub fn within(from: u64, to: u64, len: usize) -> Option<Bounds>
    ensures { result ≡ within_of from to len }
{
    if len as u64 <= to {
        return None;
    }
    let end = to + 1;
    if end < from {
        return None;
    }
    Some(Bounds {
        start: from as usize,
        end: end as usize,
    })
}

// The greatest width of an entry (01, 'Limits').
pub const WIDTH_LIMIT: u64 = 4096;

const TOO_WIDE: u64 = 4097;

// The product, or one more than the limit where it is greater.
pub fn product(a: u64, b: u64) -> u64
    ensures { result ≡ min (a * b) 4097 }
{
    if a == 0 {
        return 0;
    }
    if b == 0 {
        return 0;
    }
    if WIDTH_LIMIT < a {
        return TOO_WIDE;
    }
    if WIDTH_LIMIT < b {
        return TOO_WIDE;
    }
    let p = a * b;
    if WIDTH_LIMIT < p {
        return TOO_WIDE;
    }
    p
}
