// Parts of slices, and what is asked of them everywhere: cut as far as there are bytes (`part_of`, `up_to`), whole or not at all (`part_inside`), compared byte by byte.
// Any bytes, any numbers.
#![tactic(auto)]

ghost use Rattle.std.specs.Prelude.{◌≡◌, take};
ghost use Rattle.written.specs.Bytes.{part, same};
ghost use Rattle.text_parts.specs.Parts.{bytes_of, part_inside, nat_of};

// A part of the file.
#[repr(C)]
#[derive(Clone, Copy)]
pub struct Span {
    pub start: usize,
    pub len: usize,
}

// What a reader read, and the place behind it.
#[derive(Clone, Copy)]
pub struct Read<T> {
    pub value: T,
    pub next: usize,
}

// s up to an end, as far as it goes.
pub fn up_to(s: &[u8], end: usize) -> &[u8]
    ensures { result.now ≡ take end s.now }
{
    if s.len() <= end {
        return s;
    }
    &s[..end]
}

// The len bytes from start on, as far as there are any.
pub fn part_of(s: &[u8], start: usize, len: usize) -> &[u8]
    ensures { result.now ≡ part s.now start len }
{
    let n = s.len();
    if n <= start {
        return &s[n..];
    }
    if n - start <= len {
        return &s[start..];
    }
    let end = start + len;
    &s[start..end]
}

// The len bytes from start on, or nothing where they don't all stand inside.
pub fn part_inside(s: &[u8], start: u64, len: u64) -> &[u8]
    ensures { result.now ≡ part_inside s.now start len }
{
    let all = s.len() as u64;
    if all < start {
        return &s[..0];
    }
    if all - start < len {
        return &s[..0];
    }
    let a = start as usize;
    let e = (start + len) as usize;
    &s[a..e]
}

// Whether two byte strings are the same, byte by byte.
#[tactic(auto, using(crate::proofs::Sames::pointwise_same))]
pub fn same_bytes(a: &[u8], b: &[u8]) -> bool
    ensures { result ≡ same a.now b.now }
{
    a == b
}

// Whether two parts of s have the same bytes.
pub fn same_part(s: &[u8], x: Span, y: Span) -> bool
    ensures { result ≡ same (bytes_of s.now x) (bytes_of s.now y) }
{
    same_bytes(part_of(s, x.start, x.len), part_of(s, y.start, y.len))
}

// A number that is not negative; 0 for one that is.
pub fn natural(v: i64) -> u64
    ensures { result ≡ nat_of v }
{
    if v < 0 {
        return 0;
    }
    v as u64
}
