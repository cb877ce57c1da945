// Whether bytes are UTF-8, by RFC 3629, and where the first bad sequence starts.
#![tactic(auto)]

ghost use Rattle.std.specs.Prelude.{◌≡◌, cond, [], ◌∷◌, ◌+◌, ◌<◌, ◌≤◌, length, drop};
ghost use Rattle.written.specs.Rfc3629.{◌⋯◌, tail, table};
ghost use Rattle.text_utf8.specs.Widths.{starts, width};
ghost use Rattle.text_utf8.specs.Check.{check_of};

// Whether the byte at i is there, and from lo to hi.
fn within(s: &[u8], i: usize, lo: u8, hi: u8) -> bool
    ensures { result ≡ starts ((lo ⋯ hi) ∷ []) (drop i s.now) }
{
    if i < s.len() {
        let b = s[i];
        if lo <= b {
            return b <= hi;
        }
    }
    false
}

// 2, 3 and 4 where the bytes from i on are those after the first of a sequence of that length, the second of the sequence from lo to hi.
fn two(s: &[u8], i: usize, lo: u8, hi: u8) -> usize
    ensures { result ≡ cond (starts ((lo ⋯ hi) ∷ []) (drop i s.now)) 2 0 }
{
    if within(s, i, lo, hi) { 2 } else { 0 }
}

fn three(s: &[u8], i: usize, lo: u8, hi: u8) -> usize
    requires { i ≤ length s.now }
    ensures { result ≡ cond (starts ((lo ⋯ hi) ∷ tail ∷ []) (drop i s.now)) 3 0 }
{
    if within(s, i, lo, hi) {
        if within(s, i + 1, 0x80, 0xBF) {
            return 3;
        }
    }
    0
}

fn four(s: &[u8], i: usize, lo: u8, hi: u8) -> usize
    requires { i ≤ length s.now }
    ensures { result ≡ cond (starts ((lo ⋯ hi) ∷ tail ∷ tail ∷ []) (drop i s.now)) 4 0 }
{
    if within(s, i, lo, hi) {
        if within(s, i + 1, 0x80, 0xBF) {
            if within(s, i + 2, 0x80, 0xBF) {
                return 4;
            }
        }
    }
    0
}

// The length of the sequence that starts at i; 0 if none does.
fn width_at(s: &[u8], i: usize) -> usize
    requires { i < length s.now }
    ensures { result ≡ width table (drop i s.now) }
{
    match s[i] {
        0x00..=0x7F => 1,
        0xC2..=0xDF => two(s, i + 1, 0x80, 0xBF),
        0xE0 => three(s, i + 1, 0xA0, 0xBF),
        0xE1..=0xEC => three(s, i + 1, 0x80, 0xBF),
        0xED => three(s, i + 1, 0x80, 0x9F),
        0xEE..=0xEF => three(s, i + 1, 0x80, 0xBF),
        0xF0 => four(s, i + 1, 0x90, 0xBF),
        0xF1..=0xF3 => four(s, i + 1, 0x80, 0xBF),
        0xF4 => four(s, i + 1, 0x80, 0x8F),
        _ => 0,
    }
}

pub fn check(s: &[u8]) -> Result<(), usize>
    ensures { result ≡ check_of s.now }
{
    let mut i = 0;
    // No `for`: how far to go is what the bytes here say.
    while i < s.len() {
        let w = width_at(s, i);
        if w == 0 {
            return Err(i);
        }
        i += w;
    }
    Ok(())
}
