// Bytes of a trailer (02, Wish 7): their sum, and 32-bit little-endian numbers in them.
#![tactic(auto)]

ghost use Rattle.std.specs.Prelude.{◌≡◌, ◌+◌, ◌%◌, ◌^◌, ◌≤◌, [], ◌∷◌, length, take};
ghost use Rattle.std.proofs.lemmas.List.Edits.{sets};
ghost use Rattle.written.specs.Blocks.{little_endian, total};
ghost use Rattle.trail_bytes.specs.Numbers.{same_words};

use pdf_blocks::word;

fn wide(x: u8) -> u32
    ensures { (result ≡ x) × (result ≤ 255) }
{
    x as u32
}

// The bytes before `end`, added to a sum with wrap-around at 2^32.
pub fn sum_on(sum: u32, s: &[u8], end: usize) -> u32
    requires { end ≤ length s.now }
    ensures { result ≡ (sum + total (take end s.now)) % 2 ^ 32 }
{
    let mut x = sum;
    for &b in &s[..end] {
        x = std::num::wrapping_add_u32(x, wide(b));
    }
    x
}

// A number from k on; of one above 32 bits, its low ones.
fn put_word(t: &mut [u8], k: usize, n: u64)
    requires { k + 4 ≤ length t.old }
    ensures { t.new ≡ sets t.old k (little_endian (n ∷ [])) }
{
    t[k] = (n % 0x100) as u8;
    t[k + 1] = (n / 0x100 % 0x100) as u8;
    t[k + 2] = (n / 0x1_0000 % 0x100) as u8;
    t[k + 3] = (n / 0x100_0000 % 0x100) as u8;
}

// Three numbers from k on.
pub fn put_words(t: &mut [u8], k: usize, a: u64, b: u64, c: u64)
    requires { k + 12 ≤ length t.old }
    ensures { t.new ≡ sets t.old k (little_endian (a ∷ b ∷ c ∷ [])) }
{
    put_word(t, k, a);
    put_word(t, k + 4, b);
    put_word(t, k + 8, c);
}

// Whether three numbers stand at k.
pub fn same_words(s: &[u8], k: usize, a: u64, b: u64, c: u64) -> bool
    requires { k + 12 ≤ length s.now }
    ensures { result ≡ same_words s.now k (a ∷ b ∷ c ∷ []) }
{
    if word(s, k) as u64 != a {
        return false;
    }
    if word(s, k + 4) as u64 != b {
        return false;
    }
    word(s, k + 8) as u64 == c
}
