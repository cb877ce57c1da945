// The two leaves that a public document defines, exported to C, so that the built code can be held against another one's (judge/compare/leaves).
#![tactic(auto)]

ghost use Rattle.std.specs.Prelude.{◌≡◌, length};
ghost use Rattle.pdf_widen.specs.Widening.{widen_of};
ghost use Rattle.text_utf8.specs.Check.{check_of};
ghost use Rattle.replay_compare.specs.Valid.{valid_up_to};

use pdf_widen::widen;
use text_utf8::check;

// The double that has the float's value, bit patterns both.
#[unsafe(no_mangle)]
pub extern "C" fn larsavim_widen(bits: u32) -> u64
    ensures { result ≡ widen_of 8 23 11 52 bits }
{
    widen(bits)
}

// How many bytes, from the first, are whole characters.
#[unsafe(no_mangle)]
pub extern "C" fn larsavim_valid_up_to(s: &[u8]) -> usize
    ensures { result ≡ valid_up_to (length s.now) (check_of s.now) }
{
    match check(s) {
        Ok(()) => s.len(),
        Err(at) => at,
    }
}
