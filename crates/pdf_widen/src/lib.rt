// The exact widening of a binary32 pattern to a binary64 pattern, by integer arithmetic.
#![tactic(auto)]

ghost use Rattle.std.specs.Prelude.{◌≡◌, ◌<◌, ◌*◌, ◌^◌};
ghost use Rattle.written.specs.Interchange.{join};
ghost use Rattle.pdf_widen.specs.Widening.{widen_of};

// The binary64 pattern with these fields, where t is the 23 upper bits of the fraction.
fn joined(s: u32, x: u32, t: u32) -> u64
    requires { (s < 2) × (x < 2 ^ 11) × (t < 2 ^ 23) }
    ensures { result ≡ join 11 52 s x (t * 2 ^ 29) }
{
    ((s as u64) * 0x800 + x as u64) * 0x10_0000_0000_0000 + (t as u64) * 0x2000_0000
}

// Any pattern, by its fields.
fn widen_any(bits: u32) -> u64
    ensures { result ≡ widen_of 8 23 11 52 bits }
{
    let h = bits >> 23;
    let s = h >> 8;
    let x = h % 0x100;
    let t = bits % 0x80_0000;
    if x == 255 {
        if t == 0 {
            return joined(s, 2047, 0);
        }
        return joined(s, 2047, 0x40_0000 + t % 0x40_0000);
    }
    if x == 0 {
        if t == 0 {
            return joined(s, 0, 0);
        }
        let z = u32::leading_zeros(t) - 8;
        return joined(s, 897 - z, (t << z) - 0x80_0000);
    }
    joined(s, x + 896, t)
}

// A number that is neither zero nor subnormal, infinite or NaN, as nearly all of a block are, keeps its digits: exponent and fraction move up together, and the bias grows by 896.
pub fn widen(bits: u32) -> u64
    ensures { result ≡ widen_of 8 23 11 52 bits }
{
    let size = bits % 0x8000_0000;
    if 0x80_0000 <= size {
        if size < 0x7F80_0000 {
            let sign = (bits >> 31) as u64;
            return sign * 0x8000_0000_0000_0000
                + (size as u64) * 0x2000_0000
                + 0x3800_0000_0000_0000;
        }
    }
    widen_any(bits)
}
