// After voice/model.rs, `from_linear`, and the blocks of model/mod.rs, `parse_model`: PDF blocks (01, 'PDF blocks').
// The block runs from `at` to the end of the slice: a 32-bit count a tree, then the entries of each tree, `width` binary32 each, little-endian.
//
#![tactic(auto)]

ghost use Rattle.std.specs.Prelude.{◌≡◌, cond, ◌+◌, ◌*◌, ◌≤◌, ◌<◌, ◌^◌, leb, eqb, length, Some, None};
ghost use Rattle.written.specs.Blocks.{total};
ghost use Rattle.pdf_blocks.specs.Values.{word_at, words_at, block_at};

fn wide(x: u8) -> u32
    ensures { (result ≡ x) × (result < 256) }
{
    x as u32
}

// The 32-bit number at `at`.
pub fn word(s: &[u8], at: usize) -> u32
    requires { at + 4 ≤ length s.now }
    ensures { result ≡ word_at s.now at }
{
    wide(s[at])
        + wide(s[at + 1]) * 0x100
        + wide(s[at + 2]) * 0x1_0000
        + wide(s[at + 3]) * 0x100_0000
}

// The sum of the counts, or one more than `most` where it is above that.
fn count_entries(s: &[u8], at: usize, trees: usize, most: u64) -> u64
    requires { (at + 4 * trees ≤ length s.now) × (most < 2 ^ 63) }
    ensures { result ≡ cond (leb (total (words_at s.now at trees)) most) (total (words_at s.now at trees)) (most + 1) }
{
    let mut sum: u64 = 0;
    for k in 0..trees {
        sum += word(s, at + 4 * k) as u64;
        if most < sum {
            return most + 1;
        }
    }
    sum
}

// Whether the bytes from `at` on are a block of so many trees.
pub fn check_block(s: &[u8], at: usize, trees: usize, width: u64) -> Option<u64>
    ensures { result ≡ block_at trees width s.now at }
{
    if s.len() < at {
        return if_empty(trees);
    }
    let room = s.len() - at;
    if room / 4 < trees {
        return None;
    }
    let rest = room - 4 * trees;
    if rest % 4 != 0 {
        return None;
    }
    let words = (rest / 4) as u64;
    let entries = count_entries(s, at, trees, words);
    if width == 0 {
        if entries == 0 {
            if words == 0 {
                return Some(entries);
            }
        }
        return None;
    }
    if words % width != 0 {
        return None;
    }
    if words / width != entries {
        return None;
    }
    Some(entries)
}

// A block of no bytes fits no tree but none.
fn if_empty(trees: usize) -> Option<u64>
    ensures { result ≡ cond (eqb trees 0) (Some 0) None }
{
    if trees == 0 { Some(0) } else { None }
}
