// Whether a whole label matches a pattern of a question (02, Wish 1): `*` stands for any run of bytes, empty too, `?` for exactly one byte, everything else for
// itself. No search and no memory: the pattern is taken from star to star, and behind a star the first place where the part up to the next one stands is as good as
// any later one. So the label is passed over once, and a match takes at most as many looks as the pattern's bytes times the label's. Any pattern, any label.
#![tactic(auto)]

ghost use Rattle.std.specs.Prelude.{◌≡◌, true, ◌+◌, ◌≤◌, length, drop};
ghost use Rattle.label_match.specs.Matched.{passes, plain, front, some_end, match_of};
ghost use Rattle.label_match.specs.Parts.{PartEnd, Finds};

const ANY_RUN: u8 = b'*';

const ANY_ONE: u8 = b'?';

// A byte of a pattern that is no star, and a byte of the label.
fn passes(c: u8, b: u8) -> bool
    ensures { result ≡ passes c b }
{
    c == ANY_ONE || c == b
}

// Where the part without a star ends that begins at `from`: at the next star, or where the pattern ends.
fn part_end(pattern: &[u8], from: usize) -> usize
    requires { from ≤ length pattern.now }
    ensures { PartEnd pattern.now from result }
{
    for end in from..pattern.len() {
        if pattern[end] == ANY_RUN {
            return end;
        }
    }
    pattern.len()
}

// Whether a part without a star stands in the label at a place from which as many bytes are left.
fn stands(part: &[u8], label: &[u8], at: usize) -> bool
    requires { at + length part.now ≤ length label.now }
    ensures { result ≡ front part.now (drop at label.now) }
{
    for k in 0..part.len() {
        if !passes(part[k], label[at + k]) {
            return false;
        }
    }
    true
}

// The first place from `at` on where the part stands.
fn find(part: &[u8], label: &[u8], at: usize) -> Option<usize>
    requires { at ≤ length label.now }
    ensures { Finds part.now label.now at result }
{
    if label.len() - at < part.len() {
        return None;
    }
    let last = label.len() - part.len();
    for i in at..=last {
        if stands(part, label, i) {
            return Some(i);
        }
    }
    None
}

// Whether the part behind the last star stands at the label's very end.
fn stands_last(part: &[u8], label: &[u8], at: usize) -> bool
    requires { (at ≤ length label.now) × (plain part.now ≡ true) }
    ensures { result ≡ some_end (match_of part.now) (drop at label.now) }
{
    let room = label.len() - at;
    if room < part.len() {
        return false;
    }
    stands(part, label, label.len() - part.len())
}

// Whether what stands behind a star, from `from` on, matches some end of the label from `at` on. Part by part: each at the first place behind the one before.
fn after_star(pattern: &[u8], from: usize, label: &[u8], at: usize) -> bool
    requires { (from ≤ length pattern.now) × (at ≤ length label.now) }
    ensures { result ≡ some_end (match_of (drop from pattern.now)) (drop at label.now) }
{
    let mut j = from;
    let mut i = at;
    // No `for`: where the next part stands is what the search for this one answers.
    loop {
        let end = part_end(pattern, j);
        if end == pattern.len() {
            return stands_last(&pattern[j..end], label, i);
        }
        match find(&pattern[j..end], label, i) {
            Some(k) => {
                i = k + (end - j);
                j = end + 1;
            }
            None => {
                return false;
            }
        }
    }
}

// Whether the whole label matches: the part before the first star stands in front, what is behind it somewhere after.
pub fn matches(pattern: &[u8], label: &[u8]) -> bool
    ensures { result ≡ match_of pattern.now label.now }
{
    let end = part_end(pattern, 0);
    if label.len() < end {
        return false;
    }
    if !stands(&pattern[..end], label, 0) {
        return false;
    }
    if end == pattern.len() {
        return label.len() == end;
    }
    after_star(pattern, end + 1, label, end)
}
