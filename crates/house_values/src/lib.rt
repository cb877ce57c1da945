// The house's rules on an entry's values (02, Wish 11): a mean is finite (35), a variance finite and above zero (36). An entry is mean, variance, mean, variance, ..;
// where the width is odd, its last value is free. For any values and any width.
#![tactic(auto)]

ghost use Rattle.std.specs.Prelude.{◌≡◌, ◌+◌, ◌*◌, ◌≤◌, ◌<◌, ◌/◌, length};
ghost use Rattle.house_values.specs.Values.{good_mean, good_variance, good_value, pairs_good, values_good};

// The bits of infinity, and the sign's.
const INFINITY: u64 = 9218868437227405312;

const SIGN: u64 = 9223372036854775808;

fn good_mean(v: u64) -> bool
    ensures { result ≡ good_mean v }
{
    v % SIGN < INFINITY
}

fn good_variance(v: u64) -> bool
    ensures { result ≡ good_variance v }
{
    0 < v && v < INFINITY
}

// A value by the rule of its place in a pair.
fn good_value(variance: bool, v: u64) -> bool
    ensures { result ≡ good_value variance v }
{
    if variance {
        return good_variance(v);
    }
    good_mean(v)
}

// The means, or the variances, of the entry whose first one stands at `at`.
#[tactic(auto, using(laws::proofs::Every::passing), unfolding(crate::specs::Values::pairs_good))]
fn pairs_good(values: &[u64], at: usize, pairs: usize, variance: bool) -> bool
    requires { at + 2 * pairs ≤ length values.now + 1 }
    ensures { result ≡ pairs_good variance values.now at pairs }
{
    for k in 0..pairs {
        if !good_value(variance, values[at + 2 * k]) {
            return false;
        }
    }
    true
}

// The means, or the variances, of all entries of a width.
#[tactic(auto, using(laws::proofs::Every::passing), unfolding(crate::specs::Values::values_good))]
pub fn values_good(values: &[u64], width: usize, variance: bool) -> bool
    ensures { result ≡ values_good variance width values.now }
{
    if width == 0 {
        return true;
    }
    let pairs = width / 2;
    let entries = values.len() / width;
    for i in 0..entries {
        if !pairs_good(values, i * width + variance as usize, pairs, variance) {
            return false;
        }
    }
    true
}
