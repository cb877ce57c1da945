// The library of a meter that has no room for tables (02, Wish 12): one call, the walk of one tree straight over a tree text. An archive of this crate has that call alone;
// it is the same as in `larsavim`.
#![tactic(auto)]

ghost use Rattle.walk_bare.specs.Bare.{BareTells};

use walk_bare::bare_said;

// The walk of one tree straight over a tree text, without tables.
#[unsafe(no_mangle)]
pub extern "C" fn larsavim_bare_walk(
    text: &[u8],
    tree: u64,
    answers: &[u8],
    limit: u64,
    out: &mut [u64],
) -> u64
    ensures { BareTells text.now tree answers.now limit out.old result out.new }
{
    bare_said(text, tree, answers, limit, out)
}
