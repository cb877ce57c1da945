// Unloading (02, Wish 9): zeros in one task's rows, and nothing else. Any bounds, tables of any length.
#![tactic(auto)]

ghost use Rattle.std.specs.Prelude.{◌≡◌, ◌-◌, ◌≤◌, length, replicate};
ghost use Rattle.std.proofs.lemmas.List.Edits.{sets};
ghost use Rattle.load_bounds.specs.Bounds.{side_of, held_of};
ghost use Rattle.load_unload.specs.Unloads.{Unloads};

use load_bounds::{Held, own_parts, stand};
use table_put::zero;

// Zeros from a up to e.
fn clear(t: &mut [u64], a: usize, e: usize)
    requires { (a ≤ e) × (e ≤ length t.old) }
    ensures { t.new ≡ sets t.old a (replicate (e - a) 0) }
{
    zero(&mut t[a..e]);
}

// Zeroes a task's rows. False, and nothing changed, where bounds overlap or pass a table (24).
pub fn unload(
    top: bool,
    mine: Held,
    other: Held,
    questions: &mut [u64],
    patterns: &mut [u64],
    trees: &mut [u64],
    records: &mut [u64],
    values: &mut [u64],
) -> bool
    ensures { Unloads (side_of top) (held_of mine) (held_of other) questions.old patterns.old trees.old records.old values.old result questions.new patterns.new trees.new records.new values.new }
{
    if !stand(
        mine,
        other,
        questions.len(),
        patterns.len(),
        trees.len(),
        records.len(),
        values.len(),
    ) {
        return false;
    }
    let own = own_parts(
        top,
        mine,
        questions.len(),
        patterns.len(),
        trees.len(),
        records.len(),
        values.len(),
    );
    clear(questions, own.questions.from, own.questions.to);
    clear(patterns, own.patterns.from, own.patterns.to);
    clear(trees, own.trees.from, own.trees.to);
    clear(records, own.records.from, own.records.to);
    clear(values, own.values.from, own.values.to);
    true
}
