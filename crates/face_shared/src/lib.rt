// Two tasks in one set of tables (02, Wish 9), the calls in numbers (host/larsavim.h): a load into one task's rows and an unload, by each task's bounds as five numbers.
// A side is 0, the bottom, or 1, the top. Order of a load: 29; 24; then as without the other. Any file, any words, any tables, any numbers.
#![tactic(auto)]

ghost use Rattle.std.specs.Prelude.{◌≡◌, ◌&&◌, ◌≤◌, leb, length};
ghost use Rattle.load_model.specs.Load.{lent};
ghost use Rattle.load_bounds.specs.Bounds.{held_of, stands_at};
ghost use Rattle.face_shared.specs.Answers.{held_at, SharedSaid, UnloadSaid};

use error::Refusal;
use face_load::{load_said, rows_of};
use face_model::Rows;
use load_bounds::{Held, holding, stand};
use load_unload::unload;

const TOP: u64 = 1;

// A task's bounds out of five numbers.
pub fn bounds(l: &[u64]) -> Held
    requires { 5 ≤ length l.now }
    ensures { held_of result ≡ held_at l.now }
{
    Held {
        questions: l[0] as usize,
        patterns: l[1] as usize,
        trees: l[2] as usize,
        records: l[3] as usize,
        values: l[4] as usize,
    }
}

// Whether a side is one of the two, and bounds stand beside each other in tables of so many numbers.
pub fn standing(
    side: u64,
    a: Held,
    b: Held,
    questions: usize,
    patterns: usize,
    trees: usize,
    records: usize,
    values: usize,
) -> bool
    ensures { result ≡ (leb side 1 && stands_at (held_of a) (held_of b) questions patterns trees records values) }
{
    if TOP < side {
        return false;
    }
    stand(a, b, questions, patterns, trees, records, values)
}

// Loads the model that a number names into the rows of one task.
pub fn shared_said(
    file: &[u8],
    words: &[u64],
    which: u64,
    side: u64,
    held: &[u64],
    other: &[u64],
    questions: &mut [u64],
    patterns: &mut [u64],
    trees: &mut [u64],
    records: &mut [u64],
    values: &mut [u64],
    work: &mut [i64],
) -> Rows
    requires { (5 ≤ length held.now) × (5 ≤ length other.now) }
    ensures { SharedSaid file.now words.now which side (held_at held.now) (held_at other.now) (lent questions.old patterns.old trees.old records.old values.old work.old) result (lent questions.new patterns.new trees.new records.new values.new work.new) }
{
    let mine = bounds(held);
    let theirs = bounds(other);
    if holding(mine) {
        return rows_of(Err(Refusal::Held));
    }
    if !standing(
        side,
        mine,
        theirs,
        questions.len(),
        patterns.len(),
        trees.len(),
        records.len(),
        values.len(),
    ) {
        return rows_of(Err(Refusal::WalkTable));
    }
    load_said(
        file,
        words,
        which,
        side == TOP,
        theirs,
        questions,
        patterns,
        trees,
        records,
        values,
        work,
    )
}

// Zeroes the rows of one task. False, and nothing changed, for 24.
pub fn unload_said(
    side: u64,
    held: &[u64],
    other: &[u64],
    questions: &mut [u64],
    patterns: &mut [u64],
    trees: &mut [u64],
    records: &mut [u64],
    values: &mut [u64],
) -> bool
    requires { (5 ≤ length held.now) × (5 ≤ length other.now) }
    ensures { UnloadSaid side (held_at held.now) (held_at other.now) questions.old patterns.old trees.old records.old values.old result questions.new patterns.new trees.new records.new values.new }
{
    if TOP < side {
        return false;
    }
    unload(
        side == TOP,
        bounds(held),
        bounds(other),
        questions,
        patterns,
        trees,
        records,
        values,
    )
}
