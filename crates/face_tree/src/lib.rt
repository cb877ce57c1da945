// One tree of a model loaded through a trailer into the rows of one task (02, Wishes 7 and 9), the call in numbers (host/larsavim.h). Order: 29; 24; then as the load
// of a model, with 26 and 28 behind 16 for the record, and 24 for no such row behind 16 for the tree text. Any file, any words, any bounds, any tables, any numbers.
#![tactic(auto)]

ghost use Rattle.std.specs.Prelude.{◌≤◌, length};
ghost use Rattle.load_model.specs.Load.{lent};
ghost use Rattle.load_bounds.specs.Bounds.{side_of, held_of};
ghost use Rattle.face_shared.specs.Answers.{held_at};
ghost use Rattle.face_tree.specs.Answers.{TreeLoadSaid, TreeSaid};

use error::Refusal;
use face_load::{no_rows, rows_of};
use face_model::{Rows, which_of};
use face_record::judged;
use face_shared::{bounds, standing};
use load_bounds::{Held, holding};
use trail_load::load_tree;

const TOP: u64 = 1;

// Loads one tree of the model that a number names into a task's rows, beside those that the other holds.
fn tree_load_said(
    file: &[u8],
    words: &[u64],
    which: u64,
    tree: u64,
    top: bool,
    other: Held,
    questions: &mut [u64],
    patterns: &mut [u64],
    trees: &mut [u64],
    records: &mut [u64],
    values: &mut [u64],
    work: &mut [i64],
) -> Rows
    ensures { TreeLoadSaid file.now words.now which tree (side_of top) (held_of other) (lent questions.old patterns.old trees.old records.old values.old work.old) result (lent questions.new patterns.new trees.new records.new values.new work.new) }
{
    let number = judged(words);
    if number == 0 {
        let loaded = load_tree(
            file,
            words,
            which_of(which),
            which,
            tree,
            top,
            other,
            questions,
            patterns,
            trees,
            records,
            values,
            work,
        );
        return rows_of(loaded);
    }
    no_rows(number, 0, 0)
}

// Loads one tree of the model that a number names into the rows of one task.
pub fn tree_said(
    file: &[u8],
    words: &[u64],
    which: u64,
    tree: u64,
    side: u64,
    held: &[u64],
    other: &[u64],
    questions: &mut [u64],
    patterns: &mut [u64],
    trees: &mut [u64],
    records: &mut [u64],
    values: &mut [u64],
    work: &mut [i64],
) -> Rows
    requires { (5 ≤ length held.now) × (5 ≤ length other.now) }
    ensures { TreeSaid file.now words.now which tree side (held_at held.now) (held_at other.now) (lent questions.old patterns.old trees.old records.old values.old work.old) result (lent questions.new patterns.new trees.new records.new values.new work.new) }
{
    let mine = bounds(held);
    let theirs = bounds(other);
    if holding(mine) {
        return rows_of(Err(Refusal::Held));
    }
    if !standing(
        side,
        mine,
        theirs,
        questions.len(),
        patterns.len(),
        trees.len(),
        records.len(),
        values.len(),
    ) {
        return rows_of(Err(Refusal::WalkTable));
    }
    tree_load_said(
        file,
        words,
        which,
        tree,
        side == TOP,
        theirs,
        questions,
        patterns,
        trees,
        records,
        values,
        work,
    )
}
