// One tree of a model loaded through a trailer (02, Wish 7) into one task's rows (02, Wish 9), all or nothing: all questions and patterns, one tree row, the tree's
// records and the values of its entries. Stages: what the tree needs (`trail_plan`), whether the rows fit beside the other task's (20), then rows and linking (21 to 23).
// Any bytes, any record, any bounds and tables of any length.
#![tactic(auto)]

ghost use Rattle.std.specs.Prelude.{◌≡◌, true, ◌≤◌, length};
ghost use Rattle.std.proofs.lemmas.List.Edits.{sets};
ghost use Rattle.pdf_blocks.specs.Values.{values_at};
ghost use Rattle.pdf_values.specs.Folded.{with_blocks};
ghost use Rattle.head_words.specs.Words.{header_at};
ghost use Rattle.load_model.specs.Load.{lent, room_in};
ghost use Rattle.load_shared.specs.Beside.{Fits};
ghost use Rattle.load_bounds.specs.Bounds.{side_of, held_of};
ghost use Rattle.trail_plan.specs.Plans.{SoundTree};
ghost use Rattle.trail_load.specs.Load.{ValueRoom, only_block, FillsTree, FillsOwnTree, LoadsTree};

use error::Refusal;
use load_bounds::{Held, need, own_parts, stand};
use load_choose::Which;
use load_model::{Loaded, answer};
use load_plan::{Plan, data_of};
use load_trees::all_linked;
use pdf_values::fill_values;
use table_put::{put_block, zero};
use table_rows::WORK_A_LINE;
use text_parts::up_to;
use trail_link::fill_one;
use trail_plan::tree_needs;

// The entries of the tree in its row, and their values.
fn fill_entries(s: &[u8], p: Plan, trees: &mut [u64], values: &mut [u64])
    requires { ValueRoom s.now p (length trees.old) (length values.old) }
    ensures { (trees.new ≡ with_blocks trees.old 0 (only_block p)) × (values.new ≡ sets values.old 0 (values_at s.now p.block p.width p.entries)) }
{
    put_block(trees, 0, 0, p.entries);
    fill_values(s, p.block, p.width as usize, p.entries, values);
}

// Tree k by its plan, into tables that have room for it.
fn fill_tree(
    d: &[u8],
    k: usize,
    p: Plan,
    questions: &mut [u64],
    patterns: &mut [u64],
    trees: &mut [u64],
    records: &mut [u64],
    values: &mut [u64],
    work: &mut [i64],
) -> Result<Loaded, Refusal>
    requires { SoundTree d.now p × (room_in p (lent questions.old patterns.old trees.old records.old values.old work.old) ≡ true) }
    ensures { FillsTree d.now k p (lent questions.old patterns.old trees.old records.old values.old work.old) result (lent questions.new patterns.new trees.new records.new values.new work.new) }
{
    let linked = fill_one(
        up_to(d, p.text_end),
        p.text,
        p.first,
        p.questions,
        k,
        questions,
        patterns,
        trees,
        records,
        work,
    );
    let loaded = answer(p, linked);
    if all_linked(linked) {
        fill_entries(up_to(d, p.block_end), p, trees, values);
    } else {
        zero(values);
    }
    loaded
}

// Tree k by its plan, into a task's own rows.
fn fill_own(
    d: &[u8],
    k: usize,
    p: Plan,
    top: bool,
    questions: &mut [u64],
    patterns: &mut [u64],
    trees: &mut [u64],
    records: &mut [u64],
    values: &mut [u64],
    work: &mut [i64],
) -> Result<Loaded, Refusal>
    requires { SoundTree d.now p × Fits p (length questions.old) (length patterns.old) (length trees.old) (length records.old) (length values.old) (length work.old) }
    ensures { FillsOwnTree (side_of top) d.now k p (lent questions.old patterns.old trees.old records.old values.old work.old) result (lent questions.new patterns.new trees.new records.new values.new work.new) }
{
    let own = own_parts(
        top,
        need(p),
        questions.len(),
        patterns.len(),
        trees.len(),
        records.len(),
        values.len(),
    );
    fill_tree(
        d,
        k,
        p,
        &mut questions[own.questions.from..own.questions.to],
        &mut patterns[own.patterns.from..own.patterns.to],
        &mut trees[own.trees.from..own.trees.to],
        &mut records[own.records.from..own.records.to],
        &mut values[own.values.from..own.values.to],
        work,
    )
}

// Loads tree k of the model asked for, which has a number in the rows, into one task's rows, beside those that the other holds. The task holds nothing.
pub fn load_tree(
    file: &[u8],
    words: &[u64],
    which: Which,
    model: u64,
    k: u64,
    top: bool,
    other: Held,
    questions: &mut [u64],
    patterns: &mut [u64],
    trees: &mut [u64],
    records: &mut [u64],
    values: &mut [u64],
    work: &mut [i64],
) -> Result<Loaded, Refusal>
    requires { 647 ≤ length words.now }
    ensures { LoadsTree (side_of top) file.now (header_at words.now) which model k (held_of other) (lent questions.old patterns.old trees.old records.old values.old work.old) result (lent questions.new patterns.new trees.new records.new values.new work.new) }
{
    let p = tree_needs(file, words, which, model, k)?;
    if !stand(
        need(p),
        other,
        questions.len(),
        patterns.len(),
        trees.len(),
        records.len(),
        values.len(),
    ) {
        return Err(Refusal::Room);
    }
    if work.len() / WORK_A_LINE < p.lines {
        return Err(Refusal::Room);
    }
    fill_own(
        data_of(file, words),
        k as usize,
        p,
        top,
        questions,
        patterns,
        trees,
        records,
        values,
        work,
    )
}
