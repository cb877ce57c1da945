// After model/mod.rs, `parse_model`: a planned model into the lent tables, all or nothing (01, 'Linking and tables'): rows and linking (21 to 23), which leave every
// table and the work zero where they refuse. Takes tables of any length that have room; `load_shared` cuts them to the rows needed.
#![tactic(auto)]

ghost use Rattle.std.specs.Prelude.{◌≡◌, true, ◌+◌, ◌*◌, ◌<◌, ◌^◌, length};
ghost use Rattle.std.proofs.lemmas.List.Edits.{sets};
ghost use Rattle.pdf_blocks.specs.Values.{values_at};
ghost use Rattle.pdf_values.specs.Folded.{with_blocks};
ghost use Rattle.load_plan.specs.Plans.{Sound};
ghost use Rattle.load_model.specs.Load.{lent, room_in, BlockRoom, answer_for, blocks_of, Fills};

use error::Refusal;
use load_plan::Plan;
use load_text::fill_text;
use load_trees::{TreeFault, all_linked};
use pdf_values::{fill_blocks, fill_values};
use table_put::zero;
use text_parts::up_to;

// The rows needed of each table, and the values.
#[derive(Clone, Copy)]
pub struct Loaded {
    pub questions: usize,
    pub patterns: usize,
    pub trees: usize,
    pub records: usize,
    pub values: u64,
}

// What a block that ends with the slice says of each tree, into the rows of the trees, and its values.
fn fill_block(s: &[u8], p: Plan, trees: &mut [u64], values: &mut [u64])
    requires { BlockRoom s.now p (length trees.old) (length values.old) }
    ensures { (trees.new ≡ with_blocks trees.old 0 (blocks_of p s.now)) × (values.new ≡ sets values.old 0 (values_at s.now (p.block + 4 * p.trees) p.width p.entries)) }
{
    let first = p.block + 4 * p.trees;
    fill_blocks(s, p.block, p.trees, p.width, trees);
    fill_values(s, first, p.width as usize, p.entries, values);
}

// The rows of a plan whose trees are linked, or the refusal.
pub fn answer(p: Plan, linked: Result<(), TreeFault>) -> Result<Loaded, Refusal>
    requires { p.entries * p.width < 2 ^ 63 }
    ensures { result ≡ answer_for p linked }
{
    match linked {
        Ok(_) => Ok(Loaded {
            questions: p.questions,
            patterns: p.patterns,
            trees: p.trees,
            records: p.records,
            values: p.entries * p.width,
        }),
        Err(at) => Err(Refusal::Unlinked {
            fault: at.fault,
            tree: at.tree,
            line: at.line,
        }),
    }
}

// The model of a plan, into tables that have room for it.
pub fn fill(
    d: &[u8],
    p: Plan,
    questions: &mut [u64],
    patterns: &mut [u64],
    trees: &mut [u64],
    records: &mut [u64],
    values: &mut [u64],
    work: &mut [i64],
) -> Result<Loaded, Refusal>
    requires { Sound d.now p × (room_in p (lent questions.old patterns.old trees.old records.old values.old work.old) ≡ true) }
    ensures { Fills d.now p (lent questions.old patterns.old trees.old records.old values.old work.old) result (lent questions.new patterns.new trees.new records.new values.new work.new) }
{
    let linked = fill_text(
        up_to(d, p.text_end),
        p.text,
        p.first,
        p.questions,
        questions,
        patterns,
        trees,
        records,
        work,
    );
    let loaded = answer(p, linked);
    if all_linked(linked) {
        fill_block(up_to(d, p.block_end), p, trees, values);
    } else {
        zero(values);
    }
    loaded
}
