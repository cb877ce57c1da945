// After model/mod.rs, `parse_model` and `convert_tree`: the tree rows and the records of all trees of a text, into lent tables
// (01, 'Linking and tables'). The first tree that linking refuses ends it. The text is known to be in the grammar, so that no tree is surveyed once more
// before it is filled.
//
#![tactic(auto)]

ghost use Rattle.std.specs.Prelude.{◌≡◌, ◌+◌, ◌*◌, ◌≤◌, ◌<◌, ◌^◌, length};
ghost use Rattle.std.proofs.lemmas.List.Edits.{sets};
ghost use Rattle.laws.specs.Totals.{total, largest};
ghost use Rattle.link_order.specs.Keys.{name_key, name_at};
ghost use Rattle.link_search.specs.Index.{Index};
ghost use Rattle.tree_body.specs.Trees.{head_at, trees_at};
ghost use Rattle.tree_survey.specs.Survey.{body_records, body_lines, tree_records, tree_lines};
ghost use Rattle.load_trees.specs.Trees.{all_linked, head_state, head_body, Whole, Through, row_words, ended_at, follows_at, BodyFilled, TreeFilled, TreesFilled};

use error::{LineFault, LinkFault};
use load_tree::{Filled, TreeFill, fill_braces, fill_leaf};
use table_put::put_tree;
use table_rows::RECORD_ROW;
use text_parts::natural;
use tree_body::{TreeHead, TreeStep, after_tree, tree_head};

// What linking refuses: the first tree that lacks its records, and the line.
#[derive(Clone, Copy)]
pub struct TreeFault {
    pub fault: LinkFault,
    pub tree: usize,
    pub line: usize,
}

// What follows a tree that was filled: another tree, where this one has so many records; or linking ends. Neither is a failure of the other, so that this is
// an enum of its own.
#[derive(Clone, Copy)]
enum Following {
    Tree { at: usize, records: usize },
    End(Result<(), TreeFault>),
}

// Whether all trees have their records.
pub fn all_linked(linked: Result<(), TreeFault>) -> bool
    ensures { result ≡ all_linked linked }
{
    linked.is_ok()
}

fn state_of(head: TreeHead) -> u64
    ensures { result ≡ head_state head }
{
    match head {
        TreeHead::Lone {
            state,
            index: _,
            next: _,
        } => natural(state),
        TreeHead::Empty { state, next: _ } => natural(state),
        TreeHead::Lines { state, first: _ } => natural(state),
        TreeHead::NoTree => 0,
    }
}

// The records of a tree's body, from record `first` on.
fn fill_body(
    s: &[u8],
    head: TreeHead,
    questions: &[u64],
    index: &[u64],
    records: &mut [u64],
    first: usize,
    work: &mut [i64],
) -> TreeFill
    requires index { Index (λ e. name_key (name_at s.now questions.now e)) index.now × (length index.now < 2 ^ 62) }
    requires whole { Whole s.now head }
    requires head_in_bounds { (4 * first + 4 * body_records (head_body s.now head) ≤ length records.old) × (6 * body_lines (head_body s.now head) ≤ length work.old) }
    ensures { BodyFilled s.now questions.now (length index.now) head first records.old work.old result records.new work.new }
{
    match head {
        TreeHead::Lone {
            state: _,
            index: reference,
            next,
        } => TreeFill {
            filled: fill_leaf(records, RECORD_ROW * first, reference),
            next,
        },
        TreeHead::Empty { state: _, next } => TreeFill {
            filled: Ok(Filled {
                records: 0,
                lines: 0,
            }),
            next,
        },
        TreeHead::Lines {
            state: _,
            first: at,
        } => fill_braces(s, at, questions, index, records, RECORD_ROW * first, work),
        TreeHead::NoTree => TreeFill {
            filled: Ok(Filled {
                records: 0,
                lines: 0,
            }),
            next: 0,
        },
    }
}

// The row of a tree that has its records; none where it is refused.
fn put_row(
    trees: &mut [u64],
    row: usize,
    state: u64,
    first: usize,
    filled: Result<Filled, LineFault>,
)
    requires { 6 * row + 6 ≤ length trees.old }
    ensures { trees.new ≡ sets trees.old (6 * row) (row_words state first filled) }
{
    if let Ok(tree) = filled {
        put_tree(
            trees,
            row,
            state,
            first as u64,
            tree.records as u64,
            tree.lines as u64,
        );
    }
}

// The tree at `at`: its records from record `first` on, and its row.
pub fn fill_tree(
    s: &[u8],
    at: usize,
    questions: &[u64],
    index: &[u64],
    trees: &mut [u64],
    row: usize,
    records: &mut [u64],
    first: usize,
    work: &mut [i64],
) -> TreeFill
    requires index { Index (λ e. name_key (name_at s.now questions.now e)) index.now × (length index.now < 2 ^ 62) }
    requires whole { Whole s.now (head_at s.now at) }
    requires row_in_bounds { (6 * row + 6 ≤ length trees.old) × (4 * first + 4 * body_records (head_body s.now (head_at s.now at)) ≤ length records.old) × (6 * body_lines (head_body s.now (head_at s.now at)) ≤ length work.old) }
    ensures { TreeFilled s.now questions.now (length index.now) (head_at s.now at) row first trees.old records.old work.old result trees.new records.new work.new }
{
    let head = tree_head(s, at);
    let state = state_of(head);
    let t = fill_body(s, head, questions, index, records, first, work);
    let filled = t.filled;
    put_row(trees, row, state, first, filled);
    t
}

// How linking ends where tree `row` is the last.
pub fn ended(row: usize, filled: Result<Filled, LineFault>) -> Result<(), TreeFault>
    ensures { result ≡ ended_at row filled }
{
    match filled {
        Ok(_) => Ok(()),
        Err(at) => Err(TreeFault {
            fault: at.fault,
            tree: row,
            line: at.line,
        }),
    }
}

// What follows tree `row`, which ended so before the place `next`.
fn what_follows(s: &[u8], row: usize, filled: Result<Filled, LineFault>, next: usize) -> Following
    ensures { result ≡ follows_at s.now row next filled }
{
    match filled {
        Ok(tree) => match after_tree(s, next) {
            TreeStep::Next(at) => Following::Tree {
                at,
                records: tree.records,
            },
            TreeStep::End => Following::End(Ok(())),
            // never, of a text in the grammar
            TreeStep::Broken(_) => Following::End(Ok(())),
        },
        Err(_) => Following::End(ended(row, filled)),
    }
}

// The trees from the first one's place on, into the tables from their fronts on; the lines of a tree stand in the work meanwhile.
pub fn fill_trees(
    s: &[u8],
    at: usize,
    questions: &[u64],
    index: &[u64],
    trees: &mut [u64],
    records: &mut [u64],
    work: &mut [i64],
) -> Result<(), TreeFault>
    requires index { Index (λ e. name_key (name_at s.now questions.now e)) index.now × (length index.now < 2 ^ 62) }
    requires through { Through s.now at }
    requires at_in_bounds { (6 * length (trees_at s.now at).items ≤ length trees.old) × (4 * total tree_records (trees_at s.now at).items ≤ length records.old) × (6 * largest tree_lines 0 (trees_at s.now at).items ≤ length work.old) }
    ensures { TreesFilled s.now questions.now (length index.now) (trees_at s.now at).items trees.old records.old work.old result trees.new records.new work.new }
{
    let mut i = at;
    let mut row = 0;
    let mut first = 0;
    // No `for`: where the next tree stands is what the reader of this one answers.
    loop {
        let t = fill_tree(s, i, questions, index, trees, row, records, first, work);
        let filled = t.filled;
        match what_follows(s, row, filled, t.next) {
            Following::Tree {
                at: next,
                records: m,
            } => {
                first = first + m;
                row = row + 1;
                i = next;
            }
            Following::End(linked) => {
                return linked;
            }
        }
    }
}
