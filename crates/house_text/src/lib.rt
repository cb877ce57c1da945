// The house's rules on a model's trees as they are written (02, Wish 11): in each tree in braces the lines bear 0, -1, -2, .. in their order (32), and every leaf is
// one of its tree's entries, which count from 1 (34). Ids aren't in the tables, so the text is read once more. Every function takes any bytes and any place.
#![tactic(auto)]

ghost use Rattle.std.specs.Prelude.{◌≡◌, ◌≤◌, length};
ghost use Rattle.tree_body.specs.Trees.{head_at, trees_at};
ghost use Rattle.load_trees.specs.Trees.{head_body};
ghost use Rattle.table_rows.specs.Rows.{tree_rows};
ghost use Rattle.tree_line.specs.Lines.{lines_at};
ghost use Rattle.house_text.specs.Text.{body_ids, trees_ids, ref_fits, line_fits, lines_fit, body_fits, trees_fit};

use link_find::ids_in_order;
use table_rows::tree_entries;
use text_parts::natural;
use tree_body::{TreeHead, tree_head};
use tree_line::{Line, LineStep, next_line};
use tree_reference::TreeIndex;
use tree_survey::{TreeSurvey, survey_tree};
use walk_leaves::leaf_fits;

// The ids of the tree at `at`; a lone reference has none.
fn tree_ids(s: &[u8], at: usize) -> bool
    ensures { result ≡ body_ids (head_body s.now (head_at s.now at)) }
{
    match tree_head(s, at) {
        TreeHead::Lone {
            state: _,
            index: _,
            next: _,
        } => true,
        TreeHead::Empty { state: _, next: _ } => true,
        TreeHead::Lines { state: _, first } => ids_in_order(s, first),
        TreeHead::NoTree => true,
    }
}

// The ids of all trees from `at` on.
pub fn ids_run(s: &[u8], at: usize) -> bool
    ensures { result ≡ trees_ids (trees_at s.now at).items }
{
    let mut i = at;
    // No `for`: where the next tree stands is what the reader of this one answers.
    loop {
        match survey_tree(s, i) {
            TreeSurvey::Next {
                negative: _,
                records: _,
                lines: _,
                next,
            } => {
                if !tree_ids(s, i) {
                    return false;
                }
                i = next;
            }
            TreeSurvey::Last {
                negative: _,
                records: _,
                lines: _,
            } => {
                return tree_ids(s, i);
            }
            TreeSurvey::Broken(_) => {
                return true;
            }
        }
    }
}

// A reference to a leaf; one to a line is none.
fn ref_fits(index: TreeIndex, entries: u64) -> bool
    ensures { result ≡ ref_fits entries index }
{
    match index {
        TreeIndex::Node(_) => true,
        TreeIndex::Pdf(number) => leaf_fits(natural(number), entries),
    }
}

// Both references of a line.
fn line_fits(line: Line, entries: u64) -> bool
    ensures { result ≡ line_fits entries line }
{
    let yes = line.yes;
    let no = line.no;
    if !ref_fits(yes, entries) {
        return false;
    }
    ref_fits(no, entries)
}

// The lines of a tree, from `first` on.
fn lines_fit(s: &[u8], first: usize, entries: u64) -> bool
    ensures { result ≡ lines_fit entries (lines_at s.now first).items }
{
    let mut i = first;
    // No `for`: where the next line stands is what the reader of this one answers.
    loop {
        match next_line(s, i) {
            LineStep::Next { line, next } => {
                if !line_fits(line, entries) {
                    return false;
                }
                i = next;
            }
            LineStep::Last { line, next: _ } => {
                return line_fits(line, entries);
            }
            LineStep::Broken => {
                return true;
            }
        }
    }
}

// The leaves of the tree at `at`, whose block has so many entries.
fn tree_fits(s: &[u8], at: usize, entries: u64) -> bool
    ensures { result ≡ body_fits entries (head_body s.now (head_at s.now at)) }
{
    match tree_head(s, at) {
        TreeHead::Lone {
            state: _,
            index,
            next: _,
        } => ref_fits(index, entries),
        TreeHead::Empty { state: _, next: _ } => true,
        TreeHead::Lines { state: _, first } => lines_fit(s, first, entries),
        TreeHead::NoTree => true,
    }
}

// The leaves of all trees from `at` on, by the entries in their rows.
pub fn leaves_run(s: &[u8], at: usize, trees: &[u64]) -> bool
    requires { length (trees_at s.now at).items ≤ tree_rows trees.now }
    ensures { result ≡ trees_fit trees.now (trees_at s.now at).items }
{
    let mut i = at;
    let mut k: u64 = 0;
    // No `for`: where the next tree stands is what the reader of this one answers.
    loop {
        match survey_tree(s, i) {
            TreeSurvey::Next {
                negative: _,
                records: _,
                lines: _,
                next,
            } => {
                if !tree_fits(s, i, tree_entries(trees, k)) {
                    return false;
                }
                k = k + 1;
                i = next;
            }
            TreeSurvey::Last {
                negative: _,
                records: _,
                lines: _,
            } => {
                return tree_fits(s, i, tree_entries(trees, k));
            }
            TreeSurvey::Broken(_) => {
                return true;
            }
        }
    }
}
