// The rows that a trailer has for the trees of one text (02, Wish 7): the model's number, the offset of the tree's {*} from the first data byte, the lines of
// its row. The text is a prefix of the data, its trees are read from `at` on, up to its end or to what can't be read. A place is an index into the slice.
#![tactic(auto)]

ghost use Rattle.std.specs.Prelude.{◌≡◌, [], ◌∷◌, ◌+◌, ◌*◌, ◌≤◌, length};
ghost use Rattle.std.proofs.lemmas.List.Edits.{sets};
ghost use Rattle.written.specs.Blocks.{little_endian};
ghost use Rattle.tree_line.specs.Lines.{line_step_at};
ghost use Rattle.tree_body.specs.Trees.{tree_step_at, trees_at};
ghost use Rattle.trail_bytes.specs.Numbers.{same_words};
ghost use Rattle.trail_rows.specs.Rows.{row_lines, first_lines, lines_as_row, row_stepped, rows_of};

use trail_bytes::{put_words, same_words};
use tree_body::{TreeHead, tree_head};
use tree_line::{Line, LineStep, next_line};
use tree_reference::same_index;
use tree_survey::{TreeSurvey, survey_tree};

// The bytes of a row.
const ROW: usize = 12;

// The lines of a tree's row, and where the next tree stands; or the text's last tree; or none that can be read. The three steps of a reader, so that the loop
// matches Next, Last and Broken: an Option in an Option would be no plainer.
#[derive(Clone, Copy)]
pub enum RowStep {
    Next { lines: u64, next: usize },
    Last { lines: u64 },
    Broken,
}

// One line in braces: a tree that is one reference, where its references are equal, has none.
fn one_line(line: Line) -> u64
    ensures { result ≡ row_lines (line ∷ []) }
{
    let no = line.no;
    let yes = line.yes;
    if same_index(no, yes) {
        return 0;
    }
    1
}

// Of a tree whose only line stands at `at`.
fn first_line(s: &[u8], at: usize) -> u64
    ensures { result ≡ first_lines (line_step_at s.now at) }
{
    match next_line(s, at) {
        LineStep::Next { line, next: _ } => one_line(line),
        LineStep::Last { line, next: _ } => one_line(line),
        LineStep::Broken => 0,
    }
}

// Of the tree at `at`, which has so many lines: two references can differ and yet need no record but the line's, so the line is looked at.
fn row_lines(s: &[u8], at: usize, lines: usize) -> u64
    ensures { result ≡ lines_as_row s.now at lines }
{
    if lines != 1 {
        return lines as u64;
    }
    match tree_head(s, at) {
        TreeHead::Lines { state: _, first } => first_line(s, first),
        TreeHead::Lone {
            state: _,
            index: _,
            next: _,
        } => 0,
        TreeHead::Empty { state: _, next: _ } => 0,
        TreeHead::NoTree => 0,
    }
}

// The tree at `at`, and whether another follows it.
pub fn next_row(s: &[u8], at: usize) -> RowStep
    ensures { result ≡ row_stepped (tree_step_at s.now at) }
{
    match survey_tree(s, at) {
        TreeSurvey::Next {
            negative: _,
            records: _,
            lines,
            next,
        } => RowStep::Next {
            lines: row_lines(s, at, lines),
            next,
        },
        TreeSurvey::Last {
            negative: _,
            records: _,
            lines,
        } => RowStep::Last {
            lines: row_lines(s, at, lines),
        },
        TreeSurvey::Broken(_) => RowStep::Broken,
    }
}

// The rows into a buffer, from `from` on.
pub fn put_rows(s: &[u8], at: usize, model: u64, t: &mut [u8], from: usize)
    requires { from + 12 * length (trees_at s.now at).items ≤ length t.old }
    ensures { t.new ≡ sets t.old from (little_endian (rows_of model (trees_at s.now at).items)) }
{
    let mut i = at;
    let mut k = from;
    // No `for`: where the next tree stands is what the reader of this one answers.
    loop {
        match next_row(s, i) {
            RowStep::Next { lines, next } => {
                put_words(t, k, model, i as u64, lines);
                k = k + ROW;
                i = next;
            }
            RowStep::Last { lines } => {
                put_words(t, k, model, i as u64, lines);
                return;
            }
            RowStep::Broken => {
                return;
            }
        }
    }
}

// Whether the bytes of a file from `from` on are the rows.
pub fn same_rows(s: &[u8], at: usize, model: u64, file: &[u8], from: usize) -> bool
    requires { from + 12 * length (trees_at s.now at).items ≤ length file.now }
    ensures { result ≡ same_words file.now from (rows_of model (trees_at s.now at).items) }
{
    let mut i = at;
    let mut k = from;
    // No `for`: where the next tree stands is what the reader of this one answers.
    loop {
        match next_row(s, i) {
            RowStep::Next { lines, next } => {
                if !same_words(file, k, model, i as u64, lines) {
                    return false;
                }
                k = k + ROW;
                i = next;
            }
            RowStep::Last { lines } => {
                return same_words(file, k, model, i as u64, lines);
            }
            RowStep::Broken => {
                return true;
            }
        }
    }
}
