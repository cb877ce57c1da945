// After model/mod.rs, `parse_model`: the rows of a whole tree text, linked, into lent tables; all or nothing (01, 'Linking and tables').
// An index of the question names stands in front of the pattern table until the pattern rows are written: a question has a pattern at least.
//
#![tactic(auto)]

ghost use Rattle.std.specs.Prelude.{◌≡◌, ◌≤◌, length, replicate};
ghost use Rattle.std.proofs.lemmas.List.Edits.{sets};
ghost use Rattle.load_text.specs.Text.{Fits, name_index, TextLinked, TextFilled};

use link_sort::sort_names;
use link_targets::number_lines;
use load_questions::{fill_all_patterns, fill_questions};
use load_trees::{TreeFault, all_linked, fill_trees};
use table_put::{zero, zero_work};
use table_rows::QUESTION_ROW;

// The rows of n questions, by name and then by row, in front of the table.
pub fn index_names(s: &[u8], questions: &[u64], n: usize, patterns: &mut [u64])
    requires { n ≤ length patterns.old }
    ensures { patterns.new ≡ sets patterns.old 0 (name_index s.now questions.now n) }
{
    number_lines(patterns, n);
    sort_names(s, questions, &mut patterns[0..n]);
}

// The question rows, the index of their names, and the trees linked by it.
fn link_text(
    s: &[u8],
    at: usize,
    first: usize,
    n: usize,
    questions: &mut [u64],
    patterns: &mut [u64],
    trees: &mut [u64],
    records: &mut [u64],
    work: &mut [i64],
) -> Result<(), TreeFault>
    requires { Fits s.now at first n (length questions.old) (length patterns.old) (length trees.old) (length records.old) (length work.old) }
    ensures { TextLinked s.now at first n questions.old patterns.old trees.old records.old work.old result questions.new patterns.new trees.new records.new work.new }
{
    fill_questions(s, at, questions);
    let words = QUESTION_ROW * n;
    index_names(s, &questions[0..words], n, patterns);
    fill_trees(
        s,
        first,
        &questions[0..words],
        &patterns[0..n],
        trees,
        records,
        work,
    )
}

// What a refused link leaves.
pub fn zero_text(
    questions: &mut [u64],
    patterns: &mut [u64],
    trees: &mut [u64],
    records: &mut [u64],
)
    ensures { (questions.new ≡ replicate (length questions.old) 0) × (patterns.new ≡ replicate (length patterns.old) 0) × (trees.new ≡ replicate (length trees.old) 0) × (records.new ≡ replicate (length records.old) 0) }
{
    zero(questions);
    zero(patterns);
    zero(trees);
    zero(records);
}

// The rows of n questions from `at` on and of the trees from `first` on; zeros where linking is refused. The work is zero in the end.
pub fn fill_text(
    s: &[u8],
    at: usize,
    first: usize,
    n: usize,
    questions: &mut [u64],
    patterns: &mut [u64],
    trees: &mut [u64],
    records: &mut [u64],
    work: &mut [i64],
) -> Result<(), TreeFault>
    requires { Fits s.now at first n (length questions.old) (length patterns.old) (length trees.old) (length records.old) (length work.old) }
    ensures { TextFilled s.now at first questions.old patterns.old trees.old records.old work.old result questions.new patterns.new trees.new records.new work.new }
{
    let linked = link_text(s, at, first, n, questions, patterns, trees, records, work);
    zero_work(work);
    if all_linked(linked) {
        fill_all_patterns(s, at, patterns);
    } else {
        zero_text(questions, patterns, trees, records);
    }
    linked
}
