// One tree of a text and all questions of it (02, Wish 7), linked, into lent tables; all or nothing, as `load_text` does it for all trees. The text is uncut: the
// tree is read where its row says that it stands.
#![tactic(auto)]

ghost use Rattle.std.specs.Prelude.{length};
ghost use Rattle.trail_link.specs.One.{Fits, OneLinked, OneFilled};

use load_questions::{fill_all_patterns, fill_questions};
use load_text::{index_names, zero_text};
use load_trees::{TreeFault, all_linked, ended, fill_tree};
use table_put::zero_work;
use table_rows::QUESTION_ROW;

// The question rows, the index of their names, and the tree at `star` linked by it.
fn link_one(
    s: &[u8],
    at: usize,
    star: usize,
    n: usize,
    k: usize,
    questions: &mut [u64],
    patterns: &mut [u64],
    trees: &mut [u64],
    records: &mut [u64],
    work: &mut [i64],
) -> Result<(), TreeFault>
    requires { Fits s.now at star n (length questions.old) (length patterns.old) (length trees.old) (length records.old) (length work.old) }
    ensures { OneLinked s.now at star n k questions.old patterns.old trees.old records.old work.old result questions.new patterns.new trees.new records.new work.new }
{
    fill_questions(s, at, questions);
    let words = QUESTION_ROW * n;
    index_names(s, &questions[0..words], n, patterns);
    let t = fill_tree(
        s,
        star,
        &questions[0..words],
        &patterns[0..n],
        trees,
        0,
        records,
        0,
        work,
    );
    let filled = t.filled;
    ended(k, filled)
}

// The rows of n questions from `at` on and of the tree at `star`, number k of its model; zeros where linking is refused. The work is zero in the end.
pub fn fill_one(
    s: &[u8],
    at: usize,
    star: usize,
    n: usize,
    k: usize,
    questions: &mut [u64],
    patterns: &mut [u64],
    trees: &mut [u64],
    records: &mut [u64],
    work: &mut [i64],
) -> Result<(), TreeFault>
    requires { Fits s.now at star n (length questions.old) (length patterns.old) (length trees.old) (length records.old) (length work.old) }
    ensures { OneFilled s.now at star k questions.old patterns.old trees.old records.old work.old result questions.new patterns.new trees.new records.new work.new }
{
    let linked = link_one(s, at, star, n, k, questions, patterns, trees, records, work);
    zero_work(work);
    if all_linked(linked) {
        fill_all_patterns(s, at, patterns);
    } else {
        zero_text(questions, patterns, trees, records);
    }
    linked
}
