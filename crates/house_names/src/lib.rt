// The house's rule on question names (02, Wish 11): none stands twice in a model (33). The names are put in order in front of the model's own pattern rows, which are
// written again afterwards, so that no two names are compared without need. For the rows and the text of a loaded model.
#![tactic(auto)]

ghost use Rattle.std.specs.Prelude.{◌≡◌, length};
ghost use Rattle.std.proofs.lemmas.List.Edits.{sets};
ghost use Rattle.link_order.specs.Keys.{name_key, name_at};
ghost use Rattle.link_search.specs.Index.{Index};
ghost use Rattle.tree_question.specs.Questions.{questions_at};
ghost use Rattle.load_questions.specs.Words.{pattern_words};
ghost use Rattle.house_names.specs.Names.{is_last, all_last, Room};

use link_order::name_of;
use link_search::last_question;
use load_questions::fill_all_patterns;
use load_text::index_names;

// Whether row k is the last of its name.
fn is_last(s: &[u8], questions: &[u64], index: &[u64], k: u64) -> bool
    requires { Index (λ e. name_key (name_at s.now questions.now e)) index.now }
    ensures { result ≡ is_last s.now questions.now (length index.now) k }
{
    match last_question(s, questions, index, name_of(s, questions, k)) {
        Some(row) => row == k,
        None => false,
    }
}

// Whether each row is.
fn all_last(s: &[u8], questions: &[u64], index: &[u64]) -> bool
    requires { Index (λ e. name_key (name_at s.now questions.now e)) index.now }
    ensures { result ≡ all_last s.now questions.now (length index.now) }
{
    let n = index.len() as u64;
    (0..n).all(|k| is_last(s, questions, index, k))
}

// Whether no name of the n questions from `at` on stands twice. The pattern rows stand in front of the table in the end.
pub fn names_once(s: &[u8], at: usize, questions: &[u64], n: usize, patterns: &mut [u64]) -> bool
    requires { Room s.now at n (length patterns.old) }
    ensures { (result ≡ all_last s.now questions.now n) × (patterns.new ≡ sets patterns.old 0 (pattern_words (questions_at s.now at).items)) }
{
    index_names(s, questions, n, patterns);
    let once = all_last(s, questions, &patterns[0..n]);
    fill_all_patterns(s, at, patterns);
    once
}
