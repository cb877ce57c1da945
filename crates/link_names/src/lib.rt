// Which of so many names, told by where they begin, no question of a text bears: the first of them, by one pass over the questions (02, Wish 12).
// A name's key, a byte on the stack, saves most comparisons; it is 0 once the name is met. Every function takes any bytes and any places; the questions are those of the text that begins at `at`.
#![tactic(auto)]

ghost use Rattle.std.specs.Prelude.{◌≡◌, cond, ℕ, ◌≤◌, length, get_or};
ghost use Rattle.written.specs.Bytes.{same};
ghost use Rattle.laws.specs.Steps.{read};
ghost use Rattle.tree_question.specs.Questions.{question_step_at, questions_at};
ghost use Rattle.link_names.specs.Names.{name_from, name_in, key_of, Keys, KeyIn, Keyed, Gone, is_gone, heard, Marked, FirstOf};

use link_find::{NameStep, next_name, same_name};
use text_base::name_end;
use text_parts::part_inside;
use tree_question::{Item, first_item};

// The name that begins at a place.
fn name_at(s: &[u8], start: u64) -> &[u8]
    ensures { result.now ≡ name_from s.now start }
{
    let at = start as usize;
    part_inside(s, start, (name_end(s, at) - at) as u64)
}

// ---- their keys

// A small number of a name, never 0, by its length and its last byte: names of two keys are two names, and need not be compared.
fn key_of(name: &[u8]) -> u8
    ensures { result ≡ key_of name.now }
{
    let n = name.len();
    if n == 0 {
        return 1;
    }
    let size = (n % 16) as u8;
    1 + size * 15 + name[n - 1] % 15
}

// The keys of the first n names.
fn set_keys(s: &[u8], names: &[u64], keys: &mut [u8], n: usize)
    requires { (n ≤ length keys.old) × (n ≤ length names.now) }
    ensures { Keys s.now names.now keys.old n keys.new }
{
    for j in 0..n {
        keys[j] = key_of(name_at(s, names[j]));
    }
}

// ---- which of them were met among the questions: their keys become 0

// The key of the name that begins at `start`, once it was compared with one of a key.
fn key_after(s: &[u8], start: u64, before: u8, name: &[u8], key: u8) -> u8
    requires { (key ≡ key_of name.now) × KeyIn s.now start before }
    ensures { result ≡ cond (same name.now (name_from s.now start)) 0 before }
{
    if before != key {
        return before;
    }
    if same_name(name, name_at(s, start)) {
        0
    } else {
        before
    }
}

// Those of the first n names that are this one. The keys below `low` are gone, and not looked at.
fn mark(s: &[u8], names: &[u64], keys: &mut [u8], low: usize, n: usize, name: &[u8])
    requires { (n ≤ length keys.old) × (n ≤ length names.now) × Keyed s.now names.now n keys.old × Gone low keys.old }
    ensures { Marked keys.old n (λ (j : ℕ). same name.now (name_in s.now names.now j)) keys.new }
{
    let key = key_of(name);
    for j in low..n {
        keys[j] = key_after(s, names[j], keys[j], name, key);
    }
}

// How many of n keys are gone, from the first on, where so many are.
fn gone_from(keys: &[u8], low: usize, n: usize) -> usize
    requires { (n ≤ length keys.now) × Gone low keys.now }
    ensures { Gone result keys.now }
{
    for j in low..n {
        if keys[j] != 0 {
            return j;
        }
    }
    n
}

// Those that a question from `first` on bears. Where none is left, no question need be read.
fn mark_all(s: &[u8], first: usize, names: &[u64], keys: &mut [u8], n: usize)
    requires { (n ≤ length keys.old) × (n ≤ length names.now) × Keyed s.now names.now n keys.old }
    ensures { Marked keys.old n (λ (j : ℕ). heard s.now (name_in s.now names.now j) (read (question_step_at s.now) (length s.now) first).items) keys.new }
{
    let mut i = first;
    let mut low = 0;
    // No `for`: where the next question stands is what the reader of this one answers.
    loop {
        match next_name(s, i) {
            NameStep::Next { start, len, next } => {
                mark(
                    s,
                    names,
                    keys,
                    low,
                    n,
                    part_inside(s, start as u64, len as u64),
                );
                low = gone_from(keys, low, n);
                if n <= low {
                    return;
                }
                i = next;
            }
            NameStep::Last { start, len } => {
                mark(
                    s,
                    names,
                    keys,
                    low,
                    n,
                    part_inside(s, start as u64, len as u64),
                );
                return;
            }
            NameStep::Broken => {
                return;
            }
        }
    }
}

// The first of n whose key is left.
fn first_left(keys: &[u8], n: usize) -> Option<u64>
    requires { n ≤ length keys.now }
    ensures { FirstOf (λ (j : ℕ). is_gone (get_or keys.now j 0)) n result }
{
    for j in 0..n {
        if keys[j] != 0 {
            return Some(j as u64);
        }
    }
    None
}

// The first of n names that no question bears, where the questions begin at `first`.
fn first_unheard(s: &[u8], first: usize, names: &[u64], n: usize) -> Option<u64>
    requires { (n ≤ 40) × (n ≤ length names.now) }
    ensures { FirstOf (λ (j : ℕ). heard s.now (name_in s.now names.now j) (read (question_step_at s.now) (length s.now) first).items) n result }
{
    let mut keys = [0u8; 40];
    set_keys(s, names, &mut keys, n);
    mark_all(s, first, names, &mut keys, n);
    first_left(&keys, n)
}

// The first of n names that no question bears; where the text has no question, the first of them.
pub fn look_up(s: &[u8], at: usize, names: &[u64], n: usize) -> Option<u64>
    requires { (n ≤ 40) × (n ≤ length names.now) }
    ensures { FirstOf (λ (j : ℕ). heard s.now (name_in s.now names.now j) (questions_at s.now at).items) n result }
{
    match first_item(s, at) {
        Item::Question(first) => first_unheard(s, first, names, n),
        Item::Tree(_) => { if n == 0 { None } else { Some(0) } }
    }
}
