// Looking up ids, question names and PDF numbers by halves, in tables that `link_sort` has sorted (01, 'Linking and tables':
// the last line with an id, the last question of a name, the first leaf with a number).
#![tactic(auto)]

ghost use Rattle.std.specs.Prelude.{◌≡◌, ◌<◌, leb, ltb, eqb, length};
ghost use Rattle.written.specs.Bytes.{same};
ghost use Rattle.link_order.specs.Keys.{id_key, name_key, id_at, name_at};
ghost use Rattle.link_search.specs.Found.{last_below, first_from};
ghost use Rattle.link_search.specs.Index.{Index, Ascends};
ghost use Rattle.link_search.specs.Parted.{Falls, Parted};

use link_order::{compare_names, id_key, id_of, name_of};
use std::cmp::Ordering;

// How many lines at the front of the index have an id up to that of the key.
fn after_id(work: &[i64], index: &[u64], key: u64) -> usize
    requires { Falls (λ e. leb (id_key (id_at work.now e)) key) index.now }
    ensures { Parted (λ e. leb (id_key (id_at work.now e)) key) index.now result }
{
    index.partition_point(|&line| id_key(id_of(work, line)) <= key)
}

// How many questions at the front of the index have a name up to the one given.
fn after_name(s: &[u8], questions: &[u64], index: &[u64], name: &[u8]) -> usize
    requires { Falls (λ e. leb (name_key (name_at s.now questions.now e)) (name_key name.now)) index.now }
    ensures { Parted (λ e. leb (name_key (name_at s.now questions.now e)) (name_key name.now)) index.now result }
{
    index.partition_point(|&row| not_above(name_of(s, questions, row), name))
}

// How many leaves are below a number.
fn before_leaf(leaves: &[u64], number: u64) -> usize
    requires { Falls (λ e. ltb e number) leaves.now }
    ensures { Parted (λ e. ltb e number) leaves.now result }
{
    leaves.partition_point(|&leaf| leaf < number)
}

// Whether a name stands before another or is the same.
fn not_above(a: &[u8], b: &[u8]) -> bool
    ensures { result ≡ leb (name_key a.now) (name_key b.now) }
{
    match compare_names(a, b) {
        Ordering::Less => true,
        Ordering::Equal => true,
        Ordering::Greater => false,
    }
}

// The last line with an id, by an index of the lines that is sorted by (id, line).
pub fn last_id(work: &[i64], index: &[u64], id: i64) -> Option<u64>
    requires { Index (λ e. id_key (id_at work.now e)) index.now }
    ensures { result ≡ last_below (λ e. eqb (id_key (id_at work.now e)) (id_key id)) (length index.now) }
{
    let key = id_key(id);
    let after = after_id(work, index, key);
    if after == 0 {
        return None;
    }
    let line = index[after - 1];
    if id_key(id_of(work, line)) == key {
        Some(line)
    } else {
        None
    }
}

// The last question of a name, by an index of the questions that is sorted by (name, row).
pub fn last_question(s: &[u8], questions: &[u64], index: &[u64], name: &[u8]) -> Option<u64>
    requires { Index (λ e. name_key (name_at s.now questions.now e)) index.now }
    ensures { result ≡ last_below (λ e. same (name_at s.now questions.now e) name.now) (length index.now) }
{
    let after = after_name(s, questions, index, name);
    if after == 0 {
        return None;
    }
    let row = index[after - 1];
    match compare_names(name_of(s, questions, row), name) {
        Ordering::Equal => Some(row),
        Ordering::Less => None,
        Ordering::Greater => None,
    }
}

// The first leaf with a number, among leaves that ascend.
pub fn first_leaf(leaves: &[u64], number: u64) -> Option<u64>
    requires { Ascends leaves.now }
    ensures { result ≡ first_from (λ e. eqb e number) 0 leaves.now }
{
    let before = before_leaf(leaves, number);
    if before < leaves.len() {
        if leaves[before] == number {
            return Some(before as u64);
        }
    }
    None
}
