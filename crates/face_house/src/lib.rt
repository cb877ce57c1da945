// A voice judged by the house's rules, the call in numbers (02, Wish 11; host/larsavim.h). Order: 20 for slices that are too short; 29; 24; opening as `larsavim_open`
// has it; the loads of all models; 30, 31; the first rule that a model breaks. On 0 and 30 to 36 the last model stays loaded, and the task's bounds are its rows.
// Any file, any words, any bounds, any tables, any numbers.
#![tactic(auto)]

ghost use Rattle.std.specs.Prelude.{◌≡◌, ◌≤◌, length};
ghost use Rattle.std.proofs.lemmas.List.Edits.{sets};
ghost use Rattle.load_model.specs.Load.{lent};
ghost use Rattle.load_bounds.specs.Bounds.{side_of, held_of};
ghost use Rattle.face_house.specs.Answers.{bounds_numbers, before_at, Opened, Housed, HouseTells};

use face_open::open_words;
use face_rule::{House, refused_as, ruled, told};
use face_shared::{bounds, standing};
use house_voice::judge_voice;
use load_bounds::{Held, holding};
use table_put::put4;

const TOP: u64 = 1;

// 20: a lent slice is too short.
const ROOM: u64 = 20;

// 24: bounds that overlap or pass a table, or a side that is neither; 29: the task holds a model.
const OVERLAP: u64 = 24;

const HOLDING: u64 = 29;

// The numbers of a task's bounds, and of the answer.
const BOUNDS: usize = 5;

const HOUSE_OUT: usize = 4;

// A task's bounds to the front.
fn put_bounds(held: &mut [u64], rows: Held)
    requires { 5 ≤ length held.old }
    ensures { held.new ≡ sets held.old 0 (bounds_numbers rows) }
{
    put4(
        held,
        0,
        rows.questions as u64,
        rows.patterns as u64,
        rows.trees as u64,
        rows.records as u64,
    );
    held[4] = rows.values as u64;
}

// A file that opened.
fn judge_opened(
    file: &[u8],
    words: &[u64],
    top: bool,
    held: &mut [u64],
    other: Held,
    questions: &mut [u64],
    patterns: &mut [u64],
    trees: &mut [u64],
    records: &mut [u64],
    values: &mut [u64],
    work: &mut [i64],
) -> House
    requires { (647 ≤ length words.now) × (5 ≤ length held.old) }
    ensures { Opened (side_of top) file.now words.now held.old (held_of other) (lent questions.old patterns.old trees.old records.old values.old work.old) result held.new (lent questions.new patterns.new trees.new records.new values.new work.new) }
{
    match judge_voice(
        file, words, top, other, questions, patterns, trees, records, values, work,
    ) {
        Err(at) => refused_as(at.refusal, at.model),
        Ok(judged) => {
            put_bounds(held, judged.held);
            ruled(file, words, judged.first)
        }
    }
}

// 29, 24, or 0.
fn before(
    side: u64,
    mine: Held,
    other: Held,
    questions: usize,
    patterns: usize,
    trees: usize,
    records: usize,
    values: usize,
) -> u64
    ensures { result ≡ before_at side (held_of mine) (held_of other) questions patterns trees records values }
{
    if holding(mine) {
        return HOLDING;
    }
    if standing(
        side, mine, other, questions, patterns, trees, records, values,
    ) {
        return 0;
    }
    OVERLAP
}

// A file, with both tasks' bounds.
fn judge_file(
    file: &[u8],
    words: &mut [u64],
    side: u64,
    held: &mut [u64],
    other: &[u64],
    questions: &mut [u64],
    patterns: &mut [u64],
    trees: &mut [u64],
    records: &mut [u64],
    values: &mut [u64],
    work: &mut [i64],
) -> House
    requires { (5 ≤ length held.old) × (5 ≤ length other.now) }
    ensures { Housed file.now words.old side held.old other.now (lent questions.old patterns.old trees.old records.old values.old work.old) result words.new held.new (lent questions.new patterns.new trees.new records.new values.new work.new) }
{
    let theirs = bounds(other);
    let number = before(
        side,
        bounds(held),
        theirs,
        questions.len(),
        patterns.len(),
        trees.len(),
        records.len(),
        values.len(),
    );
    if number != 0 {
        return told(number, 0, 0, 0);
    }
    let said = open_words(file, words);
    if said.number != 0 {
        return told(said.number, said.place, 0, 0);
    }
    judge_opened(
        file,
        words,
        side == TOP,
        held,
        theirs,
        questions,
        patterns,
        trees,
        records,
        values,
        work,
    )
}

// The same, with its four numbers to the front of `out`.
pub fn house_said(
    file: &[u8],
    words: &mut [u64],
    side: u64,
    held: &mut [u64],
    other: &[u64],
    questions: &mut [u64],
    patterns: &mut [u64],
    trees: &mut [u64],
    records: &mut [u64],
    values: &mut [u64],
    work: &mut [i64],
    out: &mut [u64],
) -> u64
    ensures { HouseTells file.now words.old side held.old other.now (lent questions.old patterns.old trees.old records.old values.old work.old) out.old result words.new held.new (lent questions.new patterns.new trees.new records.new values.new work.new) out.new }
{
    if out.len() < HOUSE_OUT {
        return ROOM;
    }
    if held.len() < BOUNDS {
        return ROOM;
    }
    if other.len() < BOUNDS {
        return ROOM;
    }
    let said = judge_file(
        file, words, side, held, other, questions, patterns, trees, records, values, work,
    );
    put4(out, 0, said.number, said.place, said.line, said.model);
    said.number
}
