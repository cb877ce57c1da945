// A load by the words of a record into one task's rows, its answer in numbers (host/larsavim.h). Any file, any words, any bounds, any tables, any numbers.
#![tactic(auto)]

ghost use Rattle.std.specs.Prelude.{◌≡◌};
ghost use Rattle.load_model.specs.Load.{lent};
ghost use Rattle.load_bounds.specs.Bounds.{side_of, held_of};
ghost use Rattle.face_model.specs.Answers.{no_rows, rows_by};
ghost use Rattle.face_load.specs.Answers.{LoadSaid};

use error::Refusal;
use face_model::{Rows, which_of};
use face_record::judged;
use load_bounds::Held;
use load_model::Loaded;
use load_shared::load;

pub fn no_rows(number: u64, place: u64, line: u64) -> Rows
    ensures { result ≡ no_rows number place line }
{
    Rows {
        number,
        place,
        line,
        questions: 0,
        patterns: 0,
        trees: 0,
        records: 0,
        values: 0,
    }
}

// A load's answer in numbers.
pub fn rows_of(loaded: Result<Loaded, Refusal>) -> Rows
    ensures { result ≡ rows_by loaded }
{
    match loaded {
        Ok(rows) => Rows {
            number: 0,
            place: 0,
            line: 0,
            questions: rows.questions as u64,
            patterns: rows.patterns as u64,
            trees: rows.trees as u64,
            records: rows.records as u64,
            values: rows.values,
        },
        Err(refusal) => no_rows(
            refusal.number(),
            refusal.place() as u64,
            refusal.line() as u64,
        ),
    }
}

// Loads the model that a number names into a task's rows, beside those that the other holds.
pub fn load_said(
    file: &[u8],
    words: &[u64],
    which: u64,
    top: bool,
    other: Held,
    questions: &mut [u64],
    patterns: &mut [u64],
    trees: &mut [u64],
    records: &mut [u64],
    values: &mut [u64],
    work: &mut [i64],
) -> Rows
    ensures { LoadSaid file.now words.now which (side_of top) (held_of other) (lent questions.old patterns.old trees.old records.old values.old work.old) result (lent questions.new patterns.new trees.new records.new values.new work.new) }
{
    let number = judged(words);
    if number == 0 {
        let loaded = load(
            file,
            words,
            which_of(which),
            top,
            other,
            questions,
            patterns,
            trees,
            records,
            values,
            work,
        );
        return rows_of(loaded);
    }
    no_rows(number, 0, 0)
}
