// The calls on a model and on loaded tables, their answers in numbers (host/larsavim.h): what a model needs, a load, a walk. The exports of `larsavim` write
// these answers out. Any file, any words, any tables, any numbers.
#![tactic(auto)]

ghost use Rattle.std.specs.Prelude.{◌≡◌, ◌*◌, ◌<◌, ◌^◌};
ghost use Rattle.face_model.specs.Answers.{which_of, work_for, not_needed, needed_for, needed_of, ended_of};

use face_record::judged;
use load_choose::Which;
use load_plan::{Plan, needs};
use table_rows::WORK_A_LINE;
use walk::walk;

// What a model needs: rows of each table, values, numbers of work, and the values in an entry. An exported call hands it to C number by number.
#[repr(C)]
#[derive(Clone, Copy)]
pub struct Needed {
    pub number: u64,
    pub place: u64,
    pub line: u64,
    pub questions: u64,
    pub patterns: u64,
    pub trees: u64,
    pub records: u64,
    pub values: u64,
    pub work: u64,
    pub width: u64,
}

// The rows of a load, and its values. An exported call hands it to C number by number.
#[repr(C)]
#[derive(Clone, Copy)]
pub struct Rows {
    pub number: u64,
    pub place: u64,
    pub line: u64,
    pub questions: u64,
    pub patterns: u64,
    pub trees: u64,
    pub records: u64,
    pub values: u64,
}

// How a walk ended. An exported call hands it to C number by number.
#[repr(C)]
#[derive(Clone, Copy)]
pub struct Ended {
    pub number: u64,
    pub pdf: u64,
    pub asked: u64,
}

// The model that a number names.
pub fn which_of(n: u64) -> Which
    ensures { result ≡ which_of n }
{
    if n == 0 {
        return Which::Duration;
    }
    if n % 2 == 1 {
        return Which::Stream((n / 2) as usize);
    }
    Which::Gv((n / 2 - 1) as usize)
}

// The work for so many lines; the greatest number where there is none so great, which no file within its limit needs.
fn work_for(lines: usize) -> u64
    ensures { result ≡ work_for lines }
{
    if 3074457345618258602 < lines {
        return 18446744073709551615;
    }
    WORK_A_LINE as u64 * lines as u64
}

fn not_needed(number: u64, place: u64, line: u64) -> Needed
    ensures { result ≡ not_needed number place line }
{
    Needed {
        number,
        place,
        line,
        questions: 0,
        patterns: 0,
        trees: 0,
        records: 0,
        values: 0,
        work: 0,
        width: 0,
    }
}

fn needed_for(p: Plan) -> Needed
    requires { p.entries * p.width < 2 ^ 63 }
    ensures { result ≡ needed_for p }
{
    Needed {
        number: 0,
        place: 0,
        line: 0,
        questions: p.questions as u64,
        patterns: p.patterns as u64,
        trees: p.trees as u64,
        records: p.records as u64,
        values: p.entries * p.width,
        work: work_for(p.lines),
        width: p.width,
    }
}

// What a model needs, by the words of a record.
pub fn needs_said(file: &[u8], words: &[u64], which: u64) -> Needed
    ensures { result ≡ needed_of file.now words.now which }
{
    let number = judged(words);
    if number == 0 {
        return match needs(file, words, which_of(which)) {
            Ok(plan) => needed_for(plan),
            Err(refusal) => not_needed(
                refusal.number(),
                refusal.place() as u64,
                refusal.line() as u64,
            ),
        };
    }
    not_needed(number, 0, 0)
}

// A walk's PDF number and questions asked, or why it is refused.
pub fn walk_said(trees: &[u64], records: &[u64], tree: u64, answers: &[u8], limit: u64) -> Ended
    ensures { result ≡ ended_of trees.now records.now tree answers.now limit }
{
    match walk(trees, records, tree, answers, limit) {
        Ok(walked) => Ended {
            number: 0,
            pdf: walked.number,
            asked: walked.asked,
        },
        Err(refusal) => Ended {
            number: refusal.number(),
            pdf: 0,
            asked: 0,
        },
    }
}
