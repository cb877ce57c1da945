// The face: the public calls, on numbers and slices alone (host/larsavim.h documents each; `larsavim_c` exports them to C). No call has a requirement: any bytes, any
// words, any numbers, slices of any length. A slice for an answer that is too short is 20 before all else, with nothing written.
#![tactic(auto)]

ghost use Rattle.std.specs.Prelude.{◌≡◌};
ghost use Rattle.label_answers.specs.Answering.{Answering};
ghost use Rattle.face_jobs.specs.Done.{jobs_done};
ghost use Rattle.load_model.specs.Load.{lent};
ghost use Rattle.larsavim.specs.Face.{Opens, Comments, Gets, Pairs, Needs, Loads, Walks, Leaves};
ghost use Rattle.larsavim.specs.Write.{Measures, Writes};
ghost use Rattle.larsavim.specs.Depths.{DepthTells};
ghost use Rattle.larsavim.specs.Sharing.{LoadShares, TreeShares, UnloadTells};
ghost use Rattle.larsavim.specs.Accepts.{AcceptTells};
ghost use Rattle.larsavim.specs.Trails.{TrailerTells, TrailedTells};
ghost use Rattle.walk_bare.specs.Bare.{BareTells};
ghost use Rattle.face_house.specs.Answers.{HouseTells};

use face_house::house_said;
use face_jobs::{Job, walk_job};
use face_load::load_said;
use face_model::{needs_said, walk_said};
use face_open::open_words;
use face_put::{keep_nothing, keep_rows, put_needed, put_rows, put3};
use face_record::{comment_said, get_said, pair_said};
use face_shared::{shared_said, unload_said};
use face_trail::{trailed_said, trailer_said};
use face_tree::tree_said;
use face_write::{length_said, write_said};
use label_answers::answers_said;
use load_bounds::nobody;
use table_put::{put2, put4};
use walk_accepts::accepts_said;
use walk_bare::bare_said;
use walk_depth::depth_said;
use walk_leaves::leaves_fit;

// 20: a lent slice is too short.
const ROOM: u64 = 20;

// 24: bounds that overlap or pass a table, or a side that is neither.
const OVERLAP: u64 = 24;

// The numbers of a task's bounds.
const BOUNDS: usize = 5;

// The numbers of each answer.
const OPEN_OUT: usize = 2;

const COMMENT_OUT: usize = 4;

const GET_OUT: usize = 2;

const PAIR_OUT: usize = 3;

const NEEDS_OUT: usize = 10;

const LOAD_OUT: usize = 8;

const WALK_OUT: usize = 3;

const WRITE_NEEDS_OUT: usize = 2;

const WRITE_OUT: usize = 2;

const DEPTH_OUT: usize = 3;

const ACCEPTS_OUT: usize = 3;

const TRAILER_OUT: usize = 3;

const TRAILED_OUT: usize = 4;

// Opens a file, with the record into the words.
pub fn larsavim_open(file: &[u8], words: &mut [u64], out: &mut [u64]) -> u64
    ensures { Opens file.now words.old out.old result words.new out.new }
{
    if out.len() < OPEN_OUT {
        return ROOM;
    }
    let said = open_words(file, words);
    put2(out, 0, said.number, said.place);
    said.number
}

// COMMENT, of a file and a fallback of so many bytes.
pub fn larsavim_comment(file_len: u64, words: &[u64], fallback_len: u64, out: &mut [u64]) -> u64
    ensures { Comments file_len words.now fallback_len out.old result out.new }
{
    if out.len() < COMMENT_OUT {
        return ROOM;
    }
    let part = comment_said(file_len, words, fallback_len);
    put4(out, 0, part.number, part.slice, part.start, part.len);
    part.number
}

// A number, a count or a flag of the record.
pub fn larsavim_get(words: &[u64], field: u64, out: &mut [u64]) -> u64
    ensures { Gets words.now field out.old result out.new }
{
    if out.len() < GET_OUT {
        return ROOM;
    }
    let said = get_said(words, field);
    put2(out, 0, said.number, said.place);
    said.number
}

// A string or a range of the record.
pub fn larsavim_pair(words: &[u64], field: u64, out: &mut [u64]) -> u64
    ensures { Pairs words.now field out.old result out.new }
{
    if out.len() < PAIR_OUT {
        return ROOM;
    }
    let pair = pair_said(words, field);
    put3(out, pair.number, pair.first, pair.second);
    pair.number
}

// What a model needs, without tables.
pub fn larsavim_needs(file: &[u8], words: &[u64], which: u64, out: &mut [u64]) -> u64
    ensures { Needs file.now words.now which out.old result out.new }
{
    if out.len() < NEEDS_OUT {
        return ROOM;
    }
    let needed = needs_said(file, words, which);
    put_needed(out, needed);
    needed.number
}

// Loads a model into the lent tables: the bottom task, beside nobody.
pub fn larsavim_load(
    file: &[u8],
    words: &[u64],
    which: u64,
    questions: &mut [u64],
    patterns: &mut [u64],
    trees: &mut [u64],
    records: &mut [u64],
    values: &mut [u64],
    work: &mut [i64],
    out: &mut [u64],
) -> u64
    ensures { Loads file.now words.now which (lent questions.old patterns.old trees.old records.old values.old work.old) out.old result (lent questions.new patterns.new trees.new records.new values.new work.new) out.new }
{
    if out.len() < LOAD_OUT {
        return ROOM;
    }
    let rows = load_said(
        file,
        words,
        which,
        false,
        nobody(),
        questions,
        patterns,
        trees,
        records,
        values,
        work,
    );
    put_rows(out, rows);
    rows.number
}

// Loads a model into one task's rows of tables that two tasks share.
pub fn larsavim_load_shared(
    file: &[u8],
    words: &[u64],
    which: u64,
    side: u64,
    held: &mut [u64],
    other: &[u64],
    questions: &mut [u64],
    patterns: &mut [u64],
    trees: &mut [u64],
    records: &mut [u64],
    values: &mut [u64],
    work: &mut [i64],
    out: &mut [u64],
) -> u64
    ensures { LoadShares file.now words.now which side held.old other.now (lent questions.old patterns.old trees.old records.old values.old work.old) out.old result held.new (lent questions.new patterns.new trees.new records.new values.new work.new) out.new }
{
    if out.len() < LOAD_OUT {
        return ROOM;
    }
    if held.len() < BOUNDS {
        return ROOM;
    }
    if other.len() < BOUNDS {
        return ROOM;
    }
    let rows = shared_said(
        file, words, which, side, held, other, questions, patterns, trees, records, values, work,
    );
    keep_rows(held, rows);
    put_rows(out, rows);
    rows.number
}

// Loads one tree of a model through the trailer at the file's end: all questions and patterns, one tree row, its records and its entries.
pub fn larsavim_load_tree(
    file: &[u8],
    words: &[u64],
    which: u64,
    tree: u64,
    side: u64,
    held: &mut [u64],
    other: &[u64],
    questions: &mut [u64],
    patterns: &mut [u64],
    trees: &mut [u64],
    records: &mut [u64],
    values: &mut [u64],
    work: &mut [i64],
    out: &mut [u64],
) -> u64
    ensures { TreeShares file.now words.now which tree side held.old other.now (lent questions.old patterns.old trees.old records.old values.old work.old) out.old result held.new (lent questions.new patterns.new trees.new records.new values.new work.new) out.new }
{
    if out.len() < LOAD_OUT {
        return ROOM;
    }
    if held.len() < BOUNDS {
        return ROOM;
    }
    if other.len() < BOUNDS {
        return ROOM;
    }
    let rows = tree_said(
        file, words, which, tree, side, held, other, questions, patterns, trees, records, values,
        work,
    );
    keep_rows(held, rows);
    put_rows(out, rows);
    rows.number
}

// Zeroes one task's rows and its bounds.
pub fn larsavim_unload(
    side: u64,
    held: &mut [u64],
    other: &[u64],
    questions: &mut [u64],
    patterns: &mut [u64],
    trees: &mut [u64],
    records: &mut [u64],
    values: &mut [u64],
) -> u64
    ensures { UnloadTells side held.old other.now questions.old patterns.old trees.old records.old values.old result held.new questions.new patterns.new trees.new records.new values.new }
{
    if held.len() < BOUNDS {
        return ROOM;
    }
    if other.len() < BOUNDS {
        return ROOM;
    }
    if !unload_said(
        side, held, other, questions, patterns, trees, records, values,
    ) {
        return OVERLAP;
    }
    keep_nothing(held);
    0
}

// Walks one tree.
pub fn larsavim_walk(
    trees: &[u64],
    records: &[u64],
    tree: u64,
    answers: &[u8],
    limit: u64,
    out: &mut [u64],
) -> u64
    ensures { Walks trees.now records.now tree answers.now limit out.old result out.new }
{
    if out.len() < WALK_OUT {
        return ROOM;
    }
    let ended = walk_said(trees, records, tree, answers, limit);
    put3(out, ended.number, ended.pdf, ended.asked);
    ended.number
}

// The leaf check: 1 for yes, 0 for no.
pub fn larsavim_leaves(
    questions: &[u64],
    trees: &[u64],
    records: &[u64],
    values: &[u64],
    width: u64,
) -> u64
    ensures { Leaves questions.now trees.now records.now values.now width result }
{
    leaves_fit(questions, trees, records, values, width) as u64
}

// Walks for each job of a lent slice, and writes how each ended where the job stands.
pub fn larsavim_walk_jobs(trees: &[u64], records: &[u64], answers: &[u8], jobs: &mut [Job])
    ensures { jobs.new ≡ jobs_done trees.now records.now answers.now jobs.old }
{
    for job in jobs.iter_mut() {
        *job = walk_job(trees, records, answers, *job);
    }
}

// The answers to all questions for one label: one byte a question row.
pub fn larsavim_answers(
    label: &[u8],
    questions: &[u64],
    patterns: &[u64],
    data: &[u8],
    answers: &mut [u8],
) -> u64
    ensures { Answering label.now questions.now patterns.now «data».now answers.old result answers.new }
{
    answers_said(label, questions, patterns, data, answers)
}

// How long the tree text of loaded tables is.
pub fn larsavim_write_needs(
    data: &[u8],
    questions: &[u64],
    patterns: &[u64],
    trees: &[u64],
    records: &[u64],
    out: &mut [u64],
) -> u64
    ensures { Measures «data».now questions.now patterns.now trees.now records.now out.old result out.new }
{
    if out.len() < WRITE_NEEDS_OUT {
        return ROOM;
    }
    let wrote = length_said(data, questions, patterns, trees, records);
    put2(out, 0, wrote.number, wrote.len);
    wrote.number
}

// Writes it to the front of a buffer.
pub fn larsavim_write(
    data: &[u8],
    questions: &[u64],
    patterns: &[u64],
    trees: &[u64],
    records: &[u64],
    buffer: &mut [u8],
    out: &mut [u64],
) -> u64
    ensures { Writes «data».now questions.now patterns.now trees.now records.now buffer.old out.old result buffer.new out.new }
{
    if out.len() < WRITE_OUT {
        return ROOM;
    }
    let wrote = write_said(buffer, data, questions, patterns, trees, records);
    put2(out, 0, wrote.number, wrote.len);
    wrote.number
}

// How many questions a walk of one tree can ask.
pub fn larsavim_depth(
    trees: &[u64],
    records: &[u64],
    tree: u64,
    work: &mut [i64],
    out: &mut [u64],
) -> u64
    ensures { DepthTells trees.now records.now tree work.old out.old result work.new out.new }
{
    if out.len() < DEPTH_OUT {
        return ROOM;
    }
    let depth = depth_said(trees, records, tree, work);
    put3(out, depth.number, depth.answer, depth.questions);
    depth.number
}

// Whether record rows that somebody else linked belong to a tree of a tree text.
pub fn larsavim_accepts(text: &[u8], tree: u64, records: &[u64], out: &mut [u64]) -> u64
    ensures { AcceptTells text.now tree records.now out.old result out.new }
{
    if out.len() < ACCEPTS_OUT {
        return ROOM;
    }
    let said = accepts_said(text, tree, records);
    put3(out, said.number, said.place as u64, said.line as u64);
    said.number
}

// Writes the trailer of a file to the front of a buffer.
pub fn larsavim_trailer(file: &[u8], words: &mut [u64], trailer: &mut [u8], out: &mut [u64]) -> u64
    ensures { TrailerTells file.now words.old trailer.old out.old result words.new trailer.new out.new }
{
    if out.len() < TRAILER_OUT {
        return ROOM;
    }
    let said = trailer_said(file, words, trailer);
    put3(out, said.number, said.place, said.bytes);
    said.number
}

// Whether a file ends in its trailer.
pub fn larsavim_trailed(file: &[u8], words: &mut [u64], out: &mut [u64]) -> u64
    ensures { TrailedTells file.now words.old out.old result words.new out.new }
{
    if out.len() < TRAILED_OUT {
        return ROOM;
    }
    let said = trailed_said(file, words);
    put4(out, 0, said.number, said.place, said.rows, said.begin);
    said.number
}

// The walk of one tree straight over a tree text, without tables.
pub fn larsavim_bare_walk(
    text: &[u8],
    tree: u64,
    answers: &[u8],
    limit: u64,
    out: &mut [u64],
) -> u64
    ensures { BareTells text.now tree answers.now limit out.old result out.new }
{
    bare_said(text, tree, answers, limit, out)
}

// Judges a voice by the house's rules, model after model in one task's rows.
pub fn larsavim_house(
    file: &[u8],
    words: &mut [u64],
    side: u64,
    held: &mut [u64],
    other: &[u64],
    questions: &mut [u64],
    patterns: &mut [u64],
    trees: &mut [u64],
    records: &mut [u64],
    values: &mut [u64],
    work: &mut [i64],
    out: &mut [u64],
) -> u64
    ensures { HouseTells file.now words.old side held.old other.now (lent questions.old patterns.old trees.old records.old values.old work.old) out.old result words.new held.new (lent questions.new patterns.new trees.new records.new values.new work.new) out.new }
{
    house_said(
        file, words, side, held, other, questions, patterns, trees, records, values, work, out,
    )
}
