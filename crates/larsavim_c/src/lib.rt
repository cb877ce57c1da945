// The static library: the calls of `larsavim` exported to C, each with the clause that it has there (host/larsavim.h documents each).
#![tactic(auto)]

ghost use Rattle.std.specs.Prelude.{◌≡◌};
ghost use Rattle.label_answers.specs.Answering.{Answering};
ghost use Rattle.face_jobs.specs.Done.{jobs_done};
ghost use Rattle.load_model.specs.Load.{lent};
ghost use Rattle.larsavim.specs.Face.{Opens, Comments, Gets, Pairs, Needs, Loads, Walks, Leaves};
ghost use Rattle.larsavim.specs.Write.{Measures, Writes};
ghost use Rattle.larsavim.specs.Depths.{DepthTells};
ghost use Rattle.larsavim.specs.Sharing.{LoadShares, TreeShares, UnloadTells};
ghost use Rattle.larsavim.specs.Accepts.{AcceptTells};
ghost use Rattle.larsavim.specs.Trails.{TrailerTells, TrailedTells};
ghost use Rattle.walk_bare.specs.Bare.{BareTells};
ghost use Rattle.face_house.specs.Answers.{HouseTells};

use face_jobs::Job;

// Opens a file, with the record into the words.
#[unsafe(no_mangle)]
pub extern "C" fn larsavim_open(file: &[u8], words: &mut [u64], out: &mut [u64]) -> u64
    ensures { Opens file.now words.old out.old result words.new out.new }
{
    larsavim::larsavim_open(file, words, out)
}

// COMMENT, of a file and a fallback of so many bytes.
#[unsafe(no_mangle)]
pub extern "C" fn larsavim_comment(
    file_len: u64,
    words: &[u64],
    fallback_len: u64,
    out: &mut [u64],
) -> u64
    ensures { Comments file_len words.now fallback_len out.old result out.new }
{
    larsavim::larsavim_comment(file_len, words, fallback_len, out)
}

// A number, a count or a flag of the record.
#[unsafe(no_mangle)]
pub extern "C" fn larsavim_get(words: &[u64], field: u64, out: &mut [u64]) -> u64
    ensures { Gets words.now field out.old result out.new }
{
    larsavim::larsavim_get(words, field, out)
}

// A string or a range of the record.
#[unsafe(no_mangle)]
pub extern "C" fn larsavim_pair(words: &[u64], field: u64, out: &mut [u64]) -> u64
    ensures { Pairs words.now field out.old result out.new }
{
    larsavim::larsavim_pair(words, field, out)
}

// What a model needs, without tables.
#[unsafe(no_mangle)]
pub extern "C" fn larsavim_needs(file: &[u8], words: &[u64], which: u64, out: &mut [u64]) -> u64
    ensures { Needs file.now words.now which out.old result out.new }
{
    larsavim::larsavim_needs(file, words, which, out)
}

// Loads a model into the lent tables: the bottom task, beside nobody.
#[unsafe(no_mangle)]
pub extern "C" fn larsavim_load(
    file: &[u8],
    words: &[u64],
    which: u64,
    questions: &mut [u64],
    patterns: &mut [u64],
    trees: &mut [u64],
    records: &mut [u64],
    values: &mut [u64],
    work: &mut [i64],
    out: &mut [u64],
) -> u64
    ensures { Loads file.now words.now which (lent questions.old patterns.old trees.old records.old values.old work.old) out.old result (lent questions.new patterns.new trees.new records.new values.new work.new) out.new }
{
    larsavim::larsavim_load(
        file, words, which, questions, patterns, trees, records, values, work, out,
    )
}

// Loads a model into one task's rows of tables that two tasks share.
#[unsafe(no_mangle)]
pub extern "C" fn larsavim_load_shared(
    file: &[u8],
    words: &[u64],
    which: u64,
    side: u64,
    held: &mut [u64],
    other: &[u64],
    questions: &mut [u64],
    patterns: &mut [u64],
    trees: &mut [u64],
    records: &mut [u64],
    values: &mut [u64],
    work: &mut [i64],
    out: &mut [u64],
) -> u64
    ensures { LoadShares file.now words.now which side held.old other.now (lent questions.old patterns.old trees.old records.old values.old work.old) out.old result held.new (lent questions.new patterns.new trees.new records.new values.new work.new) out.new }
{
    larsavim::larsavim_load_shared(
        file, words, which, side, held, other, questions, patterns, trees, records, values, work,
        out,
    )
}

// Loads one tree of a model through the trailer at the file's end: all questions and patterns, one tree row, its records and its entries.
#[unsafe(no_mangle)]
pub extern "C" fn larsavim_load_tree(
    file: &[u8],
    words: &[u64],
    which: u64,
    tree: u64,
    side: u64,
    held: &mut [u64],
    other: &[u64],
    questions: &mut [u64],
    patterns: &mut [u64],
    trees: &mut [u64],
    records: &mut [u64],
    values: &mut [u64],
    work: &mut [i64],
    out: &mut [u64],
) -> u64
    ensures { TreeShares file.now words.now which tree side held.old other.now (lent questions.old patterns.old trees.old records.old values.old work.old) out.old result held.new (lent questions.new patterns.new trees.new records.new values.new work.new) out.new }
{
    larsavim::larsavim_load_tree(
        file, words, which, tree, side, held, other, questions, patterns, trees, records, values,
        work, out,
    )
}

// Zeroes one task's rows and its bounds.
#[unsafe(no_mangle)]
pub extern "C" fn larsavim_unload(
    side: u64,
    held: &mut [u64],
    other: &[u64],
    questions: &mut [u64],
    patterns: &mut [u64],
    trees: &mut [u64],
    records: &mut [u64],
    values: &mut [u64],
) -> u64
    ensures { UnloadTells side held.old other.now questions.old patterns.old trees.old records.old values.old result held.new questions.new patterns.new trees.new records.new values.new }
{
    larsavim::larsavim_unload(
        side, held, other, questions, patterns, trees, records, values,
    )
}

// Walks one tree.
#[unsafe(no_mangle)]
pub extern "C" fn larsavim_walk(
    trees: &[u64],
    records: &[u64],
    tree: u64,
    answers: &[u8],
    limit: u64,
    out: &mut [u64],
) -> u64
    ensures { Walks trees.now records.now tree answers.now limit out.old result out.new }
{
    larsavim::larsavim_walk(trees, records, tree, answers, limit, out)
}

// The leaf check: 1 for yes, 0 for no.
#[unsafe(no_mangle)]
pub extern "C" fn larsavim_leaves(
    questions: &[u64],
    trees: &[u64],
    records: &[u64],
    values: &[u64],
    width: u64,
) -> u64
    ensures { Leaves questions.now trees.now records.now values.now width result }
{
    larsavim::larsavim_leaves(questions, trees, records, values, width)
}

// Walks for each job of a lent slice, and writes how each ended where the job stands.
#[unsafe(no_mangle)]
pub extern "C" fn larsavim_walk_jobs(
    trees: &[u64],
    records: &[u64],
    answers: &[u8],
    jobs: &mut [Job],
)
    ensures { jobs.new ≡ jobs_done trees.now records.now answers.now jobs.old }
{
    larsavim::larsavim_walk_jobs(trees, records, answers, jobs)
}

// The answers to all questions for one label: one byte a question row.
#[unsafe(no_mangle)]
pub extern "C" fn larsavim_answers(
    label: &[u8],
    questions: &[u64],
    patterns: &[u64],
    data: &[u8],
    answers: &mut [u8],
) -> u64
    ensures { Answering label.now questions.now patterns.now «data».now answers.old result answers.new }
{
    larsavim::larsavim_answers(label, questions, patterns, data, answers)
}

// How long the tree text of loaded tables is.
#[unsafe(no_mangle)]
pub extern "C" fn larsavim_write_needs(
    data: &[u8],
    questions: &[u64],
    patterns: &[u64],
    trees: &[u64],
    records: &[u64],
    out: &mut [u64],
) -> u64
    ensures { Measures «data».now questions.now patterns.now trees.now records.now out.old result out.new }
{
    larsavim::larsavim_write_needs(data, questions, patterns, trees, records, out)
}

// Writes it to the front of a buffer.
#[unsafe(no_mangle)]
pub extern "C" fn larsavim_write(
    data: &[u8],
    questions: &[u64],
    patterns: &[u64],
    trees: &[u64],
    records: &[u64],
    buffer: &mut [u8],
    out: &mut [u64],
) -> u64
    ensures { Writes «data».now questions.now patterns.now trees.now records.now buffer.old out.old result buffer.new out.new }
{
    larsavim::larsavim_write(data, questions, patterns, trees, records, buffer, out)
}

// How many questions a walk of one tree can ask.
#[unsafe(no_mangle)]
pub extern "C" fn larsavim_depth(
    trees: &[u64],
    records: &[u64],
    tree: u64,
    work: &mut [i64],
    out: &mut [u64],
) -> u64
    ensures { DepthTells trees.now records.now tree work.old out.old result work.new out.new }
{
    larsavim::larsavim_depth(trees, records, tree, work, out)
}

// Whether record rows that somebody else linked belong to a tree of a tree text.
#[unsafe(no_mangle)]
pub extern "C" fn larsavim_accepts(text: &[u8], tree: u64, records: &[u64], out: &mut [u64]) -> u64
    ensures { AcceptTells text.now tree records.now out.old result out.new }
{
    larsavim::larsavim_accepts(text, tree, records, out)
}

// Writes the trailer of a file to the front of a buffer.
#[unsafe(no_mangle)]
pub extern "C" fn larsavim_trailer(
    file: &[u8],
    words: &mut [u64],
    trailer: &mut [u8],
    out: &mut [u64],
) -> u64
    ensures { TrailerTells file.now words.old trailer.old out.old result words.new trailer.new out.new }
{
    larsavim::larsavim_trailer(file, words, trailer, out)
}

// Whether a file ends in its trailer.
#[unsafe(no_mangle)]
pub extern "C" fn larsavim_trailed(file: &[u8], words: &mut [u64], out: &mut [u64]) -> u64
    ensures { TrailedTells file.now words.old out.old result words.new out.new }
{
    larsavim::larsavim_trailed(file, words, out)
}

// The walk of one tree straight over a tree text, without tables.
#[unsafe(no_mangle)]
pub extern "C" fn larsavim_bare_walk(
    text: &[u8],
    tree: u64,
    answers: &[u8],
    limit: u64,
    out: &mut [u64],
) -> u64
    ensures { BareTells text.now tree answers.now limit out.old result out.new }
{
    larsavim::larsavim_bare_walk(text, tree, answers, limit, out)
}

// Judges a voice by the house's rules, model after model in one task's rows.
#[unsafe(no_mangle)]
pub extern "C" fn larsavim_house(
    file: &[u8],
    words: &mut [u64],
    side: u64,
    held: &mut [u64],
    other: &[u64],
    questions: &mut [u64],
    patterns: &mut [u64],
    trees: &mut [u64],
    records: &mut [u64],
    values: &mut [u64],
    work: &mut [i64],
    out: &mut [u64],
) -> u64
    ensures { HouseTells file.now words.old side held.old other.now (lent questions.old patterns.old trees.old records.old values.old work.old) out.old result words.new held.new (lent questions.new patterns.new trees.new records.new values.new work.new) out.new }
{
    larsavim::larsavim_house(
        file, words, side, held, other, questions, patterns, trees, records, values, work, out,
    )
}
