// After parser/mod.rs, `parse_data_section` up to `parse_model`: which model is asked for, where its tree and PDF stand, and how wide it is, in 01's order
// (16 for the record, 13, 14, 15, the width's limit). Groups are found last-wins, since a record that no opening made may name one twice; no number wraps.
//
#![tactic(auto)]

ghost use Rattle.std.specs.Prelude.{◌≡◌, true, cond, ◌+◌, ◌*◌, ◌≤◌, ◌<◌, length};
ghost use Rattle.written.specs.Bytes.{same};
ghost use Rattle.text_parts.specs.Parts.{bytes_of};
ghost use Rattle.head_record_fits.specs.Fits.{record_fits};
ghost use Rattle.head_words.specs.Words.{word_at, span_at, range_at, stream_at, position_at, header_at};
ghost use Rattle.link_search.specs.Found.{last_below};
ghost use Rattle.load_choose.specs.Chosen.{bit, model_of, stream_by, usable, gv_by, made_by, position_named, stream_named, numbered, chosen_by, chosen_of, text_chosen, uses_gv, NamesIn};
ghost use Rattle.load_choose.specs.Entries.{type_name};

use error::Refusal;
use head_words::{
    DURATION_PDF, DURATION_TREE, GV_PDF, GV_TREE, HAS_GV_PDF, HAS_GV_TREE, IS_MSD, NUM_STATES,
    NUM_WINDOWS, POSITION_COUNT, POSITION_WORDS, POSITIONS, STREAM_COUNT, STREAM_PDF, STREAM_TREE,
    STREAM_TYPE, STREAM_TYPE_COUNT, STREAM_WORDS, STREAMS, USE_GV, VECTOR_LENGTH,
};
use head_words_fit::record_fits;
use load_range::{WIDTH_LIMIT, product};
use text_parts::{Span, same_part};

// The model asked for; a stream by its number in STREAM_TYPE.
#[derive(Clone, Copy)]
pub enum Which {
    Duration,
    Stream(usize),
    Gv(usize),
}

// Ranges of the data, each end included, and the numbers in an entry.
#[derive(Clone, Copy)]
pub struct Chosen {
    pub tree_from: u64,
    pub tree_to: u64,
    pub pdf_from: u64,
    pub pdf_to: u64,
    pub width: u64,
}

// The model of width 2 × a × b, and one more for MSD, whose ranges stand at two places of the words.
fn model(
    words: &[u64],
    tree: usize,
    pdf: usize,
    a: u64,
    b: u64,
    msd: bool,
) -> Result<Chosen, Refusal>
    requires { (tree + 2 ≤ length words.now) × (pdf + 2 ≤ length words.now) }
    ensures { result ≡ model_of (range_at words.now tree) (range_at words.now pdf) (2 * (a * b) + bit msd) }
{
    let width = 2 * product(a, b) + msd as u64;
    if WIDTH_LIMIT < width {
        return Err(Refusal::Limit);
    }
    Ok(Chosen {
        tree_from: words[tree],
        tree_to: words[tree + 1],
        pdf_from: words[pdf],
        pdf_to: words[pdf + 1],
        width,
    })
}

// A number of the width, or 0 where the width isn't asked for.
fn counted(measured: bool, n: u64) -> u64
    ensures { result ≡ cond measured n 0 }
{
    if measured { n } else { 0 }
}

fn stream_model(
    words: &[u64],
    stream: usize,
    position: usize,
    measured: bool,
) -> Result<Chosen, Refusal>
    requires { (stream + 39 ≤ length words.now) × (position + 29 ≤ length words.now) }
    ensures { result ≡ stream_by measured (stream_at words.now stream) (position_at words.now position) }
{
    let msd = counted(measured, words[stream + IS_MSD]);
    model(
        words,
        position + STREAM_TREE,
        position + STREAM_PDF,
        counted(measured, words[stream + VECTOR_LENGTH]),
        words[stream + NUM_WINDOWS],
        msd != 0,
    )
}

// Whether the stream uses a GV, and its tree and its PDF are there.
fn has_gv(words: &[u64], stream: usize, position: usize) -> bool
    requires { (stream + 39 ≤ length words.now) × (position + 29 ≤ length words.now) }
    ensures { result ≡ usable (stream_at words.now stream) (position_at words.now position) }
{
    if words[stream + USE_GV] == 0 {
        return false;
    }
    if words[position + HAS_GV_TREE] == 0 {
        return false;
    }
    words[position + HAS_GV_PDF] != 0
}

fn gv_model(
    words: &[u64],
    stream: usize,
    position: usize,
    measured: bool,
) -> Result<Chosen, Refusal>
    requires { (stream + 39 ≤ length words.now) × (position + 29 ≤ length words.now) }
    ensures { result ≡ gv_by measured (stream_at words.now stream) (position_at words.now position) }
{
    if !has_gv(words, stream, position) {
        return Err(Refusal::UseGv);
    }
    model(
        words,
        position + GV_TREE,
        position + GV_PDF,
        counted(measured, words[stream + VECTOR_LENGTH]),
        1,
        false,
    )
}

// The model of a stream, or its GV model, whose entries these are.
fn entries_model(
    words: &[u64],
    stream: usize,
    position: usize,
    gv: bool,
    measured: bool,
) -> Result<Chosen, Refusal>
    requires { (stream + 39 ≤ length words.now) × (position + 29 ≤ length words.now) }
    ensures { result ≡ made_by measured gv (stream_at words.now stream) (position_at words.now position) }
{
    if gv {
        return gv_model(words, stream, position, measured);
    }
    stream_model(words, stream, position, measured)
}

fn span_at(words: &[u64], at: usize) -> Span
    requires { at + 2 ≤ length words.now }
    ensures { result ≡ span_at words.now at }
{
    Span {
        start: words[at] as usize,
        len: words[at + 1] as usize,
    }
}

// The last of n groups whose name has the bytes of x. The first group begins at `at` in the words, each of the others `step` words behind the one before.
fn find_group(file: &[u8], x: Span, words: &[u64], at: usize, step: usize, n: usize) -> Option<u64>
    requires { NamesIn at step n words.now }
    ensures { result ≡ last_below (λ k. same (bytes_of file.now (span_at words.now (at + step * k))) (bytes_of file.now x)) n }
{
    for k in (0..n).rev() {
        let name = span_at(words, at + step * k);
        if same_part(file, name, x) {
            return Some(k as u64);
        }
    }
    None
}

// The entry in [POSITION] of the i-th name in STREAM_TYPE.
fn find_position(file: &[u8], words: &[u64], i: usize) -> Option<u64>
    requires in_bounds { (647 ≤ length words.now) × (i < word_at words.now 22) }
    requires words_value { record_fits (length file.now) (header_at words.now) ≡ true }
    ensures { result ≡ position_named file.now (header_at words.now).positions (header_at words.now).position_count (type_name file.now (header_at words.now) i) }
{
    find_group(
        file,
        span_at(words, STREAM_TYPE + 2 * i),
        words,
        POSITIONS,
        POSITION_WORDS,
        words[POSITION_COUNT] as usize,
    )
}

// Its entry in [STREAM].
fn find_stream(file: &[u8], words: &[u64], i: usize) -> Option<u64>
    requires in_bounds { (647 ≤ length words.now) × (i < word_at words.now 22) }
    requires words_value { record_fits (length file.now) (header_at words.now) ≡ true }
    ensures { result ≡ stream_named file.now (header_at words.now).streams (header_at words.now).stream_count (type_name file.now (header_at words.now) i) }
{
    find_group(
        file,
        span_at(words, STREAM_TYPE + 2 * i),
        words,
        STREAMS,
        STREAM_WORDS,
        words[STREAM_COUNT] as usize,
    )
}

// The model, or the GV model, of the i-th name in STREAM_TYPE.
fn choose_stream(
    file: &[u8],
    words: &[u64],
    i: usize,
    gv: bool,
    measured: bool,
) -> Result<Chosen, Refusal>
    requires in_bounds { 647 ≤ length words.now }
    requires words_value { record_fits (length file.now) (header_at words.now) ≡ true }
    ensures { result ≡ numbered (made_by measured gv) file.now (header_at words.now) i }
{
    if words[STREAM_TYPE_COUNT] <= i as u64 {
        return Err(Refusal::NoPosition);
    }
    match find_position(file, words, i) {
        None => Err(Refusal::NoPosition),
        Some(p) => match find_stream(file, words, i) {
            None => Err(Refusal::NoStream),
            Some(k) => {
                let position = POSITIONS + POSITION_WORDS * p as usize;
                let stream = STREAMS + STREAM_WORDS * k as usize;
                entries_model(words, stream, position, gv, measured)
            }
        },
    }
}

// The model asked for, of a file and the words of any record; its width is 0, and has no limit, unless it is asked for.
fn place(file: &[u8], words: &[u64], which: Which, measured: bool) -> Result<Chosen, Refusal>
    requires { 647 ≤ length words.now }
    ensures { result ≡ chosen_by measured file.now (header_at words.now) which }
{
    if !record_fits(file.len(), words) {
        return Err(Refusal::Range);
    }
    match which {
        Which::Duration => model(
            words,
            DURATION_TREE,
            DURATION_PDF,
            counted(measured, words[NUM_STATES]),
            1,
            false,
        ),
        Which::Stream(i) => choose_stream(file, words, i, false, measured),
        Which::Gv(i) => choose_stream(file, words, i, true, measured),
    }
}

// The model asked for, of a file and the words of any record.
pub fn choose(file: &[u8], words: &[u64], which: Which) -> Result<Chosen, Refusal>
    requires { 647 ≤ length words.now }
    ensures { result ≡ chosen_of file.now (header_at words.now) which }
{
    place(file, words, which, true)
}

// Where its text stands, however wide it is (02, Wish 7).
pub fn choose_text(file: &[u8], words: &[u64], which: Which) -> Result<Chosen, Refusal>
    requires { 647 ≤ length words.now }
    ensures { result ≡ text_chosen file.now (header_at words.now) which }
{
    place(file, words, which, false)
}

// Whether the stream of the i-th name uses a GV; no stream of that name uses none.
pub fn uses_gv(file: &[u8], words: &[u64], i: usize) -> bool
    requires in_bounds { (647 ≤ length words.now) × (i < word_at words.now 22) }
    requires words_value { record_fits (length file.now) (header_at words.now) ≡ true }
    ensures { result ≡ uses_gv file.now (header_at words.now) i }
{
    match find_stream(file, words, i) {
        None => false,
        Some(k) => words[STREAMS + STREAM_WORDS * k as usize + USE_GV] != 0,
    }
}
