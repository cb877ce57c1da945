// After parser/mod.rs, `parse_htsvoice` up to its data: a file's bytes to the words of its header record, in 01's order, and COMMENT (01, 'Numbers the
// loader gives', 'Header text'). Each reader of a section gets the file up to the section's end, so that places are file offsets; it writes what the section
// says where the record has it (`head_words`), into words that are 0 before.
#![tactic(auto)]

ghost use Rattle.std.specs.Prelude.{◌≡◌, ◌+◌, ◌≤◌, length, replicate};
ghost use Rattle.head_words.specs.Words.{Zeros, header_at};
ghost use Rattle.head_open.specs.Open.{Inside, utf8_of, global_of, streams_of, positions_of, parts_of, open_of, comment_of};
ghost use Rattle.head_open.specs.Left.{global_left, streams_left, positions_left, parts_left, open_left};

use error::Refusal;
use head_global::read_global;
use head_positions::Positions;
use head_put::put_span;
use head_record::Header;
use head_sections::{Parts, split_sections};
use head_ungrouped::{Durations, check_lines, read_durations};
use head_words::{COMMENT, DATA_START, DURATION_PDF, FILE_LIMIT, HAS_COMMENT};
use table_put::put4;
use text_parts::{Span, part_of, up_to};
use text_utf8::check;

// What opening answers, as contracts speak of it: the record, or the refusal and beside it the empty record. No Result: theorems name `verdict` and `header`
// apart (`shown_open`, `promises`).
#[derive(Clone, Copy)]
pub struct Opened {
    pub verdict: Result<(), Refusal>,
    pub header: Header,
}

// What [POSITION] says, as contracts speak of it: the duration ranges and the groups.
#[derive(Clone, Copy)]
pub struct PositionRead {
    pub verdict: Result<(), Refusal>,
    pub durations: Durations,
    pub positions: Positions,
}

// Whether a section's text is UTF-8.
fn check_utf8(file: &[u8], x: Span) -> Result<(), Refusal>
    requires { x.start + x.len ≤ length file.now }
    ensures { result ≡ utf8_of file.now x }
{
    let start = x.start;
    match check(part_of(file, start, x.len)) {
        Ok(()) => Ok(()),
        Err(i) => Err(Refusal::Utf8(start + i)),
    }
}

// What each section says: UTF-8 first, then its lines and groups. Where it is refused, the words have what it says before the fault.
fn open_global(file: &[u8], x: Span, words: &mut [u64]) -> Result<(), Refusal>
    requires { (x.start + x.len ≤ length file.now) × ((95 ≤ length words.old) × Zeros words.old 0 95) }
    ensures { (result ≡ (global_of file.now x).verdict) × (words.new ≡ global_left file.now x words.old) }
{
    check_utf8(file, x)?;
    let end = x.start + x.len;
    read_global(up_to(file, end), x.start, words)
}

fn open_streams(file: &[u8], x: Span, words: &mut [u64]) -> Result<(), Refusal>
    requires { (x.start + x.len ≤ length file.now) × ((408 ≤ length words.old) × Zeros words.old 95 312) }
    ensures { (result ≡ (streams_of file.now x).verdict) × (words.new ≡ streams_left file.now x words.old) }
{
    check_utf8(file, x)?;
    let end = x.start + x.len;
    let s = up_to(file, end);
    check_lines(s, x.start)?;
    head_streams::read_groups(s, x.start, words)
}

fn open_positions(file: &[u8], x: Span, words: &mut [u64]) -> Result<(), Refusal>
    requires { (x.start + x.len ≤ length file.now) × ((645 ≤ length words.old) × Zeros words.old 412 232) }
    ensures { (result ≡ (positions_of file.now x).verdict) × (words.new ≡ positions_left file.now x words.old) }
{
    check_utf8(file, x)?;
    let end = x.start + x.len;
    let s = up_to(file, end);
    let durations = read_durations(s, x.start)?;
    let pdf = durations.pdf;
    let tree = durations.tree;
    put4(words, DURATION_PDF, pdf.from, pdf.to, tree.from, tree.to);
    head_positions::read_groups(s, x.start, words)
}

// The three sections in turn, and where the data stands.
fn open_parts(file: &[u8], parts: Parts, words: &mut [u64]) -> Result<(), Refusal>
    requires { Inside file.now parts × (words.old ≡ replicate 647 0) }
    ensures { (result ≡ (parts_of file.now parts).verdict) × (words.new ≡ parts_left file.now parts words.old) }
{
    open_global(file, parts.global, words)?;
    open_streams(file, parts.stream, words)?;
    open_positions(file, parts.position, words)?;
    let rest = parts.rest;
    put_span(words, DATA_START, rest);
    Ok(())
}

// Opens a file of any bytes, with the record into the words.
pub fn open(file: &[u8], words: &mut [u64]) -> Result<(), Refusal>
    requires { words.old ≡ replicate 647 0 }
    ensures { (result ≡ (open_of file.now).verdict) × (words.new ≡ open_left file.now words.old) }
{
    if FILE_LIMIT < file.len() {
        return Err(Refusal::Limit);
    }
    match split_sections(file) {
        None => Err(Refusal::Split),
        Some(parts) => open_parts(file, parts, words),
    }
}

// The value of COMMENT, a part of the file; the fallback where the key is missing, or where the record points past the file.
pub fn comment<'a>(file: &'a [u8], words: &[u64], fallback: &'a [u8]) -> &'a [u8]
    ensures { result.now ≡ comment_of file.now (header_at words.now) fallback.now }
{
    // Words past the end count as 0: fewer say that the key is missing.
    if words.len() <= HAS_COMMENT {
        return fallback;
    }
    let start = words[COMMENT] as usize;
    let len = words[COMMENT + 1] as usize;
    if words[HAS_COMMENT] == 0 {
        return fallback;
    }
    let n = file.len();
    if n < start {
        return fallback;
    }
    if n - start < len {
        return fallback;
    }
    let end = start + len;
    &file[start..end]
}
