// Whether the header record that words hold fits a file: 16 for the record (01, 'Numbers the loader gives'; docs/DECISIONS.md, 'The record'). A caller may
// hand in any words, also those that no opening made, so nothing of them is trusted: counts come first, then the strings that they count, all in exact
// numbers. The words are judged where they stand (`head_words` says where), for the record itself is large.
#![tactic(auto)]

ghost use Rattle.std.specs.Prelude.{◌≡◌, ◌+◌, ◌*◌, ◌≤◌, length};
ghost use Rattle.head_record_fits.specs.Fits.{span_fits, counted, global_fits, stream_fits, position_fits, record_fits};
ghost use Rattle.head_words.specs.Words.{word_at, span_at, spans_at, global_at, stream_at, position_at, streams_at, positions_at, header_at};

use head_words::{
    COMMENT, DATA_START, FILE_LIMIT, FULLCONTEXT_FORMAT, FULLCONTEXT_VERSION, GV_OFF_CONTEXT,
    GV_OFF_CONTEXT_COUNT, HAS_COMMENT, HTS_VOICE_VERSION, OPTION, OPTION_COUNT, POSITION_COUNT,
    POSITION_WORDS, POSITIONS, STREAM_COUNT, STREAM_TYPE, STREAM_TYPE_COUNT, STREAM_WIN_COUNT,
    STREAM_WORDS, STREAMS,
};

// Whether the part that stands at a place ends inside a file of n bytes.
fn span_fits(n: usize, words: &[u64], at: usize) -> bool
    requires { at + 2 ≤ length words.now }
    ensures { result ≡ span_fits n (span_at words.now at) }
{
    let start = words[at] as usize;
    if n < start {
        return false;
    }
    words[at + 1] as usize <= n - start
}

// The first `count` strings of a list: STREAM_TYPE, GV_OFF_CONTEXT or OPTION. False too where the list has no room for so many.
fn spans_fit(n: usize, words: &[u64], at: usize, count: usize, limit: usize) -> bool
    requires { at + 2 * limit ≤ length words.now }
    ensures { result ≡ counted limit (span_fits n) count (spans_at limit words.now at) }
{
    if limit < count {
        return false;
    }
    for k in (0..count).rev() {
        if !span_fits(n, words, at + 2 * k) {
            return false;
        }
    }
    true
}

// COMMENT is looked at only where it is present.
fn global_fits(n: usize, words: &[u64]) -> bool
    requires { 647 ≤ length words.now }
    ensures { result ≡ global_fits n (global_at words.now 0) }
{
    if !span_fits(n, words, HTS_VOICE_VERSION) {
        return false;
    }
    if !span_fits(n, words, FULLCONTEXT_FORMAT) {
        return false;
    }
    if !span_fits(n, words, FULLCONTEXT_VERSION) {
        return false;
    }
    if !spans_fit(n, words, STREAM_TYPE, words[STREAM_TYPE_COUNT] as usize, 8) {
        return false;
    }
    if !spans_fit(
        n,
        words,
        GV_OFF_CONTEXT,
        words[GV_OFF_CONTEXT_COUNT] as usize,
        32,
    ) {
        return false;
    }
    if words[HAS_COMMENT] == 0 {
        return true;
    }
    span_fits(n, words, COMMENT)
}

fn stream_fits(n: usize, words: &[u64], at: usize) -> bool
    requires { at + 39 ≤ length words.now }
    ensures { result ≡ stream_fits n (stream_at words.now at) }
{
    if !span_fits(n, words, at) {
        return false;
    }
    spans_fit(n, words, at + OPTION, words[at + OPTION_COUNT] as usize, 16)
}

fn streams_fit(n: usize, words: &[u64]) -> bool
    requires { 647 ≤ length words.now }
    ensures { result ≡ counted 8 (stream_fits n) (word_at words.now 407) (streams_at words.now 95) }
{
    let count = words[STREAM_COUNT] as usize;
    if 8 < count {
        return false;
    }
    for k in (0..count).rev() {
        if !stream_fits(n, words, STREAMS + STREAM_WORDS * k) {
            return false;
        }
    }
    true
}

// Ranges are judged where they are used.
fn position_fits(n: usize, words: &[u64], at: usize) -> bool
    requires { at + 29 ≤ length words.now }
    ensures { result ≡ position_fits n (position_at words.now at) }
{
    if !span_fits(n, words, at) {
        return false;
    }
    words[at + STREAM_WIN_COUNT] <= 8
}

fn positions_fit(n: usize, words: &[u64]) -> bool
    requires { 647 ≤ length words.now }
    ensures { result ≡ counted 8 (position_fits n) (word_at words.now 644) (positions_at words.now 412) }
{
    let count = words[POSITION_COUNT] as usize;
    if 8 < count {
        return false;
    }
    for k in (0..count).rev() {
        if !position_fits(n, words, POSITIONS + POSITION_WORDS * k) {
            return false;
        }
    }
    true
}

// Whether the record in the words fits a file of n bytes.
pub fn record_fits(n: usize, words: &[u64]) -> bool
    requires { 647 ≤ length words.now }
    ensures { result ≡ record_fits n (header_at words.now) }
{
    if FILE_LIMIT < n {
        return false;
    }
    if !span_fits(n, words, DATA_START) {
        return false;
    }
    if !global_fits(n, words) {
        return false;
    }
    if !streams_fit(n, words) {
        return false;
    }
    positions_fit(n, words)
}
