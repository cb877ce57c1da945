// The rows that a trailer has for a whole voice (02, Wish 7): model by model, the trees of each text in order. All texts are judged and their trees counted
// before a row is stored or compared.
#![tactic(auto)]

ghost use Rattle.std.specs.Prelude.{◌≡◌, true, ◌+◌, ◌*◌, ◌≤◌, length};
ghost use Rattle.std.proofs.lemmas.List.Edits.{sets};
ghost use Rattle.written.specs.Blocks.{little_endian};
ghost use Rattle.head_record_fits.specs.Fits.{record_fits};
ghost use Rattle.head_words.specs.Words.{header_at};
ghost use Rattle.load_voice.specs.Voice.{models_of};
ghost use Rattle.trail_bytes.specs.Numbers.{same_words};
ghost use Rattle.trail_voice.specs.Voice.{which_number, model_rows, voice_rows, voice_trees, compared_as};

use error::Refusal;
use load_choose::Which;
use load_plan::data_of;
use load_voice::{model_text, next_model};
use text_parts::up_to;
use trail_rows::{put_rows, same_rows};

// The bytes of a row.
const ROW: usize = 12;

// 0 duration, 2i + 1 stream i, 2i + 2 its GV; there are at most 8 streams.
pub fn number_of(which: Which) -> u64
    requires { which_number which ≤ 16 }
    ensures { result ≡ which_number which }
{
    match which {
        Which::Duration => 0,
        Which::Stream(i) => 2 * i as u64 + 1,
        Which::Gv(i) => 2 * i as u64 + 2,
    }
}

// Counts the trees of all models, duration first: 13 to 18 for the first text that is refused.
pub fn count_trees(file: &[u8], words: &[u64]) -> Result<usize, Refusal>
    requires { 647 ≤ length words.now }
    ensures { result ≡ voice_trees file.now (header_at words.now) (models_of file.now (header_at words.now)) 0 }
{
    let mut which = Which::Duration;
    let mut n = 0;
    // No `for`: the models of a record follow one another by `next_model`.
    loop {
        let text = model_text(file, words, which)?;
        n = n + text.trees;
        match next_model(file, words, which) {
            Some(next) => {
                which = next;
            }
            None => {
                return Ok(n);
            }
        }
    }
}

// The rows of a model into a buffer, from k on; the place behind them.
fn put_model(file: &[u8], words: &[u64], which: Which, t: &mut [u8], k: usize) -> usize
    requires in_bounds { (647 ≤ length words.now) × (which_number which ≤ 16) }
    requires which_in_bounds { k + 4 * length (model_rows file.now (header_at words.now) which) ≤ length t.old }
    ensures { (result ≡ k + 4 * length (model_rows file.now (header_at words.now) which)) × (t.new ≡ sets t.old k (little_endian (model_rows file.now (header_at words.now) which))) }
{
    match model_text(file, words, which) {
        // never, where all texts were counted
        Err(_) => k,
        Ok(text) => {
            let s = up_to(data_of(file, words), text.text_end);
            put_rows(s, text.first, number_of(which), t, k);
            k + ROW * text.trees
        }
    }
}

// All rows, from the front of a buffer on.
pub fn put_voice(file: &[u8], words: &[u64], t: &mut [u8])
    requires in_bounds { 647 ≤ length words.now }
    requires words_value { record_fits (length file.now) (header_at words.now) ≡ true }
    requires words_in_bounds { 4 * length (voice_rows file.now (header_at words.now) (models_of file.now (header_at words.now))) ≤ length t.old }
    ensures { t.new ≡ sets t.old 0 (little_endian (voice_rows file.now (header_at words.now) (models_of file.now (header_at words.now)))) }
{
    let mut which = Which::Duration;
    let mut k = 0;
    // No `for`: the models of a record follow one another by `next_model`.
    loop {
        k = put_model(file, words, which, t, k);
        match next_model(file, words, which) {
            Some(next) => {
                which = next;
            }
            None => {
                return;
            }
        }
    }
}

// The place behind the rows of a model, where they stand in the file at k.
fn same_model(file: &[u8], words: &[u64], which: Which, k: usize) -> Option<usize>
    requires in_bounds { (647 ≤ length words.now) × (which_number which ≤ 16) }
    requires which_in_bounds { k + 4 * length (model_rows file.now (header_at words.now) which) ≤ length file.now }
    ensures { result ≡ compared_as (k + 4 * length (model_rows file.now (header_at words.now) which)) (same_words file.now k (model_rows file.now (header_at words.now) which)) }
{
    match model_text(file, words, which) {
        // never, where all texts were counted
        Err(_) => Some(k),
        Ok(text) => {
            let s = up_to(data_of(file, words), text.text_end);
            if same_rows(s, text.first, number_of(which), file, k) {
                return Some(k + ROW * text.trees);
            }
            None
        }
    }
}

// Whether all rows stand in the file, from `from` on.
pub fn same_voice(file: &[u8], words: &[u64], from: usize) -> bool
    requires in_bounds { 647 ≤ length words.now }
    requires words_value { record_fits (length file.now) (header_at words.now) ≡ true }
    requires words_in_bounds { from + 4 * length (voice_rows file.now (header_at words.now) (models_of file.now (header_at words.now))) ≤ length file.now }
    ensures { result ≡ same_words file.now from (voice_rows file.now (header_at words.now) (models_of file.now (header_at words.now))) }
{
    let mut which = Which::Duration;
    let mut k = from;
    // No `for`: the models of a record follow one another by `next_model`.
    loop {
        match same_model(file, words, which, k) {
            Some(next) => {
                k = next;
            }
            None => {
                return false;
            }
        }
        match next_model(file, words, which) {
            Some(next) => {
                which = next;
            }
            None => {
                return true;
            }
        }
    }
}
