// The models of a voice, one after the other, and the text of each, without its block and its width (02, Wishes 7 and 11): 16 for the record, 13 to 15, tree 16,
// 17, 18. Nothing lent is written.
#![tactic(auto)]

ghost use Rattle.std.specs.Prelude.{◌≡◌, true, ◌≤◌, ◌<◌, length};
ghost use Rattle.head_record_fits.specs.Fits.{record_fits};
ghost use Rattle.head_words.specs.Words.{header_at};
ghost use Rattle.load_voice.specs.Voice.{next_stream, next_model, text_in, voice_text, InTypes};

use error::Refusal;
use head_words::STREAM_TYPE_COUNT;
use load_choose::{Which, choose_text, uses_gv};
use load_plan::{data_of, read_text};
use load_range::within;
use text_parts::up_to;

// A model's tree text: from `text` up to `text_end` of the data, its trees from `first` on.
#[derive(Clone, Copy)]
pub struct VoiceText {
    pub text: usize,
    pub text_end: usize,
    pub first: usize,
    pub trees: usize,
}

// The i-th stream, if there is one.
fn stream_or_end(words: &[u64], i: usize) -> Option<Which>
    requires { 647 ≤ length words.now }
    ensures { result ≡ next_stream (header_at words.now) i }
{
    if (i as u64) < words[STREAM_TYPE_COUNT] {
        return Some(Which::Stream(i));
    }
    None
}

// The model behind one of a voice: a stream's GV where it uses one, else the next stream.
pub fn next_model(file: &[u8], words: &[u64], which: Which) -> Option<Which>
    requires in_bounds { (647 ≤ length words.now) × InTypes (header_at words.now) which }
    requires words_value { record_fits (length file.now) (header_at words.now) ≡ true }
    ensures { result ≡ next_model file.now (header_at words.now) which }
{
    match which {
        Which::Duration => stream_or_end(words, 0),
        Which::Stream(i) => {
            if uses_gv(file, words, i) {
                return Some(Which::Gv(i));
            }
            stream_or_end(words, i + 1)
        }
        Which::Gv(i) => stream_or_end(words, i + 1),
    }
}

// The text in a range of the data.
fn text_in(d: &[u8], from: u64, to: u64) -> Result<VoiceText, Refusal>
    ensures { result ≡ text_in d.now from to }
{
    let range = within(from, to, d.len()).ok_or(Refusal::Range)?;
    let text = read_text(up_to(d, range.end), range.start)?;
    Ok(VoiceText {
        text: range.start,
        text_end: range.end,
        first: text.first,
        trees: text.trees,
    })
}

// The text of a model, of a file and the words of any record.
pub fn model_text(file: &[u8], words: &[u64], which: Which) -> Result<VoiceText, Refusal>
    requires { 647 ≤ length words.now }
    ensures { result ≡ voice_text file.now (header_at words.now) which }
{
    let chosen = choose_text(file, words, which)?;
    text_in(data_of(file, words), chosen.tree_from, chosen.tree_to)
}
