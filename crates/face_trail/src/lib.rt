// The calls on a voice's trailer, their answers in numbers (02, Wish 7; host/larsavim.h): writing one into a lent buffer, and reading the one that a file ends in.
// Both open the file themselves, with the record into the words as `larsavim_open` has it. Any file, any words, any buffer.
#![tactic(auto)]

ghost use Rattle.std.specs.Prelude.{◌≡◌, ◌+◌, ◌-◌, ◌*◌, ◌≤◌, length, Ok};
ghost use Rattle.head_words.specs.Words.{header_at};
ghost use Rattle.load_voice.specs.Voice.{models_of};
ghost use Rattle.trail_voice.specs.Voice.{voice_trees};
ghost use Rattle.face_open.specs.Answers.{open_words};
ghost use Rattle.face_trail.specs.Answers.{written_of, written_left, trailer_said, trailer_left, rows_found, found_of, trailed_said};

use face_open::open_words;
use load_plan::data_of;
use pdf_blocks::word;
use trail_last::{has_room, put_last, summed};
use trail_voice::{count_trees, put_voice, same_voice};

// The bytes of a row, and of the three numbers at the very end.
const ROW: usize = 12;

const LAST: usize = 12;

// 01's number, its place, and the bytes of the trailer. An exported call hands it to C number by number.
#[repr(C)]
#[derive(Clone, Copy)]
pub struct Written {
    pub number: u64,
    pub place: u64,
    pub bytes: u64,
}

// 01's number, its place, the rows of the trailer, and where they begin. An exported call hands it to C number by number.
#[repr(C)]
#[derive(Clone, Copy)]
pub struct Found {
    pub number: u64,
    pub place: u64,
    pub rows: u64,
    pub begin: u64,
}

// The trailer of a file that opened.
fn write_opened(file: &[u8], words: &[u64], trailer: &mut [u8]) -> Written
    requires { 647 ≤ length words.now }
    ensures { (result ≡ written_of file.now (header_at words.now) (length trailer.old)) × (trailer.new ≡ written_left file.now (header_at words.now) trailer.old) }
{
    match count_trees(file, words) {
        Err(refusal) => Written {
            number: refusal.number(),
            place: refusal.place() as u64,
            bytes: 0,
        },
        Ok(n) => {
            let bytes = ROW * n + LAST;
            if has_room(bytes, trailer.len(), file.len()) {
                put_voice(file, words, trailer);
                put_last(file, trailer, n);
                return Written {
                    number: 0,
                    place: 0,
                    bytes: bytes as u64,
                };
            }
            Written {
                number: 26,
                place: 0,
                bytes: bytes as u64,
            }
        }
    }
}

// Writes the trailer of a file to the front of a buffer.
pub fn trailer_said(file: &[u8], words: &mut [u64], trailer: &mut [u8]) -> Written
    ensures { (result ≡ trailer_said file.now words.old (length trailer.old)) × (words.new ≡ open_words file.now words.old) × (trailer.new ≡ trailer_left file.now words.old trailer.old) }
{
    let said = open_words(file, words);
    if said.number != 0 {
        return Written {
            number: said.number,
            place: said.place,
            bytes: 0,
        };
    }
    write_opened(file, words, trailer)
}

fn not_found(number: u64, place: u64) -> Found
    ensures { result ≡ (record { number = number; place = place; rows = 0; begin = 0 }) }
{
    Found {
        number,
        place,
        rows: 0,
        begin: 0,
    }
}

// Whether the rows of a voice of n trees end where the last three numbers begin, and are the text's.
fn find_rows(file: &[u8], words: &[u64], n: usize) -> Found
    requires in_bounds { (647 ≤ length words.now) × (12 ≤ length file.now) }
    requires n_value { Ok n ≡ voice_trees file.now (header_at words.now) (models_of file.now (header_at words.now)) 0 }
    ensures { result ≡ rows_found file.now (header_at words.now) n }
{
    let end = file.len() - LAST;
    if word(file, end) as usize != n {
        return not_found(28, 0);
    }
    let begin = word(file, end + 4) as usize;
    if begin + ROW * n != end {
        return not_found(28, 0);
    }
    if same_voice(file, words, begin) {
        return Found {
            number: 0,
            place: 0,
            rows: n as u64,
            begin: begin as u64,
        };
    }
    not_found(28, 0)
}

// The trailer that a file ends in, of one that opened.
fn find_opened(file: &[u8], words: &[u64]) -> Found
    requires { 647 ≤ length words.now }
    ensures { result ≡ found_of file.now (header_at words.now) }
{
    if data_of(file, words).len() < LAST {
        return not_found(26, 0);
    }
    if !summed(file) {
        return not_found(27, 0);
    }
    match count_trees(file, words) {
        Err(refusal) => not_found(refusal.number(), refusal.place() as u64),
        Ok(n) => find_rows(file, words, n),
    }
}

// Reads the trailer that a file ends in.
pub fn trailed_said(file: &[u8], words: &mut [u64]) -> Found
    ensures { (result ≡ trailed_said file.now words.old) × (words.new ≡ open_words file.now words.old) }
{
    let said = open_words(file, words);
    if said.number != 0 {
        return not_found(said.number, said.place);
    }
    find_opened(file, words)
}
