// The end of a trailer (02, Wish 7): whether there is room for one, the three numbers behind its rows, and whether a file's last four bytes are the sum of every earlier one.
#![tactic(auto)]

ghost use Rattle.std.specs.Prelude.{◌≡◌, [], ◌∷◌, ◌++◌, ◌+◌, ◌*◌, ◌≤◌, length, take};
ghost use Rattle.std.proofs.lemmas.List.Edits.{sets};
ghost use Rattle.written.specs.Blocks.{little_endian};
ghost use Rattle.written.specs.Trailer.{sum32};
ghost use Rattle.trail_last.specs.Last.{has_room, summed_of};

use head_words::FILE_LIMIT;
use pdf_blocks::word;
use trail_bytes::{put_words, sum_on};

// The bytes of a row.
const ROW: usize = 12;

// Whether a trailer of so many bytes fits the buffer, and the file with it its limit.
pub fn has_room(bytes: usize, buffer: usize, file: usize) -> bool
    ensures { result ≡ has_room bytes buffer file }
{
    if buffer < bytes {
        return false;
    }
    if FILE_LIMIT < file {
        return false;
    }
    bytes <= FILE_LIMIT - file
}

// The three numbers behind n rows: their count, where they begin, and the sum of every earlier byte.
pub fn put_last(file: &[u8], trailer: &mut [u8], n: usize)
    requires { 12 * n + 12 ≤ length trailer.old }
    ensures { trailer.new ≡ sets trailer.old (12 * n) (little_endian (n ∷ length file.now ∷ sum32 (file.now ++ (take (12 * n) trailer.old ++ little_endian (n ∷ length file.now ∷ []))) ∷ [])) }
{
    let at = ROW * n;
    let begin = file.len() as u64;
    put_words(trailer, at, n as u64, begin, 0);
    let sum = sum_on(sum_on(0, file, file.len()), trailer, at + 8);
    put_words(trailer, at, n as u64, begin, sum as u64);
}

// Whether the last four bytes are the sum of every earlier one.
pub fn summed(file: &[u8]) -> bool
    requires { 4 ≤ length file.now }
    ensures { result ≡ summed_of file.now }
{
    let end = file.len() - 4;
    word(file, end) == sum_on(0, file, end)
}
