// Opening in numbers (host/larsavim.h). Any file, any words.
#![tactic(auto)]

ghost use Rattle.std.specs.Prelude.{◌≡◌, length};
ghost use Rattle.error.specs.Numbers.{number_of, place_of};
ghost use Rattle.face_record.specs.Answers.{said};
ghost use Rattle.face_open.specs.Answers.{open_said, open_words};

use error::Refusal;
use face_record::Said;
use head_open::open;
use head_put::put_all;
use head_words::WORDS;

fn refused(refusal: Refusal) -> Said
    ensures { result ≡ said (number_of refusal) (place_of refusal) }
{
    Said {
        number: refusal.number(),
        place: refusal.place() as u64,
    }
}

// Opens a file, with the record into the words; too few words is 20, after every refusal of the file.
// What the file says is kept apart until all of it is accepted: a refusal changes no word.
pub fn open_words(file: &[u8], words: &mut [u64]) -> Said
    ensures { (result ≡ open_said file.now (length words.old)) × (words.new ≡ open_words file.now words.old) }
{
    let mut record: [u64; 647] = [0; 647];
    match open(file, &mut record) {
        Err(refusal) => refused(refusal),
        Ok(()) => {
            if words.len() < WORDS {
                return Said {
                    number: 20,
                    place: 0,
                };
            }
            put_all(words, 0, &record);
            Said {
                number: 0,
                place: 0,
            }
        }
    }
}
