// After header/mod.rs and deserialize_hashmap.rs: the groups of [POSITION] by first appearance, and the limits on their counts (01, 'What the loader
// covers', 'Header text'). The first 8 groups are kept, in the words of the record; a row of a later one has its group read anew, for its faults alone.
#![tactic(auto)]

ghost use Rattle.std.specs.Prelude.{◌≡◌, ◌≤◌, length};
ghost use Rattle.head_brackets.specs.Rows.{rows_at, over, last_of};
ghost use Rattle.head_words.specs.Words.{Zeros};
ghost use Rattle.head_positions.specs.Groups.{no_positions, with_group, groups_in, words_in};

use error::Refusal;
use head_brackets::{Names, RowAt, row_at};
use head_de::Cursor;
use head_group_words::{judge, known};
use head_position::read_group;
use head_put::{put_all, put1};
use head_record::PositionData;
use head_words::{POSITION_COUNT, POSITION_WORDS, POSITIONS, STREAM_WIN_COUNT};

// The groups as the contract speaks of them: their names, and what the first 8 say.
#[derive(Clone, Copy)]
pub struct Positions {
    pub names: Names,
    pub items: [PositionData; 8],
}

// The groups, as contracts speak of them; where they are refused, none. No Result: `open_of` names the parts, whatever the verdict.
#[derive(Clone, Copy)]
pub struct GroupsRead {
    pub verdict: Result<(), Refusal>,
    pub positions: Positions,
}

// The groups of the section whose text runs from `start` to the end of s, and whose lines are whole, into the words of the record; where one is refused,
// those before it.
pub fn read_groups(s: &[u8], start: usize, words: &mut [u64]) -> Result<(), Refusal>
    requires { (645 ≤ length words.old) × Zeros words.old 412 232 }
    ensures { (result ≡ (groups_in (over (with_group s.now start) no_positions (rows_at s.now start))).verdict) × (words.new ≡ words_in words.old (over (with_group s.now start) no_positions (rows_at s.now start)) (last_of (with_group s.now start) no_positions (rows_at s.now start))) }
{
    let mut at = Cursor { at: start };
    let mut n = 0;
    loop {
        match row_at(at, s) {
            RowAt::Found(row) => {
                at = Cursor { at: row.end };
                let name = row.name;
                if !known(s, words, POSITIONS, POSITION_WORDS, n, name) {
                    // A ninth is read for its faults alone.
                    let mut item: [u64; 29] = [0; 29];
                    read_group(s, start, name, &mut item)?;
                    if n < 8 {
                        put_all(words, POSITIONS + POSITION_WORDS * n, &item);
                        n = n + 1;
                    } else {
                        n = 9;
                    }
                }
            }
            RowAt::Other(next) => {
                at = next;
            }
            RowAt::End => {
                put1(words, POSITION_COUNT, n as u64);
                return judge(words, POSITIONS + STREAM_WIN_COUNT, POSITION_WORDS, 8, n);
            }
        }
    }
}
