// Where each field of the header record stands among the words that cross to C (host/larsavim.h names the same numbers; host/constants holds the two
// against each other), and whether words are a record at all.
#![tactic(auto)]

ghost use Rattle.std.specs.Prelude.{◌≡◌, ◌≤◌, ◌<◌, length};
ghost use Rattle.head_words.specs.Words.{is_flag, group_flags, flags_fit};

pub const WORDS: usize = 647;

// [GLOBAL]
pub const HTS_VOICE_VERSION: usize = 0;

pub const SAMPLING_FREQUENCY: usize = 2;

pub const FRAME_PERIOD: usize = 3;

pub const NUM_STATES: usize = 4;

pub const NUM_STREAMS: usize = 5;

pub const STREAM_TYPE: usize = 6;

pub const STREAM_TYPE_COUNT: usize = 22;

pub const FULLCONTEXT_FORMAT: usize = 23;

pub const FULLCONTEXT_VERSION: usize = 25;

pub const GV_OFF_CONTEXT: usize = 27;

pub const GV_OFF_CONTEXT_COUNT: usize = 91;

pub const COMMENT: usize = 92;

pub const HAS_COMMENT: usize = 94;

// [STREAM]: the groups, and the words of each
pub const STREAMS: usize = 95;

pub const STREAM_WORDS: usize = 39;

pub const STREAM_NAME: usize = 0;

pub const VECTOR_LENGTH: usize = 2;

pub const NUM_WINDOWS: usize = 3;

pub const IS_MSD: usize = 4;

pub const USE_GV: usize = 5;

pub const OPTION: usize = 6;

pub const OPTION_COUNT: usize = 38;

pub const STREAM_COUNT: usize = 407;

// [POSITION]: the duration ranges; the groups, and the words of each
pub const DURATION_PDF: usize = 408;

pub const DURATION_TREE: usize = 410;

pub const POSITIONS: usize = 412;

pub const POSITION_WORDS: usize = 29;

pub const POSITION_NAME: usize = 0;

pub const STREAM_WIN: usize = 2;

pub const STREAM_WIN_COUNT: usize = 18;

pub const STREAM_PDF: usize = 19;

pub const STREAM_TREE: usize = 21;

pub const GV_PDF: usize = 23;

pub const HAS_GV_PDF: usize = 25;

pub const GV_TREE: usize = 26;

pub const HAS_GV_TREE: usize = 28;

pub const POSITION_COUNT: usize = 644;

// [DATA]
pub const DATA_START: usize = 645;

pub const DATA_LEN: usize = 646;

// The greatest length of a file (01, 'Limits').
pub const FILE_LIMIT: usize = 16777216;

fn is_flag(x: u64) -> bool
    ensures { result ≡ is_flag x }
{
    x <= 1
}

// The four flags of group i: two in [STREAM], two in [POSITION].
fn group_flags(words: &[u64], i: usize) -> bool
    requires { (647 ≤ length words.now) × (i < 8) }
    ensures { result ≡ group_flags words.now i }
{
    let stream = STREAMS + STREAM_WORDS * i;
    let position = POSITIONS + POSITION_WORDS * i;
    if !is_flag(words[stream + IS_MSD]) {
        return false;
    }
    if !is_flag(words[stream + USE_GV]) {
        return false;
    }
    if !is_flag(words[position + HAS_GV_PDF]) {
        return false;
    }
    is_flag(words[position + HAS_GV_TREE])
}

// Whether every flag is 0 or 1.
pub fn flags_fit(words: &[u64]) -> bool
    requires { 647 ≤ length words.now }
    ensures { result ≡ flags_fit words.now }
{
    if !is_flag(words[HAS_COMMENT]) {
        return false;
    }
    for i in 0..8 {
        if !group_flags(words, i) {
            return false;
        }
    }
    true
}
