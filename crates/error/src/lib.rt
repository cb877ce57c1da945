// After header/error.rs: why a call refuses. `Refusal` has a case for each of 01's numbers from 1 to 25 but 11, with the place that 01 gives it (one for
// linking's three, 21 to 23, with its fault), and for those of 02 that have one. 11 is retired (02, Wish 14): no input gave it, and it is not given again.
// Only this crate and the C boundary look into its cases; all others build a case or pass it on.
#![tactic(auto)]

ghost use Rattle.std.specs.Prelude.{◌≡◌};
ghost use Rattle.error.specs.Numbers.{fault_number, told_of, number_of, place_of, line_of};

// Why a tree can't be linked: what is wrong with one of its lines (01, 'Linking and tables').
#[derive(Clone, Copy)]
pub enum LinkFault {
    // 21: a line refers to an id that no line bears
    NodeRef,
    // 22: a line asks a question that isn't there
    QuestionRef,
    // 23: a tree's one reference is a node
    LoneNode,
}

impl LinkFault {
    pub fn number(self) -> u64
        ensures { result ≡ fault_number self }
    {
        match self {
            LinkFault::NodeRef => 21,
            LinkFault::QuestionRef => 22,
            LinkFault::LoneNode => 23,
        }
    }
}

// Why the lines of a tree don't link, and the first that doesn't, counted from 0.
#[derive(Clone, Copy)]
pub struct LineFault {
    pub fault: LinkFault,
    pub line: usize,
}

// A place is a file offset, that of 17 an offset into the data (02, Wish 2); `tree` and `line` are counted from 0.
#[derive(Clone, Copy)]
pub enum Refusal {
    // 1: the file doesn't split into its four sections
    Split,
    // 2: a header section is no UTF-8; the start of the first bad sequence
    Utf8(usize),
    // 3: unexpected end of input; the end of the section or group value
    Eof(usize),
    // 4: expected bool (0 or 1)
    ExpectedBool(usize),
    // 5: expected integer value
    ExpectedInteger(usize),
    // 6: expected comma as an array delimiter
    ExpectedArrayComma(usize),
    // 7: expected colon as map delimiter
    ExpectedMapColon(usize),
    // 8: expected newline as map delimiter
    ExpectedMapNewline(usize),
    // 9: a field is missing or stands twice, or a pair has fewer than two numbers
    Field,
    // 10: a header number is 2^64 or more; its first digit
    Number(usize),
    // 12: a limit is exceeded
    Limit,
    // 13: a stream's name has no entry in [POSITION], or there is no such stream
    NoPosition,
    // 14: a stream's name has no entry in [STREAM]
    NoStream,
    // 15: GV is asked for, and the stream uses none or lacks its tree or PDF
    UseGv,
    // 16: a range, or the header record itself, doesn't fit the file
    Range,
    // 17: tree text outside the grammar; where it breaks, counted from the first data byte
    Text(usize),
    // 18: a tree's state is negative
    State,
    // 19: the length of a PDF block is wrong
    Block,
    // 20: a lent table or the work is smaller than needed
    Room,
    // 21 to 23: a tree can't be linked
    Unlinked {
        fault: LinkFault,
        tree: usize,
        line: usize,
    },
    // 24: the walk's tables, tree or answers don't fit
    WalkTable,
    // 25: the walk's limit is met
    Steps,
    // 26: no room for a trailer, or too few data bytes for one (02, Wish 7)
    NoTrailer,
    // 27: the trailer's sum differs
    TrailerSum,
    // 28: the trailer's rows are not the text's
    TrailerRows,
    // 29: the task already holds a model (02, Wish 9)
    Held,
    // 37: record rows that don't belong to the tree (02, Wish 13)
    OtherRows,
}

// What a refusal says in numbers: 01's number; the place, an offset or the tree of 21 to 23, 0 where there is none; the line of 21 to 23, else 0.
#[derive(Clone, Copy)]
pub struct Told {
    pub number: u64,
    pub place: usize,
    pub line: usize,
}

fn says(number: u64, place: usize, line: usize) -> Told
    ensures { result ≡ (record { number = number; place = place; line = line }) }
{
    Told {
        number,
        place,
        line,
    }
}

impl Refusal {
    pub fn told(self) -> Told
        ensures { result ≡ told_of self }
    {
        match self {
            Refusal::Split => says(1, 0, 0),
            Refusal::Utf8(at) => says(2, at, 0),
            Refusal::Eof(at) => says(3, at, 0),
            Refusal::ExpectedBool(at) => says(4, at, 0),
            Refusal::ExpectedInteger(at) => says(5, at, 0),
            Refusal::ExpectedArrayComma(at) => says(6, at, 0),
            Refusal::ExpectedMapColon(at) => says(7, at, 0),
            Refusal::ExpectedMapNewline(at) => says(8, at, 0),
            Refusal::Field => says(9, 0, 0),
            Refusal::Number(at) => says(10, at, 0),
            Refusal::Limit => says(12, 0, 0),
            Refusal::NoPosition => says(13, 0, 0),
            Refusal::NoStream => says(14, 0, 0),
            Refusal::UseGv => says(15, 0, 0),
            Refusal::Range => says(16, 0, 0),
            Refusal::Text(at) => says(17, at, 0),
            Refusal::State => says(18, 0, 0),
            Refusal::Block => says(19, 0, 0),
            Refusal::Room => says(20, 0, 0),
            Refusal::Unlinked { fault, tree, line } => says(fault.number(), tree, line),
            Refusal::WalkTable => says(24, 0, 0),
            Refusal::Steps => says(25, 0, 0),
            Refusal::NoTrailer => says(26, 0, 0),
            Refusal::TrailerSum => says(27, 0, 0),
            Refusal::TrailerRows => says(28, 0, 0),
            Refusal::Held => says(29, 0, 0),
            Refusal::OtherRows => says(37, 0, 0),
        }
    }

    pub fn number(self) -> u64
        ensures { result ≡ number_of self }
    {
        self.told().number
    }

    pub fn place(self) -> usize
        ensures { result ≡ place_of self }
    {
        self.told().place
    }

    pub fn line(self) -> usize
        ensures { result ≡ line_of self }
    {
        self.told().line
    }
}
