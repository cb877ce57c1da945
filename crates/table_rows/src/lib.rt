// The rows of lent tables, read by name (01, 'Linking and tables'; 02, Wish 10): question (name start, length, first pattern, patterns), pattern (start, length),
// tree (state, first record, records, lines, first value, entries), record (0, question, yes, no) or (1, PDF number, 0, 0). A table has length div width rows; a rest is never read.
// What reads a row requires that it stands in its table, which `tree_there` and `record_there` tell.
#![tactic(auto)]

ghost use Rattle.std.specs.Prelude.{◌≡◌, ◌+◌, ◌<◌, ltb};
ghost use Rattle.table_rows.specs.Rows.{question_rows, pattern_rows, tree_rows, record_rows, question_there, question_start, question_len, question_first, question_patterns, pattern_start, pattern_len, tree_there, tree_state, tree_lines, record_there, records_in, tree_first, tree_records, tree_value, tree_entries, record_kind, record_question, record_pdf, record_yes, record_no};

// The numbers of a row of each table.
pub const QUESTION_ROW: usize = 4;

pub const PATTERN_ROW: usize = 2;

pub const TREE_ROW: usize = 6;

pub const RECORD_ROW: usize = 4;

// The numbers of a line in the work: its id; kind and number of yes, and of no; one more than its question's row.
pub const WORK_A_LINE: usize = 6;

pub const LINE_YES: usize = 1;

pub const LINE_YES_NUMBER: usize = 2;

pub const LINE_NO: usize = 3;

pub const LINE_NO_NUMBER: usize = 4;

pub const LINE_QUESTION: usize = 5;

// Whether there is a question q.
pub fn question_there(questions: &[u64], q: u64) -> bool
    ensures { result ≡ question_there questions.now q }
{
    q < (questions.len() / QUESTION_ROW) as u64
}

// How many rows each table has.
pub fn question_rows(questions: &[u64]) -> u64
    ensures { result ≡ question_rows questions.now }
{
    (questions.len() / QUESTION_ROW) as u64
}

pub fn pattern_rows(patterns: &[u64]) -> u64
    ensures { result ≡ pattern_rows patterns.now }
{
    (patterns.len() / PATTERN_ROW) as u64
}

pub fn tree_rows(trees: &[u64]) -> u64
    ensures { result ≡ tree_rows trees.now }
{
    (trees.len() / TREE_ROW) as u64
}

pub fn record_rows(records: &[u64]) -> u64
    ensures { result ≡ record_rows records.now }
{
    (records.len() / RECORD_ROW) as u64
}

// Whether row first + k is one of so many; the sum may be no number.
pub fn row_there(many: u64, first: u64, k: u64) -> bool
    ensures { result ≡ ltb (first + k) many }
{
    if many <= first {
        return false;
    }
    k < many - first
}

// Whether there is a tree t.
pub fn tree_there(trees: &[u64], t: u64) -> bool
    ensures { result ≡ tree_there trees.now t }
{
    t < (trees.len() / TREE_ROW) as u64
}

// Whether record k of a tree with `count` records from `first` on stands among them and in the table.
pub fn record_there(records: &[u64], first: u64, count: u64, k: u64) -> bool
    ensures { result ≡ record_there records.now first count k }
{
    let rows = (records.len() / RECORD_ROW) as u64;
    if count <= k {
        return false;
    }
    if rows <= first {
        return false;
    }
    k < rows - first
}

// How many records of such a tree stand in the table.
pub fn records_in(records: &[u64], first: u64, count: u64) -> u64
    ensures { result ≡ records_in records.now first count }
{
    let rows = (records.len() / RECORD_ROW) as u64;
    if rows <= first {
        return 0;
    }
    if count <= rows - first {
        count
    } else {
        rows - first
    }
}

// Where a question's name starts in the data.
pub fn question_start(questions: &[u64], q: u64) -> u64
    requires { q < question_rows questions.now }
    ensures { result ≡ question_start questions.now q }
{
    questions[QUESTION_ROW * (q as usize)]
}

pub fn question_len(questions: &[u64], q: u64) -> u64
    requires { q < question_rows questions.now }
    ensures { result ≡ question_len questions.now q }
{
    questions[QUESTION_ROW * (q as usize) + 1]
}

// A question's first pattern row.
pub fn question_first(questions: &[u64], q: u64) -> u64
    requires { q < question_rows questions.now }
    ensures { result ≡ question_first questions.now q }
{
    questions[QUESTION_ROW * (q as usize) + 2]
}

pub fn question_patterns(questions: &[u64], q: u64) -> u64
    requires { q < question_rows questions.now }
    ensures { result ≡ question_patterns questions.now q }
{
    questions[QUESTION_ROW * (q as usize) + 3]
}

pub fn pattern_start(patterns: &[u64], p: u64) -> u64
    requires { p < pattern_rows patterns.now }
    ensures { result ≡ pattern_start patterns.now p }
{
    patterns[PATTERN_ROW * (p as usize)]
}

pub fn pattern_len(patterns: &[u64], p: u64) -> u64
    requires { p < pattern_rows patterns.now }
    ensures { result ≡ pattern_len patterns.now p }
{
    patterns[PATTERN_ROW * (p as usize) + 1]
}

pub fn tree_state(trees: &[u64], t: u64) -> u64
    requires { t < tree_rows trees.now }
    ensures { result ≡ tree_state trees.now t }
{
    trees[TREE_ROW * (t as usize)]
}

pub fn tree_lines(trees: &[u64], t: u64) -> u64
    requires { t < tree_rows trees.now }
    ensures { result ≡ tree_lines trees.now t }
{
    trees[TREE_ROW * (t as usize) + 3]
}

pub fn tree_first(trees: &[u64], t: u64) -> u64
    requires { t < tree_rows trees.now }
    ensures { result ≡ tree_first trees.now t }
{
    trees[TREE_ROW * (t as usize) + 1]
}

pub fn tree_records(trees: &[u64], t: u64) -> u64
    requires { t < tree_rows trees.now }
    ensures { result ≡ tree_records trees.now t }
{
    trees[TREE_ROW * (t as usize) + 2]
}

// The first value of a tree's first entry.
pub fn tree_value(trees: &[u64], t: u64) -> u64
    requires { t < tree_rows trees.now }
    ensures { result ≡ tree_value trees.now t }
{
    trees[TREE_ROW * (t as usize) + 4]
}

// How many entries a tree's block has.
pub fn tree_entries(trees: &[u64], t: u64) -> u64
    requires { t < tree_rows trees.now }
    ensures { result ≡ tree_entries trees.now t }
{
    trees[TREE_ROW * (t as usize) + 5]
}

// 0 is a line, 1 a leaf.
pub fn record_kind(records: &[u64], i: u64) -> u64
    requires { i < record_rows records.now }
    ensures { result ≡ record_kind records.now i }
{
    records[RECORD_ROW * (i as usize)]
}

// The question of a line.
pub fn record_question(records: &[u64], i: u64) -> u64
    requires { i < record_rows records.now }
    ensures { result ≡ record_question records.now i }
{
    records[RECORD_ROW * (i as usize) + 1]
}

// The PDF number of a leaf.
pub fn record_pdf(records: &[u64], i: u64) -> u64
    requires { i < record_rows records.now }
    ensures { result ≡ record_pdf records.now i }
{
    records[RECORD_ROW * (i as usize) + 1]
}

pub fn record_yes(records: &[u64], i: u64) -> u64
    requires { i < record_rows records.now }
    ensures { result ≡ record_yes records.now i }
{
    records[RECORD_ROW * (i as usize) + 2]
}

pub fn record_no(records: &[u64], i: u64) -> u64
    requires { i < record_rows records.now }
    ensures { result ≡ record_no records.now i }
{
    records[RECORD_ROW * (i as usize) + 3]
}
