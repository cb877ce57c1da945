// After model/mod.rs, `convert_tree`: the lines of a tree, out of the text into the work (01, 'Linking and tables').
#![tactic(auto)]

ghost use Rattle.std.specs.Prelude.{◌≡◌, ◌+◌, ◌*◌, ◌≤◌, ◌<◌, ◌^◌, length};
ghost use Rattle.std.proofs.lemmas.List.Edits.{sets};
ghost use Rattle.link_order.specs.Keys.{name_key, name_at};
ghost use Rattle.link_search.specs.Index.{Index};
ghost use Rattle.tree_line.specs.Lines.{lines_at};
ghost use Rattle.tree_survey_lines.specs.Counts.{lines_counted};
ghost use Rattle.load_lines.specs.Words.{kind_of, number_of, asked_at, words_of, line_words};

use link_search::last_question;
use table_rows::{LINE_NO, LINE_NO_NUMBER, LINE_QUESTION, LINE_YES, LINE_YES_NUMBER, WORK_A_LINE};
use text_parts::{Read, part_inside};
use tree_line::{Line, LineStep, next_line};
use tree_reference::TreeIndex;
use tree_survey_lines::{LineCount, line_pdfs};

fn kind_of(index: TreeIndex) -> i64
    ensures { result ≡ kind_of index }
{
    match index {
        TreeIndex::Node(_) => 0,
        TreeIndex::Pdf(_) => 1,
    }
}

fn number_of(index: TreeIndex) -> i64
    ensures { result ≡ number_of index }
{
    match index {
        TreeIndex::Node(x) => x,
        TreeIndex::Pdf(x) => x,
    }
}

// One more than the row of the last question of a name, or 0 where no question has it.
fn asked(s: &[u8], questions: &[u64], index: &[u64], start: usize, len: usize) -> i64
    requires { Index (λ e. name_key (name_at s.now questions.now e)) index.now × (length index.now < 2 ^ 62) }
    ensures { result ≡ asked_at s.now questions.now (length index.now) start len }
{
    match last_question(
        s,
        questions,
        index,
        part_inside(s, start as u64, len as u64),
    ) {
        Some(row) => (row + 1) as i64,
        None => 0,
    }
}

// One line, from word `at` on.
fn put_line(work: &mut [i64], at: usize, line: Line, question: i64)
    requires { at + 6 ≤ length work.old }
    ensures { work.new ≡ sets work.old at (words_of line question) }
{
    let yes = line.yes;
    let no = line.no;
    let id = line.id;
    work[at] = id;
    work[at + LINE_YES] = kind_of(yes);
    work[at + LINE_YES_NUMBER] = number_of(yes);
    work[at + LINE_NO] = kind_of(no);
    work[at + LINE_NO_NUMBER] = number_of(no);
    work[at + LINE_QUESTION] = question;
}

// The lines of a tree whose first stands at `at`, into the work from its front on; and their count, so that a load reads them once.
pub fn fill_lines(
    s: &[u8],
    at: usize,
    questions: &[u64],
    index: &[u64],
    work: &mut [i64],
) -> Option<Read<LineCount>>
    requires { Index (λ e. name_key (name_at s.now questions.now e)) index.now × (length index.now < 2 ^ 62) × (6 * length (lines_at s.now at).items ≤ length work.old) }
    ensures { (result ≡ lines_counted 0 0 (lines_at s.now at)) × (work.new ≡ sets work.old 0 (line_words s.now questions.now (length index.now) (lines_at s.now at).items)) }
{
    let mut i = at;
    let mut word = 0;
    let mut n = 0;
    let mut m = 0;
    // No `for`: where the next line stands is what the reader of this one answers.
    loop {
        match next_line(s, i) {
            LineStep::Next { line, next } => {
                put_line(
                    work,
                    word,
                    line,
                    asked(s, questions, index, line.start, line.len),
                );
                word = word + WORK_A_LINE;
                n = n + 1;
                m = m + line_pdfs(line);
                i = next;
            }
            LineStep::Last { line, next } => {
                put_line(
                    work,
                    word,
                    line,
                    asked(s, questions, index, line.start, line.len),
                );
                return Some(Read {
                    value: LineCount {
                        lines: n + 1,
                        pdfs: m + line_pdfs(line),
                    },
                    next,
                });
            }
            LineStep::Broken => {
                return None;
            }
        }
    }
}
