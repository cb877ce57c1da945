// The survey of a tree's lines: how many there are, and how many records they need (01, 'Linking and tables').
// A tree needs a record for each line and each PDF reference. One line with equal references is a bare leaf and needs one; where these are nodes, linking
// refuses the tree, and the count is one too, so that it asks for no more room than any tree of one line that links.
// Every function takes any bytes and any place, also one past the end. A place is an index into the slice.
#![tactic(auto)]

ghost use Rattle.std.specs.Prelude.{◌≡◌};
ghost use Rattle.tree_line.specs.Lines.{lines_at};
ghost use Rattle.tree_survey_lines.specs.Counts.{line_pdfs, line_records, lines_counted, lines_surveyed};

use text_parts::Read;
use tree_line::{Line, LineStep, next_line};
use tree_reference::{pdf_count, same_index};

// How many lines there are, how many of their references are PDFs, and the place past the `}` behind them.
#[derive(Clone, Copy)]
pub struct LineCount {
    pub lines: usize,
    pub pdfs: usize,
}

// A tree's lines, the records that they need, and the place past the `}` behind them.
#[derive(Clone, Copy)]
pub struct LineSurvey {
    pub lines: usize,
    pub records: usize,
}

// How many of a line's references are PDFs.
pub fn line_pdfs(line: Line) -> usize
    ensures { result ≡ line_pdfs line }
{
    let no = line.no;
    let yes = line.yes;
    pdf_count(no) + pdf_count(yes)
}

// The records of a tree that is this line alone.
fn line_records(line: Line) -> usize
    ensures { result ≡ line_records line }
{
    let no = line.no;
    let yes = line.yes;
    if same_index(no, yes) {
        1
    } else {
        1 + line_pdfs(line)
    }
}

// The lines from `at` on.
pub fn count_lines(s: &[u8], at: usize) -> Option<Read<LineCount>>
    ensures { result ≡ lines_counted 0 0 (lines_at s.now at) }
{
    let mut i = at;
    let mut n = 0;
    let mut m = 0;
    // No `for`: where the next line stands is what the reader of this one answers.
    loop {
        match next_line(s, i) {
            LineStep::Next { line, next } => {
                n = n + 1;
                m = m + line_pdfs(line);
                i = next;
            }
            LineStep::Last { line, next } => {
                return Some(Read {
                    value: LineCount {
                        lines: n + 1,
                        pdfs: m + line_pdfs(line),
                    },
                    next,
                });
            }
            LineStep::Broken => {
                return None;
            }
        }
    }
}

// The lines of a tree, from its first line's place on.
pub fn survey_lines(s: &[u8], at: usize) -> Option<Read<LineSurvey>>
    ensures { result ≡ lines_surveyed (lines_at s.now at) }
{
    match next_line(s, at) {
        LineStep::Next { line, next: second } => {
            let count = count_lines(s, second)?;
            Some(Read {
                value: LineSurvey {
                    lines: count.value.lines + 1,
                    records: count.value.lines + 1 + (count.value.pdfs + line_pdfs(line)),
                },
                next: count.next,
            })
        }
        LineStep::Last { line, next } => Some(Read {
            value: LineSurvey {
                lines: 1,
                records: line_records(line),
            },
            next,
        }),
        LineStep::Broken => None,
    }
}
