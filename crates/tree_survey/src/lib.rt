// The survey of a whole tree text (01, 'Tree text'): whether it is in the grammar (17) and its states are not negative (18), and what it needs of each table.
// It reads the text once, by the readers that a load fills its tables with. The text is a prefix of the data, read from `at` on.
// Every function takes any bytes and any place, also one past the end. A place is an index into the slice.
#![tactic(auto)]

ghost use Rattle.std.specs.Prelude.{◌≡◌, false, ◌||◌};
ghost use Rattle.laws.specs.Totals.{larger};
ghost use Rattle.tree_body.specs.Trees.{head_at, tree_step_at, trees_at};
ghost use Rattle.tree_survey.specs.Survey.{negative, head_counted, tree_surveyed, trees_counted, survey_at};

use text_parts::Read;
use tree_body::{TreeHead, TreeStep, after_tree, tree_head};
use tree_survey_lines::survey_lines;
use tree_survey_questions::survey_questions;

// What a tree needs, and the place past it.
#[derive(Clone, Copy)]
pub struct TreeCount {
    pub negative: bool,
    pub records: usize,
    pub lines: usize,
}

// The same, and where the next tree stands; or the text's last; or the start of the one that doesn't fit, or of other text behind a tree.
#[derive(Clone, Copy)]
pub enum TreeSurvey {
    Next {
        negative: bool,
        records: usize,
        lines: usize,
        next: usize,
    },
    Last {
        negative: bool,
        records: usize,
        lines: usize,
    },
    Broken(usize),
}

// All trees; `lines` is that of the longest.
#[derive(Clone, Copy)]
pub struct Trees {
    pub negative: bool,
    pub trees: usize,
    pub records: usize,
    pub lines: usize,
}

// A whole text.
#[derive(Clone, Copy)]
pub struct Survey {
    pub questions: usize,
    pub patterns: usize,
    pub trees: usize,
    pub records: usize,
    pub lines: usize,
}

// Why a text has no counts: where it breaks off, or that a state is negative.
#[derive(Clone, Copy)]
pub enum SurveyError {
    Broken(usize),
    Negative,
}

fn is_negative(state: i64) -> bool
    ensures { result ≡ negative state }
{
    state < 0
}

fn larger_of(m: usize, n: usize) -> usize
    ensures { result ≡ larger m n }
{
    if m < n { n } else { m }
}

fn either(a: bool, b: bool) -> bool
    ensures { result ≡ a || b }
{
    a || b
}

// The tree at `at`, without what follows it.
fn count_tree(s: &[u8], at: usize) -> Option<Read<TreeCount>>
    ensures { result ≡ head_counted s.now (head_at s.now at) }
{
    match tree_head(s, at) {
        // a bare leaf; where it is a node, linking refuses it, and it asks for no more room than a leaf
        TreeHead::Lone {
            state,
            index: _,
            next,
        } => Some(Read {
            value: TreeCount {
                negative: is_negative(state),
                records: 1,
                lines: 0,
            },
            next,
        }),
        TreeHead::Empty { state, next } => Some(Read {
            value: TreeCount {
                negative: is_negative(state),
                records: 0,
                lines: 0,
            },
            next,
        }),
        TreeHead::Lines { state, first } => {
            let body = survey_lines(s, first)?;
            Some(Read {
                value: TreeCount {
                    negative: is_negative(state),
                    records: body.value.records,
                    lines: body.value.lines,
                },
                next: body.next,
            })
        }
        TreeHead::NoTree => None,
    }
}

// The tree at `at`, and whether another follows it.
pub fn survey_tree(s: &[u8], at: usize) -> TreeSurvey
    ensures { result ≡ tree_surveyed (tree_step_at s.now at) }
{
    match count_tree(s, at) {
        Some(tree) => match after_tree(s, tree.next) {
            TreeStep::Next(next) => TreeSurvey::Next {
                negative: tree.value.negative,
                records: tree.value.records,
                lines: tree.value.lines,
                next,
            },
            TreeStep::End => TreeSurvey::Last {
                negative: tree.value.negative,
                records: tree.value.records,
                lines: tree.value.lines,
            },
            TreeStep::Broken(other) => TreeSurvey::Broken(other),
        },
        None => TreeSurvey::Broken(at),
    }
}

// The trees from the first one's place on.
pub fn survey_trees(s: &[u8], at: usize) -> Result<Trees, usize>
    ensures { result ≡ trees_counted false 0 0 0 (trees_at s.now at) }
{
    let mut i = at;
    let mut below = false;
    let mut n = 0;
    let mut m = 0;
    let mut longest = 0;
    // No `for`: where the next tree stands is what the reader of this one answers.
    loop {
        match survey_tree(s, i) {
            TreeSurvey::Next {
                negative,
                records,
                lines,
                next,
            } => {
                below = either(below, negative);
                n = n + 1;
                m = m + records;
                longest = larger_of(longest, lines);
                i = next;
            }
            TreeSurvey::Last {
                negative,
                records,
                lines,
            } => {
                return Ok(Trees {
                    negative: either(below, negative),
                    trees: n + 1,
                    records: m + records,
                    lines: larger_of(longest, lines),
                });
            }
            TreeSurvey::Broken(place) => {
                return Err(place);
            }
        }
    }
}

// A whole text, from `at` on.
pub fn survey_text(s: &[u8], at: usize) -> Result<Survey, SurveyError>
    ensures { result ≡ survey_at s.now at }
{
    match survey_questions(s, at) {
        Ok(asked) => match survey_trees(s, asked.next) {
            Ok(all) => {
                if all.negative {
                    Err(SurveyError::Negative)
                } else {
                    Ok(Survey {
                        questions: asked.value.questions,
                        patterns: asked.value.patterns,
                        trees: all.trees,
                        records: all.records,
                        lines: all.lines,
                    })
                }
            }
            Err(place) => Err(SurveyError::Broken(place)),
        },
        Err(place) => Err(SurveyError::Broken(place)),
    }
}
