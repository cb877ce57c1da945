// The stages of a load before its tables are looked at (01, 'Order when loading a model'): which model, then tree 16, 17, 18, PDF 16, 19; and what
// the model needs of each table. Nothing lent is written here, so that builders can size their tables by it.
#![tactic(auto)]

ghost use Rattle.std.specs.Prelude.{◌≡◌, ◌≤◌, length, Ok};
ghost use Rattle.head_words.specs.Words.{header_at};
ghost use Rattle.load_plan.specs.Plans.{text_of, entries_of, plan_for, block_of, plan_of, data_of, planned};

use error::Refusal;
use head_words::{DATA_LEN, DATA_START};
use load_choose::{Chosen, Which, choose};
use load_range::{Bounds, within};
use pdf_blocks::check_block;
use text_parts::{part_of, up_to};
use tree_survey::survey_trees;
use tree_survey_questions::survey_questions;

// What a tree text needs; `first` is where its first tree stands.
#[derive(Clone, Copy)]
pub struct Text {
    pub first: usize,
    pub questions: usize,
    pub patterns: usize,
    pub trees: usize,
    pub records: usize,
    pub lines: usize,
}

// Where a model stands in the data, and the rows that it needs: the tree text from `text` up to `text_end`, its trees from `first` on, the PDF block from
// `block` up to `block_end`; `lines` are those of its longest tree, `entries` those of all trees, of `width` values each.
#[repr(C)]
#[derive(Clone, Copy)]
pub struct Plan {
    pub text: usize,
    pub text_end: usize,
    pub first: usize,
    pub questions: usize,
    pub patterns: usize,
    pub trees: usize,
    pub records: usize,
    pub lines: usize,
    pub block: usize,
    pub block_end: usize,
    pub width: u64,
    pub entries: u64,
}

// The tree text that begins at `at` and ends with the slice: 17 with the place where it breaks, 18.
pub fn read_text(s: &[u8], at: usize) -> Result<Text, Refusal>
    ensures { result ≡ text_of s.now at }
{
    match survey_questions(s, at) {
        Ok(asked) => match survey_trees(s, asked.next) {
            Ok(all) => {
                if all.negative {
                    return Err(Refusal::State);
                }
                Ok(Text {
                    first: asked.next,
                    questions: asked.value.questions,
                    patterns: asked.value.patterns,
                    trees: all.trees,
                    records: all.records,
                    lines: all.lines,
                })
            }
            Err(at) => Err(Refusal::Text(at)),
        },
        Err(at) => Err(Refusal::Text(at)),
    }
}

// The block that begins at `at` and ends with the slice (19), and all that is known before.
fn plan_entries(s: &[u8], plan: Plan) -> Result<Plan, Refusal>
    ensures { result ≡ entries_of s.now plan }
{
    match check_block(s, plan.block, plan.trees, plan.width) {
        Some(entries) => Ok(Plan { entries, ..plan }),
        None => Err(Refusal::Block),
    }
}

// A text that was read, from `at` up to `end` of the data, and a block of a width whose entries aren't counted yet.
pub fn plan_for(at: usize, end: usize, text: Text, block: Bounds, width: u64) -> Plan
    ensures { result ≡ plan_for at end text.first text.questions text.patterns text.trees text.records text.lines width block.start block.end }
{
    Plan {
        text: at,
        text_end: end,
        first: text.first,
        questions: text.questions,
        patterns: text.patterns,
        trees: text.trees,
        records: text.records,
        lines: text.lines,
        block: block.start,
        block_end: block.end,
        width,
        entries: 0,
    }
}

// The model of a text that was read, with its block in a range of the data (16).
fn plan_block(d: &[u8], at: usize, end: usize, text: Text, chosen: Chosen) -> Result<Plan, Refusal>
    ensures { result ≡ block_of d.now at end (Ok text) chosen.pdf_from chosen.pdf_to chosen.width }
{
    let block = within(chosen.pdf_from, chosen.pdf_to, d.len()).ok_or(Refusal::Range)?;
    let plan = plan_for(at, end, text, block, chosen.width);
    plan_entries(up_to(d, block.end), plan)
}

// The model whose tree text (16) and block stand in ranges of the data.
fn plan_model(d: &[u8], chosen: Chosen) -> Result<Plan, Refusal>
    ensures { result ≡ plan_of d.now chosen.tree_from chosen.tree_to chosen.pdf_from chosen.pdf_to chosen.width }
{
    let range = within(chosen.tree_from, chosen.tree_to, d.len()).ok_or(Refusal::Range)?;
    let text = read_text(up_to(d, range.end), range.start)?;
    plan_block(d, range.start, range.end, text, chosen)
}

// The data of the record in the words.
pub fn data_of<'a, 'b>(file: &'a [u8], words: &'b [u64]) -> &'a [u8]
    requires { 647 ≤ length words.now }
    ensures { result.now ≡ data_of file.now (header_at words.now) }
{
    part_of(file, words[DATA_START] as usize, words[DATA_LEN] as usize)
}

// What a model needs, of a file and the words of any record.
pub fn needs(file: &[u8], words: &[u64], which: Which) -> Result<Plan, Refusal>
    requires { 647 ≤ length words.now }
    ensures { result ≡ planned file.now (header_at words.now) which }
{
    let chosen = choose(file, words, which)?;
    plan_model(data_of(file, words), chosen)
}
