// One tree of a model reached through a trailer's rows (02, Wish 7): the stages before tables are looked at, and what the tree needs of each table. Read are the last
// 12 bytes, the rows, the model's questions, that tree and the counts of the block; no other tree. Nothing lent is written. Any bytes, any record, any numbers.
#![tactic(auto)]

ghost use Rattle.std.specs.Prelude.{◌≡◌, cond, ◌+◌, ◌*◌, ◌≤◌, ◌<◌, ◌^◌, length, Ok, Err};
ghost use Rattle.written.specs.Blocks.{total};
ghost use Rattle.pdf_blocks.specs.Values.{words_at};
ghost use Rattle.head_words.specs.Words.{header_at};
ghost use Rattle.load_plan.specs.Plans.{read_as};
ghost use Rattle.trail_plan.specs.Plans.{tree_text_of, entries_of, block_of, RowOf, tree_of, tree_planned};

use error::Refusal;
use head_words::DATA_LEN;
use head_words_fit::record_fits;
use load_choose::{Chosen, Which, choose};
use load_plan::{Plan, Text, data_of, plan_for};
use load_range::within;
use pdf_blocks::{check_block, word};
use text_parts::up_to;
use trail_find::{count_offsets, find_offset, find_trail};
use tree_survey::{TreeSurvey, survey_tree};
use tree_survey_questions::survey_questions;

// What a tree that was read needs; 18.
fn tree_read(
    star: usize,
    questions: usize,
    patterns: usize,
    negative: bool,
    records: usize,
    lines: usize,
) -> Result<Text, Refusal>
    ensures { result ≡ cond negative (Err Refusal.State) (read_as star questions patterns 1 records lines) }
{
    if negative {
        return Err(Refusal::State);
    }
    Ok(Text {
        first: star,
        questions,
        patterns,
        trees: 1,
        records,
        lines,
    })
}

// The questions of a text that begins at `at`, and the tree at `star` alone: 17 with the place where it breaks, 18.
fn read_tree(s: &[u8], at: usize, star: usize) -> Result<Text, Refusal>
    ensures { result ≡ tree_text_of s.now at star }
{
    match survey_questions(s, at) {
        Ok(asked) => match survey_tree(s, star) {
            TreeSurvey::Next {
                negative,
                records,
                lines,
                next: _,
            } => tree_read(
                star,
                asked.value.questions,
                asked.value.patterns,
                negative,
                records,
                lines,
            ),
            TreeSurvey::Last {
                negative,
                records,
                lines,
            } => tree_read(
                star,
                asked.value.questions,
                asked.value.patterns,
                negative,
                records,
                lines,
            ),
            TreeSurvey::Broken(place) => Err(Refusal::Text(place)),
        },
        Err(place) => Err(Refusal::Text(place)),
    }
}

// The entries of the first k trees of a block.
fn entries_before(s: &[u8], at: usize, k: usize) -> u64
    requires { (at + 4 * k ≤ length s.now) × (total (words_at s.now at k) < 2 ^ 63) }
    ensures { result ≡ total (words_at s.now at k) }
{
    let mut sum: u64 = 0;
    for t in 0..k {
        sum += word(s, at + 4 * t) as u64;
    }
    sum
}

// Tree k of a block of n trees that begins where the plan says and ends with the slice (19).
fn plan_entries(s: &[u8], plan: Plan, n: usize, k: usize) -> Result<Plan, Refusal>
    requires { k < n }
    ensures { result ≡ entries_of s.now plan n k }
{
    match check_block(s, plan.block, n, plan.width) {
        Some(_) => {
            let before = entries_before(s, plan.block, k);
            let entries = word(s, plan.block + 4 * k) as u64;
            Ok(Plan {
                block: plan.block + 4 * n + 4 * (before * plan.width) as usize,
                entries,
                ..plan
            })
        }
        None => Err(Refusal::Block),
    }
}

// Tree k of a text of n trees that was read, with the model's block in a range of the data (16).
fn plan_block(
    d: &[u8],
    at: usize,
    end: usize,
    text: Text,
    chosen: Chosen,
    n: usize,
    k: usize,
) -> Result<Plan, Refusal>
    requires { k < n }
    ensures { result ≡ block_of d.now at end (Ok text) chosen.pdf_from chosen.pdf_to chosen.width n k }
{
    let block = within(chosen.pdf_from, chosen.pdf_to, d.len()).ok_or(Refusal::Range)?;
    let plan = plan_for(at, end, text, block, chosen.width);
    plan_entries(up_to(d, block.end), plan, n, k)
}

// Tree k of a model that has n rows; its own says where it stands, if there is one (24). Tree text (16) and block stand in ranges of the data.
fn plan_tree(d: &[u8], chosen: Chosen, n: usize, k: u64, star: Option<u64>) -> Result<Plan, Refusal>
    requires { RowOf n k star }
    ensures { result ≡ tree_of d.now chosen.tree_from chosen.tree_to chosen.pdf_from chosen.pdf_to chosen.width n k star }
{
    let range = within(chosen.tree_from, chosen.tree_to, d.len()).ok_or(Refusal::Range)?;
    match star {
        None => Err(Refusal::WalkTable),
        Some(place) => {
            let text = read_tree(up_to(d, range.end), range.start, place as usize)?;
            plan_block(d, range.start, range.end, text, chosen, n, k as usize)
        }
    }
}

// What tree k of a model needs, of a file and the words of any record; in the rows the model has a number.
pub fn tree_needs(
    file: &[u8],
    words: &[u64],
    which: Which,
    model: u64,
    k: u64,
) -> Result<Plan, Refusal>
    requires { 647 ≤ length words.now }
    ensures { result ≡ tree_planned file.now (header_at words.now) which model k }
{
    if !record_fits(file.len(), words) {
        return Err(Refusal::Range);
    }
    let trail = find_trail(file, words[DATA_LEN] as usize)?;
    let chosen = choose(file, words, which)?;
    plan_tree(
        data_of(file, words),
        chosen,
        count_offsets(file, trail.begin, trail.count, model),
        k,
        find_offset(file, trail.begin, trail.count, model, k),
    )
}
