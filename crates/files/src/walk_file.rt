//! The scenario of `walk`, from its document.
ghost use Rattle.std.specs.Prelude.{◌≡◌, ◌≤◌, ◌<◌, ◌^◌, IfOk, IfSome, length, map, option_map, string_bytes, vec_len};
ghost use Rattle.toml.specs.View.{table_view};
ghost use Rattle.pte.specs.declared.entry.TheConstants.{PPN_BITS};
ghost use Rattle.files.specs.Keys.{each, text_views};
ghost use Rattle.files.specs.Faults.{Gives};
ghost use Rattle.files.specs.Memory.{is_frame_of, is_listed, word_at};
ghost use Rattle.files.specs.StepTexts.{walk_steps_in};
ghost use Rattle.files.specs.WalkFile.{frames_at, plan_view, ppn_of, ppns_of, root_at, tables_at, walk_plan_of, walk_scenario_of, word_in_table, word_of, words_at};

use crate::documents::{check_keys, document, key_fault, number, texts_of_key, value_of};
use crate::fault::Fault;
use crate::frames::{Frames, TableFrames, TableWord};
use crate::key_table::{Command, Key};
use crate::limits::{MOST_FRAMES, MOST_STEPS};
use crate::plan::WalkScenario;
use crate::settings::mode;
use pte::{PPN_LIMIT, TABLE_LENGTH};
use spaces::Config;
use std::alloc::{AllocError, Global};
use steps::{StepFault, WalkStep, next_word, num, walk_step};
use toml::Table;

fn ppn(alloc: Global, text: &str) -> Result<Option<u64>, AllocError>
    ensures value { IfOk result (λ n. n ≡ ppn_of text.now) }
    ensures in_range { IfOk result (λ n. IfSome n (λ ppn. ppn < 2 ^ PPN_BITS)) }
{
    let n = number(alloc, text)?;
    Ok(n.filter(|n| *n < PPN_LIMIT))
}

fn root(alloc: Global, table: &Table) -> Result<u64, Fault>
    ensures value { Gives (λ root. root) result (root_at (table_view table.now)) }
    ensures in_range { IfOk result (λ root. root < 2 ^ PPN_BITS) }
{
    let Some(value) = value_of(table, Key::Root) else {
        return Ok(Config::default().base);
    };
    let Some(text) = value.as_str() else {
        return Err(key_fault(alloc, Key::Root));
    };
    match ppn(alloc, text)? {
        Some(root) => Ok(root),
        None => Err(key_fault(alloc, Key::Root)),
    }
}

fn ppns(alloc: Global, texts: &[&str]) -> Result<Option<Vec<u64>>, AllocError>
    ensures value { IfOk result (λ found. option_map (λ v. v.items) found
        ≡ each (λ text. ppn_of text.now) texts.now) }
    ensures few { IfOk result (λ found. IfSome found (λ v. vec_len v ≤ length texts.now)) }
{
    let mut ppns = Vec::new(alloc);
    for text in texts {
        match ppn(alloc, text)? {
            Some(ppn) => ppns.push(ppn)?,
            None => return Ok(None),
        }
    }
    Ok(Some(ppns))
}

fn few_ppns(alloc: Global, texts: &[&str]) -> Result<Option<Vec<u64>>, AllocError>
    ensures value { IfOk result (λ found. option_map (λ v. v.items) found
        ≡ ppns_of (map (λ text. text.now) texts.now)) }
    ensures few { IfOk result (λ found. IfSome found (λ v. vec_len v ≤ MOST_FRAMES)) }
{
    if texts.len() > MOST_FRAMES {
        return Ok(None);
    }
    ppns(alloc, texts)
}

fn frames(alloc: Global, table: &Table) -> Result<Frames, Fault>
    ensures { Gives is_frame_of result (frames_at (table_view table.now)) }
{
    let texts = texts_of_key(alloc, table, Key::Frames)?;
    match few_ppns(alloc, texts.as_slice())? {
        Some(ppns) => Ok(Frames::new(ppns)?),
        None => Err(key_fault(alloc, Key::Frames)),
    }
}

fn word_in(frames: &Frames, ppn: u64, index: u64, word: u64) -> Option<TableWord>
    ensures { result ≡ word_in_table (is_frame_of frames.now) ppn index word }
{
    if !frames.contains(ppn) || index >= u64::from(TABLE_LENGTH) {
        return None;
    }
    let index = index as u16;
    Some(TableWord { ppn, index, word })
}

fn table_word(frames: &Frames, text: &str) -> Option<TableWord>
    ensures { result ≡ word_of (is_frame_of frames.now) text.now }
{
    let (ppn, rest) = next_word(text.as_bytes())?;
    let (index, rest) = next_word(rest)?;
    let (word, rest) = next_word(rest)?;
    if next_word(rest).is_some() {
        return None;
    }
    word_in(frames, num(ppn)?, num(index)?, num(word)?)
}

fn table_words(
    alloc: Global,
    frames: &Frames,
    texts: &[&str],
) -> Result<Option<Vec<TableWord>>, AllocError>
    ensures { IfOk result (λ found. option_map (λ v. v.items) found
        ≡ each (λ text. word_of (is_frame_of frames.now) text.now) texts.now) }
{
    let mut words = Vec::with_capacity(alloc, texts.len())?;
    for text in texts {
        match table_word(frames, text) {
            Some(word) => words.push(word)?,
            None => return Ok(None),
        }
    }
    Ok(Some(words))
}

fn words_of_key(alloc: Global, table: &Table, frames: &Frames) -> Result<Vec<TableWord>, Fault>
    ensures { Gives (λ v. v.items) result
        (words_at (is_frame_of frames.now) (table_view table.now)) }
{
    let texts = texts_of_key(alloc, table, Key::Words)?;
    match table_words(alloc, frames, texts.as_slice())? {
        Some(words) => Ok(words),
        None => Err(key_fault(alloc, Key::Words)),
    }
}

/// The frames with their words.
fn tables(alloc: Global, table: &Table, frames: Frames) -> Result<TableFrames, Fault>
    ensures { Gives word_at result (tables_at (is_frame_of frames) (table_view table.now)) }
{
    let words = words_of_key(alloc, table, &frames)?;
    Ok(TableFrames::new(alloc, frames, words.as_slice())?)
}

fn steps(alloc: Global, texts: &[&str]) -> Result<Vec<WalkStep>, Fault>
    requires { length texts.now ≤ MOST_STEPS }
    ensures { Gives (λ v. v.items) result (walk_steps_in (map (λ text. text.now) texts.now)) }
{
    let mut steps = Vec::with_capacity(alloc, texts.len())?;
    for (index, text) in texts.iter().enumerate() {
        match walk_step(text) {
            Some(step) => steps.push(step)?,
            None => return Err(Fault::Step(index as u32 + 1, StepFault::NotStep)),
        }
    }
    Ok(steps)
}

/// The scenario that a document is, or the first of its faults, as `read_walk` answers for its
/// text. `NoMemory` if there is not enough memory.
#[tactic(auto, unfolding(crate::specs::WalkFile::walk_plan_of))]
pub fn walk_scenario_in(alloc: Global, table: &Table) -> Result<WalkScenario, Fault>
    ensures { Gives plan_view result (walk_plan_of (table_view table.now)) }
{
    check_keys(alloc, table, Command::Walk)?;
    let root = root(alloc, table)?;
    let frames = frames(alloc, table)?;
    let tables = tables(alloc, table, frames)?;
    let texts = texts_of_key(alloc, table, Key::Steps)?;
    let scheme = mode(alloc, table)?;
    if texts.len() > MOST_STEPS {
        return Err(Fault::TooMany);
    }
    let steps = steps(alloc, texts.as_slice())?;
    Ok(WalkScenario {
        scheme,
        root,
        tables,
        steps,
    })
}

/// The scenario that a text is, or the first of its faults in the order of checking
/// (docs/FORMAT.md). `NoMemory` if there is not enough memory.
#[tactic(auto, unfolding(crate::specs::WalkFile::walk_scenario_of))]
pub fn read_walk(alloc: Global, text: &str) -> Result<WalkScenario, Fault>
    ensures { Gives plan_view result (walk_scenario_of text.now) }
{
    let table = document(alloc, text)?;
    walk_scenario_in(alloc, &table)
}
