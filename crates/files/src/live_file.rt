//! The scenario of `live`, from its document.
ghost use Rattle.std.specs.Prelude.{◌≡◌, ◌≤◌, ◌<◌, All, IfOk, IfSome, IsTrue, length, map, nat_le, option_map};
ghost use Rattle.toml.specs.View.{table_view, view};
ghost use Rattle.files.specs.Faults.{Gives};
ghost use Rattle.files.specs.Keys.{each, text_views, texts_of};
ghost use Rattle.files.specs.StepTexts.{script_in, scripts_in, setup_steps_in};
ghost use Rattle.files.specs.LiveFile.{few_scripts, live_plan_of, live_scenario_of, live_view, script_views, scripts_at, scripts_of, scripts_view, step_count, turns_at, turns_of};

use crate::documents::{check_keys, document, key_fault, texts_in, texts_of_key, value_of};
use crate::fault::Fault;
use crate::key_table::{Command, DEFAULT_TURNS, Key};
use crate::limits::MOST_STEPS;
use crate::plan::LiveScenario;
use crate::settings::{check_live_layout, config, mode};
use history::LiveStep;
use pte::{MAX_HARTS, Scheme};
use std::alloc::{AllocError, Global};
use steps::{live_step_among, setup_step_among};
use toml::{Table, Value};

/// A whole number from 1 to 2^32 - 1.
fn positive(value: &Value) -> Option<u32>
    ensures { result ≡ turns_of (view value.now) }
{
    let n = value.as_integer()?;
    let n = u32::try_from(n).ok()?;
    if n == 0 { None } else { Some(n) }
}

fn turns(alloc: Global, table: &Table) -> Result<u32, Fault>
    ensures { Gives (λ n. n) result (turns_at (table_view table.now)) }
{
    let Some(value) = value_of(table, Key::Turns) else {
        return Ok(DEFAULT_TURNS);
    };
    match positive(value) {
        Some(turns) => Ok(turns),
        None => Err(key_fault(alloc, Key::Turns)),
    }
}

/// The texts of each array, each of which has texts alone.
fn scripts<'a>(alloc: Global, values: &'a [Value]) -> Result<Option<Vec<Vec<&'a str>>>, AllocError>
    ensures read { IfOk result (λ found. option_map script_views found
        ≡ each (λ value. texts_of (view value)) values.now) }
    ensures count { IfOk result (λ found. IfSome found (λ scripts. length scripts.items
        ≡ length values.now)) }
{
    let mut scripts = Vec::with_capacity(alloc, values.len())?;
    for value in values {
        match texts_in(alloc, value)? {
            Some(texts) => scripts.push(texts)?,
            None => return Ok(None),
        }
    }
    Ok(Some(scripts))
}

fn few_scripts<'a>(
    alloc: Global,
    values: &'a [Value],
    harts: u16,
) -> Result<Option<Vec<Vec<&'a str>>>, AllocError>
    ensures read { IfOk result (λ found. option_map script_views found
        ≡ few_scripts harts (map view values.now)) }
    ensures few { IfOk result (λ found. IfSome found (λ scripts. length scripts.items ≤ harts)) }
{
    if values.len() > usize::from(harts) {
        return Ok(None);
    }
    scripts(alloc, values)
}

fn scripts_in<'a>(
    alloc: Global,
    value: &'a Value,
    harts: u16,
) -> Result<Option<Vec<Vec<&'a str>>>, AllocError>
    ensures read { IfOk result (λ found. option_map script_views found
        ≡ scripts_of harts (view value.now)) }
    ensures few { IfOk result (λ found. IfSome found (λ scripts. length scripts.items ≤ harts)) }
{
    match value.as_array() {
        Some(values) => few_scripts(alloc, values, harts),
        None => Ok(None),
    }
}

/// The texts of the scripts, of which there are no more than harts; none where the key is absent.
fn scripts_of_key<'a>(
    alloc: Global,
    table: &'a Table,
    harts: u16,
) -> Result<Vec<Vec<&'a str>>, Fault>
    ensures read { Gives script_views result (scripts_at harts (table_view table.now)) }
    ensures few { IfOk result (λ scripts. length scripts.items ≤ harts) }
{
    match value_of(table, Key::Scripts) {
        Some(value) => match scripts_in(alloc, value, harts)? {
            Some(scripts) => Ok(scripts),
            None => Err(key_fault(alloc, Key::Scripts)),
        },
        None => Ok(Vec::new(alloc)),
    }
}

/// Whether the setup and the scripts together have no more steps than a file may have.
fn are_few(setup: &[&str], scripts: &[Vec<&str>]) -> bool
    ensures value { result
        ≡ nat_le (step_count (map (λ text. text.now) setup.now) (map text_views scripts.now))
        MOST_STEPS }
    ensures setup { IsTrue result → length setup.now ≤ MOST_STEPS }
    ensures scripts { IsTrue result → All (λ texts. length texts.items ≤ MOST_STEPS) scripts.now }
{
    if setup.len() > MOST_STEPS {
        return false;
    }
    let mut room = MOST_STEPS - setup.len();
    for texts in scripts {
        if texts.len() > room {
            return false;
        }
        room -= texts.len();
    }
    true
}

fn setup_steps(
    alloc: Global,
    scheme: Scheme,
    harts: u8,
    texts: &[&str],
) -> Result<Vec<(u8, LiveStep)>, Fault>
    requires { length texts.now ≤ MOST_STEPS }
    ensures read { Gives (λ v. v.items) result
        (setup_steps_in scheme harts (map (λ text. text.now) texts.now)) }
    ensures there { IfOk result (λ v. All (λ step. step.0 < harts) v.items) }
{
    let mut steps = Vec::with_capacity(alloc, texts.len())?;
    for (index, text) in texts.iter().enumerate() {
        match setup_step_among(scheme, harts, text) {
            Ok(step) => steps.push(step)?,
            Err(fault) => return Err(Fault::Step(index as u32 + 1, fault)),
        }
    }
    Ok(steps)
}

/// The script of a hart.
fn script_steps(
    alloc: Global,
    scheme: Scheme,
    harts: u8,
    hart: u8,
    texts: &[&str],
) -> Result<Vec<LiveStep>, Fault>
    requires { length texts.now ≤ MOST_STEPS }
    ensures { Gives (λ v. v.items) result
        (script_in scheme harts hart (map (λ text. text.now) texts.now)) }
{
    let mut steps = Vec::with_capacity(alloc, texts.len())?;
    for (index, text) in texts.iter().enumerate() {
        match live_step_among(scheme, harts, text) {
            Ok(step) => steps.push(step)?,
            Err(fault) => return Err(Fault::Script(hart, index as u32 + 1, fault)),
        }
    }
    Ok(steps)
}

/// The scripts of the harts from 0.
fn scripts_steps(
    alloc: Global,
    scheme: Scheme,
    harts: u8,
    scripts: &[Vec<&str>],
) -> Result<Vec<Vec<LiveStep>>, Fault>
    requires harts { length scripts.now ≤ MAX_HARTS }
    requires few { All (λ texts. length texts.items ≤ MOST_STEPS) scripts.now }
    ensures read { Gives scripts_view result
        (scripts_in scheme harts 0 (map text_views scripts.now)) }
    ensures count { IfOk result (λ v. length v.items ≡ length scripts.now) }
{
    let mut all = Vec::with_capacity(alloc, scripts.len())?;
    for (hart, texts) in scripts.iter().enumerate() {
        let steps = script_steps(alloc, scheme, harts, hart as u8, texts.as_slice())?;
        all.push(steps)?;
    }
    Ok(all)
}

/// The scenario that a document is, or the first of its faults, as `read_live` answers for its
/// text. `NoMemory` if there is not enough memory.
#[tactic(auto, unfolding(crate::specs::LiveFile::live_plan_of))]
pub fn live_scenario_in(alloc: Global, table: &Table) -> Result<LiveScenario, Fault>
    ensures { Gives live_view result (live_plan_of (table_view table.now)) }
{
    check_keys(alloc, table, Command::Live)?;
    let mut config = config(alloc, table)?;
    let setup = texts_of_key(alloc, table, Key::Setup)?;
    let scripts = scripts_of_key(alloc, table, config.harts)?;
    let turns = turns(alloc, table)?;
    config.scheme = mode(alloc, table)?;
    check_live_layout(&config)?;
    if !are_few(setup.as_slice(), scripts.as_slice()) {
        return Err(Fault::TooMany);
    }
    let harts = config.harts as u8;
    let setup = setup_steps(alloc, config.scheme, harts, setup.as_slice())?;
    let scripts = scripts_steps(alloc, config.scheme, harts, scripts.as_slice())?;
    Ok(LiveScenario {
        config,
        setup,
        scripts,
        turns,
    })
}

/// The scenario that a text is, or the first of its faults in the order of checking
/// (docs/FORMAT.md). `NoMemory` if there is not enough memory.
#[tactic(auto, unfolding(crate::specs::LiveFile::live_scenario_of))]
pub fn read_live(alloc: Global, text: &str) -> Result<LiveScenario, Fault>
    ensures { Gives live_view result (live_scenario_of text.now) }
{
    let table = document(alloc, text)?;
    live_scenario_in(alloc, &table)
}
