//! The scenario of `run`, from its document.
ghost use Rattle.std.specs.Prelude.{◌≡◌, ◌≤◌, length, map};
ghost use Rattle.toml.specs.View.{table_view};
ghost use Rattle.files.specs.Faults.{Gives};
ghost use Rattle.files.specs.StepTexts.{events_in};
ghost use Rattle.files.specs.RunFile.{run_plan_of, run_scenario_of, run_view};

use crate::documents::{check_keys, document, texts_of_key};
use crate::fault::Fault;
use crate::key_table::{Command, Key};
use crate::limits::MOST_STEPS;
use crate::plan::RunScenario;
use crate::settings::{check_layout, config, mode};
use history::Event;
use pte::Scheme;
use std::alloc::Global;
use steps::run_step_among;
use toml::Table;

fn events(alloc: Global, scheme: Scheme, harts: u8, texts: &[&str]) -> Result<Vec<Event>, Fault>
    requires { length texts.now ≤ MOST_STEPS }
    ensures { Gives (λ v. v.items) result
        (events_in scheme harts (map (λ text. text.now) texts.now)) }
{
    let mut events = Vec::with_capacity(alloc, texts.len())?;
    for (index, text) in texts.iter().enumerate() {
        match run_step_among(scheme, harts, text) {
            Ok(event) => events.push(event)?,
            Err(fault) => return Err(Fault::Step(index as u32 + 1, fault)),
        }
    }
    Ok(events)
}

/// The scenario that a document is, or the first of its faults, as `read_run` answers for its
/// text. `NoMemory` if there is not enough memory.
#[tactic(auto, unfolding(crate::specs::RunFile::run_plan_of))]
pub fn run_scenario_in(alloc: Global, table: &Table) -> Result<RunScenario, Fault>
    ensures { Gives run_view result (run_plan_of (table_view table.now)) }
{
    check_keys(alloc, table, Command::Run)?;
    let mut config = config(alloc, table)?;
    let texts = texts_of_key(alloc, table, Key::Steps)?;
    config.scheme = mode(alloc, table)?;
    check_layout(&config)?;
    if texts.len() > MOST_STEPS {
        return Err(Fault::TooMany);
    }
    let events = events(alloc, config.scheme, config.harts as u8, texts.as_slice())?;
    Ok(RunScenario { config, events })
}

/// The scenario that a text is, or the first of its faults in the order of checking
/// (docs/FORMAT.md). `NoMemory` if there is not enough memory.
#[tactic(auto, unfolding(crate::specs::RunFile::run_scenario_of))]
pub fn read_run(alloc: Global, text: &str) -> Result<RunScenario, Fault>
    ensures { Gives run_view result (run_scenario_of text.now) }
{
    let table = document(alloc, text)?;
    run_scenario_in(alloc, &table)
}
