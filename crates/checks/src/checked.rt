//! The whole of a file: its command, each fault in a line, and the last line.
ghost use Rattle.std.specs.Prelude.{◌≡◌, ◌≤◌, ◌↔◌, ◌+◌, [], None, Some, Ok, IfOk, OnOk, codes, false, length, map, min, option_map, string_bytes, vec_len};
ghost use Rattle.toml.specs.Parse.{parse_document};
ghost use Rattle.toml.specs.View.{table_view};
ghost use Rattle.files.specs.Faults.{failure_of, fault_in};
ghost use Rattle.files.specs.declared.fault.Fault.TheVariants.{NotToml};
ghost use Rattle.files.specs.KeyTable.{command_name};
ghost use Rattle.files.specs.LiveFile.{live_plan_of};
ghost use Rattle.files.specs.RunFile.{run_plan_of, run_view};
ghost use Rattle.files.specs.WalkFile.{walk_plan_of};
ghost use Rattle.checks.specs.Told.{IsStillTrue, command_of, fault_for, fault_in_members, fault_of, is_memory, most_told, name_by, whole_text};
ghost use Rattle.checks.specs.Lines.{IsInOrder, told_line};
ghost use Rattle.checks.specs.Notes.{AreNotesOn, noted_in, noted_in_members, noted_of_plan};
ghost use Rattle.checks.specs.Shown.{shown_name};

use crate::commands::command_of;
use crate::keys_known::tell_unknown;
use crate::notes::{short_maps, sorted_notes, up_to_last_map};
use crate::positions::Position;
use crate::printed::{Told, in_order, text_of};
use crate::report::{Piece, Report, Spot};
use crate::steps_told::{tell_live, tell_run, tell_walk};
use crate::values::Document;
use files::{Command, Fault, RunScenario, live_scenario_in, run_scenario_in, walk_scenario_in};
use lines::run_replies;
use std::alloc::{AllocError, Global};
use toml::Table;

/// What a check of a file found.
#[derive(Drop)]
pub struct Checked {
    /// The faults that are reported, in the order of lines and columns. A fault without a line
    /// comes after those with one, and faults of one place come as they are found.
    pub told: Vec<Told>,
    /// A note on each map of a scenario of `run` that stops before its leaf, in the order of lines
    /// and columns, of the first 200; none where there is a fault.
    pub notes: Vec<Told>,
    /// What is printed: the command, a line for each of both, and `ok` or the number of faults.
    pub text: String,
    /// What the command answers for the file: the first fault in the order of checking.
    pub fault: Option<Fault>,
}

/// Whether it is that of memory.
fn is_memory(fault: &Fault) -> bool
    ensures { result ≡ is_memory fault.now }
{
    match fault {
        Fault::NoMemory => true,
        Fault::NotToml
        | Fault::Key(_)
        | Fault::Layout
        | Fault::TooMany
        | Fault::Step(_, _)
        | Fault::Script(_, _, _)
        | Fault::Output => false,
    }
}

/// The fault that a reader reported. `AllocError`: there was not enough memory.
fn told(fault: Fault) -> Result<Option<Fault>, AllocError>
    ensures { IfOk result (λ told. (told ≡ Some fault) × (is_memory fault ≡ false)) }
{
    if is_memory(&fault) {
        return Err(AllocError);
    }
    Ok(Some(fault))
}

/// What a command finds in a document.
#[derive(Drop)]
struct Found {
    fault: Option<Fault>,
    /// The numbers of the steps that have a note, from 1 on.
    noted: Vec<usize>,
}

impl Found {
    /// This fault, or none, and no note.
    fn fault(alloc: Global, fault: Option<Fault>) -> Found
        ensures fault { result.fault ≡ fault }
        ensures noted { result.noted.items ≡ [] }
    {
        let noted = Vec::new(alloc);
        Found { fault, noted }
    }
}

#[tactic(auto, using(crate::proofs::FaultLemmas::failing))]
fn walk_fault(alloc: Global, table: &Table) -> Result<Option<Fault>, AllocError>
    ensures { IfOk result (λ fault. option_map failure_of fault ≡ option_map Some
        (fault_in (walk_plan_of (table_view table.now)))) }
{
    match walk_scenario_in(alloc, table) {
        Ok(_scenario) => Ok(None),
        Err(fault) => told(fault),
    }
}

/// The numbers of the steps of a scenario that have a note. No step after the last `map` is made.
#[tactic(auto, using(crate::proofs::NoteLemmas::noted_up_to, crate::proofs::NoteLemmas::noted_none))]
fn noted(alloc: Global, scenario: RunScenario) -> Result<Vec<usize>, AllocError>
    ensures { IfOk result (λ noted. noted.items ≡ noted_of_plan (Ok (run_view scenario))) }
{
    let count = up_to_last_map(scenario.events.as_slice());
    if count == 0 {
        return Ok(Vec::new(alloc));
    }
    let mut made = scenario;
    made.events.truncate(count);
    match run_replies(alloc, &made) {
        Ok(replies) => short_maps(alloc, made.events.as_slice(), replies.as_slice()),
        Err(_no_memory) => Err(AllocError),
    }
}

#[tactic(auto, using(crate::proofs::FaultLemmas::failing))]
fn found_in_run(alloc: Global, table: &Table) -> Result<Found, AllocError>
    ensures fault { IfOk result (λ found. option_map failure_of found.fault ≡ option_map Some
        (fault_in (run_plan_of (table_view table.now)))) }
    ensures noted { IfOk result (λ found. found.noted.items
        ≡ noted_of_plan (run_plan_of (table_view table.now))) }
{
    match run_scenario_in(alloc, table) {
        Ok(scenario) => {
            let noted = noted(alloc, scenario)?;
            Ok(Found { fault: None, noted })
        }
        Err(fault) => Ok(Found::fault(alloc, told(fault)?)),
    }
}

#[tactic(auto, using(crate::proofs::FaultLemmas::failing))]
fn live_fault(alloc: Global, table: &Table) -> Result<Option<Fault>, AllocError>
    ensures { IfOk result (λ fault. option_map failure_of fault ≡ option_map Some
        (fault_in (live_plan_of (table_view table.now)))) }
{
    match live_scenario_in(alloc, table) {
        Ok(_scenario) => Ok(None),
        Err(fault) => told(fault),
    }
}

/// The first fault of a document for a command, and the steps that have a note. `AllocError`: there
/// was not enough memory.
fn found_in_table(alloc: Global, command: Command, table: &Table) -> Result<Found, AllocError>
    ensures fault { IfOk result (λ found. option_map failure_of found.fault ≡ option_map Some
        (fault_in_members command (table_view table.now))) }
    ensures noted { IfOk result (λ found. found.noted.items
        ≡ noted_in_members command (table_view table.now)) }
{
    match command {
        Command::Walk => Ok(Found::fault(alloc, walk_fault(alloc, table)?)),
        Command::Run => found_in_run(alloc, table),
        Command::Live => Ok(Found::fault(alloc, live_fault(alloc, table)?)),
    }
}

/// Reports each fault of a document for a command.
fn tell_all(report: &mut Report, document: &Document<'_>, command: Command)
    ensures { IsStillTrue report.old.is_out_of_memory report.new.is_out_of_memory }
{
    tell_unknown(report, document, command);
    match command {
        Command::Walk => tell_walk(report, document),
        Command::Run => tell_run(report, document),
        Command::Live => tell_live(report, document),
    }
}

/// Reports where the reader of TOML stopped, and why.
fn tell_error(report: &mut Report, text: &str, error: &toml::de::Error) -> Result<(), AllocError>
    ensures told { OnOk result (length report.new.told.items
        ≡ min (length report.old.told.items + 1) most_told) }
    ensures still_short { IsStillTrue report.old.is_out_of_memory report.new.is_out_of_memory }
{
    let start = error.span().map_or(0, |span| span.start);
    let what = [Piece::Text("not TOML: "), Piece::Text(error.message())];
    let spot = Spot {
        at: Position::of_byte(text, start),
        place: &[],
    };
    report.add(spot, &what)
}

/// What is told of a document that has this fault: at least one.
fn explained(
    alloc: Global,
    document: &Document<'_>,
    command: Command,
    fault: &Fault,
) -> Result<Report, AllocError>
    ensures { IfOk result (λ report. ¬ (vec_len report.told ≡ 0)) }
{
    let mut report = Report::new(alloc);
    tell_all(&mut report, document, command);
    if report.is_out_of_memory {
        return Err(AllocError);
    }
    if report.told.is_empty() {
        let spot = Spot {
            at: Position::unknown(),
            place: &[],
        };
        report.add(spot, &[Piece::Fault(fault)])?;
    }
    Ok(report)
}

/// What is told of a document: nothing where it has no fault.
fn report_of(
    alloc: Global,
    document: &Document<'_>,
    command: Command,
    fault: &Option<Fault>,
) -> Result<Report, AllocError>
    ensures { IfOk result (λ report. (fault.now ≡ None) ↔ (vec_len report.told ≡ 0)) }
{
    match fault {
        None => Ok(Report::new(alloc)),
        Some(fault) => explained(alloc, document, command, fault),
    }
}

/// What is found in a document that was read, whose text this is.
#[tactic(auto, using(crate::proofs::FaultLemmas::fault_of_members))]
fn check_table(alloc: Global, file: &str, text: &str, table: &Table) -> Result<Checked, AllocError>
    requires { parse_document text.now ≡ Some (table_view table.now) }
    ensures fault { IfOk result (λ checked. option_map failure_of checked.fault ≡ option_map Some
        (fault_for (command_of (table_view table.now)) text.now)) }
    ensures told { IfOk result (λ checked. (checked.fault ≡ None) ↔ (vec_len checked.told ≡ 0)) }
    ensures few { IfOk result (λ checked. vec_len checked.told ≤ most_told) }
    ensures in_order { IfOk result (λ checked. IsInOrder checked.told.items) }
    ensures noted { IfOk result (λ checked. AreNotesOn
        (noted_in_members (command_of (table_view table.now)) (table_view table.now))
        checked.notes.items) }
    ensures notes_in_order { IfOk result (λ checked. IsInOrder checked.notes.items) }
    ensures text { IfOk result (λ checked. string_bytes checked.text ≡ whole_text
        (command_name (command_of (table_view table.now)))
        (map (told_line (shown_name file.now)) checked.told.items)
        (map (told_line (shown_name file.now)) checked.notes.items)) }
{
    let command = command_of(table);
    let found = found_in_table(alloc, command, table)?;
    let document = Document { text, table };
    let told = in_order(report_of(alloc, &document, command, &found.fault)?.told)?;
    let notes = sorted_notes(alloc, &document, found.noted.as_slice())?;
    let text = text_of(
        alloc,
        command.name(),
        file,
        told.as_slice(),
        notes.as_slice(),
    )?;
    let fault = found.fault;
    Ok(Checked {
        told,
        notes,
        text,
        fault,
    })
}

/// What is reported of a text that the reader of TOML refused.
#[tactic(auto, using(crate::proofs::NoteLemmas::no_notes))]
fn not_toml(
    alloc: Global,
    file: &str,
    text: &str,
    error: &toml::de::Error,
) -> Result<Checked, AllocError>
    ensures fault { IfOk result (λ checked. checked.fault ≡ Some NotToml) }
    ensures told { IfOk result (λ checked. ¬ (vec_len checked.told ≡ 0)) }
    ensures few { IfOk result (λ checked. vec_len checked.told ≤ most_told) }
    ensures in_order { IfOk result (λ checked. IsInOrder checked.told.items) }
    ensures noted { IfOk result (λ checked. AreNotesOn [] checked.notes.items) }
    ensures notes_in_order { IfOk result (λ checked. IsInOrder checked.notes.items) }
    ensures text { IfOk result (λ checked. string_bytes checked.text ≡ whole_text
        (codes "no command") (map (told_line (shown_name file.now)) checked.told.items)
        (map (told_line (shown_name file.now)) checked.notes.items)) }
{
    let mut report = Report::new(alloc);
    tell_error(&mut report, text, error)?;
    let told = in_order(report.told)?;
    let notes = Vec::new(alloc);
    let text = text_of(alloc, "no command", file, told.as_slice(), notes.as_slice())?;
    let fault = Some(Fault::NotToml);
    Ok(Checked {
        told,
        notes,
        text,
        fault,
    })
}

/// Reads a file of any command, and explains each fault that is found in it, 200 at most. The keys
/// decide which command it is (`command_of`), and `fault` is what that command answers. The steps
/// of a file for `run` without a fault are made, up to the last `map`, and each of the first 200
/// maps that stop before their leaf has a note. `file` is the file's name in the lines.
/// `AllocError`: there was not enough memory.
pub fn check_text(alloc: Global, file: &str, text: &str) -> Result<Checked, AllocError>
    ensures fault { IfOk result (λ checked. option_map failure_of checked.fault ≡ option_map Some
        (fault_of text.now)) }
    ensures told { IfOk result (λ checked. (checked.fault ≡ None) ↔ (vec_len checked.told ≡ 0)) }
    ensures few { IfOk result (λ checked. vec_len checked.told ≤ most_told) }
    ensures in_order { IfOk result (λ checked. IsInOrder checked.told.items) }
    ensures noted { IfOk result (λ checked. AreNotesOn (noted_in text.now) checked.notes.items) }
    ensures notes_in_order { IfOk result (λ checked. IsInOrder checked.notes.items) }
    ensures text { IfOk result (λ checked. string_bytes checked.text ≡ whole_text
        (name_by (parse_document text.now))
        (map (told_line (shown_name file.now)) checked.told.items)
        (map (told_line (shown_name file.now)) checked.notes.items)) }
{
    match toml::table_from_str(alloc, text) {
        Ok(table) => check_table(alloc, file, text, &table),
        Err(error) if error.is_memory() => Err(AllocError),
        Err(error) => not_toml(alloc, file, text, &error),
    }
}
