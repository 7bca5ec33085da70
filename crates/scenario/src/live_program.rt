//! The command `live`, over any reader and writers.
ghost use Rattle.std.specs.Prelude.{◌≡◌, ◌⊎◌, ◌+◌, List, ℕ, map, IfErr, IfOk, string_bytes};
ghost use Rattle.std.specs.Io.KnownBytes.{Keeps};
ghost use Rattle.files.specs.LiveFile.{live_view};
ghost use Rattle.scenario.specs.Command.{Ends};
ghost use Rattle.scenario.specs.Commands.{live};
ghost use Rattle.scenario.specs.Input.{AreLeft, ReadsUpTo};
ghost use Rattle.scenario.specs.Limits.{most_bytes};
ghost use Rattle.scenario.specs.Outcomes.{IsAnswered, IsFound, IsUnanswered, IsUnstarted};
ghost use Rattle.scenario.specs.Prints.{AreAnswers};

use crate::input::read_file;
use crate::live_texts::live_lines;
use crate::outcome::Outcome;
use crate::program::end;
use crate::trouble::Trouble;
use files::{Fault, LiveScenario, read_live};
use harts::{Gate, LiveFault, LiveReport, run_live};
use std::alloc::Global;
use std::io::{Read, Write};
use std::sync::Wait;
use std::thread::Threads;

/// Runs the harts of a scenario.
fn run_harts<T: Threads + Wait + Sync, G: Gate + Sync>(
    rt: &T,
    alloc: Global,
    scenario: &LiveScenario,
    gate: &G,
) -> Result<LiveReport, Trouble>
    ensures answers { IfOk result (λ report. AreAnswers (live_view scenario.now) report.setup.items
        (map (λ replies. replies.items) report.scripts.items) report.report.pairs.items) }
    ensures err { IfErr result IsUnstarted }
{
    let answered = run_live(
        rt,
        alloc,
        &scenario.config,
        scenario.setup.as_slice(),
        scenario.scripts.as_slice(),
        scenario.turns,
        gate,
    );
    match answered {
        Ok(report) => Ok(report),
        Err(LiveFault::NoThread) => Err(Trouble::NoThread),
        Err(LiveFault::NoMemory) => Err(Trouble::Refused(Fault::NoMemory)),
        Err(LiveFault::BadLayout) => Err(Trouble::Refused(Fault::Layout)),
    }
}

/// What `live` makes of a text, or why nothing.
fn live_outcome<T: Threads + Wait + Sync, G: Gate + Sync>(
    rt: &T,
    alloc: Global,
    text: &str,
    gate: &G,
) -> Result<Outcome, Trouble>
    ensures ok { IfOk result (λ outcome. IsFound live text.now (string_bytes outcome.lines)
        outcome.finding) }
    ensures err { IfErr result (IsUnanswered live text.now) }
{
    let scenario = match read_live(alloc, text) {
        Ok(scenario) => scenario,
        Err(fault) => return Err(Trouble::Refused(fault)),
    };
    let answers = run_harts(rt, alloc, &scenario, gate)?;
    let lines = live_lines(
        alloc,
        answers.setup.as_slice(),
        answers.scripts.as_slice(),
        answers.report.pairs.as_slice(),
    )?;
    Ok(Outcome::of_lines(lines))
}

/// What `live` makes of the file that `input` reads, or why nothing.
fn answer_live<T: Threads + Wait + Sync, R: Read, G: Gate + Sync>(
    rt: &T,
    alloc: Global,
    input: &mut R,
    gate: &G,
) -> Result<Outcome, Trouble>
    ensures answered { (bytes : List ℕ) × AreLeft (R.remaining input.old) bytes
        × IsAnswered live bytes result }
    ensures read { ReadsUpTo (most_bytes + 1) (R.remaining input.old) (R.remaining input.new) }
{
    let bytes = read_file(alloc, input)?;
    let Ok(text) = str::from_utf8(bytes.as_slice()) else {
        return Err(Trouble::Refused(Fault::NotToml));
    };
    live_outcome(rt, alloc, text, gate)
}

/// Does `live` on the file that `input` reads, and answers the status of the program: the harts
/// make the steps of the setup one after the other, then each hart is a thread and makes the steps
/// of its script, and after their end what each step answered and what each mailbox did goes to
/// `out`. `gate` is asked before each step of a script, and called after it.
///
/// 0 done, 2 not read, too large, or not TOML, 3 a refused scenario, 4 the output failed, 5 no
/// memory or no thread. At all but 0 one line goes to `err`, as far as it takes it; its own faults
/// count for nothing. `file` is the file's name in the line. No more than 1,048,577 bytes are read,
/// and a read that fails is `cannot read`; one that a signal interrupts is tried again
/// (`read_retrying`).
pub fn live_command<T: Threads + Wait + Sync, R: Read, W: Write, E: Write, G: Gate + Sync>(
    rt: &T,
    alloc: Global,
    file: &str,
    input: &mut R,
    out: &mut W,
    err: &mut E,
    gate: &G,
) -> u8
    ensures ends { (bytes : List ℕ) × AreLeft (R.remaining input.old) bytes
        × Ends live file.now bytes result (W.contents out.old) (W.contents out.new)
        (E.contents err.old) (E.contents err.new) }
    ensures silent { (result ≡ 2) ⊎ (result ≡ 3) → Keeps (W.contents out.old) (W.contents out.new) }
    ensures read { ReadsUpTo (most_bytes + 1) (R.remaining input.old) (R.remaining input.new) }
{
    let answered = answer_live(rt, alloc, input, gate);
    end(alloc, file, answered, out, err)
}
