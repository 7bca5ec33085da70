//! From a text to what is printed of it.
ghost use Rattle.std.specs.Prelude.{◌≡◌, None, OnOk, IfOk, IfErr, string_bytes};
ghost use Rattle.files.specs.Faults.{fault_in};
ghost use Rattle.scenario.specs.Commands.{run, walk};
ghost use Rattle.scenario.specs.Outcomes.{IsFound, IsUntold};
ghost use Rattle.scenario.specs.Prints.{LinesOf, Prints, PrintsReplies};
ghost use Rattle.files.specs.RunFile.{run_scenario_of};
ghost use Rattle.scenario.specs.Output.{EndsBy, WritesAll};
ghost use Rattle.files.specs.WalkFile.{walk_scenario_of};

use crate::outcome::Outcome;
use crate::output::write_whole;
use files::{Fault, read_run, read_walk};
use lines::{reply_lines, run_replies, walk_lines};
use std::alloc::Global;
use std::io::Write;

/// What each step of a `walk` scenario answers.
pub(crate) fn walked(alloc: Global, text: &str) -> Result<Outcome, Fault>
    ensures ok { IfOk result (λ outcome. IsFound walk text.now (string_bytes outcome.lines)
        outcome.finding) }
    ensures err { IfErr result (λ fault. IsUntold fault (walk.fault text.now)) }
{
    let scenario = read_walk(alloc, text)?;
    let lines = walk_lines(
        alloc,
        scenario.scheme,
        &scenario.tables,
        scenario.root,
        scenario.steps.as_slice(),
    )?;
    Ok(Outcome::of_lines(lines))
}

/// Writes what each step of a `walk` scenario answers, a line a step. The whole text is read and
/// checked before the first byte is written; any fault of it, the first in the order of checking,
/// leaves the writer as it was. `Output`: a beginning of the lines was written. `NoMemory`: nothing
/// was.
pub fn walk_text<W: Write>(alloc: Global, text: &str, out: &mut W) -> Result<(), Fault>
    ensures faultless { OnOk result (fault_in (walk_scenario_of text.now) ≡ None) }
    ensures written { OnOk result (WritesAll (LinesOf Prints (walk_scenario_of text.now))
        (W.contents out.old) (W.contents out.new)) }
    ensures err { IfErr result (λ fault. EndsBy fault (fault_in (walk_scenario_of text.now))
        (LinesOf Prints (walk_scenario_of text.now))
        (W.contents out.old) (W.contents out.new)) }
{
    let walked = walked(alloc, text)?;
    write_whole(out, walked.lines.as_bytes())
}

/// What each step of a `run` scenario answers.
pub(crate) fn replies_of(alloc: Global, text: &str) -> Result<Outcome, Fault>
    ensures ok { IfOk result (λ outcome. IsFound run text.now (string_bytes outcome.lines)
        outcome.finding) }
    ensures err { IfErr result (λ fault. IsUntold fault (run.fault text.now)) }
{
    let scenario = read_run(alloc, text)?;
    let replies = run_replies(alloc, &scenario)?;
    Ok(Outcome::of_lines(reply_lines(alloc, replies.as_slice())?))
}

/// Writes what each step of a `run` scenario answers, a line a step. The whole text is read and
/// checked before the first byte is written; any fault of it, the first in the order of checking,
/// leaves the writer as it was. `Output`: a beginning of the lines was written. `NoMemory`: nothing
/// was.
pub fn run_text<W: Write>(alloc: Global, text: &str, out: &mut W) -> Result<(), Fault>
    ensures faultless { OnOk result (fault_in (run_scenario_of text.now) ≡ None) }
    ensures written { OnOk result (WritesAll (LinesOf PrintsReplies (run_scenario_of text.now))
        (W.contents out.old) (W.contents out.new)) }
    ensures err { IfErr result (λ fault. EndsBy fault (fault_in (run_scenario_of text.now))
        (LinesOf PrintsReplies (run_scenario_of text.now))
        (W.contents out.old) (W.contents out.new)) }
{
    let replied = replies_of(alloc, text)?;
    write_whole(out, replied.lines.as_bytes())
}
