//! The command `explain`, over any reader and writers.
ghost use Rattle.std.specs.Prelude.{◌≡◌, List, ℕ};
ghost use Rattle.scenario.specs.Input.{AreLeft};
ghost use Rattle.scenario.specs.Watches.{EndsExplain, EndsPicture, ending_of_story, ending_of_told};
ghost use Rattle.watch_report.specs.Explaining.{asked_of};

use crate::program::{DONE, report};
use crate::story_picture::draw_trace;
use crate::trouble::Trouble;
use files::Fault;
use std::alloc::Global;
use std::io::{Read, Write};
use watch_report::{Filter, ReportFault, explain_trace};

/// What is told on standard error. That nobody reads the story any more is not told.
fn told(line: u64, explained: Result<bool, ReportFault>) -> Option<Trouble>
    ensures { ending_of_told result ≡ ending_of_story line explained }
{
    match explained {
        Ok(true) | Err(ReportFault::BrokenPipe { .. }) => None,
        Ok(false) => Some(Trouble::NoVerdict { line }),
        Err(
            ReportFault::Line { number, fault, .. }
            | ReportFault::BrokenPipeAtLine { number, fault, .. },
        ) => Some(Trouble::Line {
            number,
            fault,
            warned: false,
        }),
        Err(ReportFault::Unreadable) => Some(Trouble::Unreadable),
        Err(ReportFault::Output) => Some(Trouble::Refused(Fault::Output)),
        Err(ReportFault::NoMemory) => Some(Trouble::Refused(Fault::NoMemory)),
    }
}

/// Does `explain` on the trace that `input` reads, and answers the status of the program: 0 the story of
/// the first verdict at that line that the filter takes is written, 1 there is none, 2 not read, 3 a wrong
/// line up to that one, 4 the output failed, 5 out of memory. At 1 to 5 one line goes to `err`, as far as
/// it takes it; its own faults count for nothing. Nothing but a story goes to `out`, or a beginning of it
/// at 4. Where nobody reads `out` any more (`BrokenPipe`) it ends there without a line, with 0. `file` is
/// the trace's name in the lines.
pub fn explain_command<R: Read + Drop, W: Write, E: Write>(
    alloc: Global,
    filter: Filter,
    line: u64,
    file: &str,
    input: R,
    out: &mut W,
    err: &mut E,
) -> u8
    ensures { (text : List ℕ) × AreLeft (R.remaining input) text
        × EndsExplain (asked_of file.now line filter) text result
        (W.contents out.old) (W.contents out.new) (E.contents err.old) (E.contents err.new) }
{
    match told(line, explain_trace(alloc, filter, line, file, input, out)) {
        None => DONE,
        Some(trouble) => report(alloc, file, &trouble, err),
    }
}

/// Does `explain --svg` on the trace that `input` reads, and answers the status of the program: as
/// `explain_command`, with a picture in place of the story.
pub fn picture_command<R: Read + Drop, W: Write, E: Write>(
    alloc: Global,
    filter: Filter,
    line: u64,
    file: &str,
    input: R,
    out: &mut W,
    err: &mut E,
) -> u8
    ensures { (text : List ℕ) × AreLeft (R.remaining input) text
        × EndsPicture (asked_of file.now line filter) text result
        (W.contents out.old) (W.contents out.new) (E.contents err.old) (E.contents err.new) }
{
    match told(line, draw_trace(alloc, filter, line, file, input, out)) {
        None => DONE,
        Some(trouble) => report(alloc, file, &trouble, err),
    }
}
