//! The command `watch`, over any reader and writers.
ghost use Rattle.std.specs.Prelude.{◌≡◌, List, ℕ};
ghost use Rattle.scenario.specs.Input.{AreLeft};
ghost use Rattle.scenario.specs.Watches.{ending_of_judged, ending_of_report, EndsWatch};
ghost use Rattle.watch_report.specs.Filters.{no_filter};
ghost use Rattle.watch_report.specs.KnownLists.{known_in, none_known};
ghost use Rattle.watch_report.specs.Reports.{options_of, told_of};
ghost use Rattle.watch_report.specs.declared.detail.Detail.TheVariants.{Verdicts};

use crate::known_file::no_list;
use crate::program::{DONE, WARNED, report};
use crate::trouble::Trouble;
use files::Fault;
use std::alloc::Global;
use std::io::{Read, Write};
use watch_report::{Detail, Filter, Form, KnownList, Options, ReportFault, report_trace};

/// Whether there was a verdict, or what is told on standard error. That nobody reads the report any more
/// is not told.
fn judged(reported: Result<bool, ReportFault>) -> Result<bool, Trouble>
    ensures { ending_of_judged result ≡ ending_of_report reported }
{
    match reported {
        Ok(some) => Ok(some),
        Err(ReportFault::BrokenPipe { warned }) => Ok(warned),
        Err(
            ReportFault::Line {
                number,
                fault,
                warned,
            }
            | ReportFault::BrokenPipeAtLine {
                number,
                fault,
                warned,
            },
        ) => Err(Trouble::Line {
            number,
            fault,
            warned,
        }),
        Err(ReportFault::Unreadable) => Err(Trouble::Unreadable),
        Err(ReportFault::Output) => Err(Trouble::Refused(Fault::Output)),
        Err(ReportFault::NoMemory) => Err(Trouble::Refused(Fault::NoMemory)),
    }
}

/// Does `watch` on the trace that `input` reads, for the verdicts that the filter takes, and answers the
/// status of the program: 0 without such a verdict, 1 with some, 2 not read, 3 a wrong line and no such
/// verdict before it, 4 the output failed, 5 out of memory. Verdicts of findings that are known are no
/// such verdicts: they are counted alone. What the options ask for goes to `out` as soon as its record is
/// read, and stays at 2 to 5. At a wrong line, whose status is 1 or 3, the counts so far come last. At 2
/// to 5 and at a wrong line one line goes to `err`, as far as it takes it; its own faults count for
/// nothing. Where nobody reads `out` any more (`BrokenPipe`) it ends there without a line, with 1 if there
/// is a verdict so far, or with 0 if all was read and there is none; a wrong line is still told. `file` is
/// the trace's name in the lines. A trace and its lines may have any length. A read that fails is
/// `cannot read`, but for want of memory; one that a signal interrupts is tried again (`read_retrying`).
pub fn watch_command_with<R: Read + Drop, W: Write, E: Write>(
    alloc: Global,
    options: Options,
    known: KnownList<'_>,
    file: &str,
    input: R,
    out: &mut W,
    err: &mut E,
) -> u8
    ensures { (text : List ℕ) × AreLeft (R.remaining input) text
        × EndsWatch (told_of options (known_in known.entry) file.now) text result
        (W.contents out.old) (W.contents out.new) (E.contents err.old) (E.contents err.new) }
{
    match judged(report_trace(alloc, options, known, file, input, out)) {
        Ok(false) => DONE,
        Ok(true) => WARNED,
        Err(trouble) => report(alloc, file, &trouble, err),
    }
}

/// Does `watch_command_with` on the trace, where nothing is known, and prints a line for each verdict.
pub fn watch_command<R: Read + Drop, W: Write, E: Write>(
    alloc: Global,
    file: &str,
    input: R,
    out: &mut W,
    err: &mut E,
) -> u8
    ensures { (text : List ℕ) × AreLeft (R.remaining input) text
        × EndsWatch (told_of (options_of Verdicts no_filter) none_known file.now) text result
        (W.contents out.old) (W.contents out.new) (E.contents err.old) (E.contents err.new) }
{
    let options = Options {
        detail: Detail::Verdicts,
        filter: Filter {
            hart: None,
            address: None,
            kind: None,
        },
        form: Form::Text,
        most: None,
    };
    watch_command_with(alloc, options, no_list(alloc), file, input, out, err)
}
