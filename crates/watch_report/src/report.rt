//! The report of a trace.
ghost use Rattle.std.specs.Prelude.{ℕ, List, IfErr, IfOk, IfSome, ◌≡◌, Ok, None, false, is_some, true};
ghost use Rattle.std.specs.List.{list_any};
ghost use Rattle.watch_report.specs.Ending.{Ends, EndsBy, IsAtLine};
ghost use Rattle.watch_report.specs.Fields.{fields_of};
ghost use Rattle.watch_report.specs.Reading.{IsReadFault};
ghost use Rattle.watch_report.specs.KnownLists.{known_in};
ghost use Rattle.watch_report.specs.LineFaults.{fault_of, header_fault};
ghost use Rattle.watch_report.specs.Reports.{told_of};
ghost use Rattle.watch_report.specs.TraceReaches.{EndsAs, EndsJudged, known_by};
ghost use Rattle.watch_causes.specs.KnownReaches.{reach_in};
ghost use Rattle.watch_report.specs.Sources.{left_of};
ghost use Rattle.watch_report.specs.TraceLines.{header_in};
ghost use Rattle.watch_report.specs.TraceText.{has_no_form, lines_of};

use crate::fault::ReportFault;
use crate::find_fault::{find_header_fault, find_line_fault};
use crate::header::{Header, read_header};
use crate::input::{read_fault, read_line};
use crate::judging::reaches_of;
use crate::known_list::KnownList;
use crate::options::Options;
use crate::reading::Reading;
use crate::reading_fault::ReadingFault;
use crate::retry::Retrying;
use crate::source::Source;
use std::alloc::Global;
use std::io::{BufRead, BufReader, Read, Write};
use watch_causes::{Known, KnownReaches};

/// What is told of a first line that is no header.
pub(crate) fn first_line_fault(line: &[u8]) -> ReportFault
    requires { header_in (fields_of line.now) ≡ None }
    ensures { IsAtLine 1 (header_fault line.now) (Ok false) result }
{
    let Some(fault) = find_header_fault(line) else {
        unreachable!()
    };
    ReportFault::Line {
        number: 1,
        fault,
        warned: false,
    }
}

/// What is told of a line that has no form, by how the last lines were written.
pub(crate) fn fault_of_line(
    header: Header,
    number: u64,
    line: &[u8],
    finished: Result<bool, ReadingFault>,
) -> ReportFault
    requires { has_no_form header line.now ≡ true }
    ensures { IsAtLine number (fault_of header line.now) finished result }
{
    let Some(fault) = find_line_fault(header, line) else {
        unreachable!()
    };
    match finished {
        Ok(warned) => ReportFault::Line {
            number,
            fault,
            warned,
        },
        Err(ReadingFault::BrokenPipe) => ReportFault::BrokenPipeAtLine {
            number,
            fault,
            warned: false,
        },
        Err(ReadingFault::BrokenPipeWarned) => ReportFault::BrokenPipeAtLine {
            number,
            fault,
            warned: true,
        },
        Err(fault) => ReportFault::from(fault),
    }
}

/// Reports the lines after the header. `line` is room for one of them.
fn report_lines<R: BufRead, W: Write>(
    alloc: Global,
    options: Options,
    known: KnownList<'_>,
    reaches: KnownReaches,
    file: &[u8],
    header: Header,
    input: &mut R,
    line: &mut Vec<u8>,
    out: &mut W,
) -> Result<bool, ReportFault>
    ensures { (text : List ℕ) × IfSome (R.remaining input.old) (λ left. text ≡ left)
        × EndsBy (told_of options (known_by (reach_in reaches) known.entry) file.now) (Ok header) (lines_of text) result
        (W.contents out.old) (W.contents out.new) }
{
    let list = known.file;
    let mut reading = Reading::new(alloc, options, known.entries, reaches, header)?;
    for number in 2..u64::MAX {
        let more = read_line(input, line)?;
        let text = line.as_slice();
        let taken = reading.take_line(file, number, text, out)?;
        if !taken {
            let finished = reading.finish(file, list, Some(number), out);
            return Err(fault_of_line(header, number, text, finished));
        }
        if !more {
            let some = reading.finish(file, list, None, out)?;
            return Ok(some);
        }
    }
    Err(ReportFault::NoMemory)
}

/// Reports a trace, of which no line was read.
fn report_all<R: BufRead, W: Write>(
    alloc: Global,
    options: Options,
    known: KnownList<'_>,
    reaches: KnownReaches,
    file: &[u8],
    input: &mut R,
    out: &mut W,
) -> Result<bool, ReportFault>
    ensures { (text : List ℕ) × IfSome (R.remaining input.old) (λ left. text ≡ left)
        × Ends (told_of options (known_by (reach_in reaches) known.entry) file.now) text result
        (W.contents out.old) (W.contents out.new) }
{
    let mut line = Vec::new(alloc);
    let more = read_line(input, &mut line)?;
    let text = line.as_slice();
    let Some(header) = read_header(text) else {
        return Err(first_line_fault(text));
    };
    if !more {
        let list = known.file;
        let reading = Reading::new(alloc, options, known.entries, reaches, header)?;
        let some = reading.finish(file, list, None, out)?;
        return Ok(some);
    }
    report_lines(
        alloc, options, known, reaches, file, header, input, &mut line, out,
    )
}

/// Whether some entry has a reach.
fn asks_for_reach(known: &[Known]) -> bool
    ensures { result ≡ list_any (λ k. is_some k.reach) known.now }
{
    known.iter().any(|entry| entry.reach.is_some())
}

/// The text of a trace, whole.
fn read_whole<R: Read>(alloc: Global, input: &mut R) -> Result<Vec<u8>, ReadingFault>
    ensures ok { IfOk result (λ text. IfSome (R.remaining input.old) (λ left. text.items ≡ left)) }
    ensures err { IfErr result IsReadFault }
{
    let mut text = Vec::new(alloc);
    match input.read_to_end(&mut text) {
        Ok(_) => Ok(text),
        Err(error) => Err(read_fault(&error)),
    }
}

/// Reports a trace: the rest of a reader, or without one a text.
fn report_source<R: Read + Drop, W: Write>(
    alloc: Global,
    options: Options,
    known: KnownList<'_>,
    reaches: KnownReaches,
    file: &[u8],
    source: Source<'_, R>,
    out: &mut W,
) -> Result<bool, ReportFault>
    ensures { (text : List ℕ)
        × IfSome (left_of (λ reader. R.remaining reader) source.entry.text.now source.entry.reader) (λ left. text ≡ left)
        × Ends (told_of options (known_by (reach_in reaches) known.entry) file.now) text result
        (W.contents out.old) (W.contents out.new) }
{
    let Ok(mut reader) = BufReader::new(alloc, source) else {
        return Err(ReportFault::NoMemory);
    };
    report_all(alloc, options, known, reaches, file, &mut reader, out)
}

/// Reports a trace by a list that asks for the reach of findings: it is read whole, and judged before.
fn report_whole<R: Read + Drop, W: Write>(
    alloc: Global,
    options: Options,
    known: KnownList<'_>,
    file: &[u8],
    input: R,
    out: &mut W,
) -> Result<bool, ReportFault>
    ensures { (text : List ℕ) × IfSome (R.remaining input) (λ left. text ≡ left)
        × EndsAs true (told_of options (known_in known.entry) file.now) text result
        (W.contents out.old) (W.contents out.new) }
{
    let text = read_whole(alloc, &mut Retrying { inner: input })?;
    let reaches = reaches_of(alloc, options.filter, text.as_slice())?;
    let source: Source<'_, R> = Source {
        text: text.as_slice(),
        reader: None,
    };
    report_source(alloc, options, known, reaches, file, source, out)
}

/// Reads a trace to its end, from the file of this name. Writes what the detail asks for as soon as a
/// record is read, and the last lines. Whether a verdict was told.
///
/// Of verdicts that the filter does not take nothing is told, and they count for nothing. So the first
/// verdict of a finding is the first that the filter takes, and its cause has the word of that one.
/// Of the verdicts of a finding that is known to be by design nothing is told either, and they count for
/// nothing: it is counted once, for the first entry of the list that matches its first verdict. If an
/// entry has a reach, the trace is read whole and judged before anything of it is told.
///
/// What was written before a fault stays. At `Line` it is all that of the records before the line, with
/// the last lines, or nothing if it is the first. At the others it is what is told of some of the
/// records, from the first on, or of `Output` and `BrokenPipe` a beginning of that or of all.
pub fn report_trace<R: Read + Drop, W: Write>(
    alloc: Global,
    options: Options,
    known: KnownList<'_>,
    file: &str,
    input: R,
    out: &mut W,
) -> Result<bool, ReportFault>
    ensures { (text : List ℕ) × IfSome (R.remaining input) (λ left. text ≡ left)
        × EndsJudged (told_of options (known_in known.entry) file.now) text result
        (W.contents out.old) (W.contents out.new) }
{
    if asks_for_reach(known.entries.as_slice()) {
        return report_whole(alloc, options, known, file.as_bytes(), input, out);
    }
    let reaches = KnownReaches::none(alloc);
    let source = Source {
        text: &[],
        reader: Some(input),
    };
    report_source(alloc, options, known, reaches, file.as_bytes(), source, out)
}
