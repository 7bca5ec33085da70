//! The story of a verdict on a trace.
ghost use Rattle.std.specs.Prelude.{ℕ, List, IfErr, IfOk, IfSome, IsTrue, OnErr, OnOk, ◌≡◌, ◌≤◌, ◌⊎◌, [], true};
ghost use Rattle.std.specs.Io.KnownBytes.{Appends};
ghost use Rattle.watch_report.specs.declared.fault.ReportFault.TheVariants.{BrokenPipe, Output};
ghost use Rattle.watch_report.specs.Output.{AppendsFront};
ghost use Rattle.watch_report.specs.Explaining.{Explains, asked_of, up_to};
ghost use Rattle.watch_report.specs.Prefix.{AreBefore, ExplainsLine, IsPrefix};
ghost use Rattle.watch_report.specs.ToldStories.{Finds, FindsBy, FindsStory, IsBlank, IsWhole};
ghost use Rattle.watch_report.specs.TraceText.{Noted, lines_of};

use crate::fault::ReportFault;
use crate::filter::Filter;
use crate::header::{Header, read_header};
use crate::input::read_line as read_input;
use crate::line::{Line, read_line};
use crate::newest::Newest;
use crate::output::{WriteFault, write_whole};
use crate::prefix::Prefix;
use crate::report::{fault_of_line, first_line_fault};
use crate::retry::Retrying;
use crate::story::Story;
use std::alloc::Global;
use std::io::{BufRead, BufReader, Read, Write};

/// Explains the line that is asked for, which has this number.
fn explain_line(
    alloc: Global,
    filter: Filter,
    number: u64,
    file: &[u8],
    header: Header,
    line: &[u8],
    prefix: &mut Prefix,
    told: &mut Story,
) -> Result<bool, ReportFault>
    requires empty { told.old.text.items ≡ [] }
    ensures line { (records : List Noted) → IsPrefix records prefix.old → AreBefore number records
        → ExplainsLine (asked_of file.now number filter) header records line.now result
        told.new.text.items }
    ensures whole { (records : List Noted) → IsPrefix records prefix.old → IsBlank told.old
        → IfOk result (λ tells. IsTrue tells → IsWhole file.now told.new) }
{
    match read_line(header, line) {
        Some(Line::Record { record, by }) => {
            let newest = Newest {
                made: record,
                by,
                line: number,
            };
            match prefix.tell(alloc, filter, file, header, &newest, told) {
                Ok(tells) => Ok(tells),
                Err(fault) => Err(ReportFault::from(fault)),
            }
        }
        Some(Line::Mark(_)) => Ok(false),
        Some(Line::Comment) => Ok(false),
        Some(Line::Empty) => Ok(false),
        None => Err(fault_of_line(header, number, line, Ok(false))),
    }
}

/// Explains a line of a trace, of which the header was read. `line` is room for a line.
fn explain_lines<R: BufRead>(
    alloc: Global,
    filter: Filter,
    asked: u64,
    file: &[u8],
    header: Header,
    input: &mut R,
    line: &mut Vec<u8>,
    told: &mut Story,
) -> Result<bool, ReportFault>
    requires empty { told.old.text.items ≡ [] }
    ensures found { (left : List ℕ) × IfSome (R.remaining input.old) (λ all. left ≡ all)
        × FindsBy (asked_of file.now asked filter) (Ok header) (up_to asked (lines_of left)) result
        told.new.text.items }
    ensures whole { IsBlank told.old
        → IfOk result (λ tells. IsTrue tells → IsWhole file.now told.new) }
{
    if asked < 2 {
        return Ok(false);
    }
    let mut prefix = Prefix::new(alloc);
    for number in 2..asked {
        let more = read_input(input, line)?;
        let shown = line.as_slice();
        let taken = prefix.take_line(header, number, shown)?;
        if !taken {
            return Err(fault_of_line(header, number, shown, Ok(false)));
        }
        if !more {
            return Ok(false);
        }
    }
    let _more = read_input(input, line)?;
    let shown = line.as_slice();
    explain_line(alloc, filter, asked, file, header, shown, &mut prefix, told)
}

/// Explains a line of a trace, of which no line was read.
fn explain_all<R: BufRead>(
    alloc: Global,
    filter: Filter,
    asked: u64,
    file: &[u8],
    input: &mut R,
    told: &mut Story,
) -> Result<bool, ReportFault>
    requires empty { told.old.text.items ≡ [] }
    ensures found { (all : List ℕ) × IfSome (R.remaining input.old) (λ left. all ≡ left)
        × Finds (asked_of file.now asked filter) all result told.new.text.items }
    ensures whole { IsBlank told.old
        → IfOk result (λ tells. IsTrue tells → IsWhole file.now told.new) }
{
    let mut line = Vec::new(alloc);
    let more = read_input(input, &mut line)?;
    let first = line.as_slice();
    let Some(header) = read_header(first) else {
        return Err(first_line_fault(first));
    };
    if !more {
        return Ok(false);
    }
    explain_lines(alloc, filter, asked, file, header, input, &mut line, told)
}

/// The story of the first verdict on a line of a trace that the filter takes. `has_rows`: with its rows.
fn find_story<R: Read + Drop>(
    alloc: Global,
    filter: Filter,
    line: u64,
    file: &str,
    input: R,
    has_rows: bool,
) -> Result<Option<Story>, ReportFault>
    ensures found { (all : List ℕ) × IfSome (R.remaining input) (λ left. all ≡ left)
        × FindsStory (asked_of file.now line filter) all result }
    ensures whole { has_rows ≡ true
        → IfOk result (λ found. IfSome found (λ story. IsWhole file.now story)) }
{
    let Ok(mut reader) = BufReader::new(alloc, Retrying { inner: input }) else {
        return Err(ReportFault::NoMemory);
    };
    let mut told = Story::new(alloc, has_rows);
    if !explain_all(alloc, filter, line, file.as_bytes(), &mut reader, &mut told)? {
        return Ok(None);
    }
    Ok(Some(told))
}

/// Reads a trace up to a line, from the file of this name. The header is line 1. If that line is a
/// record with a verdict that the filter takes, answers the story of the first such verdict, which
/// `explain_trace` writes; that text is made of its rows. Without one there is none. Where a line up
/// to that one has no form `Line` tells it, with `warned` false, as nothing was judged.
pub fn tell_story<R: Read + Drop>(
    alloc: Global,
    filter: Filter,
    line: u64,
    file: &str,
    input: R,
) -> Result<Option<Story>, ReportFault>
    ensures found { (all : List ℕ) × IfSome (R.remaining input) (λ left. all ≡ left)
        × FindsStory (asked_of file.now line filter) all result }
    ensures whole { IfOk result (λ found. IfSome found (λ story. IsWhole file.now story)) }
{
    find_story(alloc, filter, line, file, input, true)
}

/// Writes all of a text that is told of a verdict. A `BrokenPipe` has `warned` true, as there is one.
pub fn write_told<W: Write>(out: &mut W, text: &[u8]) -> Result<(), ReportFault>
    ensures ok { OnOk result (Appends (W.contents out.old) (W.contents out.new) text.now) }
    ensures err { OnErr result (AppendsFront (W.contents out.old) (W.contents out.new) text.now) }
    ensures fault { IfErr result (λ fault. (fault ≡ Output) ⊎ (fault ≡ BrokenPipe true)) }
{
    match write_whole(out, text) {
        Ok(()) => Ok(()),
        Err(WriteFault::BrokenPipe) => Err(ReportFault::BrokenPipe { warned: true }),
        Err(WriteFault::Failed) => Err(ReportFault::Output),
    }
}

/// Reads a trace up to a line, from the file of this name. The header is line 1. If that line is a
/// record with a verdict that the filter takes, writes the story of the first such verdict: a trace
/// that alone gives it, with what each of its records has to do with it. Whether there is one.
///
/// Without one nothing is written, nor where a line up to that one has no form: `Line` tells it, with
/// `warned` false, as nothing was judged. A `BrokenPipe` has `warned` true, as there is a verdict.
pub fn explain_trace<R: Read + Drop, W: Write>(
    alloc: Global,
    filter: Filter,
    line: u64,
    file: &str,
    input: R,
    out: &mut W,
) -> Result<bool, ReportFault>
    ensures { (text : List ℕ) × IfSome (R.remaining input) (λ left. text ≡ left)
        × Explains (asked_of file.now line filter) text result (W.contents out.old)
        (W.contents out.new) }
{
    let Some(story) = find_story(alloc, filter, line, file, input, false)? else {
        return Ok(false);
    };
    write_told(out, story.text.as_slice())?;
    Ok(true)
}
