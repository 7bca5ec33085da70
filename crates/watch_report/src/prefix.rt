//! The records of a trace that were read, for the story of a verdict.
ghost use Rattle.std.specs.Prelude.{◌≡◌, ◌∷◌, ◌++◌, List, [], IsTrue, IfErr, IfOk, OnOk, not};
ghost use Rattle.watch.specs.declared.trace.Record.{Record as RecordOf};
ghost use Rattle.watch.specs.Trace.{Trace};
ghost use Rattle.watch.specs.WorkedTraces.{trace_of as made_from};
ghost use Rattle.watch_report.specs.declared.reading_fault.ReadingFault.TheVariants.{NoMemory};
ghost use Rattle.watch_report.specs.Explaining.{asked_of};
ghost use Rattle.watch_report.specs.Past.{ArePast};
ghost use Rattle.watch_report.specs.Prefix.{first_of, FindsAt, IsFirst, IsPrefix, TellsOf};
ghost use Rattle.watch_report.specs.StoryTexts.{story_text};
ghost use Rattle.watch_report.specs.ToldStories.{IsBlank, IsWhole};
ghost use Rattle.watch_report.specs.TraceLines.{line_in};
ghost use Rattle.watch_report.specs.TraceText.{Noted, has_no_form, with_record};
ghost use Rattle.watch_report.specs.VerdictLines.{noted_by};

use crate::filter::Filter;
use crate::header::Header;
use crate::line::{Line, read_line};
use crate::newest::Newest;
use crate::order::put_in_order;
use crate::past::Past;
use crate::reading_fault::ReadingFault;
use crate::story::Story;
use crate::story_text::{push_head, push_parts};
use crate::trigger::trigger_among;
use crate::warning::Trigger;
use pte::Scheme;
use std::alloc::{AllocError, Global};
use watch::Record;
use watch_causes::{Part, last_warnings, story};
use watch_engine::Warning;

/// A verdict, and its story.
#[derive(Drop)]
pub(crate) struct Found {
    trigger: Trigger,
    first: Warning,
    parts: Vec<Part>,
}

/// The first records of a trace, with their notes and lines.
#[derive(Drop)]
pub(crate) struct Prefix {
    records: Vec<Record>,
    past: Past,
}

fn first_of(warnings: &[Warning]) -> Option<Warning>
    ensures { result ≡ first_of warnings.now }
{
    if warnings.len() == 0 {
        return None;
    }
    Some(warnings[0])
}

/// The first of the verdicts at the last of the records that the filter takes, in order.
fn first_warning(
    alloc: Global,
    filter: Filter,
    scheme: Scheme,
    records: &[Record],
) -> Result<Option<Warning>, ReadingFault>
    ensures ok { (newest : RecordOf) (trace : Trace) → made_from records.now ≡ newest ∷ trace
        → IfOk result (λ first. IsFirst filter scheme newest trace first) }
    ensures err { IfErr result (λ fault. fault ≡ NoMemory) }
{
    let mut warnings = last_warnings(alloc, scheme, records)?;
    put_in_order(&mut warnings);
    filter.retain(&mut warnings);
    Ok(first_of(warnings.as_slice()))
}

impl Prefix {
    /// No record was read.
    pub(crate) fn new(alloc: Global) -> Prefix
        ensures { IsPrefix [] result }
    {
        Prefix {
            records: Vec::new(alloc),
            past: Past::new(alloc),
        }
    }

    /// With the next record.
    pub(crate) fn add(&mut self, newest: &Newest<'_>) -> Result<(), AllocError>
        ensures { (records : List Noted) → IsPrefix records self.old
            → OnOk result (IsPrefix (noted_by newest.now ∷ records) self.new) }
    {
        self.records.push(newest.made)?;
        self.past.add(newest.by, newest.line)
    }

    /// Takes the next line, which has this number. Whether it has a form: of one that has none nothing
    /// is taken.
    pub(crate) fn take_line(
        &mut self,
        header: Header,
        number: u64,
        line: &[u8],
    ) -> Result<bool, ReadingFault>
        ensures form { IfOk result (λ taken. has_no_form header line.now ≡ not taken) }
        ensures ok { (records : List Noted) → IsPrefix records self.old → OnOk result
            (IsPrefix (with_record (line_in header line.now) number records) self.new) }
        ensures err { IfErr result (λ fault. fault ≡ NoMemory) }
    {
        match read_line(header, line) {
            Some(Line::Record { record, by }) => {
                self.add(&Newest {
                    made: record,
                    by,
                    line: number,
                })?;
                Ok(true)
            }
            Some(Line::Mark(_)) => Ok(true),
            Some(Line::Comment) => Ok(true),
            Some(Line::Empty) => Ok(true),
            None => Ok(false),
        }
    }

    /// Finds the first verdict at the next record that the filter takes, and its story.
    fn find(
        &mut self,
        alloc: Global,
        filter: Filter,
        scheme: Scheme,
        made: Record,
    ) -> Result<Option<Found>, ReadingFault>
        ensures past { self.new.past ≡ self.old.past }
        ensures ok { (newest : Noted) (records : List Noted) → newest.made ≡ made
            → IsPrefix records self.old
            → IfOk result (λ found. FindsAt filter scheme newest records found) }
        ensures err { IfErr result (λ fault. fault ≡ NoMemory) }
    {
        let Some(trigger) = trigger_among(self.records.as_slice(), &self.past, made) else {
            return Ok(None);
        };
        self.records.reserve(1)?;
        self.records.push_reserved(made);
        let records = self.records.as_slice();
        let Some(first) = first_warning(alloc, filter, scheme, records)? else {
            return Ok(None);
        };
        let parts = story(alloc, scheme, records, &first)?;
        Ok(Some(Found {
            trigger,
            first,
            parts,
        }))
    }

    /// Writes a story that was found at the next record.
    fn write(
        &mut self,
        alloc: Global,
        file: &[u8],
        header: Header,
        newest: &Newest<'_>,
        found: &Found,
        told: &mut Story,
    ) -> Result<(), AllocError>
        ensures text { (records : List Noted) → ArePast records self.old.past → OnOk result
            (told.new.text.items ≡ told.old.text.items
            ++ story_text file.now header found.now.trigger (noted_by newest.now) records
            found.now.first found.now.parts.items) }
        ensures whole { (records : List Noted) → ArePast records self.old.past
            → IsBlank told.old → OnOk result (IsWhole file.now told.new) }
    {
        let first = &found.first;
        let parts = found.parts.as_slice();
        push_head(
            &mut told.text,
            file,
            header,
            found.trigger,
            newest,
            &self.past,
            first,
        )?;
        told.add_verdict(found.trigger, newest, &self.past, first)?;
        self.past.add(newest.by, newest.line)?;
        push_parts(
            &mut told.text,
            file,
            header.scheme,
            &self.past,
            first,
            parts,
        )?;
        told.add_rows(alloc, header.scheme, &self.past, first, parts)
    }

    /// Tells the story of the first verdict at the next record that the filter takes. Whether there is
    /// one.
    pub(crate) fn tell(
        &mut self,
        alloc: Global,
        filter: Filter,
        file: &[u8],
        header: Header,
        newest: &Newest<'_>,
        told: &mut Story,
    ) -> Result<bool, ReadingFault>
        requires empty { told.old.text.items ≡ [] }
        ensures ok { (records : List Noted) → IsPrefix records self.old → IfOk result (λ tells.
            TellsOf (asked_of file.now newest.now.line filter) header (noted_by newest.now) records
            tells told.new.text.items) }
        ensures whole { (records : List Noted) → IsPrefix records self.old → IsBlank told.old
            → IfOk result (λ tells. IsTrue tells → IsWhole file.now told.new) }
        ensures err { IfErr result (λ fault. fault ≡ NoMemory) }
    {
        let Some(found) = self.find(alloc, filter, header.scheme, newest.made)? else {
            return Ok(false);
        };
        self.write(alloc, file, header, newest, &found, told)?;
        Ok(true)
    }
}
