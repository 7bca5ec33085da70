//! The verdicts on a trace, for the reach of their findings.
ghost use Rattle.std.specs.Prelude.{◌≡◌, ◌∷◌, ℕ, List, [], IfErr, IfOk, OnOk, not};
ghost use Rattle.watch_causes.specs.KnownReaches.{reach_in};
ghost use Rattle.watch_causes.specs.declared.finding.Finding.{Finding as FindingOf};
ghost use Rattle.watch_engine.specs.declared.warning.Warning.{Warning as WarningOf};
ghost use Rattle.watch_report.specs.TraceLines.{line_in};
ghost use Rattle.watch_report.specs.TraceReaches.{AreReaches, HasJudged, reach_on};
ghost use Rattle.watch_report.specs.TraceText.{Noted, has_no_form, trace_of, with_record};
ghost use Rattle.watch_report.specs.declared.filter.Filter.{Filter as FilterOf};
ghost use Rattle.watch_report.specs.declared.reading_fault.ReadingFault.TheVariants.{NoMemory};

use crate::filter::Filter;
use crate::header::{Header, read_header};
use crate::known_text::first_line;
use crate::line::{Line, read_line};
use crate::order::put_in_order;
use crate::reading_fault::ReadingFault;
use std::alloc::Global;
use watch::Record;
use watch_causes::{Causes, KnownReaches};
use watch_engine::Watch;
use watch_tables::PageTables;

/// The verdicts on the lines that were read.
#[derive(Drop)]
pub(crate) struct Judging {
    header: Header,
    filter: Filter,
    watch: Watch<PageTables>,
    causes: Causes,
}

impl Judging {
    /// No line was read but the header.
    fn new(alloc: Global, filter: Filter, header: Header) -> Judging
        ensures header { result.header ≡ header }
        ensures judged { HasJudged filter [] [] result }
    {
        Judging {
            header,
            filter,
            watch: Watch::new(alloc, header.scheme, PageTables::new(alloc)),
            causes: Causes::new(alloc, header.scheme),
        }
    }

    /// Takes the next record.
    fn take_record(&mut self, newest: Record) -> Result<(), ReadingFault>
        ensures header { self.new.header ≡ self.old.header }
        ensures ok { (filter : FilterOf) (records : List Noted) (taken : List (List WarningOf)) (by : List ℕ)
            (line : ℕ) → HasJudged filter records taken self.old
            → OnOk result ((warnings : List WarningOf) × HasJudged filter
            (record { made = newest; by = by; line = line } ∷ records) (warnings ∷ taken) self.new) }
        ensures err { IfErr result (λ fault. fault ≡ NoMemory) }
    {
        let mut warnings = self.watch.record(newest)?;
        put_in_order(&mut warnings);
        self.filter.retain(&mut warnings);
        self.causes.record(newest, warnings.as_slice())?;
        Ok(())
    }

    /// Takes the next line. Whether it has a form: of one that has none nothing is taken.
    fn take_line(&mut self, line: &[u8]) -> Result<bool, ReadingFault>
        ensures header { self.new.header ≡ self.old.header }
        ensures form { IfOk result (λ taken. has_no_form self.old.header line.now ≡ not taken) }
        ensures ok { (filter : FilterOf) (records : List Noted) (taken : List (List WarningOf)) (number : ℕ)
            → HasJudged filter records taken self.old
            → OnOk result ((more : List (List WarningOf)) × HasJudged filter
            (with_record (line_in self.old.header line.now) number records) more self.new) }
        ensures err { IfErr result (λ fault. fault ≡ NoMemory) }
    {
        match read_line(self.header, line) {
            Some(Line::Record { record, .. }) => {
                self.take_record(record)?;
                Ok(true)
            }
            Some(Line::Mark(_)) => Ok(true),
            Some(Line::Comment) => Ok(true),
            Some(Line::Empty) => Ok(true),
            None => Ok(false),
        }
    }

    /// The reach of each finding.
    fn reaches(&self, alloc: Global) -> Result<KnownReaches, ReadingFault>
        ensures ok { (filter : FilterOf) (records : List Noted) (taken : List (List WarningOf))
            → HasJudged filter records taken self.now → IfOk result (λ all. (f : FindingOf)
            → reach_in all f ≡ reach_on self.now.header.scheme (trace_of records) taken f) }
        ensures err { IfErr result (λ fault. fault ≡ NoMemory) }
    {
        let reaches = self.causes.reaches(alloc)?;
        Ok(KnownReaches::new(alloc, self.causes.begun(), reaches.as_slice())?)
    }
}

/// The reach of the findings of the verdicts on a trace that the filter takes, before the first line that
/// has no form; of none, if the first line is no header.
pub(crate) fn reaches_of(
    alloc: Global,
    filter: Filter,
    text: &[u8],
) -> Result<KnownReaches, ReadingFault>
    ensures ok { IfOk result (λ all. AreReaches filter text.now (reach_in all)) }
    ensures err { IfErr result (λ fault. fault ≡ NoMemory) }
{
    let (first, rest) = first_line(text);
    let Some(header) = read_header(first) else {
        return Ok(KnownReaches::none(alloc));
    };
    let mut judging = Judging::new(alloc, filter, header);
    let mut left = rest;
    'lines: while let Some(lines) = left {
        let (line, rest) = first_line(lines);
        let taken = judging.take_line(line)?;
        if !taken {
            return judging.reaches(alloc);
        }
        left = rest;
    }
    judging.reaches(alloc)
}
