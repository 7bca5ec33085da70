//! A trace that is being read.
ghost use Rattle.std.specs.Prelude.{◌≡◌, ◌+◌, ◌∷◌, ℕ, List, [], Option, IfErr, IfOk, OnOk, nat_lt, not};
ghost use Rattle.watch_engine.specs.declared.warning.Warning.{Warning as WarningOf};
ghost use Rattle.watch_report.specs.declared.options.Options.{Options as OptionsOf};
ghost use Rattle.watch_causes.specs.KnownFindings.{KnownEntry};
ghost use Rattle.watch_causes.specs.KnownReaches.{reach_in};
ghost use Rattle.watch_causes.specs.KnownSoFar.{entries_by};
ghost use Rattle.watch_report.specs.KnownLists.{KnownIn, list_of};
ghost use Rattle.watch_report.specs.declared.reading_fault.ReadingFault.TheVariants.{NoMemory};
ghost use Rattle.watch_report.specs.Output.{WritesAll};
ghost use Rattle.watch_report.specs.Reading.{FailsAtEnd, FailsAtLine, FailsAtRecord, HasSeen, Stands, TellsMore, unwritten};
ghost use Rattle.watch_report.specs.Reports.{told_of, WholeText};
ghost use Rattle.watch_report.specs.TraceLines.{line_in};
ghost use Rattle.watch_report.specs.TraceText.{has_no_form, Noted, with_record};
ghost use Rattle.watch_report.specs.VerdictLines.{noted_by};
ghost use Rattle.watch_report.specs.Warnings.{sum_of};

use crate::counting::{count_warnings, has_verdicts, one_more};
use crate::counts::VerdictCounts;
use crate::forms::push_summary_as;
use crate::header::Header;
use crate::known_end::{known_sum, push_known};
use crate::known_stage::drop_known;
use crate::line::{Line, read_line};
use crate::newest::Newest;
use crate::options::Options;
use crate::order::put_in_order;
use crate::output::{WriteFault, write_whole};
use crate::past::Past;
use crate::reading_fault::ReadingFault;
use crate::telling::Telling;
use crate::trigger::trigger_of;
use std::alloc::Global;
use std::io::Write;
use watch_causes::{Known, KnownFindings, KnownReaches};
use watch_engine::Watch;
use watch_tables::PageTables;

/// What is kept of the lines that were read.
#[derive(Drop)]
pub struct Reading {
    alloc: Global,
    options: Options,
    header: Header,
    watch: Watch<PageTables>,
    records: u64,
    past: Past,
    known: KnownFindings,
    telling: Telling,
    user: VerdictCounts,
    kernel: VerdictCounts,
}

impl Reading {
    /// No line was read but the header.
    pub fn new(
        alloc: Global,
        options: Options,
        known: Vec<Known>,
        reaches: KnownReaches,
        header: Header,
    ) -> Result<Reading, ReadingFault>
        ensures header { IfOk result (λ reading. reading.header ≡ header) }
        ensures seen { (file : List ℕ) → IfOk result (HasSeen options
            (list_of file (entries_by (reach_in reaches) known.items)) [] []) }
        ensures err { IfErr result (λ fault. fault ≡ NoMemory) }
    {
        let known = KnownFindings::new(alloc, header.scheme, known, reaches)?;
        Ok(Reading {
            alloc,
            options,
            header,
            watch: Watch::new(alloc, header.scheme, PageTables::new(alloc)),
            records: 0,
            past: Past::new(alloc),
            known,
            telling: Telling::new(alloc, options, header.scheme),
            user: VerdictCounts::default(),
            kernel: VerdictCounts::default(),
        })
    }

    /// Takes the next record, and answers what is told of it.
    #[inline(always)]
    fn judge(&mut self, file: &[u8], newest: &Newest<'_>) -> Result<Vec<u8>, ReadingFault>
        ensures header { self.new.header ≡ self.old.header }
        ensures ok { (options : OptionsOf) (known : KnownIn) (records : List Noted)
            (taken : List (List WarningOf)) → HasSeen options known records taken self.old
            → IfOk result (λ text. TellsMore (told_of options known file.now) (noted_by newest.now)
            records taken text.items self.new) }
        ensures err { IfErr result (λ fault. fault ≡ NoMemory) }
    {
        let trigger = trigger_of(&self.watch, &self.past, newest.made);
        let number = one_more(self.records)?;
        let mut warnings = self.watch.record(newest.made)?;
        put_in_order(&mut warnings);
        self.options.filter.retain(&mut warnings);
        drop_known(
            self.alloc,
            &mut self.known,
            newest,
            &self.past,
            &mut warnings,
        )?;
        self.records = number;
        count_warnings(&mut self.user, &mut self.kernel, warnings.as_slice())?;
        let text = self.telling.at_record(
            self.alloc,
            file,
            trigger,
            newest,
            &self.past,
            warnings.as_slice(),
        )?;
        self.past.add(newest.by, newest.line)?;
        Ok(text)
    }

    /// Why what is told is not written whole.
    fn unwritten(&self, fault: WriteFault) -> ReadingFault
        ensures { result ≡ unwritten fault (nat_lt 0 (sum_of self.now.user + sum_of self.now.kernel)) }
    {
        match fault {
            WriteFault::BrokenPipe => {
                if has_verdicts(self.user, self.kernel) {
                    ReadingFault::BrokenPipeWarned
                } else {
                    ReadingFault::BrokenPipe
                }
            }
            WriteFault::Failed => ReadingFault::Output,
        }
    }

    /// Takes the next record, and writes what is told of it.
    fn take_record<W: Write>(
        &mut self,
        file: &[u8],
        newest: &Newest<'_>,
        out: &mut W,
    ) -> Result<(), ReadingFault>
        ensures header { self.new.header ≡ self.old.header }
        ensures ok { (options : OptionsOf) (known : KnownIn) (start : Option (List ℕ))
            (records : List Noted)
            → Stands (told_of options known file.now) start (W.contents out.old) records self.old
            → OnOk result (Stands (told_of options known file.now) start (W.contents out.new)
            (noted_by newest.now ∷ records) self.new) }
        ensures err { (options : OptionsOf) (known : KnownIn) (start : Option (List ℕ))
            (records : List Noted)
            → Stands (told_of options known file.now) start (W.contents out.old) records self.old
            → IfErr result (λ fault. FailsAtRecord fault (told_of options known file.now)
            self.old.header.scheme (noted_by newest.now) records start (W.contents out.new)) }
    {
        let text = self.judge(file, newest)?;
        match write_whole(out, text.as_slice()) {
            Ok(()) => Ok(()),
            Err(fault) => Err(self.unwritten(fault)),
        }
    }

    /// Takes the next line, which has this number. Whether it has a form: of one that has none nothing
    /// is taken.
    pub fn take_line<W: Write>(
        &mut self,
        file: &[u8],
        number: u64,
        line: &[u8],
        out: &mut W,
    ) -> Result<bool, ReadingFault>
        ensures header { self.new.header ≡ self.old.header }
        ensures form { IfOk result (λ taken. has_no_form self.old.header line.now ≡ not taken) }
        ensures ok { (options : OptionsOf) (known : KnownIn) (start : Option (List ℕ))
            (records : List Noted)
            → Stands (told_of options known file.now) start (W.contents out.old) records self.old
            → OnOk result (Stands (told_of options known file.now) start (W.contents out.new)
            (with_record (line_in self.old.header line.now) number records) self.new) }
        ensures err { (options : OptionsOf) (known : KnownIn) (start : Option (List ℕ))
            (records : List Noted)
            → Stands (told_of options known file.now) start (W.contents out.old) records self.old
            → IfErr result (λ fault. FailsAtLine fault (told_of options known file.now) self.old.header
            number line.now records start (W.contents out.new)) }
    {
        match read_line(self.header, line) {
            Some(Line::Record { record, by }) => {
                let newest = Newest {
                    made: record,
                    by,
                    line: number,
                };
                match self.take_record(file, &newest, out) {
                    Ok(()) => Ok(true),
                    Err(fault) => Err(fault),
                }
            }
            Some(Line::Mark(_)) => Ok(true),
            Some(Line::Comment) => Ok(true),
            Some(Line::Empty) => Ok(true),
            None => Ok(false),
        }
    }

    /// Writes the last lines, where the line of a number may be wrong, and the list of what is known is
    /// from the file of this name. Whether a verdict was told.
    pub fn finish<W: Write>(
        &self,
        file: &[u8],
        list: &[u8],
        wrong: Option<u64>,
        out: &mut W,
    ) -> Result<bool, ReadingFault>
        ensures ok { (options : OptionsOf) (known : List KnownEntry) (start : Option (List ℕ))
            (records : List Noted)
            → Stands (told_of options (list_of list.now known) file.now) start (W.contents out.old)
            records self.now
            → IfOk result (λ some. WritesAll (WholeText
            (told_of options (list_of list.now known) file.now) wrong self.now.header.scheme records
            some) start (W.contents out.new)) }
        ensures err { (options : OptionsOf) (known : List KnownEntry) (start : Option (List ℕ))
            (records : List Noted)
            → Stands (told_of options (list_of list.now known) file.now) start (W.contents out.old)
            records self.now
            → IfErr result (λ fault. FailsAtEnd fault
            (told_of options (list_of list.now known) file.now) wrong self.now.header.scheme records
            start (W.contents out.new)) }
    {
        let mut text = Vec::new(self.alloc);
        self.telling
            .push_end(self.alloc, &mut text, file, &self.past)?;
        push_known(self.alloc, &self.options, &mut text, list, &self.known)?;
        let design = known_sum(&self.known)?;
        push_summary_as(
            self.alloc,
            self.options.form,
            &mut text,
            file,
            self.records,
            wrong,
            &self.user,
            &self.kernel,
            design,
        )?;
        match write_whole(out, text.as_slice()) {
            Ok(()) => Ok(has_verdicts(self.user, self.kernel)),
            Err(fault) => Err(self.unwritten(fault)),
        }
    }
}
