//! The story of a verdict as a value.
ghost use Rattle.std.specs.Prelude.{ℕ, ◌≡◌, ◌++◌, [], List, IfOk, OnOk, true};
ghost use Rattle.watch.specs.Trace.{hart_of};
ghost use Rattle.watch_report.specs.Past.{ArePast};
ghost use Rattle.watch_report.specs.RecordLines.{note_text, record_text};
ghost use Rattle.watch_report.specs.StoryTexts.{parts_text, role_text};
ghost use Rattle.watch_report.specs.ToldStories.{IsBlank, rows_text};
ghost use Rattle.watch_report.specs.TraceText.{Noted, line_at, note_at};
ghost use Rattle.watch_report.specs.VerdictLines.{noted_by, printed_of};
ghost use Rattle.watch_report.specs.Warnings.{warning_line};

use crate::emit::push_noted;
use crate::newest::Newest;
use crate::past::Past;
use crate::story_text::push_role;
use crate::verdicts::printed;
use crate::warning::{Trigger, push_warning};
use pte::Scheme;
use std::alloc::{AllocError, Global};
use watch::Record;
use watch_causes::{Part, Role};
use watch_engine::Warning;

/// A record of a story.
#[derive(Drop)]
pub struct StoryRow {
    /// The line of the file that it stands on.
    pub line: u64,
    /// The hart that made it.
    pub hart: u8,
    /// What it has to do with the verdict.
    pub role: Role,
    /// The record as its line has it, with its note.
    pub text: Vec<u8>,
    /// Its role in words.
    pub words: Vec<u8>,
}

/// The story of a verdict.
#[derive(Drop)]
pub struct Story {
    /// What `explain_trace` writes: a trace that alone gives the verdict, with comments.
    pub text: Vec<u8>,
    /// The verdict's line behind the name of the file, with its end.
    pub verdict: Vec<u8>,
    /// The hart that may hold the verdict's translation.
    pub hart: u8,
    /// Where the page of the translation begins.
    pub page: u64,
    /// The records, in their order.
    pub rows: Vec<StoryRow>,
    /// Whether what a picture shows is wanted beside the text.
    has_rows: bool,
}

fn hart_of(made: &Record) -> u8
    ensures { result ≡ hart_of made.now }
{
    match made {
        Record::Store { hart, .. } => *hart,
        Record::Satp { hart, .. } => *hart,
        Record::Fence { hart, .. } => *hart,
        Record::RemoteBegin { hart, .. } => *hart,
        Record::RemoteEnd { hart, .. } => *hart,
        Record::GiveOut { hart, .. } => *hart,
        Record::GiveBack { hart, .. } => *hart,
        Record::ClaimBegin { hart, .. } => *hart,
        Record::ClaimEnd { hart, .. } => *hart,
        Record::Use { hart, .. } => *hart,
    }
}

/// What a picture shows of a record of a story.
fn row_of(
    alloc: Global,
    scheme: Scheme,
    past: &Past,
    warning: &Warning,
    part: &Part,
) -> Result<StoryRow, AllocError>
    ensures line { (records : List Noted) → ArePast records past.now
        → IfOk result (λ row. row.line ≡ line_at records part.now.number) }
    ensures hart { IfOk result (λ row. row.hart ≡ hart_of part.now.made) }
    ensures role { IfOk result (λ row. row.role ≡ part.now.role) }
    ensures text { (records : List Noted) → ArePast records past.now → IfOk result (λ row.
        row.text.items ≡ record_text scheme part.now.made
        ++ note_text (note_at records part.now.number)) }
    ensures words { IfOk result (λ row.
        row.words.items ≡ role_text warning.now part.now.made part.now.role) }
{
    let mut text = Vec::new(alloc);
    push_noted(&mut text, scheme, part.made, past.note(part.number))?;
    let mut words = Vec::new(alloc);
    push_role(&mut words, warning, &part.made, part.role)?;
    Ok(StoryRow {
        line: past.line(part.number),
        hart: hart_of(&part.made),
        role: part.role,
        text,
        words,
    })
}

fn push_rows(
    alloc: Global,
    rows: &mut Vec<StoryRow>,
    scheme: Scheme,
    past: &Past,
    warning: &Warning,
    parts: &[Part],
) -> Result<(), AllocError>
    ensures { (file : List ℕ) (records : List Noted) → ArePast records past.now
        → OnOk result (rows_text file rows.new.items ≡ rows_text file rows.old.items
        ++ parts_text file scheme records warning.now parts.now) }
{
    for part in parts {
        let row = row_of(alloc, scheme, past, warning, part)?;
        rows.push(row)?;
    }
    Ok(())
}

impl Story {
    /// No story was told. `has_rows`: the verdict and the rows are wanted beside the text.
    pub(crate) fn new(alloc: Global, has_rows: bool) -> Story
        ensures empty { result.text.items ≡ [] }
        ensures blank { has_rows ≡ true → IsBlank result }
    {
        Story {
            text: Vec::new(alloc),
            verdict: Vec::new(alloc),
            hart: 0,
            page: 0,
            rows: Vec::new(alloc),
            has_rows,
        }
    }

    /// Adds the verdict of a warning at the newest record, if it is wanted.
    pub(crate) fn add_verdict(
        &mut self,
        trigger: Trigger,
        newest: &Newest<'_>,
        past: &Past,
        warning: &Warning,
    ) -> Result<(), AllocError>
        ensures text { self.new.text ≡ self.old.text }
        ensures rows { self.new.rows ≡ self.old.rows }
        ensures wanted { self.new.has_rows ≡ self.old.has_rows }
        ensures verdict { (records : List Noted) → ArePast records past.now
            → self.old.has_rows ≡ true → OnOk result (self.new.verdict.items
            ≡ self.old.verdict.items ++ warning_line []
            (printed_of trigger (noted_by newest.now) records warning.now)
            (note_at records warning.now.stale_since) newest.now.by.now) }
    {
        if !self.has_rows {
            return Ok(());
        }
        self.hart = warning.hart;
        self.page = warning.entry.page.base().get();
        push_warning(
            &mut self.verdict,
            b"",
            &printed(trigger, newest, past, warning),
            past.note(warning.stale_since),
            newest.by,
        )
    }

    /// Adds the rows of records, if they are wanted.
    pub(crate) fn add_rows(
        &mut self,
        alloc: Global,
        scheme: Scheme,
        past: &Past,
        warning: &Warning,
        parts: &[Part],
    ) -> Result<(), AllocError>
        ensures text { self.new.text ≡ self.old.text }
        ensures verdict { self.new.verdict ≡ self.old.verdict }
        ensures rows { (file : List ℕ) (records : List Noted) → ArePast records past.now
            → self.old.has_rows ≡ true → OnOk result (rows_text file self.new.rows.items
            ≡ rows_text file self.old.rows.items
            ++ parts_text file scheme records warning.now parts.now) }
    {
        if !self.has_rows {
            return Ok(());
        }
        push_rows(alloc, &mut self.rows, scheme, past, warning, parts)
    }
}
