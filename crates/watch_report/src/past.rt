//! What the lines of later verdicts print of the records that were read.
ghost use Rattle.std.specs.Prelude.{◌≡◌, ◌∷◌, List, [], OnOk};
ghost use Rattle.watch_report.specs.Past.{ArePast};
ghost use Rattle.watch_report.specs.TraceText.{Noted, line_at, note_at};

use crate::lines::Lines;
use crate::notes::Notes;
use std::alloc::{AllocError, Global};

/// The notes and the lines of the records that were read.
#[derive(Drop)]
pub(crate) struct Past {
    notes: Notes,
    lines: Lines,
}

impl Past {
    /// No record was read.
    pub(crate) fn new(alloc: Global) -> Past
        ensures { ArePast [] result }
    {
        Past {
            notes: Notes::new(alloc),
            lines: Lines::new(alloc),
        }
    }

    /// With the note and the line of the next record.
    #[inline(always)]
    pub(crate) fn add(&mut self, note: &[u8], line: u64) -> Result<(), AllocError>
        ensures { (records : List Noted) (newest : Noted) → ArePast records self.old
            → newest.by ≡ note.now → newest.line ≡ line
            → OnOk result (ArePast (newest ∷ records) self.new) }
    {
        self.notes.add(note)?;
        self.lines.add(line)
    }

    /// The note of the record of this number, from 1 on; empty if it has none.
    pub(crate) fn note(&self, number: u64) -> &[u8]
        ensures { (records : List Noted) → ArePast records self.now
            → result.now ≡ note_at records number }
    {
        self.notes.of(number)
    }

    /// The line of the record of this number; 0 if there is none.
    pub(crate) fn line(&self, number: u64) -> u64
        ensures { (records : List Noted) → ArePast records self.now
            → result ≡ line_at records number }
    {
        self.lines.of(number)
    }
}
