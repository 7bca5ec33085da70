//! The notes of records, for the lines of later verdicts.
ghost use Rattle.std.specs.Prelude.{◌≡◌, ◌≤◌, ◌∷◌, ℕ, List, [], IfNone, IfOk, IfSome, OnErr, OnOk, length};
ghost use Rattle.watch_report.specs.NoteTexts.{AreNotes, before_in, is_recent, IsNoneInRow, SameNotes, text_of};
ghost use Rattle.watch_report.specs.TraceText.{Noted, note_at};

use crate::texts::Texts;
use std::alloc::{AllocError, Global};

/// Among how many of the last texts a new note is looked for.
const RECENT: usize = 64;

/// In how many rows the texts are linked.
const ROWS: usize = 256;

/// The notes of the records that were read. A text that comes again soon is kept once.
#[derive(Drop)]
pub struct Notes {
    texts: Texts,
    // for each text the place of the one before it in its row, or 0 for none
    before: Vec<u32>,
    // for each row the place of its newest text, or 0 for none
    newest: [u32; ROWS],
    // for each record the place of its text, or 0 for no note
    places: Vec<u32>,
}

// 2^64 by the golden ratio: a factor that spreads bytes over the high bits.
const SPREAD: u64 = 0x9E37_79B9_7F4A_7C15;

// The row of a text, by all of its bytes, eight at a time.
fn row_of(text: &[u8]) -> u8 {
    let mut mixed: u64 = 0;
    let (words, rest) = text.as_chunks::<8>();
    for word in words {
        mixed = (mixed.rotate_left(5) ^ u64::from_le_bytes(*word)).wrapping_mul(SPREAD);
    }
    for byte in rest {
        mixed = mixed.rotate_left(5) ^ u64::from(*byte);
    }
    (mixed.wrapping_mul(SPREAD) >> 56) as u8
}

/// Whether a place is one of the last, of so many.
fn is_recent(count: usize, place: usize) -> bool
    ensures { result ≡ is_recent count place }
{
    place > count.saturating_sub(RECENT) && place <= count
}

impl Notes {
    /// No record was read.
    pub fn new(alloc: Global) -> Notes
        ensures { AreNotes [] result }
    {
        Notes {
            texts: Texts::new(alloc),
            before: Vec::new(alloc),
            newest: [0; ROWS],
            places: Vec::new(alloc),
        }
    }

    // The place of the text before another in its row, or 0 for none.
    fn before(&self, place: u32) -> u32
        ensures { result ≡ before_in self.now place }
    {
        if place == 0 {
            return 0;
        }
        match self.before.get(place as usize - 1) {
            Some(before) => *before,
            None => 0,
        }
    }

    // The place of a recent text, from the newest of its row back: few others are compared, and no
    // more than there are recent texts.
    fn recent(&self, note: &[u8], row: u8) -> Option<u32>
        ensures text { IfSome result (λ place. text_of self.now.texts place ≡ note.now) }
        ensures within { IfSome result (λ place. place ≤ length self.now.texts.ends.items) }
        ensures none { IfNone result (IsNoneInRow self.now row note.now) }
    {
        let count = self.texts.count();
        let mut place = self.newest[usize::from(row)];
        for step in 0..RECENT {
            let at = place as usize;
            if !is_recent(count, at) {
                return None;
            }
            if self.texts.text(at) == note {
                return Some(place);
            }
            place = self.before(place);
        }
        None
    }

    // The place of a text, which is kept if it is not recent.
    fn keep(&mut self, note: &[u8]) -> Result<u32, AllocError>
        ensures places { OnOk result (self.new.places ≡ self.old.places) }
        ensures text { IfOk result (λ place. text_of self.new.texts place ≡ note.now) }
        ensures within { IfOk result (λ place. place ≤ length self.new.texts.ends.items) }
        ensures grows { OnOk result (length self.old.texts.ends.items
            ≤ length self.new.texts.ends.items) }
        ensures others { OnOk result ((p : ℕ) → p ≤ length self.old.texts.ends.items
            → text_of self.new.texts p ≡ text_of self.old.texts p) }
        ensures err { OnErr result (SameNotes self.old self.new) }
    {
        if note.is_empty() {
            return Ok(0);
        }
        let row = row_of(note);
        if let Some(place) = self.recent(note, row) {
            return Ok(place);
        }
        let Ok(place) = u32::try_from(self.texts.count() + 1) else {
            return Err(AllocError);
        };
        self.before.reserve(1)?;
        self.texts.add(note)?;
        self.before.push_reserved(self.newest[usize::from(row)]);
        self.newest[usize::from(row)] = place;
        Ok(place)
    }

    /// With the note of the next record, which is empty if it has none.
    #[inline(always)]
    pub fn add(&mut self, note: &[u8]) -> Result<(), AllocError>
        ensures ok { (records : List Noted) (newest : Noted) → AreNotes records self.old
            → newest.by ≡ note.now → OnOk result (AreNotes (newest ∷ records) self.new) }
        ensures err { OnErr result (SameNotes self.old self.new) }
    {
        self.places.reserve(1)?;
        let place = self.keep(note)?;
        self.places.push_reserved(place);
        Ok(())
    }

    /// The note of the record of this number, from 1 on; empty if it has none.
    pub fn of(&self, number: u64) -> &[u8]
        ensures { (records : List Noted) → AreNotes records self.now
            → result.now ≡ note_at records number }
    {
        if number == 0 {
            return b"";
        }
        match self.places.get((number - 1) as usize) {
            Some(place) => self.texts.text(*place as usize),
            None => b"",
        }
    }
}
