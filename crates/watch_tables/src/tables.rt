//! The words of memory that a trace has stored.

ghost use Rattle.std.specs.Prelude.{ℕ, ◌≡◌, ◌<◌, ◌≤◌, IfSome, IsTrue, None, OnErr, OnOk};
ghost use Rattle.std.specs.Prelude.{◌+◌, ◌*◌, ◌/◌, ◌&&◌, ◌⊎◌, ◌↔◌, ◌≢◌, not};
ghost use Rattle.std.specs.List.{Contains};
ghost use Rattle.watch.specs.Trace.{index_of};
ghost use Rattle.watch_tables.specs.Stored.{is_kept, is_table, table_of, up_to_limit};
ghost use Rattle.watch_tables.specs.InFrame.{IsOfFrame, word_in};
ghost use Rattle.watch_tables.specs.FrameTables.{in_frames};
ghost use Rattle.watch_tables.specs.Pointers.{has_number, has_pointer};

use crate::frame::{Frame, StoredWord};
use crate::frame_table::FrameTable;
use crate::pointers::{Pointer, Pointers};
use pte::{Kind, PAGE_BYTES, Pte, TABLE_LENGTH};
use std::alloc::{AllocError, Global};
use std::collections::btree_set::Range;
use watch::Frames;

/// How many bytes a word of a table has.
const WORD_BYTES: u64 = 8;

/// How many frames of 4 KiB the physical addresses of 64 bits have.
const FRAME_LIMIT: u64 = 1 << 52;

/// The words of memory that a trace has stored, as page tables. Each other word is 0.
#[derive(Drop)]
pub struct PageTables {
    // the frames that have a word that is not 0, by their PPN
    frames: FrameTable,
    // which of the words are pointers, and to which table
    pointers: Pointers,
    // where a frame is made
    alloc: Global,
    // the number of a word is its physical address / 8
    ghost kept: { (number : ℕ) → IsTrue (is_kept number (in_frames frames number)) },
    ghost linked: { (table number : ℕ) → has_pointer pointers table number
        ≡ is_table (table_of (in_frames frames number)) table },
}

/// What frames have under the number of a word.
fn find(frames: &FrameTable, number: u64) -> Option<StoredWord>
    ensures { result ≡ in_frames frames.now number }
{
    let length = u64::from(TABLE_LENGTH);
    match frames.find(number / length) {
        Some(frame) => frame.word((number % length) as u16),
        None => None,
    }
}

/// The index of the word at a physical address, in the table that its frame is.
pub(crate) fn index_of(address: u64) -> u16
    ensures index { result ≡ index_of address }
    ensures range { result < TABLE_LENGTH }
{
    (address % PAGE_BYTES / WORD_BYTES) as u16
}

/// The table that a stored word points to.
fn pointed(stored: Option<StoredWord>) -> Option<u64>
    ensures { result ≡ table_of stored }
{
    let Some(stored) = stored else {
        return None;
    };
    match Pte(stored.word).kind() {
        Kind::Table { ppn, .. } => Some(ppn),
        _ => None,
    }
}

/// The PPNs of frames: the first, and the one after the last.
fn ppns_of(frames: Frames) -> (u64, u64)
    ensures first { result.0 ≡ up_to_limit frames.first }
    ensures end { result.1 ≡ up_to_limit (frames.first + frames.count) }
{
    let last = frames.first.saturating_add(frames.count);
    (frames.first.min(FRAME_LIMIT), last.min(FRAME_LIMIT))
}

/// Adds the physical addresses of the words of the frame at a PPN that are not 0.
fn add_addresses(frame: &Frame, ppn: u64, addresses: &mut Vec<u64>) -> Result<(), AllocError>
    requires { ppn < FRAME_LIMIT }
    ensures { OnOk result ((address : ℕ) → Contains addresses.new.items address
        ↔ (Contains addresses.old.items address ⊎ IsOfFrame frame.now ppn TABLE_LENGTH address)) }
{
    let first = ppn * u64::from(TABLE_LENGTH);
    let mut from = 0;
    while let Some((index, _)) = frame.next_word(from) {
        addresses.push((first + u64::from(index)) * WORD_BYTES)?;
        from = index + 1;
    }
    Ok(())
}

/// Takes out the pointers in the frame at a PPN.
fn remove_pointers(pointers: &mut Pointers, frame: &Frame, ppn: u64)
    requires { ppn < FRAME_LIMIT }
    ensures inside { (t i : ℕ) → i < TABLE_LENGTH → has_pointer pointers.new t (ppn * TABLE_LENGTH + i)
        ≡ (not (is_table (table_of (word_in frame.now i)) t)
        && has_pointer pointers.old t (ppn * TABLE_LENGTH + i)) }
    ensures outside { (t n : ℕ) → n / TABLE_LENGTH ≢ ppn
        → has_pointer pointers.new t n ≡ has_pointer pointers.old t n }
{
    let first = ppn * u64::from(TABLE_LENGTH);
    let mut from = 0;
    while let Some((index, stored)) = frame.next_word(from) {
        pointers.remove(pointed(Some(stored)), first + u64::from(index));
        from = index + 1;
    }
}

impl PageTables {
    ghost use Rattle.std.specs.Prelude.{◌≢◌, ◌⊎◌, [], IfOk, Some, false};
    ghost use Rattle.walk.specs.Maps.{page_number};
    ghost use Rattle.watch.specs.declared.trace.Record.TheVariants.{GiveOut, Store};
    ghost use Rattle.watch.specs.Trace.{is_among, words_after, words_of};
    ghost use Rattle.walk.specs.Leads.{PointsTo};
    ghost use Rattle.watch_tables.specs.Words.{AreFilled, since, word_number, words};
    ghost use Rattle.watch_tables.specs.Climbs.{IsPointer};
    ghost use Rattle.watch_tables.specs.Stored.{since_of, value_of};
    ghost use Rattle.watch_tables.specs.Paths.{lacks_g};

    /// Memory of which nothing is stored.
    pub fn new(alloc: Global) -> PageTables
        ensures { words result ≡ words_of [] }
    {
        PageTables {
            frames: FrameTable::new(alloc),
            pointers: Pointers::new(alloc),
            alloc,
        }
    }

    /// The word at an index of the table at a PPN.
    #[inline(always)]
    pub(crate) fn word(&self, table: u64, index: u16) -> u64
        ensures { words self.now table index ≡ Some result }
    {
        if table >= FRAME_LIMIT || index >= TABLE_LENGTH {
            return 0;
        }
        self.frames.value(table, index)
    }

    /// What is stored at an index of the table at a PPN.
    pub(crate) fn stored_at(&self, table: u64, index: u16) -> Option<StoredWord>
        ensures some { IfSome result (λ stored. words self.now table index ≡ Some stored.word) }
        ensures none { result ≡ None → words self.now table index ≡ Some 0 }
        ensures since { since_of result ≡ since self.now table index }
    {
        if table >= FRAME_LIMIT || index >= TABLE_LENGTH {
            return None;
        }
        let number = table * u64::from(TABLE_LENGTH) + u64::from(index);
        find(&self.frames, number)
    }

    /// The pairs of a table and the number of each word that points to it, ascending.
    pub(crate) fn pointers_to(&self, table: u64) -> Range<'_, (u64, u64)>
        ensures { (t i : ℕ) → PointsTo (words self.now t i) table
            → IsTrue (has_number result (word_number t i)) }
    {
        self.pointers.to(table)
    }

    /// The pointer that the word with a number is, if it points to a table.
    pub(crate) fn pointer(&self, table: u64, number: u64) -> Option<Pointer>
        ensures some { IfSome result (λ pointer.
            IsPointer (words self.now) (since self.now) table pointer) }
        ensures number { IfSome result (λ pointer. pointer.number ≡ number) }
        ensures none { result ≡ None → (t i : ℕ) → word_number t i ≡ number
            → ¬ PointsTo (words self.now t i) table }
    {
        let Some(stored) = find(&self.frames, number) else {
            return None;
        };
        let Kind::Table { ppn, global } = Pte(stored.word).kind() else {
            return None;
        };
        if ppn != table {
            return None;
        }
        Some(Pointer {
            number,
            global,
            since: stored.since,
        })
    }

    /// Stores a word at a physical address, whose low three bits count for nothing; `count` is the
    /// number of records so far. Refused only where memory runs out: then nothing has changed.
    pub fn store(&mut self, address: u64, word: u64, count: u64) -> Result<(), AllocError>
        ensures ok { OnOk result ((hart : ℕ)
            → words self.new ≡ words_after (Store hart address word) (words self.old)) }
        ensures others { OnOk result ((t i : ℕ) → ¬ ((t ≡ page_number address) × (i ≡ index_of address))
            → since self.new t i ≡ since self.old t i) }
        ensures count { OnOk result (word ≢ 0
            → since self.new (page_number address) (index_of address) ≡ count) }
        ensures err { OnErr result (words self.new ≡ words self.old) }
        ensures err_since { OnErr result (since self.new ≡ since self.old) }
    {
        let number = address / WORD_BYTES;
        let old = pointed(find(&self.frames, number));
        let new = pointed(Some(StoredWord { word, since: count }));
        if old == new {
            return self.frames.put(self.alloc, number, word, count);
        }
        self.pointers.add(new, number)?;
        let done = self.frames.put(self.alloc, number, word, count);
        let gone = if done.is_ok() { old } else { new };
        self.pointers.remove(gone, number);
        done
    }

    /// The first index from `from` on at which a word of the table at a PPN is stored, and what is
    /// stored there. All words before it, or all from `from` on if there is none, are 0.
    pub(crate) fn next_word(&self, table: u64, from: u16) -> Option<(u16, StoredWord)>
        requires { from ≤ TABLE_LENGTH }
        ensures from { IfSome result (λ next. from ≤ next.0) }
        ensures below { IfSome result (λ next. next.0 < TABLE_LENGTH) }
        ensures skipped { IfSome result (λ next. (n : ℕ) → from ≤ n → n < next.0
            → words self.now table n ≡ Some 0) }
        ensures word { IfSome result (λ next. words self.now table next.0 ≡ Some next.1.word) }
        ensures since { IfSome result (λ next. since self.now table next.0 ≡ next.1.since) }
        ensures none { result ≡ None → (n : ℕ) → from ≤ n → n < TABLE_LENGTH
            → words self.now table n ≡ Some 0 }
    {
        if table >= FRAME_LIMIT {
            return None;
        }
        match self.frames.find(table) {
            Some(frame) => frame.next_word(from),
            None => None,
        }
    }

    /// The first index from `from` on at which a word of the table at a PPN lacks G, and what is stored
    /// there.
    pub(crate) fn next_lacking_g(&self, table: u64, from: u16) -> Option<(u16, StoredWord)>
        requires { from ≤ TABLE_LENGTH }
        ensures from { IfSome result (λ next. from ≤ next.0) }
        ensures below { IfSome result (λ next. next.0 < TABLE_LENGTH) }
        ensures lacks { IfSome result (λ next. IsTrue (lacks_g next.1.word)) }
        ensures skipped { IfSome result (λ next. (n word : ℕ) → from ≤ n → n < next.0
            → words self.now table n ≡ Some word → lacks_g word ≡ false) }
        ensures word { IfSome result (λ next. words self.now table next.0 ≡ Some next.1.word) }
        ensures since { IfSome result (λ next. since self.now table next.0 ≡ next.1.since) }
        ensures none { result ≡ None → (n word : ℕ) → from ≤ n → n < TABLE_LENGTH
            → words self.now table n ≡ Some word → lacks_g word ≡ false }
    {
        if table >= FRAME_LIMIT {
            return None;
        }
        match self.frames.find(table) {
            Some(frame) => frame.next_lacking_g(from),
            None => None,
        }
    }

    /// The physical addresses of the words in the frames that are not 0. Refused only where memory
    /// runs out.
    pub fn stored_in(&self, alloc: Global, frames: Frames) -> Result<Vec<u64>, AllocError>
        ensures { IfOk result (λ addresses. AreFilled (words self.now) frames addresses.items) }
    {
        let mut addresses = Vec::new(alloc);
        let (mut from, end) = ppns_of(frames);
        while let Some((ppn, frame)) = self.frames.first_from(from, end) {
            add_addresses(frame, ppn, &mut addresses)?;
            from = ppn + 1;
        }
        Ok(addresses)
    }

    /// Makes each word of the frames 0.
    pub fn clear(&mut self, frames: Frames)
        ensures words { (hart : ℕ)
            → words self.new ≡ words_after (GiveOut hart frames) (words self.old) }
        ensures others { (t i : ℕ) → is_among frames t ≡ false
            → since self.new t i ≡ since self.old t i }
    {
        let (start, end) = ppns_of(frames);
        while let Some((ppn, _)) = self.frames.first_from(start, end) {
            if let Some(frame) = self.frames.remove(ppn) {
                remove_pointers(&mut self.pointers, &frame, ppn);
            }
        }
    }
}
