//! Texts that stand one after another in one piece of memory.
ghost use Rattle.std.specs.Prelude.{◌≡◌, ◌≤◌, ◌+◌, ℕ, [], OnErr, OnOk, length};
ghost use Rattle.std.specs.Vec.{vec_capacity, vec_len};
ghost use Rattle.watch_report.specs.TextEnds.{AreEnds, end_at, text_in};

use std::alloc::{AllocError, Global};

/// Texts, each of which begins where the one before it ends. Their places count from 1 on.
#[derive(Drop)]
pub(crate) struct Texts {
    bytes: Vec<u8>,
    // for each text where it ends
    ends: Vec<usize>,
    ghost in_order: { AreEnds ends.items (length bytes.items) },
}

/// Makes room for so many bytes more: for some to spare too, or for these alone where that many are
/// refused.
fn make_room(bytes: &mut Vec<u8>, more: usize) -> Result<(), AllocError>
    ensures items { bytes.new.items ≡ bytes.old.items }
    ensures ok { OnOk result (vec_len bytes.new + more ≤ vec_capacity bytes.new) }
{
    match bytes.reserve(more) {
        Ok(()) => Ok(()),
        Err(_) => bytes.reserve_exact(more),
    }
}

#[tactic(auto, unfolding(crate::specs::TextEnds::text_at))]
impl Texts {
    /// There is none.
    pub(crate) fn new(alloc: Global) -> Texts
        ensures { result.ends.items ≡ [] }
    {
        Texts {
            bytes: Vec::new(alloc),
            ends: Vec::new(alloc),
        }
    }

    /// How many there are.
    pub(crate) fn count(&self) -> usize
        ensures { result ≡ length self.now.ends.items }
    {
        self.ends.len()
    }

    // Where the text at a place ends, and the next one begins: 0 at place 0.
    fn end(&self, place: usize) -> usize
        ensures { result ≡ end_at self.now.ends.items place }
    {
        if place == 0 {
            return 0;
        }
        match self.ends.get(place - 1) {
            Some(end) => *end,
            None => 0,
        }
    }

    /// The text at a place; empty if there is none.
    pub(crate) fn text(&self, place: usize) -> &[u8]
        ensures { result.now ≡ text_in self.now.bytes.items self.now.ends.items place }
    {
        if place == 0 || place > self.ends.len() {
            return b"";
        }
        &self.bytes[self.end(place - 1)..self.end(place)]
    }

    /// With one text more, at the next place.
    pub(crate) fn add(&mut self, text: &[u8]) -> Result<(), AllocError>
        ensures count { OnOk result (length self.new.ends.items
            ≡ length self.old.ends.items + 1) }
        ensures text { OnOk result (text_in self.new.bytes.items self.new.ends.items
            (length self.new.ends.items) ≡ text.now) }
        ensures others { OnOk result ((p : ℕ) → p ≤ length self.old.ends.items
            → text_in self.new.bytes.items self.new.ends.items p
            ≡ text_in self.old.bytes.items self.old.ends.items p) }
        ensures err { OnErr result (self.new.bytes.items ≡ self.old.bytes.items) }
        ensures err_ends { OnErr result (self.new.ends.items ≡ self.old.ends.items) }
    {
        self.ends.reserve(1)?;
        make_room(&mut self.bytes, text.len())?;
        self.bytes.extend_from_slice(text)?;
        self.ends.push_reserved(self.bytes.len());
        Ok(())
    }
}
