//! What moves the reach of findings: writes of satp, and fences that are done.

ghost use Rattle.std.specs.Prelude.{ℕ, ◌≡◌, ◌<◌, ◌==◌, ◌∷◌, ◌||◌, if◌then◌else◌, [], None, OnOk, drop, false, filter, get_or, is_some, length};
ghost use Rattle.watch.specs.Trace.{Trace, satp_of};
ghost use Rattle.watch.specs.declared.trace.Record.TheVariants as records;
ghost use Rattle.watch_causes.specs.declared.moves.Move.TheVariants as moves;
ghost use Rattle.watch_causes.specs.Moves.{asid_in, ended_by, fence_count, is_not_under, kept_with, moved_by, newest_open, start_by};
ghost use Rattle.watch_causes.specs.Reaches.{is_under};

use crate::decision::is_under;
use std::alloc::{AllocError, Global};
use watch::{Record, Space};
use watch_engine::Warning;

/// A remote fence that has begun and not ended: its place among the fences of the log.
#[derive(Clone, Copy, PartialEq, Eq, Debug)]
pub(crate) struct Open {
    pub(crate) token: u64,
    pub(crate) at: usize,
}

/// A write of satp, with the ASID, or a fence that is done: its place among the fences of the log.
#[derive(Clone, Copy, PartialEq, Eq, Debug)]
pub(crate) enum Move {
    Writes { hart: u8, asid: Option<u16> },
    Fences { at: usize },
}

/// The moves of a trace: none is kept before it is asked for.
#[derive(Drop)]
pub(crate) struct Moves {
    asids: Vec<Option<u16>>,
    begun: Vec<Open>,
    keeps: bool,
    kept: Vec<Move>,
}

fn asid_in(space: &Option<Space>) -> Option<u16>
    ensures { result ≡ asid_in space.now }
{
    match space {
        None => None,
        Some(space) => Some(space.asid),
    }
}

/// The newest under the token.
fn newest(begun: &[Open], token: u64) -> Option<Open>
    ensures { result ≡ newest_open token None begun.now }
{
    let mut found = None;
    for one in begun {
        if one.token == token {
            found = Some(*one);
        }
    }
    found
}

fn end_all(begun: &mut Vec<Open>, token: u64)
    ensures { begun.new.items ≡ filter (is_not_under token) begun.old.items }
{
    begun.retain(|one| one.token != token);
}

/// With a place for a hart.
fn add_hart(asids: &mut Vec<Option<u16>>, hart: u8) -> Result<(), AllocError>
    ensures same { (h : ℕ) → get_or asids.new.items h None ≡ get_or asids.old.items h None }
    ensures ok { OnOk result (hart < length asids.new.items) }
{
    for _place in asids.len()..hart as usize + 1 {
        asids.push(None)?;
    }
    Ok(())
}

fn write(asids: &mut Vec<Option<u16>>, hart: u8, asid: Option<u16>) -> Result<(), AllocError>
    ensures { OnOk result ((h : ℕ) → get_or asids.new.items h None
        ≡ if hart == h then asid else get_or asids.old.items h None) }
{
    add_hart(asids, hart)?;
    asids[hart as usize] = asid;
    Ok(())
}

impl Moves {
    ghost use Rattle.watch_causes.specs.Moves.{Tracks};

    pub(crate) fn new(alloc: Global) -> Moves
        ensures tracks { Tracks [] result }
        ensures keeps { result.keeps ≡ false }
        ensures kept { result.kept.items ≡ [] }
    {
        Moves {
            asids: Vec::new(alloc),
            begun: Vec::new(alloc),
            keeps: false,
            kept: Vec::new(alloc),
        }
    }

    fn keep(&mut self, one: Move) -> Result<(), AllocError>
        ensures asids { self.new.asids ≡ self.old.asids }
        ensures begun { self.new.begun ≡ self.old.begun }
        ensures keeps { self.new.keeps ≡ self.old.keeps }
        ensures kept { OnOk result (self.new.kept.items
            ≡ kept_with self.old.keeps self.old.kept.items (one ∷ [])) }
    {
        if self.keeps {
            self.kept.push(one)?;
        }
        Ok(())
    }

    fn enter(&mut self, hart: u8, space: &Option<Space>) -> Result<(), AllocError>
        ensures tracks { (trace : Trace) → Tracks trace self.old
            → OnOk result (Tracks (records.Satp hart space.now ∷ trace) self.new) }
        ensures keeps { self.new.keeps ≡ self.old.keeps }
        ensures kept { OnOk result (self.new.kept.items
            ≡ kept_with self.old.keeps self.old.kept.items (moves.Writes hart (asid_in space.now) ∷ [])) }
    {
        let asid = asid_in(space);
        write(&mut self.asids, hart, asid)?;
        self.keep(Move::Writes { hart, asid })
    }

    fn end(&mut self, token: u64) -> Result<(), AllocError>
        ensures tracks { (hart : ℕ) (trace : Trace) → Tracks trace self.old
            → OnOk result (Tracks (records.RemoteEnd hart token ∷ trace) self.new) }
        ensures keeps { self.new.keeps ≡ self.old.keeps }
        ensures kept { OnOk result (self.new.kept.items ≡ kept_with self.old.keeps self.old.kept.items
            (ended_by (newest_open token None self.old.begun.items))) }
    {
        if let Some(one) = newest(self.begun.as_slice(), token) {
            self.keep(Move::Fences { at: one.at })?;
        }
        end_all(&mut self.begun, token);
        Ok(())
    }

    /// Takes the next record, where the log has so many fences.
    #[inline(always)]
    pub(crate) fn add(&mut self, newest: &Record, fences: usize) -> Result<(), AllocError>
        ensures tracks { (trace : Trace) → Tracks trace self.old → fences ≡ fence_count trace
            → OnOk result (Tracks (newest.now ∷ trace) self.new) }
        ensures keeps { self.new.keeps ≡ self.old.keeps }
        ensures kept { (trace : Trace) → Tracks trace self.old → fences ≡ fence_count trace
            → OnOk result (self.new.kept.items ≡ kept_with self.old.keeps self.old.kept.items
            (moved_by newest.now trace)) }
    {
        match newest {
            Record::Satp { hart, space } => self.enter(*hart, space),
            Record::Fence { .. } => self.keep(Move::Fences { at: fences }),
            Record::RemoteBegin { token, .. } => Ok(
                self.begun.push(Open {
                    token: *token,
                    at: fences,
                })?,
            ),
            Record::RemoteEnd { token, .. } => self.end(*token),
            Record::Store { .. } => Ok(()),
            Record::GiveOut { .. } => Ok(()),
            Record::GiveBack { .. } => Ok(()),
            Record::ClaimBegin { .. } => Ok(()),
            Record::ClaimEnd { .. } => Ok(()),
            Record::Use { .. } => Ok(()),
        }
    }

    /// The ASID in a hart's satp.
    fn asid(&self, hart: u8) -> Option<u16>
        ensures { (trace : Trace) → Tracks trace self.now
            → result ≡ asid_in (satp_of trace hart) }
    {
        match self.asids.get(hart as usize) {
            Some(asid) => *asid,
            None => None,
        }
    }

    /// How many moves are kept, if the hart of a verdict is not under the translation at the last
    /// record. Each move that comes next is kept too then.
    pub(crate) fn start(&mut self, warning: &Warning) -> Option<usize>
        ensures value { (trace : Trace) → Tracks trace self.old → result
            ≡ start_by (is_under warning.now.entry (satp_of trace warning.now.hart))
            (length self.old.kept.items) }
        ensures tracks { (trace : Trace) → Tracks trace self.old → Tracks trace self.new }
        ensures keeps { self.new.keeps ≡ (is_some result || self.old.keeps) }
        ensures kept { self.new.kept ≡ self.old.kept }
    {
        if is_under(&warning.entry, self.asid(warning.hart)) {
            return None;
        }
        self.keeps = true;
        Some(self.kept.len())
    }

    /// Those behind the first so many.
    pub(crate) fn behind(&self, count: usize) -> &[Move]
        ensures { result.now ≡ drop count self.now.kept.items }
    {
        let kept = self.kept.as_slice();
        &kept[count.min(kept.len())..]
    }
}
