//! One trace, record by record.
//!
//! # The plain way
//!
//! A watch has the page tables (`Tables`), what is in each hart's satp (`Satps`), the roots of
//! address spaces (`Roots`), the spaces that harts have left (`LeftSpaces`), the fences so far
//! (`PastFences`), and a list of translations that harts may hold (`TranslationIndex`). What a hart
//! can fill now, load into its TLB by a walk, need not be in the list: tables and satp tell it.
//!
//! A record that changes tables takes four steps:
//!
//! 1. List what harts can fill, or may hold of spaces that they left, below each word that changes:
//!    `add_seen` for one word, `add_seen_in` for many (seen.rt).
//! 2. Put it into the list of what they may hold: `remember_all` (page_runs.rt).
//! 3. Change the tables and, where frames are given out, roots and spaces that were left.
//! 4. Recheck the list: an item is current, stale since some record, or gone (state.rt). After a
//!    store `settle_touched` (touched.rt) does it, after frames `settle_taken` (effects.rt).
//!
//! A write of satp adds the space that the hart leaves, and `find_again` rechecks items if the root is
//! new. A fence drops items: `drop_fenced` of its hart, `drop_remote` of the harts that were asked.
//! Verdicts are found before any of this: `warnings` (warning.rt) finds those of a `Cause` (cause.rt),
//! and `mark_given` notes them in the items, so that each but `Used` comes once.
//!
//! A new kind of record is an arm of `record`, a method beside `store` and, if it changes what harts
//! may hold, an `Effect` (effects.rt) with its keys (concern.rt). A new verdict is a `Cause` and a flag
//! of `Given` (state.rt). Lines are read and printed by the crate `watch_report`.
//!
//! # Shortcuts
//!
//! The clauses of each say that it gives what the plain way behind the colon gives. How much a trace
//! takes without it is in docs/dev/PERFORMANCE.md.
//!
//! - The paths from roots to 16 tables are cached (`KeptWays`): `Tables::ways` at each store.
//! - An effect visits the items with its keys, by chains (`apply_by_keys`, held_list.rt):
//!   `apply_each`.
//! - If no item with the keys of a cause is of it, the list is not scanned (`may_concern`,
//!   held_list.rt): `all_warnings`.
//! - An item that goes leaves its place empty (`tidy`, held_list.rt): `close_up` at each.
//! - Many translations of a page are added after one look at its chain (`remember_run`,
//!   page_runs.rt): `HeldList::remember` of each.
//! - Fences since a hart left a space are found by keys (past_fences.rt): `is_taken_since` (left.rt).
//! - Spaces that were left, and harts, are found by their root (left_spaces.rt, satps.rt): scans.
//! - For leaves of one root that is done once (`add_of_root`, seen.rt): `add_one` of each.
//! - Whether a hart can fill a leaf is asked once for leaves with the same entry, or below one word
//!   of a root (`add_alike`, `add_beside`, seen.rt): `add_leaf` without answers.
//! - Leaves of which nothing is to be remembered are not listed (unseen.rt): `add_seen`.
//! - The last answer of the tables is cached (`is_current_again`, touched.rt): `is_current`.
//! - Roots in a row with the same word are walked once (`is_mapped_in_any`): the trait's default.
//! - Pages with no such index are passed over (`asks`, touched.rt): `is_touched_on_any`.
//! - Where nothing changed nothing is done (`settle_taken`, `mark_given`, `drop_given`,
//!   `keep_unless_any`): their bodies without the first test.

ghost use Rattle.std.specs.Prelude.{ℕ, ◌≡◌, ◌<◌, ◌^◌, ◌-◌, ◌∷◌, ◌↔◌, [], false, get_or, length, true, Err, IfOk, None, OnErr, OnOk, option_map};
ghost use Rattle.watch.specs.Trace.{Trace, claim_of, words_of};
ghost use Rattle.watch.specs.declared.trace.Record.TheVariants as records;
ghost use Rattle.watch_engine.specs.KeptWays.{AreKept};
ghost use Rattle.watch_engine.specs.Left.{left_of};
ghost use Rattle.watch_engine.specs.Open.{claim_begun};
ghost use Rattle.watch_engine.specs.Warnings.{AreWarnings};

use crate::cause::Cause;
use crate::effects::{drop_fenced, drop_remote, find_again, mark_given, settle_taken};
use crate::kept_ways::KeptWays;
use crate::left::{Left, add_ended, add_fence};
use crate::left_spaces::LeftSpaces;
use crate::open::{OpenClaim, OpenFence, end_all, newest};
use crate::page_runs::remember_all;
use crate::past_fences::PastFences;
use crate::roots::Roots;
use crate::satps::{Satps, satp_in};
use crate::seen::{add_seen, add_seen_in};
use crate::tables::Tables;
use crate::touched::settle_touched;
use crate::translation_index::TranslationIndex;
use crate::view::View;
use crate::warning::{Warning, warnings};
use pte::Scheme;
use std::alloc::{AllocError, Global};
use thiserror::Error;
use watch::{Claim, Frames, Record, RemoteFence, Space};

/// Why a record is not taken. The watch still follows the records before it.
#[derive(Clone, Copy, PartialEq, Eq, Debug, Error)]
pub enum RecordFault {
    /// There is not enough memory.
    #[error("there is not enough memory")]
    NoMemory,
    /// 2^64 - 1 records have been taken.
    #[error("there are too many records")]
    TooManyRecords,
}

impl From<AllocError> for RecordFault {
    ghost use Rattle.watch_engine.specs.declared.engine.RecordFault.TheVariants.{NoMemory};

    ghost from_gives = { λ _ e. e ≡ NoMemory };

    fn from(_error: AllocError) -> RecordFault {
        RecordFault::NoMemory
    }
}

/// What a trace leaves: what each hart may hold, and what has begun and not ended. In contracts a
/// watch follows the trace of its records.
#[derive(Drop)]
pub struct Watch<T: Tables> {
    alloc: Global,
    scheme: Scheme,
    tables: T,
    satps: Satps,
    roots: Roots,
    held: TranslationIndex,
    left: LeftSpaces,
    drops: PastFences,
    fences: Vec<OpenFence>,
    claims: Vec<OpenClaim>,
    kept_ways: KeptWays,
    count: u64,
    ghost kept: { AreKept scheme (T.words tables) (T.since tables) kept_ways },
}

impl<T: Tables> Watch<T> {
    ghost use Rattle.watch_engine.specs.View.{view_of};
    ghost use Rattle.watch_engine.specs.Watching.{Follows, KeepsAll, view_in};

    /// A watch of a scheme that has seen no record, over tables of which nothing is stored.
    pub fn new(alloc: Global, scheme: Scheme, tables: T) -> Watch<T>
        requires { T.words tables ≡ words_of [] }
        ensures scheme { result.scheme ≡ scheme }
        ensures follows { Follows T.words T.since [] result }
    {
        Watch {
            alloc,
            scheme,
            tables,
            satps: Satps::new(alloc),
            roots: Roots::new(alloc),
            held: TranslationIndex::new(alloc),
            left: LeftSpaces::new(alloc),
            drops: PastFences::new(alloc),
            fences: Vec::new(alloc),
            claims: Vec::new(alloc),
            kept_ways: KeptWays::new(alloc),
            count: 0,
        }
    }

    // What it reads now.
    fn view(&self) -> View<'_, T>
        ensures { view_of result ≡ view_in T.words T.since self.now }
    {
        View {
            tables: &self.tables,
            scheme: self.scheme,
            satps: self.satps.spaces(),
            roots: &self.roots,
            left: &self.left,
            drops: &self.drops,
            count: self.count,
        }
    }

    // What is in the satp of a hart.
    fn satp(&self, hart: u8) -> Option<Space>
        ensures { result ≡ get_or self.now.satps.spaces.items hart None }
    {
        satp_in(self.satps.spaces(), hart)
    }

    // The space in the satp of a hart, as one that it leaves now.
    fn left_of(&self, hart: u8) -> Option<Left>
        ensures { result ≡ left_of hart (get_or self.now.satps.spaces.items hart None)
            self.now.count (length self.now.drops.fences.items) }
    {
        match self.satp(hart) {
            None => None,
            Some(space) => Some(Left {
                hart,
                space,
                left: self.count,
                fences: self.drops.fences.as_slice().len() as u64,
            }),
        }
    }

    // A word is stored.
    fn store(&mut self, address: u64, word: u64) -> Result<(), AllocError>
        requires { self.old.count < 2 ^ 64 - 1 }
        ensures scheme { self.new.scheme ≡ self.old.scheme }
        ensures ok { (hart : ℕ) (trace : Trace) → Follows T.words T.since trace self.old
            → OnOk result (Follows T.words T.since (records.Store hart address word ∷ trace) self.new) }
        ensures err { (trace : Trace) → Follows T.words T.since trace self.old
            → OnErr result (Follows T.words T.since trace self.new) }
        ensures stays { OnErr result (KeepsAll T.words T.since self.old self.new) }
    {
        let ways = self
            .kept_ways
            .take(self.alloc, &self.tables, self.scheme, address)?;
        let mut seen = Vec::new(self.alloc);
        add_seen(
            self.alloc,
            &self.view(),
            address,
            ways.as_slice(),
            &mut seen,
        )?;
        remember_all(&mut self.held, seen.as_slice())?;
        let stay = self.tables.keeps_ways(address, word);
        self.tables.store(address, word, self.count + 1)?;
        self.count += 1;
        let view = View {
            tables: &self.tables,
            scheme: self.scheme,
            satps: self.satps.spaces(),
            roots: &self.roots,
            left: &self.left,
            drops: &self.drops,
            count: self.count,
        };
        settle_touched(&mut self.held, &view, address, ways.as_slice());
        self.kept_ways.keep(address, ways, stay);
        Ok(())
    }

    // A hart writes satp.
    fn write_satp(&mut self, hart: u8, space: Option<Space>) -> Result<(), AllocError>
        requires { self.old.count < 2 ^ 64 - 1 }
        ensures scheme { self.new.scheme ≡ self.old.scheme }
        ensures ok { (trace : Trace) → Follows T.words T.since trace self.old
            → OnOk result (Follows T.words T.since (records.Satp hart space ∷ trace) self.new) }
        ensures err { (trace : Trace) → Follows T.words T.since trace self.old
            → OnErr result (Follows T.words T.since trace self.new) }
        ensures stays { OnErr result (KeepsAll T.words T.since self.old self.new) }
    {
        self.satps.add_hart(hart)?;
        let left = self.left_of(hart);
        let new = self.left.add(&mut self.roots, left, space)?;
        self.left.drop_back(hart, space);
        self.satps.write(hart, space);
        self.count += 1;
        find_again(new, &mut self.held, &self.tables, self.scheme);
        Ok(())
    }

    // A hart executes a fence.
    fn fence(&mut self, hart: u8, rs1: Option<u64>, rs2: Option<u64>) -> Result<(), AllocError>
        requires { self.old.count < 2 ^ 64 - 1 }
        ensures scheme { self.new.scheme ≡ self.old.scheme }
        ensures ok { (trace : Trace) → Follows T.words T.since trace self.old
            → OnOk result (Follows T.words T.since (records.Fence hart rs1 rs2 ∷ trace) self.new) }
        ensures err { (trace : Trace) → Follows T.words T.since trace self.old
            → OnErr result (Follows T.words T.since trace self.new) }
        ensures stays { OnErr result (KeepsAll T.words T.since self.old self.new) }
    {
        add_fence(&mut self.left, &mut self.drops, hart, rs1, rs2)?;
        drop_fenced(&mut self.held, self.scheme, hart, rs1, rs2);
        self.count += 1;
        Ok(())
    }

    // A remote fence begins.
    fn begin_fence(&mut self, token: u64, fence: RemoteFence) -> Result<(), AllocError>
        requires { self.old.count < 2 ^ 64 - 1 }
        ensures scheme { self.new.scheme ≡ self.old.scheme }
        ensures ok { (hart : ℕ) (trace : Trace) → Follows T.words T.since trace self.old
            → OnOk result (Follows T.words T.since
            (records.RemoteBegin hart token fence ∷ trace) self.new) }
        ensures err { (trace : Trace) → Follows T.words T.since trace self.old
            → OnErr result (Follows T.words T.since trace self.new) }
        ensures stays { OnErr result (KeepsAll T.words T.since self.old self.new) }
    {
        let begun = self.count + 1;
        self.fences.push(OpenFence {
            token,
            fence,
            begun,
        })?;
        self.count = begun;
        Ok(())
    }

    // A remote fence ends.
    fn end_fence(&mut self, token: u64) -> Result<(), AllocError>
        requires { self.old.count < 2 ^ 64 - 1 }
        ensures scheme { self.new.scheme ≡ self.old.scheme }
        ensures ok { (hart : ℕ) (trace : Trace) → Follows T.words T.since trace self.old
            → OnOk result (Follows T.words T.since (records.RemoteEnd hart token ∷ trace) self.new) }
        ensures err { (trace : Trace) → Follows T.words T.since trace self.old
            → OnErr result (Follows T.words T.since trace self.new) }
        ensures stays { OnErr result (KeepsAll T.words T.since self.old self.new) }
    {
        let fence = newest(self.fences.as_slice(), token);
        add_ended(&self.left, &mut self.drops, &fence)?;
        drop_remote(&mut self.held, self.scheme, &fence);
        end_all(&mut self.fences, token);
        self.count += 1;
        Ok(())
    }

    // A flush begins.
    fn begin_claim(&mut self, token: u64, claim: Claim) -> Result<(), AllocError>
        requires { self.old.count < 2 ^ 64 - 1 }
        ensures scheme { self.new.scheme ≡ self.old.scheme }
        ensures ok { (hart : ℕ) (trace : Trace) → Follows T.words T.since trace self.old
            → OnOk result (Follows T.words T.since
            (records.ClaimBegin hart token claim ∷ trace) self.new) }
        ensures err { (trace : Trace) → Follows T.words T.since trace self.old
            → OnErr result (Follows T.words T.since trace self.new) }
        ensures stays { OnErr result (KeepsAll T.words T.since self.old self.new) }
    {
        let begun = self.count + 1;
        self.claims.push(OpenClaim {
            token,
            claim,
            begun,
        })?;
        self.count = begun;
        Ok(())
    }

    // Frames are given out.
    fn give_out(&mut self, frames: Frames) -> Result<Vec<Warning>, AllocError>
        requires { self.old.count < 2 ^ 64 - 1 }
        ensures scheme { self.new.scheme ≡ self.old.scheme }
        ensures warnings { (hart : ℕ) (trace : Trace) → Follows T.words T.since trace self.old
            → IfOk result (λ warnings. AreWarnings self.old.scheme (records.GiveOut hart frames)
            trace warnings.items) }
        ensures ok { (hart : ℕ) (trace : Trace) → Follows T.words T.since trace self.old
            → OnOk result (Follows T.words T.since (records.GiveOut hart frames ∷ trace) self.new) }
        ensures err { (trace : Trace) → Follows T.words T.since trace self.old
            → OnErr result (Follows T.words T.since trace self.new) }
        ensures stays { OnErr result (KeepsAll T.words T.since self.old self.new) }
    {
        let cause = Cause::Out(frames);
        let given = warnings(self.alloc, &self.held, &cause)?;
        let addresses = self.tables.stored_in(self.alloc, frames)?;
        let mut seen = Vec::new(self.alloc);
        add_seen_in(self.alloc, &self.view(), addresses.as_slice(), &mut seen)?;
        remember_all(&mut self.held, seen.as_slice())?;
        mark_given(&mut self.held, &cause, given.as_slice());
        self.kept_ways.keep_unless_any(addresses.as_slice());
        self.tables.clear(frames);
        let keeps = self
            .left
            .drop_given(&mut self.roots, frames, self.satps.spaces());
        self.count += 1;
        let view = View {
            tables: &self.tables,
            scheme: self.scheme,
            satps: self.satps.spaces(),
            roots: &self.roots,
            left: &self.left,
            drops: &self.drops,
            count: self.count,
        };
        settle_taken(addresses.as_slice(), keeps, &mut self.held, &view);
        Ok(given)
    }

    // Frames are given back.
    fn give_back(&mut self, frames: Frames) -> Result<Vec<Warning>, AllocError>
        requires { self.old.count < 2 ^ 64 - 1 }
        ensures scheme { self.new.scheme ≡ self.old.scheme }
        ensures warnings { (hart : ℕ) (trace : Trace) → Follows T.words T.since trace self.old
            → IfOk result (λ warnings. AreWarnings self.old.scheme (records.GiveBack hart frames)
            trace warnings.items) }
        ensures ok { (hart : ℕ) (trace : Trace) → Follows T.words T.since trace self.old
            → OnOk result (Follows T.words T.since (records.GiveBack hart frames ∷ trace) self.new) }
        ensures err { (trace : Trace) → Follows T.words T.since trace self.old
            → OnErr result (Follows T.words T.since trace self.new) }
        ensures stays { OnErr result (KeepsAll T.words T.since self.old self.new) }
    {
        let cause = Cause::Back(frames);
        let given = warnings(self.alloc, &self.held, &cause)?;
        mark_given(&mut self.held, &cause, given.as_slice());
        self.count += 1;
        Ok(given)
    }

    // A flush returns.
    fn end_claim(&mut self, token: u64) -> Result<Vec<Warning>, AllocError>
        requires { self.old.count < 2 ^ 64 - 1 }
        ensures scheme { self.new.scheme ≡ self.old.scheme }
        ensures warnings { (hart : ℕ) (trace : Trace) → Follows T.words T.since trace self.old
            → IfOk result (λ warnings. AreWarnings self.old.scheme (records.ClaimEnd hart token)
            trace warnings.items) }
        ensures ok { (hart : ℕ) (trace : Trace) → Follows T.words T.since trace self.old
            → OnOk result (Follows T.words T.since (records.ClaimEnd hart token ∷ trace) self.new) }
        ensures err { (trace : Trace) → Follows T.words T.since trace self.old
            → OnErr result (Follows T.words T.since trace self.new) }
        ensures stays { OnErr result (KeepsAll T.words T.since self.old self.new) }
    {
        let claim = newest(self.claims.as_slice(), token);
        let cause = Cause::Claim(claim);
        let given = warnings(self.alloc, &self.held, &cause)?;
        mark_given(&mut self.held, &cause, given.as_slice());
        end_all(&mut self.claims, token);
        self.count += 1;
        Ok(given)
    }

    // A hart accesses an address.
    fn access(&mut self, hart: u8, address: u64) -> Result<Vec<Warning>, AllocError>
        requires { self.old.count < 2 ^ 64 - 1 }
        ensures scheme { self.new.scheme ≡ self.old.scheme }
        ensures warnings { (trace : Trace) → Follows T.words T.since trace self.old
            → IfOk result (λ warnings. AreWarnings self.old.scheme (records.Use hart address)
            trace warnings.items) }
        ensures ok { (trace : Trace) → Follows T.words T.since trace self.old
            → OnOk result (Follows T.words T.since (records.Use hart address ∷ trace) self.new) }
        ensures err { (trace : Trace) → Follows T.words T.since trace self.old
            → OnErr result (Follows T.words T.since trace self.new) }
        ensures stays { OnErr result (KeepsAll T.words T.since self.old self.new) }
    {
        let space = self.satp(hart);
        let cause = Cause::Access {
            hart,
            space,
            address,
        };
        let given = warnings(self.alloc, &self.held, &cause)?;
        self.count += 1;
        Ok(given)
    }

    /// How many records there were up to the begin of the claim that is open under a token, the
    /// newest begin of several. `None` if no claim is.
    pub fn claim_begun(&self, token: u64) -> Option<u64>
        ensures { (trace : Trace) → Follows T.words T.since trace self.now
            → result ≡ option_map (λ _. claim_begun token trace) (claim_of trace token) }
    {
        match newest(self.claims.as_slice(), token) {
            None => None,
            Some(claim) => Some(claim.begun),
        }
    }

    /// Takes the next record, and answers its warnings: each verdict that is given at the record and
    /// new, each once, where translations that differ only in A and D, or if they are global only in
    /// root and ASID, share one. `TooManyRecords` exactly if 2^64 - 1 records have been taken, and
    /// `NoMemory` only where memory runs out. The watch then still follows the trace before. The list
    /// of held translations may be longer, other ways to tables may be cached, and the list of satps
    /// may have more harts without a space; all else stays.
    pub fn record(&mut self, newest: Record) -> Result<Vec<Warning>, RecordFault>
        ensures scheme { self.new.scheme ≡ self.old.scheme }
        ensures warnings { (trace : Trace) → Follows T.words T.since trace self.old
            → IfOk result (λ warnings.
            AreWarnings self.old.scheme newest trace warnings.items) }
        ensures ok { (trace : Trace) → Follows T.words T.since trace self.old
            → OnOk result (Follows T.words T.since (newest ∷ trace) self.new) }
        ensures err { (trace : Trace) → Follows T.words T.since trace self.old
            → OnErr result (Follows T.words T.since trace self.new) }
        ensures stays { OnErr result (KeepsAll T.words T.since self.old self.new) }
        ensures full { (trace : Trace) → Follows T.words T.since trace self.old
            → (result ≡ Err RecordFault.TooManyRecords) ↔ (length trace ≡ 2 ^ 64 - 1) }
    {
        if self.count == u64::MAX {
            return Err(RecordFault::TooManyRecords);
        }
        match newest {
            Record::Store { address, word, .. } => {
                self.store(address, word)?;
                return Ok(Vec::new(self.alloc));
            }
            Record::Satp { hart, space } => {
                self.write_satp(hart, space)?;
                return Ok(Vec::new(self.alloc));
            }
            Record::Fence { hart, rs1, rs2 } => {
                self.fence(hart, rs1, rs2)?;
                return Ok(Vec::new(self.alloc));
            }
            Record::RemoteBegin { token, fence, .. } => {
                self.begin_fence(token, fence)?;
                return Ok(Vec::new(self.alloc));
            }
            Record::RemoteEnd { token, .. } => {
                self.end_fence(token)?;
                return Ok(Vec::new(self.alloc));
            }
            Record::ClaimBegin { token, claim, .. } => {
                self.begin_claim(token, claim)?;
                return Ok(Vec::new(self.alloc));
            }
            Record::GiveOut { frames, .. } => return Ok(self.give_out(frames)?),
            Record::GiveBack { frames, .. } => return Ok(self.give_back(frames)?),
            Record::ClaimEnd { token, .. } => return Ok(self.end_claim(token)?),
            Record::Use { hart, address } => return Ok(self.access(hart, address)?),
        }
    }
}
