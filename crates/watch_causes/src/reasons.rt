//! The reason of a verdict.

ghost use Rattle.std.specs.Prelude.{◌≡◌, ◌&&◌, ◌||◌};
ghost use Rattle.std.specs.List.{list_any};
ghost use Rattle.watch.specs.Trace.{Trace, begins_claim, hart_of};
ghost use Rattle.watch.specs.Verdicts.{is_claimed};
ghost use Rattle.watch_causes.specs.Logs.{Follows, by_asked, flush_in, newest_in, reason_from, reason_in, some_asked};
ghost use Rattle.watch_causes.specs.Reasons.{asks_others as asks, begins_flush_of, covers as takes, is_asked as asked, is_for as for_hart, is_of_space as of_space, reason_of};
ghost use Rattle.watch_engine.specs.Warnings.{shown_of};

use crate::fences::{asks_others, covers, is_asked, is_for, is_of_space, reaches};
use crate::log::{Log, Numbered, last_after};
use crate::reason::Reason;
use pte::Scheme;
use tlb::Entry;
use watch::{Claim, Record};
use watch_engine::Warning;

/// The fences since a flush of one hart began, which may have asked others, where another hart holds a
/// translation.
#[derive(Clone, Copy)]
struct Asked<'a> {
    fences: &'a [Numbered],
    others: bool,
    flusher: u8,
    hart: u8,
}

pub(crate) fn asks_any(fences: &[Numbered], flusher: u8) -> bool
    ensures { result ≡ list_any (λ f. asks flusher f.made) fences.now }
{
    fences.iter().any(|f| asks_others(&f.made, flusher))
}

impl Asked<'_> {
    fn any(&self) -> bool
        ensures { result ≡ list_any (λ f. asked self.now.others self.now.flusher self.now.hart f.made)
            self.now.fences.now }
    {
        self.fences.iter().any(|f| is_asked(&f.made, self.others, self.flusher, self.hart))
    }

    #[tactic(auto, unfolding(crate::specs::Logs::some_asked))]
    fn any_for_hart(&self) -> bool
        ensures { result ≡ some_asked self.now.others self.now.flusher self.now.hart
            (for_hart self.now.hart) self.now.fences.now }
    {
        self.fences.iter().any(|f| {
            is_asked(&f.made, self.others, self.flusher, self.hart) && is_for(&f.made, self.hart)
        })
    }

    #[tactic(auto, unfolding(crate::specs::Logs::some_asked))]
    fn any_of_space(&self, scheme: Scheme, entry: &Entry) -> bool
        ensures { result ≡ some_asked self.now.others self.now.flusher self.now.hart
            (λ f. for_hart self.now.hart f && of_space scheme entry.now f) self.now.fences.now }
    {
        self.fences.iter().any(|f| {
            is_asked(&f.made, self.others, self.flusher, self.hart)
                && (is_for(&f.made, self.hart) && is_of_space(scheme, &f.made, entry))
        })
    }

    #[tactic(auto, unfolding(crate::specs::Logs::some_asked))]
    fn any_covers(&self, scheme: Scheme, entry: &Entry) -> bool
        ensures { result ≡ some_asked self.now.others self.now.flusher self.now.hart
            (λ f. for_hart self.now.hart f && takes scheme entry.now f) self.now.fences.now }
    {
        self.fences.iter().any(|f| {
            is_asked(&f.made, self.others, self.flusher, self.hart)
                && (is_for(&f.made, self.hart) && covers(scheme, &f.made, entry))
        })
    }

    /// Why none of them has taken the entry from the hart.
    fn reason(&self, scheme: Scheme, entry: &Entry) -> Reason
        ensures { result ≡ by_asked scheme self.now.others self.now.flusher self.now.hart entry.now
            self.now.fences.now }
    {
        if !self.any() {
            Reason::NoFence
        } else if !self.any_for_hart() {
            Reason::OtherHarts
        } else if !self.any_of_space(scheme, entry) {
            Reason::OtherSpaces
        } else if !self.any_covers(scheme, entry) {
            Reason::OtherPages
        } else {
            Reason::NotDone
        }
    }
}

/// Why none of the fences that a flush of a hart asked for has taken the entry from another, of the
/// fences since it began.
fn reason_in(scheme: Scheme, fences: &[Numbered], flusher: u8, hart: u8, entry: &Entry) -> Reason
    ensures { result ≡ reason_in scheme flusher hart entry.now fences.now }
{
    let asked = Asked {
        fences,
        others: asks_any(fences, flusher),
        flusher,
        hart,
    };
    asked.reason(scheme, entry)
}

pub(crate) fn hart_of(made: &Record) -> u8
    ensures { result ≡ hart_of made.now }
{
    match made {
        Record::Store { hart, .. } => *hart,
        Record::Satp { hart, .. } => *hart,
        Record::Fence { hart, .. } => *hart,
        Record::RemoteBegin { hart, .. } => *hart,
        Record::RemoteEnd { hart, .. } => *hart,
        Record::GiveOut { hart, .. } => *hart,
        Record::GiveBack { hart, .. } => *hart,
        Record::ClaimBegin { hart, .. } => *hart,
        Record::ClaimEnd { hart, .. } => *hart,
        Record::Use { hart, .. } => *hart,
    }
}

fn is_claimed(claim: &Claim, root: u64, entry: &Entry) -> bool
    ensures { result ≡ is_claimed claim.now (record { root = root; entry = entry.now }) }
{
    match claim.root {
        None => reaches(&claim.range, &entry.page),
        Some(of) => root == of && !entry.global && reaches(&claim.range, &entry.page),
    }
}

pub(crate) fn begins_claim(made: &Record, token: u64) -> bool
    ensures { result ≡ begins_claim token made.now }
{
    match made {
        Record::ClaimBegin { token: of, .. } => *of == token,
        _ => false,
    }
}

pub(crate) fn begins_flush_of(made: &Record, warning: &Warning) -> bool
    ensures { result ≡ begins_flush_of (shown_of warning.now) made.now }
{
    match made {
        Record::ClaimBegin { claim, .. } => is_claimed(claim, warning.root, &warning.entry),
        _ => false,
    }
}

/// The newest begin under a token.
fn newest_begin(flushes: &[Numbered], token: u64) -> Option<Numbered>
    ensures { result ≡ newest_in (begins_claim token) flushes.now }
{
    flushes
        .iter()
        .rev()
        .copied()
        .find(|f| begins_claim(&f.made, token))
}

/// The newest begin of a flush of the translation.
fn newest_flush(flushes: &[Numbered], warning: &Warning) -> Option<Numbered>
    ensures { result ≡ newest_in (begins_flush_of (shown_of warning.now)) flushes.now }
{
    flushes
        .iter()
        .rev()
        .copied()
        .find(|f| begins_flush_of(&f.made, warning))
}

impl Log {
    /// The flush by which the kernel took the translation for gone at a record.
    pub(crate) fn flush(&self, newest: &Record, warning: &Warning) -> Option<Numbered>
        ensures { result ≡ flush_in newest.now warning.now self.now.flushes.items }
    {
        match newest {
            Record::ClaimEnd { token, .. } => newest_begin(self.flushes.as_slice(), *token),
            _ => newest_flush(
                last_after(self.flushes.as_slice(), warning.stale_since),
                warning,
            ),
        }
    }

    /// The reason, by the begin of a flush.
    fn reason_from(&self, scheme: Scheme, flush: &Option<Numbered>, warning: &Warning) -> Reason
        ensures { result ≡ reason_from scheme warning.now self.now.fences.items flush.now }
    {
        match flush {
            None => Reason::NoFlush,
            Some(flush) => reason_in(
                scheme,
                last_after(self.fences.as_slice(), flush.number),
                hart_of(&flush.made),
                warning.hart,
                &warning.entry,
            ),
        }
    }

    /// The reason of a verdict at the next record.
    #[tactic(auto, using(crate::proofs::Reasoning::reason_followed))]
    pub(crate) fn reason(&self, scheme: Scheme, newest: &Record, warning: &Warning) -> Reason
        ensures { (trace : Trace) → Follows trace self.now
            → result ≡ reason_of scheme newest.now trace warning.now }
    {
        let flush = self.flush(newest, warning);
        self.reason_from(scheme, &flush, warning)
    }
}
