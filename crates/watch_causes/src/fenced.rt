//! The harts that a flush asked for a fence.

ghost use Rattle.std.specs.Prelude.{◌≡◌};
ghost use Rattle.watch.specs.Trace.{Trace};
ghost use Rattle.watch_causes.specs.Fenced.{bit_of, fenced_of, harts_of};
ghost use Rattle.watch_causes.specs.Logs.{Follows};
ghost use Rattle.watch_causes.specs.Masks.{asked_from, fenced_from, mask_in};

use crate::fences::is_asked;
use crate::log::{Log, Numbered, last_after};
use crate::reasons::{asks_any, hart_of};
use watch::Record;
use watch_engine::Warning;

fn bit_of(hart: u8) -> u64
    ensures { result ≡ bit_of hart }
{
    if hart < 64 { 1 << hart } else { 0 }
}

/// The harts that execute the fence, a bit each.
fn harts_of(made: &Record) -> u64
    ensures { result ≡ harts_of made.now }
{
    match made {
        Record::Fence { hart, .. } => bit_of(*hart),
        Record::RemoteBegin { fence, .. } => fence.harts,
        _ => 0,
    }
}

/// The harts of those fences that the flush of a hart asked for, if it asked others or not.
fn mask_of(fences: &[Numbered], others: bool, flusher: u8, hart: u8) -> u64
    ensures { result ≡ asked_from others flusher hart 0 fences.now }
{
    let mut harts = 0;
    for one in fences {
        if is_asked(&one.made, others, flusher, hart) {
            harts = harts_of(&one.made) | harts;
        }
    }
    harts
}

/// The harts that the flush of a hart asked for a fence, by the fences since it began.
fn mask_in(fences: &[Numbered], flusher: u8, hart: u8) -> u64
    ensures { result ≡ mask_in flusher hart fences.now }
{
    mask_of(fences, asks_any(fences, flusher), flusher, hart)
}

impl Log {
    /// The harts, by the begin of the flush.
    fn fenced_from(&self, flush: &Option<Numbered>, warning: &Warning) -> u64
        ensures { result ≡ fenced_from warning.now self.now.fences.items flush.now }
    {
        match flush {
            None => 0,
            Some(flush) => mask_in(
                last_after(self.fences.as_slice(), flush.number),
                hart_of(&flush.made),
                warning.hart,
            ),
        }
    }

    /// The harts that the flush of a verdict at the next record asked for a fence.
    #[tactic(auto, using(crate::proofs::Masks::fenced_followed))]
    pub(crate) fn fenced(&self, newest: &Record, warning: &Warning) -> u64
        ensures { (trace : Trace) → Follows trace self.now
            → result ≡ fenced_of newest.now trace warning.now }
    {
        let flush = self.flush(newest, warning);
        self.fenced_from(&flush, warning)
    }
}
