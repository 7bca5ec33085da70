//! What verdicts are given for.

ghost use Rattle.std.specs.Prelude.{◌≡◌, ◌<◌};
ghost use Rattle.watch.specs.Verdicts.{is_claimed};
ghost use Rattle.tlb.specs.Entries.{is_match};
ghost use Rattle.watch_engine.specs.Held.{is_by, is_claimed_by, is_exposed_by, is_served_in, is_used_by, shares, translation_of};
ghost use Rattle.watch_engine.specs.Causes.{applies, is_given_by, verdict_of};

use crate::fence::reaches;
use crate::held::Held;
use crate::open::OpenClaim;
use tlb::Entry;
use watch::{Claim, Frames, Space, Verdict};

/// What verdicts are given for.
#[derive(Clone, Copy, PartialEq, Eq, Debug)]
pub(crate) enum Cause {
    /// Frames are given back.
    Back(Frames),
    /// Frames are given out.
    Out(Frames),
    /// A claim ends.
    Claim(Option<OpenClaim>),
    /// A hart accesses an address, in the space in its satp.
    Access {
        hart: u8,
        space: Option<Space>,
        address: u64,
    },
}

fn shares(frames: &Frames, entry: &Entry) -> bool
    ensures { result ≡ shares frames.now entry.now }
{
    frames.first.saturating_sub(entry.ppn) < entry.page.size().pages()
        && entry.ppn.saturating_sub(frames.first) < frames.count
}

fn is_claimed(claim: &Claim, root: u64, entry: &Entry) -> bool
    ensures { result ≡ is_claimed claim.now (record { root = root; entry = entry.now }) }
{
    match claim.root {
        None => reaches(&claim.range, &entry.page),
        Some(of) => root == of && !entry.global && reaches(&claim.range, &entry.page),
    }
}

fn is_by(since: Option<u64>, moment: u64) -> bool
    ensures { result ≡ is_by since moment }
{
    match since {
        None => false,
        Some(since) => since <= moment,
    }
}

impl Held {
    fn is_exposed_by(&self, frames: &Frames) -> bool
        ensures { result ≡ is_exposed_by frames.now self.now }
    {
        self.state.since().is_some() && shares(frames, &self.entry)
    }

    fn is_claimed_by(&self, claim: &Option<OpenClaim>) -> bool
        ensures { result ≡ is_claimed_by claim.now self.now }
    {
        match claim {
            None => false,
            Some(begun) => {
                is_by(self.state.since(), begun.begun)
                    && is_claimed(&begun.claim, self.root, &self.entry)
            }
        }
    }

    fn is_served_in(&self, space: &Option<Space>, address: u64) -> bool
        ensures { result ≡ is_served_in space.now address self.now }
    {
        match space {
            None => false,
            Some(space) => is_match(space.asid, address, &self.entry),
        }
    }

    fn is_used_by(&self, hart: u8, space: &Option<Space>, address: u64) -> bool
        ensures { result ≡ is_used_by hart space.now address self.now }
    {
        hart == self.hart
            && (self.state.has_had(Verdict::Free) || self.state.has_had(Verdict::Claimed))
            && self.is_served_in(space, address)
    }

    /// Whether the cause is of it.
    pub(crate) fn is_of_cause(&self, cause: &Cause) -> bool
        ensures { result ≡ applies cause.now self.now }
    {
        match cause {
            Cause::Back(frames) => self.is_exposed_by(frames),
            Cause::Out(frames) => self.is_exposed_by(frames),
            Cause::Claim(claim) => self.is_claimed_by(claim),
            Cause::Access {
                hart,
                space,
                address,
            } => self.is_used_by(*hart, space, *address),
        }
    }

    /// Whether a verdict of it is given and new.
    pub(crate) fn is_given_by(&self, cause: &Cause) -> bool
        ensures { result ≡ is_given_by cause.now self.now }
    {
        self.is_of_cause(cause) && !self.state.has_had(cause.verdict())
    }
}

impl Cause {
    /// The verdict that is given.
    pub(crate) fn verdict(&self) -> Verdict
        ensures { result ≡ verdict_of self.now }
    {
        match self {
            Cause::Back(_) => Verdict::Free,
            Cause::Out(_) => Verdict::Reuse,
            Cause::Claim(_) => Verdict::Claimed,
            Cause::Access { .. } => Verdict::Used,
        }
    }
}

// The page has the address, and the entry is global or of the ASID.
fn is_match(asid: u16, address: u64, entry: &Entry) -> bool
    ensures { result ≡ is_match asid address entry.now }
{
    entry.page.base().get() <= address
        && address - entry.page.base().get() < entry.page.size().bytes()
        && (entry.global || entry.asid == asid)
}
