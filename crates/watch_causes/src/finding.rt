//! Findings, and what they have in common.

ghost use Rattle.std.specs.Prelude.{◌≡◌};
ghost use Rattle.std.specs.Ordering.{nat_cmp};
ghost use Rattle.watch_causes.specs.Findings.{finding_of, is_same_cause, is_same_reason, is_same_verdict, reason_number, verdict_number};
ghost use Rattle.watch_engine.specs.Held.{own};

use crate::reason::Reason;
use watch::Verdict;
use watch_engine::Warning;

/// What one record made stale of one page for one hart. Of what is global root and ASID are 0.
#[derive(Clone, Copy, PartialEq, Eq, PartialOrd, Ord, Debug)]
pub(crate) struct Finding {
    since: u64,
    hart: u8,
    base: u64,
    level: u8,
    global: bool,
    asid: u16,
    root: u64,
}

/// What the findings of a cause have in common.
#[derive(Clone, Copy, PartialEq, Eq, Debug)]
pub struct Cause {
    /// Whether their pages are global, as the kernel's are.
    pub global: bool,
    /// The first verdict.
    pub first: Verdict,
    /// The reason of that.
    pub reason: Reason,
}

fn own_root(global: bool, root: u64) -> u64
    ensures { result ≡ own global root }
{
    if global { 0 } else { root }
}

pub(crate) fn own_asid(global: bool, asid: u16) -> u16
    ensures { result ≡ own global asid }
{
    if global { 0 } else { asid }
}

/// The finding that a verdict belongs to.
pub(crate) fn finding_of(warning: &Warning) -> Finding
    ensures { result ≡ finding_of warning.now }
{
    let entry = &warning.entry;
    Finding {
        since: warning.stale_since,
        hart: warning.hart,
        base: entry.page.base().get(),
        level: entry.page.size().level(),
        global: entry.global,
        asid: own_asid(entry.global, entry.asid),
        root: own_root(entry.global, warning.root),
    }
}

pub(crate) fn is_same_verdict(a: Verdict, b: Verdict) -> bool
    ensures { result ≡ is_same_verdict a b }
{
    a == b
}

pub(crate) fn is_same_reason(a: Reason, b: Reason) -> bool
    ensures { result ≡ is_same_reason a b }
{
    a == b
}

pub(crate) fn is_same_cause(a: &Cause, b: &Cause) -> bool
    ensures { result ≡ is_same_cause a.now b.now }
{
    a.global == b.global && is_same_verdict(a.first, b.first) && is_same_reason(a.reason, b.reason)
}
