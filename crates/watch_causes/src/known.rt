//! What is known to be by design.

ghost use Rattle.std.specs.Prelude.{◌≡◌, position};
ghost use Rattle.watch_causes.specs.KnownFindings.{is_for_reason, is_of_kind, is_of_reach, known_entry, matches, resolved_by, unnumbered};

use crate::fences::reaches;
use crate::finding::{is_same_reason, is_same_verdict};
use crate::reach::Reach;
use crate::reason::Reason;
use watch::{AddressRange, Verdict};
use watch_engine::Warning;

/// An entry of the list of what is known to be by design: the findings that pass each test that is
/// there.
#[derive(Drop)]
pub struct Known {
    /// The line of the list that it stands on.
    pub line: u64,
    /// Whether their pages are global, as the kernel's are.
    pub global: bool,
    /// The first verdict.
    pub first: Option<Verdict>,
    /// The reason of that.
    pub reason: Option<Reason>,
    /// Their reach on the whole trace.
    pub reach: Option<Reach>,
    /// Addresses of which one lies in the page.
    pub range: Option<AddressRange>,
    /// How the note of the record begins that made the page stale. Empty: any, and none.
    pub note: Vec<u8>,
}

fn is_of_kind(first: Option<Verdict>, kind: Verdict) -> bool
    ensures { result ≡ is_of_kind first kind }
{
    match first {
        None => true,
        Some(first) => is_same_verdict(first, kind),
    }
}

fn is_for_reason(of: Option<Reason>, reason: Reason) -> bool
    ensures { result ≡ is_for_reason of reason }
{
    match of {
        None => true,
        Some(of) => is_same_reason(of, reason),
    }
}

fn is_of_reach(of: Option<Reach>, reach: Option<Reach>) -> bool
    ensures { result ≡ is_of_reach of reach }
{
    match of {
        None => true,
        Some(of) => match reach {
            None => false,
            Some(reach) => of == reach,
        },
    }
}

impl Known {
    /// Of a verdict whose finding has this reach.
    fn matches(&self, warning: &Warning, reason: Reason, by: &[u8], reach: Option<Reach>) -> bool
        ensures { result ≡ matches (resolved_by (λ f. reach) (known_entry self.now))
            (unnumbered warning.now reason by.now) }
    {
        self.global == warning.entry.global
            && is_of_kind(self.first, warning.verdict)
            && is_for_reason(self.reason, reason)
            && reaches(&self.range, &warning.entry.page)
            && by.starts_with(self.note.as_slice())
            && is_of_reach(self.reach, reach)
    }
}

/// The place of the first entry that matches, of a verdict whose finding has this reach.
pub(crate) fn entry_of(
    known: &[Known],
    warning: &Warning,
    reason: Reason,
    by: &[u8],
    reach: Option<Reach>,
) -> Option<usize>
    ensures { result ≡ position (λ entry. matches (resolved_by (λ f. reach) (known_entry entry))
        (unnumbered warning.now reason by.now)) known.now }
{
    known
        .iter()
        .position(|entry| entry.matches(warning, reason, by, reach))
}
