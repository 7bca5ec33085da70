//! The state of a translation that a hart may hold.

ghost use Rattle.std.specs.Prelude.{◌≡◌, true};
ghost use Rattle.watch_engine.specs.State.{alone, given_too, has_had, is_gone, joint, none_given, rechecked, since_of, was_given};

use watch::Verdict;

/// Which verdicts it has had, of those that are given once.
#[derive(Clone, Copy, PartialEq, Eq, Debug)]
pub(crate) struct Given {
    free: bool,
    reuse: bool,
    claimed: bool,
}

/// What is known of a translation beside its identity.
#[derive(Clone, Copy, PartialEq, Eq, Debug)]
pub(crate) enum State {
    /// The tables have it.
    Current,
    /// The tables have not had it since so many records, and it has had these verdicts since then.
    /// The flags come first, beside the tag, which saves 8 bytes.
    Stale { given: Given, since: u64 },
    /// It has gone: nothing of it counts but its keys, by which chains go on.
    Gone,
}

impl Given {
    #[inline(always)]
    fn none() -> Given
        ensures { result ≡ none_given }
    {
        Given {
            free: false,
            reuse: false,
            claimed: false,
        }
    }

    #[inline(always)]
    fn has(self, verdict: Verdict) -> bool
        ensures { result ≡ was_given verdict self }
    {
        match verdict {
            Verdict::Free => self.free,
            Verdict::Reuse => self.reuse,
            Verdict::Claimed => self.claimed,
            Verdict::Used => false,
        }
    }

    #[inline(always)]
    fn with(self, verdict: Verdict) -> Given
        ensures { result ≡ joint (alone verdict true) self }
    {
        match verdict {
            Verdict::Free => Given { free: true, ..self },
            Verdict::Reuse => Given {
                reuse: true,
                ..self
            },
            Verdict::Claimed => Given {
                claimed: true,
                ..self
            },
            Verdict::Used => self,
        }
    }
}

impl State {
    #[inline(always)]
    pub(crate) fn is_gone(&self) -> bool
        ensures { result ≡ is_gone self.now }
    {
        matches!(self, State::Gone)
    }

    /// The number of records since which it has been stale.
    #[inline(always)]
    pub(crate) fn since(&self) -> Option<u64>
        ensures { result ≡ since_of self.now }
    {
        match self {
            State::Stale { since, .. } => Some(*since),
            State::Current | State::Gone => None,
        }
    }

    /// Whether it has had the verdict since then, of those that are given once.
    #[inline(always)]
    pub(crate) fn has_had(&self, verdict: Verdict) -> bool
        ensures { result ≡ has_had verdict self.now }
    {
        match self {
            State::Stale { given, .. } => given.has(verdict),
            State::Current | State::Gone => false,
        }
    }

    /// With whether the tables have it now.
    #[inline(always)]
    pub(crate) fn recheck(&mut self, mapped: bool, count: u64)
        ensures { self.new ≡ rechecked mapped count self.old }
    {
        match self {
            State::Current if !mapped => {
                *self = State::Stale {
                    given: Given::none(),
                    since: count,
                };
            }
            State::Stale { .. } if mapped => *self = State::Current,
            _ => {}
        }
    }

    /// With a verdict of it.
    #[inline(always)]
    pub(crate) fn give(&mut self, verdict: Verdict)
        ensures { self.new ≡ given_too verdict self.old }
    {
        if let State::Stale { given, since } = *self {
            *self = State::Stale {
                given: given.with(verdict),
                since,
            };
        }
    }
}
