//! The words of reasons and of reaches.
ghost use Rattle.std.specs.Prelude.{◌≡◌};
ghost use Rattle.watch_report.specs.ReasonWords.{reach_word, reason_word};

use watch_causes::{Reach, Reason};

/// The word of a reason, as a list of what is known and an object of JSON have it.
pub(crate) fn reason_word(reason: Reason) -> &'static [u8]
    ensures { result.now ≡ reason_word reason }
{
    match reason {
        Reason::NoFlush => b"no-flush",
        Reason::NoFence => b"no-fence",
        Reason::OtherHarts => b"other-hart",
        Reason::OtherSpaces => b"other-asid",
        Reason::OtherPages => b"other-page",
        Reason::NotDone => b"not-done",
    }
}

/// The word of a reach, as a list of what is known and an object of JSON have it.
pub(crate) fn reach_word(reach: Reach) -> &'static [u8]
    ensures { result.now ≡ reach_word reach }
{
    match reach {
        Reach::Used => b"used",
        Reach::Reachable => b"reachable",
        Reach::NotReached => b"not-reached",
    }
}
