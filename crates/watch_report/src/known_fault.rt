//! Why the list of what is known cannot be read.
ghost use Rattle.std.specs.Prelude.{◌≡◌};

use crate::line_fault::{CARRIAGE_RETURN, NO_SPACE, SPACE, Word};
use std::alloc::AllocError;
use std::fmt;
use thiserror::Error;

/// Why a line of the list is no entry.
#[derive(Clone, Copy, PartialEq, Eq, Debug)]
pub enum KnownReason {
    /// The line ends in a carriage return.
    CarriageReturn,
    /// A byte before the note is neither printable ASCII nor a space.
    OtherByte(u8),
    /// A note without a space before it.
    NoSpace,
    /// A space stands where no word ends, or none begins.
    Space,
    /// The first word is neither `user` nor `kernel`.
    NoOwner,
    /// The second word is no verdict, and not `-`, or is missing.
    NoVerdict,
    /// The third word is no reason, and not `-`, or is missing.
    NoReason,
    /// The word behind the reason or the reach is no reach and no hexadecimal number.
    NoAddress,
    /// SIZE is no hexadecimal number, or is missing.
    NoSize,
    /// A word stands behind SIZE.
    Excess,
}

/// What is wrong with a line of the list. `Display` is the number and the text of the reason, as
/// `3: no SIZE behind START, a hexadecimal number`.
#[derive(Clone, Copy, PartialEq, Eq, Debug)]
pub struct KnownFault {
    /// The number of the line, from 1 on.
    pub line: u64,
    /// What is wrong there.
    pub reason: KnownReason,
}

/// Why the list of what is known cannot be read.
#[derive(Clone, Copy, PartialEq, Eq, Debug, Error)]
pub enum KnownError {
    /// A line is no entry: the first of these.
    #[error("{0}")]
    Line(KnownFault),
    /// There is not enough memory.
    #[error("there is not enough memory")]
    NoMemory,
}

const NO_OWNER: &str = "no owner: an entry begins with user or kernel";

const NO_VERDICT: &str =
    "no first verdict behind the owner: free, reuse, claim or use, or - for any";

const NO_REASON: &str = "no reason behind the verdict: no-flush, no-fence, other-hart, \
    other-asid, other-page or not-done, or - for any";

const NO_ADDRESS: &str =
    "no START, a hexadecimal number, and no reach: used, reachable or not-reached";

const NO_SIZE: &str = "no SIZE behind START, a hexadecimal number";

const EXCESS: &str = "a word too many: OWNER FIRST REASON [REACH] [START SIZE] [@NOTE]";

impl fmt::Display for KnownReason {
    ghost use Rattle.std.specs.Prelude.{Some};
    ghost use Rattle.watch_report.specs.KnownFaults.{known_reason_text};

    ghost output = { λ reason. Some (known_reason_text reason) };

    fn fmt<W: fmt::Write>(&self, f: &mut fmt::Formatter<W>) -> fmt::Result {
        match self {
            KnownReason::CarriageReturn => f.write_str(CARRIAGE_RETURN),
            KnownReason::OtherByte(byte) => {
                let byte = Word(u64::from(*byte));
                write!(f, "byte {byte}: the words of an entry are printable ASCII")
            }
            KnownReason::NoSpace => f.write_str(NO_SPACE),
            KnownReason::Space => f.write_str(SPACE),
            KnownReason::NoOwner => f.write_str(NO_OWNER),
            KnownReason::NoVerdict => f.write_str(NO_VERDICT),
            KnownReason::NoReason => f.write_str(NO_REASON),
            KnownReason::NoAddress => f.write_str(NO_ADDRESS),
            KnownReason::NoSize => f.write_str(NO_SIZE),
            KnownReason::Excess => f.write_str(EXCESS),
        }
    }
}

impl fmt::Display for KnownFault {
    ghost use Rattle.std.specs.Prelude.{Some};
    ghost use Rattle.watch_report.specs.KnownFaults.{known_fault_text};

    ghost output = { λ fault. Some (known_fault_text fault) };

    fn fmt<W: fmt::Write>(&self, f: &mut fmt::Formatter<W>) -> fmt::Result {
        let KnownFault { line, reason } = self;
        write!(f, "{line}: {reason}")
    }
}

impl From<AllocError> for KnownError {
    ghost use Rattle.watch_report.specs.declared.known_fault.KnownError.TheVariants.{NoMemory};

    ghost from_gives = { λ _ e. e ≡ NoMemory };

    fn from(_error: AllocError) -> KnownError {
        KnownError::NoMemory
    }
}
