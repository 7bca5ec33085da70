//! Why the reading of a trace fails.
ghost use Rattle.std.specs.Prelude.{◌≡◌};

use std::alloc::AllocError;
use watch_engine::RecordFault;

/// Why the reading of a trace, or of one of its records, fails. It is no fault of a line.
#[derive(Clone, Copy, PartialEq, Eq, Debug)]
pub enum ReadingFault {
    /// The reader failed.
    Unreadable,
    /// The writer failed.
    Output,
    /// Nobody reads what is written any more, and there was no verdict.
    BrokenPipe,
    /// Nobody reads what is written any more, and there was a verdict.
    BrokenPipeWarned,
    /// There is not enough memory, or a count has no room in 64 bits.
    NoMemory,
}

impl From<AllocError> for ReadingFault {
    ghost use Rattle.watch_report.specs.declared.reading_fault.ReadingFault.TheVariants.{NoMemory};

    ghost from_gives = { λ _ e. e ≡ NoMemory };

    fn from(_error: AllocError) -> ReadingFault {
        ReadingFault::NoMemory
    }
}

impl From<RecordFault> for ReadingFault {
    ghost use Rattle.watch_report.specs.declared.reading_fault.ReadingFault.TheVariants.{NoMemory};

    ghost from_gives = { λ _ e. e ≡ NoMemory };

    fn from(_fault: RecordFault) -> ReadingFault {
        ReadingFault::NoMemory
    }
}
