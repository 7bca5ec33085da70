//! Why a report is not whole.
ghost use Rattle.std.specs.Prelude.{◌≡◌};

use crate::line_fault::LineFault;
use crate::reading_fault::ReadingFault;
use thiserror::Error;

/// Why the report of a trace is not whole.
#[derive(Clone, Copy, PartialEq, Eq, Debug, Error)]
pub enum ReportFault {
    /// The reader failed.
    #[error("the trace cannot be read")]
    Unreadable,
    /// A line has no form. Its number is from 1 on, and `warned` says whether there is a verdict on the
    /// records before it.
    #[error("{number}:{fault}")]
    Line {
        number: u64,
        fault: LineFault,
        warned: bool,
    },
    /// The writer failed.
    #[error("the report cannot be written")]
    Output,
    /// Nobody reads the report any more, of a trace whose lines so far have a form. `warned` says
    /// whether there is a verdict on its records so far; without one all lines were read.
    #[error("nobody reads the report any more")]
    BrokenPipe {
        warned: bool,
    },
    /// Nobody reads the last lines any more, of a trace of which a line has no form, as of `Line`.
    #[error("{number}:{fault}")]
    BrokenPipeAtLine {
        number: u64,
        fault: LineFault,
        warned: bool,
    },
    /// There is not enough memory, or a count has no room in 64 bits.
    #[error("there is not enough memory")]
    NoMemory,
}

impl From<ReadingFault> for ReportFault {
    ghost use Rattle.watch_report.specs.Reading.{report_fault_of};

    ghost from_gives = { λ fault e. e ≡ report_fault_of fault };

    fn from(fault: ReadingFault) -> ReportFault {
        match fault {
            ReadingFault::Unreadable => ReportFault::Unreadable,
            ReadingFault::Output => ReportFault::Output,
            ReadingFault::BrokenPipe => ReportFault::BrokenPipe { warned: false },
            ReadingFault::BrokenPipeWarned => ReportFault::BrokenPipe { warned: true },
            ReadingFault::NoMemory => ReportFault::NoMemory,
        }
    }
}
