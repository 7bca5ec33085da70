//! Why a command was not done: the words ask for none, its file was not read, or its scenario was
//! refused or not answered.
ghost use Rattle.std.specs.Prelude.{◌≡◌};
ghost use Rattle.scenario.specs.declared.trouble.Trouble.TheVariants.{Refused};
ghost use Rattle.files.specs.declared.fault.Fault.TheVariants.{NoMemory};

use files::Fault;
use std::alloc::AllocError;
use std::error::Error;
use std::fmt;
use watch_report::{KnownFault, LineFault};

/// Why a command was not done. `Display` is the text that `svsim` prints, without the file's name.
#[derive(Debug, Drop)]
pub enum Trouble {
    /// The words ask for nothing.
    Usage,
    Unreadable,
    TooLarge,
    /// A thread could not be started.
    NoThread,
    /// A wrong line: its number, what is wrong, and whether there is a verdict on the records before it.
    Line {
        number: u64,
        fault: LineFault,
        warned: bool,
    },
    /// `explain`: no verdict that the filter takes is at this line.
    NoVerdict {
        line: u64,
    },
    /// A wrong line of the list of what is known to be by design.
    KnownLine(KnownFault),
    Refused(Fault),
}

#[tactic(auto, using(crate::proofs::TroubleLemmas::fault_reason))]
impl fmt::Display for Trouble {
    ghost use Rattle.std.specs.Prelude.{Some, codes};
    ghost use Rattle.scenario.specs.Command.{ending_of, reason};

    ghost output = { λ trouble. Some (reason (codes "FILE") (ending_of trouble)) };

    fn fmt<W: fmt::Write>(&self, f: &mut fmt::Formatter<W>) -> fmt::Result {
        match self {
            Trouble::Usage => f.write_str("usage: svsim COMMAND FILE"),
            Trouble::Unreadable => f.write_str("cannot read FILE"),
            Trouble::TooLarge => f.write_str("file too large"),
            Trouble::NoThread => f.write_str("no thread"),
            Trouble::Line { number, fault, .. } => write!(f, "FILE:{number}:{fault}"),
            Trouble::NoVerdict { line } => write!(f, "FILE:{line}: no such verdict"),
            Trouble::KnownLine(fault) => write!(f, "FILE:{fault}"),
            Trouble::Refused(fault) => write!(f, "{fault}"),
        }
    }
}

impl Error for Trouble {}

impl From<AllocError> for Trouble {
    ghost from_gives = { λ _ e. e ≡ Refused NoMemory };

    fn from(_e: AllocError) -> Trouble {
        Trouble::Refused(Fault::NoMemory)
    }
}
