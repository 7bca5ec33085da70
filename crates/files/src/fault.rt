//! Why a scenario is refused, or could not be answered.
ghost use Rattle.std.specs.Prelude.{◌≡◌};
ghost use Rattle.files.specs.declared.fault.Fault.TheVariants.{NoMemory};

use std::alloc::{AllocError, AllocFailed};
use std::error::Error;
use std::fmt;
use steps::StepFault;

/// Why a scenario has no answer. `Display` is the text that `svsim` prints.
#[derive(Debug, Drop)]
pub enum Fault {
    /// The text is no TOML document.
    NotToml,
    /// A key that the command does not know, or one whose value has the wrong type or content.
    Key(String),
    /// The harts, spaces and frames are not within the limits.
    Layout,
    /// More than 65,536 steps.
    TooMany,
    /// The step of this number, from 1; of a file for `live` the step of the setup.
    Step(u32, StepFault),
    /// The step of the script of this hart, from 0, that has this number, from 1. Files for `live`
    /// alone have scripts.
    Script(u8, u32, StepFault),
    /// The writer failed, or took no bytes.
    Output,
    /// A growth was refused.
    NoMemory,
}

impl fmt::Display for Fault {
    ghost use Rattle.std.specs.Prelude.{Some};
    ghost use Rattle.files.specs.Faults.{fault_text};

    ghost output = { λ fault. Some (fault_text fault) };

    fn fmt<W: fmt::Write>(&self, f: &mut fmt::Formatter<W>) -> fmt::Result {
        match self {
            Fault::NotToml => f.write_str("not TOML"),
            Fault::Key(name) => write!(f, "key {name}: wrong"),
            Fault::Layout => f.write_str("layout refused"),
            Fault::TooMany => f.write_str("too many steps"),
            Fault::Step(number, fault) => write!(f, "step {number}: {fault}"),
            Fault::Script(hart, number, fault) => {
                write!(f, "script {hart} step {number}: {fault}")
            }
            Fault::Output => f.write_str("output failed"),
            Fault::NoMemory => f.write_str("no memory"),
        }
    }
}

impl Error for Fault {}

impl From<AllocError> for Fault {
    ghost from_gives = { λ _ e. e ≡ NoMemory };

    fn from(_e: AllocError) -> Fault {
        Fault::NoMemory
    }
}

impl<T: Drop> From<AllocFailed<T>> for Fault {
    ghost from_gives = { λ _ e. e ≡ NoMemory };

    fn from(_e: AllocFailed<T>) -> Fault {
        Fault::NoMemory
    }
}
