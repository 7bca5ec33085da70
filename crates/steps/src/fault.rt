//! What is wrong with the text of a step.
ghost use Rattle.std.specs.Prelude.{◌≡◌};
ghost use Rattle.steps.specs.StepFaults.{graver};

use std::error::Error;
use std::fmt;

/// What is wrong with a step. Where several are, it is the first of them in this order.
#[derive(Clone, Copy, Debug, PartialEq, Eq)]
pub enum StepFault {
    /// The text has no form of the command's steps.
    NotStep,
    /// It names a hart that does not exist.
    NoSuchHart,
    /// The address of its page is not canonical, or no multiple of the page's size (privileged
    /// manual 4.4.1 and 4.5.1).
    NotPage,
}

impl StepFault {
    /// Of two faults the first in this order.
    pub(crate) fn graver(self, other: StepFault) -> StepFault
        ensures { result ≡ graver self other }
    {
        match self {
            StepFault::NotStep => StepFault::NotStep,
            StepFault::NoSuchHart => match other {
                StepFault::NotStep => StepFault::NotStep,
                StepFault::NoSuchHart | StepFault::NotPage => StepFault::NoSuchHart,
            },
            StepFault::NotPage => other,
        }
    }
}

impl fmt::Display for StepFault {
    ghost use Rattle.std.specs.Prelude.{Some};
    ghost use Rattle.steps.specs.StepFaults.{step_fault_text};

    ghost output = { λ fault. Some (step_fault_text fault) };

    fn fmt<W: fmt::Write>(&self, f: &mut fmt::Formatter<W>) -> fmt::Result {
        match self {
            StepFault::NotStep => f.write_str("not a step"),
            StepFault::NoSuchHart => f.write_str("no such hart"),
            StepFault::NotPage => f.write_str("not a page"),
        }
    }
}

impl Error for StepFault {}
