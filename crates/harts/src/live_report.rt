//! What a live run leaves, or why there is none.

ghost use Rattle.std.specs.Prelude.{◌≡◌};

use crate::live_reply::LiveReply;
use board::Report;
use spaces::OpenFault;
use std::alloc::AllocError;
use thiserror::Error;

/// The answers of a live run, and what became of the requests between its harts.
#[derive(Drop, Debug)]
pub struct LiveReport {
    /// The answer to each step of setup, in order.
    pub setup: Vec<LiveReply>,
    /// For each hart, in order, the answers to the steps of its script, in order: to all of them,
    /// or, if the gate ended the script, to those before, and `Halted`. None for a hart without a
    /// script.
    pub scripts: Vec<Vec<LiveReply>>,
    /// What each mailbox did, setup and the time after the scripts included.
    pub report: Report,
}

/// Why there is no live run.
#[derive(Clone, Copy, PartialEq, Eq, Debug, Error)]
pub enum LiveFault {
    /// There was no memory for the board or for the answers.
    #[error("not enough memory")]
    NoMemory,
    /// `Config::check_live` says no.
    #[error("the configuration breaks a limit")]
    BadLayout,
    /// A thread could not be started.
    #[error("a thread could not be started")]
    NoThread,
}

impl From<AllocError> for LiveFault {
    ghost use Rattle.std.specs.Prelude.{◌≡◌};
    ghost use Rattle.harts.specs.declared.live_report.LiveFault.TheVariants.{NoMemory};

    ghost from_gives = { λ _ fault. fault ≡ NoMemory };

    fn from(_error: AllocError) -> LiveFault {
        LiveFault::NoMemory
    }
}

impl From<OpenFault> for LiveFault {
    ghost use Rattle.std.specs.Prelude.{◌≡◌, ◌↔◌};
    ghost use Rattle.spaces.specs.declared.faults.OpenFault.TheVariants as open_fault;
    ghost use Rattle.harts.specs.declared.live_report.LiveFault.TheVariants as live_fault;

    ghost from_gives = { λ was fault. (fault ≡ live_fault.BadLayout)
        ↔ (was ≡ open_fault.BadLayout) };

    fn from(fault: OpenFault) -> LiveFault {
        match fault {
            OpenFault::NoMemory => LiveFault::NoMemory,
            OpenFault::BadLayout => LiveFault::BadLayout,
        }
    }
}
