//! What became of a call.

use spaces::OpenFault;

/// What became of a call.
#[derive(Clone, Copy, Debug, PartialEq, Eq)]
pub enum Verdict {
    /// The answer that it gives with ample memory.
    Usual,
    /// There was no memory, and nothing else is amiss.
    NoMemory,
    /// Anything else, which is a mistake.
    Other,
}

impl Verdict {
    /// `Usual` or `Other`.
    pub fn is_usual(usual: bool) -> Verdict {
        if usual {
            Verdict::Usual
        } else {
            Verdict::Other
        }
    }

    /// What is said of a layout that is within the limits, and of which nothing was opened.
    pub fn of_fault(fault: OpenFault) -> Verdict {
        match fault {
            OpenFault::NoMemory => Verdict::NoMemory,
            OpenFault::BadLayout => Verdict::Other,
        }
    }

    /// The word on the line of a call.
    pub fn told(self) -> &'static str {
        match self {
            Verdict::Usual => "usual",
            Verdict::NoMemory => "no memory",
            Verdict::Other => "another answer",
        }
    }
}
