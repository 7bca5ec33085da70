//! Findings that have begun.

use crate::finding::Cause;
use watch_engine::Warning;

/// A finding, by its first verdict.
#[derive(Clone, Copy, PartialEq, Eq, Debug)]
pub struct Begun {
    /// The number of the record of that verdict; the first record has 1.
    pub number: u64,
    /// The verdict.
    pub warning: Warning,
    /// The cause that the finding belongs to.
    pub cause: Cause,
    /// The harts of which the verdict's flush asked for a fence, a bit each; 0 without a flush.
    pub fenced: u64,
}
