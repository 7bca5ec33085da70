//! How much a report tells.

/// What a report tells of the verdicts that its filter takes, before its last line.
#[derive(Clone, Copy, PartialEq, Eq, Debug)]
pub enum Detail {
    /// Each verdict, by a line, as soon as its record is read.
    Verdicts,
    /// Each cause, by a block when its first verdict comes, and by a line with its counts at the end.
    Causes,
    /// Nothing.
    Counts,
}
