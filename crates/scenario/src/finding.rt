//! What a command found.
use files::Fault;

/// What a command found, beside what it prints.
#[derive(Debug, Drop)]
pub(crate) enum Finding {
    Nothing,
    /// A stale mapping answered an access.
    StaleUsed,
    /// The text is faulty, which is explained.
    Faulty(Fault),
}
