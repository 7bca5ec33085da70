//! The next record of a trace.

use watch::Record;

/// The newest record, which is being read, with its note and the number of its line.
#[derive(Clone, Copy)]
pub(crate) struct Newest<'a> {
    pub made: Record,
    pub by: &'a [u8],
    pub line: u64,
}
