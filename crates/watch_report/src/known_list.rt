//! The list of what is known to be by design.

use watch_causes::Known;

/// What is known to be by design, and the name of the file that says so.
#[derive(Drop)]
pub struct KnownList<'a> {
    /// The name of the file.
    pub file: &'a [u8],
    /// Its entries, in the order of their lines.
    pub entries: Vec<Known>,
}
