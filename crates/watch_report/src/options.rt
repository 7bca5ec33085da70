//! What a report tells, of which verdicts, and how.

use crate::detail::Detail;
use crate::filter::Filter;

/// How a report is written.
#[derive(Clone, Copy, PartialEq, Eq, Debug)]
pub enum Form {
    /// In lines to be read.
    Text,
    /// An object of JSON (RFC 8259) on each line.
    Json,
}

/// What a report tells, of which verdicts, and how.
#[derive(Clone, Copy, PartialEq, Eq, Debug)]
pub struct Options {
    /// How much it tells.
    pub detail: Detail,
    /// Which verdicts it tells of.
    pub filter: Filter,
    /// How it is written.
    pub form: Form,
    /// As many verdicts or causes are told at most, the first; all are counted.
    pub most: Option<u64>,
}
