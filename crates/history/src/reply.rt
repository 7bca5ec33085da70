//! What a step answers.

use crate::refusal::Refusal;
use shoot::Request;
use walk::Trap;

/// The answer to an event.
#[derive(Clone, Copy, PartialEq, Eq, Debug)]
pub enum Reply {
    /// The TLB answered, with this physical address.
    Hit(u64),
    /// The access raises an exception.
    Trap(Trap),
    /// The walk goes on with the next load.
    More,
    /// The walk found a leaf, which the TLB now holds; the physical address.
    Filled(u64),
    /// A pointer to a new table was stored; the PPN of the table.
    Table(u64),
    /// The leaf was stored.
    Leaf,
    /// A ticket was opened, with this number.
    Opened(u32),
    /// Done, with nothing to report.
    Ok,
    /// This request was taken.
    Taken(Request),
    /// Every named hart of the ticket is collected.
    Done,
    /// These named harts of the ticket are not collected, bit h for hart h.
    Waiting(u8),
    /// Refused: nothing changed.
    Refused(Refusal),
}
