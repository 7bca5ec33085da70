//! The request that a hart serves.

use shoot::Request;

/// A request that a hart took and has not acknowledged.
#[derive(Clone, Copy, PartialEq, Eq, Debug)]
pub struct Serving {
    /// The hart that posted it.
    pub from: u8,
    /// What it asks, and under which ticket.
    pub request: Request,
    /// Whether the hart has fenced for it.
    pub fenced: bool,
}
