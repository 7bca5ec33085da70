//! What each mailbox did, once all harts have come back.

use shoot::Request;

/// What became of the requests of one hart to another.
#[derive(Drop, Debug)]
pub struct PairReport {
    /// The hart that posts.
    pub sender: u8,
    /// The hart that takes.
    pub receiver: u8,
    /// How many requests were accepted. The count stays at the greatest number of 64 bits.
    pub accepted: u64,
    /// How many requests were taken. The count stays at the greatest number of 64 bits.
    pub taken: u64,
    /// The requests that were accepted and not taken, the oldest first.
    pub waiting: Vec<Request>,
}

/// What became of the requests of each hart to each other one.
#[derive(Drop, Debug)]
pub struct Report {
    /// Each ordered pair of different harts, by sender and then by receiver.
    pub pairs: Vec<PairReport>,
}
