//! Whether a hart comes back to what it may hold.

/// Whether the hart of a finding comes back to the page, before a fence that takes it out.
#[derive(Clone, Copy, PartialEq, Eq, Debug)]
pub enum Reach {
    /// It uses the page: there is a verdict `use`.
    Used,
    /// At the first verdict or later its satp has the ASID of the translation; of what is global it
    /// has any address space.
    Reachable,
    /// Neither.
    NotReached,
}
