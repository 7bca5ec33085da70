//! What a page belongs to.

/// Where a page is mapped: in a space, by its number, or in the kernel window of all spaces.
#[derive(Clone, Copy, PartialEq, Eq, Debug)]
pub enum Place {
    /// The user's half of this space.
    Space(u8),
    /// The kernel window, which every space shares.
    Kernel,
}
