//! Why memory is not opened, the limits of what it is opened with, and why a page is not mapped,
//! unmapped or protected.

use std::alloc::AllocError;
use thiserror::Error;

/// Why no memory is opened.
#[derive(Clone, Copy, PartialEq, Eq, Debug, Error)]
pub enum OpenFault {
    /// There was no memory for what is opened.
    #[error("out of memory")]
    NoMemory,
    /// `Config::check` says no; for harts on threads, `Config::check_live`. Which limit does not
    /// hold is what `Config::broken_limit` and `Config::broken_live_limit` answer.
    #[error("the configuration is not within the limits")]
    BadLayout,
}

impl From<AllocError> for OpenFault {
    ghost use Rattle.std.specs.Prelude.{◌≡◌};
    ghost use Rattle.spaces.specs.declared.faults.OpenFault.TheVariants.{NoMemory};

    ghost from_gives = { λ _ fault. fault ≡ NoMemory };

    fn from(_error: AllocError) -> OpenFault {
        OpenFault::NoMemory
    }
}

/// The limits of a configuration, in the order of its fields. As an error, a limit says how it is
/// broken.
#[derive(Clone, Copy, PartialEq, Eq, Debug, Error)]
pub enum Limit {
    /// There are 1 to 8 harts.
    #[error("the number of harts is not from 1 to 8")]
    Harts,
    /// There are 1 to 32 spaces.
    #[error("the number of spaces is not from 1 to 32")]
    Spaces,
    /// The home of each space is below the number of harts.
    #[error("the home of a space is none of the harts")]
    Homes,
    /// Each space has an ASID of its own.
    #[error("two spaces have the same ASID")]
    Asids,
    /// The kernel window has 1 to 4 slots.
    #[error("the number of slots of the kernel window is not from 1 to 4")]
    Window,
    /// The PPNs of all table frames are below 2^44.
    #[error("the PPN of a table frame is 2^44 or more")]
    Ppns,
    /// There is one number of spare frames for each hart.
    #[error("there is not one number of spare frames for each hart")]
    Spares,
    /// There are at most 512 table frames, and at most 96 for harts on threads.
    #[error("there are more than 512 table frames, or more than 96 for harts on threads")]
    Frames,
    /// The capacity of each mailbox is from 1 to 64.
    #[error("the capacity of the mailboxes is not from 1 to 64")]
    Capacity,
}

/// Why an edit is refused, in the order in which the tests are made: first what the call says, then
/// what the tables hold.
#[derive(Clone, Copy, PartialEq, Eq, Debug, Error)]
pub enum MapFault {
    /// The hart is not the home of the place.
    #[error("the hart is not the home of these tables")]
    NotHome,
    /// A page that is none of the scheme (`Page::fits`), a page of a space outside the user's half
    /// of the root, or a page of the kernel outside the window.
    #[error("the page lies outside the part of the root that its place has")]
    WrongHalf,
    /// Flags that no leaf has, G for a space, or no G for the kernel.
    #[error("no leaf of this place has these flags")]
    BadFlags,
    /// The PPN has more than 44 bits.
    #[error("the PPN is 2^44 or more")]
    PpnTooLarge,
    /// The PPN is no multiple of the page's size in pages.
    #[error("the PPN is no multiple of the page's size")]
    Misaligned,
    /// Map: a leaf above the page's level.
    #[error("a larger page is mapped there")]
    LeafInWay,
    /// Map: a table is missing, and no spare frame of the home is unused.
    #[error("no spare frame of the home is left")]
    NoFrame,
    /// Map: a leaf at the page's level.
    #[error("the page is already mapped")]
    AlreadyMapped,
    /// Map: a table at the page's level.
    #[error("a table of smaller pages is there")]
    TableInWay,
    /// Unmap and protect: an empty word on the path.
    #[error("the page is not mapped")]
    NotMapped,
    /// Unmap and protect: a leaf above the page's level, or a table at it.
    #[error("a page of another size is mapped there")]
    WrongSize,
}
