//! The numbers that stand at the border for what is an enum on this side.

ghost use Rattle.std.specs.Prelude.{◌≡◌, Ok, Err};
ghost use Rattle.std.specs.Result.{OkIff};
ghost use Rattle.melissaledge_c.specs.Codes.{access_of, code_of, is_set, mode_of, number_of, page_of, scheme_of, size_of, why_code};

use pte::{Access, Mode, Page, PageSize, Scheme, VirtAddr, tests_are_facts};
use walk::Why;

/// What is wrong with a call of C.
#[derive(Clone, Copy, PartialEq, Eq)]
pub enum Fault {
    /// The number of a scheme is neither 8 nor 9.
    Scheme,
    /// The number of an access is above 2.
    Access,
    /// The number of a privilege mode is neither 0 nor 1.
    Mode,
    /// There is no frame, or a frame has a PPN of 2^44 or more.
    Memory,
    /// There are not 512 words a frame.
    Length,
    /// The root table's PPN is 2^44 or more.
    Root,
    /// No memory could be allocated.
    NoMemory,
    /// The handle holds something already.
    AlreadyOpen,
    /// The handle holds nothing.
    NotOpen,
    /// There is no page of this base and this number of bytes.
    Page,
    /// The number of a kind of event or of request is none.
    Kind,
    /// The configuration breaks a limit.
    Layout,
    /// The hart does not exist.
    Hart,
    /// The address is not canonical.
    Address,
    /// The numbers are no TLB's, or a TLB can't hold so many entries.
    Tlb,
    /// The space does not exist.
    Space,
    /// The ticket is not open.
    Ticket,
    /// There is nothing in this place.
    Place,
    /// The number of a policy for A and D is neither 0 nor 1.
    Policy,
    /// The numbers are no walk's.
    Walk,
}

impl Fault {
    /// The negative number by which C knows the fault.
    pub(crate) fn code(self) -> i32
        ensures { result ≡ code_of self }
    {
        match self {
            Fault::Scheme => -3,
            Fault::Access => -4,
            Fault::Mode => -5,
            Fault::Memory => -6,
            Fault::Length => -7,
            Fault::Root => -8,
            Fault::NoMemory => -9,
            Fault::AlreadyOpen => -10,
            Fault::NotOpen => -11,
            Fault::Page => -12,
            Fault::Kind => -13,
            Fault::Layout => -14,
            Fault::Hart => -15,
            Fault::Address => -16,
            Fault::Space => -17,
            Fault::Ticket => -18,
            Fault::Place => -19,
            Fault::Policy => -20,
            Fault::Walk => -21,
            Fault::Tlb => -22,
        }
    }
}

/// The scheme of a number: that of MODE in satp (privileged manual 4.1.11).
pub(crate) fn scheme_of(code: u32) -> Option<Scheme>
    ensures { result ≡ scheme_of code }
{
    match code {
        8 => Some(Scheme::Sv39),
        9 => Some(Scheme::Sv48),
        _ => None,
    }
}

/// The access of a number.
pub(crate) fn access_of(code: u8) -> Option<Access>
    ensures { result ≡ access_of code }
{
    match code {
        0 => Some(Access::Fetch),
        1 => Some(Access::Load),
        2 => Some(Access::Store),
        _ => None,
    }
}

/// The privilege mode of a number: its encoding (privileged manual 1.2).
pub(crate) fn mode_of(code: u8) -> Option<Mode>
    ensures { result ≡ mode_of code }
{
    match code {
        0 => Some(Mode::User),
        1 => Some(Mode::Super),
        _ => None,
    }
}

/// Whether a flag is set.
pub(crate) fn is_set(flag: u8) -> bool
    ensures { result ≡ is_set flag }
{
    flag != 0
}

/// The number of a flag.
pub(crate) fn number_of(flag: bool) -> u8
    ensures { result ≡ number_of flag }
{
    if flag { 1 } else { 0 }
}

/// The size of a page of this many bytes.
fn size_of(bytes: u64) -> Option<PageSize>
    ensures { result ≡ size_of bytes }
{
    match bytes {
        0x1000 => Some(PageSize::Kib4),
        0x20_0000 => Some(PageSize::Mib2),
        0x4000_0000 => Some(PageSize::Gib1),
        0x80_0000_0000 => Some(PageSize::Gib512),
        _ => None,
    }
}

/// The page of a base and a number of bytes.
#[inline(always)]
pub(crate) fn page_of(base: u64, bytes: u64) -> Result<Page, Fault>
    ensures { result ≡ page_of base bytes }
{
    tests_are_facts();
    let Some(size) = size_of(bytes) else {
        return Err(Fault::Page);
    };
    let Some(base) = VirtAddr::new_in(Scheme::Sv48, base) else {
        return Err(Fault::Page);
    };
    match Page::new(base, size) {
        Ok(page) => Ok(page),
        Err(_) => Err(Fault::Page),
    }
}

/// The number of a reason.
pub(crate) fn why_code(why: Why) -> u8
    ensures { result ≡ why_code why }
{
    match why {
        Why::NotCanonical => 1,
        Why::Outside => 2,
        Why::Invalid => 3,
        Why::Reserved => 4,
        Why::TooDeep => 5,
        Why::Denied => 6,
        Why::Misaligned => 7,
        Why::NotAccessed => 8,
        Why::NotDirty => 9,
    }
}
