//! The events of a machine, as numbers.

ghost use Rattle.std.specs.Prelude.{◌≡◌};
ghost use Rattle.std.specs.List.{slice_get};
ghost use Rattle.melissaledge_c.specs.Events.{begin_event, event_of, event_with, kind_of, map_event, place_of, protect_event, scope_of, unmap_event};

use crate::codes::{Fault, is_set, page_of};
use crate::requests::{AccessAsked, asked_of, optional_word};
use bitflags::Flags;
use pte::PteFlags;
use stepcore::{Event, Place, Scope};

/// An event: `struct mle_event` of C. A field that the kind does not name is not read.
#[repr(C)]
#[derive(Clone, Copy, PartialEq, Eq)]
pub struct EventAsked {
    /// The access of kind 0.
    pub access: AccessAsked,
    /// The first address of the page, for kinds 2 to 4.
    pub page_base: u64,
    /// How many bytes the page has, for kinds 2 to 4.
    pub page_bytes: u64,
    /// The PPN of the page, for kind 2.
    pub ppn: u64,
    /// The value of rs1, for kind 7.
    pub rs1: u64,
    /// The value of rs2, for kind 7.
    pub rs2: u64,
    /// The ticket, for kinds 8, 12, 13 and 14.
    pub ticket: u32,
    /// The ASID, for kind 18.
    pub asid: u16,
    /// What the hart does.
    pub kind: u8,
    /// The hart.
    pub hart: u8,
    /// The other hart, for kinds 8, 9, 13 and 15.
    pub other: u8,
    /// The space, for kinds 2 to 6 and 16 to 18.
    pub space: u8,
    /// For kinds 2 to 4: not 0 if the page is the kernel's, in all spaces. For kind 5: not 0 if
    /// everything is to be flushed.
    pub all: u8,
    /// The leaf's flags, for kinds 2 and 4.
    pub flags: u8,
    /// The named harts, bit h for hart h, for kinds 3 to 5.
    pub named: u8,
    /// 0 if rs1 is the register x0, for kind 7.
    pub has_rs1: u8,
    /// 0 if rs2 is the register x0, for kind 7.
    pub has_rs2: u8,
}

/// What a hart does, by the names of `Event`.
#[derive(Clone, Copy, PartialEq, Eq)]
pub(crate) enum Kind {
    Begin,
    Load,
    Map,
    Unmap,
    Protect,
    Flush,
    Switch,
    Fence,
    Post,
    Take,
    ServeFence,
    Ack,
    AckSelf,
    Collect,
    Finish,
    Close,
    Retire,
    Reclaim,
    Create,
}

/// The kinds, each at its number.
const KINDS: [Kind; 19] = [
    Kind::Begin,
    Kind::Load,
    Kind::Map,
    Kind::Unmap,
    Kind::Protect,
    Kind::Flush,
    Kind::Switch,
    Kind::Fence,
    Kind::Post,
    Kind::Take,
    Kind::ServeFence,
    Kind::Ack,
    Kind::AckSelf,
    Kind::Collect,
    Kind::Finish,
    Kind::Close,
    Kind::Retire,
    Kind::Reclaim,
    Kind::Create,
];

/// The kind at a place.
fn kind_at(kinds: &[Kind], place: usize) -> Option<Kind>
    ensures { result ≡ slice_get kinds.now place }
{
    kinds.get(place).copied()
}

/// The kind of a number.
fn kind_of(code: u8) -> Option<Kind>
    ensures { result ≡ kind_of code }
{
    kind_at(&KINDS, usize::from(code))
}

/// The place of a page.
fn place_of(asked: &EventAsked) -> Place
    ensures { result ≡ place_of asked.now }
{
    if is_set(asked.all) {
        Place::Kernel
    } else {
        Place::Space(asked.space)
    }
}

/// What a flush asks to drop.
fn scope_of(asked: &EventAsked) -> Scope
    ensures { result ≡ scope_of asked.now }
{
    if is_set(asked.all) {
        Scope::All
    } else {
        Scope::Space(asked.space)
    }
}

/// The beginning of an access.
fn begin_event(asked: &EventAsked) -> Result<Event, Fault>
    ensures { result ≡ begin_event asked.now }
{
    let (access, ctx) = asked_of(&asked.access)?;
    Ok(Event::Begin {
        hart: asked.hart,
        va: asked.access.va,
        access,
        ctx,
    })
}

/// The mapping of a page.
fn map_event(asked: &EventAsked) -> Result<Event, Fault>
    ensures { result ≡ map_event asked.now }
{
    let page = page_of(asked.page_base, asked.page_bytes)?;
    Ok(Event::Map {
        hart: asked.hart,
        place: place_of(asked),
        page,
        ppn: asked.ppn,
        flags: PteFlags::from_bits_retain(asked.flags),
    })
}

/// The unmapping of a page.
fn unmap_event(asked: &EventAsked) -> Result<Event, Fault>
    ensures { result ≡ unmap_event asked.now }
{
    let page = page_of(asked.page_base, asked.page_bytes)?;
    Ok(Event::Unmap {
        hart: asked.hart,
        place: place_of(asked),
        page,
        named: asked.named,
    })
}

/// A change of a page's flags.
fn protect_event(asked: &EventAsked) -> Result<Event, Fault>
    ensures { result ≡ protect_event asked.now }
{
    let page = page_of(asked.page_base, asked.page_bytes)?;
    Ok(Event::Protect {
        hart: asked.hart,
        place: place_of(asked),
        page,
        flags: PteFlags::from_bits_retain(asked.flags),
        named: asked.named,
    })
}

/// The event of a kind.
fn event_with(kind: Kind, asked: &EventAsked) -> Result<Event, Fault>
    ensures { result ≡ event_with kind asked.now }
{
    let (hart, ticket, space, asid) = (asked.hart, asked.ticket, asked.space, asked.asid);
    let (to, from) = (asked.other, asked.other);
    match kind {
        Kind::Begin => begin_event(asked),
        Kind::Map => map_event(asked),
        Kind::Unmap => unmap_event(asked),
        Kind::Protect => protect_event(asked),
        Kind::Load => Ok(Event::Load { hart }),
        Kind::Flush => Ok(Event::Flush {
            hart,
            scope: scope_of(asked),
            named: asked.named,
        }),
        Kind::Switch => Ok(Event::Switch { hart, space }),
        Kind::Fence => Ok(Event::Fence {
            hart,
            rs1: optional_word(asked.has_rs1, asked.rs1),
            rs2: optional_word(asked.has_rs2, asked.rs2),
        }),
        Kind::Post => Ok(Event::Post { hart, ticket, to }),
        Kind::Take => Ok(Event::Take { hart, from }),
        Kind::ServeFence => Ok(Event::ServeFence { hart }),
        Kind::Ack => Ok(Event::Ack { hart }),
        Kind::AckSelf => Ok(Event::AckSelf { hart, ticket }),
        Kind::Collect => Ok(Event::Collect { hart, ticket, from }),
        Kind::Finish => Ok(Event::Finish { hart, ticket }),
        Kind::Close => Ok(Event::Close { hart, to }),
        Kind::Retire => Ok(Event::Retire { hart, space }),
        Kind::Reclaim => Ok(Event::Reclaim { hart, space }),
        Kind::Create => Ok(Event::Create { hart, space, asid }),
    }
}

/// The event that numbers ask for, refused with `Kind`, or with `Access`, `Mode` or `Page` of what
/// it names.
pub(crate) fn event_of(asked: &EventAsked) -> Result<Event, Fault>
    ensures { result ≡ event_of asked.now }
{
    let Some(kind) = kind_of(asked.kind) else {
        return Err(Fault::Kind);
    };
    event_with(kind, asked)
}
