//! Leaves that a step takes away or gives other flags, and the entries that hold them.

ghost use Rattle.std.specs.Prelude.{ℕ, true, false, ◌≡◌, ◌<◌, ◌^◌, ◌↔◌, ◌∷◌, IsTrue, IfSome, IfNone, Some};
ghost use Rattle.pte.specs.declared.flags.PteFlags.{PteFlags as PteFlagsOf};
ghost use Rattle.pte.specs.Address.{IsPage};
ghost use Rattle.pte.specs.declared.entry.TheConstants.{PPN_BITS};
ghost use Rattle.walk.specs.Maps.{page_number};
ghost use Rattle.spaces.specs.Held.{memory_words, spare_of};
ghost use Rattle.spaces.specs.Layout.{HasPlace};
ghost use Rattle.spaces.specs.Edits.{edit_of};
ghost use Rattle.tlb.specs.Mappings.{IsMappedBy, Mapping};
ghost use Rattle.history.specs.Setup.{Setup};
ghost use Rattle.history.specs.Turns.{History, opened_ticket};
ghost use Rattle.history.specs.Harts.{entries_of};
ghost use Rattle.history.specs.Due.{due};
ghost use Rattle.laws.specs.Kept.{HasPage};
ghost use Rattle.stepcore.specs.Answers.{asid_of_place, is_place};
ghost use Rattle.stepcore.specs.Stands.{Stands};
ghost use Rattle.stale.specs.Stale.{BecomesStale};
ghost use Rattle.stale.specs.Told.{home_in, IsEditOf};
ghost use Rattle.stale.specs.UseRuns.{due_turn};
ghost use Rattle.stale.specs.declared.changes.Change.{Change as ChangeOf};
ghost use Rattle.stale.specs.Mapped.{reach_of};
ghost use Rattle.stale.specs.Leaves.{smaller, wish_with, IsChanged, IsChangeOf, IsHeld, IsLeafUnder, IsSameFrame};

use pte::{Kind, PAGE_BYTES, Page, Pte, PteFlags};
use spaces::{Edit, MapFault, Memory, Place, protect_edit, unmap_edit};
use stepcore::{Event, Machine};
use tlb::Entry;
use walk::Words;

/// A leaf that an unmapping takes away, or to which a change of flags gives others.
#[derive(Clone, Copy, PartialEq, Eq, Debug)]
pub(crate) struct Change {
    /// The ASID of its space, or `None` for the kernel's pages.
    pub(crate) reach: Option<u16>,
    /// The page that it maps.
    pub(crate) page: Page,
    /// Its PPN.
    pub(crate) ppn: u64,
    /// Its flags before.
    pub(crate) flags: PteFlags,
}

/// The number of the first page of 4 KiB of a page.
fn first_of(page: &Page) -> u64
    ensures { result ≡ page_number page.now.base }
{
    page.base().get() / PAGE_BYTES
}

/// The smaller of two pages.
pub(crate) fn smaller(page: Page, other: Page) -> Page
    ensures { result ≡ smaller page other }
{
    if page.size().level() <= other.size().level() {
        page
    } else {
        other
    }
}

/// Whether an entry and a leaf map the page of 4 KiB of this number to one frame.
fn is_same_frame(change: &Change, entry: &Entry, number: u64) -> bool
    requires { change.now.ppn < 2 ^ PPN_BITS }
    ensures { IsTrue result ↔ IsSameFrame change.now entry.now number }
{
    let frame = change.ppn + number % change.page.size().pages();
    frame.checked_sub(entry.ppn) == Some(number % entry.page.size().pages())
}

/// The ASID of the entry's mappings, or `None` for every one.
fn reach_of(entry: &Entry) -> Option<u16>
    ensures { result ≡ reach_of entry.now }
{
    if entry.global { None } else { Some(entry.asid) }
}

/// Whether the mappings of the entry in the page are those of the leaf.
pub(crate) fn is_held(change: &Change, entry: &Entry) -> bool
    requires { change.now.ppn < 2 ^ PPN_BITS }
    ensures { IsTrue result ↔ IsHeld change.now entry.now }
{
    reach_of(entry) == change.reach
        && entry.flags == change.flags
        && entry.page.overlaps(&change.page)
        && is_same_frame(change, entry, first_of(&smaller(entry.page, change.page)))
}

/// The edit that is due for an unmapping or, with flags, for a change of flags.
fn edit_due(
    memory: &Memory,
    hart: u8,
    place: Place,
    page: Page,
    flags: Option<PteFlags>,
) -> Result<Edit, MapFault>
    requires { HasPlace memory.now.layout place }
    ensures { result ≡ edit_of memory.now.layout (memory_words memory.now)
        (spare_of memory.now hart) hart (wish_with place page flags) }
{
    match flags {
        None => unmap_edit(memory, hart, place, page),
        Some(flags) => protect_edit(memory, hart, place, page, flags),
    }
}

/// The ASID of the pages of a place, or `Some(None)` for every ASID. `None`: the place does not
/// exist, or is a free space.
fn reach_in(machine: &Machine, place: Place) -> Option<Option<u16>>
    ensures some { IfSome result (λ reach. (is_place machine.now place ≡ true)
        × (reach ≡ asid_of_place machine.now place)) }
    ensures there { IfSome result (λ _. HasPlace machine.now.memory.layout place) }
    ensures none { IfNone result (is_place machine.now place ≡ false) }
{
    match place {
        Place::Space(space) => match machine.asid_of_space(space) {
            Some(asid) => Some(Some(asid)),
            None => None,
        },
        Place::Kernel => Some(None),
    }
}

/// The leaf that the edit replaces by something else, if it maps anything.
fn leaf_under(memory: &Memory, edit: &Edit, page: Page) -> Option<(u64, PteFlags)>
    ensures some { IfSome result (λ leaf. IsLeafUnder
        (memory_words memory.now) edit.now page leaf.0 leaf.1) }
    ensures range { IfSome result (λ leaf. leaf.0 < 2 ^ PPN_BITS) }
    ensures none { IfNone result ((ppn : ℕ) (flags : PteFlagsOf)
        → ¬ IsLeafUnder (memory_words memory.now) edit.now page ppn flags) }
{
    let word = memory.word(edit.ppn(), edit.index())?;
    let leaf = Pte(word).kind();
    if Pte(edit.word()).kind() == leaf {
        return None;
    }
    match leaf {
        Kind::Leaf { ppn, flags } => {
            if ppn % page.size().pages() == 0 {
                Some((ppn, flags))
            } else {
                None
            }
        }
        _ => None,
    }
}

/// The leaf that an edit of a page of a place would change now.
fn change_in(
    machine: &Machine,
    hart: u8,
    place: Place,
    page: Page,
    flags: Option<PteFlags>,
) -> Option<Change>
    ensures some { IfSome result (λ change. IsChangeOf machine.now hart
        (wish_with place page flags) change) }
    ensures range { IfSome result (λ change. change.ppn < 2 ^ PPN_BITS) }
    ensures page { IfSome result (λ change. IsPage change.page) }
    ensures none { IfNone result ((change : ChangeOf)
        → ¬ IsChangeOf machine.now hart (wish_with place page flags) change) }
{
    page.recall();
    let memory = machine.memory();
    let reach = reach_in(machine, place)?;
    let Ok(edit) = edit_due(memory, hart, place, page, flags) else {
        return None;
    };
    let (ppn, flags) = leaf_under(memory, &edit, page)?;
    Some(Change {
        reach,
        page,
        ppn,
        flags,
    })
}

/// The leaf that an event would change now, if it is accepted.
pub(crate) fn change_of(machine: &Machine, event: &Event) -> Option<Change>
    ensures range { IfSome result (λ change. change.ppn < 2 ^ PPN_BITS) }
    ensures page { IfSome result (λ change. IsPage change.page) }
    ensures edit { IfSome result (λ _. IsEditOf (home_in event.now) event.now) }
    ensures changed { (setup : Setup) (history : History) (ticket hart : ℕ) (m : Mapping)
        → Stands setup machine.now history → HasPage event.now
        → opened_ticket (due setup history event.now) ≡ Some ticket
        → BecomesStale setup (due_turn setup history event.now) history hart m
        ↔ (IsMappedBy (entries_of setup (due_turn setup history event.now ∷ history) hart) m
        × IsChanged result m) }
{
    match *event {
        Event::Unmap {
            hart,
            place,
            page,
            ..
        } => change_in(machine, hart, place, page, None),
        Event::Protect {
            hart,
            place,
            page,
            flags,
            ..
        } => change_in(machine, hart, place, page, Some(flags)),
        _ => None,
    }
}
