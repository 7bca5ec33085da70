//! What is wished of a page, and which word it takes.

ghost use Rattle.std.specs.Prelude.{ℕ, ◌≡◌, ◌<◌, ◌≤◌, ◌^◌, ◌||◌, IfSome, None, false, nat_le, not, Ok};
ghost use Rattle.pte.specs.Address.{fits, top_level, vpn_of};
ghost use Rattle.spaces.specs.Layout.{user_slots};
ghost use Rattle.pte.specs.Entry.{is_no_leaf, leaf_word};
ghost use Rattle.pte.specs.declared.entry.TheConstants.{PPN_BITS};

use crate::faults::MapFault;
use crate::places::Place;
use bitflags::Flags;
use pte::{Kind, LeafFault, PPN_LIMIT, Page, Pte, PteFlags, Scheme, TABLE_LENGTH};

/// A page to map, to unmap or to protect.
#[derive(Clone, Copy, PartialEq, Eq, Debug)]
pub enum Wish {
    /// Map the page to the PPN with these flags.
    Map {
        place: Place,
        page: Page,
        ppn: u64,
        flags: PteFlags,
    },
    /// Unmap the page.
    Unmap {
        place: Place,
        page: Page,
    },
    /// Give the page's leaf other flags.
    Protect {
        place: Place,
        page: Page,
        flags: PteFlags,
    },
}

/// Where the path of a page ends: a word of a table of a level.
#[derive(Clone, Copy)]
pub(crate) struct PathEnd {
    pub(crate) level: u8,
    pub(crate) table: u64,
    pub(crate) entry: u64,
}

/// The word of a leaf, whose flags and PPN were tested.
#[tactic(auto, unfolding(pte::specs::Entry::leaf_of))]
fn leaf_word(ppn: u64, flags: PteFlags) -> Result<u64, MapFault>
    requires flags { is_no_leaf flags.0 ≡ false }
    requires ppn { ppn < 2 ^ PPN_BITS }
    ensures { result ≡ Ok (leaf_word ppn flags) }
{
    match Pte::leaf(ppn, flags) {
        Ok(entry) => Ok(entry.0),
        Err(LeafFault::BadFlags) => Err(MapFault::BadFlags),
        Err(LeafFault::PpnTooLarge) => Err(MapFault::PpnTooLarge),
    }
}

/// Whether the page is none of the scheme's user half, whose addresses have no bit from the highest
/// of the scheme on.
#[inline(always)]
#[tactic(auto, using(crate::proofs::UserHalves::user_half))]
fn is_no_user_page(page: Page, scheme: Scheme) -> bool
    ensures { result
        ≡ (not (fits scheme page) || nat_le user_slots (vpn_of page.base (top_level scheme))) }
{
    page.size().level() > scheme.top_level()
        || page.base().get() >> (scheme.address_bits() - 1) != 0
}

impl Place {
    ghost use Rattle.spaces.specs.Edits.{is_bad, is_kernel};

    #[inline(always)]
    pub(crate) fn is_kernel(self) -> bool
        ensures { result ≡ is_kernel self }
    {
        self == Place::Kernel
    }

    /// Whether no leaf of the place has these flags.
    #[tactic(auto, unfolding(pte::specs::Entry::leaf_of))]
    pub(crate) fn is_bad(self, flags: PteFlags) -> bool
        ensures { result ≡ is_bad self flags }
    {
        let flags = PteFlags::from_bits_retain(flags.bits());
        Pte::leaf(0, flags).is_err() || flags.is_global() != self.is_kernel()
    }
}

impl Wish {
    ghost use Rattle.pte.specs.Address.{level_of, top_level, widest};
    ghost use Rattle.pte.specs.Entry.{kind_of};
    ghost use Rattle.spaces.specs.EditStages.{bare_layout, table_fault};
    ghost use Rattle.spaces.specs.Edits.{due_word, is_wrong_half, leaf_fault, page_of, page_word, place_of, upper_word};

    /// The place that it is about.
    #[inline(always)]
    pub fn place(&self) -> Place
        ensures { result ≡ place_of self.now }
    {
        match *self {
            Wish::Map { place, .. } | Wish::Unmap { place, .. } | Wish::Protect { place, .. } => {
                place
            }
        }
    }

    /// The page that it is about.
    #[inline(always)]
    pub fn page(&self) -> Page
        ensures { result ≡ page_of self.now }
    {
        match *self {
            Wish::Map { page, .. } | Wish::Unmap { page, .. } | Wish::Protect { page, .. } => page,
        }
    }

    /// The level of the page's leaf.
    #[inline(always)]
    pub(crate) fn level(&self) -> u8
        ensures level { result ≡ level_of (page_of self.now).size }
        ensures range { result ≤ top_level widest }
    {
        let page = self.page();
        page.size().level()
    }

    /// Whether the page is none of the scheme, or lies outside the part of the root that the place
    /// has beside a window of `window` slots.
    #[inline(always)]
    pub(crate) fn is_wrong_half(&self, scheme: Scheme, window: u16) -> bool
        requires { window ≤ TABLE_LENGTH }
        ensures page { result ≡ false → level_of (page_of self.now).size ≤ top_level scheme }
        ensures value { (base : ℕ)
            → result
            ≡ is_wrong_half (bare_layout scheme window base) (place_of self.now)
            (page_of self.now) }
    {
        match scheme {
            Scheme::Sv39 => self.is_wrong_half_in(Scheme::Sv39, window),
            Scheme::Sv48 => self.is_wrong_half_in(Scheme::Sv48, window),
        }
    }

    /// The same, for callers that name the scheme: its numbers are constants then.
    #[inline(always)]
    fn is_wrong_half_in(&self, scheme: Scheme, window: u16) -> bool
        requires { window ≤ TABLE_LENGTH }
        ensures page { result ≡ false → level_of (page_of self.now).size ≤ top_level scheme }
        ensures value { (base : ℕ)
            → result
            ≡ is_wrong_half (bare_layout scheme window base) (place_of self.now)
            (page_of self.now) }
    {
        let page = self.page();
        match self.place() {
            Place::Space(_) => is_no_user_page(page, scheme),
            Place::Kernel => {
                let slot = page.base().vpn(scheme.top_level());
                !page.fits(scheme) || slot < TABLE_LENGTH - window
            }
        }
    }

    /// Why the wish is refused if it has a table at its page's level.
    pub(crate) fn table_fault(&self) -> MapFault
        ensures { result ≡ table_fault self.now }
    {
        match *self {
            Wish::Map { .. } => MapFault::TableInWay,
            Wish::Unmap { .. } | Wish::Protect { .. } => MapFault::WrongSize,
        }
    }

    /// What is wrong with the flags and the PPN.
    #[inline(always)]
    pub(crate) fn leaf_fault(&self) -> Option<MapFault>
        ensures { result ≡ leaf_fault self.now }
    {
        match *self {
            Wish::Map {
                place,
                page,
                ppn,
                flags,
            } => {
                if place.is_bad(flags) {
                    Some(MapFault::BadFlags)
                } else if ppn >= PPN_LIMIT {
                    Some(MapFault::PpnTooLarge)
                } else if ppn % page.size().pages() != 0 {
                    Some(MapFault::Misaligned)
                } else {
                    None
                }
            }
            Wish::Unmap { .. } => None,
            Wish::Protect { place, flags, .. } => {
                if place.is_bad(flags) {
                    Some(MapFault::BadFlags)
                } else {
                    None
                }
            }
        }
    }

    /// The word that is due at the page's own level, by what stands there.
    #[inline(always)]
    fn page_word(&self, entry: u64) -> Result<u64, MapFault>
        requires { leaf_fault self.now ≡ None }
        ensures { result ≡ page_word self.now (kind_of entry) }
    {
        match *self {
            Wish::Map { ppn, flags, .. } => match Pte(entry).kind() {
                Kind::Table { .. } => Err(MapFault::TableInWay),
                Kind::Leaf { .. } => Err(MapFault::AlreadyMapped),
                Kind::Invalid | Kind::Reserved => leaf_word(ppn, flags),
            },
            Wish::Unmap { .. } => match Pte(entry).kind() {
                Kind::Table { .. } => Err(MapFault::WrongSize),
                Kind::Leaf { .. } => Ok(0),
                Kind::Invalid | Kind::Reserved => Err(MapFault::NotMapped),
            },
            Wish::Protect { flags, .. } => match Pte(entry).kind() {
                Kind::Table { .. } => Err(MapFault::WrongSize),
                Kind::Leaf { ppn, .. } => leaf_word(ppn, flags),
                Kind::Invalid | Kind::Reserved => Err(MapFault::NotMapped),
            },
        }
    }

    /// The word that is due above the page's level, by what stands there and the lowest unused
    /// spare frame.
    #[inline(always)]
    fn upper_word(&self, spare: Option<u64>, entry: u64) -> Result<u64, MapFault>
        requires { IfSome spare (λ frame. frame < 2 ^ PPN_BITS) }
        ensures { result ≡ upper_word self.now spare (kind_of entry) }
    {
        match *self {
            Wish::Map { place, .. } => match Pte(entry).kind() {
                Kind::Leaf { .. } => Err(MapFault::LeafInWay),
                _ => match spare {
                    Some(frame) => Ok(Pte::table(frame, place.is_kernel()).0),
                    None => Err(MapFault::NoFrame),
                },
            },
            _ => match Pte(entry).kind() {
                Kind::Leaf { .. } => Err(MapFault::WrongSize),
                _ => Err(MapFault::NotMapped),
            },
        }
    }

    /// The word that is due where the path of the page ends.
    #[inline(always)]
    pub(crate) fn due_word(&self, spare: Option<u64>, end: &PathEnd) -> Result<u64, MapFault>
        requires wish { leaf_fault self.now ≡ None }
        requires frame { IfSome spare (λ frame. frame < 2 ^ PPN_BITS) }
        requires level { level_of (page_of self.now).size ≤ end.now.level }
        ensures { result ≡ due_word self.now spare end.now }
    {
        let is_at_page = end.level <= self.level();
        if is_at_page {
            self.page_word(end.entry)
        } else {
            self.upper_word(spare, end.entry)
        }
    }
}
