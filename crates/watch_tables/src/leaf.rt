//! Leaves.

ghost use Rattle.std.specs.Prelude.{◌≡◌, ◌↔◌, IsTrue};
ghost use Rattle.pte.specs.Address.{pages_of};
ghost use Rattle.watch.specs.Staleness.{Permit};
ghost use Rattle.watch_tables.specs.Paths.{is_leading, lacks_g};

use pte::{Kind, Page, PageSize, PteFlags};
use tlb::Entry;

/// G in the word of an entry.
const GLOBAL: u64 = 0x20;

/// What the leaf of a page has.
#[derive(Clone, Copy, PartialEq, Eq, Debug)]
pub(crate) struct Leaf {
    /// The PPN, a multiple of the page's size in pages of 4 KiB.
    ppn: u64,
    /// The flags.
    flags: PteFlags,
    /// Whether G is set in the leaf or in a pointer above it.
    global: bool,
}

/// A leaf of the tables of a root.
#[derive(Clone, Copy, PartialEq, Eq, Debug)]
pub struct RootLeaf {
    /// The PPN of the root table.
    pub root: u64,
    /// What a TLB may hold of the leaf, with ASID 0.
    pub entry: Entry,
    /// How many records had been when the newest word on the leaf's path was stored.
    pub since: u64,
}

/// Whether the new flags permit what the old ones do.
fn permits(new: PteFlags, old: PteFlags) -> bool
    ensures { IsTrue result ↔ Permit new old }
{
    new.is_user() == old.is_user()
        && (new.may_read() || !old.may_read())
        && (new.may_write() || !old.may_write())
        && (new.may_execute() || !old.may_execute())
}

/// Whether an entry of a kind may be a leaf or a pointer.
pub(crate) fn leads_on(kind: Kind) -> bool
    ensures { result ≡ is_leading kind }
{
    match kind {
        Kind::Invalid | Kind::Reserved => false,
        Kind::Table { .. } | Kind::Leaf { .. } => true,
    }
}

/// Whether the word of an entry may be a leaf or a pointer without G: V is set in it, and G is not.
#[inline(always)]
pub(crate) fn lacks_g(word: u64) -> bool
    ensures { result ≡ lacks_g word }
{
    word % 2 == 1 && word / GLOBAL % 2 == 0
}

impl Leaf {
    ghost use Rattle.watch_tables.specs.Paths.{IsAtLeast, entry_at, leaf_from, leaf_of};

    /// The leaf of a page of a size that an entry of a kind is, below pointers of which one has G or
    /// none has; `None` for what is no leaf, and for one that is not aligned.
    #[inline(always)]
    pub(crate) fn from_kind(global: bool, size: PageSize, kind: Kind) -> Option<Leaf>
        ensures { result ≡ leaf_from global (pages_of size) kind }
    {
        match kind {
            Kind::Leaf { ppn, flags } if ppn % size.pages() == 0 => Some(Leaf {
                ppn,
                flags,
                global: global || flags.is_global(),
            }),
            _ => None,
        }
    }

    /// Whether G is set in the leaf or in a pointer above it.
    #[inline(always)]
    pub(crate) fn is_global(self) -> bool
        ensures { result ≡ self.global }
    {
        self.global
    }

    /// The entry of a TLB for the leaf of a page, with ASID 0.
    pub(crate) fn entry(self, page: Page) -> Entry
        ensures { result ≡ entry_at page self }
    {
        Entry {
            asid: 0,
            global: self.global,
            page,
            ppn: self.ppn,
            flags: self.flags,
        }
    }

    /// Whether the leaf has what a TLB's entry has.
    #[inline(always)]
    pub(crate) fn is_of(&self, entry: &Entry) -> bool
        ensures { IsTrue result ↔ (self.now ≡ leaf_of entry.now) }
    {
        self.ppn == entry.ppn && self.flags == entry.flags && self.global == entry.global
    }

    /// Whether the leaf has the PPN of a TLB's entry and at least its rights, and is as global as
    /// it is.
    #[inline(always)]
    pub(crate) fn is_at_least(&self, entry: &Entry) -> bool
        ensures { IsTrue result ↔ IsAtLeast self.now entry.now }
    {
        self.ppn == entry.ppn && self.global == entry.global && permits(self.flags, entry.flags)
    }
}
