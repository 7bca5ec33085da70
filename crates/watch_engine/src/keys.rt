//! What an item of the list of what harts may hold is found by.

ghost use Rattle.std.specs.Prelude.{◌≡◌, ◌+◌, ◌<◌};
ghost use Rattle.watch_engine.specs.Keys.{AreSmall, frame_key, key_at, key_of, page_key};
ghost use Rattle.watch_engine.specs.PageRuns.{is_that_page};

use crate::held::Held;
use pte::{PAGE_BYTES, Page};
use tlb::Entry;

/// How many numbers pages of 4 KiB have in the bits that all schemes have. It is the key of all pages
/// larger than a megapage, 2 MiB; the keys of megapages follow it.
pub(crate) const PAGE_LIMIT: u64 = 1 << 27;

/// How many pages of 4 KiB a megapage has.
pub(crate) const MEGAPAGE_PAGES: u64 = 1 << 9;

const MEGAPAGE_BYTES: u64 = PAGE_BYTES * MEGAPAGE_PAGES;

/// How many numbers megapages have in the bits that all schemes have.
const MEGAPAGE_LIMIT: u64 = PAGE_LIMIT / MEGAPAGE_PAGES;

/// How many numbers frames have. It is the key of the frames of all larger pages.
pub(crate) const FRAME_LIMIT: u64 = 1 << 52;

/// What an item is found by.
#[derive(Clone, Copy, PartialEq, Eq, Debug)]
pub(crate) enum By {
    /// Its page.
    Page,
    /// The frame of its page.
    Frame,
    /// The root that it came from.
    Root,
}

/// Some keys that follow one another below a limit, those of some megapages that follow one another, and
/// with them the limit itself.
#[derive(Clone, Copy, PartialEq, Eq, Debug)]
pub(crate) struct Keys {
    pub(crate) by: By,
    pub(crate) first: u64,
    pub(crate) count: u64,
    pub(crate) limit: u64,
    /// How many megapages, from the one on that has the first page.
    pub(crate) megapages: u64,
}

/// The key of a page.
pub(crate) fn page_key(page: &Page) -> u64
    ensures { result ≡ page_key page.now }
{
    let base = page.base().get();
    let level = page.size().level();
    if level == 0 && base % PAGE_BYTES == 0 {
        base / PAGE_BYTES % PAGE_LIMIT
    } else if level == 1 && base % MEGAPAGE_BYTES == 0 {
        PAGE_LIMIT + 1 + base / MEGAPAGE_BYTES % MEGAPAGE_LIMIT
    } else {
        PAGE_LIMIT
    }
}

/// Whether the pages are the same.
pub(crate) fn is_that_page(page: &Page, other: &Page) -> bool
    ensures { result ≡ is_that_page page.now other.now }
{
    page.base().get() == other.base().get() && page.size().level() == other.size().level()
}

fn frame_key(entry: &Entry) -> u64
    ensures { result ≡ frame_key entry.now }
{
    if entry.page.size().level() == 0 {
        entry.ppn % FRAME_LIMIT
    } else {
        FRAME_LIMIT
    }
}

impl By {
    /// The key of an item.
    pub(crate) fn key_of(self, item: &Held) -> u64
        ensures { result ≡ key_of self item.now }
    {
        match self {
            By::Page => page_key(&item.entry.page),
            By::Frame => frame_key(&item.entry),
            By::Root => item.root % FRAME_LIMIT,
        }
    }
}

impl Keys {
    /// How many keys there are beside the limit.
    pub(crate) fn len(&self) -> u64
        requires { AreSmall self.now }
        ensures { result ≡ self.now.count + self.now.megapages }
    {
        self.count + self.megapages
    }

    /// The key at a place: of the pages, and behind them of the megapages.
    pub(crate) fn key(&self, place: u64) -> u64
        requires small { AreSmall self.now }
        requires within { place < self.now.count + self.now.megapages }
        ensures { result ≡ key_at self.now place }
    {
        if place < self.count {
            return (self.first + place) % self.limit;
        }
        let megapage = self.first / MEGAPAGE_PAGES + (place - self.count);
        self.limit + 1 + megapage % MEGAPAGE_LIMIT
    }
}
