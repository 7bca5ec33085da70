//! What a record can concern of what harts may hold.

ghost use Rattle.std.specs.Prelude.{◌≡◌, ◌+◌, ◌/◌, ◌%◌, ◌<◌, ◌≤◌, ◌^◌, Option, Some, ℕ, true};
ghost use Rattle.watch_engine.specs.Concerns.{concerns};
ghost use Rattle.watch_engine.specs.declared.held.Held.{Held as HeldOf};
ghost use Rattle.watch_engine.specs.declared.keys.Keys.{Keys as KeysOf};
ghost use Rattle.pte.specs.declared.scheme.Scheme.{Scheme as SchemeOf};
ghost use Rattle.tlb.specs.Fence.{is_fenced};
ghost use Rattle.watch.specs.Holding.{reaches};
ghost use Rattle.watch.specs.Verdicts.{is_of_root};
ghost use Rattle.watch_engine.specs.Causes.{applies};
ghost use Rattle.watch_engine.specs.Held.{is_claimed_by, shares, translation_of};
ghost use Rattle.watch_engine.specs.Keys.{AreSmall, IsAmong, key_of};

use crate::cause::Cause;
use crate::held::Held;
use crate::keys::{By, FRAME_LIMIT, Keys, MEGAPAGE_PAGES, PAGE_LIMIT};
use crate::open::{OpenClaim, OpenFence};
use crate::touched::index_of;
use pte::{PAGE_BYTES, Scheme, TABLE_LENGTH};
use watch::{AddressRange, Frames};
use watch_tables::Way;

/// Up to so many frames are looked up by their keys, and ranges that are a page shorter, since these
/// reach no more pages. For more, the list is scanned.
const FEW: u64 = 8;

/// What a record can concern.
#[derive(Clone, Copy, PartialEq, Eq, Debug)]
pub(crate) enum Concern {
    /// What a fence of a hart drops.
    Fence {
        scheme: Scheme,
        hart: u8,
        rs1: Option<u64>,
        rs2: Option<u64>,
    },
    /// What the end of a remote fence drops.
    Remote {
        scheme: Scheme,
        fence: Option<OpenFence>,
    },
    /// What a cause is of.
    Given(Cause),
    /// What lies below the word at an address that is stored to, on a way. `is_root`: the way begins at
    /// the root of an address space.
    Store {
        scheme: Scheme,
        address: u64,
        way: Way,
        is_root: bool,
    },
    /// Anything.
    All,
}

// The keys of pages of 4 KiB from a number on, and of the megapages that these lie in.
fn of_pages(first: u64, count: u64) -> Keys
    requires { count ≤ 8 }
    ensures { result ≡ record {
      by = By.Page;
      first = first;
      count = count;
      limit = 2 ^ 27;
      megapages
          = (first % 512 + count + 511) / 512;
    } }
{
    Keys {
        by: By::Page,
        first,
        count,
        limit: PAGE_LIMIT,
        megapages: (first % MEGAPAGE_PAGES + count + (MEGAPAGE_PAGES - 1)) / MEGAPAGE_PAGES,
    }
}

// The key of one page of 4 KiB.
fn of_page(page: u64) -> Keys
    ensures { result ≡ record { by = By.Page; first = page; count = 1; limit = 2 ^ 27; megapages = 0 } }
{
    Keys {
        by: By::Page,
        first: page,
        count: 1,
        limit: PAGE_LIMIT,
        megapages: 0,
    }
}

// The keys of what a fence for an address takes.
fn keys_of_fence(rs1: Option<u64>) -> Option<Keys>
    ensures all { (keys : KeysOf) → result ≡ Some keys
        → (scheme : SchemeOf) (rs2 : Option ℕ) (i : HeldOf)
        → is_fenced scheme rs1 rs2 i.entry ≡ true → IsAmong keys (key_of keys.by i) }
    ensures small { (keys : KeysOf) → result ≡ Some keys → AreSmall keys }
{
    match rs1 {
        None => None,
        Some(va) => Some(of_pages(va / PAGE_BYTES, 1)),
    }
}

// The keys of the pages that a small range reaches.
fn keys_of_range(range: &Option<AddressRange>) -> Option<Keys>
    ensures all { (keys : KeysOf) → result ≡ Some keys → (i : HeldOf)
        → reaches range.now i.entry.page ≡ true → IsAmong keys (key_of keys.by i) }
    ensures small { (keys : KeysOf) → result ≡ Some keys → AreSmall keys }
{
    let Some(range) = range else {
        return None;
    };
    if range.size > (FEW - 1) * PAGE_BYTES {
        return None;
    }
    let count = (range.start % PAGE_BYTES + range.size + (PAGE_BYTES - 1)) / PAGE_BYTES;
    Some(of_pages(range.start / PAGE_BYTES, count))
}

// The keys of few frames.
fn keys_of_frames(frames: &Frames) -> Option<Keys>
    ensures all { (keys : KeysOf) → result ≡ Some keys → (i : HeldOf)
        → shares frames.now i.entry ≡ true → IsAmong keys (key_of keys.by i) }
    ensures small { (keys : KeysOf) → result ≡ Some keys → AreSmall keys }
{
    if frames.count > FEW {
        return None;
    }
    Some(Keys {
        by: By::Frame,
        first: frames.first % FRAME_LIMIT,
        count: frames.count,
        limit: FRAME_LIMIT,
        megapages: 0,
    })
}

// The key of what came from a root.
fn of_root(root: u64) -> Keys
    ensures { result ≡ record { by = By.Root; first = root % 2 ^ 52; count = 1; limit = 2 ^ 52 + 1; megapages = 0 } }
{
    Keys {
        by: By::Root,
        first: root % FRAME_LIMIT,
        count: 1,
        limit: FRAME_LIMIT + 1,
        megapages: 0,
    }
}

// The key of what is of a root, if one is named.
fn keys_of_root(root: Option<u64>) -> Option<Keys>
    ensures all { (keys : KeysOf) → result ≡ Some keys → (i : HeldOf)
        → is_of_root root (translation_of i) ≡ true → IsAmong keys (key_of keys.by i) }
    ensures small { (keys : KeysOf) → result ≡ Some keys → AreSmall keys }
{
    match root {
        None => None,
        Some(root) => Some(of_root(root)),
    }
}

// The keys of what a claim is of: those of few pages, or that of one root.
fn keys_of_claim(claim: &Option<OpenClaim>) -> Option<Keys>
    ensures all { (keys : KeysOf) → result ≡ Some keys → (i : HeldOf)
        → is_claimed_by claim.now i ≡ true → IsAmong keys (key_of keys.by i) }
    ensures small { (keys : KeysOf) → result ≡ Some keys → AreSmall keys }
{
    let Some(begun) = claim else {
        return None;
    };
    match keys_of_range(&begun.claim.range) {
        Some(keys) => Some(keys),
        None => keys_of_root(begun.claim.root),
    }
}

/// The keys of what a cause is of; `None` where they are too many.
pub(crate) fn keys_of_cause(cause: &Cause) -> Option<Keys>
    ensures all { (keys : KeysOf) → result ≡ Some keys → (i : HeldOf)
        → applies cause.now i ≡ true → IsAmong keys (key_of keys.by i) }
    ensures small { (keys : KeysOf) → result ≡ Some keys → AreSmall keys }
{
    match cause {
        Cause::Back(frames) => keys_of_frames(frames),
        Cause::Out(frames) => keys_of_frames(frames),
        Cause::Claim(claim) => keys_of_claim(claim),
        Cause::Access { address, .. } => Some(of_pages(*address / PAGE_BYTES, 1)),
    }
}

// The keys of what lies below a word on a way: on one of the lowest level a page of 4 KiB. On one of a
// higher level from what is a root now, what is global counts whatever its root, so the whole list is gone
// along.
fn keys_of_store(address: u64, way: &Way, is_root: bool) -> Option<Keys>
    ensures all { (keys : KeysOf) → result ≡ Some keys → (scheme : SchemeOf) (i : HeldOf)
        → concerns (Concern.Store scheme address way.now is_root) i ≡ true
        → IsAmong keys (key_of keys.by i) }
    ensures small { (keys : KeysOf) → result ≡ Some keys → AreSmall keys }
{
    if way.level == 0 {
        let pages = PAGE_LIMIT / u64::from(TABLE_LENGTH);
        let first = way.vpn % pages * u64::from(TABLE_LENGTH) + u64::from(index_of(address));
        return Some(of_page(first));
    }
    if is_root {
        return None;
    }
    Some(of_root(way.root))
}

impl Concern {
    /// The keys of all that the record concerns; `None` where they are too many.
    pub(crate) fn keys(&self) -> Option<Keys>
        ensures all { (keys : KeysOf) → result ≡ Some keys → (i : HeldOf)
            → concerns self.now i ≡ true → IsAmong keys (key_of keys.by i) }
        ensures small { (keys : KeysOf) → result ≡ Some keys → AreSmall keys }
    {
        match self {
            Concern::Fence { rs1, .. } => keys_of_fence(*rs1),
            Concern::Remote {
                fence: Some(begun),
                ..
            } => keys_of_range(&begun.fence.range),
            Concern::Remote { fence: None, .. } => None,
            Concern::Given(cause) => keys_of_cause(cause),
            Concern::Store {
                address,
                way,
                is_root,
                ..
            } => keys_of_store(*address, way, *is_root),
            Concern::All => None,
        }
    }
}
