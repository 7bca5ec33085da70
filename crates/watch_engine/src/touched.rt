//! The translations that a store to a word can concern.

ghost use Rattle.std.specs.Prelude.{◌≡◌, map};
ghost use Rattle.watch.specs.Trace.{index_of};
ghost use Rattle.watch_engine.specs.Concerns.{store_on};
ghost use Rattle.watch_engine.specs.LastAnswer.{IsAnswered};
ghost use Rattle.watch_engine.specs.Held.{translation_of};
ghost use Rattle.watch_engine.specs.Touched.{all_settled, asks, is_below, is_touched, is_touched_on, store_change};
ghost use Rattle.watch_engine.specs.View.{is_current_in, view_of};

use crate::concern::Concern;
use crate::effects::Effect;
use crate::held::{Held, is_same_entry};
use crate::live::is_live_in;
use crate::roots::{Roots, is_current};
use crate::satps::satp_in;
use crate::state::State;
use crate::tables::Tables;
use crate::translation_index::TranslationIndex;
use crate::view::View;
use pte::{PAGE_BYTES, Page, Scheme};
use tlb::Entry;
use watch_tables::Way;

/// How many bytes a word of a table has.
const WORD_BYTES: u64 = 8;

/// The index of the word at an address in the table that its frame is.
#[inline(always)]
pub(crate) fn index_of(address: u64) -> u16
    ensures { result ≡ index_of address }
{
    (address % PAGE_BYTES / WORD_BYTES) as u16
}

/// The page lies below the word at the address, on the way to its table.
pub(crate) fn is_below(scheme: Scheme, address: u64, page: &Page, way: &Way) -> bool
    ensures { result ≡ is_below scheme (index_of address) page.now way.now }
{
    way.is_below(scheme, address, *page)
}

#[inline(always)]
fn is_touched_on(scheme: Scheme, roots: &Roots, address: u64, way: &Way, item: &Held) -> bool
    ensures { result ≡ is_touched_on scheme roots.now (index_of address) (translation_of item.now)
        way.now }
{
    is_below(scheme, address, &item.entry.page, way)
        && (way.root == item.root || item.entry.global && roots.has(way.root))
}

// A table of some level asks for the word at the index, on the path of the page.
#[inline(always)]
fn asks(page: &Page, index: u16) -> bool
    ensures { result ≡ asks page.now index }
{
    let va = page.base();
    va.vpn(0) == index || va.vpn(1) == index || va.vpn(2) == index || va.vpn(3) == index
}

// A call, so that a scan of the list is a short loop over the pages that do not ask for the word.
#[inline(never)]
fn is_touched_on_any(scheme: Scheme, roots: &Roots, address: u64, ways: &[Way], item: &Held) -> bool
    ensures { result ≡ is_touched scheme roots.now (index_of address) ways.now
        (translation_of item.now) }
{
    for way in ways {
        if is_touched_on(scheme, roots, address, way, item) {
            return true;
        }
    }
    false
}

// Few pages ask for the word at the index of the address, and of the others nothing more is read.
#[inline(always)]
fn is_touched(scheme: Scheme, roots: &Roots, address: u64, ways: &[Way], item: &Held) -> bool
    ensures { result ≡ is_touched scheme roots.now (index_of address) ways.now
        (translation_of item.now) }
{
    if !asks(&item.entry.page, index_of(address)) {
        return false;
    }
    is_touched_on_any(scheme, roots, address, ways, item)
}

// A translation, and whether the tables have it as long as they stay the same.
#[derive(Clone, Copy, PartialEq, Eq, Debug)]
struct LastAnswer {
    root: u64,
    entry: Entry,
    current: bool,
}

// The tables of the root have the entry or, where it is global, those of one of the roots. What harts
// may hold of one translation stands side by side, so the last answer is often the next.
fn is_current_again<T: Tables>(
    view: &View<'_, T>,
    last: &mut Option<LastAnswer>,
    root: u64,
    entry: &Entry,
) -> bool
    requires { IsAnswered (is_current_in (view_of view.now)) last.old }
    ensures value { result ≡ is_current_in (view_of view.now)
        (record { root = root; entry = entry.now }) }
    ensures last { IsAnswered (is_current_in (view_of view.now))
        last.new }
{
    if let Some(answer) = *last {
        if answer.root == root && is_same_entry(&answer.entry, entry) {
            return answer.current;
        }
    }
    let current = is_current(view.tables, view.scheme, view.roots.as_slice(), root, entry);
    *last = Some(LastAnswer {
        root,
        entry: *entry,
        current,
    });
    current
}

/// What a store makes of what lies below the word: with what the tables have then it is current or
/// stale, and what can be filled again goes.
#[derive(Drop)]
struct SettleTouched<'a, T: Tables> {
    view: &'a View<'a, T>,
    address: u64,
    ways: &'a [Way],
    last: Option<LastAnswer>,
    ghost answered: { IsAnswered (is_current_in (view_of view.now)) last },
}

impl<T: Tables> Effect for SettleTouched<'_, T> {
    ghost does = { λ s. record {
      change = store_change (view_of s.view.now) (index_of s.address) s.ways.now;
      concerns = map (store_on s.view.now.scheme s.view.now.roots.now s.address) s.ways.now;
    } };

    fn count(&self) -> usize {
        self.ways.len()
    }

    fn concern(&self, number: usize) -> Concern {
        let way = self.ways[number];
        Concern::Store {
            scheme: self.view.scheme,
            address: self.address,
            way,
            is_root: self.view.roots.has(way.root),
        }
    }

    #[inline(always)]
    fn apply(&mut self, item: &mut Held) -> bool {
        let view = self.view;
        if !is_touched(view.scheme, view.roots, self.address, self.ways, item) {
            return false;
        }
        let space = satp_in(view.satps, item.hart);
        if is_live_in(view.tables, view.scheme, space, item.root, &item.entry) {
            item.state = State::Gone;
            return true;
        }
        let current = is_current_again(view, &mut self.last, item.root, &item.entry);
        item.state.recheck(current, view.count);
        false
    }
}

/// With what the tables have now of those that the store concerns, and without those that can be
/// filled again.
pub(crate) fn settle_touched<T: Tables>(
    held: &mut TranslationIndex,
    view: &View<'_, T>,
    address: u64,
    ways: &[Way],
)
    ensures { held.new ≡ all_settled (view_of view.now) (index_of address) ways.now held.old }
{
    held.apply(&mut SettleTouched {
        view,
        address,
        ways,
        last: None,
    });
}
