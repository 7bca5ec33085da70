//! The harts that may hold translations of a page.

ghost use Rattle.std.specs.Prelude.{ℕ, ◌≡◌, ◌||◌, get_or, true};
ghost use Rattle.watch_engine.specs.PageRuns.{AreHartsOf, is_on_page};
ghost use Rattle.watch_engine.specs.Places.{has, items_of};

use crate::held::Held;
use crate::held_list::HeldList;
use crate::keys::{By, is_that_page, page_key};
use crate::shared::HARTS;
use pte::Page;

/// How many steps along its chain the look for the harts of a page may take: enough for an item of each
/// hart. A longer chain is mostly of other pages.
const HARTS_STEPS: usize = 256;

// With the hart of the item, if it is there and of the page.
fn add_hart_of(harts: &mut [bool; HARTS], page: &Page, item: &Held)
    ensures { (hart : ℕ) → get_or harts.new hart true
        ≡ (has (is_on_page page.now hart) item.now || get_or harts.old hart true) }
{
    if !item.state.is_gone() && is_that_page(&item.entry.page, page) {
        harts[item.hart as usize] = true;
    }
}

impl HeldList {
    /// The harts of the items of a page: all of them where its chain is long.
    pub(crate) fn harts_of(&self, page: &Page) -> [bool; HARTS]
        ensures { AreHartsOf page.now (items_of self.now.places.items) result }
    {
        let places = self.places.as_slice();
        let mut harts = [false; HARTS];
        let mut steps = HARTS_STEPS;
        let pages = self.indexes.by(By::Page);
        let Some(mut at) = pages.newest(page_key(page), &mut steps) else {
            return [true; HARTS];
        };
        while at > 0 {
            add_hart_of(&mut harts, page, &places[at - 1]);
            let Some(older) = pages.before(at, &mut steps) else {
                return [true; HARTS];
            };
            at = older;
        }
        harts
    }
}
