//! Translations of one page that are remembered one after another, such as those of a page of the
//! kernel for each hart: where they are many, the items of the page are looked through once for all.

ghost use Rattle.std.specs.Prelude.{ℕ, ◌≡◌, ◌+◌, ◌<◌, ◌≤◌, IfOk, IsTrue, OnErr, OnOk, length, take};
ghost use Rattle.watch_engine.specs.Held.{remembered, remembered_all};
ghost use Rattle.watch_engine.specs.PageRuns.{AreHartsOf, AreRememberedUpTo};

use crate::held::LastLive;
use crate::keys::is_that_page;
use crate::shared::HARTS;
use crate::translation_index::TranslationIndex;
use std::alloc::AllocError;

/// How many translations of one page are worth a look at the harts of its items.
const MANY: usize = 8;

// With a translation that was live, where the harts of the items of its page are known: it is not
// there if its hart is none of them. At `Err` nothing changed.
fn remember_by_hart(
    held: &mut TranslationIndex,
    harts: &mut [bool; HARTS],
    live: &LastLive,
) -> Result<(), AllocError>
    requires { AreHartsOf live.now.entry.page held.old harts.old }
    ensures ok { OnOk result (held.new
        ≡ remembered live.now held.old) }
    ensures err { OnErr result (held.new ≡ held.old) }
    ensures harts { OnOk result (AreHartsOf live.now.entry.page held.new
        harts.new) }
{
    if harts[live.hart as usize] {
        return held.remember(live);
    }
    held.push(live)?;
    harts[live.hart as usize] = true;
    Ok(())
}

// The translations next to this one and `MANY - 1` places further on are of the same page, and so most
// often are those between.
fn begins_run(live: &[LastLive], at: usize) -> bool
    requires { at < length live.now }
    ensures { IsTrue result → at + MANY ≤ length live.now }
{
    live.len() - at >= MANY
        && is_that_page(&live[at].entry.page, &live[at + 1].entry.page)
        && is_that_page(&live[at].entry.page, &live[at + MANY - 1].entry.page)
}

// With translations from a place on up to one of another page. The answer is the place of that one.
// At `Err` some of them are there.
fn remember_run(
    held: &mut TranslationIndex,
    live: &[LastLive],
    start: usize,
) -> Result<usize, AllocError>
    requires { start < length live.now }
    ensures end { IfOk result (λ end. start < end) }
    ensures ok { IfOk result (λ end. AreRememberedUpTo live.now start end
        held.old held.new) }
    ensures err { OnErr result ((n : ℕ) × AreRememberedUpTo live.now start n
        held.old held.new) }
{
    let page = live[start].entry.page;
    let mut harts = held.harts_of(&page);
    let mut at = start;
    loop {
        remember_by_hart(held, &mut harts, &live[at])?;
        at += 1;
        if at >= live.len() || !is_that_page(&live[at].entry.page, &page) {
            return Ok(at);
        }
    }
}

/// With translations that were live. At `Err` some of them are there.
pub(crate) fn remember_all(held: &mut TranslationIndex, live: &[LastLive]) -> Result<(), AllocError>
    ensures ok { OnOk result (held.new
        ≡ remembered_all live.now held.old) }
    ensures err { OnErr result ((n : ℕ)
        × (held.new
        ≡ remembered_all (take n live.now) held.old)) }
{
    let mut at = 0;
    while at < live.len() {
        if begins_run(live, at) {
            at = remember_run(held, live, at)?;
        } else {
            held.remember(&live[at])?;
            at += 1;
        }
    }
    Ok(())
}
