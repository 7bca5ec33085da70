//! What records do to the places of the list of what harts may hold.

ghost use Rattle.std.specs.Prelude.{ℕ, Bool, ◌≡◌, ◌+◌, ◌≤◌, ◌&&◌, ◌==◌, false, length, map, take, true};
ghost use Rattle.std.specs.Option.{ForSome};
ghost use Rattle.std.specs.List.{list_any};
ghost use Rattle.watch_engine.specs.declared.held.Held.{Held as HeldOf};
ghost use Rattle.watch_engine.specs.Effects.{IsPartly, changed, is_due};
ghost use Rattle.watch_engine.specs.Keys.{AreSmall, IsAmong, key_of};
ghost use Rattle.watch_engine.specs.Places.{count_gone, items_of};

use crate::chains::Chains;
use crate::effects::{Effect, apply_to};
use crate::held::Held;
use crate::keys::{By, Keys};

// Applies the effect to the items with the key. How many places of their chain are empty then: no others
// are looked at. `None` once the steps are used up, and then some may still be as they were.
fn apply_with_key<E: Effect>(
    places: &mut [Held],
    chains: &Chains,
    by: By,
    key: u64,
    effect: &mut E,
    steps: &mut usize,
) -> Option<usize>
    requires keys { chains.now.keys.items ≡ map (key_of by) places.old }
    ensures partly { IsPartly (E.does effect.old).change places.old places.new }
    ensures none { ForSome result (λ _. list_any (λ i. (key_of by i == key)
        && is_due (E.does effect.old).change i) places.new ≡ false) }
    ensures gone { ForSome result (λ empty.
        count_gone places.new ≤ count_gone places.old + empty) }
    ensures same { E.does effect.new ≡ E.does effect.old }
{
    let mut empty: usize = 0;
    let Some(newest) = chains.newest(key, steps) else {
        return None;
    };
    let mut at = newest;
    while at > 0 {
        if apply_to(effect, &mut places[at - 1]) {
            empty += 1;
        }
        let Some(older) = chains.before(at, steps) else {
            return None;
        };
        at = older;
    }
    Some(empty)
}

/// The sum of two counts of empty places, of which there are no more than places.
#[tactic(auto, using(crate::proofs::EmptyPlaces::gone_within))]
pub(crate) fn add_empty(places: &[Held], empty: usize, more: usize) -> usize
    ensures { (before : ℕ) → count_gone places.now ≤ before + (empty + more)
        → count_gone places.now ≤ before + result }
{
    empty.saturating_add(more).min(places.len())
}

/// Applies the effect to the items with one of the keys. How many places are empty then of those that
/// were looked at. `None` once the steps are used up, and then some may still be as they were.
pub(crate) fn apply_with_keys<E: Effect>(
    places: &mut [Held],
    chains: &Chains,
    keys: &Keys,
    effect: &mut E,
    steps: &mut usize,
) -> Option<usize>
    requires small { AreSmall keys.now }
    requires keys { chains.now.keys.items ≡ map (key_of keys.now.by) places.old }
    ensures partly { IsPartly (E.does effect.old).change places.old places.new }
    ensures none { ForSome result (λ _. (test : HeldOf → Bool) → ((i : HeldOf) → test i ≡ true
        → IsAmong keys.now (key_of keys.now.by i))
        → list_any (λ i. test i && is_due (E.does effect.old).change i) places.new ≡ false) }
    ensures gone { ForSome result (λ empty.
        count_gone places.new ≤ count_gone places.old + empty) }
    ensures same { E.does effect.new ≡ E.does effect.old }
{
    let Some(mut empty) = apply_with_key(places, chains, keys.by, keys.limit, effect, steps) else {
        return None;
    };
    for offset in 0..keys.len() {
        let key = keys.key(offset);
        let Some(more) = apply_with_key(places, chains, keys.by, key, effect, steps) else {
            return None;
        };
        empty = add_empty(places, empty, more);
    }
    Some(empty)
}

/// Applies the effect to all items. How many places are empty then.
pub(crate) fn apply_each<E: Effect>(places: &mut [Held], effect: &mut E) -> usize
    ensures places { places.new ≡ map (changed (E.does effect.old).change) places.old }
    ensures gone { count_gone places.new ≤ result }
{
    let mut empty: usize = 0;
    for place in 0..places.len() {
        if apply_to(effect, &mut places[place]) {
            empty += 1;
        }
    }
    empty
}

/// How many places there are up to the last item.
pub(crate) fn end_of(places: &[Held]) -> usize
    ensures items { items_of (take result places.now) ≡ items_of places.now }
    ensures within { result ≤ length places.now }
{
    let mut end = places.len();
    while end > 0 && places[end - 1].state.is_gone() {
        end -= 1;
    }
    end
}
