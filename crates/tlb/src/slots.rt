//! The slots of a TLB: sets of them, and the search of all 16 at once.

ghost use Rattle.std.specs.Prelude.{ℕ, ◌≡◌, ◌≢◌, ◌<◌, bit_and, map, slice_index};
ghost use Rattle.std.specs.Int.{bit_at};
ghost use Rattle.tlb.specs.Slots.{IsIn, closed_up, slot_of};

use crate::TLB_SIZE;
use std::simd::prelude::*;

/// A set of slots: bit k is set where slot k is in it.
pub(crate) type SlotSet = u16;

/// The slots whose tag has the same bits under a mask as a tag has under the slot's own mask.
#[inline(always)]
pub(crate) fn slots_with_tag(
    tags: &[u32; TLB_SIZE],
    masks: &[u32; TLB_SIZE],
    tag: u32,
    mask: u32,
) -> SlotSet
    ensures { (slot : ℕ) → slot < TLB_SIZE → bit_and (slice_index tags.now slot) mask
        ≡ bit_and (slice_index masks.now slot) tag → IsIn result slot }
{
    let here = u32x16::from_array(*tags) & u32x16::splat(mask);
    let there = u32x16::from_array(*masks) & u32x16::splat(tag);
    here.simd_eq(there).to_bitmask() as u16
}

/// The slots with an age below a count.
#[inline(always)]
pub(crate) fn slots_below(ages: &[u8; TLB_SIZE], count: u8) -> SlotSet
    ensures { (slot : ℕ) → slot < TLB_SIZE → slice_index ages.now slot < count → IsIn result slot }
{
    let below = u8x16::from_array(*ages).simd_lt(u8x16::splat(count));
    below.to_bitmask() as u16
}

/// The slot of an age that some slot has.
#[inline(always)]
pub(crate) fn slot_of(ages: &[u8; TLB_SIZE], age: u8) -> usize
    requires { slot_of ages.now age < TLB_SIZE }
    ensures { result ≡ slot_of ages.now age }
{
    let same = u8x16::from_array(*ages).simd_eq(u8x16::splat(age));
    same.to_bitmask().trailing_zeros() as usize
}

// What becomes of an age where one is dropped: those above it come one down, and the dropped one
// goes to the end.
fn closed_up(dropped: u8, age: u8) -> u8
    ensures { result ≡ closed_up dropped age }
{
    if age == dropped {
        TLB_SIZE as u8 - 1
    } else if age > dropped {
        age - 1
    } else {
        age
    }
}

/// Closes the gap that an age leaves: each age above it comes one down, and its slot has the last
/// age from now on.
pub(crate) fn close_up(ages: &mut [u8; TLB_SIZE], dropped: u8)
    ensures { ages.new ≡ map (closed_up dropped) ages.old }
{
    for age in ages.iter_mut() {
        *age = closed_up(dropped, *age);
    }
}

/// The lowest slot of a set.
#[inline(always)]
pub(crate) fn lowest_slot(set: SlotSet) -> usize
    requires { 0 < set }
    ensures within { result < TLB_SIZE }
    ensures there { IsIn set result }
{
    set.trailing_zeros() as usize
}

/// A set without a slot.
#[inline(always)]
pub(crate) fn without_slot(set: SlotSet, slot: usize) -> SlotSet
    requires { slot < TLB_SIZE }
    ensures less { IsIn set slot → result < set }
    ensures gone { bit_at result slot ≡ 0 }
    ensures others { (k : ℕ) → k < TLB_SIZE → k ≢ slot → bit_at result k ≡ bit_at set k }
{
    set & !(1 << slot)
}
