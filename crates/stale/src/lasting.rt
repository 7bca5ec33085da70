//! How long what a TLB holds of a page stays stale.

ghost use Rattle.std.specs.Prelude.{ℕ, ◌≡◌, ◌<◌, ◌≤◌, ◌^◌, ◌↔◌, IfNone, IfSome, IsTrue, None, Some, Contains, length, slice_get};
ghost use Rattle.pte.specs.declared.permission.Access.{Access as AccessOf};
ghost use Rattle.pte.specs.declared.permission.Ctx.{Ctx as CtxOf};
ghost use Rattle.walk.specs.Answer.{flags_fault};
ghost use Rattle.walk.specs.Maps.{LiesIn};
ghost use Rattle.tlb.specs.Mappings.{Mapping};
ghost use Rattle.history.specs.Setup.{Setup};
ghost use Rattle.history.specs.Turns.{History};
ghost use Rattle.stepcore.specs.State.{hart_at};
ghost use Rattle.stepcore.specs.Stands.{Stands};
ghost use Rattle.stale.specs.Lasting.{own_context, ComesBefore, StaleIn};
ghost use Rattle.stale.specs.Mapped.{mapping_of, IsMappedFrom, IsMappedIn, IsMappedSomewhere};

use crate::mapped::{found_in, is_reached};
use pte::{Access, Ctx, Mode, PAGE_BYTES, Page, PteFlags};
use spaces::{MAX_SPACES, Memory, Place};
use stepcore::Machine;
use tlb::{Entry, Tlb};
use walk::flags_fault;

/// The numbers of the pages of 4 KiB of a page: the first, and the one after the last.
fn numbers(page: &Page) -> (u64, u64)
    ensures each { (n : ℕ) → LiesIn page.now n ↔ ((result.0 ≤ n) × (n < result.1)) }
    ensures bound { result.1 ≤ 2 ^ 52 }
{
    page.recall();
    let first = page.base().get() / PAGE_BYTES;
    (first, first + page.size().pages())
}

/// The mode that reaches pages with these flags.
fn own_context(flags: PteFlags) -> Ctx
    ensures { result ≡ own_context flags }
{
    let mode = if flags.is_user() {
        Mode::User
    } else {
        Mode::Super
    };
    Ctx {
        mode,
        sum: false,
        mxr: false,
    }
}

/// An access that these flags let through, if there is one.
fn passing(flags: PteFlags) -> Option<(Access, Ctx)>
    ensures some { IfSome result (λ passing. flags_fault passing.0 passing.1 flags ≡ None) }
    ensures none { IfNone result ((access : AccessOf) (ctx : CtxOf)
        → ¬ (flags_fault access ctx flags ≡ None)) }
{
    let ctx = own_context(flags);
    if flags_fault(flags, Access::Load, ctx).is_none() {
        return Some((Access::Load, ctx));
    }
    if flags_fault(flags, Access::Fetch, ctx).is_none() {
        return Some((Access::Fetch, ctx));
    }
    if flags_fault(flags, Access::Store, ctx).is_none() {
        return Some((Access::Store, ctx));
    }
    None
}

/// The page of 4 KiB after those that one leaf of a space maps as the entry does, from this one on.
/// `None`: the tables of the space do not map this one so.
fn mapped_up_to(
    memory: &Memory,
    space: u8,
    entry: &Entry,
    number: u64,
    access: Access,
    ctx: Ctx,
) -> Option<u64>
    requires there { space < length memory.now.layout.homes }
    requires answers { flags_fault access ctx entry.now.flags ≡ None }
    requires in_page { LiesIn entry.now.page number }
    requires bound { number < 2 ^ 52 }
    ensures further { IfSome result (λ end. number < end) }
    ensures some { IfSome result (λ end. (n : ℕ) → number ≤ n → n < end → LiesIn entry.now.page n
        → IsMappedFrom memory.now space (mapping_of entry.now n)) }
    ensures none { IfNone result (¬ IsMappedFrom memory.now space (mapping_of entry.now number)) }
{
    entry.page.recall();
    match found_in(memory, space, entry, number * PAGE_BYTES, access, ctx) {
        Some(found) => {
            found.page.recall();
            Some(numbers(&found.page).1)
        }
        None => None,
    }
}

/// The first page of 4 KiB, from a number up to another, that the tables of a space do not map as
/// the entry does.
fn unmapped_from(
    memory: &Memory,
    space: u8,
    entry: &Entry,
    from: u64,
    to: u64,
    access: Access,
    ctx: Ctx,
) -> Option<u64>
    requires there { space < length memory.now.layout.homes }
    requires answers { flags_fault access ctx entry.now.flags ≡ None }
    requires in_page { (n : ℕ) → from ≤ n → n < to → LiesIn entry.now.page n }
    requires bound { to ≤ 2 ^ 52 }
    ensures range { IfSome result (λ number. (from ≤ number) × (number < to)) }
    ensures some { IfSome result (λ number.
        ¬ IsMappedFrom memory.now space (mapping_of entry.now number)) }
    ensures before { IfSome result (λ number. (n : ℕ) → from ≤ n → n < number
        → IsMappedFrom memory.now space (mapping_of entry.now n)) }
    ensures none { IfNone result ((n : ℕ) → from ≤ n → n < to
        → IsMappedFrom memory.now space (mapping_of entry.now n)) }
{
    let mut number = from;
    while number < to {
        match mapped_up_to(memory, space, entry, number, access, ctx) {
            Some(end) => number = end,
            None => return Some(number),
        }
    }
    None
}

/// A page of 4 KiB, from a number up to another, that the tables do not map as the entry does:
/// there is no space through which it is reached, or one does not map it so, and that maps those
/// before it so.
fn unmapped(
    machine: &Machine,
    entry: &Entry,
    from: u64,
    to: u64,
    access: Access,
    ctx: Ctx,
) -> Option<u64>
    requires answers { flags_fault access ctx entry.now.flags ≡ None }
    requires in_page { (n : ℕ) → from ≤ n → n < to → LiesIn entry.now.page n }
    requires bound { to ≤ 2 ^ 52 }
    ensures range { IfSome result (λ number. (from ≤ number) × (number < to)) }
    ensures some { IfSome result (λ number. ¬ IsMappedIn machine.now (mapping_of entry.now number)) }
    ensures before { IfSome result (λ number. (n : ℕ) → from ≤ n → n < number
        → IsMappedSomewhere machine.now (mapping_of entry.now n)) }
    ensures none { IfNone result ((n : ℕ) → from ≤ n → n < to
        → IsMappedIn machine.now (mapping_of entry.now n)) }
{
    if to <= from {
        return None;
    }
    let memory = machine.memory();
    // The contract of `has` says how many spaces a memory can have.
    let _kernel = memory.has(Place::Kernel);
    let mut is_some = false;
    for space in 0..MAX_SPACES as u8 {
        if is_reached(machine, entry, space) {
            let unmapped = unmapped_from(memory, space, entry, from, to, access, ctx);
            if unmapped.is_some() {
                return unmapped;
            }
            is_some = true;
        }
    }
    if is_some { None } else { Some(from) }
}

/// The pages of 4 KiB that two pages have in common, as `numbers`.
fn common(page: &Page, other: &Page) -> (u64, u64)
    ensures each { (n : ℕ) → (LiesIn page.now n × LiesIn other.now n)
        ↔ ((result.0 ≤ n) × (n < result.1)) }
    ensures bound { result.1 ≤ 2 ^ 52 }
{
    let (first, end) = numbers(page);
    let (other_first, other_end) = numbers(other);
    (first.max(other_first), end.min(other_end))
}

/// A page of 4 KiB in a page and in that of the entry, which the tables do not map as the entry
/// does. It is looked for from a number on, and then before that.
fn unmapped_in(
    machine: &Machine,
    entry: &Entry,
    page: &Page,
    from: u64,
    access: Access,
    ctx: Ctx,
) -> Option<u64>
    requires { flags_fault access ctx entry.now.flags ≡ None }
    ensures range { IfSome result (λ number.
        LiesIn page.now number × LiesIn entry.now.page number) }
    ensures some { IfSome result (λ number. ¬ IsMappedIn machine.now (mapping_of entry.now number)) }
    ensures first { IfSome result (λ number. (n : ℕ) → ComesBefore from n number
        → LiesIn page.now n → LiesIn entry.now.page n
        → IsMappedSomewhere machine.now (mapping_of entry.now n)) }
    ensures none { IfNone result ((n : ℕ) → LiesIn page.now n → LiesIn entry.now.page n
        → IsMappedIn machine.now (mapping_of entry.now n)) }
{
    let (first, end) = common(page, &entry.page);
    match unmapped(machine, entry, first.max(from), end, access, ctx) {
        Some(number) => Some(number),
        None => unmapped(machine, entry, first, end.min(from), access, ctx),
    }
}

/// Whether a TLB has the entry at an age.
fn has_at(tlb: &Tlb, age: usize, entry: &Entry) -> bool
    ensures { IsTrue result ↔ (slice_get tlb.now.entries age ≡ Some entry.now) }
{
    tlb.entry(age) == Some(*entry)
}

/// Whether a TLB holds the entry.
fn has_entry(tlb: &Tlb, entry: &Entry) -> bool
    ensures { IsTrue result ↔ Contains tlb.now.entries entry.now }
{
    for age in 0..tlb.len() {
        if has_at(tlb, age, entry) {
            return true;
        }
    }
    false
}

/// Whether the hart exists and its TLB holds the entry.
fn holds(machine: &Machine, hart: u8, entry: &Entry) -> bool
    ensures { IsTrue result ↔ ((hart < length machine.now.harts)
        × Contains (hart_at machine.now hart).entries entry.now) }
{
    hart < machine.harts() && has_entry(machine.hart(hart).tlb(), entry)
}

/// The first page of 4 KiB of which a hart holds a stale mapping by this entry in this page, by its
/// number: the first from a number on, or else the first of all. `None`: the TLB of the hart does not
/// hold the entry, or the tables map all of it in this page so.
pub fn stale_page(machine: &Machine, hart: u8, entry: &Entry, page: &Page, from: u64) -> Option<u64>
    ensures some { IfSome result (λ number. (setup : Setup) (history : History)
        → Stands setup machine.now history
        → StaleIn setup history hart entry.now page.now (mapping_of entry.now number)) }
    ensures first { IfSome result (λ number. (setup : Setup) (history : History) (n : ℕ)
        → Stands setup machine.now history → ComesBefore from n number
        → ¬ StaleIn setup history hart entry.now page.now (mapping_of entry.now n)) }
    ensures none { IfNone result ((setup : Setup) (history : History) (m : Mapping)
        → Stands setup machine.now history → ¬ StaleIn setup history hart entry.now page.now m) }
{
    if !holds(machine, hart, entry) {
        return None;
    }
    match passing(entry.flags) {
        Some((access, ctx)) => unmapped_in(machine, entry, page, from, access, ctx),
        None => None,
    }
}
