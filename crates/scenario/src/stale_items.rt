//! The lines of what becomes stale and of what stale mappings are used.
ghost use Rattle.std.specs.Prelude.{◌≡◌, ◌<◌, ◌++◌, OnOk, IfOk, string_bytes};
ghost use Rattle.scenario.specs.StaleLines.{is_use, item_line, item_text, last_line, mappings_text, order_text, others_in, page_used, ppn_at, stale_lines, uses_in};
ghost use Rattle.lines.specs.ReplyLines.{reach_text};
ghost use Rattle.stale.specs.Mapped.{reach_of};
ghost use Rattle.stale.specs.declared.items.StaleItem.TheVariants.{Became, Used};

use lines::{push_decimal, push_hexadecimal, push_page};
use pte::{PAGE_BYTES, PPN_LIMIT, Page, PageSize};
use stale::{BecameStale, StaleAt, StaleItem, StaleUse};
use std::alloc::{AllocError, Global};
use tlb::Entry;

/// The PPN that an entry has for an address of its page. Of the entry's PPN the low 44 bits count.
fn ppn_at(entry: &Entry, va: u64) -> u64
    ensures { result ≡ ppn_at entry.now va }
{
    entry.ppn % PPN_LIMIT + va / PAGE_BYTES % entry.page.size().pages()
}

/// Adds the address spaces that the entry is for.
fn push_reach(text: &mut String, entry: &Entry) -> Result<(), AllocError>
    ensures ok { OnOk result (string_bytes text.new ≡ string_bytes text.old
        ++ reach_text (reach_of entry.now)) }
{
    let asid = entry.asid;
    if entry.global {
        text.push_str("global")
    } else {
        write!(text, "asid {asid}")
    }
}

/// Adds the mappings of an entry in a page: the page, the address spaces, and the PPN of the page's
/// first address.
fn push_mappings(text: &mut String, entry: &Entry, page: Page) -> Result<(), AllocError>
    ensures ok { OnOk result (string_bytes text.new ≡ string_bytes text.old
        ++ mappings_text entry.now page) }
{
    text.push_str(" page ")?;
    push_page(text, page)?;
    text.push_str(" ")?;
    push_reach(text, entry)?;
    text.push_str(" ppn 0x")?;
    push_hexadecimal(text, ppn_at(entry, page.base().get()))
}

/// Adds the hart that made the step, and its ticket.
fn push_order(text: &mut String, home: u8, ticket: u32) -> Result<(), AllocError>
    ensures ok { OnOk result (string_bytes text.new ≡ string_bytes text.old
        ++ order_text home ticket) }
{
    write!(text, " order {home} {ticket}")
}

/// Adds mappings that became stale.
fn push_became(text: &mut String, became: &BecameStale) -> Result<(), AllocError>
    ensures ok { OnOk result (string_bytes text.new ≡ string_bytes text.old
        ++ item_text (Became became.now)) }
{
    let hart = became.hart;
    write!(text, " stale {hart}")?;
    push_mappings(text, &became.entry, became.page)?;
    push_order(text, became.home, became.ticket)
}

/// The page of 4 KiB of the address.
#[tactic(auto, unfolding(crate::specs::StaleLines::page_used))]
fn page_used(used: &StaleUse) -> Page
    ensures { result ≡ page_used used.now }
{
    Page::around(used.va, PageSize::Kib4)
}

/// Adds a use.
fn push_used(text: &mut String, used: &StaleUse) -> Result<(), AllocError>
    ensures ok { OnOk result (string_bytes text.new ≡ string_bytes text.old
        ++ item_text (Used used.now)) }
{
    let hart = used.hart;
    write!(text, " used {hart}")?;
    push_mappings(text, &used.entry, page_used(used))
}

/// Adds the text of an item.
fn push_item(text: &mut String, item: StaleItem) -> Result<(), AllocError>
    ensures ok { OnOk result (string_bytes text.new ≡ string_bytes text.old ++ item_text item) }
{
    match item {
        StaleItem::Became(became) => push_became(text, &became),
        StaleItem::Used(used) => push_used(text, &used),
    }
}

/// Adds the line of an item.
fn push_line(text: &mut String, at: &StaleAt) -> Result<(), AllocError>
    ensures ok { OnOk result (string_bytes text.new ≡ string_bytes text.old ++ item_line at.now) }
{
    push_decimal(text, at.step)?;
    push_item(text, at.item)?;
    text.push_str("\n")
}

/// Whether the item is a use.
fn is_use(at: &StaleAt) -> bool
    ensures { result ≡ is_use at.now.item }
{
    matches!(at.item, StaleItem::Used(_))
}

/// How many items are uses.
pub(crate) fn uses_in(items: &[StaleAt]) -> usize
    ensures { result ≡ uses_in items.now }
{
    items.iter().filter(|at| is_use(at)).count()
}

/// How many items are not uses.
fn others_in(items: &[StaleAt]) -> usize
    ensures { result ≡ others_in items.now }
{
    items.iter().filter(|at| !is_use(at)).count()
}

/// Adds the numbers of both kinds.
fn push_last(text: &mut String, items: &[StaleAt]) -> Result<(), AllocError>
    ensures ok { OnOk result (string_bytes text.new ≡ string_bytes text.old
        ++ last_line items.now) }
{
    text.push_str("stale ")?;
    push_decimal(text, others_in(items))?;
    text.push_str(" used ")?;
    push_decimal(text, uses_in(items))?;
    text.push_str("\n")
}

/// The lines of `stale`: one for each item, with the number of its step, and a last one with how
/// many items are mappings that became stale and how many are uses.
pub fn stale_lines(alloc: Global, items: &[StaleAt]) -> Result<String, AllocError>
    ensures { IfOk result (λ text. string_bytes text ≡ stale_lines items.now) }
{
    let mut text = String::new(alloc);
    for at in items {
        push_line(&mut text, at)?;
    }
    push_last(&mut text, items)?;
    Ok(text)
}
