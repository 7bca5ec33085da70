//! Warnings.

ghost use Rattle.std.specs.Prelude.{◌≡◌, [], IfOk, OnOk};
ghost use Rattle.watch_engine.specs.Warnings.{has_same_rights, is_line, is_same_page, is_same_scope, is_shown, joined, warning_of, with_warning};
ghost use Rattle.std.specs.List.{list_any};

use crate::cause::Cause;
use crate::held::Held;
use crate::translation_index::TranslationIndex;
use pte::PteFlags;
use std::alloc::{AllocError, Global};
use tlb::Entry;
use watch::Verdict;

/// A verdict: what is wrong, of which hart, and a translation that it may hold.
#[derive(Clone, Copy, PartialEq, Eq, Debug)]
pub struct Warning {
    /// What is wrong.
    pub verdict: Verdict,
    /// The hart that may hold the translation.
    pub hart: u8,
    /// The PPN of the root table that it came from.
    pub root: u64,
    /// The translation.
    pub entry: Entry,
    /// The number of records after which it was stale, and ever since.
    pub stale_since: u64,
}

fn is_same_page(entry: &Entry, other: &Entry) -> bool
    ensures { result ≡ is_same_page entry.now other.now }
{
    entry.page.base().get() == other.page.base().get()
        && entry.page.size().level() == other.page.size().level()
        && entry.ppn == other.ppn
}

fn has_same_rights(flags: PteFlags, other: PteFlags) -> bool
    ensures { result ≡ has_same_rights flags other }
{
    flags.is_user() == other.is_user()
        && flags.may_read() == other.may_read()
        && flags.may_write() == other.may_write()
        && flags.may_execute() == other.may_execute()
}

fn is_same_scope(root: u64, entry: &Entry, other_root: u64, other: &Entry) -> bool
    ensures { result ≡ is_same_scope (record { root = root; entry = entry.now })
        (record { root = other_root; entry = other.now }) }
{
    entry.global == other.global && (entry.global || root == other_root && entry.asid == other.asid)
}

// One warning says what there is to say of both.
fn is_line(root: u64, entry: &Entry, other_root: u64, other: &Entry) -> bool
    ensures { result ≡ is_line (record { root = root; entry = entry.now })
        (record { root = other_root; entry = other.now }) }
{
    is_same_page(entry, other)
        && has_same_rights(entry.flags, other.flags)
        && is_same_scope(root, entry, other_root, other)
}

impl Warning {
    fn of(verdict: Verdict, item: &Held) -> Warning
        ensures { result ≡ warning_of verdict item.now }
    {
        Warning {
            verdict,
            hart: item.hart,
            root: item.root,
            entry: item.entry,
            stale_since: item.state.since().unwrap_or(0),
        }
    }

    fn shows(&self, item: &Held) -> bool
        ensures { result ≡ is_shown item.now self.now }
    {
        self.hart == item.hart && is_line(self.root, &self.entry, item.root, &item.entry)
    }
}

fn is_shown(warnings: &[Warning], item: &Held) -> bool
    ensures { result ≡ list_any (is_shown item.now) warnings.now }
{
    for warning in warnings {
        if warning.shows(item) {
            return true;
        }
    }
    false
}

// With the warning of a translation, if there is one and it is not shown yet.
fn add_warning(warnings: &mut Vec<Warning>, item: &Held, cause: &Cause) -> Result<(), AllocError>
    ensures { OnOk result (warnings.new.items ≡ with_warning cause.now item.now warnings.old.items) }
{
    if item.is_given_by(cause) && !is_shown(warnings.as_slice(), item) {
        warnings.push(Warning::of(cause.verdict(), item))?;
    }
    Ok(())
}

// The warnings for a cause, of all items.
fn all_warnings(
    alloc: Global,
    held: &TranslationIndex,
    cause: &Cause,
) -> Result<Vec<Warning>, AllocError>
    ensures { IfOk result (λ warnings. warnings.items ≡ joined cause.now held.now []) }
{
    let mut warnings = Vec::new(alloc);
    for item in held.iter() {
        add_warning(&mut warnings, item, cause)?;
    }
    Ok(warnings)
}

// The warnings for a cause.
pub(crate) fn warnings(
    alloc: Global,
    held: &TranslationIndex,
    cause: &Cause,
) -> Result<Vec<Warning>, AllocError>
    ensures { IfOk result (λ warnings. warnings.items ≡ joined cause.now held.now []) }
{
    if !held.may_concern(cause) {
        return Ok(Vec::new(alloc));
    }
    all_warnings(alloc, held, cause)
}
