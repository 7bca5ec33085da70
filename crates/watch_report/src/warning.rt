//! The line of a verdict.
ghost use Rattle.std.specs.Prelude.{◌≡◌, ◌++◌, OnOk, codes};
ghost use Rattle.watch_report.specs.Warnings.{by_text, trigger_part, trigger_text, entry_text, frames_text, holder_part, letter_or_dash, letters_text, owner_prefix, place_text, scoped_text, since_part, verdict_of, verdict_part, verdict_text, warning_line};

use crate::push::{push, push_decimal, push_hexadecimal, push_number};
use crate::shown::push_shown;
use pte::PteFlags;
use std::alloc::AllocError;
use tlb::Entry;
use watch::{Frames, Verdict};

/// What the kernel did at the record of a verdict.
#[derive(Clone, Copy, PartialEq, Eq, Debug)]
pub enum Trigger {
    /// It took these frames back.
    GivenBack(Frames),
    /// It gave these frames out.
    GivenOut(Frames),
    /// It ended a claim that had begun at this line.
    ClaimedSince(u64),
    /// The hart of the verdict accessed this virtual address.
    UsedAt(u64),
}

/// A verdict: a hart may hold a stale translation that the kernel took for gone. Lines of the file
/// are numbered from 1, that of the header.
#[derive(Clone, Copy, PartialEq, Eq, Debug)]
pub struct Warning {
    /// The line of the record at which the verdict is given.
    pub line: u64,
    /// The hart that may hold the translation.
    pub hart: u8,
    /// The PPN of the root table that it came from; what is global is of any.
    pub root: u64,
    /// The translation.
    pub entry: Entry,
    /// The line of the record that made it stale.
    pub since: u64,
    /// Why the kernel took it for gone.
    pub trigger: Trigger,
}

impl Trigger {
    /// The verdict.
    pub fn verdict(self) -> Verdict
        ensures { result ≡ verdict_of self }
    {
        match self {
            Trigger::GivenBack(_) => Verdict::Free,
            Trigger::GivenOut(_) => Verdict::Reuse,
            Trigger::ClaimedSince(_) => Verdict::Claimed,
            Trigger::UsedAt(_) => Verdict::Used,
        }
    }
}

/// The word of a verdict.
pub fn verdict_word(verdict: Verdict) -> &'static [u8]
    ensures { result.now ≡ verdict_text verdict }
{
    match verdict {
        Verdict::Free => b"free",
        Verdict::Reuse => b"reuse",
        Verdict::Claimed => b"claim",
        Verdict::Used => b"use",
    }
}

fn owner_prefix(global: bool) -> &'static [u8]
    ensures { result.now ≡ owner_prefix global }
{
    if global { b"kernel-" } else { b"" }
}

fn push_letter(text: &mut Vec<u8>, is_set: bool, letter: &[u8]) -> Result<(), AllocError>
    ensures ok { OnOk result (text.new.items ≡ text.old.items
        ++ letter_or_dash is_set letter.now) }
{
    if is_set {
        push(text, letter)
    } else {
        push(text, b"-")
    }
}

/// Adds the letters of `rwxug` that are set, and `-` for each other: `g` for what is global.
pub(crate) fn push_letters(
    text: &mut Vec<u8>,
    flags: PteFlags,
    global: bool,
) -> Result<(), AllocError>
    ensures ok { OnOk result (text.new.items ≡ text.old.items ++ letters_text global flags.0) }
{
    push_letter(text, flags.may_read(), b"r")?;
    push_letter(text, flags.may_write(), b"w")?;
    push_letter(text, flags.may_execute(), b"x")?;
    push_letter(text, flags.is_user(), b"u")?;
    push_letter(text, global, b"g")
}

/// Adds an ASID or the PPN of a root table.
fn push_scoped(text: &mut Vec<u8>, global: bool, n: u64) -> Result<(), AllocError>
    ensures ok { OnOk result (text.new.items ≡ text.old.items ++ scoped_text global n) }
{
    if global {
        push(text, b"any")
    } else {
        push_hexadecimal(text, n)
    }
}

/// Adds the page, the PPN, the flags and the ASID of an entry.
fn push_entry(text: &mut Vec<u8>, entry: &Entry) -> Result<(), AllocError>
    ensures ok { OnOk result (text.new.items ≡ text.old.items ++ entry_text entry.now) }
{
    push_hexadecimal(text, entry.page.base().get())?;
    push_number(text, b"+", entry.page.size().bytes())?;
    push_number(text, b" -> ", entry.ppn)?;
    push(text, b" ")?;
    push_letters(text, entry.flags, entry.global)?;
    push(text, b" asid ")?;
    push_scoped(text, entry.global, u64::from(entry.asid))
}

/// Adds the note of a record, if it has one.
fn push_by(text: &mut Vec<u8>, by: &[u8]) -> Result<(), AllocError>
    ensures ok { OnOk result (text.new.items ≡ text.old.items ++ by_text by.now) }
{
    if by.is_empty() {
        return Ok(());
    }
    push(text, b" by ")?;
    push_shown(text, by)
}

/// Adds frames, and what was done with them.
fn push_frames(text: &mut Vec<u8>, frames: Frames, done: &[u8]) -> Result<(), AllocError>
    ensures ok { OnOk result (text.new.items ≡ text.old.items ++ frames_text frames ++ done.now) }
{
    push_number(text, b"frames ", frames.first)?;
    push_number(text, b"+", frames.count)?;
    push(text, done)
}

fn push_trigger(text: &mut Vec<u8>, hart: u8, trigger: Trigger) -> Result<(), AllocError>
    ensures ok { OnOk result (text.new.items ≡ text.old.items ++ trigger_text hart trigger) }
{
    match trigger {
        Trigger::GivenBack(frames) => push_frames(text, frames, b" given back"),
        Trigger::GivenOut(frames) => push_frames(text, frames, b" given out"),
        Trigger::ClaimedSince(line) => {
            push(text, b"claimed clean since line ")?;
            push_decimal(text, line)
        }
        Trigger::UsedAt(address) => {
            push(text, b"hart ")?;
            push_decimal(text, u64::from(hart))?;
            push_number(text, b" uses ", address)
        }
    }
}

/// Adds the file and the line.
pub fn push_place(text: &mut Vec<u8>, file: &[u8], line: u64) -> Result<(), AllocError>
    ensures ok { OnOk result (text.new.items ≡ text.old.items ++ place_text file.now line) }
{
    push(text, file)?;
    push(text, b":")?;
    push_decimal(text, line)?;
    push(text, b": ")
}

/// Adds the place of the record, and the verdict.
fn push_verdict(text: &mut Vec<u8>, file: &[u8], warning: &Warning) -> Result<(), AllocError>
    ensures ok { OnOk result (text.new.items ≡ text.old.items
        ++ verdict_part file.now warning.now) }
{
    push_place(text, file, warning.line)?;
    push(text, owner_prefix(warning.entry.global))?;
    push(text, verdict_word(warning.trigger.verdict()))?;
    push(text, b" hart ")
}

/// Adds the hart, and the translation that it may hold.
fn push_holder(text: &mut Vec<u8>, warning: &Warning) -> Result<(), AllocError>
    ensures ok { OnOk result (text.new.items ≡ text.old.items ++ holder_part warning.now) }
{
    push_decimal(text, u64::from(warning.hart))?;
    push(text, b" may hold page ")?;
    push_entry(text, &warning.entry)?;
    push(text, b" root ")
}

/// Adds the root, and since when the translation is stale, with the note of that record.
fn push_since(text: &mut Vec<u8>, warning: &Warning, stale_by: &[u8]) -> Result<(), AllocError>
    ensures ok { OnOk result (text.new.items ≡ text.old.items
        ++ since_part warning.now stale_by.now) }
{
    push_scoped(text, warning.entry.global, warning.root)?;
    push(text, b", stale since line ")?;
    push_decimal(text, warning.since)?;
    push_by(text, stale_by)?;
    push(text, b"; ")
}

/// Adds what the kernel did, with the note of that record, and the end of the line.
fn push_end(text: &mut Vec<u8>, warning: &Warning, by: &[u8]) -> Result<(), AllocError>
    ensures ok { OnOk result (text.new.items ≡ text.old.items ++ trigger_part warning.now by.now) }
{
    push_trigger(text, warning.hart, warning.trigger)?;
    push_by(text, by)?;
    push(text, b"\n")
}

/// Adds the line of a verdict on a trace in the file, with the notes of the record that made the
/// translation stale and of the record of the verdict, each empty for none. `AllocError`: there was
/// no room; the part of the line that had room stays.
pub fn push_warning(
    text: &mut Vec<u8>,
    file: &[u8],
    warning: &Warning,
    stale_by: &[u8],
    by: &[u8],
) -> Result<(), AllocError>
    ensures ok { OnOk result (text.new.items ≡ text.old.items
        ++ warning_line file.now warning.now stale_by.now by.now) }
{
    push_verdict(text, file, warning)?;
    push_holder(text, warning)?;
    push_since(text, warning, stale_by)?;
    push_end(text, warning, by)
}
