//! The text of a verdict's story.
ghost use Rattle.std.specs.Prelude.{◌≡◌, ◌∷◌, ◌++◌, List, OnOk, codes};
ghost use Rattle.watch_report.specs.Past.{ArePast};
ghost use Rattle.watch_report.specs.StoryTexts.{entered_text, fence_text, hart_text, head_text, header_text, miss_text, missed_space, part_text, parts_text, role_text, scheme_text, use_text};
ghost use Rattle.watch_report.specs.TraceText.{Noted};
ghost use Rattle.watch_report.specs.VerdictLines.{noted_by};
ghost use Rattle.watch_report.specs.Warnings.{hexadecimal};

use crate::emit::push_record;
use crate::header::Header;
use crate::newest::Newest;
use crate::past::Past;
use crate::push::{push, push_decimal, push_hexadecimal, push_number};
use crate::verdicts::printed;
use crate::warning::{Trigger, push_place, push_warning};
use pte::{Page, Scheme};
use std::alloc::AllocError;
use watch::Record;
use watch_causes::{Part, Reason, Role};
use watch_engine::Warning;

fn push_hart(text: &mut Vec<u8>, hart: u8) -> Result<(), AllocError>
    ensures ok { OnOk result (text.new.items ≡ text.old.items ++ hart_text hart) }
{
    push(text, b"hart ")?;
    push_decimal(text, u64::from(hart))
}

fn fence_words(made: &Record) -> &'static [u8]
    ensures { result.now ≡ fence_text made.now }
{
    match made {
        Record::RemoteBegin { .. } => b"a remote fence",
        _ => b"a fence",
    }
}

/// Adds why a fence does not take out a translation of an address space, or a global one, by its ASID.
fn push_missed_space(text: &mut Vec<u8>, global: bool, asid: u64) -> Result<(), AllocError>
    ensures ok { OnOk result (text.new.items ≡ text.old.items ++ missed_space global asid) }
{
    if global {
        push(text, b" by ASID, and the page is global")
    } else {
        push_number(text, b", not for asid ", asid)
    }
}

fn push_page(text: &mut Vec<u8>, page: &Page) -> Result<(), AllocError>
    ensures ok { OnOk result (text.new.items ≡ text.old.items ++ hexadecimal page.now.base) }
{
    push_hexadecimal(text, page.base().get())
}

/// Adds why a fence does not take the warning's translation from its hart.
fn push_miss(text: &mut Vec<u8>, warning: &Warning, reason: Reason) -> Result<(), AllocError>
    ensures ok { OnOk result (text.new.items ≡ text.old.items ++ miss_text warning.now reason) }
{
    match reason {
        Reason::OtherHarts => {
            push(text, b", not for ")?;
            push_hart(text, warning.hart)
        }
        Reason::OtherSpaces => push_missed_space(
            text,
            warning.entry.global,
            u64::from(warning.entry.asid),
        ),
        Reason::OtherPages => {
            push(text, b", not for page ")?;
            push_page(text, &warning.entry.page)
        }
        Reason::NoFlush | Reason::NoFence | Reason::NotDone => {
            push(text, b" for the page, not known to be done")
        }
    }
}

fn push_use(text: &mut Vec<u8>, made: &Record) -> Result<(), AllocError>
    ensures ok { OnOk result (text.new.items ≡ text.old.items ++ use_text made.now) }
{
    match made {
        Record::Use { hart, address } => {
            push_hart(text, *hart)?;
            push_number(text, b" uses ", *address)
        }
        _ => push(text, b"another record"),
    }
}

/// Adds the hart, and what it does.
fn push_hart_does(text: &mut Vec<u8>, hart: u8, does: &[u8]) -> Result<(), AllocError>
    ensures ok { OnOk result (text.new.items ≡ text.old.items ++ hart_text hart ++ does.now) }
{
    push_hart(text, hart)?;
    push(text, does)
}

fn entered_words(global: bool) -> &'static [u8]
    ensures { result.now ≡ entered_text global }
{
    if global {
        b" enters an address space"
    } else {
        b" enters the address space"
    }
}

/// Adds what a record has to do with the verdict of a warning.
pub(crate) fn push_role(
    text: &mut Vec<u8>,
    warning: &Warning,
    made: &Record,
    role: Role,
) -> Result<(), AllocError>
    ensures ok { OnOk result (text.new.items
        ≡ text.old.items ++ role_text warning.now made.now role) }
{
    match role {
        Role::Maps => push(text, b"a word on the way to the page"),
        Role::Enters => { push_hart_does(text, warning.hart, entered_words(warning.entry.global)) }
        Role::Leaves => push_hart_does(
            text,
            warning.hart,
            b" leaves the address space, and may keep the page",
        ),
        Role::Drops => push_hart_does(text, warning.hart, b" fences the page"),
        Role::AsksEarly => push_hart_does(
            text,
            warning.hart,
            b" is asked to fence the page, before it is stale",
        ),
        Role::MakesStale => push(text, b"stale from here on"),
        Role::Misses(reason) => {
            push(text, fence_words(made))?;
            push_miss(text, warning, reason)
        }
        Role::BeginsFlush => push(text, b"a flush begins"),
        Role::EndsFlush => push(text, b"the flush returns"),
        Role::GivesBack => push(text, b"frames are given back"),
        Role::GivesOut => push(text, b"frames are given out"),
        Role::Uses => push_use(text, made),
        Role::Other => push(text, b"another record"),
    }
}

fn scheme_words(scheme: Scheme) -> &'static [u8]
    ensures { result.now ≡ scheme_text scheme }
{
    match scheme {
        Scheme::Sv39 => b"sv39",
        Scheme::Sv48 => b"sv48",
    }
}

/// Adds the first line of a trace, without its end.
pub(crate) fn push_header(text: &mut Vec<u8>, header: Header) -> Result<(), AllocError>
    ensures ok { OnOk result (text.new.items ≡ text.old.items ++ header_text header) }
{
    push(text, b"watch 1 ")?;
    push_decimal(text, u64::from(header.harts))?;
    push(text, b" ")?;
    push(text, scheme_words(header.scheme))
}

/// Adds the first line of a story, and the verdict's line as a comment.
pub(crate) fn push_head(
    text: &mut Vec<u8>,
    file: &[u8],
    header: Header,
    trigger: Trigger,
    newest: &Newest<'_>,
    past: &Past,
    warning: &Warning,
) -> Result<(), AllocError>
    ensures ok { (records : List Noted) → ArePast records past.now → OnOk result (text.new.items
        ≡ text.old.items
        ++ head_text file.now header trigger (noted_by newest.now) records warning.now) }
{
    push_header(text, header)?;
    push(text, b"\n# ")?;
    push_warning(
        text,
        file,
        &printed(trigger, newest, past, warning),
        past.note(warning.stale_since),
        newest.by,
    )
}

/// Adds what a record of the story has to do with it, as a comment, and the record.
fn push_part(
    text: &mut Vec<u8>,
    file: &[u8],
    scheme: Scheme,
    past: &Past,
    warning: &Warning,
    part: &Part,
) -> Result<(), AllocError>
    ensures ok { (records : List Noted) → ArePast records past.now → OnOk result (text.new.items
        ≡ text.old.items ++ part_text file.now scheme records warning.now part.now) }
{
    push(text, b"# ")?;
    push_place(text, file, past.line(part.number))?;
    push_role(text, warning, &part.made, part.role)?;
    push(text, b"\n")?;
    push_record(text, scheme, part.made, past.note(part.number))
}

/// Adds the records of a story, each after what it has to do with it.
pub(crate) fn push_parts(
    text: &mut Vec<u8>,
    file: &[u8],
    scheme: Scheme,
    past: &Past,
    warning: &Warning,
    parts: &[Part],
) -> Result<(), AllocError>
    ensures ok { (records : List Noted) → ArePast records past.now → OnOk result (text.new.items
        ≡ text.old.items ++ parts_text file.now scheme records warning.now parts.now) }
{
    for part in parts {
        push_part(text, file, scheme, past, warning, part)?;
    }
    Ok(())
}
