//! The texts of steps: the words of a file's step without the hart, and the reply.

ghost use Rattle.std.specs.Prelude.{◌≡◌, ◌++◌, OnOk, string_bytes};
ghost use Rattle.std.specs.Fmt.{decimal};

use history::Scope;
use itoa::Buffer;
use lines::{Text, push_harts, push_hexadecimal, push_page, push_reply};
use pte::{Access, Ctx, Mode, Page, PteFlags};
use shoot::HartSet;
use spaces::Place;
use std::alloc::AllocError;
use stepcore::{Event, Reply};
use steps::{Field, Parts, step_for};

/// The hart that makes a step.
pub fn hart_of(event: &Event) -> u8 {
    match *event {
        Event::Begin { hart, .. } => hart,
        Event::Load { hart } => hart,
        Event::Map { hart, .. } => hart,
        Event::Unmap { hart, .. } => hart,
        Event::Protect { hart, .. } => hart,
        Event::Flush { hart, .. } => hart,
        Event::Switch { hart, .. } => hart,
        Event::Fence { hart, .. } => hart,
        Event::Post { hart, .. } => hart,
        Event::Take { hart, .. } => hart,
        Event::ServeFence { hart } => hart,
        Event::Ack { hart } => hart,
        Event::AckSelf { hart, .. } => hart,
        Event::Collect { hart, .. } => hart,
        Event::Finish { hart, .. } => hart,
        Event::Close { hart, .. } => hart,
        Event::Retire { hart, .. } => hart,
        Event::Reclaim { hart, .. } => hart,
        Event::Create { hart, .. } => hart,
    }
}

/// The word of a mode.
fn mode_word(mode: Mode) -> &'static str {
    match mode {
        Mode::User => "u",
        Mode::Super => "s",
    }
}

/// The word of an access.
fn access_word(access: Access) -> &'static str {
    match access {
        Access::Fetch => "fetch",
        Access::Load => "load",
        Access::Store => "store",
    }
}

/// Adds a number in decimal.
#[inline(always)]
fn push_number(text: &mut String, n: u64) -> Result<(), AllocError>
    ensures ok { OnOk result (string_bytes text.new ≡ string_bytes text.old ++ decimal n) }
{
    text.push_str(Buffer::new().format(n))
}

/// Adds a number in hexadecimal.
fn push_address(text: &mut String, n: u64) -> Result<(), AllocError> {
    text.push_str("0x")?;
    push_hexadecimal(text, n)
}

/// Adds a word if something holds.
#[inline(always)]
fn push_if(text: &mut String, holds: bool, word: &'static str) -> Result<(), AllocError> {
    if holds { text.push_str(word) } else { Ok(()) }
}

fn push_mode(text: &mut String, ctx: Ctx) -> Result<(), AllocError> {
    text.push_str(mode_word(ctx.mode))?;
    push_if(text, ctx.sum, "+sum")?;
    push_if(text, ctx.mxr, "+mxr")
}

fn push_place(text: &mut String, place: Place) -> Result<(), AllocError> {
    match place {
        Place::Space(space) => push_number(text, u64::from(space)),
        Place::Kernel => text.push_str("k"),
    }
}

fn push_scope(text: &mut String, scope: Scope) -> Result<(), AllocError> {
    match scope {
        Scope::Space(space) => push_number(text, u64::from(space)),
        Scope::All => text.push_str("all"),
    }
}

fn push_register(text: &mut String, register: Option<u64>) -> Result<(), AllocError> {
    match register {
        Some(value) => push_address(text, value),
        None => text.push_str("x0"),
    }
}

fn push_flags(text: &mut String, flags: PteFlags) -> Result<(), AllocError> {
    let flags = Text(flags);
    write!(text, "{flags}")
}

fn push_named(text: &mut String, named: u8) -> Result<(), AllocError> {
    if named == 0 {
        text.push_str("-")
    } else {
        push_harts(text, HartSet::from(named))
    }
}

/// Adds the word that stands for a field.
fn push_field(text: &mut String, field: Field, parts: &Parts) -> Result<(), AllocError> {
    match field {
        Field::Hart => push_number(text, u64::from(parts.hart)),
        Field::Mode => push_mode(text, parts.ctx),
        Field::Access => text.push_str(access_word(parts.access)),
        Field::Va | Field::Address => push_address(text, parts.va),
        Field::Place => push_place(text, parts.place),
        Field::Page => push_page(text, parts.page),
        Field::Ppn => push_address(text, parts.ppn),
        Field::Flags => push_flags(text, parts.flags),
        Field::Named => push_named(text, parts.named),
        Field::Scope => push_scope(text, parts.scope),
        Field::Rs1 => push_register(text, parts.rs1),
        Field::Rs2 => push_register(text, parts.rs2),
        Field::Space => push_number(text, u64::from(parts.space)),
        Field::Asid => push_number(text, u64::from(parts.asid)),
        Field::Ticket => push_number(text, u64::from(parts.ticket)),
        Field::From | Field::To => push_number(text, u64::from(parts.other)),
    }
}

/// Adds the words of the step that makes an event, without its hart, as a file has them.
fn push_event(text: &mut String, event: &Event) -> Result<(), AllocError> {
    let (name, parts) = step_for(event);
    let row = name.row();
    text.push_str(row.word)?;
    let Some(fields) = row.run else {
        return Ok(());
    };
    for field in fields {
        text.push_str(" ")?;
        push_field(text, *field, &parts)?;
    }
    Ok(())
}

/// Adds the words of steps that stand in one line: a step, and loads after it.
fn push_events(text: &mut String, event: &Event, loads: u32) -> Result<(), AllocError> {
    if loads == 0 {
        return push_event(text, event);
    }
    if matches!(*event, Event::Load { .. }) {
        let all = u64::from(loads) + 1;
        push_number(text, all)?;
        return text.push_str(" loads");
    }
    push_event(text, event)?;
    text.push_str(" (")?;
    push_number(text, u64::from(loads))?;
    text.push_str(if loads == 1 { " load)" } else { " loads)" })
}

/// Adds the words of a step, and of loads after it, without their hart, a colon, and the words of
/// the last reply.
pub fn push_steps(
    text: &mut String,
    event: &Event,
    loads: u32,
    reply: Reply,
) -> Result<(), AllocError> {
    push_events(text, event, loads)?;
    text.push_str(": ")?;
    push_reply(text, reply)
}

/// Adds the label of a stale mapping: its page, the PPN for it, and whether the order for it does
/// not name the hart.
pub fn push_mapping(
    text: &mut String,
    page: Page,
    ppn: u64,
    is_named: bool,
) -> Result<(), AllocError> {
    push_page(text, page)?;
    text.push_str(" PPN 0x")?;
    push_hexadecimal(text, ppn)?;
    text.push_str(if is_named { "" } else { ", not named" })
}
