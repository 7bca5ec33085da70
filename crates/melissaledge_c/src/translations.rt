//! Translation over a flat memory, or none at all.

ghost use Rattle.std.specs.Prelude.{◌≡◌, Ok};
ghost use Rattle.melissaledge_c.specs.Translations.{Leads, Translates, answer_of, hit_answer, memory_fault, request_of, trap_answer};

use crate::bare::{Translation, bare_answer, bare_status, translation_of};
use crate::codes::{Fault, number_of, why_code};
use crate::flat::Flat;
use crate::requests::{AccessAsked, asked_of};
use bitflags::Flags;
use pte::{Access, Ctx, PPN_LIMIT, Scheme, TABLE_LENGTH};
use tlb::Entry;
use walk::{Found, Trap, translate_in};

/// Where the tables lie: `struct mle_tables` of C.
#[repr(C)]
#[derive(Clone, Copy, PartialEq, Eq)]
pub struct Tables {
    /// The PPN of the first frame.
    pub base_ppn: u64,
    /// How many frames there are, each of 512 words.
    pub frames: u64,
    /// The PPN of the root table, which may lie outside the frames.
    pub root_ppn: u64,
    /// MODE of satp: 0 for Bare, 8 for Sv39, 9 for Sv48.
    pub scheme: u32,
}

/// What a translation answers: `struct mle_answer` of C.
#[repr(C)]
#[derive(Clone, Copy, PartialEq, Eq, Default)]
pub struct Answer {
    /// The physical address.
    pub pa: u64,
    /// The first address of the page.
    pub page_base: u64,
    /// How many bytes the page has.
    pub page_bytes: u64,
    /// The leaf's PPN.
    pub ppn: u64,
    /// The leaf's flags, each at its place in the entry's word.
    pub flags: u8,
    /// 1 if the mapping belongs to all address spaces, else 0.
    pub global: u8,
    /// The cause of the exception, or 0.
    pub cause: u8,
    /// Why there is an exception, or 0.
    pub why: u8,
}

/// What is asked of a translation, once it is found to be in order.
#[derive(Clone, Copy, PartialEq, Eq)]
pub(crate) struct Request {
    pub(crate) translation: Translation,
    pub(crate) access: Access,
    pub(crate) ctx: Ctx,
}

/// What is wrong with memory or the root, the first that applies.
fn memory_fault(tables: &Tables, words: usize) -> Option<Fault>
    ensures { result ≡ memory_fault tables.now words }
{
    let frames = tables.frames;
    if frames == 0 || frames > PPN_LIMIT || tables.base_ppn > PPN_LIMIT - frames {
        return Some(Fault::Memory);
    }
    if words as u64 != frames * u64::from(TABLE_LENGTH) {
        return Some(Fault::Length);
    }
    if tables.root_ppn >= PPN_LIMIT {
        return Some(Fault::Root);
    }
    None
}

/// What is asked, or the first fault.
fn request_of(tables: &Tables, asked: &AccessAsked) -> Result<Request, Fault>
    ensures { result ≡ request_of tables.now asked.now }
{
    let Some(translation) = translation_of(tables.scheme) else {
        return Err(Fault::Scheme);
    };
    let (access, ctx) = asked_of(asked)?;
    Ok(Request {
        translation,
        access,
        ctx,
    })
}

impl Answer {
    /// The answer of what a walk found.
    pub(crate) fn found(found: &Found) -> Answer
        ensures { result ≡ answer_of (Ok found.now) }
    {
        Answer {
            pa: found.pa,
            page_base: found.page.base().get(),
            page_bytes: found.page.size().bytes(),
            ppn: found.ppn,
            flags: found.flags.bits(),
            global: number_of(found.global),
            cause: 0,
            why: 0,
        }
    }

    /// The answer of an entry.
    pub(crate) fn hit(pa: u64, entry: &Entry) -> Answer
        ensures { result ≡ hit_answer pa entry.now }
    {
        Answer {
            pa,
            page_base: entry.page.base().get(),
            page_bytes: entry.page.size().bytes(),
            ppn: entry.ppn,
            flags: entry.flags.bits(),
            global: number_of(entry.global),
            cause: 0,
            why: 0,
        }
    }

    /// The answer of an exception.
    pub(crate) fn trap(trap: &Trap) -> Answer
        ensures { result ≡ trap_answer trap.now }
    {
        Answer {
            cause: trap.cause,
            why: why_code(trap.why),
            ..Answer::default()
        }
    }
}

/// Where an access leads over tables in a flat memory, as `walk::translate_in` has it: 0 with the
/// translation, or 1 with the exception, as it is if the root lies outside memory. In Bare the
/// physical address is the address, and nothing of the tables is read but `scheme`. Refused with
/// `Scheme`, `Access`, `Mode`, `Memory`, `Length` or `Root`, the first that applies in this order,
/// and then nothing has changed.
#[unsafe(no_mangle)]
pub extern "C" fn melissaledge_translate(
    tables: &Tables,
    words: &[u64],
    asked: &AccessAsked,
    answer: &mut Answer,
) -> i32
    ensures { Translates tables.now words.now asked.now
        (request_of tables.now asked.now) result answer.old answer.new }
{
    let request = match request_of(tables, asked) {
        Ok(request) => request,
        Err(fault) => return fault.code(),
    };
    match request.translation {
        Translation::Bare => {
            *answer = bare_answer(asked.va, request.access);
            bare_status(asked.va)
        }
        Translation::Paged(scheme) => translate_over(
            scheme, tables, words, asked.va, request, answer,
        ),
    }
}

/// Where an access leads over tables, refused with `Memory`, `Length` or `Root`.
fn translate_over(
    scheme: Scheme,
    tables: &Tables,
    words: &[u64],
    va: u64,
    request: Request,
    answer: &mut Answer,
) -> i32
    ensures { Leads (Translation.Paged scheme) tables.now words.now va request result answer.old
        answer.new }
{
    if let Some(fault) = memory_fault(tables, words.len()) {
        return fault.code();
    }
    let memory = Flat {
        base: tables.base_ppn,
        frames: tables.frames,
        words,
    };
    let (access, ctx) = (request.access, request.ctx);
    match translate_in(scheme, &memory, tables.root_ppn, va, access, ctx) {
        Ok(found) => {
            *answer = Answer::found(&found);
            0
        }
        Err(trap) => {
            *answer = Answer::trap(&trap);
            1
        }
    }
}
