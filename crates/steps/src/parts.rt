//! What the words of a step say.
ghost use Rattle.std.specs.Prelude.{◌≡◌, IfErr};
ghost use Rattle.steps.specs.Reading.{read, read_each, ReadsInto, word_fault};
ghost use Rattle.steps.specs.Table.{nothing};
ghost use Rattle.steps.specs.Words.{words_of};

use crate::accesses::{read_access, read_ctx};
use crate::fault::StepFault;
use crate::fields::{
    asid, flags, hart_in, named_in, page_in, place, register, scope, space, ticket,
};
use crate::numbers::num;
use crate::table::Field;
use crate::text::next_word;
use bitflags::Flags;
use history::Scope;
use pte::{Access, Ctx, Mode, Page, PteFlags, Scheme};
use spaces::Place;

/// What the words of a step say: a value for each field that the step has, and for every other
/// field one that says nothing.
#[derive(Clone, Copy)]
pub struct Parts {
    /// The hart that makes the step.
    pub hart: u8,
    pub ctx: Ctx,
    pub access: Access,
    pub va: u64,
    pub place: Place,
    pub page: Page,
    pub ppn: u64,
    pub flags: PteFlags,
    /// The harts that are named, bit h for hart h.
    pub named: u8,
    pub scope: Scope,
    /// The first operand of a fence, `None` for the register x0.
    pub rs1: Option<u64>,
    pub rs2: Option<u64>,
    pub space: u8,
    pub asid: u16,
    pub ticket: u32,
    /// The hart that a request comes from or goes to.
    pub other: u8,
}

impl Parts {
    /// What no word says.
    pub(crate) fn nothing() -> Parts
        ensures { result ≡ nothing }
    {
        Parts {
            hart: 0,
            ctx: Ctx {
                mode: Mode::User,
                sum: false,
                mxr: false,
            },
            access: Access::Load,
            va: 0,
            place: Place::Kernel,
            page: Page::default(),
            ppn: 0,
            flags: PteFlags::empty(),
            named: 0,
            scope: Scope::All,
            rs1: None,
            rs2: None,
            space: 0,
            asid: 0,
            ticket: 0,
            other: 0,
        }
    }

    /// Takes over what a word says, or tells what is wrong with the word.
    #[inline(always)]
    pub(crate) fn read(
        &mut self,
        scheme: Scheme,
        harts: u8,
        field: Field,
        word: &[u8],
    ) -> Result<(), StepFault>
        ensures read { ReadsInto result (read scheme harts field word.now self.old) self.new }
        ensures kept { IfErr result (λ fault. self.new ≡ self.old) }
    {
        match field {
            Field::Hart => self.hart = hart_in(harts, word)?,
            Field::Mode => self.ctx = read_ctx(word).ok_or(StepFault::NotStep)?,
            Field::Access => self.access = read_access(word).ok_or(StepFault::NotStep)?,
            Field::Va => self.va = num(word).ok_or(StepFault::NotStep)?,
            Field::Address => self.va = num(word).ok_or(StepFault::NotStep)?,
            Field::Place => self.place = place(word).ok_or(StepFault::NotStep)?,
            Field::Page => self.page = page_in(scheme, word)?,
            Field::Ppn => self.ppn = num(word).ok_or(StepFault::NotStep)?,
            Field::Flags => self.flags = flags(word).ok_or(StepFault::NotStep)?,
            Field::Named => self.named = named_in(harts, word)?,
            Field::Scope => self.scope = scope(word).ok_or(StepFault::NotStep)?,
            Field::Rs1 => self.rs1 = register(word).ok_or(StepFault::NotStep)?,
            Field::Rs2 => self.rs2 = register(word).ok_or(StepFault::NotStep)?,
            Field::Space => self.space = space(word).ok_or(StepFault::NotStep)?,
            Field::Asid => self.asid = asid(word).ok_or(StepFault::NotStep)?,
            Field::Ticket => self.ticket = ticket(word).ok_or(StepFault::NotStep)?,
            Field::From => self.other = hart_in(harts, word)?,
            Field::To => self.other = hart_in(harts, word)?,
        }
        Ok(())
    }

    /// Takes over what the words of a text say, one for each field and no more, or tells the first
    /// of their faults.
    pub(crate) fn read_each(
        &mut self,
        scheme: Scheme,
        harts: u8,
        fields: &[Field],
        text: &[u8],
    ) -> Result<(), StepFault>
        ensures { ReadsInto result
            (read_each scheme harts fields.now (words_of text.now) self.old) self.new }
    {
        let [field, fields @ ..] = fields else {
            return match next_word(text) {
                Some(_) => Err(StepFault::NotStep),
                None => Ok(()),
            };
        };
        let Some((word, rest)) = next_word(text) else {
            return Err(StepFault::NotStep);
        };
        match self.read(scheme, harts, *field, word) {
            Ok(parts) => self.read_each(scheme, harts, fields, rest),
            Err(fault) => match self.read_each(scheme, harts, fields, rest) {
                Ok(()) => Err(fault),
                Err(other) => Err(fault.graver(other)),
            },
        }
    }
}

impl Field {
    /// What is wrong with a word that stands where this field is asked for, in a scheme and with
    /// `harts` harts; `None` if it is right.
    pub fn fault(self, scheme: Scheme, harts: u8, word: &[u8]) -> Option<StepFault>
        ensures { result ≡ word_fault scheme harts self word.now }
    {
        let mut parts = Parts::nothing();
        parts.read(scheme, harts, self, word).err()
    }
}
