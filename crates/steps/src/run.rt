//! The steps of `run`.
ghost use Rattle.std.specs.Prelude.{◌≡◌, Err};
ghost use Rattle.steps.specs.Reading.{at_least, read_step};
ghost use Rattle.steps.specs.RunStep.{run_step_of, step_among};
ghost use Rattle.steps.specs.StepFaults.{asked};
ghost use Rattle.steps.specs.Table.{event_of, run_fields};
ghost use Rattle.steps.specs.Words.{words_of};
ghost use Rattle.steps.specs.declared.table.StepName.TheVariants as names;

use crate::fault::StepFault;
use crate::parts::Parts;
use crate::table::{Field, StepName};
use crate::text::next_word;
use history::Event;
use pte::{MAX_HARTS, Scheme};

impl Parts {
    fn begin(&self) -> Result<Event, StepFault>
        ensures { result ≡ asked (event_of names.Begin self.now) }
    {
        Ok(Event::Begin {
            hart: self.hart,
            va: self.va,
            access: self.access,
            ctx: self.ctx,
        })
    }

    fn map(&self) -> Result<Event, StepFault>
        ensures { result ≡ asked (event_of names.Map self.now) }
    {
        Ok(Event::Map {
            hart: self.hart,
            place: self.place,
            page: self.page,
            ppn: self.ppn,
            flags: self.flags,
        })
    }

    fn unmap(&self) -> Result<Event, StepFault>
        ensures { result ≡ asked (event_of names.Unmap self.now) }
    {
        Ok(Event::Unmap {
            hart: self.hart,
            place: self.place,
            page: self.page,
            named: self.named,
        })
    }

    fn protect(&self) -> Result<Event, StepFault>
        ensures { result ≡ asked (event_of names.Protect self.now) }
    {
        Ok(Event::Protect {
            hart: self.hart,
            place: self.place,
            page: self.page,
            flags: self.flags,
            named: self.named,
        })
    }

    /// The event that a step of this name makes of these parts. `NotStep`: `run` has no such step.
    pub(crate) fn event(&self, name: StepName) -> Result<Event, StepFault>
        ensures { result ≡ asked (event_of name self.now) }
    {
        let (hart, space, ticket, other) = (self.hart, self.space, self.ticket, self.other);
        let (scope, named, rs1, rs2) = (self.scope, self.named, self.rs1, self.rs2);
        let asid = self.asid;
        // Each arm returns, so that the event is written in place (45 instructions less a step).
        match name {
            StepName::Begin => return self.begin(),
            StepName::Load => return Ok(Event::Load { hart }),
            StepName::Map => return self.map(),
            StepName::Unmap => return self.unmap(),
            StepName::Protect => return self.protect(),
            StepName::Flush => return Ok(Event::Flush { hart, scope, named }),
            StepName::Switch => return Ok(Event::Switch { hart, space }),
            StepName::Fence => return Ok(Event::Fence { hart, rs1, rs2 }),
            StepName::Post => return Ok(Event::Post {
                hart,
                ticket,
                to: other,
            }),
            StepName::Take => return Ok(Event::Take { hart, from: other }),
            StepName::ServeFence => return Ok(Event::ServeFence { hart }),
            StepName::Ack => return Ok(Event::Ack { hart }),
            StepName::AckSelf => return Ok(Event::AckSelf { hart, ticket }),
            StepName::Collect => return Ok(Event::Collect {
                hart,
                ticket,
                from: other,
            }),
            StepName::Finish => return Ok(Event::Finish { hart, ticket }),
            StepName::Close => return Ok(Event::Close { hart, to: other }),
            StepName::Retire => return Ok(Event::Retire { hart, space }),
            StepName::Reclaim => return Ok(Event::Reclaim { hart, space }),
            StepName::Create => return Ok(Event::Create { hart, space, asid }),
            StepName::Translate | StepName::Serve | StepName::Wait => return Err(
                StepFault::NotStep,
            ),
        }
    }

    /// The event of a step whose name and words a text has.
    #[inline(always)]
    fn run_step(&mut self, scheme: Scheme, harts: u8, text: &[u8]) -> Result<Event, StepFault>
        ensures { result ≡ read_step run_fields event_of scheme harts (words_of text.now) self.old }
    {
        let (word, rest) = next_word(text).ok_or(StepFault::NotStep)?;
        let name = StepName::of(word).ok_or(StepFault::NotStep)?;
        let fields = name.row().run.ok_or(StepFault::NotStep)?;
        self.read_each(scheme, harts, fields, rest)?;
        self.event(name)
    }

    /// A fault, or a graver one of the text after it.
    fn run_fault(&mut self, scheme: Scheme, harts: u8, fault: StepFault, text: &[u8]) -> StepFault
        ensures { Err result ≡ at_least fault
            (read_step run_fields event_of scheme harts (words_of text.now) self.old) }
    {
        match self.run_step(scheme, harts, text) {
            Ok(_) => fault,
            Err(other) => fault.graver(other),
        }
    }
}

/// The step of `run` that a text writes, in a scheme and with `harts` harts, whose numbers are from
/// 0 on, or the first of its faults.
///
/// The words are the number of the hart, the name of a step, and what its row in the table asks for
/// (`StepName::row`): an H, FROM or TO is a hart, a TICKET is below 2^32, a SPACE below 256, an
/// ASID of 16 bits, a PLACE a space or `k`, a PAGE a size and an address such as `4K:0x1000`, FLAGS
/// letters of `rwxugad` or `-`, NAMED harts such as `0,1` or `-`, a SCOPE a space or `all`, RS1 and
/// RS2 a number or `x0`, a MODE such as `s+sum`, an ACCESS `fetch`, `load` or `store`, and VA and
/// PPN numbers. The sizes are `4K`, `2M`, `1G`, and in Sv48 `512G`.
///
/// `StepFault::NotStep`: the words are no step. `NoSuchHart`: they are, and name a hart that does
/// not exist. `NotPage`: all harts exist, and the page's address is not canonical in the scheme or
/// no multiple of its size (privileged manual 4.4.1 and 4.5.1).
pub fn run_step_among(scheme: Scheme, harts: u8, text: &str) -> Result<Event, StepFault>
    ensures { result ≡ step_among scheme harts text.now }
{
    let (word, rest) = next_word(text.as_bytes()).ok_or(StepFault::NotStep)?;
    let mut parts = Parts::nothing();
    match parts.read(scheme, harts, Field::Hart, word) {
        Ok(()) => parts.run_step(scheme, harts, rest),
        Err(fault) => Err(parts.run_fault(scheme, harts, fault, rest)),
    }
}

/// The step of `run` in a scheme that a text writes where there are 8 harts, as many as there may
/// be (`pte::MAX_HARTS`); `None` where it has a fault.
pub fn run_step(scheme: Scheme, text: &str) -> Option<Event>
    ensures { result ≡ run_step_of scheme text.now }
{
    run_step_among(scheme, MAX_HARTS as u8, text).ok()
}
