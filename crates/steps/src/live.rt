//! The steps of `live`.
ghost use Rattle.std.specs.Prelude.{◌≡◌};
ghost use Rattle.steps.specs.LiveSteps.{live_step_in, live_words, setup_step_in};
ghost use Rattle.steps.specs.StepFaults.{asked};
ghost use Rattle.steps.specs.Table.{live_of};
ghost use Rattle.steps.specs.Words.{words_of};
ghost use Rattle.steps.specs.declared.table.StepName.TheVariants as names;

use crate::fault::StepFault;
use crate::parts::Parts;
use crate::table::{Field, StepName};
use crate::text::next_word;
use history::LiveStep;
use pte::Scheme;

impl Parts {
    fn live_map(&self) -> Result<LiveStep, StepFault>
        ensures { result ≡ asked (live_of names.Map self.now) }
    {
        Ok(LiveStep::Map {
            place: self.place,
            page: self.page,
            ppn: self.ppn,
            flags: self.flags,
        })
    }

    fn live_unmap(&self) -> Result<LiveStep, StepFault>
        ensures { result ≡ asked (live_of names.Unmap self.now) }
    {
        Ok(LiveStep::Unmap {
            place: self.place,
            page: self.page,
            named: self.named,
        })
    }

    fn live_protect(&self) -> Result<LiveStep, StepFault>
        ensures { result ≡ asked (live_of names.Protect self.now) }
    {
        Ok(LiveStep::Protect {
            place: self.place,
            page: self.page,
            flags: self.flags,
            named: self.named,
        })
    }

    /// The step that one of this name makes of these parts. `NotStep`: `live` has no such step.
    pub(crate) fn live_step(&self, name: StepName) -> Result<LiveStep, StepFault>
        ensures { result ≡ asked (live_of name self.now) }
    {
        let (space, ticket, other) = (self.space, self.ticket, self.other);
        let (scope, named, rs1, rs2) = (self.scope, self.named, self.rs1, self.rs2);
        let (va, access, ctx) = (self.va, self.access, self.ctx);
        // Each arm returns, so that the step is written in place.
        match name {
            StepName::Translate => return Ok(LiveStep::Translate { va, access, ctx }),
            StepName::Map => return self.live_map(),
            StepName::Unmap => return self.live_unmap(),
            StepName::Protect => return self.live_protect(),
            StepName::Flush => return Ok(LiveStep::Flush { scope, named }),
            StepName::Switch => return Ok(LiveStep::Switch { space }),
            StepName::Fence => return Ok(LiveStep::Fence { rs1, rs2 }),
            StepName::Post => return Ok(LiveStep::Post { ticket, to: other }),
            StepName::Serve => return Ok(LiveStep::Serve { from: other }),
            StepName::AckSelf => return Ok(LiveStep::AckSelf { ticket }),
            StepName::Collect => return Ok(LiveStep::Collect { ticket }),
            StepName::Finish => return Ok(LiveStep::Finish { ticket }),
            StepName::Close => return Ok(LiveStep::Close { to: other }),
            StepName::Wait => return Ok(LiveStep::Wait { ticket }),
            StepName::Begin
            | StepName::Load
            | StepName::Take
            | StepName::ServeFence
            | StepName::Ack
            | StepName::Retire
            | StepName::Reclaim
            | StepName::Create => return Err(StepFault::NotStep),
        }
    }

    /// The step of `live` whose name and words a text has.
    fn live_words(&mut self, scheme: Scheme, harts: u8, text: &[u8]) -> Result<LiveStep, StepFault>
        ensures { result ≡ live_words scheme harts (words_of text.now) self.old }
    {
        let (word, rest) = next_word(text).ok_or(StepFault::NotStep)?;
        let name = StepName::of(word).ok_or(StepFault::NotStep)?;
        let fields = name.row().live.ok_or(StepFault::NotStep)?;
        self.read_each(scheme, harts, fields, rest)?;
        self.live_step(name)
    }
}

/// The step of `live` that a line of a script writes, in a scheme and with `harts` harts, whose
/// numbers are from 0 on, or the first of its faults. A script is one hart's, and its lines name no
/// hart before the step.
///
/// The words are the name of a step of `live`, and what its row in the table asks for
/// (`StepName::row`), as `run_step_among` tells of each.
///
/// `StepFault::NotStep`: the words are no such step. `NoSuchHart`: they are, and name a hart that
/// does not exist. `NotPage`: all harts exist, and the page's address is not canonical in the
/// scheme or no multiple of its size (privileged manual 4.4.1 and 4.5.1).
pub fn live_step_among(scheme: Scheme, harts: u8, text: &str) -> Result<LiveStep, StepFault>
    ensures { result ≡ live_step_in scheme harts text.now }
{
    let mut parts = Parts::nothing();
    parts.live_words(scheme, harts, text.as_bytes())
}

/// The hart and the step of `live` that a line of the setup writes, in a scheme and with `harts`
/// harts, or the first of its faults: the hart's number, and then the words of a line of a script,
/// as `live_step_among` has them. If the line's own hart does not exist, that is `NoSuchHart` too.
pub fn setup_step_among(scheme: Scheme, harts: u8, text: &str) -> Result<(u8, LiveStep), StepFault>
    ensures { result ≡ setup_step_in scheme harts text.now }
{
    let (word, rest) = next_word(text.as_bytes()).ok_or(StepFault::NotStep)?;
    let mut parts = Parts::nothing();
    match parts.read(scheme, harts, Field::Hart, word) {
        Ok(()) => {
            let hart = parts.hart;
            match parts.live_words(scheme, harts, rest) {
                Ok(step) => Ok((hart, step)),
                Err(fault) => Err(fault),
            }
        }
        Err(fault) => match parts.live_words(scheme, harts, rest) {
            Ok(_) => Err(fault),
            Err(other) => Err(fault.graver(other)),
        },
    }
}
