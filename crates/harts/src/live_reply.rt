//! What a step of a live run answers.

ghost use Rattle.std.specs.Prelude.{◌≡◌, true};
ghost use Rattle.history.specs.declared.live_step.LiveStep.{LiveStep};
ghost use Rattle.harts.specs.Performs.{call_reply, collection_reply, is_waiting, map_reply, opening_reply, service_reply, translation_reply};
ghost use Rattle.harts.specs.Scripts.{may_answer};

use board::Mapped;
use history::{Refusal, Reply};
use shoot::{Collected, Request};
use walk::Trap;

/// The answer to a step of a live run.
#[derive(Clone, Copy, PartialEq, Eq, Debug)]
pub enum LiveReply {
    /// The access translates to this physical address.
    Translated(u64),
    /// The reply that the same step has in a run of events: `Trap`, `Table`, `Leaf`, `Opened`,
    /// `Ok`, `Taken`, `Done`, `Waiting` or `Refused`.
    Replied(Reply),
    /// The gate ended the script before this step.
    Halted,
    /// A wait used up its turns.
    Timeout,
}

impl LiveReply {
    /// The answer of a translation.
    pub(crate) fn of_translation(answer: Result<u64, Trap>) -> LiveReply
        ensures made { (step : LiveStep) → may_answer step result ≡ true }
        ensures reply { result ≡ translation_reply answer }
    {
        match answer {
            Ok(pa) => LiveReply::Translated(pa),
            Err(trap) => LiveReply::Replied(Reply::Trap(trap)),
        }
    }

    /// The answer of a step of mapping.
    pub(crate) fn of_map(answer: Result<Mapped, Refusal>) -> LiveReply
        ensures made { (step : LiveStep) → may_answer step result ≡ true }
        ensures reply { result ≡ map_reply answer }
    {
        match answer {
            Ok(Mapped::Table(ppn)) => LiveReply::Replied(Reply::Table(ppn)),
            Ok(Mapped::Leaf) => LiveReply::Replied(Reply::Leaf),
            Err(refusal) => LiveReply::Replied(Reply::Refused(refusal)),
        }
    }

    /// The answer of a call that opens a ticket.
    pub(crate) fn of_opening(answer: Result<u32, Refusal>) -> LiveReply
        ensures made { (step : LiveStep) → may_answer step result ≡ true }
        ensures reply { result ≡ opening_reply answer }
    {
        match answer {
            Ok(ticket) => LiveReply::Replied(Reply::Opened(ticket)),
            Err(refusal) => LiveReply::Replied(Reply::Refused(refusal)),
        }
    }

    /// The answer of a call that returns no value.
    pub(crate) fn of_call(answer: Result<(), Refusal>) -> LiveReply
        ensures made { (step : LiveStep) → may_answer step result ≡ true }
        ensures reply { result ≡ call_reply answer }
    {
        match answer {
            Ok(()) => LiveReply::Replied(Reply::Ok),
            Err(refusal) => LiveReply::Replied(Reply::Refused(refusal)),
        }
    }

    /// The answer of a service.
    pub(crate) fn of_service(answer: Result<Request, Refusal>) -> LiveReply
        ensures made { (step : LiveStep) → may_answer step result ≡ true }
        ensures reply { result ≡ service_reply answer }
    {
        match answer {
            Ok(request) => LiveReply::Replied(Reply::Taken(request)),
            Err(refusal) => LiveReply::Replied(Reply::Refused(refusal)),
        }
    }

    /// The answer of a call that returns how far a ticket is.
    pub(crate) fn of_collection(answer: Result<Collected, Refusal>) -> LiveReply
        ensures made { (step : LiveStep) → may_answer step result ≡ true }
        ensures reply { result ≡ collection_reply answer }
    {
        match answer {
            Ok(Collected::Done) => LiveReply::Replied(Reply::Done),
            Ok(Collected::Waiting(harts)) => LiveReply::Replied(Reply::Waiting(harts)),
            Err(refusal) => LiveReply::Replied(Reply::Refused(refusal)),
        }
    }

    /// Whether a ticket was found open and not done.
    pub(crate) fn is_waiting(&self) -> bool
        ensures { result ≡ is_waiting self.now }
    {
        matches!(self, LiveReply::Replied(Reply::Waiting(_)))
    }
}
