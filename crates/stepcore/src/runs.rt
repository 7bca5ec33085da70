//! Steps and runs.

ghost use Rattle.std.specs.Prelude.{◌≡◌, ◌≤◌, ◌↔◌, IsOk, OnOk, false, length, take};
ghost use Rattle.history.specs.Setup.{Setup};
ghost use Rattle.history.specs.Turns.{History};
ghost use Rattle.history.specs.Runs.{due_replies, with_turn};
ghost use Rattle.history.specs.Due.{due};
ghost use Rattle.stepcore.specs.Changes.{Follows, is_accepted};
ghost use Rattle.stepcore.specs.Runs.{after_run, appended, AreDue, Promises};
ghost use Rattle.stepcore.specs.Stands.{Stands};

use crate::appending::{append, append_answer};
use crate::conditions::reply_of;
use crate::machine::Machine;
use history::{Event, Reply};
use std::alloc::AllocError;

impl Machine {
    /// Does one event of one hart, or refuses it. It takes no memory. The reply is the one that is
    /// due, and a refusal changes nothing. For every history at which the machine stood, it stands
    /// at that history with this turn, and keeps the promises.
    pub fn step(&mut self, event: Event) -> Reply
        ensures stands { (setup : Setup) (history : History) → Stands setup self.old history
            → Stands setup self.new (with_turn event result history) }
        ensures follows { Follows self.old event result self.new }
        ensures due { (setup : Setup) (history : History) → Stands setup self.old history
            → result ≡ due setup history event }
        ensures refused { is_accepted result ≡ false → self.new ≡ self.old }
        ensures promises { (setup : Setup) (history : History) → Stands setup self.old history
            → Promises setup (with_turn event result history) self.new }
    {
        self.recall();
        reply_of(self.do_event(&event))
    }

    /// Does the events in order, and appends one reply an event: for every history at which the
    /// machine stood, the one that is due to the event after those before it. An error comes only
    /// if there is no memory for a reply: the machine then has done the events whose replies were
    /// appended, and no other.
    ///
    /// A run of any length goes part by part, in the memory of one part: what `stands` says after a
    /// part is what the clauses of the next call begin with.
    ///
    /// ```
    /// for part in events.chunks(PART) {
    ///     replies.clear();
    ///     machine.run(part, &mut replies)?;
    /// }
    /// ```
    pub fn run(&mut self, events: &[Event], replies: &mut Vec<Reply>) -> Result<(), AllocError>
        ensures kept { take (length replies.old.items) replies.new.items ≡ replies.old.items }
        ensures all { IsOk result
            ↔ (length (appended replies.old.items replies.new.items) ≡ length events.now) }
        ensures no_more { length (appended replies.old.items replies.new.items)
            ≤ length events.now }
        ensures due { (setup : Setup) (history : History) → Stands setup self.old history
            → AreDue setup history events.now (appended replies.old.items replies.new.items) }
        ensures all_due { OnOk result ((setup : Setup) (history : History)
            → Stands setup self.old history
            → appended replies.old.items replies.new.items
            ≡ due_replies setup history events.now) }
        ensures stands { (setup : Setup) (history : History) → Stands setup self.old history
            → Stands setup self.new
            (after_run events.now replies.old.items replies.new.items history) }
        ensures promises { (setup : Setup) (history : History) → Stands setup self.old history
            → Promises setup (after_run events.now replies.old.items replies.new.items history)
            self.new }
    {
        replies.reserve(events.len())?;
        for event in events {
            self.recall();
            // An access has a path of its own, since its reply is short and stored by few moves.
            match *event {
                Event::Begin {
                    hart,
                    va,
                    access,
                    ctx,
                } => append(self.begin(hart, va, access, ctx), replies),
                Event::Load { hart } => append(self.load(hart), replies),
                _ => append_answer(self.do_event(event), replies),
            }
        }
        Ok(())
    }
}
