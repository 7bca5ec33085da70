//! A machine with its history.

ghost use Rattle.std.specs.Prelude.{◌≡◌, ◌++◌, ◌∷◌, [], Err, IfOk, OnErr, OnOk, ◌↔◌};
ghost use Rattle.spaces.specs.Limits.{MeetsLimits};
ghost use Rattle.spaces.specs.declared.configuration.TheConstants.{MAX_FRAMES};
ghost use Rattle.history.specs.Setup.{setup_of};
ghost use Rattle.history.specs.Due.{Lawful, due};
ghost use Rattle.laws.specs.Kept.{HavePages};
ghost use Rattle.stepcore.specs.Stands.{Stands};
ghost use Rattle.harts.specs.Books.{history_of};

use crate::named::Named;
use spaces::{Config, OpenFault};
use std::alloc::{AllocError, Global};
use std::marker::{Model, PhantomData};
use stepcore::{Event, Machine, Reply};

/// A machine, and the history at which it stands: each event with its reply, the oldest first. `C`
/// names the configuration of the machine, for contracts alone.
#[derive(Drop)]
pub struct Book<C: Named> {
    machine: Machine,
    history: Vec<(Event, Reply)>,
    of: PhantomData<C>,
}

impl<C: Named> Model for Book<C> {
    ghost use Rattle.std.specs.Prelude.{List};
    ghost use Rattle.history.specs.declared.event.Event.{Event};
    ghost use Rattle.history.specs.declared.reply.Reply.{Reply};
    ghost use Rattle.history.specs.Setup.{setup_of};
    ghost use Rattle.stepcore.specs.Stands.{Stands};
    ghost use Rattle.harts.specs.Books.{history_of};

    ghost Value = { List (Event × Reply) };

    ghost view = { λ b. b.history.items };

    ghost invariant = { λ b. Stands (setup_of C.config) b.machine (history_of b.history.items) };
}

/// An event with its reply.
pub(crate) fn turn_of(event: &Event, reply: &Reply) -> (Event, Reply)
    ensures { result ≡ (event.now, reply.now) }
{
    (*event, *reply)
}

impl<C: Named> Book<C> {
    /// A machine of a configuration, and no event yet. `BadLayout` exactly if `Config::check` says
    /// no, `NoMemory` if there is not enough memory. `C` names the configuration.
    pub fn open(alloc: Global, config: &Config) -> Result<Book<C>, OpenFault>
        requires { C.config ≡ config.now }
        ensures bad_layout { (result ≡ Err OpenFault.BadLayout)
            ↔ (¬ MeetsLimits MAX_FRAMES config.now) }
        ensures limits { OnOk result (MeetsLimits MAX_FRAMES config.now) }
        ensures empty { IfOk result (λ book. book ≡ []) }
    {
        let machine = Machine::open(alloc, config)?;
        Ok(Book {
            machine,
            history: Vec::new(alloc),
            of: PhantomData,
        })
    }

    /// Steps the machine, and appends the event with its reply, which is the due one. At
    /// `AllocError` nothing changed.
    pub fn note(&mut self, event: Event) -> Result<Reply, AllocError>
        ensures lawful { Lawful (setup_of C.config) (history_of self.old) }
        ensures pages { HavePages (history_of self.old) }
        ensures due { IfOk result (λ reply. reply
            ≡ due (setup_of C.config) (history_of self.old) event) }
        ensures appended { IfOk result (λ reply. self.new ≡ self.old ++ (event, reply) ∷ []) }
        ensures unchanged { OnErr result (self.new ≡ self.old) }
    {
        self.history.reserve(1)?;
        let asked = &event;
        let reply = self.machine.step(*asked);
        self.history.push_reserved(turn_of(asked, &reply));
        Ok(reply)
    }

    /// The events so far with their replies, the oldest first. The machine stands at them.
    pub fn history(&self) -> &[(Event, Reply)]
        ensures { result.now ≡ self.now }
    {
        self.history.as_slice()
    }

    /// The machine and the history at which it stands.
    pub fn into_parts(self) -> (Machine, Vec<(Event, Reply)>)
        ensures stands { Stands (setup_of C.config) result.0 (history_of result.1.items) }
        ensures kept { result.1.items ≡ self }
    {
        let Book {
            machine,
            history,
            ..
        } = self;
        (machine, history)
    }
}
