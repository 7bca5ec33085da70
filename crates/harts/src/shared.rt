//! A machine that threads share under one lock, for callers that name nothing.

ghost use Rattle.std.specs.Prelude.{◌≡◌, ◌++◌, ◌∷◌, [], Err, IfOk, OnErr, OnOk, ◌↔◌};
ghost use Rattle.spaces.specs.Limits.{MeetsLimits};
ghost use Rattle.spaces.specs.declared.configuration.TheConstants.{MAX_FRAMES};
ghost use Rattle.history.specs.Setup.{setup_of};
ghost use Rattle.stepcore.specs.Stands.{Stands};
ghost use Rattle.harts.specs.Books.{IsDueAfterSome, history_of};
ghost use Rattle.harts.specs.Recordings.{IsDueUnderSome};

use crate::book::turn_of;
use spaces::{Config, OpenFault};
use std::alloc::{AllocError, Global};
use std::marker::Model;
use std::sync::{Mutex, Wait};
use stepcore::{Event, Machine, Reply};

/// A machine, what it was opened with, and the history at which it stands, the oldest event first.
#[derive(Drop)]
struct Recorded {
    config: Config,
    machine: Machine,
    history: Vec<(Event, Reply)>,
}

impl Model for Recorded {
    ghost use Rattle.history.specs.Setup.{setup_of};
    ghost use Rattle.stepcore.specs.Stands.{Stands};
    ghost use Rattle.harts.specs.Books.{history_of};
    ghost use Rattle.harts.specs.Recordings.{Recording};

    ghost Value = { Recording };

    ghost view = { λ r. record { config = r.config; turns = r.history.items } };

    ghost invariant = { λ r. Stands (setup_of r.config) r.machine (history_of r.history.items) };
}

impl Recorded {
    /// One event, which is kept with its reply, if there is memory for it.
    fn call(&mut self, event: Event) -> Result<Reply, AllocError>
        ensures due { IfOk result (λ reply.
            IsDueAfterSome (setup_of self.old.config) event reply) }
        ensures appended { IfOk result (λ reply. self.new.turns
            ≡ self.old.turns ++ (event, reply) ∷ []) }
        ensures unchanged { OnErr result (self.new ≡ self.old) }
        ensures config { self.new.config ≡ self.old.config }
    {
        self.history.reserve(1)?;
        let asked = &event;
        let reply = self.machine.step(*asked);
        self.history.push_reserved(turn_of(asked, &reply));
        Ok(reply)
    }
}

/// A machine under a lock, with its configuration and its history. Whenever the lock is free, the
/// machine stands at that history. A caller names nothing for contracts; in return these don't tell
/// which calls were whose (`Locked` does), nor before the end under which configuration.
#[derive(Drop)]
pub struct Shared {
    lock: Mutex<Recorded>,
}

impl Shared {
    /// A machine of a configuration under a lock. `BadLayout` exactly if `Config::check` says no,
    /// `NoMemory` if there is not enough memory.
    pub fn open(alloc: Global, config: &Config) -> Result<Shared, OpenFault>
        ensures bad_layout { (result ≡ Err OpenFault.BadLayout)
            ↔ (¬ MeetsLimits MAX_FRAMES config.now) }
        ensures limits { OnOk result (MeetsLimits MAX_FRAMES config.now) }
    {
        let machine = Machine::open(alloc, config)?;
        Ok(Shared {
            lock: Mutex::new(Recorded {
                config: config.clone()?,
                machine,
                history: Vec::new(alloc),
            }),
        })
    }

    /// Takes the lock for one event, which is kept with its reply. The reply is due after some
    /// lawful history. `AllocError` if there is no memory to keep the event; the machine is then the
    /// same.
    pub fn call(&self, rt: &impl Wait, event: Event) -> Result<Reply, AllocError>
        ensures due { IfOk result (λ reply. IsDueUnderSome event reply) }
    {
        self.lock.lock(rt).call(event)
    }

    /// What the machine was opened with, the machine, and the history at which it stands, the oldest
    /// event first: each reply in it is the one that was due.
    pub fn into_parts(self) -> (Config, Machine, Vec<(Event, Reply)>)
        ensures stands { Stands (setup_of result.0) result.1 (history_of result.2.items) }
    {
        let Recorded {
            config,
            machine,
            history,
        } = self.lock.into_inner();
        (config, machine, history)
    }
}
