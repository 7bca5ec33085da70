//! Empty lists of turns, for contracts alone.

ghost use Rattle.std.specs.Prelude.{◌≡◌, IfOk, length};

use crate::halves::{Inner, Outer};
use std::alloc::{AllocError, Global};
use std::marker::Model;
use stepcore::{Event, Reply};

/// The half of a list of turns that lies under a lock, with its number.
#[derive(Drop)]
pub struct List {
    number: u8,
    pub half: Inner<(Event, Reply)>,
}

/// The half of a list of turns that a tally has.
pub type Turns = Outer<(Event, Reply)>;

/// The lists of the tallies of a lock that is not open yet, all empty. They have no bytes.
/// Contracts see it as the names of the lists.
#[derive(Drop)]
pub struct Blank {
    pub(crate) lists: Vec<List>,
    pub(crate) turns: Vec<Turns>,
}

impl Model for Blank {
    ghost use Rattle.std.specs.Prelude.{◌≡◌, ℕ, List, [], map, All};

    ghost Value = { List ℕ };

    ghost view = { λ b. map (λ l. l.half.name) b.lists.items };

    ghost invariant = { λ b. (map (λ t. t.name) b.turns.items
        ≡ map (λ l. l.half.name) b.lists.items) × All (λ l. l.half.list ≡ []) b.lists.items
        × All (λ t. t.list ≡ []) b.turns.items };
}

impl Blank {
    /// As many empty lists. `AllocError` if there is not enough memory.
    pub fn new(alloc: Global, count: u8) -> Result<Blank, AllocError>
        ensures { IfOk result (λ blank. length blank ≡ count) }
    {
        let mut lists = Vec::new(alloc);
        let mut turns = Vec::new(alloc);
        for number in 0..count {
            let (half, one) = Inner::pair();
            lists.push(List { number, half })?;
            turns.push(one)?;
        }
        Ok(Blank { lists, turns })
    }
}
