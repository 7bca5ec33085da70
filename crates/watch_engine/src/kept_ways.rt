//! The ways to the tables of the last stores.

ghost use Rattle.std.specs.Prelude.{ℕ, ◌≡◌, ◌<◌, ◌≤◌, [], All, Contains, IfOk, IfSome, length, true};
ghost use Rattle.std.specs.List.{HoldsAt};
ghost use Rattle.pte.specs.declared.scheme.Scheme.{Scheme as SchemeOf};
ghost use Rattle.walk.specs.Leads.{Tables as TablesOf};
ghost use Rattle.walk.specs.Maps.{page_number};
ghost use Rattle.watch_tables.specs.Ways.{AreWays};

use crate::tables::Tables;
use pte::{PAGE_BYTES, Scheme};
use std::alloc::{AllocError, Global};
use watch_tables::Way;

// The ways to so many tables are kept at most.
const MOST_TABLES: usize = 16;

// The ways to a table are kept if they are no more, so that all that is kept takes 1.5 MB at most.
const MOST_WAYS: usize = 2048;

/// The ways to a table.
#[derive(Drop)]
pub(crate) struct KnownWays {
    // the PPN of the table
    table: u64,
    ways: Vec<Way>,
    ghost few: { length ways.items ≤ 2048 },
}

/// The ways to the tables of the last stores, as long as they stay the same.
#[derive(Drop)]
pub(crate) struct KeptWays {
    // in the order of use, the newest last
    known: Vec<KnownWays>,
    ghost few: { length known.items ≤ 16 },
}

// Where the ways to a table stand.
fn place_of(known: &[KnownWays], table: u64) -> Option<usize>
    ensures { IfSome result (λ place. (place < length known.now)
        × HoldsAt (λ ways. ways.table ≡ table) known.now place) }
{
    known.iter().rposition(|ways| ways.table == table)
}

impl KeptWays {
    ghost use Rattle.watch_engine.specs.KeptWays.{AreKept, WaysStay};

    /// Nothing is kept.
    pub(crate) fn new(alloc: Global) -> KeptWays
        ensures { result.known.items ≡ [] }
    {
        KeptWays {
            known: Vec::new(alloc),
        }
    }

    // Takes out the ways to a table if they are kept. Most often they are the newest.
    fn take_known(&mut self, table: u64) -> Option<KnownWays>
        ensures table { IfSome result (λ ways. ways.table ≡ table) }
        ensures taken { IfSome result (Contains self.old.known.items) }
        ensures rest { All (Contains self.old.known.items) self.new.known.items }
    {
        let Some(place) = place_of(self.known.as_slice(), table) else {
            return None;
        };
        if place + 1 == self.known.len() {
            return self.known.pop();
        }
        Some(self.known.remove(place))
    }

    /// Takes out the ways to the table of the word at an address, or finds them where they are not kept.
    pub(crate) fn take<T: Tables>(
        &mut self,
        alloc: Global,
        tables: &T,
        scheme: Scheme,
        address: u64,
    ) -> Result<Vec<Way>, AllocError>
        requires { AreKept scheme (T.words tables.now) (T.since tables.now) self.old }
        ensures rest { AreKept scheme (T.words tables.now) (T.since tables.now) self.new }
        ensures ways { IfOk result (λ ways. AreWays scheme (T.words tables.now) (T.since tables.now)
            (page_number address) ways.items) }
    {
        match self.take_known(address / PAGE_BYTES) {
            Some(known) => Ok(known.ways),
            None => tables.ways(alloc, scheme, address),
        }
    }

    // If the ways to as many tables are kept as may be, the oldest go.
    fn drop_oldest(&mut self)
        ensures rest { All (Contains self.old.known.items) self.new.known.items }
        ensures place { length self.new.known.items < 16 }
    {
        if self.known.len() >= MOST_TABLES {
            let _oldest = self.known.remove(0);
        }
    }

    /// Keeps the ways to the table of the word at an address, the newest, if the ways to all tables
    /// stay and these are no more than 2,048. If the ways do not stay, nothing is kept.
    pub(crate) fn keep(&mut self, address: u64, ways: Vec<Way>, stay: bool)
        ensures { (scheme : SchemeOf) (words others : TablesOf) (since new : ℕ → ℕ → ℕ)
            → AreKept scheme words since self.old
            → AreWays scheme words since (page_number address) ways.items
            → (stay ≡ true → WaysStay scheme words since others new)
            → AreKept scheme others new self.new }
    {
        if !stay {
            self.known.clear();
            return;
        }
        if ways.len() > MOST_WAYS {
            return;
        }
        self.drop_oldest();
        let table = address / PAGE_BYTES;
        // without memory they are not kept
        let _ = self.known.push(KnownWays { table, ways });
    }

    /// Keeps the ways no longer if words are to be made 0 that are not: these are their addresses.
    pub(crate) fn keep_unless_any(&mut self, addresses: &[u64])
        ensures same { All (Contains self.old.known.items) self.new.known.items }
        ensures none { All (λ _. addresses.now ≡ []) self.new.known.items }
    {
        if addresses.is_empty() {
            return;
        }
        self.known.clear();
    }
}
