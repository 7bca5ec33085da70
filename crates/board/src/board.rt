//! The board: how ports are opened.

ghost use Rattle.std.specs.Prelude.{◌≡◌, ◌<◌, ◌↔◌, Err, IfOk, OnOk, length, map};
ghost use Rattle.std.specs.Arc.{arc_value};
ghost use Rattle.spaces.specs.Limits.{MeetsLimits};
ghost use Rattle.spaces.specs.declared.configuration.TheConstants.{MAX_LIVE_FRAMES};
ghost use Rattle.history.specs.Setup.{setup_of};
ghost use Rattle.board.specs.Ports.{AreNew, ArePorts, name_of};
ghost use Rattle.board.specs.Reports.{IsReport};
ghost use Rattle.board.specs.Rows.{IsNet};
ghost use Rattle.board.specs.Seats.{AreSeats};
ghost use Rattle.board.specs.Together.{ShareAState};

use crate::closing::{gather, pair_reports};
use crate::opening::open_rows;
use crate::outbox::Outbox;
use crate::port::HartPort;
use crate::receiver::Receiver;
use crate::report::{PairReport, Report};
use crate::seats::open_seats;
use pte::MAX_HARTS;
use spaces::{Config, OpenFault};
use std::alloc::{AllocError, Global};
use std::marker::Model;
use std::sync::Arc;
use views::{Memory, Seat};

/// The hart whose row stands behind these.
fn hart_after(rows: &Vec<Vec<Option<Outbox>>>) -> u8
    requires { length rows.now.items < 256 }
    ensures { result ≡ length rows.now.items }
{
    rows.len() as u8
}

/// A port for each hart, with its seat and its ends.
pub(crate) fn deal(
    alloc: Global,
    config: &Arc<Config, Global>,
    memory: &Arc<Memory, Global>,
    mut seats: Vec<Seat>,
    mut outboxes: Vec<Vec<Option<Outbox>>>,
    mut inboxes: Vec<Vec<Option<Receiver>>>,
) -> Result<Vec<HartPort>, AllocError>
    requires limits { MeetsLimits MAX_LIVE_FRAMES (arc_value config.now) }
    requires seats { AreSeats (arc_value memory.now).shared.table_id
        (arc_value memory.now).shared.key
        (arc_value config.now) 0 seats.items }
    requires as_many { length seats.items ≡ (arc_value config.now).harts }
    requires net { IsNet (arc_value config.now).capacity (arc_value config.now).harts
        outboxes.items inboxes.items }
    ensures ports { IfOk result (λ ports. ArePorts (setup_of (arc_value config.now))
        (map name_of ports.items)) }
    ensures new { IfOk result (λ ports. AreNew ports.items) }
{
    let mut ports = Vec::new(alloc);
    while let Some(outs) = outboxes.pop() {
        let Some(ins) = inboxes.pop() else {
            break;
        };
        let Some(seat) = seats.pop() else {
            break;
        };
        let shared = Arc::try_clone(config)?;
        let words = Arc::try_clone(memory)?;
        let port = HartPort::new(shared, words, seat, hart_after(&outboxes), outs, ins);
        ports.insert(0, port)?;
    }
    Ok(ports)
}

/// A copy of the configuration, for all ports to share.
fn copied(config: &Config) -> Result<Config, AllocError>
    ensures setup { IfOk result (λ copy. setup_of copy ≡ setup_of config.now) }
    ensures limits { IfOk result (λ copy. MeetsLimits MAX_LIVE_FRAMES config.now
        → MeetsLimits MAX_LIVE_FRAMES copy) }
{
    let spaces = config.spaces.clone()?;
    let spares = config.spares.clone()?;
    Ok(Config {
        scheme: config.scheme,
        harts: config.harts,
        spaces,
        window: config.window,
        base: config.base,
        spares,
        capacity: config.capacity,
    })
}

fn share(alloc: Global, config: &Config) -> Result<Arc<Config, Global>, AllocError>
    ensures setup { IfOk result (λ shared. setup_of (arc_value shared) ≡ setup_of config.now) }
    ensures limits { IfOk result (λ shared. MeetsLimits MAX_LIVE_FRAMES config.now
        → MeetsLimits MAX_LIVE_FRAMES (arc_value shared)) }
{
    let copy = copied(config)?;
    let shared = Arc::new(alloc, copy)?;
    Ok(shared)
}

/// What the ports of one opening belong to, and the room for the report of their end.
#[derive(Drop)]
pub struct Board {
    config: Arc<Config, Global>,
    pairs: Vec<PairReport>,
    outboxes: Vec<Vec<Option<Outbox>>>,
    inboxes: Vec<Vec<Option<Receiver>>>,
}

impl Model for Board {
    ghost use Rattle.std.specs.Prelude.{◌≡◌, ◌≤◌, ◌*◌, [], vec_capacity};
    ghost use Rattle.std.specs.Arc.{arc_value};
    ghost use Rattle.pte.specs.declared.TheConstants.{MAX_HARTS};
    ghost use Rattle.spaces.specs.Limits.{MeetsLimits};
    ghost use Rattle.spaces.specs.declared.configuration.TheConstants.{MAX_LIVE_FRAMES};
    ghost use Rattle.history.specs.Setup.{Setup, setup_of};

    ghost Value = { Setup };

    ghost view = { λ b. setup_of (arc_value b.config) };

    ghost invariant = { λ b. ((b.pairs.items ≡ []) × (MAX_HARTS * MAX_HARTS ≤ vec_capacity b.pairs))
        × ((b.outboxes.items ≡ []) × ((arc_value b.config).harts ≤ vec_capacity b.outboxes))
        × ((b.inboxes.items ≡ []) × ((arc_value b.config).harts ≤ vec_capacity b.inboxes))
        × MeetsLimits MAX_LIVE_FRAMES (arc_value b.config) };
}

/// A board, and the rings between its harts.
fn with_room(alloc: Global, config: Arc<Config, Global>) -> Result<Board, AllocError>
    requires { MeetsLimits MAX_LIVE_FRAMES (arc_value config) }
    ensures { IfOk result (λ board. board ≡ setup_of (arc_value config)) }
{
    let harts = usize::from(config.harts);
    let pairs = Vec::with_capacity(alloc, MAX_HARTS * MAX_HARTS)?;
    let outboxes = Vec::with_capacity(alloc, harts)?;
    let inboxes = Vec::with_capacity(alloc, harts)?;
    Ok(Board {
        config,
        pairs,
        outboxes,
        inboxes,
    })
}

impl Board {
    /// A port for each hart, in order, and the board that they belong to. `BadLayout` exactly if
    /// `Config::check_live` says no, `NoMemory` if there is not enough memory.
    pub fn open(alloc: Global, config: &Config) -> Result<(Board, Vec<HartPort>), OpenFault>
        ensures bad_layout { (result ≡ Err OpenFault.BadLayout)
            ↔ (¬ MeetsLimits MAX_LIVE_FRAMES config.now) }
        ensures limits { OnOk result (MeetsLimits MAX_LIVE_FRAMES config.now) }
        ensures board { IfOk result (λ r. r.0 ≡ setup_of config.now) }
        ensures ports { IfOk result (λ r. ArePorts (setup_of config.now) (map name_of r.1.items)) }
        ensures new { IfOk result (λ r. AreNew r.1.items) }
    {
        if !config.check_live() {
            return Err(OpenFault::BadLayout);
        }
        let shared = share(alloc, config)?;
        let board = with_room(alloc, Arc::try_clone(&shared)?)?;
        let capacity = usize::from(config.capacity);
        let (outboxes, inboxes) = open_rows(alloc, capacity, usize::from(config.harts))?;
        let (memory, seats) = open_seats(alloc, &shared)?;
        let ports = deal(alloc, &shared, &memory, seats, outboxes, inboxes)?;
        Ok((board, ports))
    }

    /// What became of the requests, once all ports have come back, in the order of the harts. There
    /// is then one state of the board with the views of all. Takes no memory.
    pub fn close(self, ports: Vec<HartPort>) -> Report
        requires ports { ArePorts self (map name_of ports.items) }
        ensures report { IsReport self.harts ports.items result.pairs.items }
        ensures together { ShareAState ports.items }
    {
        let Board {
            config,
            pairs,
            outboxes,
            inboxes,
        } = self;
        let (outboxes, inboxes) = gather(ports, outboxes, inboxes);
        let pairs = pair_reports(pairs, outboxes, inboxes, config.harts as u8);
        Report { pairs }
    }
}
