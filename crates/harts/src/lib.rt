//! Harts as threads: a machine under one lock, with the history at which it stands; and ports,
//! which share no lock, up to a frame that may be used again.
#![tactic(auto)]

mod blank;
mod book;
mod gate;
mod halves;
mod live;
mod live_latch;
mod live_laws;
mod live_port;
mod live_reply;
mod live_report;
mod live_script;
mod live_threads;
mod locked;
mod named;
mod reclaim;
mod shared;
mod shooting;

pub use blank::{Blank, List, Turns};
pub use board::{Board, HartPort, Mapped, PairReport, Report};
pub use book::Book;
pub use gate::{Gate, OpenGate};
pub use halves::{Inner, Outer};
pub use history::LiveStep;
pub use live::run_live;
pub use live_laws::{open_gate_halts_none, worked_script, worked_waits};
pub use live_reply::LiveReply;
pub use live_report::{LiveFault, LiveReport};
pub use locked::{Locked, Tally};
pub use named::Named;
pub use reclaim::unmap_and_drop;
pub use shared::Shared;
pub use shooting::shoot_down;
