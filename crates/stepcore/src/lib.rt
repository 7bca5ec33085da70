//! The machine: table memory, spaces, and harts with their TLBs, walks, tickets and mailboxes,
//! moved by one event at a time.
#![tactic(auto)]

mod accesses;
mod appending;
mod conditions;
mod editing;
mod events;
mod hart;
mod machine;
mod opening;
mod prover;
mod runs;
mod serving;
mod shootdown;
mod space_state;
mod spaces_kept;

pub use hart::Hart;
pub use history::{Event, Refusal, Reply, Scope};
pub use machine::Machine;
pub use serving::Serving;
pub use shoot::Request;
pub use space_state::{Phase, SpaceState};
pub use spaces::{Config, OpenFault, Place, Space};
