//! What a run of the harts leaves, and which reply is due to an event after it: definitions, with
//! no machine.
#![tactic(auto)]

mod event;
mod faults;
mod live_step;
pub mod numbers;
pub mod occurrences;
mod refusal;
mod reply;
pub mod retirements;
pub mod translations;

pub use event::{Event, Scope};
pub use faults::{edit_refusal, opening_refusal, posting_refusal};
pub use live_step::LiveStep;
pub use refusal::Refusal;
pub use reply::Reply;
