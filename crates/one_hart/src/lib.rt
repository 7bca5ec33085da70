//! A board with one hart answers as a machine does: the same calls in order, made by its port and
//! made by the events of hart 0, have the same answers.
#![tactic(auto)]

mod answering;
mod both;
mod call;
mod machine_calls;
mod port_calls;

pub use both::{both_answers, each_call_is_a_run, new_port_is_alone};
pub use call::Call;
pub use machine_calls::machine_answers;
pub use port_calls::port_answers;
