//! What `svsim` prints of a machine: the answers of translations and the replies to steps, line by
//! line, and the state after the last step, as tables of text.
#![tactic(auto)]

mod answer_laws;
mod answers;
mod columns;
mod entries;
mod hart_rows;
mod mailbox_rows;
mod numbers;
mod order_rows;
mod printing;
mod replies;
mod runs;
mod sheet;
mod space_rows;
mod table_tree;

pub use answer_laws::one_text;
pub use answers::{size_word, walk_lines, why_word};
pub use numbers::{push_decimal, push_hexadecimal};
pub use printing::Text;
pub use replies::{push_harts, push_page, push_reply, push_what, reply_lines};
pub use runs::run_replies;
pub use sheet::show_text;
