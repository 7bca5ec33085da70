//! How many answers are as expected.
use std::io;

/// Answers that are as expected, and others.
#[derive(Clone, Copy)]
pub struct Tally {
    pub right: u32,
    pub wrong: u32,
}

impl Tally {
    pub fn new() -> Tally {
        Tally { right: 0, wrong: 0 }
    }

    /// Counts an answer, and prints a line if it is another one than expected.
    pub fn count(&mut self, rt: &HostRuntime, of: &str, what: &str, came: io::Result<bool>) {
        if let Ok(true) = came {
            self.right = self.right.saturating_add(1);
        } else {
            self.wrong = self.wrong.saturating_add(1);
            let words = if came.is_ok() {
                "another answer"
            } else {
                "not read"
            };
            let _ = println!(rt; "cases/{of}: {what}: {words}");
        }
    }
}
