//! Counts of replies.

use history::Reply;

/// How many replies there were of each kind.
#[derive(Clone, Copy, PartialEq, Eq, Debug, Default)]
pub struct Tally {
    hit: u64,
    trap: u64,
    more: u64,
    filled: u64,
    table: u64,
    leaf: u64,
    opened: u64,
    ok: u64,
    taken: u64,
    done: u64,
    waiting: u64,
    refused: u64,
}

impl Tally {
    /// Counts one reply more.
    pub fn count(&mut self, reply: &Reply) {
        let count = match reply {
            Reply::Hit(_) => &mut self.hit,
            Reply::Trap(_) => &mut self.trap,
            Reply::More => &mut self.more,
            Reply::Filled(_) => &mut self.filled,
            Reply::Table(_) => &mut self.table,
            Reply::Leaf => &mut self.leaf,
            Reply::Opened(_) => &mut self.opened,
            Reply::Ok => &mut self.ok,
            Reply::Taken(_) => &mut self.taken,
            Reply::Done => &mut self.done,
            Reply::Waiting(_) => &mut self.waiting,
            Reply::Refused(_) => &mut self.refused,
        };
        *count = count.wrapping_add(1);
    }

    /// Each kind of reply, with how many there were.
    pub fn counts(&self) -> [(&'static str, u64); 12] {
        [
            ("hit", self.hit),
            ("trap", self.trap),
            ("more", self.more),
            ("filled", self.filled),
            ("table", self.table),
            ("leaf", self.leaf),
            ("opened", self.opened),
            ("ok", self.ok),
            ("taken", self.taken),
            ("done", self.done),
            ("waiting", self.waiting),
            ("refused", self.refused),
        ]
    }
}
