//! Tests of what threads share without a lock, by calls that anybody can make: the board, the ends
//! of its mailboxes, and live runs.
#![tactic(auto)]

#[cfg(test)]
mod accounts;
#[cfg(test)]
mod board_shootdowns;
#[cfg(test)]
mod board_tables;
#[cfg(test)]
mod boards;
#[cfg(test)]
mod both_harts;
#[cfg(test)]
mod calls;
#[cfg(test)]
mod cells;
#[cfg(test)]
mod endings;
#[cfg(test)]
mod first_shootdown;
#[cfg(test)]
mod gates;
#[cfg(test)]
mod live_calls;
#[cfg(test)]
mod lone_hart;
#[cfg(test)]
mod mailbox_ends;
#[cfg(test)]
mod readers;
#[cfg(test)]
mod runs;
#[cfg(test)]
mod scripts;
#[cfg(test)]
mod seats;
#[cfg(test)]
mod senders;
#[cfg(test)]
mod shot_down;
#[cfg(test)]
mod staleness;
#[cfg(test)]
mod steps;
#[cfg(test)]
mod stress;
#[cfg(test)]
mod two_threads;
