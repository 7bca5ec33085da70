//! Tests of page tables, of the machine and its parts (TLBs, mailboxes, tickets), of what shares it
//! behind a lock, and of the watch of traces, by calls that anybody can make. docs/LIBRARY.md shows
//! parts of the modules whose names begin with `first`.
#![tactic(auto)]

#[cfg(test)]
mod acknowledgements;
#[cfg(test)]
mod addresses;
#[cfg(test)]
mod common;
#[cfg(test)]
mod edits;
#[cfg(test)]
mod entries;
#[cfg(test)]
mod faults;
#[cfg(test)]
mod first_calls;
#[cfg(test)]
mod first_machine;
#[cfg(test)]
mod first_shared;
#[cfg(test)]
mod first_steps;
#[cfg(test)]
mod first_threads;
#[cfg(test)]
mod locked;
#[cfg(test)]
mod long_runs;
#[cfg(test)]
mod machine;
#[cfg(test)]
mod mailboxes;
#[cfg(test)]
mod tickets;
#[cfg(test)]
mod tlbs;
#[cfg(test)]
mod trace_lines;
#[cfg(test)]
mod traced_tables;
#[cfg(test)]
mod verdicts;
#[cfg(test)]
mod walks;
