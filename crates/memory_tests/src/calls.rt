//! The calls that take memory.

use crate::verdict::Verdict;
use crate::{causes, inspections, known, live, locked, machines, notes, stories, texts};
use std::alloc::Global;
use std::sync::Wait;
use std::thread::Threads;

/// A call that takes memory.
#[derive(Clone, Copy, Debug, PartialEq, Eq)]
pub enum Call {
    MachineOpen,
    MachineRun,
    LockedCall,
    Ends,
    BoardOpen,
    RunLive,
    WalkText,
    RunText,
    Stale,
    Show,
    Draw,
    Check,
    CheckNotes,
    Watch,
    WatchCauses,
    WatchKnown,
    Explain,
    Picture,
}

impl Call {
    /// All of them, in the order of their lines.
    pub const ALL: [Call; 18] = [
        Call::MachineOpen,
        Call::MachineRun,
        Call::LockedCall,
        Call::Ends,
        Call::BoardOpen,
        Call::RunLive,
        Call::WalkText,
        Call::RunText,
        Call::Stale,
        Call::Show,
        Call::Draw,
        Call::Check,
        Call::CheckNotes,
        Call::Watch,
        Call::WatchCauses,
        Call::WatchKnown,
        Call::Explain,
        Call::Picture,
    ];

    /// Its name on its line.
    pub fn name(self) -> &'static str {
        match self {
            Call::MachineOpen => "Machine::open",
            Call::MachineRun => "Machine::run",
            Call::LockedCall => "Locked::call",
            Call::Ends => "ends",
            Call::BoardOpen => "Board::open",
            Call::RunLive => "run_live",
            Call::WalkText => "walk_text",
            Call::RunText => "run_text",
            Call::Stale => "command Stale",
            Call::Show => "command Show",
            Call::Draw => "command Draw",
            Call::Check => "command Check",
            Call::CheckNotes => "command Check with notes",
            Call::Watch => "watch_command",
            Call::WatchCauses => "watch_command_with by causes",
            Call::WatchKnown => "answer_words with a list, in JSON",
            Call::Explain => "explain_command",
            Call::Picture => "picture_command",
        }
    }

    /// Makes the call, and says what became of it.
    pub fn make<R: Threads + Wait + Sync>(self, rt: &R, alloc: Global) -> Verdict {
        match self {
            Call::MachineOpen => machines::open(alloc),
            Call::MachineRun => machines::run(alloc),
            Call::LockedCall => locked::calls(rt, alloc),
            Call::Ends => live::two_ends(alloc),
            Call::BoardOpen => live::board(alloc),
            Call::RunLive => live::run(rt, alloc),
            Call::WalkText => texts::walk(alloc),
            Call::RunText => texts::run(alloc),
            Call::Stale => inspections::stale(alloc),
            Call::Show => inspections::show(alloc),
            Call::Draw => inspections::draw(alloc),
            Call::Check => inspections::check(alloc),
            Call::CheckNotes => inspections::notes(alloc),
            Call::Watch => notes::watch(alloc),
            Call::WatchCauses => causes::watch(alloc),
            Call::WatchKnown => known::watch(rt, alloc),
            Call::Explain => stories::explain(alloc),
            Call::Picture => stories::picture(alloc),
        }
    }
}
