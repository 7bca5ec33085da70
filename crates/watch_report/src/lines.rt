//! The lines that records stand on, for the lines of later verdicts.
ghost use Rattle.std.specs.Prelude.{ℕ, ◌≡◌, ◌≤◌, ◌+◌, ◌∷◌, List, [], OnErr, OnOk, length};
ghost use Rattle.std.specs.List.Sorted.{IsNonDecreasingBy, IsPartitionPoint};
ghost use Rattle.watch_report.specs.LineNumbers.{AreLines, AreRuns, behind, EndsBefore, line_from};
ghost use Rattle.watch_report.specs.TraceText.{Noted, line_at};
ghost use Rattle.watch_report.specs.declared.lines.Run.{Run as RunOf};

use std::alloc::{AllocError, Global};

/// Records that stand on lines in a row.
#[derive(Clone, Copy)]
pub(crate) struct Run {
    // the number of the first of them
    first: u64,
    // the line that it stands on
    line: u64,
}

/// The lines of the records that were read. Lines that are no record are rare, and so are runs.
#[derive(Drop)]
pub(crate) struct Lines {
    count: u64,
    // the line right behind the last run, if there is one
    next: u64,
    runs: Vec<Run>,
}

#[tactic(auto, unfolding(crate::specs::LineNumbers::line_from))]
impl Run {
    // The line of a record of the run.
    fn line_of(&self, number: u64) -> u64
        ensures { result ≡ line_from self.now number }
    {
        self.line.wrapping_add(number.saturating_sub(self.first))
    }
}

// How many runs begin at the record or before it.
fn count_up_to(runs: &[Run], number: u64) -> usize
    ensures within { result ≤ length runs.now }
    ensures place { IsNonDecreasingBy (λ (r : RunOf). r.first) runs.now
        → EndsBefore number runs.now result }
{
    runs.partition_point(|run| run.first <= number)
}

// The line of a record of the last of so many runs; 0 if there is none.
fn line_behind(runs: &[Run], place: usize, number: u64) -> u64
    requires { place ≤ length runs.now }
    ensures { (d : RunOf) → result ≡ behind d runs.now place number }
{
    if place == 0 {
        return 0;
    }
    runs[place - 1].line_of(number)
}

/// Begins a run at a record, unless it stands right behind the last one.
#[inline(never)]
fn add_run(runs: &mut Vec<Run>, number: u64, line: u64) -> Result<(), AllocError>
    ensures ok { (records : List Noted) (count : ℕ) (newest : Noted)
        → AreRuns records count runs.old.items → number ≡ count + 1 → newest.line ≡ line
        → OnOk result (AreRuns (newest ∷ records) number runs.new.items) }
    ensures same_run { (d : RunOf) → line ≡ behind d runs.old.items
        (length runs.old.items) number → runs.new.items ≡ runs.old.items }
    ensures err { OnErr result (runs.new.items ≡ runs.old.items) }
{
    let last = runs.as_slice();
    if line_behind(last, last.len(), number) == line {
        return Ok(());
    }
    runs.push(Run {
        first: number,
        line,
    })?;
    Ok(())
}

impl Lines {
    /// No record was read.
    pub(crate) fn new(alloc: Global) -> Lines
        ensures { AreLines [] result }
    {
        Lines {
            count: 0,
            next: 0,
            runs: Vec::new(alloc),
        }
    }

    /// With the line of the next record: one right behind the last run begins no other.
    #[inline(always)]
    pub(crate) fn add(&mut self, line: u64) -> Result<(), AllocError>
        ensures ok { (records : List Noted) (newest : Noted) → AreLines records self.old
            → newest.line ≡ line → OnOk result (AreLines (newest ∷ records) self.new) }
        ensures same_run { (d : RunOf) → line ≡ behind d self.old.runs.items
            (length self.old.runs.items) (self.old.count + 1)
            → self.new.runs.items ≡ self.old.runs.items }
        ensures err_count { OnErr result (self.new.count ≡ self.old.count) }
        ensures err_runs { OnErr result (self.new.runs.items ≡ self.old.runs.items) }
    {
        let Some(number) = self.count.checked_add(1) else {
            return Err(AllocError);
        };
        if line == self.next && !self.runs.is_empty() {
            self.count = number;
            self.next = line.wrapping_add(1);
            return Ok(());
        }
        add_run(&mut self.runs, number, line)?;
        self.count = number;
        self.next = line.wrapping_add(1);
        Ok(())
    }

    /// The line of the record of this number; 0 if there is none.
    pub(crate) fn of(&self, number: u64) -> u64
        ensures { (records : List Noted) → AreLines records self.now
            → result ≡ line_at records number }
    {
        if number == 0 {
            return 0;
        }
        if number > self.count {
            return 0;
        }
        let runs = self.runs.as_slice();
        line_behind(runs, count_up_to(runs, number), number)
    }
}
