//! What holds of the notes below a cause. Each function does nothing.

ghost use Rattle.watch_report.specs.NoteLaws as laws;

/// Each finding is counted once: in one group, and there with one reach.
#[tactic(auto, using(crate::proofs::NoteSums::sums))]
pub fn findings_are_counted_once()
    ensures groups { laws.notes_add_up }
    ensures reaches { laws.each_has_a_reach }
{}
