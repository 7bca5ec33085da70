//! Worked notes below a cause, and worked findings: the definitions give what was worked out by hand.
//! Each function does nothing, and each of its clauses is a row.

ghost use Rattle.watch_report.specs.WorkedNotes as rows;

/// The lines of one note and of several, of five and of more.
#[tactic(auto, using(crate::proofs::WorkedNotes::notes))]
pub fn worked_note_lines()
    ensures two_harts { rows.two_harts }
    ensures without_a_note { rows.without_a_note }
    ensures two_spaces { rows.two_spaces }
    ensures of_kernel { rows.of_kernel }
    ensures most_findings_first { rows.most_findings_first }
    ensures no_findings { rows.no_findings }
    ensures five { rows.five }
    ensures six { rows.six }
    ensures seven { rows.seven }
{}

/// What is not printed.
#[tactic(auto, using(crate::proofs::WorkedNotes::refused))]
pub fn refused_notes()
    ensures six_lines { rows.six_lines }
    ensures last_first { rows.last_first }
    ensures one_space { rows.one_space }
{}

/// Findings and notes of users and of the kernel, in JSON.
#[tactic(auto, using(crate::proofs::WorkedNotes::objects))]
pub fn worked_note_objects()
    ensures finding { rows.finding }
    ensures finding_of_kernel { rows.finding_of_kernel }
    ensures note { rows.note }
    ensures note_of_kernel { rows.note_of_kernel }
{}
