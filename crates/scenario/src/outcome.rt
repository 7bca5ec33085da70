//! What a command makes of a text.
ghost use Rattle.std.specs.Prelude.{◌≡◌};
ghost use Rattle.scenario.specs.declared.finding.Finding.TheVariants.{Nothing};

use crate::finding::Finding;

/// What is printed of a text, and what was found.
#[derive(Drop)]
pub(crate) struct Outcome {
    pub(crate) lines: String,
    pub(crate) finding: Finding,
}

impl Outcome {
    /// Nothing was found.
    pub(crate) fn of_lines(lines: String) -> Outcome
        ensures lines { result.lines ≡ lines }
        ensures finding { result.finding ≡ Nothing }
    {
        Outcome {
            lines,
            finding: Finding::Nothing,
        }
    }
}
