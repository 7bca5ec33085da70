//! A law of the lines: the call makes no step, and its clauses hold of the definitions alone.
ghost use Rattle.std.specs.Prelude.{◌≡◌, List, ℕ};
ghost use Rattle.pte.specs.declared.scheme.Scheme.{Scheme};
ghost use Rattle.walk.specs.Leads.{Tables};
ghost use Rattle.steps.specs.declared.step.WalkStep.{WalkStep};
ghost use Rattle.lines.specs.AnswerLines.{WritesLines};

/// The steps of `walk`, made over one memory from one root, write one text, and only one.
pub fn one_text()
    ensures one { (scheme : Scheme) (words : Tables) (root n : ℕ) (steps : List WalkStep)
        (a b : List ℕ) → WritesLines scheme words root n steps a
        → WritesLines scheme words root n steps b → a ≡ b }
    ensures some { (scheme : Scheme) (words : Tables) (root n : ℕ) (steps : List WalkStep)
        → (lines : List ℕ) × WritesLines scheme words root n steps lines }
{}
