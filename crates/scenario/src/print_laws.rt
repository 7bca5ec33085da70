//! Laws of what is printed: each call makes no step, and its clauses hold of the definitions alone.
ghost use Rattle.std.specs.Prelude.{◌≡◌, ◌↔◌, List, ℕ, [], Result, codes};
ghost use Rattle.files.specs.RunFile.{RunPlan};
ghost use Rattle.files.specs.WalkFile.{WalkPlan};
ghost use Rattle.files.specs.Faults.{Failure};
ghost use Rattle.scenario.specs.Commands.{run, walk};
ghost use Rattle.scenario.specs.Prints.{LinesOf, Prints, PrintsReplies};
ghost use Rattle.scenario.specs.WorkedFiles.{layout_text, run_text, walk_text};

/// Of what a text is read as one text is printed, for `walk` and for `run`.
pub fn one_print()
    ensures walk { (read : Result WalkPlan Failure) (a b : List ℕ)
        → LinesOf Prints read a → LinesOf Prints read b → a ≡ b }
    ensures run { (read : Result RunPlan Failure) (a b : List ℕ)
        → LinesOf PrintsReplies read a → LinesOf PrintsReplies read b → a ≡ b }
{}

/// Files with the lines that are printed of them, and no others: the answer of an access, the
/// replies to five steps, and nothing of a file with a fault.
pub fn worked_prints()
    ensures walk { (lines : List ℕ) → walk.Lines walk_text lines
        ↔ (lines ≡ codes "1 pa 0x12345abc 4K\n") }
    ensures run { (lines : List ℕ) → run.Lines run_text lines
        ↔ (lines ≡ codes "1 leaf\n2 more\n3 fill 0x80001234\n4 hit 0x80001234\n5 opened 0\n") }
    ensures faulty { (lines : List ℕ) → run.Lines layout_text lines ↔ (lines ≡ []) }
{}
