//! Laws of the texts: each call makes no step, and its clauses hold of the definitions alone.
ghost use Rattle.std.specs.Prelude.{◌≡◌, ◌≤◌, List, ℕ, Ok, Err, Some, ◌↔◌};
ghost use Rattle.pte.specs.declared.scheme.Scheme.{Scheme};
ghost use Rattle.pte.specs.declared.scheme.Scheme.TheVariants.{Sv39, Sv48};
ghost use Rattle.history.specs.declared.event.Event.{Event};
ghost use Rattle.history.specs.declared.live_step.LiveStep.{LiveStep};
ghost use Rattle.pte.specs.declared.TheConstants.{MAX_HARTS};
ghost use Rattle.steps.specs.declared.fault.StepFault.TheVariants.{NoSuchHart, NotStep};
ghost use Rattle.steps.specs.declared.step.WalkStep.{WalkStep};
ghost use Rattle.steps.specs.Grammar.{WritesNumber, WritesStep};
ghost use Rattle.steps.specs.LiveSteps.{live_step_in, setup_step_in};
ghost use Rattle.steps.specs.Num.{num_of};
ghost use Rattle.steps.specs.StepGrammar.{WritesLiveStep, WritesRunStep, WritesSetupStep};
ghost use Rattle.steps.specs.RunStep.{run_step_of, step_among};
ghost use Rattle.steps.specs.Step.{walk_step_of};

/// A word writes at most one number, and the reader finds just the number that is written.
pub fn num_is_written()
    ensures one { (word : List ℕ) (m n : ℕ) → WritesNumber word m → WritesNumber word n → m ≡ n }
    ensures found { (word : List ℕ) (n : ℕ) → WritesNumber word n ↔ (num_of word ≡ Some n) }
{}

/// A text writes at most one step of `walk`, and the reader finds just the step that is written.
pub fn walk_step_is_written()
    ensures one { (text : List ℕ) (a b : WalkStep) → WritesStep text a → WritesStep text b → a ≡ b }
    ensures found { (text : List ℕ) (step : WalkStep)
        → WritesStep text step ↔ (walk_step_of text ≡ Some step) }
{}

/// For each number of harts, a text writes at most one step of `run`, and the reader finds just the
/// step that is written.
pub fn run_step_is_written()
    ensures one { (scheme : Scheme) (harts : ℕ) (text : List ℕ) (a b : Event)
        → WritesRunStep scheme harts text a → WritesRunStep scheme harts text b → a ≡ b }
    ensures found { (scheme : Scheme) (harts : ℕ) (text : List ℕ) (event : Event)
        → WritesRunStep scheme harts text event ↔ (step_among scheme harts text ≡ Ok event) }
    ensures found_of_all { (scheme : Scheme) (text : List ℕ) (event : Event)
        → WritesRunStep scheme MAX_HARTS text event ↔ (run_step_of scheme text ≡ Some event) }
{}

/// Whether a text is a step of `run` does not depend on how many harts there are: `NotStep` is
/// reported before anything else. With more harts it stays the same step, or has the same fault,
/// unless it named a hart that did not exist: `NotPage` is reported last.
pub fn harts_are_told_between_steps_and_pages()
    ensures not_step { (scheme : Scheme) (m n : ℕ) (text : List ℕ)
        → step_among scheme m text ≡ Err NotStep → step_among scheme n text ≡ Err NotStep }
    ensures more_harts { (scheme : Scheme) (m n : ℕ) (text : List ℕ) → m ≤ n
        → ¬ (step_among scheme m text ≡ Err NoSuchHart)
        → step_among scheme n text ≡ step_among scheme m text }
{}

/// A text that writes a step in Sv39 writes the same step in Sv48.
pub fn steps_of_sv39_are_steps_of_sv48()
    ensures { (harts : ℕ) (text : List ℕ) (event : Event) → step_among Sv39 harts text ≡ Ok event
        → step_among Sv48 harts text ≡ Ok event }
{}

/// For each number of harts, a line of a script writes at most one step of `live`, and the reader
/// finds just the step that is written.
pub fn live_step_is_written()
    ensures one { (scheme : Scheme) (harts : ℕ) (text : List ℕ) (a b : LiveStep)
        → WritesLiveStep scheme harts text a → WritesLiveStep scheme harts text b → a ≡ b }
    ensures found { (scheme : Scheme) (harts : ℕ) (text : List ℕ) (step : LiveStep)
        → WritesLiveStep scheme harts text step ↔ (live_step_in scheme harts text ≡ Ok step) }
{}

/// For each number of harts, a line of the setup writes at most one hart and step of `live`, and
/// the reader finds just those that are written.
pub fn setup_step_is_written()
    ensures one { (scheme : Scheme) (harts : ℕ) (text : List ℕ) (g h : ℕ) (a b : LiveStep)
        → WritesSetupStep scheme harts text g a → WritesSetupStep scheme harts text h b
        → (g ≡ h) × (a ≡ b) }
    ensures found { (scheme : Scheme) (harts : ℕ) (text : List ℕ) (hart : ℕ) (step : LiveStep)
        → WritesSetupStep scheme harts text hart step
        ↔ (setup_step_in scheme harts text ≡ Ok (hart, step)) }
{}

/// Of the lines of `live` the same: `NotStep` is reported before anything else, and `NotPage` last.
pub fn harts_of_live_are_told_between_steps_and_pages()
    ensures not_step { (scheme : Scheme) (m n : ℕ) (text : List ℕ)
        → live_step_in scheme m text ≡ Err NotStep → live_step_in scheme n text ≡ Err NotStep }
    ensures more_harts { (scheme : Scheme) (m n : ℕ) (text : List ℕ) → m ≤ n
        → ¬ (live_step_in scheme m text ≡ Err NoSuchHart)
        → live_step_in scheme n text ≡ live_step_in scheme m text }
    ensures setup_not_step { (scheme : Scheme) (m n : ℕ) (text : List ℕ)
        → setup_step_in scheme m text ≡ Err NotStep → setup_step_in scheme n text ≡ Err NotStep }
    ensures setup_more_harts { (scheme : Scheme) (m n : ℕ) (text : List ℕ) → m ≤ n
        → ¬ (setup_step_in scheme m text ≡ Err NoSuchHart)
        → setup_step_in scheme n text ≡ setup_step_in scheme m text }
{}

/// A line of `live` that writes a step in Sv39 writes the same step in Sv48.
pub fn live_steps_of_sv39_are_live_steps_of_sv48()
    ensures script { (harts : ℕ) (text : List ℕ) (step : LiveStep)
        → live_step_in Sv39 harts text ≡ Ok step → live_step_in Sv48 harts text ≡ Ok step }
    ensures setup { (harts : ℕ) (text : List ℕ) (hart : ℕ) (step : LiveStep)
        → setup_step_in Sv39 harts text ≡ Ok (hart, step)
        → setup_step_in Sv48 harts text ≡ Ok (hart, step) }
{}
