//! Laws of the formats: each call makes no step, and its clauses hold of the definitions alone.
ghost use Rattle.pte.specs.declared.scheme.Scheme.{Scheme};
ghost use Rattle.std.specs.Prelude.{◌≡◌, ◌↔◌, List, [], ℕ, pos, Some, None, Ok, Err, codes};
ghost use Rattle.steps.specs.declared.fault.StepFault.TheVariants.{NotStep};
ghost use Rattle.history.specs.declared.event.Event.{Event};
ghost use Rattle.steps.specs.declared.fault.StepFault.{StepFault};
ghost use Rattle.steps.specs.declared.step.WalkStep.{WalkStep};
ghost use Rattle.history.specs.declared.live_step.LiveStep.{LiveStep};
ghost use Rattle.toml.specs.Data.{get_member, integer, Members, string};
ghost use Rattle.files.specs.LiveFile.{turns_at, turns_of};
ghost use Rattle.steps.specs.LiveSteps.{live_step_in, setup_step_in};
ghost use Rattle.steps.specs.RunStep.{step_among};
ghost use Rattle.files.specs.Faults.{wrong_script, wrong_step};
ghost use Rattle.files.specs.StepTexts.{AreRead, events_in, IsFirstWrong, script_in, setup_steps_in, walk_step_in, walk_steps_in};

/// The steps of a file are what its texts are read as, each in its place; the fault that is
/// reported is that of the first text that is wrong, with its number from 1.
pub fn first_wrong_step()
    ensures walk { (texts : List (List ℕ)) (steps : List WalkStep)
        → walk_steps_in texts ≡ Ok steps ↔ AreRead walk_step_in texts steps }
    ensures walk_wrong { (texts : List (List ℕ)) (n : ℕ) (fault : StepFault)
        → walk_steps_in texts ≡ Err (wrong_step n fault) ↔ IsFirstWrong walk_step_in texts n fault }
    ensures run { (scheme : Scheme) (harts : ℕ) (texts : List (List ℕ)) (events : List Event)
        → events_in scheme harts texts ≡ Ok events
        ↔ AreRead (step_among scheme harts) texts events }
    ensures run_wrong { (scheme : Scheme) (harts : ℕ) (texts : List (List ℕ)) (n : ℕ)
        (fault : StepFault)
        → events_in scheme harts texts ≡ Err (wrong_step n fault)
        ↔ IsFirstWrong (step_among scheme harts) texts n fault }
    ensures setup { (scheme : Scheme) (harts : ℕ) (texts : List (List ℕ)) (steps : List (ℕ
        × LiveStep))
        → setup_steps_in scheme harts texts ≡ Ok steps
        ↔ AreRead (setup_step_in scheme harts) texts steps }
    ensures setup_wrong { (scheme : Scheme) (harts : ℕ) (texts : List (List ℕ)) (n : ℕ)
        (fault : StepFault)
        → setup_steps_in scheme harts texts ≡ Err (wrong_step n fault)
        ↔ IsFirstWrong (setup_step_in scheme harts) texts n fault }
    ensures script { (scheme : Scheme) (harts hart : ℕ) (texts : List (List ℕ))
        (steps : List LiveStep)
        → script_in scheme harts hart texts ≡ Ok steps
        ↔ AreRead (live_step_in scheme harts) texts steps }
    ensures script_wrong { (scheme : Scheme) (harts hart : ℕ) (texts : List (List ℕ)) (n : ℕ)
        (fault : StepFault) → IsFirstWrong (live_step_in scheme harts) texts n fault
        → script_in scheme harts hart texts ≡ Err (wrong_script hart n fault) }
{}

/// The turns of a wait are from 1 to 4294967295, and 1000000 where no key says how many.
pub fn worked_turns()
    ensures none { turns_of (integer (pos 0)) ≡ None }
    ensures least { turns_of (integer (pos 1)) ≡ Some 1 }
    ensures most { turns_of (integer (pos 4294967295)) ≡ Some 4294967295 }
    ensures more { turns_of (integer (pos 4294967296)) ≡ None }
    ensures text { turns_of (string (codes "1")) ≡ None }
    ensures absent { (ms : Members) → get_member (codes "turns") ms ≡ None
        → turns_at ms ≡ Ok 1000000 }
{}
