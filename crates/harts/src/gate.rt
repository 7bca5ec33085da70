//! What the caller of a live run may do between the steps of its scripts.

/// Is asked before each step of a script and called after it, on the thread of its hart. Steps are
/// numbered from 1 in each script, and all past the last number of 32 bits have that number; a step
/// of setup makes no call.
///
/// What a gate says of a step is up to it (`GateSays`): that the hart may do it, that the script may
/// end before it, and that the gate was told of its end. One that defines nothing says nothing.
pub trait Gate {
    ghost use Rattle.std.specs.Prelude.{◌≡◌, true, false};
    ghost use Rattle.harts.specs.Gates.{GateSays, says_nothing};

    ghost says: { Self → GateSays } = { λ _. says_nothing };

    /// Called before a step. At false the script ends before the step.
    fn before(&self, hart: u8, step: u32) -> bool
        ensures pass { result ≡ true → (says self.now).may_pass hart step }
        ensures halt { result ≡ false → (says self.now).may_halt hart step };

    /// Called after a step.
    fn after(&self, hart: u8, step: u32)
        ensures told { (says self.now).was_told hart step };
}

/// A gate that is always open: it halts no script.
#[derive(Clone, Copy, Debug)]
pub struct OpenGate;

impl Gate for OpenGate {
    ghost use Rattle.std.specs.Prelude.{IsTrue};
    ghost use Rattle.harts.specs.Gates.{halts_none};

    ghost says = { λ _. halts_none };

    fn before(&self, _hart: u8, _step: u32) -> bool
        ensures { IsTrue result }
    {
        true
    }

    fn after(&self, _hart: u8, _step: u32) {}
}
