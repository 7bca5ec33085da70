//! What the definitions of a live run say of worked scripts and waits. The functions do nothing, and
//! their clauses are the facts.

ghost use Rattle.harts.specs.Plays.{OpenGateHaltsNone, WorkedScript, WorkedWaits};

/// With a gate that is always open each script comes to its end, and none of its replies is
/// `Halted`.
pub fn open_gate_halts_none()
    ensures { OpenGateHaltsNone }
{}

/// A script of a fence and a wait, of which the gate lets the first step pass and halts the second:
/// the fence is made and answered, the wait is answered `Halted`, and nothing else is done.
pub fn worked_script()
    ensures { WorkedScript }
{}

/// A wait of no turns answers `Timeout` at once; one of one turn serves and looks once before.
pub fn worked_waits()
    ensures { WorkedWaits }
{}
