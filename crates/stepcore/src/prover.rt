//! An act for the prover alone: it recalls what every machine keeps, and does nothing when it runs.

ghost use Rattle.stepcore.specs.State.{IsMachine};

use crate::machine::Machine;

impl Machine {
    /// Recalls what every machine keeps.
    #[inline(always)]
    pub(crate) fn recall(&self)
        ensures { IsMachine self.now }
    {
        let _memory = &self.memory;
    }
}
