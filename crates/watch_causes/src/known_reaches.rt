//! The reach of the findings of a whole trace.

ghost use Rattle.std.specs.Prelude.{◌≡◌, IfOk, None};
ghost use Rattle.std.specs.BTreeMap.{get};
ghost use Rattle.watch_causes.specs.declared.finding.Finding.{Finding as FindingOf};
ghost use Rattle.watch_causes.specs.Findings.{finding_cmp};
ghost use Rattle.watch_causes.specs.KnownReaches.{reach_listed, reach_in};

use crate::begun::Begun;
use crate::finding::{Finding, finding_of};
use crate::reach::Reach;
use std::alloc::{AllocError, Global};
use std::collections::BTreeMap;

/// The reach of each finding of a trace, or of none.
#[derive(Drop)]
pub struct KnownReaches {
    findings: BTreeMap<Finding, Reach>,
}

impl KnownReaches {
    /// Of no finding.
    pub fn none(alloc: Global) -> KnownReaches
        ensures { (f : FindingOf) → reach_in result f ≡ None }
    {
        KnownReaches {
            findings: BTreeMap::new(alloc),
        }
    }

    /// Of these findings, which are there once each, with their reaches in the same order.
    pub fn new(
        alloc: Global,
        begun: &[Begun],
        reaches: &[Reach],
    ) -> Result<KnownReaches, AllocError>
        ensures { IfOk result (λ all. (f : FindingOf) → reach_in all f
            ≡ reach_listed begun.now reaches.now f) }
    {
        let mut findings = BTreeMap::new(alloc);
        let mut at = begun.len().min(reaches.len());
        'last: while at > 0 {
            at -= 1;
            let finding = finding_of(&begun[at].warning);
            if findings.insert(finding, reaches[at]).is_err() {
                return Err(AllocError);
            }
        }
        Ok(KnownReaches { findings })
    }

    /// Of a finding.
    pub(crate) fn reach(&self, finding: &Finding) -> Option<Reach>
        ensures { result ≡ reach_in self.now finding.now }
    {
        match self.findings.get(finding) {
            Some(reach) => Some(*reach),
            None => None,
        }
    }
}
