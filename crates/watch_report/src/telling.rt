//! What is told of the records of a trace.
ghost use Rattle.std.specs.Prelude.{◌≡◌, ◌∷◌, ◌++◌, ℕ, List, [], IfOk, OnOk};
ghost use Rattle.pte.specs.declared.scheme.Scheme.{Scheme as SchemeOf};
ghost use Rattle.watch_engine.specs.declared.warning.Warning.{Warning as WarningOf};
ghost use Rattle.watch_report.specs.declared.options.Options.{Options as OptionsOf};
ghost use Rattle.watch_report.specs.Past.{ArePast};
ghost use Rattle.watch_report.specs.Reports.{told_at, totals_by};
ghost use Rattle.watch_report.specs.Telling.{IsTelling};
ghost use Rattle.watch_report.specs.TraceText.{Noted};
ghost use Rattle.watch_report.specs.VerdictLines.{noted_by, trigger_of};

use crate::blocks::{blocks_at, push_totals};
use crate::detail::Detail;
use crate::forms::{at_most, left_after};
use crate::newest::Newest;
use crate::options::Options;
use crate::past::Past;
use crate::verdicts::lines_by;
use crate::warning::Trigger;
use pte::Scheme;
use std::alloc::{AllocError, Global};
use watch_causes::Causes;
use watch_engine::Warning;

/// How many verdicts are left to tell, or the causes, where these are told.
#[derive(Drop)]
pub(crate) enum Kept {
    Verdicts(Option<u64>),
    Causes(Causes),
    Counts,
}

/// What is told of the records, and what is kept for it.
#[derive(Drop)]
pub(crate) struct Telling {
    options: Options,
    kept: Kept,
}

impl Telling {
    /// No record was read.
    pub(crate) fn new(alloc: Global, options: Options, scheme: Scheme) -> Telling
        ensures { IsTelling options scheme [] [] result }
    {
        let kept = match options.detail {
            Detail::Verdicts => Kept::Verdicts(options.most),
            Detail::Causes => Kept::Causes(Causes::new(alloc, scheme)),
            Detail::Counts => Kept::Counts,
        };
        Telling { options, kept }
    }

    /// The text at the next record, which has this trigger and these warnings.
    pub(crate) fn at_record(
        &mut self,
        alloc: Global,
        file: &[u8],
        trigger: Option<Trigger>,
        newest: &Newest<'_>,
        past: &Past,
        warnings: &[Warning],
    ) -> Result<Vec<u8>, AllocError>
        ensures text { (options : OptionsOf) (scheme : SchemeOf) (records : List Noted)
            (given : List (List WarningOf)) → trigger ≡ trigger_of records newest.now.made
            → ArePast records past.now → IsTelling options scheme records given self.old
            → IfOk result (λ text. text.items ≡ told_at options file.now scheme (noted_by newest.now)
            records warnings.now given) }
        ensures telling { (options : OptionsOf) (scheme : SchemeOf) (records : List Noted)
            (given : List (List WarningOf)) → IsTelling options scheme records given self.old
            → OnOk result (IsTelling options scheme (noted_by newest.now ∷ records)
            (warnings.now ∷ given) self.new) }
    {
        let form = self.options.form;
        let most = self.options.most;
        match &mut self.kept {
            Kept::Verdicts(left) => {
                if warnings.is_empty() {
                    return Ok(Vec::new(alloc));
                }
                let told = at_most(*left, warnings);
                *left = left_after(*left, warnings.len());
                lines_by(alloc, form, file, trigger, newest, past, told)
            }
            Kept::Causes(causes) => blocks_at(
                causes, alloc, form, most, file, trigger, newest, past, warnings,
            ),
            Kept::Counts => Ok(Vec::new(alloc)),
        }
    }

    /// Adds what is told at the end, before the last line.
    pub(crate) fn push_end(
        &self,
        alloc: Global,
        text: &mut Vec<u8>,
        file: &[u8],
        past: &Past,
    ) -> Result<(), AllocError>
        ensures { (options : OptionsOf) (scheme : SchemeOf) (records : List Noted)
            (given : List (List WarningOf)) → ArePast records past.now
            → IsTelling options scheme records given self.now → OnOk result (text.new.items
            ≡ text.old.items ++ totals_by options file.now scheme records given) }
    {
        match &self.kept {
            Kept::Causes(causes) => {
                let (form, most) = (self.options.form, self.options.most);
                push_totals(alloc, form, most, text, file, past, causes)
            }
            Kept::Verdicts(_) | Kept::Counts => Ok(()),
        }
    }
}
