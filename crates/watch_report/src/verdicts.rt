//! The lines of warnings.
ghost use Rattle.std.specs.Prelude.{◌≡◌, ◌++◌, List, IfOk, OnOk};
ghost use Rattle.watch_report.specs.Past.{ArePast};
ghost use Rattle.watch_report.specs.TraceText.{Noted};
ghost use Rattle.watch_report.specs.VerdictLines.{lines_by, noted_by, printed_of, warning_lines};

use crate::forms::push_verdict_as;
use crate::newest::Newest;
use crate::options::Form;
use crate::past::Past;
use crate::warning::Trigger;
use std::alloc::{AllocError, Global};
use watch_engine::Warning;

/// A warning at the newest record, with lines in place of the numbers of records.
pub(crate) fn printed(
    trigger: Trigger,
    newest: &Newest<'_>,
    past: &Past,
    warning: &Warning,
) -> crate::warning::Warning
    ensures { (records : List Noted) → ArePast records past.now
        → result ≡ printed_of trigger (noted_by newest.now) records warning.now }
{
    crate::warning::Warning {
        line: newest.line,
        hart: warning.hart,
        root: warning.root,
        entry: warning.entry,
        since: past.line(warning.stale_since),
        trigger,
    }
}

/// Adds the lines of warnings.
fn push_warnings(
    alloc: Global,
    form: Form,
    text: &mut Vec<u8>,
    file: &[u8],
    trigger: Trigger,
    newest: &Newest<'_>,
    past: &Past,
    warnings: &[Warning],
) -> Result<(), AllocError>
    ensures ok { (records : List Noted) → ArePast records past.now → OnOk result
        (text.new.items ≡ text.old.items
        ++ warning_lines form file.now trigger (noted_by newest.now) records warnings.now) }
{
    for warning in warnings {
        let stale_by = past.note(warning.stale_since);
        let printed = printed(trigger, newest, past, warning);
        push_verdict_as(alloc, form, text, file, &printed, stale_by, newest.by)?;
    }
    Ok(())
}

/// The lines of the warnings at the newest record, after others.
pub(crate) fn lines_by(
    alloc: Global,
    form: Form,
    file: &[u8],
    trigger: Option<Trigger>,
    newest: &Newest<'_>,
    past: &Past,
    warnings: &[Warning],
) -> Result<Vec<u8>, AllocError>
    ensures { (records : List Noted) → ArePast records past.now → IfOk result
        (λ text. text.items
        ≡ lines_by form file.now trigger (noted_by newest.now) records warnings.now) }
{
    let mut text = Vec::new(alloc);
    if let Some(trigger) = trigger {
        push_warnings(
            alloc, form, &mut text, file, trigger, newest, past, warnings,
        )?;
    }
    Ok(text)
}
