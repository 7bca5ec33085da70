//! What is printed in each form, and how much of it.
ghost use Rattle.std.specs.Prelude.{◌≡◌, ◌++◌, OnOk};
ghost use Rattle.watch_report.specs.Forms.{at_most, block_as, left_after, summary_as, total_as, verdict_as};

use crate::cause_line::{NumberedTally, push_block, push_total};
use crate::counts::{VerdictCounts, push_summary};
use crate::json_lines::{push_cause_json, push_summary_json, push_total_json, push_verdict_json};
use crate::options::Form;
use crate::warning::{Warning, push_warning};
use std::alloc::{AllocError, Global};
use watch_causes::Cause;

/// Adds a verdict.
pub(crate) fn push_verdict_as(
    alloc: Global,
    form: Form,
    text: &mut Vec<u8>,
    file: &[u8],
    warning: &Warning,
    stale_by: &[u8],
    by: &[u8],
) -> Result<(), AllocError>
    ensures ok { OnOk result (text.new.items ≡ text.old.items
        ++ verdict_as form file.now warning.now stale_by.now by.now) }
{
    match form {
        Form::Text => push_warning(text, file, warning, stale_by, by),
        Form::Json => push_verdict_json(alloc, text, file, warning, stale_by, by),
    }
}

/// Adds the first verdict of a cause, and the cause.
pub(crate) fn push_block_as(
    alloc: Global,
    form: Form,
    text: &mut Vec<u8>,
    file: &[u8],
    number: u64,
    cause: &Cause,
    warning: &Warning,
    stale_by: &[u8],
    by: &[u8],
) -> Result<(), AllocError>
    ensures ok { OnOk result (text.new.items ≡ text.old.items
        ++ block_as form file.now number cause.now warning.now stale_by.now by.now) }
{
    match form {
        Form::Text => push_block(text, file, number, cause, warning, stale_by, by),
        Form::Json => {
            push_verdict_json(alloc, text, file, warning, stale_by, by)?;
            push_cause_json(alloc, text, file, warning.line, number, cause)
        }
    }
}

/// Adds what is counted of a cause.
pub(crate) fn push_total_as(
    alloc: Global,
    form: Form,
    text: &mut Vec<u8>,
    file: &[u8],
    line: u64,
    one: &NumberedTally,
) -> Result<(), AllocError>
    ensures ok { OnOk result (text.new.items ≡ text.old.items
        ++ total_as form file.now line one.now) }
{
    match form {
        Form::Text => push_total(text, file, line, one),
        Form::Json => push_total_json(alloc, text, file, line, one),
    }
}

/// Adds the last line.
pub(crate) fn push_summary_as(
    alloc: Global,
    form: Form,
    text: &mut Vec<u8>,
    file: &[u8],
    records: u64,
    wrong: Option<u64>,
    user: &VerdictCounts,
    kernel: &VerdictCounts,
    design: Option<u64>,
) -> Result<(), AllocError>
    ensures ok { OnOk result (text.new.items ≡ text.old.items
        ++ summary_as form file.now records wrong user.now kernel.now design) }
{
    match form {
        Form::Text => push_summary(text, records, wrong, user, kernel, design),
        Form::Json => { push_summary_json(alloc, text, file, records, wrong, user, kernel, design) }
    }
}

/// The first of these, at most so many.
#[inline(always)]
pub(crate) fn at_most<T>(most: Option<u64>, items: &[T]) -> &[T]
    ensures { result.now ≡ at_most most items.now }
{
    match most {
        None => items,
        Some(most) => {
            if most < items.len() as u64 {
                &items[..most as usize]
            } else {
                items
            }
        }
    }
}

/// How many more there may be, after so many.
#[inline(always)]
pub(crate) fn left_after(most: Option<u64>, before: usize) -> Option<u64>
    ensures { result ≡ left_after most before }
{
    match most {
        None => None,
        Some(most) => Some(most.saturating_sub(before as u64)),
    }
}
