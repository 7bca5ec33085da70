//! What is known to be by design, at the end of a report.
ghost use Rattle.std.specs.Prelude.{◌≡◌, ◌++◌, List, IfOk, OnOk, map};
ghost use Rattle.std.specs.List.{sum};
ghost use Rattle.pte.specs.declared.scheme.Scheme.{Scheme as SchemeOf};
ghost use Rattle.watch.specs.Trace.{Trace};
ghost use Rattle.watch_causes.specs.KnownFindings.{KnownEntry, Sourced, counts_of, known_entry};
ghost use Rattle.watch_causes.specs.KnownSoFar.{HasKnown};
ghost use Rattle.watch_report.specs.KnownLists.{design_sum, known_as, known_line, known_lines, known_text, list_of};

use crate::counts::push_findings;
use crate::detail::Detail;
use crate::json_lines::push_known_json;
use crate::options::{Form, Options};
use crate::push::push;
use crate::warning::push_place;
use std::alloc::{AllocError, Global};
use watch_causes::{Known, KnownFindings};

/// Adds the line of an entry.
fn push_known_line(
    text: &mut Vec<u8>,
    file: &[u8],
    line: u64,
    findings: u64,
) -> Result<(), AllocError>
    ensures { OnOk result (text.new.items ≡ text.old.items ++ known_line file.now line findings) }
{
    push_place(text, file, line)?;
    push(text, b"by design: ")?;
    push_findings(text, findings)?;
    push(text, b"\n")
}

/// Adds what is printed of an entry.
fn push_known_as(
    alloc: Global,
    form: Form,
    text: &mut Vec<u8>,
    file: &[u8],
    line: u64,
    findings: u64,
) -> Result<(), AllocError>
    ensures { OnOk result (text.new.items ≡ text.old.items ++ known_as form file.now line findings) }
{
    match form {
        Form::Text => push_known_line(text, file, line, findings),
        Form::Json => push_known_json(alloc, text, file, line, findings),
    }
}

/// Adds a line for each entry, with how many findings it counts.
fn push_known_lines(
    alloc: Global,
    form: Form,
    text: &mut Vec<u8>,
    file: &[u8],
    entries: &[Known],
    counts: &[u64],
) -> Result<(), AllocError>
    ensures { OnOk result (text.new.items ≡ text.old.items
        ++ known_lines form file.now (map known_entry entries.now) counts.now) }
{
    let mut place = 0;
    while place < entries.len() {
        let entry = &entries[place];
        let Some(findings) = counts.get(place) else {
            return Ok(());
        };
        push_known_as(alloc, form, text, file, entry.line, *findings)?;
        place += 1;
    }
    Ok(())
}

/// Adds a line for each entry of the list of this file.
fn push_all(
    alloc: Global,
    form: Form,
    text: &mut Vec<u8>,
    file: &[u8],
    known: &KnownFindings,
) -> Result<(), AllocError>
    ensures { (entries : List KnownEntry) (scheme : SchemeOf) (trace : Trace)
        (verdicts : List Sourced) → HasKnown entries scheme trace verdicts known.now → OnOk result
        (text.new.items ≡ text.old.items
        ++ known_lines form file.now entries (counts_of entries verdicts)) }
{
    push_known_lines(alloc, form, text, file, known.entries(), known.counts())
}

/// The same, if the detail has such lines.
pub(crate) fn push_known(
    alloc: Global,
    options: &Options,
    text: &mut Vec<u8>,
    file: &[u8],
    known: &KnownFindings,
) -> Result<(), AllocError>
    ensures { (entries : List KnownEntry) (scheme : SchemeOf) (trace : Trace)
        (verdicts : List Sourced) → HasKnown entries scheme trace verdicts known.now → OnOk result
        (text.new.items ≡ text.old.items
        ++ known_text options.now.form options.now.detail (list_of file.now entries) (counts_of entries verdicts)) }
{
    match options.detail {
        Detail::Verdicts => push_all(alloc, options.form, text, file, known),
        Detail::Causes => push_all(alloc, options.form, text, file, known),
        Detail::Counts => Ok(()),
    }
}

/// The sum. `AllocError`: it has no room in 64 bits.
fn sum_of(counts: &[u64]) -> Result<u64, AllocError>
    ensures { IfOk result (λ all. all ≡ sum counts.now) }
{
    let mut all = 0_u64;
    for count in counts {
        let Some(more) = all.checked_add(*count) else {
            return Err(AllocError);
        };
        all = more;
    }
    Ok(all)
}

/// How many findings are known to be by design, if the list has entries. `AllocError`: the count has
/// no room in 64 bits.
pub(crate) fn known_sum(known: &KnownFindings) -> Result<Option<u64>, AllocError>
    ensures { (entries : List KnownEntry) (scheme : SchemeOf) (trace : Trace)
        (verdicts : List Sourced) → HasKnown entries scheme trace verdicts known.now
        → IfOk result (λ all. all ≡ design_sum entries (counts_of entries verdicts)) }
{
    if known.is_empty() {
        return Ok(None);
    }
    let all = sum_of(known.counts())?;
    Ok(Some(all))
}
