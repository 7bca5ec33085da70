//! The objects of JSON, one on each line.
ghost use Rattle.std.specs.Prelude.{◌≡◌, ◌++◌, OnOk, codes};
ghost use Rattle.watch_report.specs.JsonObjects.{cause_fields, cause_object, counts_field, counts_fields, counts_of_cause, entry_fields, field, file_fields, frames_fields, json_line, known_object, note_value, place_fields, scoped_value, since_fields, summary_object, total_object, trigger_fields, verdict_fields, verdict_object, optional_value};

use crate::cause_line::NumberedTally;
use crate::counts::VerdictCounts;
use crate::object::Object;
use crate::reason_word::reason_word;
use crate::warning::{Trigger, Warning, push_letters, verdict_word};
use std::alloc::{AllocError, Global};
use tlb::Entry;
use watch::Frames;
use watch_causes::{Cause, Verdicts};

/// Adds the type of the object, and the file that it is of.
pub(crate) fn add_file(object: &mut Object, type_word: &[u8], file: &[u8]) -> Result<(), AllocError>
    ensures ok { OnOk result (object.new ≡ object.old ++ file_fields type_word.now file.now) }
{
    object.text("type", type_word)?;
    object.text("file", file)
}

/// And the line of the file.
pub(crate) fn add_place(
    object: &mut Object,
    type_word: &[u8],
    file: &[u8],
    line: u64,
) -> Result<(), AllocError>
    ensures ok { OnOk result (object.new ≡ object.old ++ place_fields type_word.now file.now line) }
{
    add_file(object, type_word, file)?;
    object.number("line", line)
}

/// Adds the note of a record, if it has one.
pub(crate) fn add_note(object: &mut Object, name: &str, by: &[u8]) -> Result<(), AllocError>
    ensures ok { OnOk result (object.new ≡ object.old ++ field name.now (note_value by.now)) }
{
    if by.is_empty() {
        object.null(name)
    } else {
        object.text(name, by)
    }
}

/// Adds an ASID or the PPN of a root table.
pub(crate) fn add_scoped(
    object: &mut Object,
    name: &str,
    global: bool,
    n: u64,
) -> Result<(), AllocError>
    ensures ok { OnOk result (object.new ≡ object.old ++ field name.now (scoped_value global n)) }
{
    if global {
        object.null(name)
    } else {
        object.hexadecimal(name, n)
    }
}

/// Adds the place of the record, the verdict and the hart.
#[tactic(auto, unfolding(crate::specs::JsonObjects::verdict_fields))]
fn add_verdict(object: &mut Object, file: &[u8], warning: &Warning) -> Result<(), AllocError>
    ensures ok { OnOk result (object.new ≡ object.old ++ verdict_fields file.now warning.now) }
{
    add_place(object, b"verdict", file, warning.line)?;
    object.text("verdict", verdict_word(warning.trigger.verdict()))?;
    object.boolean("kernel", warning.entry.global)?;
    object.number("hart", u64::from(warning.hart))
}

/// Adds the page, the PPN, the flags and the ASID of an entry.
#[tactic(auto, unfolding(crate::specs::JsonObjects::entry_fields))]
pub(crate) fn add_entry(alloc: Global, object: &mut Object, entry: &Entry) -> Result<(), AllocError>
    ensures ok { OnOk result (object.new ≡ object.old ++ entry_fields entry.now) }
{
    let mut letters = Vec::new(alloc);
    push_letters(&mut letters, entry.flags, entry.global)?;
    object.hexadecimal("page", entry.page.base().get())?;
    object.hexadecimal("size", entry.page.size().bytes())?;
    object.hexadecimal("frame", entry.ppn)?;
    object.text("flags", letters.as_slice())?;
    add_scoped(object, "asid", entry.global, u64::from(entry.asid))
}

/// Adds the root, and since when the translation is stale, with the note of that record.
#[tactic(auto, unfolding(crate::specs::JsonObjects::since_fields))]
fn add_since(object: &mut Object, warning: &Warning, stale_by: &[u8]) -> Result<(), AllocError>
    ensures ok { OnOk result (object.new ≡ object.old ++ since_fields warning.now stale_by.now) }
{
    add_scoped(object, "root", warning.entry.global, warning.root)?;
    object.number("stale_since", warning.since)?;
    add_note(object, "stale_by", stale_by)
}

fn add_frames(object: &mut Object, frames: Frames) -> Result<(), AllocError>
    ensures ok { OnOk result (object.new ≡ object.old ++ frames_fields frames) }
{
    object.hexadecimal("frames", frames.first)?;
    object.hexadecimal("count", frames.count)
}

/// Adds what the kernel did.
fn add_trigger(object: &mut Object, trigger: Trigger) -> Result<(), AllocError>
    ensures ok { OnOk result (object.new ≡ object.old ++ trigger_fields trigger) }
{
    match trigger {
        Trigger::GivenBack(frames) => add_frames(object, frames),
        Trigger::GivenOut(frames) => add_frames(object, frames),
        Trigger::ClaimedSince(line) => object.number("claimed_since", line),
        Trigger::UsedAt(address) => object.hexadecimal("address", address),
    }
}

/// Adds the object of a verdict on a trace in the file, as `push_warning` adds its line.
/// `AllocError`: there was no room; a part of the line may stay.
pub fn push_verdict_json(
    alloc: Global,
    text: &mut Vec<u8>,
    file: &[u8],
    warning: &Warning,
    stale_by: &[u8],
    by: &[u8],
) -> Result<(), AllocError>
    ensures ok { OnOk result (text.new.items ≡ text.old.items
        ++ json_line (verdict_object file.now warning.now stale_by.now by.now)) }
{
    let mut object = Object::begin(alloc)?;
    add_verdict(&mut object, file, warning)?;
    add_entry(alloc, &mut object, &warning.entry)?;
    add_since(&mut object, warning, stale_by)?;
    add_trigger(&mut object, warning.trigger)?;
    add_note(&mut object, "by", by)?;
    object.push_line(text)
}

/// Adds the line of the first verdict of a cause, the number of the cause, and the cause.
#[tactic(auto, unfolding(crate::specs::JsonObjects::cause_fields))]
fn add_cause(
    object: &mut Object,
    type_word: &[u8],
    file: &[u8],
    line: u64,
    number: u64,
    cause: &Cause,
) -> Result<(), AllocError>
    ensures ok { OnOk result (object.new ≡ object.old
        ++ cause_fields type_word.now file.now line number cause.now) }
{
    add_place(object, type_word, file, line)?;
    object.number("cause", number)?;
    object.boolean("kernel", cause.global)?;
    object.text("first", verdict_word(cause.first))?;
    object.text("reason", reason_word(cause.reason))
}

/// Adds the object of a cause, which begins on this line of the file. `AllocError`: there was no room;
/// a part of the line may stay.
pub fn push_cause_json(
    alloc: Global,
    text: &mut Vec<u8>,
    file: &[u8],
    line: u64,
    number: u64,
    cause: &Cause,
) -> Result<(), AllocError>
    ensures ok { OnOk result (text.new.items ≡ text.old.items
        ++ json_line (cause_object file.now line number cause.now)) }
{
    let mut object = Object::begin(alloc)?;
    add_cause(&mut object, b"cause", file, line, number, cause)?;
    object.push_line(text)
}

/// Adds how many verdicts of each kind there were.
#[tactic(auto, unfolding(crate::specs::JsonObjects::counts_fields))]
fn add_counts(object: &mut Object, counts: &VerdictCounts) -> Result<(), AllocError>
    ensures ok { OnOk result (object.new ≡ object.old ++ counts_fields counts.now) }
{
    object.number("free", counts.free)?;
    object.number("reuse", counts.reuse)?;
    object.number("claim", counts.claimed)?;
    object.number("use", counts.used)
}

fn counts_of_cause(verdicts: &Verdicts) -> VerdictCounts
    ensures { result ≡ counts_of_cause verdicts.now }
{
    VerdictCounts {
        free: verdicts.free,
        reuse: verdicts.reuse,
        claimed: verdicts.claimed,
        used: verdicts.used,
    }
}

/// Adds the object of what is counted of a cause, at a line of the file. `AllocError`: there was no
/// room; a part of the line may stay.
pub fn push_total_json(
    alloc: Global,
    text: &mut Vec<u8>,
    file: &[u8],
    line: u64,
    one: &NumberedTally,
) -> Result<(), AllocError>
    ensures ok { OnOk result (text.new.items ≡ text.old.items
        ++ json_line (total_object file.now line one.now)) }
{
    let mut object = Object::begin(alloc)?;
    add_cause(
        &mut object,
        b"total",
        file,
        line,
        one.number,
        &one.tally.cause,
    )?;
    object.number("findings", one.tally.findings)?;
    add_counts(&mut object, &counts_of_cause(&one.tally.verdicts))?;
    object.push_line(text)
}

/// Adds the object of an entry of a list of what is known, which stands on this line of the list:
/// how many findings it took. `AllocError`: there was no room; a part of the line may stay.
pub fn push_known_json(
    alloc: Global,
    text: &mut Vec<u8>,
    file: &[u8],
    line: u64,
    findings: u64,
) -> Result<(), AllocError>
    ensures ok { OnOk result (text.new.items ≡ text.old.items
        ++ json_line (known_object file.now line findings)) }
{
    let mut object = Object::begin(alloc)?;
    add_place(&mut object, b"known", file, line)?;
    object.number("findings", findings)?;
    object.push_line(text)
}

/// Adds a field with a number, or none.
fn add_optional(object: &mut Object, name: &str, n: Option<u64>) -> Result<(), AllocError>
    ensures ok { OnOk result (object.new ≡ object.old ++ field name.now (optional_value n)) }
{
    match n {
        None => object.null(name),
        Some(n) => object.number(name, n),
    }
}

/// Adds an object of how many verdicts of each kind there were.
fn add_counts_field(
    object: &mut Object,
    name: &str,
    counts: &VerdictCounts,
) -> Result<(), AllocError>
    ensures ok { OnOk result (object.new ≡ object.old ++ counts_field name.now counts.now) }
{
    object.begin_field(name)?;
    add_counts(object, counts)?;
    object.end_field()
}

/// Adds the last object, as `push_summary` adds the last line. `AllocError`: there was no room; a part
/// of the line may stay.
pub fn push_summary_json(
    alloc: Global,
    text: &mut Vec<u8>,
    file: &[u8],
    records: u64,
    wrong: Option<u64>,
    user: &VerdictCounts,
    kernel: &VerdictCounts,
    design: Option<u64>,
) -> Result<(), AllocError>
    ensures ok { OnOk result (text.new.items ≡ text.old.items
        ++ json_line (summary_object file.now records wrong user.now kernel.now design)) }
{
    let mut object = Object::begin(alloc)?;
    add_file(&mut object, b"summary", file)?;
    object.number("records", records)?;
    add_optional(&mut object, "before_line", wrong)?;
    add_counts_field(&mut object, "user", user)?;
    add_counts_field(&mut object, "kernel", kernel)?;
    add_optional(&mut object, "by_design", design)?;
    object.push_line(text)
}
