//! What the kernel does at a record.
ghost use Rattle.std.specs.Prelude.{◌≡◌, List};
ghost use Rattle.watch.specs.WorkedTraces.{trace_of as made_from};
ghost use Rattle.watch_engine.specs.Watching.{Follows};
ghost use Rattle.watch_tables.specs.Words.{since, words};
ghost use Rattle.watch_report.specs.Past.{ArePast};
ghost use Rattle.watch_report.specs.Prefix.{begun_after, open_claim};
ghost use Rattle.watch_report.specs.TraceText.{Noted, trace_of};
ghost use Rattle.watch_report.specs.VerdictLines.{claim_trigger, trigger_of};

use crate::past::Past;
use crate::warning::Trigger;
use watch::Record;
use watch_engine::Watch;
use watch_tables::PageTables;

/// The claim that ends with its token.
fn claim_trigger(watch: &Watch<PageTables>, past: &Past, token: u64) -> Option<Trigger>
    ensures { (records : List Noted) → Follows words since (trace_of records) watch.now
        → ArePast records past.now → result ≡ claim_trigger records token }
{
    match watch.claim_begun(token) {
        Some(number) => Some(Trigger::ClaimedSince(past.line(number))),
        None => None,
    }
}

/// What the kernel does at the next record, if it may have verdicts.
pub fn trigger_of(watch: &Watch<PageTables>, past: &Past, made: Record) -> Option<Trigger>
    ensures { (records : List Noted) → Follows words since (trace_of records) watch.now
        → ArePast records past.now → result ≡ trigger_of records made }
{
    match made {
        Record::GiveBack { frames, .. } => Some(Trigger::GivenBack(frames)),
        Record::GiveOut { frames, .. } => Some(Trigger::GivenOut(frames)),
        Record::ClaimEnd { token, .. } => claim_trigger(watch, past, token),
        Record::Use { address, .. } => Some(Trigger::UsedAt(address)),
        Record::Store { .. }
        | Record::Satp { .. }
        | Record::Fence { .. }
        | Record::RemoteBegin { .. }
        | Record::RemoteEnd { .. }
        | Record::ClaimBegin { .. } => None,
    }
}

/// The number of the record that began a claim, after another record, of this number.
fn begun_after(begun: Option<u64>, made: &Record, number: u64, token: u64) -> Option<u64>
    ensures { result ≡ begun_after token made.now number begun }
{
    match made {
        Record::ClaimBegin { token: of, .. } if *of == token => Some(number),
        Record::ClaimEnd { token: of, .. } if *of == token => None,
        _ => begun,
    }
}

/// The number of the record that began the claim under the token, if it is open.
fn claim_among(records: &[Record], token: u64) -> Option<u64>
    ensures { result ≡ open_claim token (made_from records.now) }
{
    let mut begun = None;
    let mut count = 0;
    while count < records.len() {
        let made = &records[count];
        count += 1;
        begun = begun_after(begun, made, count as u64, token);
    }
    begun
}

/// The claim that ends with its token after these records.
fn claim_trigger_among(records: &[Record], past: &Past, token: u64) -> Option<Trigger>
    ensures { (noted : List Noted) → made_from records.now ≡ trace_of noted
        → ArePast noted past.now → result ≡ claim_trigger noted token }
{
    match claim_among(records, token) {
        Some(number) => Some(Trigger::ClaimedSince(past.line(number))),
        None => None,
    }
}

/// What the kernel does at the record after these, if it may have verdicts.
pub(crate) fn trigger_among(records: &[Record], past: &Past, made: Record) -> Option<Trigger>
    ensures { (noted : List Noted) → made_from records.now ≡ trace_of noted
        → ArePast noted past.now → result ≡ trigger_of noted made }
{
    match made {
        Record::GiveBack { frames, .. } => Some(Trigger::GivenBack(frames)),
        Record::GiveOut { frames, .. } => Some(Trigger::GivenOut(frames)),
        Record::ClaimEnd { token, .. } => claim_trigger_among(records, past, token),
        Record::Use { address, .. } => Some(Trigger::UsedAt(address)),
        Record::Store { .. }
        | Record::Satp { .. }
        | Record::Fence { .. }
        | Record::RemoteBegin { .. }
        | Record::RemoteEnd { .. }
        | Record::ClaimBegin { .. } => None,
    }
}
