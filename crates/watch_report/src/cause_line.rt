//! The lines of causes.
ghost use Rattle.std.specs.Prelude.{◌≡◌, ◌++◌, IfOk, OnOk, nat_lt, not, position, true};
ghost use Rattle.watch_report.specs.CauseLines.{block_text, by_test, cause_part, cause_reason_text, cause_text, comes_before, findings_part, has_reachable, has_reuse, has_used, numbered_by, ordered, owner_text, placed, spaces_text, tally_counts, total_line};
ghost use Rattle.watch_report.specs.Warnings.{counted_text, verdict_counts_text};

use crate::counts::{count_of, push_counts, word_of};
use crate::found::{Found, best_reach, is_reachable, is_used, of_cause};
use crate::push::{push, push_decimal};
use crate::warning::{Warning, push_place, push_warning, verdict_word};
use std::alloc::{AllocError, Global};
use watch_causes::{Cause, Reach, Reason, Tally, Verdicts};

/// What is counted of a cause, with its number: 1 for the cause that began first.
#[derive(Clone, Copy, PartialEq, Eq, Debug)]
pub struct NumberedTally {
    pub number: u64,
    /// The best reach of its findings.
    pub reach: Reach,
    pub tally: Tally,
}

fn owner_word(global: bool) -> &'static [u8]
    ensures { result.now ≡ owner_text global }
{
    if global { b"kernel" } else { b"user" }
}

fn spaces_words(global: bool) -> &'static [u8]
    ensures { result.now ≡ spaces_text global }
{
    if global {
        b"its flush fenced by ASID, which leaves global pages"
    } else {
        b"its flush fenced another ASID"
    }
}

fn reason_words(global: bool, reason: Reason) -> &'static [u8]
    ensures { result.now ≡ cause_reason_text global reason }
{
    match reason {
        Reason::NoFlush => b"no flush of the page has begun since",
        Reason::NoFence => b"its flush asked for no fence",
        Reason::OtherHarts => b"its flush asked for no fence on this hart",
        Reason::OtherSpaces => spaces_words(global),
        Reason::OtherPages => b"its flush fenced other pages",
        Reason::NotDone => b"its flush asked for a fence that was not done yet",
    }
}

/// Adds whose pages the cause is of, its first verdict and its reason.
fn push_cause(text: &mut Vec<u8>, cause: &Cause) -> Result<(), AllocError>
    ensures ok { OnOk result (text.new.items ≡ text.old.items ++ cause_text cause.now) }
{
    push(text, owner_word(cause.global))?;
    push(text, b" pages, first ")?;
    push(text, verdict_word(cause.first))?;
    push(text, b": ")?;
    push(text, reason_words(cause.global, cause.reason))
}

/// Adds the number of the cause, and the cause.
fn push_numbered(text: &mut Vec<u8>, number: u64, cause: &Cause) -> Result<(), AllocError>
    ensures ok { OnOk result (text.new.items ≡ text.old.items ++ cause_part number cause.now) }
{
    push(text, b"cause ")?;
    push_decimal(text, number)?;
    push(text, b": ")?;
    push_cause(text, cause)
}

/// Adds the line of the verdict that begins a cause, as `push_warning` does, and a line of the cause.
/// `AllocError`: there was no room; the part that had room stays.
pub fn push_block(
    text: &mut Vec<u8>,
    file: &[u8],
    number: u64,
    cause: &Cause,
    warning: &Warning,
    stale_by: &[u8],
    by: &[u8],
) -> Result<(), AllocError>
    ensures ok { OnOk result (text.new.items ≡ text.old.items
        ++ block_text file.now number cause.now warning.now stale_by.now by.now) }
{
    push_warning(text, file, warning, stale_by, by)?;
    push(text, b"  ")?;
    push_numbered(text, number, cause)?;
    push(text, b"\n")
}

/// Adds the counts of the verdicts that are not 0.
fn push_verdicts(text: &mut Vec<u8>, verdicts: &Verdicts) -> Result<(), AllocError>
    ensures ok { OnOk result (text.new.items ≡ text.old.items
        ++ verdict_counts_text true (tally_counts verdicts.now)) }
{
    let counts = [
        count_of(b"free", verdicts.free),
        count_of(b"reuse", verdicts.reuse),
        count_of(b"claim", verdicts.claimed),
        count_of(b"use", verdicts.used),
    ];
    push_counts(text, &counts)
}

/// Adds how many findings the cause has, and their verdicts.
fn push_findings(text: &mut Vec<u8>, tally: &Tally) -> Result<(), AllocError>
    ensures ok { OnOk result (text.new.items ≡ text.old.items ++ findings_part tally.now) }
{
    push(text, b"; ")?;
    push_decimal(text, tally.findings)?;
    push(
        text,
        word_of(tally.findings == 1, b" finding: ", b" findings: "),
    )?;
    push_verdicts(text, &tally.verdicts)
}

/// Adds the line of what is counted of a cause, at a line of the file. `AllocError`: there was no
/// room; the part of the line that had room stays.
pub fn push_total(
    text: &mut Vec<u8>,
    file: &[u8],
    line: u64,
    one: &NumberedTally,
) -> Result<(), AllocError>
    ensures ok { OnOk result (text.new.items ≡ text.old.items
        ++ total_line file.now line one.now) }
{
    push_place(text, file, line)?;
    push_numbered(text, one.number, &one.tally.cause)?;
    push_findings(text, &one.tally)?;
    push(text, b"\n")
}

fn by_test(a: bool, b: bool, otherwise: bool) -> bool
    ensures { result ≡ by_test a b otherwise }
{
    if a == b { otherwise } else { a }
}

fn has_reuse(one: &NumberedTally) -> bool
    ensures { result ≡ has_reuse one.now }
{
    one.tally.verdicts.reuse > 0
}

/// Of what is alike up to there: the best reach first, then more findings.
fn by_reach(a: &NumberedTally, b: &NumberedTally) -> bool
    ensures { result ≡ by_test (has_used a.now) (has_used b.now)
        (by_test (has_reachable a.now) (has_reachable b.now)
        (nat_lt b.now.tally.findings a.now.tally.findings)) }
{
    let otherwise = by_test(
        is_reachable(a.reach),
        is_reachable(b.reach),
        a.tally.findings > b.tally.findings,
    );
    by_test(is_used(a.reach), is_used(b.reach), otherwise)
}

fn comes_before(a: &NumberedTally, b: &NumberedTally) -> bool
    ensures { result ≡ comes_before a.now b.now }
{
    let otherwise = by_test(has_reuse(a), has_reuse(b), by_reach(a, b));
    by_test(!a.tally.cause.global, !b.tally.cause.global, otherwise)
}

/// The place of the first that does not come before this one.
fn place_of(ones: &[NumberedTally], one: &NumberedTally) -> Option<usize>
    ensures { result ≡ position (λ next. not (comes_before next one.now)) ones.now }
{
    ones.iter().position(|next| !comes_before(next, one))
}

/// Puts it in its place among these, which are in order and began later.
fn place(ones: &mut Vec<NumberedTally>, one: NumberedTally) -> Result<(), AllocError>
    ensures { OnOk result (ones.new.items ≡ placed one ones.old.items) }
{
    match place_of(ones.as_slice(), &one) {
        Some(at) => Ok(ones.insert(at, one)?),
        None => Ok(ones.push(one)?),
    }
}

/// With its number, and the best reach of the findings that have the number.
fn numbered(
    alloc: Global,
    founds: &[Found],
    number: u64,
    tally: Tally,
) -> Result<NumberedTally, AllocError>
    ensures { IfOk result (λ one. one ≡ numbered_by founds.now number tally) }
{
    let own = of_cause(alloc, number, founds)?;
    Ok(NumberedTally {
        number,
        reach: best_reach(own.as_slice()),
        tally,
    })
}

/// The tallies, which come in the order in which their causes began, each with its number, in the order
/// of the end: users' pages before the kernel's, then causes with a `reuse` before others, then those
/// with the best reach of these findings, then those with more findings before those with fewer, and
/// else as they came.
pub fn in_order(
    alloc: Global,
    founds: &[Found],
    tallies: &[Tally],
) -> Result<Vec<NumberedTally>, AllocError>
    ensures { IfOk result (λ ones. ones.items ≡ ordered founds.now tallies.now) }
{
    let mut ones = Vec::new(alloc);
    let mut number = tallies.len();
    'last: while number > 0 {
        let tally = tallies[number - 1];
        place(&mut ones, numbered(alloc, founds, number as u64, tally)?)?;
        number -= 1;
    }
    Ok(ones)
}
