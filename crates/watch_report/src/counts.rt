//! The last line, with the counts of the verdicts.
ghost use Rattle.std.specs.Fmt.{decimal};
ghost use Rattle.std.specs.Prelude.{◌≡◌, ◌==◌, ◌++◌, ◌&&◌, OnOk, codes, if◌then◌else◌, map, true};
ghost use Rattle.watch_report.specs.Warnings.{all_counts, comma_text, count_text, counted_text, design_text, findings_text, verdict_counts_text, summary_line, printed_count, sum_of, total_text, wrong_text};

use crate::push::{push, push_decimal, push_wide_decimal};
use std::alloc::AllocError;

/// How often each verdict was given.
#[derive(Clone, Copy, PartialEq, Eq, Debug, Default)]
pub struct VerdictCounts {
    pub free: u64,
    pub reuse: u64,
    pub claimed: u64,
    pub used: u64,
}

/// A verdict as it is printed, and how often it was given.
#[derive(Clone, Copy)]
pub struct Count {
    pub name: &'static [u8],
    pub number: u64,
}

/// How often the verdict of this name was given.
pub fn count_of(name: &'static [u8], number: u64) -> Count
    ensures { printed_count result ≡ (name.now, number) }
{
    Count { name, number }
}

pub(crate) fn push_comma(text: &mut Vec<u8>, is_first: bool) -> Result<(), AllocError>
    ensures ok { OnOk result (text.new.items ≡ text.old.items ++ comma_text is_first) }
{
    if is_first { Ok(()) } else { push(text, b", ") }
}

/// Adds a count that is not 0.
fn push_count(text: &mut Vec<u8>, is_first: bool, count: &Count) -> Result<(), AllocError>
    ensures ok { OnOk result (text.new.items ≡ text.old.items
        ++ count_text is_first (printed_count count.now)) }
{
    if count.number == 0 {
        return Ok(());
    }
    push_comma(text, is_first)?;
    push(text, count.name)?;
    push(text, b" ")?;
    push_decimal(text, count.number)
}

/// Whether no count is printed yet, after one more.
fn is_none_yet(is_first: bool, count: &Count) -> bool
    ensures { result ≡ (is_first && (count.now.number == 0)) }
{
    is_first && count.number == 0
}

/// Adds the counts that are not 0, with commas between them.
pub fn push_counts(text: &mut Vec<u8>, counts: &[Count]) -> Result<(), AllocError>
    ensures ok { OnOk result (text.new.items ≡ text.old.items
        ++ verdict_counts_text true (map printed_count counts.now)) }
{
    let mut is_first = true;
    for count in counts {
        push_count(text, is_first, count)?;
        is_first = is_none_yet(is_first, count);
    }
    Ok(())
}

/// Adds the counts that are not 0, of users' translations and then of the kernel's.
fn push_all_counts(
    text: &mut Vec<u8>,
    user: &VerdictCounts,
    kernel: &VerdictCounts,
) -> Result<(), AllocError>
    ensures ok { OnOk result (text.new.items ≡ text.old.items
        ++ verdict_counts_text true (all_counts user.now kernel.now)) }
{
    let counts = [
        count_of(b"free", user.free),
        count_of(b"reuse", user.reuse),
        count_of(b"claim", user.claimed),
        count_of(b"use", user.used),
        count_of(b"kernel-free", kernel.free),
        count_of(b"kernel-reuse", kernel.reuse),
        count_of(b"kernel-claim", kernel.claimed),
        count_of(b"kernel-use", kernel.used),
    ];
    push_counts(text, &counts)
}

impl VerdictCounts {
    /// How many verdicts were given.
    pub fn sum(&self) -> u128
        ensures { result ≡ sum_of self.now }
    {
        u128::from(self.free)
            + u128::from(self.reuse)
            + u128::from(self.claimed)
            + u128::from(self.used)
    }
}

/// The word behind a count: `one` behind 1, else `more`.
pub fn word_of(is_one: bool, one: &'static [u8], more: &'static [u8]) -> &'static [u8]
    ensures { result.now ≡ (if is_one then one.now else more.now) }
{
    if is_one { one } else { more }
}

/// Adds how many verdicts there were, and how many of each kind.
fn push_verdict_total(
    text: &mut Vec<u8>,
    user: &VerdictCounts,
    kernel: &VerdictCounts,
) -> Result<(), AllocError>
    ensures ok { OnOk result (text.new.items ≡ text.old.items
        ++ total_text user.now kernel.now) }
{
    let total = user.sum() + kernel.sum();
    if total == 0 {
        push(text, b"no verdict")
    } else {
        push_wide_decimal(text, total)?;
        push(text, word_of(total == 1, b" verdict: ", b" verdicts: "))?;
        push_all_counts(text, user, kernel)
    }
}

fn push_line(text: &mut Vec<u8>, line: u64) -> Result<(), AllocError>
    ensures ok { OnOk result (text.new.items ≡ text.old.items
        ++ codes " before line " ++ decimal line) }
{
    push(text, b" before line ")?;
    push_decimal(text, line)
}

/// Adds the number of the line that is wrong, if one is.
fn push_wrong(text: &mut Vec<u8>, wrong: Option<u64>) -> Result<(), AllocError>
    ensures ok { OnOk result (text.new.items ≡ text.old.items ++ wrong_text wrong) }
{
    match wrong {
        None => Ok(()),
        Some(line) => push_line(text, line),
    }
}

/// Adds how many findings there are.
pub(crate) fn push_findings(text: &mut Vec<u8>, findings: u64) -> Result<(), AllocError>
    ensures ok { OnOk result (text.new.items ≡ text.old.items ++ findings_text findings) }
{
    if findings == 0 {
        return push(text, b"no finding");
    }
    push_decimal(text, findings)?;
    push(text, word_of(findings == 1, b" finding", b" findings"))
}

fn push_design_count(text: &mut Vec<u8>, findings: u64) -> Result<(), AllocError>
    ensures ok { OnOk result (text.new.items ≡ text.old.items
        ++ codes "; " ++ findings_text findings ++ codes " by design") }
{
    push(text, b"; ")?;
    push_findings(text, findings)?;
    push(text, b" by design")
}

/// Adds how many findings are by design, if a list says so of some.
fn push_design(text: &mut Vec<u8>, design: Option<u64>) -> Result<(), AllocError>
    ensures ok { OnOk result (text.new.items ≡ text.old.items ++ design_text design) }
{
    match design {
        None => Ok(()),
        Some(findings) => push_design_count(text, findings),
    }
}

/// Adds how many records there are.
fn push_records(text: &mut Vec<u8>, records: u64) -> Result<(), AllocError>
    ensures ok { OnOk result (text.new.items ≡ text.old.items
        ++ counted_text records (codes " record") (codes " records")) }
{
    push_decimal(text, records)?;
    push(text, word_of(records == 1, b" record", b" records"))
}

/// Adds the last line: how many records there were, before which line of the trace if that is wrong,
/// how many verdicts of each kind on translations of users and on the kernel's, global ones, and how
/// many findings are by design, where a list says so of some. `AllocError`: there was no room; the part
/// of the line that had room stays.
pub fn push_summary(
    text: &mut Vec<u8>,
    records: u64,
    wrong: Option<u64>,
    user: &VerdictCounts,
    kernel: &VerdictCounts,
    design: Option<u64>,
) -> Result<(), AllocError>
    ensures ok { OnOk result (text.new.items ≡ text.old.items
        ++ summary_line records wrong user.now kernel.now design) }
{
    push_records(text, records)?;
    push_wrong(text, wrong)?;
    push(text, b", ")?;
    push_verdict_total(text, user, kernel)?;
    push_design(text, design)?;
    push(text, b"\n")
}
