//! How often each verdict was given.
ghost use Rattle.std.specs.Prelude.{◌≡◌, ◌+◌, false, true, nat_lt, IfOk, IfErr, OnOk};
ghost use Rattle.watch_report.specs.Warnings.{sum_of};
ghost use Rattle.watch_report.specs.declared.reading_fault.ReadingFault.TheVariants.{NoMemory};
ghost use Rattle.watch_report.specs.VerdictLines.{counted, counts_after, with_verdict};

use crate::counts::VerdictCounts;
use crate::reading_fault::ReadingFault;
use watch::Verdict;
use watch_engine::Warning;

/// Refused where the count has no room in 64 bits.
pub fn one_more(count: u64) -> Result<u64, ReadingFault>
    ensures ok { IfOk result (λ more. more ≡ count + 1) }
    ensures err { IfErr result (λ fault. fault ≡ NoMemory) }
{
    match count.checked_add(1) {
        Some(more) => Ok(more),
        None => Err(ReadingFault::NoMemory),
    }
}

fn add_verdict(counts: &mut VerdictCounts, verdict: Verdict) -> Result<(), ReadingFault>
    ensures ok { OnOk result (counts.new ≡ with_verdict verdict counts.old) }
    ensures err { IfErr result (λ fault. fault ≡ NoMemory) }
{
    match verdict {
        Verdict::Free => counts.free = one_more(counts.free)?,
        Verdict::Reuse => counts.reuse = one_more(counts.reuse)?,
        Verdict::Claimed => counts.claimed = one_more(counts.claimed)?,
        Verdict::Used => counts.used = one_more(counts.used)?,
    }
    Ok(())
}

fn count_warning(
    user: &mut VerdictCounts,
    kernel: &mut VerdictCounts,
    warning: &Warning,
) -> Result<(), ReadingFault>
    ensures user { OnOk result (user.new ≡ counted false warning.now user.old) }
    ensures kernel { OnOk result (kernel.new ≡ counted true warning.now kernel.old) }
    ensures err { IfErr result (λ fault. fault ≡ NoMemory) }
{
    if warning.entry.global {
        add_verdict(kernel, warning.verdict)
    } else {
        add_verdict(user, warning.verdict)
    }
}

/// Counts each of the warnings, of users' translations and of the kernel's.
pub fn count_warnings(
    user: &mut VerdictCounts,
    kernel: &mut VerdictCounts,
    warnings: &[Warning],
) -> Result<(), ReadingFault>
    ensures user { OnOk result (user.new ≡ counts_after false user.old warnings.now) }
    ensures kernel { OnOk result (kernel.new ≡ counts_after true kernel.old warnings.now) }
    ensures err { IfErr result (λ fault. fault ≡ NoMemory) }
{
    for warning in warnings {
        count_warning(user, kernel, warning)?;
    }
    Ok(())
}

/// Whether some verdict was counted.
pub fn has_verdicts(user: VerdictCounts, kernel: VerdictCounts) -> bool
    ensures { result ≡ nat_lt 0 (sum_of user + sum_of kernel) }
{
    user.sum() + kernel.sum() > 0
}
