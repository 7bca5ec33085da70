//! The order of the verdicts at a record.
ghost use Rattle.std.specs.Prelude.{◌≡◌};
ghost use Rattle.std.specs.List.Sorted.{IsPermutation};
ghost use Rattle.watch_causes.specs.Findings.{verdict_number};
ghost use Rattle.watch_report.specs.Orders.{IsInOrder, order_key};

use watch::Verdict;
use watch_engine::Warning;

fn verdict_number(verdict: Verdict) -> u64
    ensures { result ≡ verdict_number verdict }
{
    match verdict {
        Verdict::Free => 0,
        Verdict::Reuse => 1,
        Verdict::Claimed => 2,
        Verdict::Used => 3,
    }
}

/// What the order goes by.
#[tactic(auto, unfolding(crate::specs::Orders::order_key))]
fn order_key(warning: &Warning) -> [u64; 12]
    ensures { result ≡ order_key warning.now }
{
    let entry = &warning.entry;
    let (page, flags) = (&entry.page, entry.flags);
    [
        u64::from(warning.hart),
        page.base().get(),
        u64::from(page.size().level()),
        entry.ppn,
        u64::from(flags.is_user()),
        u64::from(flags.may_execute()),
        u64::from(flags.may_write()),
        u64::from(flags.may_read()),
        u64::from(entry.global),
        verdict_number(warning.verdict),
        warning.root,
        u64::from(entry.asid),
    ]
}

/// Puts the verdicts of a record in order: by hart, page, PPN, rights, owner, kind, root and ASID.
pub(crate) fn put_in_order(warnings: &mut Vec<Warning>)
    ensures permutation { IsPermutation warnings.old.items warnings.new.items }
    ensures order { IsInOrder warnings.new.items }
{
    if warnings.len() > 1 {
        warnings.sort_unstable_by_key(order_key);
    }
}
