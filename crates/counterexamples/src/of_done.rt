//! What a Done forbids, and where it says nothing, computed from the histories of worked runs. Each
//! function does nothing, and its clauses are the facts. A number after a history is the place of
//! the order in it, the next the hart.

ghost use Rattle.std.specs.Prelude.{ℕ, Some};
ghost use Rattle.history.specs.Completion.{IsDoneFor};
ghost use Rattle.counterexamples.specs.WorkedEntries.{entry, global_entry};
ghost use Rattle.counterexamples.specs.ServiceRuns.{spaces_of_other_asids};
ghost use Rattle.counterexamples.specs.ServiceRuns as services;
ghost use Rattle.counterexamples.specs.ShootdownRuns as shootdowns;
ghost use Rattle.counterexamples.specs.StalenessRuns as staleness;
ghost use Rattle.counterexamples.specs.WorkedRuns.{history_of, huge_page, large_page, small_page, two_harts};
ghost use Rattle.counterexamples.specs.DoneCounterexamples.{DoneAllowsAll, DoneForbids};

/// What ClearOnceDone asks of a history is met by a shootdown of a page of 2 MiB, of both harts
/// that it names.
#[tactic(auto, using(crate::proofs::DoneFacts::sender_done, crate::proofs::DoneFacts::other_done))]
pub fn premises_of_done_are_met()
    ensures sender { IsDoneFor two_harts (history_of shootdowns.superpage_shootdown) 5 0 (Some 1)
        (large_page 0x400000) }
    ensures other { IsDoneFor two_harts (history_of shootdowns.superpage_shootdown) 5 1 (Some 1)
        (large_page 0x400000) }
{}

/// A page of 2 MiB was unmapped and its order answered Done: neither hart holds the page, a small
/// page of it, a larger page over it or a global page in it; also when the number of the ticket was
/// given to the next order.
#[tactic(auto, using(crate::proofs::DoneFacts::sender, crate::proofs::DoneFacts::page_itself, crate::proofs::DoneFacts::last_part, crate::proofs::DoneFacts::larger_page, crate::proofs::DoneFacts::global_part, crate::proofs::DoneFacts::ticket_used_again))]
pub fn no_named_hart_holds_the_page_once_done()
    ensures sender { DoneForbids two_harts (history_of shootdowns.superpage_shootdown) 5 0
        (entry 1 (large_page 0x400000) 0x200) }
    ensures page { DoneForbids two_harts (history_of shootdowns.superpage_shootdown) 5 1
        (entry 1 (large_page 0x400000) 0x200) }
    ensures last_part { DoneForbids two_harts (history_of shootdowns.superpage_shootdown) 5 1
        (entry 1 (small_page 0x5ff000) 0x3ff) }
    ensures larger { DoneForbids two_harts (history_of shootdowns.superpage_shootdown) 5 1
        (entry 1 (huge_page 0x0) 0x0) }
    ensures global { DoneForbids two_harts (history_of shootdowns.superpage_shootdown) 5 1
        (global_entry (small_page 0x401000) 0x100) }
    ensures ticket_used_again { DoneForbids two_harts (history_of shootdowns.ticket_used_again) 5 1
        (entry 1 (large_page 0x400000) 0x200) }
{}

/// Of a kernel page it holds neither a global entry nor one of any ASID.
pub fn no_named_hart_holds_a_kernel_page_once_done()
    ensures global { DoneForbids spaces_of_other_asids
        (history_of services.own_acknowledgement_of_a_kernel_page) 30 0
        (global_entry (small_page 0xffffffffc0000000) 0x300) }
    ensures each_asid { (asid : ℕ)
        → DoneForbids spaces_of_other_asids
        (history_of services.own_acknowledgement_of_a_kernel_page) 30 0
        (entry asid (small_page 0xffffffffc0000000) 0x300) }
{}

/// It says nothing before the order was answered Done, and nothing of a hart that the order does
/// not name.
pub fn done_says_nothing_here()
    ensures not_done { DoneAllowsAll two_harts (history_of shootdowns.superpage_until_acknowledged)
        5 1 }
    ensures unnamed { DoneAllowsAll two_harts (history_of staleness.unnamed_hart) 5 1 }
{}
