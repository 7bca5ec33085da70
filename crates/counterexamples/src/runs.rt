//! Worked runs: the definitions give the replies that the manual and docs/PROTOCOL.md give by hand.
//! Each function does nothing, and its clause is the fact. More such runs are cases of
//! `svsim_examples`: the program is proved to print the replies that are due.

ghost use Rattle.std.specs.Prelude.{ℕ, List, map, ◌≡◌, ◌<◌, ◌+◌, ◌*◌};
ghost use Rattle.pte.specs.declared.address.PageSize.TheVariants.{Kib4, Mib2, Gib512};
ghost use Rattle.pte.specs.Address.{Holds, bytes_of, pages_of};
ghost use Rattle.tlb.specs.Mappings.{IsMappedBy, Translates};
ghost use Rattle.spaces.specs.declared.configuration.Config.{Config};
ghost use Rattle.history.specs.Setup.{Setup, setup_of};
ghost use Rattle.std.specs.List.{range_with_len};
ghost use Rattle.history.specs.Numbers.{code_of};
ghost use Rattle.history.specs.Due.{Lawful};
ghost use Rattle.history.specs.Harts.{entries_of};
ghost use Rattle.counterexamples.specs.WorkedRuns.{IsOfThreeHarts, IsRun, Step, history_of, large_page, three_harts, two_harts};
ghost use Rattle.counterexamples.specs.ShootdownRuns as shootdowns;
ghost use Rattle.counterexamples.specs.StalenessRuns as staleness;
ghost use Rattle.counterexamples.specs.KernelRuns as kernel;
ghost use Rattle.counterexamples.specs.MailboxRuns as mailboxes;
ghost use Rattle.counterexamples.specs.RefusalRuns as refusals;
ghost use Rattle.counterexamples.specs.RetireRuns as retirements;
ghost use Rattle.counterexamples.specs.Sv48Runs as sv48;

/// The setup of the worked runs of three harts is that of a configuration with these numbers.
#[tactic(auto, using(crate::proofs::SetupFacts::three_harts_are_configured))]
pub fn three_harts_are_configured()
    ensures { (c : Config) → IsOfThreeHarts c → setup_of c ≡ three_harts }
{}

/// The steps of a worked run make a lawful history.
#[tactic(auto, using(crate::proofs::RunsAreLawful::lawful_run))]
pub fn run_is_lawful()
    ensures { (setup : Setup) (steps : List Step)
        → IsRun setup steps → Lawful setup (history_of steps) }
{}

/// A page of 2 MiB is unmapped while another hart holds it: the hart uses it until it serves the
/// request, and not after.
#[tactic(auto, using(crate::proofs::ShootdownRows::superpage_shootdown))]
pub fn superpage_shootdown()
    ensures { IsRun two_harts shootdowns.superpage_shootdown }
{}

/// Before its service of the request the hart translates each of the 512 small pages of the page;
/// once it has acknowledged, no address of the page, also when the number of the ticket was given
/// to the next order.
pub fn superpage_is_translated_until_service()
    ensures before { (k : ℕ) → k < pages_of Mib2
        → Translates (IsMappedBy (entries_of two_harts
        (history_of shootdowns.superpage_until_service) 1)) 1 (0x400000 + k * bytes_of Kib4) }
    ensures acknowledged { (va : ℕ) → Holds (large_page 0x400000) va
        → ¬ Translates (IsMappedBy (entries_of two_harts
        (history_of shootdowns.superpage_until_acknowledged) 1)) 1 va }
    ensures ticket_used_again { (va : ℕ) → Holds (large_page 0x400000) va
        → ¬ Translates (IsMappedBy (entries_of two_harts (history_of shootdowns.ticket_used_again)
        1)) 1 va }
{}

/// The number of a finished ticket is given to the next order.
#[tactic(auto, using(crate::proofs::ShootdownRows::ticket_used_again))]
pub fn ticket_used_again()
    ensures { IsRun two_harts shootdowns.ticket_used_again }
{}

/// A page is unmapped between two loads of a walk: the next load sees it, and the hart takes no
/// request before.
#[tactic(auto, using(crate::proofs::ShootdownRows::unmapped_in_mid_walk))]
pub fn unmapped_in_mid_walk()
    ensures { IsRun two_harts shootdowns.unmapped_in_mid_walk }
{}

/// A page is mapped anew before a named hart served the request of its unmapping: that hart uses
/// the old translation until then, and the new one after.
#[tactic(auto, using(crate::proofs::ShootdownRows::mapped_anew_before_service))]
pub fn mapped_anew_before_service()
    ensures { IsRun three_harts shootdowns.mapped_anew_before_service }
{}

/// A page loses W while another hart holds it: the hart stores to it until it serves the request,
/// and not after.
#[tactic(auto, using(crate::proofs::ShootdownRows::superpage_made_read_only))]
pub fn superpage_made_read_only()
    ensures { IsRun two_harts shootdowns.superpage_made_read_only }
{}

/// The request for a space drops what a hart holds of that space, and nothing of another.
#[tactic(auto, using(crate::proofs::ShootdownRows::space_flush))]
pub fn space_flush()
    ensures { IsRun shootdowns.spaces_of_one_home shootdowns.space_flush }
{}

/// What is refused neither maps a page anew nor changes it once more.
#[tactic(auto, using(crate::proofs::StalenessRows::refused_changes))]
pub fn refused_changes()
    ensures { IsRun two_harts staleness.refused_changes }
{}

/// A hart that an unmapping does not name uses the page, also once the ticket is finished.
#[tactic(auto, using(crate::proofs::StalenessRows::unnamed_hart))]
pub fn unnamed_hart()
    ensures { IsRun two_harts staleness.unnamed_hart }
{}

/// A small page is mapped in an unmapped page of 2 MiB: a hart that has acknowledged the unmapping
/// walks to it.
#[tactic(auto, using(crate::proofs::StalenessRows::small_page_mapped_anew))]
pub fn small_page_mapped_anew()
    ensures { IsRun two_harts staleness.small_page_mapped_anew }
{}

/// The request for a page of one space leaves the same page of another space.
#[tactic(auto, using(crate::proofs::StalenessRows::same_page_of_another_space))]
pub fn same_page_of_another_space()
    ensures { IsRun shootdowns.spaces_of_one_home staleness.same_page_of_another_space }
{}

/// A page that a hart filled after its acknowledgement is changed once more: the hart uses what it
/// holds.
#[tactic(auto, using(crate::proofs::StalenessRows::protected_once_more, crate::proofs::StalenessRows::unmapped_once_more))]
pub fn changed_once_more()
    ensures protected { IsRun two_harts staleness.protected_once_more }
    ensures unmapped { IsRun two_harts staleness.unmapped_once_more }
{}

/// A kernel page is found in every space. It outlives a fence for its address and an ASID, and goes
/// by the request for the kernel page.
#[tactic(auto, using(crate::proofs::KernelRows::kernel_page_outlives_an_asid_fence))]
pub fn kernel_page_outlives_an_asid_fence()
    ensures { IsRun kernel.spaces_of_two_homes kernel.kernel_page_outlives_an_asid_fence }
{}

/// A full mailbox has room again only when an acknowledgement is collected, it keeps its order, and
/// a closed one gives out what waits and accepts nothing.
#[tactic(auto, using(crate::proofs::MailboxRows::bound_order_and_close))]
pub fn bound_order_and_close()
    ensures { IsRun mailboxes.mailboxes_of_two mailboxes.bound_order_and_close }
{}

/// A mailbox is closed in the middle of a shootdown: what was posted is served and finished, what
/// was not stays open.
#[tactic(auto, using(crate::proofs::MailboxRows::close_in_mid_shootdown))]
pub fn close_in_mid_shootdown()
    ensures { IsRun two_harts mailboxes.close_in_mid_shootdown }
{}

/// Of several refusals the first is answered: what does not exist, and what a hart may not do while
/// it walks or serves.
#[tactic(auto, using(crate::proofs::RefusalRows::refusals_in_order))]
pub fn refusals_in_order()
    ensures { IsRun two_harts refusals.refusals_in_order }
{}

/// That a hart is there is asked before all else, be the space that the step names live, retiring or
/// free. No file can say these steps.
#[tactic(auto, using(crate::proofs::RefusalRows::no_such_hart))]
pub fn refused_to_no_hart()
    ensures { IsRun shootdowns.spaces_of_one_home refusals.no_such_hart }
{}

/// The refusals are numbered from 1 on.
#[tactic(auto, using(crate::proofs::RefusalRows::numbered))]
pub fn refusals_are_numbered()
    ensures { map code_of refusals.numbered_refusals ≡ range_with_len 1 33 }
{}

/// A space is retired once no hart is in it, and given back once each hart is collected; it is
/// created again, and its frames are used again.
#[tactic(auto, using(crate::proofs::RetireRows::retired_until_acknowledged, crate::proofs::RetireRows::retired_and_created_anew))]
pub fn retired_and_created_anew()
    ensures until_acknowledged { IsRun shootdowns.spaces_of_one_home
        retirements.retired_until_acknowledged }
    ensures anew { IsRun shootdowns.spaces_of_one_home retirements.retired_and_created_anew }
{}

/// The ASID of a space that was given back goes to another space, which then unmaps the page again.
#[tactic(auto, using(crate::proofs::RetireRows::unmapped_by_the_new_asid))]
pub fn asid_used_again()
    ensures { IsRun shootdowns.spaces_of_one_home retirements.unmapped_by_the_new_asid }
{}

/// With Sv48 a page of 512 GiB is one leaf of the root, which one load reads. It is unmapped while
/// another hart holds it: the hart uses all of it until it serves the request, and not after.
#[tactic(auto, using(crate::proofs::Sv48Rows::terapage_shootdown))]
pub fn terapage_shootdown()
    ensures { IsRun sv48.two_harts_in_sv48 sv48.terapage_shootdown }
{}

/// Before its service of the request the hart translates each of the 2^27 small pages of that page,
/// and once it has acknowledged none.
pub fn terapage_is_translated_until_service()
    ensures before { (k : ℕ) → k < pages_of Gib512
        → Translates (IsMappedBy (entries_of sv48.two_harts_in_sv48
        (history_of sv48.terapage_until_service) 1)) 1 (0x8000000000 + k * bytes_of Kib4) }
    ensures acknowledged { (asid va : ℕ)
        → ¬ Translates (IsMappedBy (entries_of sv48.two_harts_in_sv48
        (history_of sv48.terapage_until_acknowledged) 1)) asid va }
{}

/// A page of 4 KiB of Sv48 has three tables between the root and its leaf: four stores map it, and
/// four loads find it.
#[tactic(auto, using(crate::proofs::Sv48Rows::shootdown_over_four_levels))]
pub fn shootdown_over_four_levels()
    ensures { IsRun sv48.two_harts_in_sv48 sv48.shootdown_over_four_levels }
{}

/// A page that does not fit the scheme, by its size or its address, is in neither half. No file can
/// say these steps.
#[tactic(auto, using(crate::proofs::Sv48Rows::pages_that_do_not_fit, crate::proofs::Sv48Rows::page_that_does_not_fit_sv48))]
pub fn pages_that_do_not_fit()
    ensures sv39 { IsRun two_harts sv48.pages_that_do_not_fit }
    ensures sv48 { IsRun sv48.two_harts_in_sv48 sv48.page_that_does_not_fit_sv48 }
{}

/// An order is for the ASID that its space had when it was opened, also once the space was created
/// again with another one.
#[tactic(auto, using(crate::proofs::RetireRows::orders_keep_their_asid, crate::proofs::RetireRows::orders_of_the_new_asid))]
pub fn orders_keep_their_asid()
    ensures until_served { IsRun shootdowns.spaces_of_one_home retirements.orders_keep_their_asid }
    ensures of_the_new_asid { IsRun shootdowns.spaces_of_one_home
        retirements.orders_of_the_new_asid }
{}
