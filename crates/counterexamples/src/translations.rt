//! Worked runs of what a TLB answers and keeps: accesses of each kind, and what stays once a
//! request is served. Each function does nothing, and its clause is the fact.

ghost use Rattle.counterexamples.specs.ServiceRuns.{spaces_of_other_asids};
ghost use Rattle.counterexamples.specs.ServiceRuns as services;
ghost use Rattle.counterexamples.specs.ShootdownRuns.{spaces_of_one_home};
ghost use Rattle.counterexamples.specs.TranslationRuns as translations;
ghost use Rattle.counterexamples.specs.WorkedRuns.{IsRun, one_hart, three_harts, two_harts};

/// A page of 1 GiB is filled by one load, and each address of it hits.
#[tactic(auto, using(crate::proofs::TranslationRows::page_of_one_gib))]
pub fn page_of_one_gib()
    ensures { IsRun two_harts translations.page_of_one_gib }
{}

/// A fetch walks to code and fills it. The flags of the match answer from then on: what they refuse
/// traps without a walk, and with MXR a load of code hits.
#[tactic(auto, using(crate::proofs::TranslationRows::code_fetched))]
pub fn code_fetched()
    ensures { IsRun two_harts translations.code_fetched }
{}

/// A load walks to code and is refused without MXR; with it the load fills what a fetch then hits.
#[tactic(auto, using(crate::proofs::TranslationRows::code_loaded))]
pub fn code_loaded()
    ensures { IsRun one_hart translations.code_loaded }
{}

/// S-mode reaches data of a user with SUM alone, by a walk and by a match; a store is refused where
/// D is clear, by a match too.
#[tactic(auto, using(crate::proofs::TranslationRows::user_data_by_supervisor))]
pub fn user_data_by_supervisor()
    ensures { IsRun two_harts translations.user_data_by_supervisor }
{}

/// A leaf whose A is clear is never filled.
#[tactic(auto, using(crate::proofs::TranslationRows::page_not_accessed))]
pub fn page_not_accessed()
    ensures { IsRun one_hart translations.page_not_accessed }
{}

/// Under Sv48 a page of 512 GiB is one leaf in the root, a page of 4 KiB lies below three tables,
/// and addresses have 48 bits.
#[tactic(auto, using(crate::proofs::TranslationRows::pages_of_sv48))]
pub fn pages_of_sv48()
    ensures { IsRun translations.one_hart_of_sv48 translations.pages_of_sv48 }
{}

/// Each hart is in the space of its own last accepted switch; a fence that is refused drops
/// nothing.
#[tactic(auto, using(crate::proofs::TranslationRows::spaces_of_each_hart))]
pub fn spaces_of_each_hart()
    ensures { IsRun spaces_of_one_home translations.spaces_of_each_hart }
{}

/// What one hart fills in the middle of another's walk the other does not hold; and an address that
/// is not canonical traps by the access.
#[tactic(auto, using(crate::proofs::TranslationRows::walks_of_two_harts))]
pub fn walks_of_two_harts()
    ensures { IsRun two_harts translations.walks_of_two_harts }
{}

/// A hart that serves the request for a page of a space drops that page, and no other page, nor the
/// same one of another space, nor a kernel page.
#[tactic(auto, using(crate::proofs::ServiceRows::service_of_a_page))]
pub fn service_of_a_page()
    ensures { IsRun spaces_of_other_asids services.service_of_a_page }
{}

/// One that serves the request for a kernel page drops that page alone.
#[tactic(auto, using(crate::proofs::ServiceRows::service_of_a_kernel_page))]
pub fn service_of_a_kernel_page()
    ensures { IsRun spaces_of_other_asids services.service_of_a_kernel_page }
{}

/// One that serves the request for a space drops the pages of that space alone.
#[tactic(auto, using(crate::proofs::ServiceRows::service_of_a_space))]
pub fn service_of_a_space()
    ensures { IsRun spaces_of_other_asids services.service_of_a_space }
{}

/// One that serves the request for all drops all that it holds.
#[tactic(auto, using(crate::proofs::ServiceRows::service_of_all))]
pub fn service_of_all()
    ensures { IsRun spaces_of_other_asids services.service_of_all }
{}

/// A hart that acknowledges its own unmapping drops that page alone, and no other hart drops
/// anything.
#[tactic(auto, using(crate::proofs::ServiceRows::own_acknowledgement_of_a_page))]
pub fn own_acknowledgement_of_a_page()
    ensures { IsRun spaces_of_other_asids services.own_acknowledgement_of_a_page }
{}

/// The same of a kernel page.
#[tactic(auto, using(crate::proofs::ServiceRows::own_acknowledgement_of_a_kernel_page))]
pub fn own_acknowledgement_of_a_kernel_page()
    ensures { IsRun spaces_of_other_asids services.own_acknowledgement_of_a_kernel_page }
{}

/// The same of a space.
#[tactic(auto, using(crate::proofs::ServiceRows::own_acknowledgement_of_a_space))]
pub fn own_acknowledgement_of_a_space()
    ensures { IsRun spaces_of_other_asids services.own_acknowledgement_of_a_space }
{}

/// The same of all.
#[tactic(auto, using(crate::proofs::ServiceRows::own_acknowledgement_of_all))]
pub fn own_acknowledgement_of_all()
    ensures { IsRun spaces_of_other_asids services.own_acknowledgement_of_all }
{}

/// Two harts serve one order: the fence of the one is no fence of the other.
#[tactic(auto, using(crate::proofs::ServiceRows::two_harts_serve))]
pub fn two_harts_serve()
    ensures { IsRun three_harts services.two_harts_serve }
{}

/// An edit that is refused leaves the page mapped.
#[tactic(auto, using(crate::proofs::ServiceRows::refused_unmapping))]
pub fn refused_unmapping()
    ensures { IsRun two_harts services.refused_unmapping }
{}
