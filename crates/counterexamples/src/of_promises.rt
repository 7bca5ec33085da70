//! What the promises refuse, and where they say nothing: Clear, Coherent, used ASIDs and frames,
//! and the order of mailboxes, tried on the histories of worked runs. Each function does nothing,
//! and its clauses are the facts. A number after a history is the place of the order in it, the
//! next the hart.

ghost use Rattle.std.specs.Prelude.{ℕ, [], ◌∷◌, ◌≡◌};
ghost use Rattle.tlb.specs.Mappings.{IsMappedBy, Translates};
ghost use Rattle.history.specs.Harts.{entries_of};
ghost use Rattle.history.specs.Mailboxes.{KeepsOrder, Mailboxes};
ghost use Rattle.history.specs.Occurrences.{NoneAfterClose};
ghost use Rattle.history.specs.Staleness.{Clear, HoldsUsedAsids, WalksUsedFrames};
ghost use Rattle.counterexamples.specs.WorkedRuns.{history_of, huge_page, large_page, small_page, three_harts, two_harts};
ghost use Rattle.counterexamples.specs.WorkedEntries.{entry, global_entry, global_read_only_entry, read_only_entry};
ghost use Rattle.counterexamples.specs.Counterexamples.{ClearAllowsAll, ClearForbids, CoherentAllowsAll, CoherentForbids, UsedAsidsForbid, request_of};
ghost use Rattle.counterexamples.specs.ShootdownRuns as shootdowns;
ghost use Rattle.counterexamples.specs.KernelRuns as kernel;
ghost use Rattle.counterexamples.specs.StalenessRuns as staleness;
ghost use Rattle.counterexamples.specs.MailboxRuns as mailboxes;
ghost use Rattle.counterexamples.specs.RetireRuns as retirements;
ghost use Rattle.counterexamples.specs.UnlawfulRuns as unlawful;
ghost use Rattle.counterexamples.specs.Sv48Runs as sv48;

/// A page of 2 MiB is unmapped, and hart 1 has acknowledged it: its TLB holds neither that page,
/// nor a small page of it, nor a larger page over it, nor a global page in it.
#[tactic(auto, using(crate::proofs::ClearFacts::page_itself, crate::proofs::ClearFacts::last_part, crate::proofs::ClearFacts::larger_page, crate::proofs::ClearFacts::global_part))]
pub fn acknowledged_hart_holds_no_entry_of_the_page()
    ensures page { ClearForbids two_harts (history_of shootdowns.superpage_until_acknowledged) 5 1
        (entry 1 (large_page 0x400000) 0x200) }
    ensures last_part { ClearForbids two_harts (history_of shootdowns.superpage_until_acknowledged)
        5 1 (entry 1 (small_page 0x5ff000) 0x3ff) }
    ensures larger { ClearForbids two_harts (history_of shootdowns.superpage_until_acknowledged) 5 1
        (entry 1 (huge_page 0x0) 0x0) }
    ensures global { ClearForbids two_harts (history_of shootdowns.superpage_until_acknowledged) 5 1
        (global_entry (small_page 0x401000) 0x100) }
{}

/// The hart that asked holds no entry of the page either, once it has acknowledged its own order;
/// nor does hart 1 when the ticket is finished and its number given to another order.
#[tactic(auto, using(crate::proofs::ClearFacts::sender, crate::proofs::ClearFacts::ticket_used_again))]
pub fn each_acknowledged_hart_holds_none()
    ensures sender { ClearForbids two_harts (history_of shootdowns.superpage_shootdown) 5 0
        (entry 1 (large_page 0x400000) 0x200) }
    ensures ticket_used_again { ClearForbids two_harts (history_of shootdowns.ticket_used_again) 5 1
        (entry 1 (large_page 0x400000) 0x200) }
{}

/// Clear lasts until a leaf is mapped in the page: neither a pointer to a new table, nor the same
/// page of another space, nor what is refused ends it.
#[tactic(auto, using(crate::proofs::ClearFacts::pointer_stored, crate::proofs::ClearFacts::other_space, crate::proofs::ClearFacts::refused_changes))]
pub fn no_entry_is_held_until_a_leaf_is_mapped()
    ensures pointer { ClearForbids two_harts (history_of staleness.pointer_stored) 5 1
        (entry 1 (large_page 0x400000) 0x200) }
    ensures other_space { ClearForbids shootdowns.spaces_of_one_home
        (history_of staleness.same_page_of_another_space) 15 1 (entry 1 (small_page 0x1000) 0x100) }
    ensures refused { ClearForbids two_harts (history_of staleness.refused_changes) 5 1
        (entry 1 (large_page 0x400000) 0x200) }
{}

/// Of a kernel page that is unmapped, an acknowledged hart holds no entry: neither a global one,
/// nor one of any ASID.
#[tactic(auto, using(crate::proofs::ClearFacts::kernel_page_global, crate::proofs::ClearFacts::kernel_page_each_asid, crate::proofs::ClearFacts::kernel_page_larger))]
pub fn acknowledged_hart_holds_no_entry_of_a_kernel_page()
    ensures global { ClearForbids kernel.spaces_of_two_homes
        (history_of kernel.kernel_page_until_acknowledged) 10 1
        (global_entry (small_page 0xffffffffc0000000) 0x300) }
    ensures each_asid { (asid : ℕ)
        → ClearForbids kernel.spaces_of_two_homes (history_of kernel.kernel_page_until_acknowledged)
        10 1 (entry asid (small_page 0xffffffffc0000000) 0x300) }
    ensures larger { (asid : ℕ) → ClearForbids kernel.spaces_of_two_homes
        (history_of kernel.kernel_page_until_acknowledged) 10 1
        (entry asid (large_page 0xffffffffc0000000) 0x400) }
{}

/// With Sv48 a page of 512 GiB is unmapped, and hart 1 has acknowledged it: its TLB holds neither
/// that page, nor one of 1 GiB or of 4 KiB in it, nor a global one. And of a page of 4 KiB that is
/// unmapped it does not hold the page of 512 GiB around it.
#[tactic(auto, using(crate::proofs::Sv48Entries::page_itself, crate::proofs::Sv48Entries::last_huge_part, crate::proofs::Sv48Entries::last_small_part, crate::proofs::Sv48Entries::global_part, crate::proofs::Sv48Entries::page_around))]
pub fn acknowledged_hart_holds_no_entry_of_a_terapage()
    ensures page { ClearForbids sv48.two_harts_in_sv48 (history_of sv48.terapage_until_acknowledged)
        3 1 (entry 1 (sv48.terapage 0x8000000000) 0x10000000) }
    ensures huge_part { ClearForbids sv48.two_harts_in_sv48
        (history_of sv48.terapage_until_acknowledged) 3 1
        (entry 1 (huge_page 0xffc0000000) 0x17fc0000) }
    ensures small_part { ClearForbids sv48.two_harts_in_sv48
        (history_of sv48.terapage_until_acknowledged) 3 1
        (entry 1 (small_page 0xfffffff000) 0x17ffffff) }
    ensures global { ClearForbids sv48.two_harts_in_sv48
        (history_of sv48.terapage_until_acknowledged) 3 1
        (global_entry (large_page 0x8000000000) 0x200) }
    ensures around { ClearForbids sv48.two_harts_in_sv48
        (history_of sv48.four_levels_until_acknowledged) 9 1
        (entry 1 (sv48.terapage 0x7f8000000000) 0x10000000) }
{}

/// Clear lets the pages of 1 GiB right before and right behind the page of 512 GiB be held.
#[tactic(auto, using(crate::proofs::Sv48Entries::page_before, crate::proofs::Sv48Entries::page_behind))]
pub fn clear_lets_pages_beside_a_terapage_be_held()
    ensures before { Clear sv48.two_harts_in_sv48 (history_of sv48.terapage_until_acknowledged)
        (entry 1 (huge_page 0x7fc0000000) 0x40000 ∷ []) 3 1 }
    ensures behind { Clear sv48.two_harts_in_sv48 (history_of sv48.terapage_until_acknowledged)
        (entry 1 (huge_page 0x10000000000) 0x40000 ∷ []) 3 1 }
{}

/// Coherent is false of a TLB that holds a small page of the page of 512 GiB where nothing is
/// mapped.
#[tactic(auto, using(crate::proofs::Sv48Entries::nothing_mapped))]
pub fn acknowledged_hart_holds_no_unmapped_part_of_a_terapage()
    ensures { CoherentForbids sv48.two_harts_in_sv48 (history_of sv48.terapage_shootdown) 3 1
        (entry 1 (small_page 0xfffffff000) 0x17ffffff) }
{}

/// Clear says nothing of a hart that has not acknowledged the unmapping, of one that it does not
/// name, of a page in which a leaf was mapped anew, and of a change of flags.
#[tactic(auto, using(crate::proofs::ClearFacts::unacknowledged, crate::proofs::ClearFacts::unnamed, crate::proofs::ClearFacts::mapped_anew, crate::proofs::ClearFacts::protected))]
pub fn clear_says_nothing_here()
    ensures unacknowledged { ClearAllowsAll two_harts
        (history_of shootdowns.superpage_until_service) 5 1 }
    ensures unnamed { ClearAllowsAll two_harts (history_of staleness.unnamed_hart) 5 1 }
    ensures mapped_anew { ClearAllowsAll two_harts (history_of staleness.small_page_mapped_anew) 5
        1 }
    ensures protected { ClearAllowsAll two_harts (history_of staleness.held_read_only) 5 1 }
{}

/// Clear lets the pages right before and right behind the page be held, and the same page of
/// another space.
#[tactic(auto, using(crate::proofs::ClearFacts::page_before, crate::proofs::ClearFacts::page_behind, crate::proofs::ClearFacts::other_asid))]
pub fn clear_lets_other_pages_be_held()
    ensures before { Clear two_harts (history_of shootdowns.superpage_until_acknowledged)
        (entry 1 (small_page 0x3ff000) 0x100 ∷ []) 5 1 }
    ensures behind { Clear two_harts (history_of shootdowns.superpage_until_acknowledged)
        (entry 1 (small_page 0x600000) 0x100 ∷ []) 5 1 }
    ensures other_space { Clear shootdowns.spaces_of_one_home
        (history_of staleness.same_page_of_another_space)
        (entries_of shootdowns.spaces_of_one_home (history_of staleness.same_page_of_another_space)
        1) 15 1 }
{}

/// Where Clear or Coherent says nothing, the hart does translate, in runs of which each reply is
/// due: without being named, once a leaf is mapped anew, in the other space, after a change of
/// flags, before its acknowledgement of one, and after one more change.
#[tactic(auto, using(crate::proofs::StillTranslated::unnamed, crate::proofs::StillTranslated::mapped_anew, crate::proofs::StillTranslated::of_another_space, crate::proofs::StillTranslated::protected, crate::proofs::StillTranslated::unacknowledged, crate::proofs::StillTranslated::protected_once_more, crate::proofs::StillTranslated::unmapped_once_more))]
pub fn such_a_hart_still_translates()
    ensures unnamed { Translates
        (IsMappedBy (entries_of two_harts (history_of staleness.unnamed_hart) 1)) 1 0x400000 }
    ensures mapped_anew { Translates
        (IsMappedBy (entries_of two_harts (history_of staleness.small_page_mapped_anew) 1)) 1
        0x401004 }
    ensures other_space { Translates
        (IsMappedBy (entries_of shootdowns.spaces_of_one_home
        (history_of staleness.same_page_of_another_space) 1)) 2 0x1004 }
    ensures protected { Translates
        (IsMappedBy (entries_of two_harts (history_of staleness.held_read_only) 1)) 1 0x400000 }
    ensures unacknowledged { Translates
        (IsMappedBy (entries_of two_harts (history_of shootdowns.read_only_until_service) 1)) 1
        0x400000 }
    ensures protected_once_more { Translates
        (IsMappedBy (entries_of two_harts (history_of staleness.protected_once_more) 1)) 1
        0x400000 }
    ensures unmapped_once_more { Translates
        (IsMappedBy (entries_of two_harts (history_of staleness.unmapped_once_more) 1)) 1 0x400000 }
{}

/// A hart that has acknowledged a change of flags does not hold the page with the old ones; nor,
/// once it has acknowledged an unmapping, with the old PPN where another is mapped now, nor at all
/// where nothing is mapped, for an ASID or for every one.
#[tactic(auto, using(crate::proofs::CoherentFacts::old_flags, crate::proofs::CoherentFacts::old_ppn, crate::proofs::CoherentFacts::nothing_mapped, crate::proofs::CoherentFacts::global, crate::proofs::CoherentFacts::sender, crate::proofs::CoherentFacts::kernel_page))]
pub fn acknowledged_hart_holds_only_what_is_mapped()
    ensures old_flags { CoherentForbids two_harts
        (history_of shootdowns.read_only_until_acknowledged) 5 1
        (entry 1 (large_page 0x400000) 0x200) }
    ensures old_ppn { CoherentForbids three_harts
        (history_of shootdowns.mapped_anew_until_acknowledged) 7 2
        (read_only_entry 1 (small_page 0x1000) 0x100) }
    ensures nothing_mapped { CoherentForbids two_harts (history_of shootdowns.superpage_shootdown) 5
        1 (entry 1 (large_page 0x400000) 0x200) }
    ensures global { CoherentForbids two_harts (history_of shootdowns.superpage_shootdown) 5 1
        (global_entry (large_page 0x400000) 0x200) }
    ensures sender { CoherentForbids two_harts (history_of shootdowns.superpage_shootdown) 5 0
        (entry 1 (large_page 0x400000) 0x200) }
    ensures kernel_page { (asid : ℕ)
        → CoherentForbids kernel.spaces_of_two_homes
        (history_of kernel.kernel_page_until_acknowledged) 10 1
        (entry asid (small_page 0xffffffffc0000000) 0x300) }
{}

/// A hart that has acknowledged that a page of 2 MiB lost W holds no small page of it with W; and
/// what is mapped for one ASID it does not hold for every one.
#[tactic(auto, using(crate::proofs::CoherentFacts::last_part, crate::proofs::CoherentFacts::for_every_asid))]
pub fn acknowledged_hart_holds_it_as_it_is_mapped()
    ensures for_every_asid { CoherentForbids two_harts
        (history_of shootdowns.read_only_until_acknowledged) 5 1
        (global_read_only_entry (large_page 0x400000) 0x200) }
    ensures last_part { CoherentForbids two_harts
        (history_of shootdowns.read_only_until_acknowledged) 5 1
        (entry 1 (small_page 0x5ff000) 0x3ff) }
{}

/// Coherent lasts until the page is unmapped or changed once more: neither a flush, nor what is
/// refused, nor the same page of another space ends it.
#[tactic(auto, using(crate::proofs::CoherentFacts::flushed, crate::proofs::CoherentFacts::refused_changes, crate::proofs::CoherentFacts::other_space))]
pub fn only_what_is_mapped_is_held_until_a_change()
    ensures flushed { CoherentForbids two_harts (history_of shootdowns.ticket_used_again) 5 1
        (entry 1 (large_page 0x400000) 0x200) }
    ensures refused { CoherentForbids two_harts (history_of staleness.refused_changes) 5 1
        (entry 1 (large_page 0x400000) 0x200) }
    ensures other_space { CoherentForbids shootdowns.spaces_of_one_home
        (history_of staleness.same_page_of_another_space) 15 1
        (read_only_entry 1 (small_page 0x1000) 0x100) }
{}

/// Coherent says nothing of a hart that has not acknowledged the change, of one that it does not
/// name, and of a page that was changed once more.
#[tactic(auto, using(crate::proofs::CoherentFacts::unacknowledged, crate::proofs::CoherentFacts::unnamed, crate::proofs::CoherentFacts::protected_once_more, crate::proofs::CoherentFacts::unmapped_once_more))]
pub fn coherent_says_nothing_here()
    ensures unacknowledged { CoherentAllowsAll two_harts
        (history_of shootdowns.read_only_until_service) 5 1 }
    ensures unnamed { CoherentAllowsAll two_harts (history_of staleness.unnamed_hart) 5 1 }
    ensures protected_once_more { CoherentAllowsAll two_harts
        (history_of staleness.protected_once_more) 5 1 }
    ensures unmapped_once_more { CoherentAllowsAll two_harts
        (history_of staleness.unmapped_once_more) 5 1 }
{}

/// A page of ASID 2 was unmapped, and its space given back. Clear lasts while the page is mapped in
/// the same space for another ASID, and ends once it is mapped for ASID 2 in another space; what is
/// of the other ASID may be held, and is.
#[tactic(auto, using(crate::proofs::RetiredFacts::same_asid_mapped, crate::proofs::RetiredFacts::asid_7_translates))]
pub fn clear_is_for_an_asid()
    ensures other_asid { ClearForbids shootdowns.spaces_of_one_home
        (history_of retirements.orders_keep_their_asid) 11 1 (entry 2 (small_page 0x1000) 0x100) }
    ensures same_asid { ClearAllowsAll shootdowns.spaces_of_one_home
        (history_of retirements.asid_used_again) 3 0 }
    ensures held { Clear shootdowns.spaces_of_one_home
        (history_of retirements.orders_keep_their_asid)
        (entries_of shootdowns.spaces_of_one_home (history_of retirements.orders_keep_their_asid) 1)
        11 1 }
    ensures translates { Translates
        (IsMappedBy (entries_of shootdowns.spaces_of_one_home
        (history_of retirements.orders_keep_their_asid) 1)) 7 0x1004 }
{}

/// Of an ASID that no live or retiring space has, an acknowledged hart holds nothing in the page,
/// though the same space maps it; of one that another space has now it holds what that space maps.
/// Coherent ends with a change of the page for the same ASID alone.
#[tactic(auto, using(crate::proofs::RetiredFacts::asid_of_no_space, crate::proofs::RetiredFacts::old_ppn_of_the_asid, crate::proofs::RetiredFacts::other_asid_changed, crate::proofs::RetiredFacts::same_asid_changed))]
pub fn coherent_is_for_an_asid()
    ensures no_space { CoherentForbids shootdowns.spaces_of_one_home
        (history_of retirements.orders_keep_their_asid) 11 1
        (read_only_entry 2 (small_page 0x1000) 0x101) }
    ensures another_space { CoherentForbids shootdowns.spaces_of_one_home
        (history_of retirements.asid_used_again) 3 0 (read_only_entry 2 (small_page 0x1000) 0x100) }
    ensures other_asid { CoherentForbids shootdowns.spaces_of_one_home
        (history_of retirements.orders_of_the_new_asid) 11 1
        (read_only_entry 2 (small_page 0x1000) 0x101) }
    ensures same_asid { CoherentAllowsAll shootdowns.spaces_of_one_home
        (history_of retirements.unmapped_by_the_new_asid) 3 0 }
{}

/// A hart translates a page of a retiring space, whose ASID is in use, until it serves the request,
/// and then holds nothing; of a free space, or of an ASID that its space no longer has, it may hold
/// nothing. Global entries are of no ASID.
#[tactic(auto, using(crate::proofs::RetiredFacts::retiring_translates, crate::proofs::RetiredFacts::nothing_held, crate::proofs::RetiredFacts::retiring_is_used, crate::proofs::RetiredFacts::global_is_used, crate::proofs::RetiredFacts::free_is_unused, crate::proofs::RetiredFacts::old_asid_is_unused))]
pub fn used_asids_are_those_of_live_and_retiring_spaces()
    ensures translates { Translates
        (IsMappedBy (entries_of shootdowns.spaces_of_one_home
        (history_of retirements.retired_until_service) 1)) 2 0x1004 }
    ensures acknowledged { entries_of shootdowns.spaces_of_one_home
        (history_of retirements.retired_until_acknowledged) 1 ≡ [] }
    ensures retiring { HoldsUsedAsids shootdowns.spaces_of_one_home
        (history_of retirements.retired_until_service)
        (read_only_entry 2 (small_page 0x1000) 0x100 ∷ []) }
    ensures global { HoldsUsedAsids shootdowns.spaces_of_one_home
        (history_of retirements.retired_and_given_back)
        (global_entry (small_page 0xffffffffc0000000) 0x300 ∷ []) }
    ensures free { UsedAsidsForbid shootdowns.spaces_of_one_home
        (history_of retirements.retired_and_given_back)
        (read_only_entry 2 (small_page 0x1000) 0x100) }
    ensures no_more { UsedAsidsForbid shootdowns.spaces_of_one_home
        (history_of retirements.orders_keep_their_asid)
        (read_only_entry 2 (small_page 0x1000) 0x100) }
{}

/// WalksUsedFrames is false of runs, none of them lawful, in which a space is retired or given back
/// while a hart walks in it, or a walk comes to a frame that was not answered as a new table.
#[tactic(auto, using(crate::proofs::RetiredFacts::walk_of_a_retiring_space, crate::proofs::RetiredFacts::walk_of_a_free_space, crate::proofs::RetiredFacts::walk_to_an_unused_frame))]
pub fn walks_use_frames_of_live_spaces()
    ensures retiring { ¬ WalksUsedFrames shootdowns.spaces_of_one_home
        (history_of unlawful.retired_in_mid_walk) 1 }
    ensures free { ¬ WalksUsedFrames shootdowns.spaces_of_one_home
        (history_of unlawful.given_back_in_mid_walk) 1 }
    ensures unused_frame { ¬ WalksUsedFrames shootdowns.spaces_of_one_home
        (history_of unlawful.one_frame_for_two_spaces) 1 }
{}

/// Of three accepted requests the first was taken. A mailbox in which the other two wait in the
/// order of the posts keeps its order; with them swapped, with either lost, with one doubled, with
/// the taken one back, or with one more it does not, nor does the mailbox of the other direction
/// with them.
#[tactic(auto, using(crate::proofs::MailboxFacts::kept, crate::proofs::MailboxFacts::swapped, crate::proofs::MailboxFacts::first_lost, crate::proofs::MailboxFacts::last_lost, crate::proofs::MailboxFacts::doubled, crate::proofs::MailboxFacts::back_again, crate::proofs::MailboxFacts::never_posted, crate::proofs::MailboxFacts::other_direction))]
pub fn mailbox_keeps_each_request_once_and_in_order()
    ensures kept { KeepsOrder mailboxes.mailboxes_of_two (history_of mailboxes.two_requests_wait) 0
        1 (request_of 1 ∷ request_of 2 ∷ []) }
    ensures swapped { ¬ KeepsOrder mailboxes.mailboxes_of_two
        (history_of mailboxes.two_requests_wait) 0 1 (request_of 2 ∷ request_of 1 ∷ []) }
    ensures first_lost { ¬ KeepsOrder mailboxes.mailboxes_of_two
        (history_of mailboxes.two_requests_wait) 0 1 (request_of 2 ∷ []) }
    ensures last_lost { ¬ KeepsOrder mailboxes.mailboxes_of_two
        (history_of mailboxes.two_requests_wait) 0 1 (request_of 1 ∷ []) }
    ensures doubled { ¬ KeepsOrder mailboxes.mailboxes_of_two
        (history_of mailboxes.two_requests_wait) 0 1
        (request_of 1 ∷ request_of 1 ∷ request_of 2 ∷ []) }
    ensures back_again { ¬ KeepsOrder mailboxes.mailboxes_of_two
        (history_of mailboxes.two_requests_wait) 0 1
        (request_of 0 ∷ request_of 1 ∷ request_of 2 ∷ []) }
    ensures never_posted { ¬ KeepsOrder mailboxes.mailboxes_of_two
        (history_of mailboxes.two_requests_wait) 0 1
        (request_of 1 ∷ request_of 2 ∷ request_of 3 ∷ []) }
    ensures other_direction { ¬ KeepsOrder mailboxes.mailboxes_of_two
        (history_of mailboxes.two_requests_wait) 1 0 (request_of 1 ∷ request_of 2 ∷ []) }
{}

/// Mailboxes is false of runs, none of them lawful, in which the second request is taken first, the
/// first one twice, or one that was never posted.
#[tactic(auto, using(crate::proofs::MailboxFacts::out_of_order, crate::proofs::MailboxFacts::twice, crate::proofs::MailboxFacts::nothing_there))]
pub fn mailboxes_give_out_what_was_accepted()
    ensures out_of_order { ¬ Mailboxes two_harts (history_of unlawful.taken_out_of_order) }
    ensures twice { ¬ Mailboxes two_harts (history_of unlawful.taken_twice) }
    ensures never_posted { ¬ Mailboxes two_harts (history_of unlawful.taken_of_nothing) }
{}

/// NoneAfterClose is false of a run, not lawful, in which a Post is accepted after the Close of its
/// pair, also when it is taken later. A Close of the other direction is no Close of the pair.
#[tactic(auto, using(crate::proofs::MailboxFacts::after_close, crate::proofs::MailboxFacts::after_close_and_taken, crate::proofs::MailboxFacts::other_closed))]
pub fn closed_mailbox_accepts_nothing()
    ensures after { ¬ NoneAfterClose (history_of unlawful.posted_after_close) 0 1 }
    ensures taken_later { ¬ NoneAfterClose (history_of unlawful.posted_after_close_and_taken) 0 1 }
    ensures other_direction { NoneAfterClose (history_of unlawful.posted_after_close_of_the_other) 0
        1 }
{}
