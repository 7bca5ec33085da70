//! What the statements of the headline refuse: machines of two harts, and histories, of which they
//! are false. Each function does nothing, and its clauses are the facts.

ghost use Rattle.std.specs.Prelude.{[], ◌++◌, ◌∷◌, ◌≡◌, List, None, Some};
ghost use Rattle.history.specs.declared.event.Event.TheVariants.{Load, ServeFence};
ghost use Rattle.history.specs.declared.refusal.Refusal.TheVariants.{NotServing, NotWalking};
ghost use Rattle.history.specs.declared.reply.Reply.{Reply};
ghost use Rattle.history.specs.declared.reply.Reply.TheVariants as reply;
ghost use Rattle.history.specs.Turns.{History};
ghost use Rattle.counterexamples.specs.WorkedEntries.{entry, global_entry, global_read_only_entry, read_only_entry};
ghost use Rattle.counterexamples.specs.Counterexamples.{request_of};
ghost use Rattle.counterexamples.specs.MailboxRuns as mailboxes;
ghost use Rattle.counterexamples.specs.RetireRuns as retirements;
ghost use Rattle.counterexamples.specs.ShootdownRuns as shootdowns;
ghost use Rattle.counterexamples.specs.UnlawfulRuns as unlawful;
ghost use Rattle.counterexamples.specs.WorkedRuns.{events, history_after, history_of, large_page, replies, small_page, Step, two_harts};
ghost use Rattle.counterexamples.specs.MachineCounterexamples.{NoneIsCoherent, machine_holding, machine_in, machine_walking, machine_with};
ghost use Rattle.stepcore.specs.Runs.{after_run, AreDue, HartsAreInLiveSpaces, IsClear, IsClearOnceDone, IsCoherent, MailboxesKeepOrder, NothingAfterCloses, TlbsHoldUsedAsids, WalksHoldUsedFrames};

/// Once both harts have acknowledged the unmapping of a page of 2 MiB, no machine is clear in which
/// either holds the page, and none in which hart 1 holds a small page or a global page of it; also
/// when the ticket's number was given to another order.
pub fn clear_is_of_each_hart_and_entry()
    ensures sender { ¬ IsClear two_harts (history_of shootdowns.superpage_shootdown)
        (machine_holding (entry 1 (large_page 0x400000) 0x200 ∷ []) []) }
    ensures other { ¬ IsClear two_harts (history_of shootdowns.superpage_until_acknowledged)
        (machine_holding [] (entry 1 (large_page 0x400000) 0x200 ∷ [])) }
    ensures youngest { ¬ IsClear two_harts (history_of shootdowns.superpage_until_acknowledged)
        (machine_holding [] (entry 1 (small_page 0x1000) 0x100 ∷ entry 1 (small_page 0x5ff000) 0x3ff
        ∷ [])) }
    ensures global { ¬ IsClear two_harts (history_of shootdowns.superpage_until_acknowledged)
        (machine_holding [] (global_entry (small_page 0x401000) 0x100 ∷ [])) }
    ensures ticket_used_again { ¬ IsClear two_harts (history_of shootdowns.ticket_used_again)
        (machine_holding [] (entry 1 (large_page 0x400000) 0x200 ∷ [])) }
{}

/// The same once the order was answered Done.
pub fn clear_once_done_is_of_each_hart()
    ensures sender { ¬ IsClearOnceDone two_harts (history_of shootdowns.superpage_shootdown)
        (machine_holding (entry 1 (large_page 0x400000) 0x200 ∷ []) []) }
    ensures other { ¬ IsClearOnceDone two_harts (history_of shootdowns.superpage_shootdown)
        (machine_holding [] (entry 1 (large_page 0x400000) 0x200 ∷ [])) }
    ensures ticket_used_again { ¬ IsClearOnceDone two_harts
        (history_of shootdowns.ticket_used_again)
        (machine_holding [] (entry 1 (large_page 0x400000) 0x200 ∷ [])) }
{}

/// No machine that has the words of its history is coherent in which a hart holds a page with the
/// flags that it lost, or for every ASID what is mapped for one, or anything where nothing is mapped;
/// and none whose own words don't map what a hart holds, though those of its history do.
pub fn coherent_is_of_each_hart_and_entry()
    ensures old_flags { NoneIsCoherent two_harts (history_of shootdowns.read_only_until_acknowledged)
        [] (entry 1 (large_page 0x400000) 0x200 ∷ []) }
    ensures last_part { NoneIsCoherent two_harts (history_of shootdowns.read_only_until_acknowledged)
        [] (read_only_entry 1 (small_page 0x1000) 0x100 ∷ entry 1 (small_page 0x5ff000) 0x3ff ∷ []) }
    ensures for_every_asid { NoneIsCoherent two_harts
        (history_of shootdowns.read_only_until_acknowledged)
        [] (global_read_only_entry (large_page 0x400000) 0x200 ∷ []) }
    ensures nothing_mapped { NoneIsCoherent two_harts (history_of shootdowns.superpage_shootdown)
        [] (entry 1 (large_page 0x400000) 0x200 ∷ []) }
    ensures sender { NoneIsCoherent two_harts (history_of shootdowns.superpage_shootdown)
        (entry 1 (large_page 0x400000) 0x200 ∷ []) [] }
    ensures ticket_used_again { NoneIsCoherent two_harts (history_of shootdowns.ticket_used_again)
        [] (entry 1 (large_page 0x400000) 0x200 ∷ []) }
    ensures own_words { ¬ IsCoherent two_harts (history_of shootdowns.read_only_until_acknowledged)
        (machine_holding [] (read_only_entry 1 (large_page 0x400000) 0x200 ∷ [])) }
{}

/// Of three accepted requests from hart 0 to hart 1 the first was taken: a machine keeps the order
/// of its mailboxes in which the other two wait, in their order, and nothing from hart 1 to hart 0;
/// and none other does.
pub fn order_is_of_each_mailbox()
    ensures kept { MailboxesKeepOrder mailboxes.mailboxes_of_two
        (history_of mailboxes.two_requests_wait)
        (machine_with (request_of 1 ∷ request_of 2 ∷ []) []) }
    ensures swapped { ¬ MailboxesKeepOrder mailboxes.mailboxes_of_two
        (history_of mailboxes.two_requests_wait)
        (machine_with (request_of 2 ∷ request_of 1 ∷ []) []) }
    ensures first_lost { ¬ MailboxesKeepOrder mailboxes.mailboxes_of_two
        (history_of mailboxes.two_requests_wait) (machine_with (request_of 2 ∷ []) []) }
    ensures last_lost { ¬ MailboxesKeepOrder mailboxes.mailboxes_of_two
        (history_of mailboxes.two_requests_wait) (machine_with (request_of 1 ∷ []) []) }
    ensures all_lost { ¬ MailboxesKeepOrder mailboxes.mailboxes_of_two
        (history_of mailboxes.two_requests_wait) (machine_with [] []) }
    ensures doubled { ¬ MailboxesKeepOrder mailboxes.mailboxes_of_two
        (history_of mailboxes.two_requests_wait)
        (machine_with (request_of 1 ∷ request_of 1 ∷ request_of 2 ∷ []) []) }
    ensures back_again { ¬ MailboxesKeepOrder mailboxes.mailboxes_of_two
        (history_of mailboxes.two_requests_wait)
        (machine_with (request_of 0 ∷ request_of 1 ∷ request_of 2 ∷ []) []) }
    ensures never_posted { ¬ MailboxesKeepOrder mailboxes.mailboxes_of_two
        (history_of mailboxes.two_requests_wait)
        (machine_with (request_of 1 ∷ request_of 2 ∷ request_of 3 ∷ []) []) }
    ensures other_direction { ¬ MailboxesKeepOrder mailboxes.mailboxes_of_two
        (history_of mailboxes.two_requests_wait)
        (machine_with (request_of 1 ∷ request_of 2 ∷ []) (request_of 1 ∷ [])) }
{}

/// A history in which a mailbox accepted a request after its close, also one that was taken later.
pub fn nothing_is_accepted_after_any_close()
    ensures after { ¬ NothingAfterCloses two_harts (history_of unlawful.posted_after_close) }
    ensures taken_later { ¬ NothingAfterCloses two_harts
        (history_of unlawful.posted_after_close_and_taken) }
    ensures other_direction { ¬ NothingAfterCloses two_harts
        (history_of unlawful.posted_after_close_from_1) }
{}

/// After a run the history has one turn more for each appended reply: the events in their order,
/// each with its own reply, on top of the turns before, whatever replies stood in the list before.
/// Events without a reply add none.
pub fn run_adds_a_turn_for_each_reply()
    ensures { (steps more : List Step) (old : List Reply) (history : History)
        → after_run (events (steps ++ more)) old (old ++ replies steps) history
        ≡ history_after history steps }
{}

/// Of two events that are refused, each for a reason of its own, both replies are due in their
/// order, and so is the first alone; not the other alone, nor the two the other way round, nor one
/// of them and the first once more, nor a third.
pub fn replies_are_due_in_order()
    ensures both { AreDue two_harts [] (Load 0 ∷ ServeFence 0 ∷ [])
        (reply.Refused NotWalking ∷ reply.Refused NotServing ∷ []) }
    ensures first { AreDue two_harts [] (Load 0 ∷ ServeFence 0 ∷ [])
        (reply.Refused NotWalking ∷ []) }
    ensures other { ¬ AreDue two_harts [] (Load 0 ∷ ServeFence 0 ∷ [])
        (reply.Refused NotServing ∷ []) }
    ensures swapped { ¬ AreDue two_harts [] (Load 0 ∷ ServeFence 0 ∷ [])
        (reply.Refused NotServing ∷ reply.Refused NotWalking ∷ []) }
    ensures twice { ¬ AreDue two_harts [] (Load 0 ∷ ServeFence 0 ∷ [])
        (reply.Refused NotWalking ∷ reply.Refused NotWalking ∷ []) }
    ensures third { ¬ AreDue two_harts [] (Load 0 ∷ ServeFence 0 ∷ [])
        (reply.Refused NotWalking ∷ reply.Refused NotServing ∷ reply.Ok ∷ []) }
{}

/// Once space 1 was given back, no hart may hold an entry of its ASID, at any place of its TLB.
/// Before that one may, and afterwards entries of the other space's ASID, or global ones.
pub fn used_asids_are_of_each_hart_and_entry()
    ensures before { TlbsHoldUsedAsids shootdowns.spaces_of_one_home []
        (machine_holding [] (entry 2 (small_page 0x1000) 0x100 ∷ [])) }
    ensures kept { TlbsHoldUsedAsids shootdowns.spaces_of_one_home
        (history_of retirements.retired_and_given_back)
        (machine_holding (entry 1 (small_page 0x1000) 0x100 ∷ [])
        (global_entry (small_page 0x1000) 0x100 ∷ [])) }
    ensures sender { ¬ TlbsHoldUsedAsids shootdowns.spaces_of_one_home
        (history_of retirements.retired_and_given_back)
        (machine_holding (entry 2 (small_page 0x1000) 0x100 ∷ []) []) }
    ensures other { ¬ TlbsHoldUsedAsids shootdowns.spaces_of_one_home
        (history_of retirements.retired_and_given_back)
        (machine_holding [] (entry 2 (small_page 0x1000) 0x100 ∷ [])) }
    ensures youngest { ¬ TlbsHoldUsedAsids shootdowns.spaces_of_one_home
        (history_of retirements.retired_and_given_back)
        (machine_holding [] (entry 1 (small_page 0x1000) 0x100
        ∷ entry 2 (small_page 0x1000) 0x100 ∷ [])) }
{}

/// No hart may be in a space that retires or is free.
pub fn live_spaces_are_of_each_hart()
    ensures before { HartsAreInLiveSpaces shootdowns.spaces_of_one_home [] (machine_in 1 1) }
    ensures kept { HartsAreInLiveSpaces shootdowns.spaces_of_one_home
        (history_of retirements.retired_and_given_back) (machine_in 0 0) }
    ensures sender { ¬ HartsAreInLiveSpaces shootdowns.spaces_of_one_home
        (history_of retirements.retired_and_given_back) (machine_in 1 0) }
    ensures other { ¬ HartsAreInLiveSpaces shootdowns.spaces_of_one_home
        (history_of retirements.retired_and_given_back) (machine_in 0 1) }
    ensures retiring { ¬ HartsAreInLiveSpaces shootdowns.spaces_of_one_home
        (history_of retirements.retired_until_acknowledged) (machine_in 0 1) }
{}

/// No walk of a hart may have come to a spare frame that is in use for no place, be it the hart's
/// own or another's; to one that is in use it may.
pub fn used_frames_are_of_each_hart_and_home()
    ensures kept { WalksHoldUsedFrames two_harts (history_of shootdowns.map_superpage)
        (machine_walking None (Some 0x80002)) }
    ensures own { ¬ WalksHoldUsedFrames two_harts [] (machine_walking (Some 0x80002) None) }
    ensures of_the_other { ¬ WalksHoldUsedFrames two_harts []
        (machine_walking (Some 0x8000a) None) }
    ensures last_of_the_other { ¬ WalksHoldUsedFrames two_harts []
        (machine_walking None (Some 0x80009)) }
    ensures last_own { ¬ WalksHoldUsedFrames two_harts [] (machine_walking None (Some 0x80011)) }
{}
