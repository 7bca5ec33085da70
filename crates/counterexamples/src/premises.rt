//! The premises of the laws can be met, by worked runs: so the laws say something.

ghost use Rattle.std.specs.Prelude.{◌≡◌, false, true, None, Some};
ghost use Rattle.history.specs.Due.{Lawful};
ghost use Rattle.history.specs.Orders.{Protected, Unmapped};
ghost use Rattle.history.specs.Staleness.{HasAnswered, is_mapped_anew, is_superseded};
ghost use Rattle.counterexamples.specs.WorkedRuns.{history_of, large_page, small_page, two_harts};
ghost use Rattle.counterexamples.specs.KernelRuns as kernel;
ghost use Rattle.counterexamples.specs.ShootdownRuns as shootdowns;
ghost use Rattle.counterexamples.specs.RetireRuns as retirements;
ghost use Rattle.history.specs.Spaces.{Retires, status_of};
ghost use Rattle.history.specs.Acknowledgements.{is_acked};
ghost use Rattle.laws.specs.Kept.{HavePages, IsSetup};

/// The harts of the worked runs make setups: two harts in one space, and two spaces at home on two
/// harts or on one.
pub fn setups_are_met()
    ensures one_space { IsSetup two_harts }
    ensures two_spaces { IsSetup kernel.spaces_of_two_homes }
    ensures one_home { IsSetup shootdowns.spaces_of_one_home }
{}

/// What Clear asks of a history is met by a shootdown of a page of 2 MiB: it is lawful, its events
/// speak of pages, and hart 1 has answered the unmapping, which stands at place 5 and is not
/// followed by a Map.
pub fn premises_of_clear_are_met()
    ensures lawful { Lawful two_harts (history_of shootdowns.superpage_shootdown) }
    ensures pages { HavePages (history_of shootdowns.superpage_shootdown) }
    ensures answered { HasAnswered two_harts (history_of shootdowns.superpage_shootdown) 5 1
        (Unmapped (Some 1) (large_page 0x400000)) }
    ensures not_anew { is_mapped_anew two_harts (history_of shootdowns.superpage_shootdown) 5
        ≡ false }
{}

/// What Clear asks is met of a kernel page too, whose unmapping stands at place 10.
pub fn premises_of_clear_are_met_by_a_kernel_page()
    ensures lawful { Lawful kernel.spaces_of_two_homes
        (history_of kernel.kernel_page_outlives_an_asid_fence) }
    ensures pages { HavePages (history_of kernel.kernel_page_outlives_an_asid_fence) }
    ensures answered { HasAnswered kernel.spaces_of_two_homes
        (history_of kernel.kernel_page_outlives_an_asid_fence) 10 1
        (Unmapped None (small_page 0xffffffffc0000000)) }
    ensures not_anew { is_mapped_anew kernel.spaces_of_two_homes
        (history_of kernel.kernel_page_outlives_an_asid_fence) 10 ≡ false }
{}

/// What Coherent asks is met by a page of 2 MiB that loses W.
pub fn premises_of_coherent_are_met()
    ensures lawful { Lawful two_harts (history_of shootdowns.superpage_made_read_only) }
    ensures pages { HavePages (history_of shootdowns.superpage_made_read_only) }
    ensures answered { HasAnswered two_harts (history_of shootdowns.superpage_made_read_only) 5 1
        (Protected (Some 1) (large_page 0x400000)) }
    ensures not_superseded { is_superseded two_harts
        (history_of shootdowns.superpage_made_read_only) 5 ≡ false }
{}

/// What is asked of a retiring space is met by space 1, whose retirement stands at place 11: hart 1
/// has acknowledged it.
pub fn premises_of_a_retiring_space_are_met()
    ensures lawful { Lawful shootdowns.spaces_of_one_home
        (history_of retirements.retired_until_acknowledged) }
    ensures pages { HavePages (history_of retirements.retired_until_acknowledged) }
    ensures retiring { status_of (history_of retirements.retired_until_acknowledged) 1
        ≡ Retires 11 }
    ensures acked { is_acked shootdowns.spaces_of_one_home
        (history_of retirements.retired_until_acknowledged) 11 1 ≡ true }
{}

/// What Clear and Coherent ask is met of an unmapping, at place 11, whose space was given back
/// since, and created with another ASID.
pub fn premises_of_clear_are_met_by_a_space_created_anew()
    ensures lawful { Lawful shootdowns.spaces_of_one_home
        (history_of retirements.orders_keep_their_asid) }
    ensures pages { HavePages (history_of retirements.orders_keep_their_asid) }
    ensures answered { HasAnswered shootdowns.spaces_of_one_home
        (history_of retirements.orders_keep_their_asid) 11 1
        (Unmapped (Some 2) (small_page 0x1000)) }
    ensures not_anew { is_mapped_anew shootdowns.spaces_of_one_home
        (history_of retirements.orders_keep_their_asid) 11 ≡ false }
    ensures not_superseded { is_superseded shootdowns.spaces_of_one_home
        (history_of retirements.orders_keep_their_asid) 11 ≡ false }
{}
