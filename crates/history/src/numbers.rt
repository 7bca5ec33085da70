//! The number of each refusal, one equation each. Programs may store these numbers, so none ever
//! changes.

ghost use Rattle.std.specs.Prelude.{◌≡◌};
ghost use Rattle.history.specs.Numbers.{code_of};
ghost use Rattle.history.specs.declared.refusal.Refusal.TheVariants.{AlreadyMapped, AlreadyPosted, AsidInUse, BadFlags, Closed, Empty, Full, HomeNotNamed, InUse, LeafInWay, Misaligned, NoFrame, NoHart, NoSpace, NoTicket, NotAcked, NotDone, NotFenced, NotFree, NotHome, NotMapped, NotNamed, NotOpen, NotRetiring, NotServing, NotWalking, PpnTooLarge, Retiring, Serving, TableInWay, Walking, WrongHalf, WrongSize};

/// The numbers of what does not exist, of edits and of openings, 1 to 15.
pub fn numbers_of_edits_and_openings()
    ensures no_hart { code_of NoHart ≡ 1 }
    ensures no_space { code_of NoSpace ≡ 2 }
    ensures not_home { code_of NotHome ≡ 3 }
    ensures wrong_half { code_of WrongHalf ≡ 4 }
    ensures bad_flags { code_of BadFlags ≡ 5 }
    ensures ppn_too_large { code_of PpnTooLarge ≡ 6 }
    ensures misaligned { code_of Misaligned ≡ 7 }
    ensures already_mapped { code_of AlreadyMapped ≡ 8 }
    ensures leaf_in_way { code_of LeafInWay ≡ 9 }
    ensures table_in_way { code_of TableInWay ≡ 10 }
    ensures no_frame { code_of NoFrame ≡ 11 }
    ensures not_mapped { code_of NotMapped ≡ 12 }
    ensures wrong_size { code_of WrongSize ≡ 13 }
    ensures home_not_named { code_of HomeNotNamed ≡ 14 }
    ensures no_ticket { code_of NoTicket ≡ 15 }
{}

/// Those of tickets, mailboxes and harts, 16 to 27.
pub fn numbers_of_tickets_and_harts()
    ensures not_open { code_of NotOpen ≡ 16 }
    ensures not_named { code_of NotNamed ≡ 17 }
    ensures already_posted { code_of AlreadyPosted ≡ 18 }
    ensures closed { code_of Closed ≡ 19 }
    ensures full { code_of Full ≡ 20 }
    ensures empty { code_of Empty ≡ 21 }
    ensures walking { code_of Walking ≡ 22 }
    ensures not_walking { code_of NotWalking ≡ 23 }
    ensures serving { code_of Serving ≡ 24 }
    ensures not_serving { code_of NotServing ≡ 25 }
    ensures not_fenced { code_of NotFenced ≡ 26 }
    ensures not_done { code_of NotDone ≡ 27 }
{}

/// Those of spaces that are retired, given back and created, 28 to 33.
pub fn numbers_of_spaces()
    ensures retiring { code_of Retiring ≡ 28 }
    ensures in_use { code_of InUse ≡ 29 }
    ensures not_acked { code_of NotAcked ≡ 30 }
    ensures not_retiring { code_of NotRetiring ≡ 31 }
    ensures not_free { code_of NotFree ≡ 32 }
    ensures asid_in_use { code_of AsidInUse ≡ 33 }
{}
