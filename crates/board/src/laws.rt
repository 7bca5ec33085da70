//! What the definitions of this crate say of a worked row. The function does nothing, and its
//! clause is the fact.

ghost use Rattle.std.specs.Prelude.{◌≡◌, [], ◌∷◌};
ghost use Rattle.board.specs.Promises.{AcceptedOrdersBegin, AcceptedUnmappingIsLive, CallsKeepUnmapping, DoneUnmappingIsGone, ServingDropsThePage, TranslateNoneHoldsNone, UnmappingOpens};
ghost use Rattle.board.specs.Calls.{EachCallKeepsUnmapping};
ghost use Rattle.board.specs.Collects.{LooksInOrder};
ghost use Rattle.board.specs.Ports.{NewPortsHaveDoneNothing};
ghost use Rattle.board.specs.Reports.{CountsAddUp, pairs_of};
ghost use Rattle.board.specs.Together.{CollectedIsGoneFromTlbs, CollectedTlbsHoldOnlySince, DoneIsGoneFromTlbs};

/// The pairs of three harts, in the order of a report.
pub fn pairs_of_three_harts()
    ensures { pairs_of 3 3 ≡ (0, 1) ∷ (0, 2) ∷ (1, 0) ∷ (1, 2) ∷ (2, 0) ∷ (2, 1) ∷ [] }
{}

/// An unmapping that is accepted leaves under its ticket an open order that is live, of that page
/// of that place, which is what clause `clean` of `collect` speaks of. No cell is armed for it yet, and no hart
/// is collected.
pub fn accepted_unmapping_is_live()
    ensures { AcceptedUnmappingIsLive }
{}

/// An edit of flags that is accepted leaves under its ticket an open order of that page, which begins
/// with its store, and a flush one of its scope, which begins with what was stored before it: what
/// the part `since` of clause `clean` of `collect` speaks of.
pub fn accepted_orders_begin()
    ensures { AcceptedOrdersBegin }
{}

/// An unmapping that is accepted opens a ticket for it that names the harts that were asked for, and
/// so it stays through `post`, `ack_self` and `collect`: what clause `clean` of `collect` asks for.
/// So it stays through every call of the port, as clause `call` of each says, but a `finish` of the
/// ticket once it is done, and a `map_step` that stores a leaf over the page in the same place.
/// Once it is done, the page is gone from the shared words and from the harts that were named.
pub fn unmapping_stays_open()
    ensures opens { UnmappingOpens }
    ensures stays { CallsKeepUnmapping }
    ensures through_calls { EachCallKeepsUnmapping }
    ensures done { DoneUnmappingIsGone }
{}

/// Where a home has unmapped a page, and another port of its board serves a request for what that
/// asks, this port's own TLB translates no address of the page then: not by an entry of a larger
/// page, and not by a global one.
pub fn serving_drops_the_page()
    ensures { ServingDropsThePage }
{}

/// A TLB that translates no address of a page of a place, as clause `clean` of `collect` says, holds no entry
/// for the place that overlaps the page: none of that page, of a part of it or of a larger page
/// over it, and no global one.
pub fn translate_none_holds_none()
    ensures { TranslateNoneHoldsNone }
{}

/// The counts of a report are of the requests that were taken, and of those that wait beside them.
pub fn counts_add_up()
    ensures { CountsAddUp }
{}

/// A new port is one of the layout that the board was opened with, and has done nothing.
pub fn new_ports_have_done_nothing()
    ensures { NewPortsHaveDoneNothing }
{}

/// A look for acknowledgements goes from hart to hart, the lowest first, once to each.
pub fn looks_in_order()
    ensures { LooksInOrder }
{}

/// Where ports share a state, as clause `together` of `HartPort::meet` and of `Board::close` says, and
/// one of them was answered Done for an unmapping, no TLB of a port whose hart was named translates an
/// address of the page, until a leaf is mapped over it. And of any order the TLB of a hart that was
/// collected holds only what was mapped since.
pub fn done_is_gone_from_tlbs()
    ensures named { DoneIsGoneFromTlbs }
    ensures collected { CollectedIsGoneFromTlbs }
    ensures since { CollectedTlbsHoldOnlySince }
{}
