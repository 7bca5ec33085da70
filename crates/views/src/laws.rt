//! Laws of the rule: functions that do nothing, whose contracts are the laws.

ghost use Rattle.std.specs.Prelude.{◌≡◌, ℕ, Some};
ghost use mathlib.Core.Option.{some};
ghost use lib.ListN.{get_elem?};
ghost use Rattle.atomic_table.specs.Table.{State};
ghost use Rattle.walk.specs.Stage.{OnPath, Stage};
ghost use Rattle.spaces.specs.declared.configuration.Config.{Config};
ghost use Rattle.spaces.specs.Layout.{layout_of};
ghost use Rattle.spaces.specs.Holders.{Holders};
ghost use Rattle.spaces.specs.Tree.{IsAtHome, IsTree};
ghost use Rattle.views.specs.declared.view.View.{View};
ghost use Rattle.views.specs.Rule.{Has, tables_in};
ghost use Rattle.views.specs.Board.{AcknowledgedHoldsSince, AcknowledgedIsClean, Board, CollectedHoldsSince, CollectedIsClean, EqualWordsAskForEqualService, IsAsSaid, LeavesAreAligned, LeavesAreGlobalInWindow, MappingsAreGlobalInWindow, SeatsAreNumbered, StoresOverwriteNoPointer, UnmappedIsWhereNoLeafLeads, UnmappedOnBoardIsWhereNoLeafLeads, UnmappedStaysUnmapped, own_words, shared_words};
ghost use Rattle.views.specs.Lasting.{CellsAreApart, CellsMeet, EachEditIsOneStore, EachSpaceAtHomeIsReadBack, EditsKeepOrders, EditsMarkNothing, KernelIsInEverySpace, MarkedByALeafOver, NothingStoredSince, OnlyEditsStore, OrdersBegin, StepsKeepOrders, StepsMarkNothing, TranslatesNoneHoldsNone, UnmappingBeginsLive, WalkAnswersAsComputed, WrongAddressChangesNothing};
ghost use Rattle.views.specs.Reads.{EachReadIsOfAnOwnLoad, WalkRecordsWhatItsLoadFound};

/// Once a hart was collected for an unmapping whose page is not mapped anew, what it filled
/// translates no address of the page in any address space of the place.
pub fn collected_is_clean()
    ensures { CollectedIsClean }
{}

/// While an unmapping in a home's view is not marked anew, nothing that the home's words map from a
/// root of its place, or the shared words, lies in its page.
pub fn unmapped_page_stays_unmapped()
    ensures own { UnmappedStaysUnmapped own_words }
    ensures shared { UnmappedStaysUnmapped shared_words }
{}

/// A leaf of the table words, and a mapping that a hart holds, is global exactly in the window.
pub fn window_is_global()
    ensures leaves { LeavesAreGlobalInWindow }
    ensures mappings { MappingsAreGlobalInWindow }
{}

/// That nothing in a page is mapped is that no leaf leads at an address of the page: in words that
/// are a tree, so in a home's own words and in the shared words.
pub fn unmapped_is_where_no_leaf_leads()
    ensures tree { UnmappedIsWhereNoLeafLeads }
    ensures own { UnmappedOnBoardIsWhereNoLeafLeads own_words }
    ensures shared { UnmappedOnBoardIsWhereNoLeafLeads shared_words }
{}

/// Each leaf that leads from the root of a space in the shared words is aligned, so no walk of them
/// comes to a leaf that raises a page fault as misaligned.
pub fn leaves_are_aligned()
    ensures { LeavesAreAligned }
{}

/// Once a cell that was armed for an unmapping has the word of what it asks, the receiver's entries
/// translate no address of the page, until it is mapped anew.
pub fn acknowledged_is_clean()
    ensures { AcknowledgedIsClean }
{}

/// Once a cell that was armed for an order, be it an unmapping, a protect or a flush, has the word of
/// what it asks to drop, the receiver holds of that, from places at home on the sender, only what
/// the sender's words mapped since the order began. An acknowledgement of an older order would break
/// this.
#[tactic(auto, using(crate::proofs::Collected::acknowledged_holds_since))]
pub fn acknowledged_holds_since()
    ensures { AcknowledgedHoldsSince }
{}

/// So it is once the hart was collected for the order, also when the ticket is used again.
#[tactic(auto, using(crate::proofs::Collected::collected_holds_since))]
pub fn collected_holds_since()
    ensures { CollectedHoldsSince }
{}

/// An order begins under its ticket with no cell armed and no hart collected: that of an unmapping
/// or a protect with the store that it follows, and that of a flush at once.
pub fn orders_begin()
    ensures { OrdersBegin }
{}

/// Where a home stored nothing since an order began, its words since then are those of now.
#[tactic(auto, using(crate::proofs::Lasting::nothing_stored_since))]
pub fn nothing_stored_since()
    ensures { NothingStoredSince }
{}

/// Requests whose acknowledgement words are equal ask for equal service: an acknowledgement that
/// was meant for another request says as much.
#[tactic(auto, using(crate::proofs::Collected::equal_service))]
pub fn equal_words_ask_for_equal_service()
    ensures { EqualWordsAskForEqualService }
{}

/// Each table word is as its home's view says, or as at the opening where its home has no seat yet.
pub fn each_table_word_is_as_its_home_says()
    ensures { (c : Config) (s : State ℕ View) → Board c s → (h f i : ℕ) → IsAtHome (layout_of c) h f
        → IsAsSaid c s h f i }
{}

/// The table words are a tree, as those of any table memory: pointers lead down level by level, to
/// each table one; the window's slots of each root are as at the opening, and its other upper slots
/// are 0; unused spare frames are 0, and nothing points to them; leaves are aligned, and global
/// exactly in the window.
pub fn table_words_are_a_tree()
    ensures { (c : Config) (s : State ℕ View) → Board c s
        → (holders : Holders) × IsTree (layout_of c) (tables_in (layout_of c) s.words) holders }
{}

/// A walk in flight stands on the path that the table words lead to now, and each word that it read
/// stands there still.
pub fn walk_in_flight_leads()
    ensures path { (c : Config) (s : State ℕ View) → Board c s → (j : ℕ) (v : View) (st : Stage)
        → get_elem? s.views j ≡ some v → v.walk ≡ Some st
        → OnPath c.scheme (tables_in (layout_of c) s.words) v.root st }
    ensures reads { (c : Config) (s : State ℕ View) → Board c s → (j : ℕ) (v : View) (st : Stage)
        → get_elem? s.views j ≡ some v → v.walk ≡ Some st
        → Has (tables_in (layout_of c) s.words) v.reads }
{}

/// An unmapping begins an order under its ticket that is live: it speaks of that page of that
/// place, is not marked anew, and has no armed cell and no collected hart. The orders before it
/// stay as they are.
pub fn unmapping_begins_live()
    ensures { UnmappingBeginsLive }
{}

/// No step marks an order anew but the store of a leaf, and that only where the order follows an
/// unmapping in the same place of a page that the leaf's overlaps. So until then the laws of live
/// orders hold. No step drops an order, and none changes its ticket or what it follows.
pub fn only_a_leaf_over_the_page_marks_anew()
    ensures steps { StepsMarkNothing }
    ensures edits { EditsMarkNothing }
    ensures leaf { MarkedByALeafOver }
{}

/// No step drops an order: each stays where it stands, or one place further down where an order
/// begins. Its ticket and its cause stay, and none takes a hart from those whose cells were armed
/// for it or from those that were collected, also when the ticket is used again.
pub fn orders_are_kept()
    ensures steps { StepsKeepOrders }
    ensures edits { EditsKeepOrders }
{}

/// A page of the kernel is in the address space of every ASID, and one of a space in that of its
/// own alone.
#[tactic(auto, using(crate::proofs::Lasting::kernel_is_in_every_space))]
pub fn kernel_is_in_every_space()
    ensures { KernelIsInEverySpace }
{}

/// The cell that a sender arms, that to which its receiver stores, and that at which the sender
/// looks, are one; and the word that the receiver stores is the one that `collect` counts, which is
/// never the armed one.
#[tactic(auto, using(crate::proofs::Lasting::cells_meet))]
pub fn cells_meet()
    ensures { CellsMeet }
{}

/// No two senders, tickets or receivers share a cell, and none is a word of a table: an
/// acknowledgement that was stored stays until the same sender arms the same cell for its next
/// order under the ticket.
pub fn cells_are_apart()
    ensures { CellsAreApart }
{}

/// A hart that translates no address of a page of a place, as the laws of what is acknowledged and
/// collected say, holds no entry for the place that overlaps the page: none of that page, of a part
/// of it or of a larger page over it, and no global one.
pub fn translates_none_holds_none()
    ensures { TranslatesNoneHoldsNone }
{}

/// What `Walked` says of a canonical address, in other words: in each memory that has the words
/// that the walk's own loads found, and there is one, its answer is the one that is computed with
/// one load a level. It makes at most as many loads as there are levels, and changes no order and
/// nothing of what its hart edits.
pub fn walk_answers_as_computed()
    ensures { WalkAnswersAsComputed }
{}

/// A load leaves the view of a walk with one word more exactly if it found this word where the walk
/// wants it: no load records the word of an earlier one, or of another place.
pub fn walk_records_what_its_load_found()
    ensures { WalkRecordsWhatItsLoadFound }
{}

/// Each word that a walk's answer follows from is one that a load of this very call found, where it
/// was read: what an earlier walk read counts for nothing. The steps of a call are those of its
/// seat: each load says of reads what `IsRead` does, and each other step reads nothing.
pub fn each_read_is_of_an_own_load()
    ensures { EachReadIsOfAnOwnLoad }
{}

/// A walk of an address that is not canonical, which `Walked` distinguishes from the others,
/// answers a page fault and leaves the view as it was: it counts no load and fills nothing.
#[tactic(auto, using(crate::proofs::Lasting::wrong_address_changes_nothing))]
pub fn walk_of_a_wrong_address_changes_nothing()
    ensures { WrongAddressChangesNothing }
{}

/// A view counts the store of each edit, so no edit is accepted without one, and knows the words
/// after each. No other step stores a table word.
pub fn each_edit_is_one_store()
    ensures edits { EachEditIsOneStore }
    ensures others { OnlyEditsStore }
{}

/// No store to a table word overwrites a pointer.
pub fn stores_overwrite_no_pointer()
    ensures { StoresOverwriteNoPointer }
{}

/// The seat of a hart has the hart's number.
pub fn seats_are_numbered()
    ensures { SeatsAreNumbered }
{}

/// A home reads back its own stores in each space of its own, outside the window.
pub fn each_space_at_home_is_read_back()
    ensures { EachSpaceAtHomeIsReadBack }
{}
