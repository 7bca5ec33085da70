//! Laws of edits, over plain words: functions that do nothing, whose contracts are the laws.

ghost use Rattle.std.specs.Prelude.{◌≡◌, ◌≢◌, ◌+◌, ◌-◌, ◌<◌, ◌≤◌, ◌↔◌, ◌*◌, ℕ, Bool, IsTrue, None, Some, slice_index, length};
ghost use Rattle.pte.specs.declared.flags.PteFlags.{PteFlags};
ghost use Rattle.pte.specs.Address.{bytes_of, Span, top_level, vpn_of};
ghost use Rattle.pte.specs.declared.scheme.Scheme.{Scheme};
ghost use Rattle.walk.specs.Leads.{Tables};
ghost use Rattle.walk.specs.Maps.{Maps};
ghost use Rattle.walk.specs.Pointers.{table_below};
ghost use Rattle.spaces.specs.declared.configuration.Config.{Config as Configuration};
ghost use Rattle.spaces.specs.declared.places.Place.{Place as PlaceOf};
ghost use Rattle.spaces.specs.declared.wishes.Wish.{Wish as WishOf};
ghost use Rattle.spaces.specs.declared.wishes.Wish.TheVariants as wish;
ghost use Rattle.spaces.specs.Layout.{first_window_slot, Layout, home_of, layout_of, root_ppn, spare_ppn};
ghost use Rattle.pte.specs.declared.TheConstants.{MAX_HARTS};
ghost use Rattle.spaces.specs.Defaults.{default_for};
ghost use Rattle.spaces.specs.Limits.{is_within_limits, MeetsLimits};
ghost use Rattle.spaces.specs.declared.configuration.TheConstants.{MAX_FRAMES, MAX_LIVE_FRAMES};
ghost use Rattle.spaces.specs.Opening.{opening};
ghost use Rattle.spaces.specs.Held.{IsLayout};
ghost use Rattle.spaces.specs.Holders.{emptied, given_back, Holders, unused_spare};
ghost use Rattle.spaces.specs.Edits.{is_outside, path_end, place_of, Store};
ghost use Rattle.spaces.specs.Tree.{IsAtHome, IsIn, IsTree, start_table};
ghost use Rattle.spaces.specs.declared.places.Place.TheVariants.{Kernel as kernel};
ghost use Rattle.pte.specs.declared.address.PageSize.TheVariants.{Kib4};
ghost use Rattle.spaces.specs.Accepted.{Accepted};
ghost use Rattle.spaces.specs.Applied.{holders_after, words_after_store};
ghost use Rattle.spaces.specs.Effects.{EmptiesSpace, EmptiesWords, GivesBack, HasEffect, IsAbout, IsEdit, IsEnd, IsLowestUnused, TakesFrame};

/// The test of a configuration's limits, for any number of frames, holds exactly where the
/// configuration is within them.
#[tactic(auto, using(crate::proofs::LimitLemmas::meets, crate::proofs::LimitLemmas::within))]
pub fn limits_are_checked()
    ensures { (frames : ℕ) (c : Configuration)
        → IsTrue (is_within_limits frames c) ↔ MeetsLimits frames c }
{}

/// The test whether a page lies outside the part of a root that its place has holds exactly where
/// the page's address is not in it.
#[tactic(auto, using(crate::proofs::PlaceTests::outside_tests))]
pub fn places_are_tested()
    ensures { (l : Layout) (place : PlaceOf) (page : Span)
        → IsTrue (is_outside l place page) ↔ (¬ IsIn l place page.base) }
{}

/// The default is within the limits for each number of harts that there may be, those for harts on
/// threads too.
#[tactic(auto, using(crate::proofs::DefaultLimits::meets_for))]
pub fn defaults_meet_the_limits()
    ensures { (harts : ℕ) → 1 ≤ harts → harts ≤ MAX_HARTS
        → MeetsLimits MAX_LIVE_FRAMES (default_for harts) }
{}

/// A configuration within the limits has a layout within them.
pub fn limits_give_layout()
    ensures { (c : Configuration) → MeetsLimits MAX_FRAMES c → IsLayout (layout_of c) }
{}

/// The words at the opening are a tree, of which no spare frame is in use.
pub fn opening_is_tree()
    ensures { (l : Layout) → IsLayout l → IsTree l (opening l) (λ _. None) }
{}

/// Where a path ends is the lowest level, down to the one that is looked at, at which anything
/// leads.
pub fn path_ends_lowest()
    ensures { (scheme : Scheme) (words : Tables) (root va lowest : ℕ) → lowest ≤ top_level scheme
        → IsEnd scheme words root va lowest
        (path_end words va lowest (top_level scheme - lowest) root) }
{}

/// An accepted edit writes on its page's path: a pointer or a leaf in place of 0, 0 in place of a
/// leaf, or a leaf with the same PPN in place of a leaf.
pub fn edit_is_accepted()
    ensures { (l : Layout) (words : Tables) (holders : Holders) (hart : ℕ) (w : WishOf)
        (store : Store) → IsEdit l words holders hart w store
        → Accepted l words (unused_spare l holders hart) hart w store }
{}

/// An accepted edit writes a frame of the home of its place.
pub fn edit_stays_at_home()
    ensures { (l : Layout) (words : Tables) (holders : Holders) (hart : ℕ) (w : WishOf)
        (store : Store) → IsEdit l words holders hart w store
        → IsAtHome l (home_of l (place_of w)) store.ppn }
{}

/// A frame is at home on one hart.
pub fn home_is_one()
    ensures { (l : Layout) (h other f : ℕ) → IsAtHome l h f → IsAtHome l other f → h ≡ other }
{}

/// The words after an accepted edit of a tree are a tree again.
pub fn edit_keeps_tree()
    ensures { (l : Layout) (words : Tables) (holders : Holders) (hart : ℕ) (w : WishOf)
        (store : Store) → IsEdit l words holders hart w store
        → IsTree l (words_after_store words store) (holders_after holders (place_of w) store) }
{}

/// The store of a pointer changes nothing that any root maps; an edit of a leaf adds its page,
/// takes it away or changes its flags, in its place's roots alone, and nothing else.
pub fn edit_changes_its_page()
    ensures { (l : Layout) (words : Tables) (holders : Holders) (hart : ℕ) (w : WishOf)
        (store : Store) → IsEdit l words holders hart w store
        → HasEffect l w store words (words_after_store words store) }
{}

/// After an accepted unmap no root of the place maps any part of the page.
pub fn unmapped_page_is_gone()
    ensures { (l : Layout) (words : Tables) (holders : Holders) (hart : ℕ) (place : PlaceOf)
        (page : Span) (store : Store)
        → IsEdit l words holders hart (wish.Unmap place page) store
        → (s number ppn : ℕ) (flags : PteFlags) (global : Bool) → s < length l.homes
        → IsAbout place page s number
        → Maps l.scheme (words_after_store words store) (root_ppn l s) number ppn flags global → ⊥ }
{}

/// An accepted map keeps every mapping of every root.
pub fn map_keeps_mappings()
    ensures { (l : Layout) (words : Tables) (holders : Holders) (hart : ℕ) (place : PlaceOf)
        (page : Span) (first : ℕ) (f : PteFlags) (store : Store)
        → IsEdit l words holders hart (wish.Map place page first f) store
        → (s number ppn : ℕ) (flags : PteFlags) (global : Bool) → s < length l.homes
        → Maps l.scheme words (root_ppn l s) number ppn flags global
        → Maps l.scheme (words_after_store words store) (root_ppn l s) number ppn flags global }
{}

/// In a tree a path of the kernel, of a page that is no top-level one, may be read from the
/// window's own table: it ends where the path from any root ends.
pub fn kernel_path_starts_in_the_window()
    ensures { (l : Layout) (words : Tables) (holders : Holders) → IsLayout l
        → IsTree l words holders → (s va lowest : ℕ) → s < length l.homes
        → IsIn l kernel va → lowest < top_level l.scheme
        → path_end words va lowest (top_level l.scheme - lowest) (root_ppn l s)
        ≡ path_end words va lowest (top_level l.scheme - 1 - lowest) (start_table l kernel va) }
{}

/// In a tree what is mapped is global exactly in the window.
pub fn window_is_global()
    ensures { (l : Layout) (words : Tables) (holders : Holders) → IsLayout l
        → IsTree l words holders
        → (s number ppn : ℕ) (flags : PteFlags) (global : Bool) → s < length l.homes
        → Maps l.scheme words (root_ppn l s) number ppn flags global
        → IsTrue global
        ↔ (first_window_slot l ≤ vpn_of (number * bytes_of Kib4) (top_level l.scheme)) }
{}

/// Giving back the frames of a space, by storing 0 on all its words, leaves a tree.
pub fn giving_back_keeps_tree()
    ensures { (l : Layout) (words : Tables) (holders : Holders) → IsLayout l
        → IsTree l words holders → (s : ℕ) → s < length l.homes
        → IsTree l (emptied l holders s words) (λ f. given_back (holders f) s) }
{}

/// It takes away what the root of the space maps in the user's half, and changes nothing else in
/// any root.
pub fn giving_back_empties_the_space()
    ensures { (l : Layout) (words : Tables) (holders : Holders) → IsLayout l
        → IsTree l words holders → (s : ℕ) → s < length l.homes
        → EmptiesSpace l s words (emptied l holders s words) }
{}

/// No path from a root passes a spare frame that is unused.
pub fn unused_frame_is_not_reached()
    ensures { (l : Layout) (words : Tables) (holders : Holders) → IsLayout l
        → IsTree l words holders → (h k frame : ℕ) → k < slice_index l.spares h
        → frame ≡ spare_ppn l h + k → holders frame ≡ None
        → (s va n : ℕ) → s < length l.homes
        → ¬ (table_below words va (top_level l.scheme) (root_ppn l s) n ≡ Some frame) }
{}

/// Giving back makes the words of the space alone 0: those of its frames, and those of its root's
/// user half.
pub fn giving_back_empties_the_words()
    ensures { (l : Layout) (holders : Holders) (s : ℕ) (words : Tables)
        → EmptiesWords l s holders words (emptied l holders s words) }
{}

/// It leaves the frames of the space unused, and no other.
pub fn giving_back_leaves_the_frames_unused()
    ensures { (holders : Holders) (s : ℕ) → GivesBack s holders (λ f. given_back (holders f) s) }
{}

/// A store takes the frame that its word points to for its place, and no other.
pub fn store_takes_its_frame()
    ensures { (holders : Holders) (place : PlaceOf) (store : Store)
        → TakesFrame place store.word holders (holders_after holders place store) }
{}

/// A new table takes the lowest spare frame of the home that is unused, and there is none exactly
/// if each is in use.
pub fn new_table_takes_the_lowest_unused_frame()
    ensures lowest { (l : Layout) (holders : Holders) (h ppn : ℕ)
        → (unused_spare l holders h ≡ Some ppn) ↔ IsLowestUnused l holders h ppn }
    ensures none { (l : Layout) (holders : Holders) (h : ℕ) → (unused_spare l holders h ≡ None)
        ↔ ((n : ℕ) → n < slice_index l.spares h → holders (spare_ppn l h + n) ≢ None) }
{}
