//! Laws of edits that are fed word by word: functions that do nothing, whose contracts are the
//! laws.

ghost use Rattle.std.specs.Prelude.{◌≡◌, ◌≤◌, ◌<◌, ℕ, IsTrue, length, None, Option, Some, Ok, unwrap_or};
ghost use Rattle.pte.specs.Address.{top_level};
ghost use Rattle.pte.specs.declared.address.TheConstants.{TABLE_LENGTH};
ghost use Rattle.walk.specs.Leads.{Tables};
ghost use Rattle.walk.specs.Pointers.{pointed};
ghost use Rattle.spaces.specs.declared.edit_walks.Next.TheVariants as next;
ghost use Rattle.spaces.specs.declared.wishes.Wish.{Wish as WishOf};
ghost use Rattle.spaces.specs.Layout.{HasPlace, home_of, is_frame, Layout};
ghost use Rattle.spaces.specs.Held.{IsLayout};
ghost use Rattle.spaces.specs.Holders.{Holders, unused_spare};
ghost use Rattle.spaces.specs.Edits.{edit_of, EditStage, IsStage, place_of, Store};
ghost use Rattle.spaces.specs.EditStages.{answer_of, Continues, edit_next, edit_start, index_of, WaitsAtHome};
ghost use Rattle.spaces.specs.Effects.{IsEdit};
ghost use Rattle.spaces.specs.Tree.{IsHome, IsTree};

/// Over a tree what an edit begins with ends with the store that is due, or with the fault that is.
/// It waits for a word of the root's level or below.
pub fn edit_walk_starts()
    ensures answer { (l : Layout) (words : Tables) (holders : Holders) → IsLayout l
        → IsTree l words holders → (hart : ℕ) (w : WishOf) (spare : Option ℕ)
        → answer_of (edit_start l hart w) words spare ≡ edit_of l words spare hart w }
    ensures stage { (l : Layout) (hart : ℕ) (w : WishOf) (e : EditStage)
        → edit_start l hart w ≡ Ok e
        → IsStage e × (e.wish ≡ w) × (e.level ≤ top_level l.scheme) }
{}

/// The word of a memory that an edit waits for, 0 where there is none, makes of it an edit one
/// level below with the same end over that memory, or is that end. So there are at most as many
/// loads as levels of tables.
pub fn edit_walk_continues()
    ensures { (e : EditStage) (words : Tables) (spare : Option ℕ) → IsStage e
        → Continues e words spare (edit_next e (unwrap_or (words e.table (index_of e)) 0) spare) }
{}

/// An edit waits for words at home alone, from its begin on, where the words at that home are those
/// of a tree.
pub fn edit_walk_stays_at_home()
    ensures begins { (l : Layout) (words : Tables) (hart : ℕ) (holders : Holders) → IsLayout l
        → IsHome l words hart holders
        → (w : WishOf) (e : EditStage) → HasPlace l (place_of w) → edit_start l hart w ≡ Ok e
        → WaitsAtHome l hart e }
    ensures goes_on { (l : Layout) (words : Tables) (hart : ℕ) (holders : Holders)
        → IsHome l words hart holders
        → (e after : EditStage) (word : ℕ) (spare : Option ℕ) → WaitsAtHome l hart e
        → words e.table (index_of e) ≡ Some word
        → edit_next e word spare ≡ next.More after → WaitsAtHome l hart after }
{}

/// The word that an accepted edit replaces has an index within a table, and points to no table.
pub fn edit_replaces_no_pointer()
    ensures pointer { (l : Layout) (words : Tables) (holders : Holders) (hart : ℕ) (w : WishOf)
        (store : Store) → IsEdit l words holders hart w store
        → pointed (words store.ppn store.index) ≡ None }
    ensures index { (l : Layout) (words : Tables) (holders : Holders) (hart : ℕ) (w : WishOf)
        (store : Store) → IsEdit l words holders hart w store
        → store.index < TABLE_LENGTH }
{}

/// An accepted edit that stores a pointer points to the home's lowest unused spare frame, which is
/// a frame of the layout.
pub fn edit_points_to_a_frame()
    ensures spare { (l : Layout) (words : Tables) (holders : Holders) (hart : ℕ) (w : WishOf)
        (store : Store) (ppn : ℕ) → IsEdit l words holders hart w store
        → pointed (Some store.word) ≡ Some ppn → unused_spare l holders hart ≡ Some ppn }
    ensures frame { (l : Layout) (words : Tables) (holders : Holders) (hart : ℕ) (w : WishOf)
        (store : Store) (ppn : ℕ) → IsEdit l words holders hart w store
        → pointed (Some store.word) ≡ Some ppn → IsTrue (is_frame l ppn) }
{}
