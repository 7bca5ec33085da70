//! Laws of the definitions: each function does nothing, and its contract is the law.

ghost use Rattle.std.specs.Prelude.{ℕ, Bool, ◌≡◌, ◌≢◌, ◌/◌, ◌^◌, ◌<◌, ◌≤◌, ◌⊎◌, ◌↔◌, false};
ghost use Rattle.std.specs.Prelude.{List, Option, Some};
ghost use Rattle.std.specs.List.{Contains};
ghost use Rattle.std.specs.Option.{unwrap_or};
ghost use Rattle.pte.specs.declared.scheme.Scheme.{Scheme};
ghost use Rattle.pte.specs.Address.{Span, level_of, vpn_of};
ghost use Rattle.walk.specs.Leads.{Leads, Tables, word_at};
ghost use Rattle.walk.specs.Maps.{page_number};
ghost use Rattle.tlb.specs.declared.store.Entry.{Entry};
ghost use Rattle.watch.specs.Holding.{HasLeaf, Translation};
ghost use Rattle.watch.specs.Staleness.{IsMapped};
ghost use Rattle.watch.specs.Trace.{index_of};
ghost use Rattle.watch_tables.specs.declared.way.Way.{Way};
ghost use Rattle.watch_tables.specs.Words.{memory_of};
ghost use Rattle.watch_tables.specs.Ways.{AreWays, IsBelow};
ghost use Rattle.watch_tables.specs.Through.{Passes, PassesFirst, PassesNone};

/// The word at a physical address is the one whose number is the address / 8, and 0 if there is no
/// such one.
pub fn word_of_an_address_is_by_its_number()
    ensures { (value : ℕ → Option ℕ) (address : ℕ) → address < 2 ^ 64
        → memory_of value (page_number address) (index_of address)
        ≡ Some (unwrap_or (value (address / 8)) 0) }
{}

/// What leads goes by the words on its path, and so does a leaf: no word on its path is 0, and where
/// another memory has those words it has the leaf.
pub fn what_leads_goes_by_the_words_on_its_path()
    ensures path { (scheme : Scheme) (words others : Tables) (root va level : ℕ)
        → ((at table : ℕ) → level ≤ at → Leads scheme words root va at table (word_at words va at table)
        → others table (vpn_of va at) ≡ words table (vpn_of va at))
        → (at table : ℕ) (w : Option ℕ) → level ≤ at
        → Leads scheme words root va at table w ↔ Leads scheme others root va at table w }
    ensures filled { (scheme : Scheme) (words : Tables) (root : ℕ) (e : Entry) (at table : ℕ)
        → HasLeaf scheme words root e → level_of e.page.size ≤ at
        → Leads scheme words root e.page.base at table (word_at words e.page.base at table)
        → words table (vpn_of e.page.base at) ≢ Some 0 }
    ensures leaf { (scheme : Scheme) (words others : Tables) (root : ℕ) (e : Entry)
        → HasLeaf scheme words root e → ((at table : ℕ) → level_of e.page.size ≤ at
        → Leads scheme words root e.page.base at table (word_at words e.page.base at table)
        → words table (vpn_of e.page.base at) ≢ Some 0
        → others table (vpn_of e.page.base at) ≡ words table (vpn_of e.page.base at))
        → HasLeaf scheme others root e }
{}

/// The path of a page passes through no word of a set, or through a first one.
pub fn path_passes_a_first_word_or_none()
    ensures { (scheme : Scheme) (words : Tables) (is_in : ℕ → ℕ → Bool) (root : ℕ) (page : Span)
        → PassesNone scheme words is_in root page ⊎ PassesFirst scheme words is_in root page }
{}

/// Where two memories differ in no word outside a set, a page has the same leaf in both or its path
/// passes through a word of the set.
pub fn leaf_changes_below_a_changed_word()
    ensures none { (scheme : Scheme) (words others : Tables) (is_in : ℕ → ℕ → Bool) (root : ℕ)
        (e : Entry) → ((t i : ℕ) → is_in t i ≡ false → others t i ≡ words t i)
        → PassesNone scheme words is_in root e.page
        → HasLeaf scheme words root e ↔ HasLeaf scheme others root e }
    ensures leaf { (scheme : Scheme) (words others : Tables) (is_in : ℕ → ℕ → Bool) (root : ℕ)
        (e : Entry) → ((t i : ℕ) → is_in t i ≡ false → others t i ≡ words t i)
        → (HasLeaf scheme words root e ↔ HasLeaf scheme others root e)
        ⊎ PassesFirst scheme words is_in root e.page }
    ensures mapped { (scheme : Scheme) (words others : Tables) (is_in : ℕ → ℕ → Bool)
        (x : Translation) → ((t i : ℕ) → is_in t i ≡ false → others t i ≡ words t i)
        → (IsMapped scheme words x ↔ IsMapped scheme others x)
        ⊎ PassesFirst scheme words is_in x.root x.entry.page }
{}

/// A page whose path passes through a word lies below it on one of the ways to its table, and any
/// page that lies below it on a way to its table passes through it.
pub fn path_through_a_word_has_a_way()
    ensures way { (scheme : Scheme) (words : Tables) (since : ℕ → ℕ → ℕ) (root table index : ℕ)
        (ways : List Way) (page : Span) → AreWays scheme words since table ways
        → Passes scheme words root table index page
        → (way : Way) × Contains ways way × (way.root ≡ root) × IsBelow scheme way index page }
    ensures passes { (scheme : Scheme) (words : Tables) (since : ℕ → ℕ → ℕ) (table index : ℕ)
        (ways : List Way) (page : Span) (way : Way) → AreWays scheme words since table ways
        → Contains ways way → index < 512 → IsBelow scheme way index page
        → Passes scheme words way.root table index page }
{}
