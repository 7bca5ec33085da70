//! A law of the notes: its call runs nothing, and its clauses hold of the definitions alone.
ghost use Rattle.std.specs.Prelude.{◌≡◌, [], ◌∷◌, codes};
ghost use Rattle.pte.specs.declared.address.PageSize.TheVariants.{Kib4, Mib2};
ghost use Rattle.spaces.specs.declared.places.Place.TheVariants.{Kernel, Space};
ghost use Rattle.history.specs.declared.reply.Reply.TheVariants.{Leaf};
ghost use Rattle.checks.specs.Notes.{note_text};
ghost use Rattle.checks.specs.WorkedNotes.{map_again, map_of, no_frame, not_mapped, noted_steps, page_at, protect_of, table, unmap_of};

/// A `map` that stores a pointer has a note, unless a later `map`, refused or not, names the same
/// page, by base and size, of the same place.
pub fn worked_notes()
    ensures stops { noted_steps (map_of Kernel (page_at 0 Kib4) ∷ []) (table ∷ []) ≡ 1 ∷ [] }
    ensures is_leaf { noted_steps (map_of Kernel (page_at 0 Kib4) ∷ []) (Leaf ∷ []) ≡ [] }
    ensures goes_on { noted_steps
        (map_of (Space 0) (page_at 0 Kib4) ∷ unmap_of (Space 0) (page_at 0 Kib4)
        ∷ map_again (Space 0) (page_at 0 Kib4) ∷ [])
        (table ∷ not_mapped ∷ Leaf ∷ []) ≡ [] }
    ensures large_goes_on { noted_steps
        (map_of Kernel (page_at 0 Mib2) ∷ map_again Kernel (page_at 0 Mib2) ∷ [])
        (table ∷ Leaf ∷ []) ≡ [] }
    ensures stops_later { noted_steps
        (map_of Kernel (page_at 0 Kib4) ∷ map_again Kernel (page_at 0 Kib4) ∷ [])
        (table ∷ table ∷ []) ≡ 2 ∷ [] }
    ensures both_stop { noted_steps
        (map_of Kernel (page_at 0 Kib4) ∷ map_of Kernel (page_at 0x1000 Kib4) ∷ [])
        (table ∷ table ∷ []) ≡ 1 ∷ 2 ∷ [] }
    ensures is_refused { noted_steps
        (map_of Kernel (page_at 0 Kib4) ∷ map_of Kernel (page_at 0 Kib4) ∷ [])
        (table ∷ no_frame ∷ []) ≡ [] }
    ensures other_base { noted_steps
        (map_of Kernel (page_at 0 Kib4) ∷ map_of Kernel (page_at 0x1000 Kib4) ∷ [])
        (table ∷ Leaf ∷ []) ≡ 1 ∷ [] }
    ensures other_size { noted_steps
        (map_of Kernel (page_at 0 Kib4) ∷ map_of Kernel (page_at 0 Mib2) ∷ [])
        (table ∷ Leaf ∷ []) ≡ 1 ∷ [] }
    ensures other_space { noted_steps
        (map_of (Space 0) (page_at 0 Kib4) ∷ map_of (Space 1) (page_at 0 Kib4) ∷ [])
        (table ∷ Leaf ∷ []) ≡ 1 ∷ [] }
    ensures kernel { noted_steps
        (map_of Kernel (page_at 0 Kib4) ∷ map_of (Space 0) (page_at 0 Kib4) ∷ [])
        (table ∷ Leaf ∷ []) ≡ 1 ∷ [] }
    ensures other_steps { noted_steps
        (map_of Kernel (page_at 0 Kib4) ∷ unmap_of Kernel (page_at 0 Kib4)
        ∷ protect_of Kernel (page_at 0 Kib4) ∷ [])
        (table ∷ not_mapped ∷ not_mapped ∷ []) ≡ 1 ∷ [] }
    ensures text { note_text 12
        ≡ codes "note: step 12: only a table was added, and no later `map` names this page" }
{}
