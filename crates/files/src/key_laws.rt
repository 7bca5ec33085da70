//! Laws of the keys: each call makes no step, and its clauses hold of the definitions alone.
ghost use Rattle.pte.specs.declared.scheme.Scheme.TheVariants.{Sv39, Sv48};
ghost use Rattle.std.specs.Prelude.{◌≡◌, ◌↔◌, ◌^◌, if◌then◌else◌, List, [], ℕ, pos, Some, None, Ok, codes, option_and_then, true, false, IsTrue};
ghost use Rattle.std.specs.List.{filter};
ghost use Rattle.pte.specs.declared.TheConstants.{MAX_CAPACITY, MAX_HARTS};
ghost use Rattle.pte.specs.declared.entry.TheConstants.{PPN_BITS};
ghost use Rattle.spaces.specs.Defaults.{default_config};
ghost use Rattle.spaces.specs.Limits.{is_from_one};
ghost use Rattle.spaces.specs.declared.configuration.Config.{Config};
ghost use Rattle.spaces.specs.declared.configuration.TheConstants.{MAX_WINDOW};
ghost use Rattle.toml.specs.Data.{Members, boolean, get_member, integer, no_members, string};
ghost use Rattle.files.specs.declared.key_table.Command.{Command};
ghost use Rattle.files.specs.declared.key_table.Key.TheVariants.{Base, Capacity, Harts, Root, Turns, Window};
ghost use Rattle.files.specs.KeyTable.{is_own, is_within, keys_of, kind_of, own_keys};
ghost use Rattle.files.specs.LiveFile.{positive, turns_at};
ghost use Rattle.files.specs.Keys.{below, HasKey, is_known, IsDefaultIfAbsent, IsLeastUnknown, least_unknown, one_number};
ghost use Rattle.files.specs.Settings.{base_of, config_at, mode_at, mode_of};
ghost use Rattle.files.specs.WalkFile.{root_at};

/// The unknown key that is reported is the least by bytes, and none is reported only where all keys
/// are known.
pub fn least_unknown_key()
    ensures least { (known : List (List ℕ)) (ms : Members) (key : List ℕ)
        → least_unknown known ms ≡ Some key → IsLeastUnknown known ms key }
    ensures none { (known : List (List ℕ)) (ms : Members) → least_unknown known ms ≡ None
        → (key : List ℕ) → is_known known key ≡ false → ¬ HasKey key ms }
{}

/// The keys that are listed as those of one command are the ones that no other command knows.
pub fn own_keys_are_of_one_command()
    ensures { (command : Command) → own_keys command ≡ filter (is_own command) (keys_of command) }
{}

/// The limits of the table are the ones that the layout is checked by, and `turns`, `root` and
/// `base` are read by.
pub fn limits_are_those_of_the_table()
    ensures harts { (n : ℕ) → is_from_one MAX_HARTS n ≡ is_within (kind_of Harts) n }
    ensures window { (n : ℕ) → is_from_one MAX_WINDOW n ≡ is_within (kind_of Window) n }
    ensures capacity { (n : ℕ) → is_from_one MAX_CAPACITY n ≡ is_within (kind_of Capacity) n }
    ensures turns { (n : ℕ) → positive (pos n) ≡ (if is_within (kind_of Turns) n
        then Some n else None) }
    ensures root { (n : ℕ) → below (2 ^ PPN_BITS) n ≡ (if is_within (kind_of Root) n
        then Some n else None) }
    ensures base { (text : List ℕ) → base_of (string text) ≡ option_and_then
        (λ n. if is_within (kind_of Base) n then Some n else None) (one_number text) }
{}

/// Where a key is absent whose value is a number, the default of its row of the table is read.
pub fn defaults_are_those_of_the_table()
    ensures no_key { config_at no_members ≡ Ok default_config }
    ensures harts { (ms : Members) (config : Config) → config_at ms ≡ Ok config
        → IsDefaultIfAbsent Harts ms (Ok config.harts) }
    ensures window { (ms : Members) (config : Config) → config_at ms ≡ Ok config
        → IsDefaultIfAbsent Window ms (Ok config.window) }
    ensures base { (ms : Members) (config : Config) → config_at ms ≡ Ok config
        → IsDefaultIfAbsent Base ms (Ok config.base) }
    ensures capacity { (ms : Members) (config : Config) → config_at ms ≡ Ok config
        → IsDefaultIfAbsent Capacity ms (Ok config.capacity) }
    ensures turns { (ms : Members) → IsDefaultIfAbsent Turns ms (turns_at ms) }
    ensures root { (ms : Members) → IsDefaultIfAbsent Root ms (root_at ms) }
{}

/// A file without the key `mode` is one of Sv39.
pub fn mode_is_sv39_by_default()
    ensures { (ms : Members) → get_member (codes "mode") ms ≡ None → mode_at ms ≡ Ok Sv39 }
{}

/// The value of the key `mode` is one word, the name of a scheme, with blanks around it or without.
pub fn worked_modes()
    ensures sv39 { mode_of (string (codes "sv39")) ≡ Some Sv39 }
    ensures sv48 { mode_of (string (codes "sv48")) ≡ Some Sv48 }
    ensures blanks { mode_of (string (codes "\t sv48  ")) ≡ Some Sv48 }
    ensures other { mode_of (string (codes "sv57")) ≡ None }
    ensures upper_case { mode_of (string (codes "SV48")) ≡ None }
    ensures empty { mode_of (string []) ≡ None }
    ensures two_words { mode_of (string (codes "sv39 sv48")) ≡ None }
    ensures number { mode_of (integer (pos 48)) ≡ None }
    ensures truth { mode_of (boolean true) ≡ None }
{}
