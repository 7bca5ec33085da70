//! What a lock is of, for contracts alone.

/// Names, for contracts alone, the configuration that a machine was opened with, and the lists of
/// turns of a lock's tallies. It has no functions. `std::marker::Brand` is one, whose names the
/// caller picks.
pub trait Named {
    ghost use Rattle.std.specs.Prelude.{ℕ, List};
    ghost use Rattle.spaces.specs.declared.configuration.Config.{Config};

    ghost config: { Config };

    ghost lists: { List ℕ };
}

impl Named for std::marker::Brand {
    ghost use Rattle.std.specs.Prelude.{[]};
    ghost use Rattle.pte.specs.declared.scheme.Scheme.TheVariants.{Sv39};

    ghost config = { record {
      scheme = Sv39;
      harts = 0;
      spaces = record { items = [] };
      window = 0;
      base = 0;
      spares = record { items = [] };
      capacity = 0;
    } };

    ghost lists = { [] };
}
