//! The limit of a file.
ghost use Rattle.std.specs.Prelude.{◌≡◌};
ghost use Rattle.scenario.specs.Limits.{most_bytes};

/// The bytes that a file may have.
pub const MOST_BYTES: usize = 1_048_576;

/// The limit of a file, written out.
pub fn worked_limit()
    ensures { most_bytes ≡ 1048576 }
{}
