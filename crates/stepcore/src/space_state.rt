//! What a machine keeps of a space.

ghost use Rattle.std.specs.Prelude.{◌≡◌};

/// Whether a space is live, retiring or free.
#[derive(Clone, Copy, PartialEq, Eq, Debug, Default)]
pub enum Phase {
    /// Harts may run in it.
    Live,
    /// It was retired: the ticket of its retirement, until that is finished.
    Retiring(Option<u32>),
    /// It has no mappings, and may be created.
    #[default]
    Free,
}

/// The ASID of a space, and its phase.
#[derive(Clone, Copy, PartialEq, Eq, Debug, Default)]
pub struct SpaceState {
    /// The ASID.
    pub asid: u16,
    /// The phase.
    pub phase: Phase,
}

impl Phase {
    ghost use Rattle.stepcore.specs.Answers.{is_free_phase, is_retiring};

    /// Whether it is free.
    pub fn is_free(self) -> bool
        ensures { result ≡ is_free_phase self }
    {
        match self {
            Phase::Live => false,
            Phase::Retiring(_) => false,
            Phase::Free => true,
        }
    }

    /// Whether it is retiring.
    pub fn is_retiring(self) -> bool
        ensures { result ≡ is_retiring self }
    {
        match self {
            Phase::Live => false,
            Phase::Retiring(_) => true,
            Phase::Free => false,
        }
    }
}
