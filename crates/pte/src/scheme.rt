//! The two schemes of translation (privileged manual 4.4, Sv39, and 4.5, Sv48).

ghost use Rattle.std.specs.Prelude.{◌≡◌};
ghost use Rattle.pte.specs.Address.{address_bits, top_level};

/// How many levels of tables Sv39 has: LEVELS of the manual (4.4.1).
pub const SV39_LEVELS: u8 = 3;

/// How many levels of tables Sv48 has: LEVELS of the manual (4.5.1).
pub const SV48_LEVELS: u8 = 4;

/// How many bits of an address are the index in a table of one level.
pub const LEVEL_BITS: u32 = 9;

/// How many bits of an address are its place in a page of 4 KiB.
pub const OFFSET_BITS: u32 = 12;

/// A scheme of translation: how many levels of tables there are, and so how many bits a virtual
/// address has.
#[derive(Clone, Copy, PartialEq, Eq, Debug, Default)]
pub enum Scheme {
    /// Three levels, and addresses of 39 bits.
    #[default]
    Sv39,
    /// Four levels, and addresses of 48 bits.
    Sv48,
}

impl Scheme {
    /// How many bits a virtual address has, 39 or 48: all bits above the highest of them must equal
    /// it (privileged manual 4.4.1 and 4.5.1).
    #[inline(always)]
    pub fn address_bits(self) -> u32
        ensures { result ≡ address_bits self }
    {
        match self {
            Scheme::Sv39 => OFFSET_BITS + LEVEL_BITS * SV39_LEVELS as u32,
            Scheme::Sv48 => OFFSET_BITS + LEVEL_BITS * SV48_LEVELS as u32,
        }
    }

    /// The level of a root table: LEVELS less 1 of the manual (4.4.1 and 4.5.1). Levels go down to
    /// 0, whose leaves are pages of 4 KiB.
    #[inline(always)]
    pub fn top_level(self) -> u8
        ensures { result ≡ top_level self }
    {
        match self {
            Scheme::Sv39 => SV39_LEVELS - 1,
            Scheme::Sv48 => SV48_LEVELS - 1,
        }
    }
}
