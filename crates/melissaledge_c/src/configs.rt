//! What a machine is opened with, as numbers.

ghost use Rattle.std.specs.Prelude.{◌≡◌, ◌≤◌, map, length};
ghost use Rattle.melissaledge_c.specs.Configs.{config_of, opened_space};

use crate::codes::{Fault, scheme_of};
use arrayvec::ArrayVec;
use pte::MAX_HARTS;
use spaces::MAX_SPACES;
use stepcore::{Config, Space};

/// An address space at the opening: `struct mle_space` of C.
#[repr(C)]
#[derive(Clone, Copy, PartialEq, Eq)]
pub struct SpaceAsked {
    /// The ASID, different from those of the other spaces.
    pub asid: u16,
    /// The hart that alone stores to its tables.
    pub home: u8,
}

/// What a machine is opened with: `struct mle_config` of C. Its limits are those of
/// `stepcore::Config`.
#[repr(C)]
#[derive(Clone, Copy, PartialEq, Eq)]
pub struct ConfigAsked {
    /// The PPN of the first table frame.
    pub base: u64,
    /// The scheme: 8 for Sv39, 9 for Sv48.
    pub scheme: u32,
    /// The number of harts, from 1 to 8.
    pub harts: u16,
    /// How many of the last slots of each root are the kernel window, from 1 to 4.
    pub window: u16,
    /// The capacity of each mailbox, from 1 to 64.
    pub capacity: u16,
}

/// The spaces of the configuration.
fn spaces_of(asked: &[SpaceAsked]) -> ArrayVec<Space, MAX_SPACES>
    requires { length asked.now ≤ MAX_SPACES }
    ensures { result.items ≡ map opened_space asked.now }
{
    let mut spaces = ArrayVec::new();
    for space in asked {
        spaces.push(Space {
            home: space.home,
            asid: space.asid,
        });
    }
    spaces
}

/// The configuration of numbers, refused with `Scheme`, or with `Layout` if there are too many
/// spaces or spares.
pub(crate) fn config_of(
    asked: &ConfigAsked,
    spaces: &[SpaceAsked],
    spares: &[u16],
) -> Result<Config, Fault>
    ensures { result ≡ config_of asked.now spaces.now spares.now }
{
    let Some(scheme) = scheme_of(asked.scheme) else {
        return Err(Fault::Scheme);
    };
    if spaces.len() > MAX_SPACES {
        return Err(Fault::Layout);
    }
    let Ok(spares) = ArrayVec::<u16, MAX_HARTS>::try_from(spares) else {
        return Err(Fault::Layout);
    };
    Ok(Config {
        scheme,
        harts: asked.harts,
        spaces: spaces_of(spaces),
        window: asked.window,
        base: asked.base,
        spares,
        capacity: asked.capacity,
    })
}
