//! A way by which addresses come to a table.

ghost use Rattle.std.specs.Prelude.{ℕ, ◌≡◌, ◌+◌, ◌-◌, ◌*◌, ◌%◌, ◌^◌, ◌<◌, ◌≤◌, ◌↔◌, IsTrue};
ghost use Rattle.pte.specs.Address.{address_bits, IsCanonical, IsPageOf, level_of, top_level};
ghost use Rattle.watch.specs.Trace.{index_of};
ghost use Rattle.watch_tables.specs.Ways.{IsBelow, IsInLevels, later, vpn_from, way_from, way_to};
ghost use Rattle.watch_tables.specs.Climbs.{way_by};

use crate::path::Reached;
use crate::pointers::Pointer;
use crate::tables::index_of;
use pte::{Kind, LEVEL_BITS, OFFSET_BITS, Page, PageSize, Scheme, TABLE_LENGTH, VirtAddr};

/// A way from a root to a table: each address with some VPNs above the level of the table leads
/// there.
#[derive(Clone, Copy, PartialEq, Eq, Debug)]
pub struct Way {
    /// The PPN of the root table.
    pub root: u64,
    /// The level at which the table is reached.
    pub level: u8,
    /// The VPNs above that level, as one number.
    pub vpn: u64,
    /// The table.
    pub(crate) at: Reached,
    /// How many records had been when the newest pointer on the way was stored.
    pub(crate) since: u64,
}

/// The later of two numbers of records.
pub(crate) fn latest(a: u64, b: u64) -> u64
    ensures { result ≡ later a b }
{
    if a < b { b } else { a }
}

/// The canonical address with these bits, as many as an address of the scheme has.
fn extended(scheme: Scheme, bits: u64) -> VirtAddr
    requires { bits < 2 ^ address_bits scheme }
    ensures canonical { IsCanonical scheme result }
    ensures bits { result % 2 ^ address_bits scheme ≡ bits }
{
    let half = 1 << (scheme.address_bits() - 1);
    let va = if bits < half {
        bits
    } else {
        bits + (u64::MAX - (2 * half - 1))
    };
    VirtAddr::new_in(scheme, va).unwrap()
}

impl Way {
    /// The way from a table to itself, as one of a level.
    pub(crate) fn to(table: u64, level: u8) -> Way
        ensures { result ≡ way_to table level }
    {
        Way {
            root: table,
            level,
            vpn: 0,
            at: Reached {
                table,
                global: false,
            },
            since: 0,
        }
    }

    /// The VPNs of an address from the level of the table up, as one number.
    fn vpns(self, scheme: Scheme, va: VirtAddr) -> u64
        requires { self.level ≤ top_level scheme }
        ensures { result ≡ vpn_from scheme self.level va }
    {
        let levels = scheme.top_level() + 1 - self.level;
        (va.get() >> (OFFSET_BITS + LEVEL_BITS * u32::from(self.level)))
            % (1 << (LEVEL_BITS * u32::from(levels)))
    }

    /// Whether a page lies below the word at a physical address in the table of the way: the path
    /// of its base asks for that word.
    pub fn is_below(&self, scheme: Scheme, address: u64, page: Page) -> bool
        ensures { IsTrue result ↔ IsBelow scheme self.now (index_of address) page }
    {
        if self.level > scheme.top_level() || page.size().level() > self.level {
            return false;
        }
        let vpn = self.vpns(scheme, page.base());
        let length = u64::from(TABLE_LENGTH);
        vpn / length == self.vpn && vpn % length == u64::from(index_of(address))
    }

    /// The page that a leaf at an index of the table maps.
    pub(crate) fn page(self, scheme: Scheme, index: u16) -> Page
        requires levels { IsInLevels scheme self }
        requires index { index < TABLE_LENGTH }
        ensures page { IsPageOf scheme result }
        ensures level { level_of result.size ≡ self.level }
        ensures vpn { vpn_from scheme self.level result.base ≡ self.vpn * TABLE_LENGTH + index }
    {
        let size = PageSize::at_level(self.level);
        let vpn = self.vpn * u64::from(TABLE_LENGTH) + u64::from(index);
        Page::around(extended(scheme, vpn * size.bytes()), size)
    }

    /// The way on by an entry of a kind, at an index of the table; `None` for what is no pointer,
    /// and at level 0.
    pub(crate) fn below(self, scheme: Scheme, index: u16, kind: Kind, since: u64) -> Option<Way>
        requires levels { IsInLevels scheme self }
        requires index { index < TABLE_LENGTH }
        ensures { result ≡ way_from self index kind since }
    {
        if self.level == 0 {
            return None;
        }
        match self.at.below(kind) {
            Some(at) => Some(Way {
                root: self.root,
                level: self.level - 1,
                vpn: self.vpn * u64::from(TABLE_LENGTH) + u64::from(index),
                at,
                since: latest(self.since, since),
            }),
            None => None,
        }
    }

    /// The way from the table of a pointer to the root, which stands at this height.
    pub(crate) fn above(self, height: u8, pointer: Pointer) -> Way
        requires level { self.level ≤ height }
        requires height { height < 3 }
        requires vpn { self.vpn < 2 ^ (LEVEL_BITS * (height - self.level)) }
        ensures { result ≡ way_by self height pointer }
    {
        let length = u64::from(TABLE_LENGTH);
        let shift = LEVEL_BITS * u32::from(height - self.level);
        Way {
            root: pointer.number / length,
            level: self.level,
            vpn: ((pointer.number % length) << shift) + self.vpn,
            at: Reached {
                table: self.at.table,
                global: self.at.global || pointer.global,
            },
            since: latest(self.since, pointer.since),
        }
    }
}
