//! The ways to a table.

ghost use Rattle.std.specs.Prelude.{ℕ, ◌≡◌, ◌<◌, ◌⊎◌, IfOk, IsTrue, OnOk};
ghost use Rattle.std.specs.List.{Contains};
ghost use Rattle.pte.specs.Address.{top_level};
ghost use Rattle.walk.specs.Leads.{PointsTo};
ghost use Rattle.walk.specs.Maps.{page_number};
ghost use Rattle.watch_tables.specs.declared.way.Way.{Way as WayOf};
ghost use Rattle.watch_tables.specs.Pointers.{has_number};
ghost use Rattle.watch_tables.specs.Words.{since, word_number, words};
ghost use Rattle.watch_tables.specs.Ways.{AreWays, IsWay};
ghost use Rattle.watch_tables.specs.Climbs.{ComesTo, HasWayBy, IsWayDown};

use crate::tables::PageTables;
use crate::way::Way;
use pte::{PAGE_BYTES, Scheme};
use std::alloc::{AllocError, Global};
use std::collections::btree_set::Range;

impl PageTables {
    /// Adds the ways that lead from a root down to the first table of this one, which stands at a
    /// height below the top, and on as it does; the pairs have each pointer to that table.
    fn add_ways(
        &self,
        scheme: Scheme,
        height: u8,
        way: Way,
        pairs: Range<'_, (u64, u64)>,
        out: &mut Vec<Way>,
    ) -> Result<(), AllocError>
        requires down { IsWayDown scheme (words self.now) (since self.now) height way }
        requires lower { height < top_level scheme }
        requires pairs { (t i : ℕ) → PointsTo (words self.now t i) way.root
            → IsTrue (has_number pairs (word_number t i)) }
        ensures kept { OnOk result ((w : WayOf) → Contains out.old.items w → Contains out.new.items w) }
        ensures sound { OnOk result ((w : WayOf) → Contains out.new.items w → Contains out.old.items w
            ⊎ (IsWay scheme (words self.now) (since self.now) w × (w.at.table ≡ way.at.table))) }
        ensures each { OnOk result ((root va : ℕ) → ComesTo scheme (words self.now) root va height way
            → HasWayBy scheme out.new.items way root va) }
    {
        for &(_, number) in pairs {
            let Some(pointer) = self.pointer(way.root, number) else {
                continue;
            };
            let next = way.above(height, pointer);
            if height + 1 == scheme.top_level() {
                out.push(next)?;
                continue;
            }
            self.add_ways(scheme, height + 1, next, self.pointers_to(next.root), out)?;
        }
        Ok(())
    }

    /// The ways by which addresses come to the table in which a physical address lies, from each
    /// table that may be a root, itself too. The number of look-ups goes with the number of ways.
    /// Refused only where memory runs out.
    pub fn ways(&self, alloc: Global, scheme: Scheme, address: u64) -> Result<Vec<Way>, AllocError>
        ensures { IfOk result (λ ways. AreWays scheme (words self.now) (since self.now)
            (page_number address) ways.items) }
    {
        let table = address / PAGE_BYTES;
        let top = scheme.top_level();
        let mut out = Vec::new(alloc);
        let pairs = self.pointers_to(table);
        for level in 0..top {
            self.add_ways(
                scheme,
                level,
                Way::to(table, level),
                pairs.clone()?,
                &mut out,
            )?;
        }
        out.push(Way::to(table, top))?;
        Ok(out)
    }
}
