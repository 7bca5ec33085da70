//! An edit that reads its page's path one word at a time.

ghost use Rattle.std.specs.Prelude.{◌≡◌, ◌<◌, ◌≤◌, ◌^◌, IfSome};
ghost use Rattle.walk.specs.Pointers.{pointed};
ghost use Rattle.spaces.specs.Layout.{HasPlace, layout_of};
ghost use Rattle.spaces.specs.Limits.{MeetsLimits};
ghost use Rattle.spaces.specs.declared.configuration.TheConstants.{MAX_FRAMES};
ghost use Rattle.spaces.specs.Edits.{IsStage, is_wrong_half, page_of, place_of};
ghost use Rattle.spaces.specs.EditStages.{bare_layout, below_of, due_here, edit_next, edit_start, index_of, start_at_home};

use crate::configuration::Config;
use crate::edits::Edit;
use crate::faults::MapFault;
use crate::places::Place;
use crate::wishes::{PathEnd, Wish};
use bitflags::Flags;
use pte::{PPN_BITS, PPN_SHIFT, PteFlags, Scheme, TABLE_LENGTH};
use std::marker::Model;

/// How many of a root's slots are the user's half.
pub(crate) const USER_SLOTS: u16 = TABLE_LENGTH / 2;

/// An edit between two loads. It holds no memory: `wants` names the word that comes next, and
/// `load` takes it. It ends after at most three loads under Sv39, and four under Sv48.
#[derive(Clone, Copy, Debug)]
pub struct EditWalk {
    wish: Wish,
    // the level of the table that is read next
    level: u8,
    // the PPN of that table
    table: u64,
}

impl Model for EditWalk {
    ghost use Rattle.spaces.specs.Edits.{EditStage, IsStage};

    ghost Value = { EditStage };

    ghost view = { λ e. record { wish = e.wish; level = e.level; table = e.table } };

    ghost invariant = { λ e. IsStage (record { wish = e.wish; level = e.level; table = e.table }) };

    ghost inverse = { λ s. record { wish = s.wish; level = s.level; table = s.table } };
}

/// What comes of a load.
#[derive(Clone, Copy, Debug)]
pub enum Next {
    /// The word was a pointer above the page's level: the path goes on one level below.
    More(EditWalk),
    /// The one store that is due.
    Edit(Edit),
    /// No store is due.
    Refused(MapFault),
}

/// V, in the word of an entry.
const VALID: u64 = 0x01;

/// The table that a word points to. A pointer has V, no other flag but G, and no bit from 54 on.
#[inline(always)]
#[tactic(auto, using(crate::proofs::Pointers::targets))]
pub(crate) fn target(word: u64) -> Option<u64>
    ensures { result ≡ pointed (Some word) }
{
    let global = u64::from(PteFlags::G.bits());
    let flags = word % 256;
    let is_pointer = word >> (PPN_SHIFT + PPN_BITS) == 0
        && (flags == VALID || flags == VALID + global);
    if is_pointer {
        Some(word >> PPN_SHIFT)
    } else {
        None
    }
}

impl EditWalk {
    ghost use Rattle.std.specs.Prelude.{ℕ, ◌==◌, IsTrue, None, Option, Some};
    ghost use Rattle.pte.specs.Address.{level_of};

    /// The edit that a hart begins. The refusals that no word decides come here, in the order of
    /// `MapFault`; last that of a page of the kernel of the root's level, where the window's table
    /// stands: `TableInWay`, or `WrongSize` to unmap or protect it.
    pub fn begin(config: &Config, hart: u8, wish: Wish) -> Result<EditWalk, MapFault>
        requires limits { MeetsLimits MAX_FRAMES config.now }
        requires place { HasPlace (layout_of config.now) (place_of wish) }
        ensures { result ≡ edit_start (layout_of config.now) hart wish }
    {
        if hart != config.home(wish.place()) {
            return Err(MapFault::NotHome);
        }
        EditWalk::start(config.scheme, config.window, config.base, wish)
    }

    /// The edit that its home begins, in memory of a scheme and a window of `window` slots, from
    /// the PPN `base` on.
    #[inline(always)]
    pub(crate) fn start(
        scheme: Scheme,
        window: u16,
        base: u64,
        wish: Wish,
    ) -> Result<EditWalk, MapFault>
        requires window { window ≤ TABLE_LENGTH }
        requires base { base ≤ 2 ^ PPN_BITS }
        ensures { result ≡ start_at_home (bare_layout scheme window base) wish }
    {
        if wish.is_wrong_half(scheme, window) {
            return Err(MapFault::WrongHalf);
        }
        if let Some(fault) = wish.leaf_fault() {
            return Err(fault);
        }
        match wish.place() {
            Place::Space(space) => Ok(EditWalk {
                wish,
                level: scheme.top_level(),
                table: base + u64::from(window) + u64::from(space),
            }),
            Place::Kernel => {
                let top = scheme.top_level();
                if wish.level() == top {
                    return Err(wish.table_fault());
                }
                let page = wish.page();
                let slot = page.base().vpn(top);
                Ok(EditWalk {
                    wish,
                    level: top - 1,
                    table: base + u64::from(slot.saturating_sub(TABLE_LENGTH - window)),
                })
            }
        }
    }

    /// The word that the edit waits for: the PPN of its table, and the index there, below 512.
    #[inline(always)]
    pub fn wants(&self) -> (u64, u16)
        ensures table { result.0 ≡ self.now.table }
        ensures index { result.1 ≡ index_of self.now }
        ensures stage { IsStage self.now }
    {
        let page = self.wish.page();
        (self.table, page.base().vpn(self.level))
    }

    /// The edit one level below, if the word is a pointer above the page's level.
    #[inline(always)]
    pub(crate) fn below(self, word: u64) -> Option<EditWalk>
        ensures { result ≡ below_of self word }
    {
        if self.is_at_page() {
            return None;
        }
        let table = target(word)?;
        Some(EditWalk {
            wish: self.wish,
            level: self.level - 1,
            table,
        })
    }

    /// The store that is due where the path ends at a word, or why none is.
    #[inline(always)]
    pub(crate) fn end(self, word: u64, spare: Option<u64>) -> Result<Edit, MapFault>
        requires { IfSome spare (λ frame. frame < 2 ^ PPN_BITS) }
        ensures { result ≡ due_here self word spare }
    {
        let end = PathEnd {
            level: self.level,
            table: self.table,
            entry: word,
        };
        let word = self.wish.due_word(spare, &end)?;
        let (ppn, index) = self.wants();
        Ok(Edit::new(self.wish.place(), ppn, index, word))
    }

    /// Whether the edit waits for a word of its page's level, so that the store that is due does
    /// not turn on the spare frame. No edit is below that level: tested by `<=`, the compiler sees
    /// that the loads are few.
    #[inline(always)]
    #[tactic(auto, using(crate::proofs::Stages::needless))]
    pub(crate) fn is_at_page(&self) -> bool
        ensures level { result ≡ (self.now.level == level_of (page_of self.now.wish).size) }
        ensures spare { IsTrue result → (word : ℕ) (o : Option ℕ)
            → due_here self.now word None ≡ due_here self.now word o }
    {
        self.level <= self.wish.level()
    }

    /// Goes on with the word that the edit waited for; `spare` is the PPN of the home's lowest
    /// unused spare frame, which is below 2^44.
    #[inline(always)]
    pub fn load(self, word: u64, spare: Option<u64>) -> Next
        requires { IfSome spare (λ frame. frame < 2 ^ PPN_BITS) }
        ensures { result ≡ edit_next self word spare }
    {
        if let Some(next) = self.below(word) {
            return Next::More(next);
        }
        match self.end(word, spare) {
            Ok(edit) => Next::Edit(edit),
            Err(fault) => Next::Refused(fault),
        }
    }
}
