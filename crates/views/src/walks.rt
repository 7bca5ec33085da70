//! A whole walk.

ghost use Rattle.std.specs.Prelude.{◌≡◌};
ghost use Rattle.pte.specs.Address.{IsCanonical};
ghost use Rattle.spaces.specs.Layout.{layout_of};
ghost use Rattle.views.specs.Rule.{IsRoot};
ghost use Rattle.views.specs.OnBoard.{IsFit};
ghost use Rattle.views.specs.Walks.{AnswersByLoads, Walked};

use crate::rule::Words;
use crate::seat::Seat;
use crate::steps::{load_first, load_next};
use pte::{Access, Ctx, VirtAddr};
use spaces::Config;
use std::ops::ControlFlow;
use walk::{Found, Trap, Walk, Why};

/// Where an access of a virtual address leads from a space's root, by the words that this call's
/// own loads find: one a level, between which other harts may store. What is found is filled in. That
/// no word of an earlier walk counts is the law `each_read_is_of_an_own_load`.
pub fn walk(
    words: &Words,
    seat: &mut Seat,
    config: &Config,
    root: u64,
    va: u64,
    access: Access,
    ctx: Ctx,
) -> Result<Found, Trap>
    requires fit { IsFit words.now.table_id words.now.key config.now seat.old }
    requires root { IsRoot (layout_of config.now) root }
    ensures fit { IsFit words.now.table_id words.now.key config.now seat.new }
    ensures tlb { seat.new.tlb ≡ seat.old.tlb }
    ensures walked { Walked (layout_of config.now) seat.old.view root va access ctx result
        seat.new.view }
{
    let Some(va) = VirtAddr::new_in(config.scheme, va) else {
        return Err(Trap::page(access, Why::NotCanonical));
    };
    walk_from_root(words, seat, config, root, va, access, ctx)
}

/// The same for an address that the caller found canonical in the scheme.
pub fn walk_from_root(
    words: &Words,
    seat: &mut Seat,
    config: &Config,
    root: u64,
    va: VirtAddr,
    access: Access,
    ctx: Ctx,
) -> Result<Found, Trap>
    requires fit { IsFit words.now.table_id words.now.key config.now seat.old }
    requires root { IsRoot (layout_of config.now) root }
    requires canonical { IsCanonical config.now.scheme va }
    ensures fit { IsFit words.now.table_id words.now.key config.now seat.new }
    ensures tlb { seat.new.tlb ≡ seat.old.tlb }
    ensures loads { AnswersByLoads (layout_of config.now) seat.old.view root va access ctx result
        seat.new.view }
{
    let mut walk = Walk::from_root(config.scheme, root, va, access, ctx);
    let mut word = load_first(words, seat, config, root, walk);
    loop {
        match walk.load(Some(word)).flow() {
            ControlFlow::Continue(next) => {
                word = load_next(words, seat, config, root, next);
                walk = next;
            }
            ControlFlow::Break(answer) => return answer,
        }
    }
}
