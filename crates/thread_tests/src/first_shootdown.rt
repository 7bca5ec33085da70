//! A first shootdown by ports: hart 0 takes a page away that hart 1 has in its TLB. It is shown
//! in README.md and docs/LIBRARY.md.

use board::{Board, HartPort};
use history::Refusal;
use pte::{Access, Ctx, Page, PageSize, PteFlags, Scheme};
use shoot::Collected;
use spaces::{Config, Place};
use std::test::Fail;

/// Hart 0 maps a page, hart 1 loads from it, and hart 0 unmaps it in both TLBs.
fn shoot_down(zero: &mut HartPort, one: &mut HartPort, page: Page) -> Result<Collected, Refusal> {
    let place = Place::Space(0);
    let flags = PteFlags::R | PteFlags::U | PteFlags::A;
    zero.map_step(place, page, 0x100, flags)?; // a pointer to a new table
    zero.map_step(place, page, 0x100, flags)?; // one more
    zero.map_step(place, page, 0x100, flags)?; // the leaf
    let _pa = one.translate(0x1234, Access::Load, Ctx::user()); // hart 1 has the page in its TLB
    let ticket = zero.unmap(place, page, 0b11)?; // 0 on the leaf; harts 0 and 1 have to drop it
    zero.post(ticket, 1)?; // a request to hart 1,
    one.serve(0)?; // which drops the page and acknowledges
    zero.ack_self(ticket)?; // so does hart 0 itself
    zero.collect(ticket) // Done: the frame is free
}

#[test]
fn frame_is_free_when_done(rt: HostRuntime) -> Result<(), Fail> {
    let Ok(page) = Page::at(Scheme::Sv39, 0x1000, PageSize::Kib4) else {
        return Err(Fail::new("no page"));
    };
    let Ok((_board, mut ports)) = Board::open(rt.alloc(), &Config::with_harts(2)) else {
        return Err(Fail::new("no board"));
    };
    let (Some(mut one), Some(mut zero)) = (ports.pop(), ports.pop()) else {
        return Err(Fail::new("no ports"));
    };
    assert!(rt; shoot_down(&mut zero, &mut one, page) == Ok(Collected::Done));
    Ok(())
}
