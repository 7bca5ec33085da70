//! A shootdown in one call of the sender.

use board::Board;
use harts::shoot_down;
use history::Refusal;
use pte::{Page, PageSize, PteFlags, Scheme};
use shoot::Collected;
use spaces::{Config, Place};
use std::test::Fail;

#[test]
fn hart_1_is_asked(rt: HostRuntime) -> Result<(), Fail> {
    let Ok(page) = Page::at(Scheme::Sv39, 0x40_0000, PageSize::Mib2) else {
        return Err(Fail::new("no page"));
    };
    let Ok((_board, mut ports)) = Board::open(rt.alloc(), &Config::with_harts(2)) else {
        return Err(Fail::new("no board"));
    };
    let (Some(mut one), Some(mut zero)) = (ports.pop(), ports.pop()) else {
        return Err(Fail::new("no ports"));
    };
    let (place, flags) = (Place::Space(0), PteFlags::R | PteFlags::U | PteFlags::A);
    assert!(rt; zero.map_step(place, page, 0x200, flags).is_ok());
    assert!(rt; zero.map_step(place, page, 0x200, flags).is_ok());
    assert!(rt; shoot_down(&mut zero, place, page, 0b11) == Ok(0));
    assert!(rt; zero.collect(0) == Ok(Collected::Waiting(0b10)));
    assert!(rt; one.serve(0).is_ok());
    assert!(rt; zero.collect(0) == Ok(Collected::Done));
    assert!(rt; shoot_down(&mut zero, place, page, 0b11) == Err(Refusal::NotMapped));
    Ok(())
}
