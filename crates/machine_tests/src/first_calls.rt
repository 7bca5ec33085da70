//! A machine by its calls: hart 0 takes a page away, and later a space that no hart is in.

use crate::first_machine::two_harts;
use melissaledge::{
    Access, Collected, Config, Ctx, HartSet, Machine, MachineCalls, Mapped, Page, PageSize, Place,
    PteFlags, Refusal, Request, Scheme, Scope, What,
};
use std::test::Fail;

/// Hart 1 takes the request that hart 0 posted, drops what it names and says so.
fn serve(machine: &mut Machine) -> Result<Request, Refusal> {
    let request = machine.take(1, 0)?;
    machine.serve_fence(1)?;
    machine.ack(1)?;
    Ok(request)
}

#[test]
fn page_is_taken_away(rt: HostRuntime) -> Result<(), Fail> {
    let (Ok(page), Ok(mut machine)) = (
        Page::at(Scheme::Sv39, 0x40_0000, PageSize::Mib2),
        Machine::open(rt.alloc(), &two_harts()),
    ) else {
        return Err(Fail::new("no page, or no machine"));
    };
    let (place, flags) = (Place::Space(0), PteFlags::R | PteFlags::U | PteFlags::A);
    let both = HartSet::from(0b11);
    let asked = Request {
        ticket: 0,
        what: What::PageOf(page, Some(1)),
    };
    assert!(rt; machine.map(0, place, page, 0x200, flags) == Ok(Mapped::Table(0x8_0002)));
    assert!(rt; machine.map(0, place, page, 0x200, flags) == Ok(Mapped::Leaf));
    assert!(rt; machine.access(1, 0x40_0123, Access::Load, Ctx::user()) == Ok(Ok(0x20_0123)));
    assert!(rt; machine.unmap(0, place, page, both) == Ok(0));
    assert!(rt; machine.post(0, 0, 1) == Ok(()));
    assert!(rt; serve(&mut machine) == Ok(asked));
    assert!(rt; machine.ack_self(0, 0) == Ok(Collected::Waiting(0b10)));
    assert!(rt; machine.collect(0, 0, 1) == Ok(Collected::Done));
    assert!(rt; machine.finish(0, 0) == Ok(()));
    let gone = machine.protect(0, place, page, flags, both);
    assert!(rt; gone == Err(Refusal::NotMapped));
    Ok(())
}

#[test]
fn space_is_given_back(rt: HostRuntime) -> Result<(), Fail> {
    let config = Config::with_harts(2).space(0, 2);
    let Ok(mut machine) = Machine::open(rt.alloc(), &config) else {
        return Err(Fail::new("no machine"));
    };
    assert!(rt; machine.switch(1, 1) == Ok(()));
    assert!(rt; machine.retire(0, 1) == Err(Refusal::InUse));
    assert!(rt; machine.switch(1, 0) == Ok(()));
    assert!(rt; machine.flush(0, Scope::All, HartSet::from(0b01)) == Ok(0));
    assert!(rt; machine.fence(0, None, None) == Ok(()));
    assert!(rt; machine.retire(0, 1) == Ok(1));
    assert!(rt; machine.post(0, 1, 1) == Ok(()));
    assert!(rt; serve(&mut machine).is_ok());
    assert!(rt; machine.ack_self(0, 1) == Ok(Collected::Waiting(0b10)));
    assert!(rt; machine.collect(0, 1, 1) == Ok(Collected::Done));
    assert!(rt; machine.reclaim(0, 1) == Ok(()));
    assert!(rt; machine.create(0, 1, 7) == Ok(()));
    assert!(rt; machine.close(0, 1) == Ok(()));
    Ok(())
}
