use crate::calls::Answer::{
    Accepted, Done, Found, Leaf, Opened, Refused, Table, TakenAll, TakenPage, Timeout, Waiting,
};
use crate::calls::Call::{
    AckSelf, Close, Collect, Fence, Finish, Flush, Load, Map, Post, Protect, Serve, Store, Switch,
    Unmap, Wait,
};
use crate::calls::Leaves::{Readable, Writable};
use crate::calls::*;
use crate::runs::*;
use history::Refusal::{
    AlreadyMapped, AlreadyPosted, Closed, Empty, HomeNotNamed, NoHart, NoSpace, NotDone, NotHome,
    NotNamed, NotOpen,
};
use history::{Refusal, Scope};
use spaces::Place;
use std::test::Fail;

/// The page of the tests, of space 0.
const PAGE: u64 = 0x1000;

const OWN: Place = Place::Space(0);

const PROTECTED: [Row; 25] = [
    (0, Map(OWN, PAGE, 0x100, Readable), Table(0x8_0003)),
    (0, Map(OWN, PAGE, 0x100, Readable), Table(0x8_0004)),
    (0, Map(OWN, PAGE, 0x100, Readable), Leaf),
    (0, Map(OWN, PAGE, 0x100, Readable), Refused(AlreadyMapped)),
    (1, Map(OWN, PAGE, 0x100, Readable), Refused(NotHome)),
    (0, Load(0x1004), Found(0x10_0004)),
    (0, Store(0x1004), DENIED),
    (1, Load(0x1008), Found(0x10_0008)),
    (0, Protect(OWN, PAGE, Writable, 0b11), Opened(0)),
    (0, Post(0, 1), Accepted),
    (0, Post(0, 1), Refused(AlreadyPosted)),
    (0, Store(0x1004), DENIED),
    (0, Collect(0), Waiting(0b11)),
    (0, Finish(0), Refused(NotDone)),
    (1, Store(0x1004), DENIED),
    (1, Serve(0), TakenPage(0, PAGE, Some(1))),
    (1, Serve(0), Refused(Empty)),
    (1, Store(0x1004), Found(0x10_0004)),
    (0, AckSelf(0), Waiting(0b10)),
    (0, Store(0x1004), Found(0x10_0004)),
    (0, Collect(0), Done),
    (0, Finish(0), Accepted),
    (0, Finish(0), Refused(NotOpen)),
    (0, Collect(0), Refused(NotOpen)),
    (0, AckSelf(0), Refused(NotOpen)),
];

/// One request of hart 0 to hart 1 is accepted and taken.
const ONE_THERE: [Pair; 2] = [(0, 1, 1, 1), (1, 0, 0, 0)];

// A page is mapped, used, and made writable; hart 1 is asked to drop it, and everything is answered
// in turn.
#[test]
fn protected_in_setup(rt: HostRuntime) -> Result<(), Fail> {
    let ran = assert_setup(&rt, rt.alloc(), 3, PROTECTED.as_slice())?;
    assert_pairs(&rt, ran.report.pairs.as_slice(), ONE_THERE.as_slice());
    Ok(())
}

const FLUSHED: [Row; 31] = [
    (0, Map(OWN, PAGE, 0x100, Readable), Table(0x8_0003)),
    (0, Map(OWN, PAGE, 0x100, Readable), Table(0x8_0004)),
    (0, Map(OWN, PAGE, 0x100, Readable), Leaf),
    (1, Load(0x1004), Found(0x10_0004)),
    (1, Switch(2), Refused(NoSpace)),
    (1, Switch(1), Accepted),
    (1, Load(0x1004), INVALID),
    (1, Switch(0), Accepted),
    (0, Unmap(OWN, PAGE, 0b01), Opened(0)),
    (1, Load(0x1004), Found(0x10_0004)),
    (1, Fence(None, None), Accepted),
    (1, Load(0x1004), INVALID),
    (0, Flush(Scope::All, 0b11), Opened(1)),
    (0, Flush(Scope::Space(1), 0b11), Opened(2)),
    (0, Flush(Scope::Space(2), 0b11), Refused(NoSpace)),
    (0, Flush(Scope::All, 0b10), Refused(HomeNotNamed)),
    (0, Flush(Scope::All, 0b101), Refused(NoHart)),
    (0, Post(1, 1), Accepted),
    (0, Post(0, 1), Refused(NotNamed)),
    (0, Post(3, 1), Refused(NotOpen)),
    (0, Close(1), Accepted),
    (0, Close(1), Refused(Closed)),
    (0, Close(0), Refused(NoHart)),
    (0, Post(2, 1), Refused(Closed)),
    (1, Serve(0), TakenAll(1)),
    (1, Serve(1), Refused(NoHart)),
    (1, Serve(2), Refused(NoHart)),
    (0, AckSelf(1), Waiting(0b10)),
    (0, Wait(1), Done),
    (0, AckSelf(2), Waiting(0b10)),
    (0, Wait(2), Timeout),
];

// Flushes, spaces, fences, and mailboxes that are closed.
#[test]
fn flushed_in_setup(rt: HostRuntime) -> Result<(), Fail> {
    let ran = assert_setup(&rt, rt.alloc(), 3, FLUSHED.as_slice())?;
    assert_pairs(&rt, ran.report.pairs.as_slice(), ONE_THERE.as_slice());
    Ok(())
}

const WAITS: [Row; 16] = [
    (0, Flush(Scope::All, 0b11), Opened(0)),
    (0, Flush(Scope::Space(0), 0b11), Opened(1)),
    (0, Post(0, 1), Accepted),
    (0, Post(1, 1), Accepted),
    (0, AckSelf(0), Waiting(0b10)),
    (0, Wait(0), Timeout),
    (1, Wait(5), Refused(NotOpen)),
    (0, Wait(0), Done),
    (1, Flush(Scope::All, 0b11), Opened(0)),
    (1, Post(0, 0), Accepted),
    (0, Wait(1), Timeout),
    (1, AckSelf(0), Waiting(0b01)),
    (1, Collect(0), Done),
    (1, Wait(0), Done),
    (0, Flush(Scope::All, 0b11), Opened(2)),
    (0, Post(2, 1), Accepted),
];

// A hart that waits serves the others meanwhile. What nobody serves is still there at the end.
#[test]
fn waits_in_setup(rt: HostRuntime) -> Result<(), Fail> {
    let ran = assert_setup(&rt, rt.alloc(), 1, WAITS.as_slice())?;
    assert!(&rt; ran.report.pairs.len() == 2);
    let there = &ran.report.pairs[0];
    assert!(&rt; there.sender == 0 && there.receiver == 1 && there.accepted == 3);
    assert!(&rt; there.taken.checked_add(there.waiting.len() as u64) == Some(3));
    Ok(())
}
