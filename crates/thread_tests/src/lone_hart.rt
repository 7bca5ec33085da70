//! A board with one hart answers as a machine does.
ghost use Rattle.std.specs.Prelude.{◌≡◌};

use crate::calls::{USER, assert_row, page, readable};
use arrayvec::ArrayVec;
use history::{Refusal, Reply, Scope};
use one_hart::{Call, both_answers};
use pte::{Access, Page, Scheme};
use spaces::{Config, Place, Space};
use std::alloc::{AllocError, Global};
use std::process::Abort;
use std::test::Fail;
use walk::{Trap, Why};

/// One hart, and spaces 0 and 1 of ASIDs 1 and 2.
fn one_hart() -> Config
    ensures { result.harts ≡ 1 }
{
    let mut spaces = ArrayVec::new();
    spaces.push(Space { home: 0, asid: 1 });
    spaces.push(Space { home: 0, asid: 2 });
    let mut spares = ArrayVec::new();
    spares.push(8);
    Config {
        scheme: Scheme::Sv39,
        harts: 1,
        spaces,
        window: 1,
        base: 0x8_0000,
        spares,
        capacity: 4,
    }
}

const PLACE: Place = Place::Space(0);

fn load(va: u64) -> Call {
    Call::Translate {
        va,
        access: Access::Load,
        ctx: USER,
    }
}

fn map(page: Page) -> Call {
    Call::Map {
        place: PLACE,
        page,
        ppn: 0x100,
        flags: readable(),
    }
}

fn unmap(page: Page) -> Call {
    Call::Unmap {
        place: PLACE,
        page,
        named: 1,
    }
}

fn flush(named: u8) -> Call {
    Call::Flush {
        scope: Scope::Space(1),
        named,
    }
}

const FENCE: Call = Call::Fence {
    rs1: None,
    rs2: None,
};

fn trap(why: Why) -> Reply {
    Reply::Trap(Trap { cause: 13, why })
}

fn refused(refusal: Refusal) -> Reply {
    Reply::Refused(refusal)
}

fn opened(ticket: u32) -> Reply {
    Reply::Opened(ticket)
}

fn rows(page: Page) -> [(Call, Reply); 24] {
    [
        (load(0x1004), trap(Why::Invalid)),
        (map(page), Reply::Table(0x8_0003)),
        (map(page), Reply::Table(0x8_0004)),
        (map(page), Reply::Leaf),
        (map(page), refused(Refusal::AlreadyMapped)),
        (load(0x1004), Reply::Hit(0x10_0004)),
        (unmap(page), opened(0)),
        // the TLB answers until the hart serves its own ticket
        (load(0x1008), Reply::Hit(0x10_0008)),
        (Call::Collect { ticket: 0 }, Reply::Waiting(1)),
        (Call::Finish { ticket: 0 }, refused(Refusal::NotDone)),
        (Call::AckSelf { ticket: 0 }, Reply::Done),
        (load(0x1004), trap(Why::Invalid)),
        (Call::Finish { ticket: 0 }, Reply::Ok),
        (Call::Collect { ticket: 0 }, refused(Refusal::NotOpen)),
        (flush(1), opened(0)),
        (flush(0), refused(Refusal::HomeNotNamed)),
        (flush(2), refused(Refusal::NoHart)),
        (Call::Post { ticket: 0, to: 0 }, refused(Refusal::NoHart)),
        (Call::Serve { from: 1 }, refused(Refusal::NoHart)),
        (Call::CloseTo { to: 0 }, refused(Refusal::NoHart)),
        (Call::Switch { space: 2 }, refused(Refusal::NoSpace)),
        (Call::Switch { space: 1 }, Reply::Ok),
        (FENCE, Reply::Ok),
        (load(1 << 40), trap(Why::NotCanonical)),
    ]
}

fn calls_of(alloc: Global, rows: &[(Call, Reply)]) -> Result<Vec<Call>, AllocError> {
    let mut calls = Vec::with_capacity(alloc, rows.len())?;
    for (call, _) in rows {
        calls.push(*call)?;
    }
    Ok(calls)
}

/// Each row has its reply.
fn assert_replies(rt: &impl Abort, replies: &[Reply], rows: &[(Call, Reply)]) {
    assert!(rt; replies.len() == rows.len());
    for (number, (reply, row)) in replies.iter().zip(rows).enumerate() {
        assert_row(rt, number, *reply == row.1);
    }
}

#[test]
fn both_answer_alike(rt: HostRuntime) -> Result<(), Fail> {
    let Some(page) = page(0x1000) else {
        return Err(Fail::new("no page"));
    };
    let rows = rows(page);
    let calls = calls_of(rt.alloc(), &rows)?;
    let Ok((by_port, by_machine)) = both_answers(rt.alloc(), &one_hart(), &calls) else {
        return Err(Fail::new("no board"));
    };
    assert_replies(&rt, by_port.as_slice(), &rows);
    assert_replies(&rt, by_machine.as_slice(), &rows);
    Ok(())
}
