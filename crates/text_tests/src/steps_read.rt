//! Texts of steps of `run`, and the steps that they write.
use crate::asserting::assert_of;
use bitflags::Flags;
use history::{Event, Scope};
use pte::{Access, Ctx, Mode, Page, PageSize, PteFlags, Scheme, VirtAddr};
use spaces::Place;
use std::process::Abort;
use std::test::Fail;
use steps::{run_step, run_step_among};

/// The schemes that a text is read in.
const SCHEMES: [Scheme; 2] = [Scheme::Sv39, Scheme::Sv48];

fn page(base: u64, size: PageSize) -> Result<Page, Fail> {
    let Some(base) = VirtAddr::new_in(Scheme::Sv48, base) else {
        return Err(Fail::from("a canonical address was looked for"));
    };
    match Page::new(base, size) {
        Ok(page) => Ok(page),
        Err(_) => Err(Fail::from("an aligned address was looked for")),
    }
}

/// Each text writes its event in each scheme where there are 8 harts.
fn assert_steps(rt: &impl Abort, steps: &[(&str, Event)]) {
    for scheme in SCHEMES {
        for (text, event) in steps {
            assert_of(rt, text, run_step_among(scheme, 8, text) == Ok(*event));
            assert_of(rt, text, run_step(scheme, text) == Some(*event));
        }
    }
}

#[test]
fn steps_of_walks_and_fences(rt: HostRuntime) {
    let ctx = Ctx {
        mode: Mode::Super,
        sum: true,
        mxr: false,
    };
    let begin = |hart, va, access| Event::Begin {
        hart,
        va,
        access,
        ctx,
    };
    let fence = |hart, rs1, rs2| Event::Fence { hart, rs1, rs2 };
    assert_steps(
        &rt,
        &[
            (
                "1 begin s+sum load 0xFFFFFFFFC0000008",
                begin(1, 0xffff_ffff_c000_0008, Access::Load),
            ),
            (" 0x7\tload ", Event::Load { hart: 7 }),
            ("3 switch 31", Event::Switch { hart: 3, space: 31 }),
            ("1 fence x0 x0", fence(1, None, None)),
            (
                "1 fence 0xFFFFFFFFFFFFFFFF 65536",
                fence(1, Some(u64::MAX), Some(65536)),
            ),
            ("1 fence 0 x0", fence(1, Some(0), None)),
        ],
    );
}

#[test]
fn steps_of_edits(rt: HostRuntime) -> Result<(), Fail> {
    let map = |hart, place, page, ppn, flags| Event::Map {
        hart,
        place,
        page,
        ppn,
        flags,
    };
    let readable = PteFlags::R | PteFlags::U | PteFlags::A | PteFlags::D;
    let global = PteFlags::G | PteFlags::W | PteFlags::X;
    let user = page(0x1000, PageSize::Kib4)?;
    let kernel = page(0xffff_ffff_c000_0000, PageSize::Gib1)?;
    let unmap = Event::Unmap {
        hart: 0,
        place: Place::Space(255),
        page: page(0x40_0000, PageSize::Mib2)?,
        named: 0x83,
    };
    assert_steps(
        &rt,
        &[
            (
                "0 map 0 4K:0x1000 0x100 ruad",
                map(0, Place::Space(0), user, 0x100, readable),
            ),
            (
                "2 map k 1G:18446744072635809792 0 gwx",
                map(2, Place::Kernel, kernel, 0, global),
            ),
            ("0 unmap 255 2M:0x400000 0,1,7,1", unmap),
        ],
    );
    Ok(())
}

/// Each letter alone, by the name that the flag has in the manual.
#[test]
fn letters_of_flags(rt: HostRuntime) -> Result<(), Fail> {
    let (hart, place) = (0, Place::Space(0));
    let page = page(0, PageSize::Kib4)?;
    let none = PteFlags::from_bits_retain(0);
    for (text, flags, named) in [
        ("0 protect 0 4K:0x0 - -", none, 0),
        ("0 protect 0 4K:0 r 0", PteFlags::R, 1),
        ("0 protect 0 4K:0 w 0", PteFlags::W, 1),
        ("0 protect 0 4K:0 x 0", PteFlags::X, 1),
        ("0 protect 0 4K:0 u 0", PteFlags::U, 1),
        ("0 protect 0 4K:0 g 0", PteFlags::G, 1),
        ("0 protect 0 4K:0 a 0", PteFlags::A, 1),
        ("0 protect 0 4K:0 d 0", PteFlags::D, 1),
    ] {
        let protect = Event::Protect {
            hart,
            place,
            page,
            flags,
            named,
        };
        assert_steps(&rt, &[(text, protect)]);
    }
    Ok(())
}

#[test]
fn steps_of_shootdowns(rt: HostRuntime) {
    let flush = |hart, scope, named| Event::Flush { hart, scope, named };
    let post = |hart, ticket, to| Event::Post { hart, ticket, to };
    let collect = |hart, ticket, from| Event::Collect { hart, ticket, from };
    let own = |hart, ticket| Event::AckSelf { hart, ticket };
    let finish = |hart, ticket| Event::Finish { hart, ticket };
    assert_steps(
        &rt,
        &[
            ("0 flush all 0,1", flush(0, Scope::All, 3)),
            ("0 flush 0x1 -", flush(0, Scope::Space(1), 0)),
            ("0 post 4294967295 1", post(0, u32::MAX, 1)),
            ("1 take 0", Event::Take { hart: 1, from: 0 }),
            ("1 take 1", Event::Take { hart: 1, from: 1 }),
            ("1 servefence", Event::ServeFence { hart: 1 }),
            ("1 ack", Event::Ack { hart: 1 }),
            ("0 ackself 5", own(0, 5)),
            ("0 collect 5 1", collect(0, 5, 1)),
            ("0 finish 64", finish(0, 64)),
            ("0 close 1", Event::Close { hart: 0, to: 1 }),
        ],
    );
}

#[test]
fn steps_of_spaces(rt: HostRuntime) {
    let retire = |hart, space| Event::Retire { hart, space };
    let reclaim = |hart, space| Event::Reclaim { hart, space };
    let create = |hart, space, asid| Event::Create { hart, space, asid };
    assert_steps(
        &rt,
        &[
            ("0 retire 1", retire(0, 1)),
            ("7\tretire 0xFF ", retire(7, 255)),
            ("0 reclaim 1", reclaim(0, 1)),
            (" 1 reclaim 255", reclaim(1, 255)),
            ("0 create 1 2", create(0, 1, 2)),
            ("0 create 0 0", create(0, 0, 0)),
            ("7 create 255 65535", create(7, 255, 65535)),
            ("1 create 0x1F 0xffff", create(1, 31, 65535)),
        ],
    );
}

/// The text writes the event in Sv48.
fn assert_step_of_sv48(rt: &impl Abort, text: &str, event: &Event) {
    assert_of(
        rt,
        text,
        run_step_among(Scheme::Sv48, 2, text) == Ok(*event),
    );
    assert_of(rt, text, run_step(Scheme::Sv48, text) == Some(*event));
}

/// Steps of Sv48 alone.
#[test]
fn pages_of_512_gib(rt: HostRuntime) -> Result<(), Fail> {
    let user = page(0x80_0000_0000, PageSize::Gib512)?;
    let flags = PteFlags::R | PteFlags::U | PteFlags::A | PteFlags::D;
    let map = Event::Map {
        hart: 0,
        place: Place::Space(0),
        page: user,
        ppn: 0x1000_0000,
        flags,
    };
    let unmap = Event::Unmap {
        hart: 1,
        place: Place::Space(0),
        page: user,
        named: 3,
    };
    let protect = Event::Protect {
        hart: 0,
        place: Place::Kernel,
        page: page(0xffff_ff80_0000_0000, PageSize::Gib512)?,
        flags,
        named: 0,
    };
    assert_step_of_sv48(&rt, "0 map 0 512G:0x8000000000 0x10000000 ruad", &map);
    assert_step_of_sv48(&rt, "1 unmap 0 512G:549755813888 0,1", &unmap);
    assert_step_of_sv48(&rt, "0 protect k 512G:0xffffff8000000000 ruad -", &protect);
    Ok(())
}

#[test]
fn run_step_is_for_eight_harts(rt: HostRuntime) {
    for (text, event) in [
        ("7 ack", Some(Event::Ack { hart: 7 })),
        ("8 ack", None),
        ("0 close 8", None),
        ("0 flush all 0,8", None),
        ("0 unmap 0 4K:0x1 0", None),
    ] {
        for scheme in SCHEMES {
            assert_of(&rt, text, run_step(scheme, text) == event);
        }
    }
}

/// Each of the worked rows is a law that a caller gets.
#[test]
fn worked_rows_are_laws(_rt: HostRuntime) {
    steps::worked_letters();
    steps::worked_steps();
    steps::worked_faults();
    steps::worked_pages();
}
