//! Lines of scripts and of the setup of `live`, and what they write.
use crate::asserting::assert_of;
use history::{LiveStep, Scope};
use pte::{Access, Ctx, Mode, Page, PageSize, PteFlags, Scheme, VirtAddr};
use spaces::Place;
use std::process::Abort;
use std::test::Fail;
use steps::{StepFault, live_step_among, setup_step_among};

/// Each line of a script writes its step where there are 8 harts, in either scheme.
fn assert_script(rt: &impl Abort, rows: &[(&str, LiveStep)]) {
    for (line, step) in rows {
        for scheme in [Scheme::Sv39, Scheme::Sv48] {
            assert_of(rt, line, live_step_among(scheme, 8, line) == Ok(*step));
        }
    }
}

/// Each line of the setup writes its hart and step where there are 8 harts, in either scheme.
fn assert_setup(rt: &impl Abort, rows: &[(&str, u8, LiveStep)]) {
    for (line, hart, step) in rows {
        for scheme in [Scheme::Sv39, Scheme::Sv48] {
            assert_of(
                rt,
                line,
                setup_step_among(scheme, 8, line) == Ok((*hart, *step)),
            );
        }
    }
}

fn page(scheme: Scheme, base: u64, size: PageSize) -> Result<Page, Fail> {
    let Some(base) = VirtAddr::new_in(scheme, base) else {
        return Err(Fail::from("a canonical address was looked for"));
    };
    match Page::new(base, size) {
        Ok(page) => Ok(page),
        Err(_) => Err(Fail::from("an aligned address was looked for")),
    }
}

fn translate(va: u64, access: Access, mxr: bool) -> LiveStep {
    let (mode, sum) = (Mode::User, false);
    let ctx = Ctx { mode, sum, mxr };
    LiveStep::Translate { va, access, ctx }
}

#[test]
fn lines_of_tickets(rt: HostRuntime) {
    let (ticket, to, from) = (63, 7, 5);
    assert_script(
        &rt,
        &[
            ("post 63 0x7", LiveStep::Post { ticket, to }),
            ("serve 5", LiveStep::Serve { from }),
            ("ackself 0x3F", LiveStep::AckSelf { ticket }),
            ("collect 63", LiveStep::Collect { ticket }),
            ("finish 063", LiveStep::Finish { ticket }),
            ("close 7", LiveStep::Close { to }),
            (" wait\t63 ", LiveStep::Wait { ticket }),
        ],
    );
    let ticket = u32::MAX;
    assert_script(
        &rt,
        &[
            ("wait 4294967295", LiveStep::Wait { ticket }),
            ("collect 4294967295", LiveStep::Collect { ticket }),
        ],
    );
}

#[test]
fn lines_of_fences(rt: HostRuntime) {
    let access = Access::Fetch;
    let (scope, named, space) = (Scope::Space(31), 0x81, 255);
    let (rs1, rs2) = (None, Some(0xffff));
    assert_script(
        &rt,
        &[
            (
                "translate u+mxr fetch 0x1004",
                translate(0x1004, access, true),
            ),
            ("translate u fetch 1", translate(1, access, false)),
            ("flush 31 7,0,7", LiveStep::Flush { scope, named }),
            ("switch 255", LiveStep::Switch { space }),
            ("fence x0 65535", LiveStep::Fence { rs1, rs2 }),
        ],
    );
    let (scope, named) = (Scope::All, 0);
    assert_script(&rt, &[("flush all -", LiveStep::Flush { scope, named })]);
}

#[test]
fn lines_of_edits(rt: HostRuntime) -> Result<(), Fail> {
    let page = page(Scheme::Sv39, 0xffff_ffff_c020_0000, PageSize::Mib2)?;
    let (place, ppn, named) = (Place::Kernel, 0x200, 0x0a);
    let flags = PteFlags::R | PteFlags::W | PteFlags::G | PteFlags::A | PteFlags::D;
    let map = LiveStep::Map {
        place,
        page,
        ppn,
        flags,
    };
    let unmap = LiveStep::Unmap { place, page, named };
    let protect = LiveStep::Protect {
        place,
        page,
        flags,
        named,
    };
    assert_script(
        &rt,
        &[
            ("map k 2M:0xFFFFFFFFC0200000 0x200 dagwr", map),
            ("unmap k 2M:0xffffffffc0200000 1,3", unmap),
            ("protect k 2M:0xffffffffc0200000 rwgad 3,1", protect),
        ],
    );
    let unmap = LiveStep::Unmap { place, page, named };
    assert_setup(&rt, &[("2 unmap k 2M:0xffffffffc0200000 1,3", 2, unmap)]);
    Ok(())
}

#[test]
fn lines_of_the_setup(rt: HostRuntime) {
    let (ticket, to, from) = (0, 0, 1);
    assert_setup(
        &rt,
        &[
            ("0 translate u load 4", 0, translate(4, Access::Load, false)),
            ("7 post 0 0", 7, LiveStep::Post { ticket, to }),
            (" 0x3\tserve 1", 3, LiveStep::Serve { from }),
            ("06 collect 0", 6, LiveStep::Collect { ticket }),
            ("1 wait 0", 1, LiveStep::Wait { ticket }),
        ],
    );
}

#[test]
fn more_harts_than_a_set_has(rt: HostRuntime) {
    let scope = Scope::All;
    let line = "flush all 0,9,254";
    let flush = LiveStep::Flush { scope, named: 1 };
    assert!(rt; live_step_among(Scheme::Sv39, 255, line) == Ok(flush));
    let fault = Err(StepFault::NoSuchHart);
    assert!(rt; live_step_among(Scheme::Sv39, 254, line) == fault);
}

/// The rows that were worked out by hand hold of the definitions.
#[test]
fn worked_rows_are_laws(_rt: HostRuntime) {
    steps::worked_live_steps();
    steps::worked_live_faults();
    steps::worked_live_pages();
}
