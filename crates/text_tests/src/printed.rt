//! Values of the machine as text.

use bitflags::Flags;
use history::{Refusal, Reply};
use lines::Text;
use pte::{Page, PageSize, PteFlags, Scheme, What};
use shoot::Request;
use std::alloc::{AllocError, Global};
use std::fmt::Display;
use std::test::Fail;
use walk::{Trap, Why};

fn is_printed<T: Display>(alloc: Global, value: &T, text: &str) -> Result<bool, AllocError> {
    Ok(format!(in alloc; "{value}")?.as_str() == text)
}

#[test]
fn values_are_printed(rt: HostRuntime) -> Result<(), Fail> {
    let alloc = rt.alloc();
    let Ok(page) = Page::at(Scheme::Sv39, 0x40_0000, PageSize::Mib2) else {
        return Err(Fail::new("no page"));
    };
    let flags = PteFlags::R | PteFlags::W | PteFlags::U | PteFlags::A | PteFlags::D;
    let request = Request {
        ticket: 3,
        what: What::PageOf(page, Some(1)),
    };
    let trap = Trap {
        cause: 13,
        why: Why::Invalid,
    };
    assert!(rt; is_printed(alloc, &Text(page), "2M:0x400000")?);
    assert!(rt; is_printed(alloc, &Text(flags), "rwuad")?);
    assert!(rt; is_printed(alloc, &Text(PteFlags::empty()), "-")?);
    assert!(rt; is_printed(alloc, &Text(request), "taken 3 page 2M:0x400000 asid 1")?);
    assert!(rt; is_printed(alloc, &Text(Reply::Hit(0x20_0123)), "hit 0x200123")?);
    assert!(rt; is_printed(alloc, &Text(Reply::Trap(trap)), "trap 13 Invalid")?);
    assert!(rt; is_printed(alloc, &Text(Reply::Waiting(0b110)), "waiting 1,2")?);
    assert!(rt;
        is_printed(
            alloc,
            &Text(Reply::Refused(Refusal::NoHart)),
            "refused NoHart"
        )?
    );
    Ok(())
}
