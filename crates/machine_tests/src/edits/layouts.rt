//! Configurations at their limits, the default one, and what faults of memories say.

use super::{Layout, ONE_HART, TWO_HARTS, config_of};
use crate::common::assert_row;
use pte::Scheme;
use spaces::{Config, Limit, MapFault, Memory, OpenFault, Space};
use std::alloc::{AllocError, Global};

/// Whether a memory of this configuration is opened, as it is within the limits; `None` if there is
/// no room for it.
fn opens(alloc: Global, config: &Config) -> Option<bool> {
    match Memory::open(alloc, config) {
        Ok(_) => Some(true),
        Err(OpenFault::BadLayout) => Some(false),
        Err(OpenFault::NoMemory) => None,
    }
}

/// 32 spaces of ASIDs 0 to 31, at home on the last of eight harts.
const LARGEST: Layout = Layout {
    harts: 8,
    spares: &[1; 8],
    spaces: &[
        (7, 0),
        (7, 1),
        (7, 2),
        (7, 3),
        (7, 4),
        (7, 5),
        (7, 6),
        (7, 7),
        (7, 8),
        (7, 9),
        (7, 10),
        (7, 11),
        (7, 12),
        (7, 13),
        (7, 14),
        (7, 15),
        (7, 16),
        (7, 17),
        (7, 18),
        (7, 19),
        (7, 20),
        (7, 21),
        (7, 22),
        (7, 23),
        (7, 24),
        (7, 25),
        (7, 26),
        (7, 27),
        (7, 28),
        (7, 29),
        (7, 30),
        (7, 31),
    ],
    ..ONE_HART
};

/// A configuration, and whether it is within the limits.
const LAYOUTS: [(Layout, bool); 27] = [
    (
        Layout {
            harts: 0,
            ..ONE_HART
        },
        false,
    ),
    (
        Layout {
            harts: 9,
            ..ONE_HART
        },
        false,
    ),
    (
        Layout {
            window: 0,
            ..ONE_HART
        },
        false,
    ),
    (
        Layout {
            window: 5,
            ..ONE_HART
        },
        false,
    ),
    (
        Layout {
            spaces: &[],
            ..ONE_HART
        },
        false,
    ),
    (
        Layout {
            spaces: &[(0, 1), (0, 1)],
            ..ONE_HART
        },
        false,
    ),
    (
        Layout {
            spaces: &[(1, 1)],
            ..ONE_HART
        },
        false,
    ),
    (
        Layout {
            capacity: 0,
            ..ONE_HART
        },
        false,
    ),
    (
        Layout {
            capacity: 65,
            ..ONE_HART
        },
        false,
    ),
    (
        Layout {
            spares: &[511],
            ..ONE_HART
        },
        false,
    ),
    (
        Layout {
            spares: &[8, 8],
            ..ONE_HART
        },
        false,
    ),
    (
        Layout {
            base: (1 << 44) - 9,
            ..ONE_HART
        },
        false,
    ),
    (
        Layout {
            base: u64::MAX,
            ..ONE_HART
        },
        false,
    ),
    (
        Layout {
            base: (1 << 44) - 10,
            ..ONE_HART
        },
        true,
    ),
    (
        Layout {
            spares: &[510],
            ..ONE_HART
        },
        true,
    ),
    (
        Layout {
            capacity: 64,
            ..ONE_HART
        },
        true,
    ),
    (
        Layout {
            window: 4,
            ..ONE_HART
        },
        true,
    ),
    (
        Layout {
            capacity: 1,
            ..ONE_HART
        },
        true,
    ),
    (
        Layout {
            spares: &[0],
            ..ONE_HART
        },
        true,
    ),
    (
        Layout {
            spaces: &[(0, 0), (0, 0xFFFF)],
            ..ONE_HART
        },
        true,
    ),
    (
        Layout {
            spaces: &[(0, 1), (0, 2), (0, 1)],
            ..ONE_HART
        },
        false,
    ),
    // homes and ASIDs
    (
        Layout {
            spaces: &[(1, 1)],
            ..TWO_HARTS
        },
        true,
    ),
    (
        Layout {
            spaces: &[(2, 1)],
            ..TWO_HARTS
        },
        false,
    ),
    (
        Layout {
            spaces: &[(0, 1), (1, 2)],
            ..TWO_HARTS
        },
        true,
    ),
    (
        Layout {
            spaces: &[(0, 1), (1, 1)],
            ..TWO_HARTS
        },
        false,
    ),
    (
        Layout {
            spaces: &[(0, 1), (1, 2), (1, 1)],
            ..TWO_HARTS
        },
        false,
    ),
    (LARGEST, true),
];

/// With ample memory a memory is opened exactly within the limits.
#[test]
fn layouts_at_their_limits(rt: HostRuntime) {
    for (number, (layout, accepted)) in LAYOUTS.iter().enumerate() {
        let config = config_of(layout);
        let opened = opens(rt.alloc(), &config);
        assert_row(
            &rt,
            number,
            config.check() == *accepted && opened == Some(*accepted),
        );
    }
}

fn is_live(spares: &'static [u16]) -> bool {
    config_of(&Layout { spares, ..ONE_HART }).check_live()
}

#[test]
fn frames_of_a_live_machine(rt: HostRuntime) {
    assert!(rt; is_live(&[94]) && !is_live(&[95]));
}

/// The first limit that a configuration breaks, in the order of its fields.
#[test]
fn limits_are_told(rt: HostRuntime) {
    let two_spaces = Config::with_harts(2).sv48().space(1, 2);
    assert!(rt; two_spaces.scheme == Scheme::Sv48 && two_spaces.broken_limit() == None);
    let spaces = [Space { home: 0, asid: 1 }, Space { home: 1, asid: 2 }];
    assert!(rt; two_spaces.spaces.as_slice() == &spaces[..]);
    let no_such_home = Config::with_harts(2).space(2, 1);
    assert!(rt; no_such_home.broken_limit() == Some(Limit::Homes));
    let one_asid = Config::with_harts(2).space(1, 1);
    assert!(rt; one_asid.broken_limit() == Some(Limit::Asids));
    assert!(rt; Config::with_harts(9).broken_limit() == Some(Limit::Harts));
    let many = config_of(&Layout {
        spares: &[95],
        ..ONE_HART
    });
    assert!(rt; many.broken_live_limit() == Some(Limit::Frames) && many.broken_limit() == None);
    assert!(rt; Config::with_harts(8).broken_live_limit() == None);
}

#[test]
fn copies_are_equal(rt: HostRuntime) -> Result<(), AllocError> {
    let config = Config::with_harts(2).space(1, 2);
    assert!(rt; config.clone()? == config && config != Config::with_harts(2));
    Ok(())
}

/// The default has the numbers that a file gets that leaves each key out.
#[test]
fn numbers_of_the_default(rt: HostRuntime) {
    let config = Config::default();
    assert!(rt; config.scheme == Scheme::Sv39 && config.harts == 1 && config.capacity == 4);
    assert!(rt; config.window == 1 && config.base == 0x8_0000);
    assert!(rt; config.spaces.as_slice() == &[Space { home: 0, asid: 1 }][..]);
    assert!(rt; config.spares.as_slice() == &[8][..]);
    assert!(rt; Config::with_harts(8).spares.as_slice() == &[8; 8][..]);
    assert!(rt; Config::with_harts(8).check_live() && !Config::with_harts(9).check());
}

/// What faults say, as any error does.
#[test]
fn faults_are_told(rt: HostRuntime) {
    let alloc = rt.alloc();
    let fault = MapFault::NoFrame;
    let refused = MapFault::Misaligned;
    let opening = OpenFault::BadLayout;
    let told = format!(in alloc; "{fault}; {refused}; {opening}").expect(&rt, "memory");
    let wanted = "no spare frame of the home is left; the PPN is no multiple of the page's size; \
                  the configuration is not within the limits";
    assert!(rt; told.as_str() == wanted);
    let limit = Limit::Asids;
    let told = format!(in alloc; "{limit}").expect(&rt, "memory");
    assert!(rt; told.as_str() == "two spaces have the same ASID");
}
