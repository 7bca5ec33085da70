//! What a hart stores and finds by its seat.
ghost use Rattle.std.specs.Prelude.{◌≡◌};
ghost use Rattle.spaces.specs.declared.places.Place.TheVariants as home;
ghost use Rattle.spaces.specs.Edits.{place_of};
ghost use Rattle.spaces.specs.Layout.{HasPlace, layout_of};
ghost use Rattle.views.specs.OnBoard.{IsFit};

use crate::calls::{USER, page, readable};
use arrayvec::ArrayVec;
use pte::{Access, Page, Scheme};
use spaces::{Config, MapFault, Place as Home, Space, Wish};
use std::process::Abort;
use std::test::Fail;
use views::{Seat, Words, deal, edit, open, walk};
use walk::{Trap, Why};

/// One slot of the window, and for each of two harts a space and 4 spare frames.
pub(crate) fn two_harts(scheme: Scheme) -> Config {
    let mut spaces = ArrayVec::new();
    spaces.push(Space { home: 0, asid: 1 });
    spaces.push(Space { home: 1, asid: 2 });
    let mut spares = ArrayVec::new();
    spares.push(4);
    spares.push(4);
    Config {
        scheme,
        harts: 2,
        spaces,
        window: 1,
        base: 0x8_0000,
        spares,
        capacity: 4,
    }
}

fn first_page(rt: &impl Abort) -> Page {
    page(0x1000).expect(rt, "a page")
}

fn map(rt: &impl Abort, space: u8, ppn: u64) -> Wish
    ensures { place_of result ≡ home.Space space }
{
    Wish::Map {
        place: Home::Space(space),
        page: first_page(rt),
        ppn,
        flags: readable(),
    }
}

fn unmap(rt: &impl Abort, space: u8) -> Wish
    ensures { place_of result ≡ home.Space space }
{
    Wish::Unmap {
        place: Home::Space(space),
        page: first_page(rt),
    }
}

/// The edit of a hart stores this word, or fails so.
fn assert_edit(
    rt: &impl Abort,
    words: &Words,
    seat: &mut Seat,
    config: &Config,
    hart: u8,
    used: &mut u16,
    wish: &Wish,
    expected: Result<(u64, u16, u64), MapFault>,
)
    requires fit { IsFit words.now.table_id words.now.key config.now seat.old }
    requires hart { seat.old.view.hart ≡ hart }
    requires used { seat.old.view.used ≡ used.old }
    requires place { HasPlace (layout_of config.now) (place_of wish.now) }
    ensures fit { IsFit words.now.table_id words.now.key config.now seat.new }
    ensures hart { seat.new.view.hart ≡ hart }
    ensures used { seat.new.view.used ≡ used.new }
{
    let stored = match edit(words, seat, config, hart, used, wish, 0) {
        Ok(edit) => Ok((edit.ppn(), edit.index(), edit.word())),
        Err(fault) => Err(fault),
    };
    assert!(rt; stored == expected);
}

/// A user's load of a space leads to this physical address, or raises this exception.
fn assert_load(
    rt: &impl Abort,
    words: &Words,
    seat: &mut Seat,
    config: &Config,
    space: u8,
    va: u64,
    expected: Result<u64, Trap>,
)
    requires fit { IsFit words.now.table_id words.now.key config.now seat.old }
    requires place { HasPlace (layout_of config.now) (home.Space space) }
    ensures fit { IsFit words.now.table_id words.now.key config.now seat.new }
    ensures hart { seat.new.view.hart ≡ seat.old.view.hart }
    ensures used { seat.new.view.used ≡ seat.old.view.used }
{
    let root = config.root(space);
    let loaded = match walk(words, seat, config, root, va, Access::Load, USER) {
        Ok(found) => Ok(found.pa),
        Err(trap) => Err(trap),
    };
    assert!(rt; loaded == expected);
}

const INVALID: Result<u64, Trap> = Err(Trap {
    cause: 13,
    why: Why::Invalid,
});

const NOT_CANONICAL: Result<u64, Trap> = Err(Trap {
    cause: 13,
    why: Why::NotCanonical,
});

/// Maps a page of a space at home, which makes these stores. It is not found before the last of
/// them.
fn map_by(
    rt: &impl Abort,
    words: &Words,
    seat: &mut Seat,
    config: &Config,
    hart: u8,
    used: &mut u16,
    wish: &Wish,
    rows: &[(u64, u16, u64)],
)
    requires fit { IsFit words.now.table_id words.now.key config.now seat.old }
    requires hart { seat.old.view.hart ≡ hart }
    requires used { seat.old.view.used ≡ used.old }
    requires place { HasPlace (layout_of config.now) (place_of wish.now) }
    requires space { HasPlace (layout_of config.now) (home.Space hart) }
    ensures fit { IsFit words.now.table_id words.now.key config.now seat.new }
    ensures hart { seat.new.view.hart ≡ hart }
    ensures used { seat.new.view.used ≡ used.new }
{
    for at in 0..rows.len() {
        assert_load(rt, words, seat, config, hart, 0x1004, INVALID);
        assert_edit(rt, words, seat, config, hart, used, wish, Ok(rows[at]));
    }
}

// A hart maps a page of its space, table by table, and reads it back; it unmaps the page, and maps
// it to another PPN.
#[test]
fn home_reads_back(rt: HostRuntime) -> Result<(), Fail> {
    let config = two_harts(Scheme::Sv39);
    assert!(&rt; config.check_live() && config.has(Home::Space(0)));
    let (memory, mut seat) = open(rt.alloc(), &config)?;
    let (rt, words, config, seat) = (&rt, &memory.shared, &config, &mut seat);
    let used = &mut 0;
    let wish = map(rt, 0, 0x100);
    let rows = [
        (0x8_0001, 0, 0x2000_0C01),
        (0x8_0003, 0, 0x2000_1001),
        (0x8_0004, 1, 0x4_00D3),
    ];
    map_by(rt, words, seat, config, 0, used, &wish, &rows);
    assert_load(rt, words, seat, config, 0, 0x1004, Ok(0x10_0004));
    let again = Err(MapFault::AlreadyMapped);
    assert_edit(rt, words, seat, config, 0, used, &wish, again);
    let wish = unmap(rt, 0);
    assert_edit(
        rt,
        words,
        seat,
        config,
        0,
        used,
        &wish,
        Ok((0x8_0004, 1, 0)),
    );
    let wish = map(rt, 0, 0x101);
    let rows = [(0x8_0004, 1, 0x4_04D3)];
    map_by(rt, words, seat, config, 0, used, &wish, &rows);
    assert_load(rt, words, seat, config, 0, 0x1004, Ok(0x10_1004));
    assert!(rt; *used == 2);
    Ok(())
}

// Under Sv48 there is one table more, and more addresses are canonical.
#[test]
fn home_reads_back_under_sv48(rt: HostRuntime) -> Result<(), Fail> {
    let config = two_harts(Scheme::Sv48);
    assert!(&rt; config.check_live() && config.has(Home::Space(0)));
    let (memory, mut seat) = open(rt.alloc(), &config)?;
    let (rt, words, config, seat) = (&rt, &memory.shared, &config, &mut seat);
    let used = &mut 0;
    let wish = map(rt, 0, 0x100);
    let rows = [
        (0x8_0001, 0, 0x2000_0C01),
        (0x8_0003, 0, 0x2000_1001),
        (0x8_0004, 0, 0x2000_1401),
        (0x8_0005, 1, 0x4_00D3),
    ];
    map_by(rt, words, seat, config, 0, used, &wish, &rows);
    assert_load(rt, words, seat, config, 0, 0x1004, Ok(0x10_0004));
    assert_load(rt, words, seat, config, 0, 1 << 46, INVALID);
    assert_load(rt, words, seat, config, 0, 1 << 47, NOT_CANONICAL);
    Ok(())
}

// A hart finds what the other stored; each takes spare frames of its own, and edits its own space
// alone.
#[test]
fn two_homes(rt: HostRuntime) -> Result<(), Fail> {
    let config = two_harts(Scheme::Sv39);
    assert!(&rt; config.check_live() && 1 < config.harts);
    assert!(&rt; config.has(Home::Space(0)) && config.has(Home::Space(1)));
    let (memory, mut seat) = open(rt.alloc(), &config)?;
    let (rt, words, config, seat) = (&rt, &memory.shared, &config, &mut seat);
    let mut other = deal(words, seat, config);
    let other = &mut other;
    let used = &mut 0;
    let wish = map(rt, 1, 0x200);
    let rows = [
        (0x8_0002, 0, 0x2000_1C01),
        (0x8_0007, 0, 0x2000_2001),
        (0x8_0008, 1, 0x8_00D3),
    ];
    map_by(rt, words, other, config, 1, used, &wish, &rows);
    assert_load(rt, words, seat, config, 1, 0x1004, Ok(0x20_0004));
    assert_load(rt, words, seat, config, 0, 0x1004, INVALID);
    let wish = map(rt, 0, 0x100);
    let foreign = Err(MapFault::NotHome);
    assert_edit(rt, words, other, config, 1, used, &wish, foreign);
    let wish = unmap(rt, 1);
    assert_edit(
        rt,
        words,
        other,
        config,
        1,
        used,
        &wish,
        Ok((0x8_0008, 1, 0)),
    );
    assert_load(rt, words, seat, config, 1, 0x1004, INVALID);
    Ok(())
}
