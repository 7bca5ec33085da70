//! Harts with ports of one board, each in a thread of its own: hart 0 makes one shootdown after
//! another, and 1 to 3 others serve.
//!
//! What hart 0 does each time, and the others meanwhile:
//!
//! - `flush1` to `flush3`: opens a ticket for everything, posts it to each other hart, serves it
//!   itself, collects until all are done, and finishes; the others serve;
//! - `shootdown1` to `shootdown3`: the same with a page, which it unmaps, and maps again in the
//!   end; the others serve, and use the page after each service;
//! - `ports1` to `ports3`: the same with the next of 24 pages; the others translate addresses of
//!   these pages, and serve after each 32.
//!
//! So what is timed of the second is a whole shootdown of a page that each of the others has in its
//! TLB. Of the addresses of the third seven of eight are of the first 12 pages, and those not
//! mapped right now are not found.
//!
//! The others begin to count once hart 0 has made one shootdown, so that each of them has started,
//! and the clock runs from then on.

ghost use Rattle.std.specs.Prelude.{◌≤◌};

use crate::Failure;
use crate::pause::pause;
use arrayvec::ArrayVec;
use board::{Board, HartPort, Mapped};
use history::Scope;
use pte::{Access, Ctx, Mode, PAGE_BYTES, Page, PageSize, PteFlags, Scheme, VirtAddr};
use shoot::Collected;
use spaces::{Config, OpenFault, Place, Space};
use std::alloc::{AllocError, Global};
use std::sync::atomic::{AtomicBool, Ordering};
use std::thread::{self, Threads, join};
use std::time::{Clock, Duration, Instant};

/// How many pages are unmapped and mapped again, one after another.
const PAGES: u64 = 24;

/// How many of them most translations are of.
const HOT: u64 = 12;

/// How many translations a hart makes before it serves.
const BETWEEN: u64 = 32;

/// How often hart 0 looks for acknowledgements before it gives up.
const TRIES: u64 = 1 << 32;

const CTX: Ctx = Ctx {
    mode: Mode::User,
    sum: false,
    mxr: false,
};

const PLACE: Place = Place::Space(0);

/// Of each page.
fn flags() -> PteFlags {
    PteFlags::R | PteFlags::W | PteFlags::U | PteFlags::A | PteFlags::D
}

/// What hart 0 does again and again.
#[derive(Clone, Copy, PartialEq, Eq, Debug)]
pub enum Round {
    /// A shootdown of everything.
    Flush,
    /// A shootdown of one page, that each hart uses.
    Unmap,
    /// A shootdown of one of many pages, while the others translate.
    Translate,
}

/// How many harts there are beside hart 0.
#[derive(Clone, Copy, PartialEq, Eq, Debug)]
pub enum Others {
    One,
    Two,
    Three,
}

impl Others {
    fn count(self) -> u8
        ensures { result ≤ 7 }
    {
        match self {
            Others::One => 1,
            Others::Two => 2,
            Others::Three => 3,
        }
    }
}

/// Each part with its name.
pub fn parts() -> [(Round, Others, &'static str); 9] {
    [
        (Round::Flush, Others::One, "flush1"),
        (Round::Flush, Others::Two, "flush2"),
        (Round::Flush, Others::Three, "flush3"),
        (Round::Unmap, Others::One, "shootdown1"),
        (Round::Unmap, Others::Two, "shootdown2"),
        (Round::Unmap, Others::Three, "shootdown3"),
        (Round::Translate, Others::One, "ports1"),
        (Round::Translate, Others::Two, "ports2"),
        (Round::Translate, Others::Three, "ports3"),
    ]
}

/// What a part came to.
#[derive(Clone, Copy, Debug)]
pub struct Outcome {
    /// How many shootdowns hart 0 made.
    pub shootdowns: u64,
    /// How many translations the others made.
    pub translations: u64,
    /// How many of them found the page.
    pub found: u64,
    /// How long the shootdowns took.
    pub time: Duration,
}

/// How far hart 0 is, on a cache line of its own.
#[derive(Drop)]
struct Progress {
    before: [u64; 16],
    is_begun: AtomicBool,
    is_done: AtomicBool,
    after: [u64; 16],
}

impl Progress {
    fn new() -> Progress {
        Progress {
            before: [0; 16],
            is_begun: AtomicBool::new(false),
            is_done: AtomicBool::new(false),
            after: [0; 16],
        }
    }

    fn is_begun(&self) -> bool {
        self.is_begun.load(Ordering::SeqCst)
    }

    fn is_done(&self) -> bool {
        self.is_done.load(Ordering::SeqCst)
    }
}

/// Hart 0, the home of the one space, and this many others.
fn config(others: u8) -> Config
    requires { others ≤ 7 }
{
    let mut spaces = ArrayVec::new();
    spaces.push(Space { home: 0, asid: 1 });
    let harts = others + 1;
    let mut spares = ArrayVec::new();
    for _hart in 0..harts {
        spares.push(8);
    }
    Config {
        scheme: Scheme::Sv39,
        harts: u16::from(harts),
        spaces,
        window: 1,
        base: 0x8_0000,
        spares,
        capacity: 4,
    }
}

/// The address of one of the pages.
fn address(number: u64) -> u64 {
    (number % PAGES + 1) * PAGE_BYTES
}

/// Maps one of the pages to itself, with the tables that are missing.
fn map(port: &mut HartPort, va: u64) -> Option<()> {
    let page = Page::around(VirtAddr::new(va)?, PageSize::Kib4);
    let flags = flags();
    for _ in 0..3_u8 {
        match port.map_step(PLACE, page, va / PAGE_BYTES, flags) {
            Ok(Mapped::Leaf) => return Some(()),
            Ok(Mapped::Table(_)) => {}
            Err(_) => return None,
        }
    }
    None
}

/// Opens a ticket that names all harts.
fn open(port: &mut HartPort, round: Round, va: u64, named: u8) -> Option<u32> {
    match round {
        Round::Flush => port.flush(Scope::All, named).ok(),
        Round::Unmap | Round::Translate => {
            let page = Page::around(VirtAddr::new(va)?, PageSize::Kib4);
            port.unmap(PLACE, page, named).ok()
        }
    }
}

/// Collects until each hart is done.
fn collect(port: &mut HartPort, ticket: u32) -> Option<()> {
    for tries in 0..TRIES {
        if port.collect(ticket).ok()? == Collected::Done {
            return Some(());
        }
        pause(tries);
    }
    None
}

/// Hart 0 makes one shootdown.
fn shoot_down(port: &mut HartPort, round: Round, others: u8, number: u64) -> Option<()>
    requires { others ≤ 7 }
{
    let page = if round == Round::Translate { number } else { 0 };
    let va = address(page);
    let named = u8::MAX >> (7 - others);
    let ticket = open(port, round, va, named)?;
    for to in 1..=others {
        port.post(ticket, to).ok()?;
    }
    port.ack_self(ticket).ok()?;
    collect(port, ticket)?;
    port.finish(ticket).ok()?;
    if round == Round::Flush {
        Some(())
    } else {
        map(port, va)
    }
}

/// How many shootdowns hart 0 made, one after another.
fn shoots(port: &mut HartPort, round: Round, others: u8, count: u64) -> u64
    requires { others ≤ 7 }
{
    for made in 0..count {
        if shoot_down(port, round, others, made).is_none() {
            return made;
        }
    }
    count
}

/// Hart 0 maps the pages and makes a first shootdown, for which each other hart has to have
/// started, and then `count` more. How many it made, and how long these took.
fn leads<C: Clock>(
    clock: &C,
    mut port: HartPort,
    progress: &Progress,
    round: Round,
    others: u8,
    count: u64,
) -> Result<(u64, Duration), Failure>
    requires { others ≤ 7 }
{
    for number in 0..PAGES {
        map(&mut port, address(number)).ok_or(Failure::NotOpened)?;
    }
    shoot_down(&mut port, round, others, 0).ok_or(Failure::NotOpened)?;
    let start = Instant::now(clock)?;
    progress.is_begun.store(true, Ordering::SeqCst);
    let made = shoots(&mut port, round, others, count);
    let time = start.elapsed(clock)?;
    Ok((made, time))
}

/// The next address, by a linear congruential generator.
fn next_address(state: &mut u64) -> u64 {
    *state = state
        .wrapping_mul(6_364_136_223_846_793_005)
        .wrapping_add(1_442_695_040_888_963_407);
    let random = *state >> 40;
    let pages = if random % 8 == 0 { PAGES } else { HOT };
    address(random / 8 % pages) | 4
}

/// Makes some translations. How many lead to where the page is mapped.
fn translate_some(port: &mut HartPort, state: &mut u64) -> u64 {
    let mut found: u64 = 0;
    for _ in 0..BETWEEN {
        let va = next_address(state);
        match port.translate(va, Access::Load, CTX) {
            Ok(pa) if pa == va => found = found.wrapping_add(1),
            _ => {}
        }
    }
    found
}

/// Translates and serves until hart 0 is done. How many translations were made, and how many found.
fn translates(port: &mut HartPort, progress: &Progress, seed: u64) -> (u64, u64) {
    let mut state = seed;
    let (mut made, mut found): (u64, u64) = (0, 0);
    for _ in 0..u64::MAX {
        if progress.is_done() {
            break;
        }
        let _served = port.serve(0);
        found = found.wrapping_add(translate_some(port, &mut state));
        made = made.wrapping_add(BETWEEN);
    }
    (made, found)
}

/// Serves until hart 0 is done, or until it has begun if translations follow. After each service
/// the hart uses the page.
fn serves(port: &mut HartPort, progress: &Progress, round: Round) {
    let mut tries: u64 = 0;
    for _ in 0..u64::MAX {
        if progress.is_done() || (round == Round::Translate && progress.is_begun()) {
            break;
        }
        if port.serve(0).is_err() {
            pause(tries);
            tries = tries.wrapping_add(1);
        } else if round == Round::Unmap {
            let _found = port.translate(address(0), Access::Load, CTX);
        }
    }
}

/// What another hart does. How many translations it made, and how many found.
fn follows(mut port: HartPort, progress: &Progress, round: Round, seed: u64) -> (u64, u64) {
    serves(&mut port, progress, round);
    if round == Round::Translate {
        translates(&mut port, progress, seed)
    } else {
        (0, 0)
    }
}

/// The ports with their numbers.
fn numbered(alloc: Global, ports: Vec<HartPort>) -> Result<Vec<(u64, HartPort)>, AllocError> {
    let mut pairs = Vec::new(alloc);
    let mut number: u64 = 0;
    for port in ports {
        pairs.push((number, port))?;
        number = number.wrapping_add(1);
    }
    Ok(pairs)
}

/// The port of hart 0, and those of this many others with their numbers.
fn ports(alloc: Global, others: u8) -> Result<(HartPort, Vec<(u64, HartPort)>), Failure>
    requires { others ≤ 7 }
{
    let (_board, mut ports) = match Board::open(alloc, &config(others)) {
        Ok(opened) => opened,
        Err(OpenFault::NoMemory) => return Err(Failure::NoMemory),
        Err(OpenFault::BadLayout) => return Err(Failure::NotOpened),
    };
    if ports.is_empty() {
        return Err(Failure::NotOpened);
    }
    let zero = ports.remove(0);
    Ok((zero, numbered(alloc, ports)?))
}

/// Makes `count` shootdowns, while this many other harts serve.
pub fn run<R: Threads + Sync + Clock>(
    rt: &R,
    alloc: Global,
    round: Round,
    others: Others,
    count: u64,
) -> Result<Outcome, Failure> {
    let others = others.count();
    let (zero, rest) = ports(alloc, others)?;
    let progress = Progress::new();
    let shared = &progress;
    let (followed, led) = join(
        rt,
        move || {
            thread::map_vec(
                rt,
                rest,
                &|(seed, port): (u64, HartPort)| { follows(port, shared, round, seed) },
            )
        },
        move || {
            let led = leads(rt, zero, shared, round, others, count);
            shared.is_done.store(true, Ordering::SeqCst);
            led
        },
    );
    let (shootdowns, time) = led?;
    let (mut translations, mut found): (u64, u64) = (0, 0);
    for (made, right) in followed? {
        translations = translations.wrapping_add(made);
        found = found.wrapping_add(right);
    }
    Ok(Outcome {
        shootdowns,
        translations,
        found,
        time,
    })
}
