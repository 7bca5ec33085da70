//! Scripts that look random.

use crate::calls::{USER, page, readable, writable};
use history::{LiveStep, Scope};
use pte::{Access, Page};
use spaces::Place;
use std::alloc::Global;
use std::test::Fail;

/// The addresses of the pages that a space may have. One table has the leaves of both.
pub(crate) const BASES: [u64; 2] = [0x1000, 0x2000];

/// A generator of numbers that look random, of period 2 ^ 64.
#[derive(Clone, Copy)]
pub(crate) struct Dice {
    state: u64,
}

impl Dice {
    pub(crate) fn new(seed: u64) -> Dice {
        Dice { state: seed }
    }

    /// A number below a bound, or 0 if the bound is 0.
    pub(crate) fn below(&mut self, bound: u8) -> u8 {
        self.state = self
            .state
            .wrapping_mul(6_364_136_223_846_793_005)
            .wrapping_add(1_442_695_040_888_963_407);
        let byte = (self.state >> 56) as u8;
        byte % bound.max(1)
    }

    /// A set of harts with this one in it.
    fn set_with(&mut self, hart: u8) -> u8 {
        self.below(255) | bit(hart)
    }
}

/// The set of a hart alone.
pub(crate) fn bit(hart: u8) -> u8 {
    match hart {
        0 => 1,
        1 => 2,
        2 => 4,
        3 => 8,
        4 => 16,
        5 => 32,
        6 => 64,
        7 => 128,
        _ => 0,
    }
}

/// The page of that number, if there is one.
pub(crate) fn page_of(number: u8) -> Option<Page> {
    page(*BASES.get(usize::from(number))?)
}

/// The PPN by which it is known which space has a page, and which of its steps of mapping it was.
pub(crate) fn ppn_of(space: u8, version: u16) -> u64 {
    0x10_0000 * (u64::from(space) + 1) + u64::from(version)
}

/// A step that maps a page of a space to a PPN, for reads of the user.
pub(crate) fn map(space: u8, page: Page, ppn: u64) -> LiveStep {
    LiveStep::Map {
        place: Place::Space(space),
        page,
        ppn,
        flags: readable(),
    }
}

fn unmap(space: u8, page: Page, named: u8) -> LiveStep {
    LiveStep::Unmap {
        place: Place::Space(space),
        page,
        named,
    }
}

/// A step that lets a page be read, or written too.
fn protect(space: u8, page: Page, is_readable: bool, named: u8) -> LiveStep {
    LiveStep::Protect {
        place: Place::Space(space),
        page,
        flags: if is_readable { readable() } else { writable() },
        named,
    }
}

/// A step that flushes a space, or all of them in place of space 0.
fn flush(space: u8, named: u8) -> LiveStep {
    LiveStep::Flush {
        scope: if space == 0 {
            Scope::All
        } else {
            Scope::Space(space)
        },
        named,
    }
}

/// A step that loads as a user.
fn load(va: u64) -> LiveStep {
    LiveStep::Translate {
        va,
        access: Access::Load,
        ctx: USER,
    }
}

/// A script of a hart as it grows.
#[derive(Drop)]
struct Draft {
    hart: u8,
    steps: Vec<LiveStep>,
    /// The number of the next step of mapping.
    version: u16,
    /// Whether each page is mapped, if each step so far was accepted.
    mapped: [bool; 2],
    /// Whether there was memory for all of it.
    is_whole: bool,
}

impl Draft {
    fn push(&mut self, step: LiveStep) {
        self.is_whole &= self.steps.push(step).is_ok();
    }

    fn is_mapped(&self, number: u8) -> bool {
        match self.mapped.get(usize::from(number)) {
            Some(mapped) => *mapped,
            None => false,
        }
    }

    fn mark(&mut self, number: u8, mapped: bool) {
        if let Some(mark) = self.mapped.get_mut(usize::from(number)) {
            *mark = mapped;
        }
    }

    fn map(&mut self, number: u8, page: Page) {
        let ppn = ppn_of(self.hart, self.version);
        self.version = self.version.saturating_add(1);
        self.push(map(self.hart, page, ppn));
        self.mark(number, true);
    }

    /// Posts a ticket to each other hart of a set, and waits for them.
    fn shoot_down(&mut self, named: u8) {
        for to in 0..8 {
            if to != self.hart && named & bit(to) != 0 {
                self.push(LiveStep::Post { ticket: 0, to });
            }
        }
        self.push(LiveStep::AckSelf { ticket: 0 });
        self.push(LiveStep::Wait { ticket: 0 });
        self.push(LiveStep::Collect { ticket: 0 });
        self.push(LiveStep::Finish { ticket: 0 });
    }

    /// A page that is mapped is unmapped, or gets other flags; one that is not is mapped.
    fn edit(&mut self, dice: &mut Dice) {
        let number = dice.below(2);
        let Some(page) = page_of(number) else {
            return;
        };
        if !self.is_mapped(number) {
            return self.map(number, page);
        }
        let named = dice.set_with(self.hart);
        if dice.below(3) == 0 {
            let is_readable = dice.below(2) == 0;
            self.push(protect(self.hart, page, is_readable, named));
        } else {
            self.push(unmap(self.hart, page, named));
            self.mark(number, false);
        }
        self.shoot_down(named);
    }

    /// A step that opens no ticket and asks nothing of the other harts.
    fn use_space(&mut self, dice: &mut Dice) {
        let step = match dice.below(8) {
            0 => LiveStep::Switch {
                space: dice.below(8),
            },
            1 => LiveStep::Fence {
                rs1: None,
                rs2: None,
            },
            2 | 3 => LiveStep::Serve {
                from: dice.below(8),
            },
            number => load(0x1004 + 0x1000 * u64::from(number % 2)),
        };
        self.push(step);
    }

    fn unmap_any(&mut self, number: u8, named: u8) {
        if let Some(page) = page_of(number) {
            self.push(unmap(self.hart, page, named));
        }
    }

    fn map_any(&mut self, number: u8) {
        if let Some(page) = page_of(number) {
            self.map(number, page);
        }
    }

    /// Any step, with numbers that may be wrong. A wait is followed by a collection of its ticket.
    fn wander(&mut self, dice: &mut Dice) {
        let ticket = u32::from(dice.below(5));
        let other = dice.below(8);
        let named = if dice.below(4) == 0 {
            dice.below(255)
        } else {
            dice.set_with(self.hart)
        };
        match dice.below(12) {
            0 => self.push(flush(other, named)),
            8 => {
                self.push(LiveStep::Wait { ticket });
                self.push(LiveStep::Collect { ticket });
            }
            9 if dice.below(4) == 0 => self.push(LiveStep::Close { to: other }),
            10 => self.unmap_any(dice.below(2), named),
            11 => self.map_any(dice.below(2)),
            kind => self.push(step_of(kind, ticket, other)),
        }
    }
}

/// The steps that speak of a ticket or a hart alone.
fn step_of(kind: u8, ticket: u32, other: u8) -> LiveStep {
    match kind {
        1 | 2 | 3 | 4 => LiveStep::Post { ticket, to: other },
        5 => LiveStep::AckSelf { ticket },
        6 => LiveStep::Finish { ticket },
        7 => LiveStep::Collect { ticket },
        _ => LiveStep::Serve { from: other },
    }
}

/// A script of a hart whose pages are mapped by setup as versions 0 and 1. An orderly one finishes
/// each ticket before it opens the next, and so is refused nothing but a serve.
pub(crate) fn script(
    alloc: Global,
    hart: u8,
    dice: &mut Dice,
    orderly: bool,
) -> Result<Vec<LiveStep>, Fail> {
    let mut script = Draft {
        hart,
        steps: Vec::new(alloc),
        version: 2,
        mapped: [true, true],
        is_whole: true,
    };
    for _ in 0..12 {
        script.use_space(dice);
        if orderly {
            script.edit(dice);
        } else {
            script.wander(dice);
            script.wander(dice);
        }
        script.use_space(dice);
    }
    let Draft {
        steps,
        is_whole,
        ..
    } = script;
    if is_whole {
        Ok(steps)
    } else {
        Err(Fail::new("out of memory"))
    }
}
