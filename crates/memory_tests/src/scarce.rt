//! Memory that ends: all of it is held by blocks that nobody uses, but for a number of bytes.

use crate::calls::Call;
use crate::verdict::Verdict;
use arrayvec::ArrayVec;
use std::alloc::{AllocError, Global};
use std::sync::Wait;
use std::thread::Threads;

/// The sizes of blocks in bytes: powers of two from 1 TiB, which is more than a machine has, down
/// to 2 KiB; and below that each size which an allocator may keep apart once it was given back.
const LARGEST_POWER: u32 = 40;

const SMALLEST_POWER: u32 = 11;

const GRAIN: usize = 16;

const SMALL_SIZES: usize = 80;

/// How many blocks are held at most. Of blocks of 8 GiB an address space of 47 bits takes 16,384.
const MOST_BLOCKS: usize = 1 << 16;

/// What the calls may use is taken first, as this many blocks of 64 KiB, and then given back:
/// 1 GiB, since blocks that an allocator keeps apart lie between the others.
const ROOM_BLOCKS: usize = 1 << 14;

const ROOM_BLOCK: usize = 1 << 16;

/// This many bytes of the stack are used before memory ends, since a stack can't grow after that.
const STACK: usize = 1 << 20;

/// How often a call is made at most. What is left free grows by a grain from one to the next, and
/// where it is large by a 128th.
const MOST_TRIES: usize = 1500;

const LARGE_SHARE: usize = 128;

/// What became of a call while memory ended ever later.
#[derive(Clone, Copy, Debug, PartialEq, Eq)]
pub enum Told {
    /// There was none up to some amount, and with it the usual answer.
    Enough,
    /// There was none with any amount that was tried.
    Refused,
    /// There was enough from the beginning, or memory could not be held back: nothing was tried.
    NotTried,
    /// It gave another answer.
    Other,
}

impl Told {
    /// The words on the line of a call.
    pub fn words(self) -> &'static str {
        match self {
            Told::Enough => "no memory, then usual",
            Told::Refused => "no memory",
            Told::NotTried => "not tried",
            Told::Other => "another answer",
        }
    }
}

/// Writes to so much of the stack. Whether what was written stands there. What it used lies below
/// its caller, where the calls to come have theirs.
#[inline(never)]
fn is_stack_there() -> bool {
    let mut bytes = ArrayVec::<u8, STACK>::new();
    for at in 0..STACK {
        // all values of a byte in turn, which no compiler knows without the bytes
        if bytes.try_push((at % 256) as u8).is_err() {
            return false;
        }
    }
    bytes.iter().filter(|byte| **byte == 0).count() == STACK / 256
}

/// Blocks of memory that nobody uses.
#[derive(Drop)]
pub struct Hoard {
    blocks: Vec<Vec<u8>>,
}

impl Hoard {
    /// Holds all memory but what the calls may use. `None` if there is no end of it.
    pub fn open(alloc: Global) -> Option<Hoard> {
        if !is_stack_there() {
            return None;
        }
        let blocks = Vec::with_capacity(alloc, MOST_BLOCKS).ok()?;
        let mut hoard = Hoard { blocks };
        for _ in 0..ROOM_BLOCKS {
            if !hoard.take(alloc, ROOM_BLOCK) {
                return None;
            }
        }
        hoard.take_all(alloc);
        if hoard.is_full() {
            return None;
        }
        for at in 0..ROOM_BLOCKS {
            if at < hoard.blocks.len() {
                hoard.blocks.swap_remove(at);
            }
        }
        Some(hoard)
    }

    /// Whether there is no room for one more block.
    fn is_full(&self) -> bool {
        self.blocks.len() == self.blocks.capacity()
    }

    /// Takes a block of this many bytes. Whether there was one, and room for it.
    fn take(&mut self, alloc: Global, bytes: usize) -> bool {
        if self.is_full() {
            return false;
        }
        match Vec::with_capacity(alloc, bytes) {
            Ok(block) => self.blocks.push(block).is_ok(),
            Err(_) => false,
        }
    }

    /// Takes blocks of this many bytes until there is none.
    fn take_each(&mut self, alloc: Global, bytes: usize) {
        for _ in 0..MOST_BLOCKS {
            if !self.take(alloc, bytes) {
                return;
            }
        }
    }

    /// Takes all memory that is left, by ever smaller blocks.
    fn take_all(&mut self, alloc: Global) {
        for power in (SMALLEST_POWER..=LARGEST_POWER).rev() {
            self.take_each(alloc, 1 << power);
        }
        for grains in (1..=SMALL_SIZES).rev() {
            self.take_each(alloc, grains * GRAIN);
        }
    }

    /// Makes a call where no more than `bytes` bytes are free. `None` if that many can't be left.
    pub fn make<R: Threads + Wait + Sync>(
        &mut self,
        rt: &R,
        alloc: Global,
        call: Call,
        bytes: usize,
    ) -> Option<Verdict> {
        let held = self.blocks.len();
        if !self.take(alloc, bytes) {
            return None;
        }
        self.take_all(alloc);
        if self.is_full() || held >= self.blocks.len() {
            return None;
        }
        self.blocks.swap_remove(held);
        let verdict = call.make(rt, alloc);
        self.blocks.truncate(held);
        Some(verdict)
    }

    /// Makes a call with ever more bytes, up to those with which it answers as usual.
    pub fn tell<R: Threads + Wait + Sync>(&mut self, rt: &R, alloc: Global, call: Call) -> Told {
        let mut is_refused = false;
        let mut bytes: usize = 0;
        for _ in 0..MOST_TRIES {
            match self.make(rt, alloc, call, bytes) {
                Some(Verdict::NoMemory) => is_refused = true,
                Some(Verdict::Usual) if is_refused => return Told::Enough,
                Some(Verdict::Usual) | None => return Told::NotTried,
                Some(Verdict::Other) => return Told::Other,
            }
            bytes = bytes.saturating_add(GRAIN.max(bytes / LARGE_SHARE / GRAIN * GRAIN));
        }
        Told::Refused
    }
}
