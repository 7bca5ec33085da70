//! A kernel that records what it does: the lines of its trace.

use crate::process::Process;
use crate::random::Random;
use crate::texts::{push_decimal, push_hexadecimal};
use pte::PAGE_BYTES;
use std::alloc::{AllocError, Global};

/// The bits of leaves and pointers (privileged manual 4.3.1): of a user's page, of a kernel's, of a
/// pointer, and of a pointer to what is global.
const USER: u64 = 0xD7;

const GLOBAL: u64 = 0xE7;

const POINTER: u64 = 0x01;

const SHARED: u64 = 0x21;

/// MODE of Sv39 in satp (privileged manual 4.1.11).
const SV39: u64 = 8 << 60;

/// The index of the kernel's pointer in each root, and the first address below it.
const KERNEL_INDEX: u64 = 256;

const KERNEL_BASE: u64 = 0xFFFF_FFC0_0000_0000;

/// How many kernel pages come and go.
pub const KERNEL_PAGES: u64 = 64;

/// How many frames may lie free before one of them is given out again.
const SPARE: usize = 200;

/// What a kernel is like.
#[derive(Clone, Copy, Debug, PartialEq, Eq)]
pub struct Shape {
    /// How many harts it runs on.
    pub harts: u64,
    /// How many processes it has.
    pub processes: u64,
    /// The most pages of a process.
    pub pages: usize,
    /// It gives frames of its own pages back before it fences, and writes notes.
    pub lazy: bool,
    /// It asks no other hart for a fence of a page of a process.
    pub forgets: bool,
    /// The most records of a trace, or a few more.
    pub records: u64,
}

/// A kernel, and what it has recorded.
#[derive(Drop)]
pub struct Kernel {
    alloc: Global,
    /// What it is like.
    pub shape: Shape,
    /// The numbers by which it decides.
    pub random: Random,
    /// The lines of its trace.
    pub text: Vec<u8>,
    /// How many records there are.
    pub records: u64,
    /// Its processes.
    pub processes: Vec<Process>,
    /// The process that each hart is in.
    pub at: Vec<usize>,
    /// The frame of each of its own pages, 0 where there is none.
    pub kernel_frames: Vec<u64>,
    /// The PPNs of its own tables, the upper one first.
    pub kernel_tables: [u64; 2],
    free: Vec<u64>,
    next_frame: u64,
    next_asid: u64,
    next_token: u64,
}

impl Kernel {
    /// A kernel that has recorded nothing.
    pub fn new(alloc: Global, shape: Shape, random: Random) -> Kernel {
        Kernel {
            alloc,
            shape,
            random,
            text: Vec::new(alloc),
            records: 0,
            processes: Vec::new(alloc),
            at: Vec::new(alloc),
            kernel_frames: Vec::new(alloc),
            kernel_tables: [0, 0],
            free: Vec::new(alloc),
            next_frame: 0x9_0000,
            next_asid: 0,
            next_token: 0,
        }
    }

    /// Records a line of a letter, a hart and fields; `None` is a dash.
    pub fn record(
        &mut self,
        letter: u8,
        hart: u64,
        fields: &[Option<u64>],
    ) -> Result<(), AllocError> {
        self.text.push(letter)?;
        self.text.push(b' ')?;
        push_decimal(&mut self.text, hart)?;
        for field in fields {
            self.text.push(b' ')?;
            match field {
                None => self.text.push(b'-')?,
                Some(number) => push_hexadecimal(&mut self.text, *number)?,
            }
        }
        if self.shape.lazy {
            self.text.extend_from_slice(b" @ffffffff80")?;
            let place = self.random.below(if letter == b'w' { 48 } else { 1 << 20 });
            push_hexadecimal(&mut self.text, u64::from(letter) << 20 | place)?;
        }
        self.text.push(b'\n')?;
        self.records = self.records.saturating_add(1);
        Ok(())
    }

    /// A store of a word at an index of a table.
    pub fn store(
        &mut self,
        hart: u64,
        table: u64,
        index: u64,
        word: u64,
    ) -> Result<(), AllocError> {
        let address = (table << 12).wrapping_add(index.wrapping_mul(8));
        self.record(b'w', hart, &[Some(address), Some(word)])
    }

    /// Gives a frame out: one that lies free if there are many.
    pub fn give_out(&mut self, hart: u64) -> Result<u64, AllocError> {
        let count = self.free.len();
        let place = self.random.below(count as u64) as usize;
        let frame = if count > SPARE && place < count {
            self.free.swap_remove(place)
        } else {
            self.next_frame = self.next_frame.wrapping_add(1);
            self.next_frame
        };
        self.record(b'a', hart, &[Some(frame), Some(1)])?;
        Ok(frame)
    }

    /// Gives a frame back.
    pub fn give_back(&mut self, hart: u64, frame: u64) -> Result<(), AllocError> {
        self.free.push(frame)?;
        self.record(b'z', hart, &[Some(frame), Some(1)])
    }

    /// A remote fence by these harts, for `size` bytes from an address on.
    pub fn fence_others(
        &mut self,
        hart: u64,
        harts: u64,
        start: u64,
        size: u64,
        asid: Option<u64>,
    ) -> Result<(), AllocError> {
        if harts == 0 {
            return Ok(());
        }
        self.next_token = self.next_token.wrapping_add(1);
        let token = Some(self.next_token);
        let fields = [token, Some(harts), Some(start), Some(size), asid];
        self.record(b'r', hart, &fields)?;
        self.record(b'e', hart, &[token])
    }

    /// All harts but this one.
    pub fn others(&self, hart: u64) -> u64 {
        let all = u64::MAX >> (64 - self.shape.harts.clamp(1, 64));
        all & !(1 << hart % 64)
    }

    /// Makes its own tables: 64 pages of 2 MiB that stay, and a table for those that come and go.
    pub fn boot(&mut self) -> Result<(), AllocError> {
        let upper = self.give_out(0)?;
        let lower = self.give_out(0)?;
        self.kernel_tables = [upper, lower];
        self.store(0, upper, 0, lower << 10 | POINTER)?;
        for number in 0..64_u64 {
            let frame = 0x8_0000 + (number << 9);
            self.store(0, upper, 100 + number, frame << 10 | GLOBAL)?;
        }
        for _ in 0..KERNEL_PAGES {
            self.kernel_frames.push(0)?;
        }
        Ok(())
    }

    /// Makes a process.
    pub fn fork(&mut self, hart: u64) -> Result<Process, AllocError> {
        let root = self.give_out(hart)?;
        let middle = self.give_out(hart)?;
        let low = self.give_out(hart)?;
        self.next_asid = self.next_asid % 0xFFFE + 1;
        self.store(
            hart,
            root,
            KERNEL_INDEX,
            self.kernel_tables[0] << 10 | SHARED,
        )?;
        self.store(hart, root, 0, middle << 10 | POINTER)?;
        self.store(hart, middle, 0, low << 10 | POINTER)?;
        Process::new(self.alloc, [root, middle, low], self.next_asid)
    }

    /// The word of a user's page.
    pub fn user_word(frame: u64) -> u64 {
        frame << 10 | USER
    }

    /// The word of a kernel's page.
    pub fn kernel_word(frame: u64) -> u64 {
        frame << 10 | GLOBAL
    }

    /// The address of one of the kernel's pages that come and go.
    pub fn kernel_address(index: u64) -> u64 {
        KERNEL_BASE.wrapping_add(index.wrapping_mul(PAGE_BYTES))
    }

    /// What a hart writes to satp for a process.
    pub fn satp_of(root: u64, asid: u64) -> u64 {
        SV39 | asid << 44 | root
    }
}
