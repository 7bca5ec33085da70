//! A kernel in Sv48 that maps and unmaps runs of pages, and superpages, and fences page by page.

ghost use Rattle.std.specs.Prelude.{◌<◌};

use crate::Failure;
use crate::digest::Digest;
use crate::kernel::{Kernel, Shape};
use crate::random::Random;
use crate::texts::push_decimal;
use crate::traces::watch;
use pte::PAGE_BYTES;
use std::alloc::{AllocError, Global};

/// A pointer (privileged manual 4.3.1).
const POINTER: u64 = 0x01;

/// MODE of Sv48 in satp (privileged manual 4.1.11).
const SV48: u64 = 9 << 60;

/// A run has 2^0 to 2^6 pages.
const RUN_ORDERS: u64 = 7;

/// A superpage has 2^9 frames.
const SUPERPAGE_ORDER: u64 = 9;

/// How many tables of pages a process has, and how many superpages may come behind them.
const TABLES: u64 = 2;

const SUPERPAGES: u64 = 30;

/// How many runs of one length may lie free before one of them is given out again.
const SPARE: usize = 20;

/// Pages side by side that are mapped to frames side by side.
#[derive(Clone, Copy, Debug, PartialEq, Eq)]
struct PageRun {
    /// The number of the first page: its table, and its index there.
    page: u64,
    /// How many pages, as a power of two.
    order: u64,
    /// The first frame.
    frame: u64,
}

/// A process.
#[derive(Drop)]
struct Process {
    asid: u64,
    root: u64,
    /// The table of level 1.
    directory: u64,
    /// The tables of level 0.
    tables: [u64; TABLES as usize],
    /// For each page of these tables whether it is mapped.
    used: Vec<bool>,
    runs: Vec<PageRun>,
    /// The first frame of each superpage, 0 where it is not mapped.
    superpages: Vec<u64>,
    /// The harts that have been there.
    seen: u64,
}

impl Process {
    /// Whether no page of a run is mapped.
    fn is_free(&self, page: u64, order: u64) -> bool
        requires { order < 64 }
    {
        for offset in 0..1_u64 << order {
            if self.used.get(page.wrapping_add(offset) as usize) != Some(&false) {
                return false;
            }
        }
        true
    }

    /// Says of each page of a run whether it is mapped.
    fn mark(&mut self, page: u64, order: u64, is_used: bool)
        requires { order < 64 }
    {
        for offset in 0..1_u64 << order {
            if let Some(used) = self.used.get_mut(page.wrapping_add(offset) as usize) {
                *used = is_used;
            }
        }
    }
}

/// A kernel, and what it has recorded.
#[derive(Drop)]
struct Ranges {
    alloc: Global,
    /// The lines of its trace, and the numbers by which it decides.
    kernel: Kernel,
    processes: Vec<Process>,
    /// The process that each hart is in.
    at: Vec<usize>,
    /// The runs of frames that lie free, by their order.
    free: Vec<Vec<u64>>,
    next_frame: u64,
    next_asid: u64,
}

impl Ranges {
    /// Gives a run of frames out: one that lies free if there are many.
    fn give_out(&mut self, hart: u64, order: u64) -> Result<u64, AllocError>
        requires { order < 64 }
    {
        let count = 1_u64 << order;
        let mut given = None;
        if let Some(free) = self.free.get_mut(order as usize) {
            let place = self.kernel.random.below(free.len() as u64) as usize;
            if free.len() > SPARE && place < free.len() {
                given = Some(free.swap_remove(place));
            }
        }
        let frame = match given {
            Some(frame) => frame,
            None => {
                let first = self.next_frame.wrapping_add(count - 1) >> order << order;
                self.next_frame = first.wrapping_add(count);
                first
            }
        };
        self.kernel.record(b'a', hart, &[Some(frame), Some(count)])?;
        Ok(frame)
    }

    /// Gives a run of frames back.
    fn give_back(&mut self, hart: u64, frame: u64, order: u64) -> Result<(), AllocError>
        requires { order < 64 }
    {
        if let Some(free) = self.free.get_mut(order as usize) {
            free.push(frame)?;
        }
        let count = 1_u64 << order;
        self.kernel.record(b'z', hart, &[Some(frame), Some(count)])
    }

    /// Makes a process, and lets its tables point to one another.
    fn fork(&mut self, hart: u64) -> Result<(), AllocError> {
        let root = self.give_out(hart, 0)?;
        let upper = self.give_out(hart, 0)?;
        let directory = self.give_out(hart, 0)?;
        self.kernel.store(hart, root, 0, upper << 10 | POINTER)?;
        self.kernel
            .store(hart, upper, 0, directory << 10 | POINTER)?;
        let mut tables = [0; TABLES as usize];
        for (index, table) in tables.iter_mut().enumerate() {
            let low = self.give_out(hart, 0)?;
            *table = low;
            let word = low << 10 | POINTER;
            self.kernel.store(hart, directory, index as u64, word)?;
        }
        self.next_asid = self.next_asid.wrapping_add(1);
        let mut used = Vec::new(self.alloc);
        used.resize(512 * TABLES as usize, false)?;
        let mut superpages = Vec::new(self.alloc);
        superpages.resize(SUPERPAGES as usize, 0)?;
        self.processes.push(Process {
            asid: self.next_asid,
            root,
            directory,
            tables,
            used,
            runs: Vec::new(self.alloc),
            superpages,
            seen: 0,
        })?;
        Ok(())
    }

    /// A hart goes to a process.
    fn switch(&mut self, hart: u64, to: usize) -> Result<(), AllocError> {
        if let Some(at) = self.at.get_mut(hart as usize) {
            *at = to;
        }
        let Some(process) = self.processes.get_mut(to) else {
            return Ok(());
        };
        process.seen |= 1 << hart % 64;
        let satp = SV48 | process.asid << 44 | process.root;
        self.kernel.record(b's', hart, &[Some(satp)])
    }

    /// A run of pages appears, which were not mapped: no fence is needed.
    fn map_run(&mut self, hart: u64, of: usize) -> Result<(), AllocError> {
        let order = self.kernel.random.below(RUN_ORDERS);
        let page = self.kernel.random.below(512 * TABLES >> order) << order;
        let Some(process) = self.processes.get_mut(of) else {
            return Ok(());
        };
        let Some(table) = process.tables.get((page >> 9) as usize).copied() else {
            return Ok(());
        };
        if order >= RUN_ORDERS || !process.is_free(page, order) {
            return Ok(());
        }
        process.mark(page, order, true);
        let frame = self.give_out(hart, order)?;
        for offset in 0..1_u64 << order {
            let index = (page % 512).wrapping_add(offset);
            let word = Kernel::user_word(frame.wrapping_add(offset));
            self.kernel.store(hart, table, index, word)?;
        }
        if let Some(process) = self.processes.get_mut(of) {
            process.runs.push(PageRun { page, order, frame })?;
        }
        Ok(())
    }

    /// A hart fences each page of a run, in the order of their addresses.
    fn fence_run(&mut self, hart: u64, run: PageRun, asid: u64) -> Result<(), AllocError>
        requires { run.order < 64 }
    {
        for offset in 0..1_u64 << run.order {
            let address = run.page.wrapping_add(offset) << 12;
            self.kernel
                .record(b'f', hart, &[Some(address), Some(asid)])?;
        }
        Ok(())
    }

    /// The other harts that have been in the process fence a run: each page by page, or by one remote
    /// fence, or by a remote fence for each page.
    fn fence_others(
        &mut self,
        hart: u64,
        others: u64,
        run: PageRun,
        asid: u64,
    ) -> Result<(), AllocError>
        requires { run.order < 64 }
    {
        let kind = self.kernel.random.below(3);
        if kind == 0 {
            for other in 0..64_u64 {
                if others >> other & 1 == 1 {
                    self.fence_run(other, run, asid)?;
                }
            }
            return Ok(());
        }
        let start = run.page << 12;
        let size = PAGE_BYTES << run.order;
        if kind == 1 {
            return self
                .kernel
                .fence_others(hart, others, start, size, Some(asid));
        }
        for offset in 0..1_u64 << run.order {
            let address = run.page.wrapping_add(offset) << 12;
            self.kernel
                .fence_others(hart, others, address, PAGE_BYTES, Some(asid))?;
        }
        Ok(())
    }

    /// A run of pages goes, is fenced, and its frames are given back.
    fn unmap_run(&mut self, hart: u64, of: usize) -> Result<(), AllocError> {
        let Some(process) = self.processes.get_mut(of) else {
            return Ok(());
        };
        let place = self.kernel.random.below(process.runs.len() as u64) as usize;
        if place >= process.runs.len() {
            return Ok(());
        }
        let run = process.runs.swap_remove(place);
        let asid = process.asid;
        let others = process.seen & !(1 << hart % 64);
        let Some(table) = process.tables.get((run.page >> 9) as usize).copied() else {
            return Ok(());
        };
        if run.order >= RUN_ORDERS {
            return Ok(());
        }
        process.mark(run.page, run.order, false);
        for offset in 0..1_u64 << run.order {
            let index = (run.page % 512).wrapping_add(offset);
            self.kernel.store(hart, table, index, 0)?;
        }
        self.fence_run(hart, run, asid)?;
        self.fence_others(hart, others, run, asid)?;
        self.give_back(hart, run.frame, run.order)
    }

    /// A superpage comes, or goes and is fenced.
    fn change_superpage(&mut self, hart: u64, of: usize) -> Result<(), AllocError> {
        let number = self.kernel.random.below(SUPERPAGES);
        let Some(process) = self.processes.get_mut(of) else {
            return Ok(());
        };
        let (directory, asid) = (process.directory, process.asid);
        let others = process.seen & !(1 << hart % 64);
        let index = number.wrapping_add(TABLES);
        let Some(place) = process.superpages.get_mut(number as usize) else {
            return Ok(());
        };
        let old = *place;
        *place = 0;
        if old == 0 {
            let frame = self.give_out(hart, SUPERPAGE_ORDER)?;
            let place = self
                .processes
                .get_mut(of)
                .and_then(|process| process.superpages.get_mut(number as usize));
            if let Some(place) = place {
                *place = frame;
            }
            let word = Kernel::user_word(frame);
            return self.kernel.store(hart, directory, index, word);
        }
        let address = index << 21;
        self.kernel.store(hart, directory, index, 0)?;
        self.kernel
            .record(b'f', hart, &[Some(address), Some(asid)])?;
        self.kernel
            .fence_others(hart, others, address, PAGE_BYTES << 9, Some(asid))?;
        self.give_back(hart, old, SUPERPAGE_ORDER)
    }

    /// One thing that some hart does.
    fn act(&mut self) -> Result<(), AllocError> {
        let hart = self.kernel.random.below(self.kernel.shape.harts);
        let dice = self.kernel.random.below(100);
        let of = self.at.get(hart as usize).copied().unwrap_or(0);
        if dice < 20 {
            let to = self.kernel.random.below(self.kernel.shape.processes);
            self.switch(hart, to as usize)
        } else if dice < 55 {
            self.map_run(hart, of)
        } else if dice < 85 {
            self.unmap_run(hart, of)
        } else {
            self.change_superpage(hart, of)
        }
    }
}

/// A kernel that has its processes, each of its harts in one.
fn begun(alloc: Global, shape: Shape, random: Random) -> Result<Ranges, AllocError> {
    let mut ranges = Ranges {
        alloc,
        kernel: Kernel::new(alloc, shape, random),
        processes: Vec::new(alloc),
        at: Vec::new(alloc),
        free: Vec::new(alloc),
        next_frame: 0x9_0000,
        next_asid: 0,
    };
    for _ in 0..SUPERPAGE_ORDER + 1 {
        ranges.free.push(Vec::new(alloc))?;
    }
    ranges.kernel.text.extend_from_slice(b"watch 1 ")?;
    push_decimal(&mut ranges.kernel.text, shape.harts)?;
    ranges.kernel.text.extend_from_slice(b" sv48\n")?;
    for _ in 0..shape.processes {
        ranges.fork(0)?;
    }
    for hart in 0..shape.harts {
        ranges.at.push(0)?;
        let to = hart % shape.processes.max(1);
        ranges.switch(hart, to as usize)?;
    }
    Ok(ranges)
}

/// The trace of a kernel of a shape, of so many records or a few more.
fn trace(alloc: Global, shape: Shape, random: Random, records: u64) -> Result<Vec<u8>, AllocError> {
    let mut ranges = begun(alloc, shape, random)?;
    for _ in 0..records.saturating_mul(16) {
        if ranges.kernel.records >= records {
            break;
        }
        ranges.act()?;
    }
    Ok(ranges.kernel.text)
}

/// `watch` on the traces of kernels of a shape, one after another, that have so many records in all or a
/// few more.
pub fn run(
    alloc: Global,
    shape: Shape,
    seed: u64,
    records: u64,
    digest: &mut Digest,
) -> Result<(), Failure> {
    let most = shape.records.max(1);
    for number in 0..records.div_ceil(most) {
        let rest = records.saturating_sub(number.saturating_mul(most));
        let random = Random::new(number << 32 | seed);
        let text = trace(alloc, shape, random, rest.min(most))?;
        watch(alloc, &text, digest)?;
    }
    Ok(())
}
