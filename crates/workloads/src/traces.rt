//! What a kernel does, at random.

use crate::Failure;
use crate::digest::Digest;
use crate::kernel::{KERNEL_PAGES, Kernel, Shape};
use crate::process::Process;
use crate::random::Random;
use crate::texts::push_decimal;
use pte::PAGE_BYTES;
use scenario::watch_command;
use std::alloc::{AllocError, Global};
use std::mem;

/// How many records of a lazy kernel pass before it fences what it owes.
const LAZY: u64 = 30_000;

/// How many words in a row a lazy kernel clears.
const CLEARED: u64 = 64;

/// A hart goes to a process.
fn switch(kernel: &mut Kernel, hart: u64, to: usize) -> Result<(), AllocError> {
    let bit = 1 << hart % 64;
    if let Some(at) = kernel.at.get_mut(hart as usize) {
        if let Some(old) = kernel.processes.get_mut(*at) {
            old.harts &= !bit;
        }
        *at = to;
    }
    let Some(process) = kernel.processes.get_mut(to) else {
        return Ok(());
    };
    process.harts |= bit;
    process.seen |= bit;
    let satp = Kernel::satp_of(process.tables[0], process.asid);
    kernel.record(b's', hart, &[Some(satp)])
}

/// A page of the process in which a hart is appears, and the hart fences it.
fn fault(kernel: &mut Kernel, hart: u64, of: usize) -> Result<(), AllocError> {
    let Some(process) = kernel.processes.get(of) else {
        return Ok(());
    };
    let (low, asid) = (process.tables[2], process.asid);
    let Some(index) = process.free_index(&mut kernel.random) else {
        return Ok(());
    };
    let frame = kernel.give_out(hart)?;
    kernel.store(hart, low, index, Kernel::user_word(frame))?;
    if let Some(process) = kernel.processes.get_mut(of) {
        process.map(index, frame)?;
    }
    let asid = if kernel.shape.lazy { None } else { Some(asid) };
    kernel.record(b'f', hart, &[Some(index << 12), asid])
}

/// A page of the process goes, on all harts that have been there unless the kernel forgets them, and its
/// frame is given back.
fn unmap(kernel: &mut Kernel, hart: u64, of: usize) -> Result<(), AllocError> {
    let Some(process) = kernel.processes.get_mut(of) else {
        return Ok(());
    };
    let (low, asid) = (process.tables[2], process.asid);
    let others = process.seen & !(1 << hart % 64);
    let Some((index, frame)) = process.unmap(&mut kernel.random) else {
        return Ok(());
    };
    kernel.store(hart, low, index, 0)?;
    kernel.record(b'f', hart, &[Some(index << 12), Some(asid)])?;
    if !kernel.shape.forgets {
        kernel.fence_others(hart, others, index << 12, PAGE_BYTES, Some(asid))?;
    }
    kernel.give_back(hart, frame)
}

/// A page of the kernel comes or goes. A lazy kernel gives its frame back before all have fenced.
fn change_own(kernel: &mut Kernel, hart: u64) -> Result<(), AllocError> {
    let index = kernel.random.below(KERNEL_PAGES);
    let low = kernel.kernel_tables[1];
    let old = kernel.kernel_frames.get(index as usize).copied();
    let address = Kernel::kernel_address(index);
    if old == Some(0) {
        let frame = kernel.give_out(hart)?;
        kernel.store(hart, low, index, Kernel::kernel_word(frame))?;
        if let Some(place) = kernel.kernel_frames.get_mut(index as usize) {
            *place = frame;
        }
        return kernel.record(b'f', hart, &[Some(address), None]);
    }
    kernel.store(hart, low, index, 0)?;
    if let Some(place) = kernel.kernel_frames.get_mut(index as usize) {
        *place = 0;
    }
    if !kernel.shape.lazy {
        kernel.record(b'f', hart, &[Some(address), None])?;
        let others = kernel.others(hart);
        kernel.fence_others(hart, others, address, PAGE_BYTES, None)?;
    }
    kernel.give_back(hart, old.unwrap_or(0))
}

/// The pages of a process go, and all harts that have been there fence its ASID; a claim says so.
fn unmap_all(kernel: &mut Kernel, hart: u64, old: &Process) -> Result<(), AllocError> {
    let (tables, asid) = (old.tables, old.asid);
    if kernel.shape.lazy {
        for index in 0..CLEARED {
            kernel.store(hart, tables[2], index, 0)?;
        }
    }
    for index in &old.mapped {
        kernel.store(hart, tables[2], *index, 0)?;
    }
    kernel.record(
        b'c',
        hart,
        &[Some(asid), Some(tables[0]), Some(0), Some(u64::MAX)],
    )?;
    kernel.record(b'f', hart, &[None, Some(asid)])?;
    kernel.fence_others(hart, old.seen & !(1 << hart % 64), 0, u64::MAX, Some(asid))?;
    kernel.record(b'd', hart, &[Some(asid)])
}

/// What a process had is given back, its tables last.
fn give_back_all(kernel: &mut Kernel, hart: u64, old: &Process) -> Result<(), AllocError> {
    for index in &old.mapped {
        let frame = old.frames.get(*index as usize).copied();
        kernel.give_back(hart, frame.unwrap_or(0))?;
    }
    let [root, middle, low] = old.tables;
    kernel.store(hart, middle, 0, 0)?;
    kernel.store(hart, root, 0, 0)?;
    kernel.store(hart, root, 256, 0)?;
    for table in [low, middle, root] {
        kernel.give_back(hart, table)?;
    }
    Ok(())
}

/// A process ends that no hart is in, and another begins.
fn exit(kernel: &mut Kernel, hart: u64, of: usize) -> Result<(), AllocError> {
    if kernel
        .processes
        .get(of)
        .is_none_or(|process| process.harts != 0)
    {
        return Ok(());
    }
    let new = kernel.fork(hart)?;
    let Some(place) = kernel.processes.get_mut(of) else {
        return Ok(());
    };
    let old = mem::replace(place, new);
    unmap_all(kernel, hart, &old)?;
    give_back_all(kernel, hart, &old)
}

/// One thing that some hart does.
fn act(kernel: &mut Kernel) -> Result<(), AllocError> {
    let hart = kernel.random.below(kernel.shape.harts);
    let dice = kernel.random.below(1000);
    let at = kernel.at.get(hart as usize).copied().unwrap_or(0);
    let count = match kernel.processes.get(at) {
        Some(process) => process.mapped.len(),
        None => 0,
    };
    let is_full = count >= kernel.shape.pages;
    if dice < 120 {
        let to = kernel.random.below(kernel.shape.processes);
        switch(kernel, hart, to as usize)
    } else if dice < 960 && (dice < 660 && !is_full || count == 0) {
        fault(kernel, hart, at)
    } else if dice < 960 {
        unmap(kernel, hart, at)
    } else if dice < 985 {
        change_own(kernel, hart)
    } else {
        let of = kernel.random.below(kernel.shape.processes);
        exit(kernel, hart, of as usize)
    }
}

/// What a lazy kernel owes: all harts fence all pages of its own that come and go.
fn settle(kernel: &mut Kernel) -> Result<(), AllocError> {
    let harts = kernel.others(0) | 1;
    let size = KERNEL_PAGES * PAGE_BYTES;
    kernel.fence_others(0, harts, Kernel::kernel_address(0), size, None)
}

/// A kernel that has its processes, each of its harts in one.
fn begun(alloc: Global, shape: Shape, random: Random) -> Result<Kernel, AllocError> {
    let mut kernel = Kernel::new(alloc, shape, random);
    kernel.text.extend_from_slice(b"watch 1 ")?;
    push_decimal(&mut kernel.text, shape.harts)?;
    kernel.text.extend_from_slice(b" sv39\n")?;
    kernel.boot()?;
    for _ in 0..shape.processes {
        let process = kernel.fork(0)?;
        kernel.processes.push(process)?;
    }
    for hart in 0..shape.harts {
        kernel.at.push(0)?;
        let to = hart % shape.processes.max(1);
        switch(&mut kernel, hart, to as usize)?;
    }
    Ok(kernel)
}

/// The trace of a kernel of a shape, of so many records or a few more.
fn trace(alloc: Global, shape: Shape, random: Random, records: u64) -> Result<Vec<u8>, AllocError> {
    let mut kernel = begun(alloc, shape, random)?;
    let mut settled: u64 = 0;
    for _ in 0..records.saturating_mul(16) {
        if kernel.records >= records {
            break;
        }
        act(&mut kernel)?;
        if shape.lazy && kernel.records >= settled.saturating_add(LAZY) {
            settled = kernel.records;
            settle(&mut kernel)?;
        }
    }
    Ok(kernel.text)
}

/// `watch` on a trace.
pub fn watch(alloc: Global, trace: &[u8], digest: &mut Digest) -> Result<(), Failure> {
    let mut err = Digest::new();
    let status = watch_command(alloc, "trace", trace, digest, &mut err);
    if status > 1 {
        return Err(Failure::Refused);
    }
    digest.take_number(u64::from(status));
    if err.bytes > 0 {
        digest.take_number(err.hash);
    }
    Ok(())
}

/// `watch` on the traces of kernels of a shape, one after another, that have so many records in all or a
/// few more.
pub fn run(
    alloc: Global,
    shape: Shape,
    seed: u64,
    records: u64,
    digest: &mut Digest,
) -> Result<(), Failure> {
    let most = shape.records.max(1);
    for number in 0..records.div_ceil(most) {
        let rest = records.saturating_sub(number.saturating_mul(most));
        let random = Random::new(number << 32 | seed);
        let text = trace(alloc, shape, random, rest.min(most))?;
        watch(alloc, &text, digest)?;
    }
    Ok(())
}
