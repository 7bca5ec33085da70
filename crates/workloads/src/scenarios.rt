//! Scenario files, one after another.

use crate::Failure;
use crate::digest::Digest;
use crate::file_texts::{Scenario, walk_file};
use crate::random::Random;
use scenario::{Which, command};
use std::alloc::Global;

/// How many steps a file has: few are long.
fn steps_of(random: &mut Random) -> u64 {
    let most = 10_u64 << random.below(13);
    random.below(most) + 10
}

/// A command on a file.
fn answer(alloc: Global, which: Which, file: &[u8], digest: &mut Digest) {
    let mut input = file;
    let mut err = Digest::new();
    let status = command(alloc, which, "file", &mut input, digest, &mut err);
    digest.take_number(u64::from(status));
    digest.take_number(err.hash);
}

/// One file, and the command that it is for. Half of the files are for `run` alone.
fn one(alloc: Global, random: &mut Random, digest: &mut Digest) -> Result<(), Failure> {
    let steps = steps_of(random);
    let dice = random.below(20);
    let inner = Random::new(random.next());
    if dice < 3 {
        let file = walk_file(alloc, inner, steps)?;
        answer(alloc, Which::Walk, &file, digest);
        return Ok(());
    }
    let left = if dice < 8 { 60 } else { 0 };
    let file = Scenario::begin(alloc, inner, left)?.write(steps)?;
    match dice {
        3 | 8 => answer(alloc, Which::Stale, &file, digest),
        4 | 5 | 9 => answer(alloc, Which::Draw, &file, digest),
        6 | 10 => answer(alloc, Which::Check, &file, digest),
        7 | 11 => answer(alloc, Which::Show, &file, digest),
        _ => answer(alloc, Which::Run, &file, digest),
    }
    Ok(())
}

/// So many files.
pub fn run(alloc: Global, seed: u64, count: u64, digest: &mut Digest) -> Result<(), Failure> {
    let mut random = Random::new(seed);
    for _ in 0..count {
        one(alloc, &mut random, digest)?;
    }
    Ok(())
}
