//! The fences and flushes of a trace, by the numbers of their records.

ghost use Rattle.std.specs.Prelude.{◌≡◌, ◌∷◌, ◌<◌, ◌≤◌, ◌^◌, ◌-◌, [], OnErr, OnOk, length};
ghost use Rattle.std.specs.List.{suffix_len};
ghost use Rattle.watch.specs.Trace.{Trace};
ghost use Rattle.watch_causes.specs.Logs.{asks_for_fence, begins_flush, is_after, last_after};

use std::alloc::{AllocError, Global};
use watch::Record;

/// A record, and its number: the first has 1.
#[derive(Clone, Copy, PartialEq, Eq, Debug)]
pub(crate) struct Numbered {
    pub(crate) number: u64,
    pub(crate) made: Record,
}

/// The fences and flushes of a trace.
#[derive(Drop)]
pub(crate) struct Log {
    pub(crate) count: u64,
    pub(crate) fences: Vec<Numbered>,
    pub(crate) flushes: Vec<Numbered>,
}

fn asks_for_fence(made: &Record) -> bool
    ensures { result ≡ asks_for_fence made.now }
{
    matches!(made, Record::Fence { .. } | Record::RemoteBegin { .. })
}

fn begins_flush(made: &Record) -> bool
    ensures { result ≡ begins_flush made.now }
{
    matches!(made, Record::ClaimBegin { .. })
}

/// How many at the end were made after the first so many records.
fn count_after(made: &[Numbered], count: u64) -> usize
    ensures last { result ≡ suffix_len (is_after count) made.now }
    ensures within { result ≤ length made.now }
{
    made.iter()
        .rev()
        .take_while(|one| one.number > count)
        .count()
}

/// Those at the end that were made after the first so many records.
#[tactic(auto, using(std::proofs::lemmas::List::take_rest))]
pub(crate) fn last_after(made: &[Numbered], count: u64) -> &[Numbered]
    ensures { result.now ≡ last_after count made.now }
{
    let last = count_after(made, count);
    &made[made.len() - last..]
}

impl Log {
    ghost use Rattle.watch_causes.specs.Logs.{Follows};

    pub(crate) fn new(alloc: Global) -> Log
        ensures { Follows [] result }
    {
        Log {
            count: 0,
            fences: Vec::new(alloc),
            flushes: Vec::new(alloc),
        }
    }

    /// Takes the next record.
    #[inline(always)]
    pub(crate) fn add(&mut self, newest: Record) -> Result<(), AllocError>
        requires { self.old.count < 2 ^ 64 - 1 }
        ensures ok { (trace : Trace) → Follows trace self.old
            → OnOk result (Follows (newest ∷ trace) self.new) }
        ensures err { (trace : Trace) → Follows trace self.old
            → OnErr result (Follows trace self.new) }
    {
        let one = Numbered {
            number: self.count + 1,
            made: newest,
        };
        if asks_for_fence(&newest) {
            self.fences.push(one)?;
        }
        if begins_flush(&newest) {
            self.flushes.push(one)?;
        }
        self.count += 1;
        Ok(())
    }
}
