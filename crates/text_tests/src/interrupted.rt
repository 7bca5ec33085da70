//! Readers and writers that a signal interrupts.
use crate::asserting::assert_of;
use crate::ends::{Job, Narrow, Pieces, end_of, status_of};
use crate::readers_and_writers::ALL;
use crate::samples::{FILE, TRACE, VERDICTS};
use scenario::{Which, watch_command};
use std::io;
use std::io::{ErrorKind, Read, Write};
use std::test::Fail;

const WALK: Job = Job::Plain(Which::Walk);

/// How often a read or write is tried.
const MOST_TRIES: u32 = 65_536;

/// A reader or writer that is interrupted so many times before each call that goes on.
#[derive(Drop)]
struct Interrupted<T> {
    inner: T,
    times: u32,
    left: u32,
    tries: u64,
}

impl<T> Interrupted<T> {
    fn new(inner: T, times: u32) -> Interrupted<T> {
        Interrupted {
            inner,
            times,
            left: times,
            tries: 0,
        }
    }

    fn try_once(&mut self) -> io::Result<()> {
        self.tries = self.tries.saturating_add(1);
        if self.left > 0 {
            self.left -= 1;
            return Err(io::Error::from(ErrorKind::Interrupted));
        }
        self.left = self.times;
        Ok(())
    }
}

impl<R: Read> Read for Interrupted<R> {
    fn read(&mut self, buf: &mut [u8]) -> io::Result<usize> {
        self.try_once()?;
        self.inner.read(buf)
    }
}

impl<W: Write> Write for Interrupted<W> {
    fn write(&mut self, buf: &[u8]) -> io::Result<usize> {
        self.try_once()?;
        self.inner.write(buf)
    }

    fn flush(&mut self) -> io::Result<()> {
        self.inner.flush()
    }
}

/// Each command prints the same, whatever is interrupted in between.
#[test]
fn interruptions_change_nothing(rt: HostRuntime) -> Result<(), Fail> {
    let alloc = rt.alloc();
    for (job, text, status) in ALL {
        let left = text.as_bytes();
        let whole = end_of(&rt, alloc, job, &mut Pieces::whole(left));
        let pieces = Pieces {
            left,
            piece: 7,
            reads: usize::MAX,
        };
        let mut input = Interrupted::new(pieces, 3);
        let mut out = Interrupted::new(Narrow::steps_of(alloc, 11), 2);
        let mut err = Interrupted::new(Narrow::ample(alloc), 1);
        let ended = status_of(&rt, alloc, job, &mut input, &mut out, &mut err);
        assert_of(&rt, text, ended == status);
        assert_of(
            &rt,
            text,
            out.inner.held == whole.out && !whole.out.is_empty(),
        );
        assert_of(&rt, text, err.inner.held.is_empty());
    }
    Ok(())
}

#[test]
fn interruptions_of_watch_change_nothing(rt: HostRuntime) -> Result<(), Fail> {
    let alloc = rt.alloc();
    for piece in [1, 7, usize::MAX] {
        let pieces = Pieces {
            left: TRACE.as_bytes(),
            piece,
            reads: usize::MAX,
        };
        let input = Interrupted::new(pieces, 3);
        let mut out = Interrupted::new(Narrow::steps_of(alloc, 11), 2);
        let mut err = Narrow::ample(alloc);
        let status = watch_command(alloc, "a trace", input, &mut out, &mut err);
        assert!(rt; status == 1 && err.held.is_empty());
        assert!(rt; out.inner.held.as_slice() == VERDICTS.as_bytes());
    }
    Ok(())
}

/// The line of a refusal is written whole.
#[test]
fn interrupted_standard_error(rt: HostRuntime) -> Result<(), Fail> {
    let alloc = rt.alloc();
    let mut input = Pieces::whole("harts = 9".as_bytes());
    let mut out = Narrow::ample(alloc);
    let mut err = Interrupted::new(Narrow::steps_of(alloc, 2), 2);
    let status = status_of(&rt, alloc, WALK, &mut input, &mut out, &mut err);
    assert!(rt; status == 3 && out.held.is_empty());
    assert!(rt; err.inner.held.as_slice() == b"svsim: key harts: wrong\n".as_slice());
    Ok(())
}

/// The last try of a read and of a write may go on.
#[test]
fn last_try_goes_on(rt: HostRuntime) -> Result<(), Fail> {
    let alloc = rt.alloc();
    let times = MOST_TRIES - 1;
    let mut input = Interrupted::new(Pieces::whole(FILE.as_bytes()), times);
    let mut out = Interrupted::new(Narrow::ample(alloc), times);
    let mut err = Narrow::ample(alloc);
    let status = status_of(&rt, alloc, WALK, &mut input, &mut out, &mut err);
    assert!(rt; status == 0 && err.held.is_empty() && !out.inner.held.is_empty());
    Ok(())
}

/// What is interrupted for ever is given up after as many tries, and nothing more is read.
#[test]
fn interrupted_for_ever(rt: HostRuntime) -> Result<(), Fail> {
    let alloc = rt.alloc();
    for (job, text, _) in ALL {
        let mut input = Interrupted::new(Pieces::whole(text.as_bytes()), u32::MAX);
        let mut out = Narrow::ample(alloc);
        let mut err = Narrow::ample(alloc);
        let status = status_of(&rt, alloc, job, &mut input, &mut out, &mut err);
        assert_of(&rt, text, status == 2 && out.held.is_empty());
        assert_of(
            &rt,
            text,
            err.held.as_slice() == b"svsim: cannot read a file\n".as_slice(),
        );
        assert_of(&rt, text, input.tries == u64::from(MOST_TRIES));

        let mut input = Pieces::whole(text.as_bytes());
        let mut out = Interrupted::new(Narrow::ample(alloc), u32::MAX);
        let mut err = Narrow::ample(alloc);
        let status = status_of(&rt, alloc, job, &mut input, &mut out, &mut err);
        assert_of(&rt, text, status == 4 && out.inner.held.is_empty());
        assert_of(
            &rt,
            text,
            err.held.as_slice() == b"svsim: output failed\n".as_slice(),
        );
        assert_of(&rt, text, out.tries == u64::from(MOST_TRIES));
    }
    Ok(())
}

/// A trace whose reader is interrupted for ever in the middle of a line.
#[test]
fn watch_interrupted_for_ever(rt: HostRuntime) -> Result<(), Fail> {
    let alloc = rt.alloc();
    let mut out = Narrow::ample(alloc);
    let mut err = Narrow::ample(alloc);
    let begun = Pieces::whole(b"watch 1 2 sv39\nu 1 10");
    let input = begun.chain(Interrupted::new(Pieces::whole(b"00\n"), u32::MAX));
    let status = watch_command(alloc, "a trace", input, &mut out, &mut err);
    assert!(rt; status == 2 && out.held.is_empty());
    assert!(rt; err.held.as_slice() == b"svsim: cannot read a trace\n".as_slice());

    let mut out = Interrupted::new(Narrow::ample(alloc), u32::MAX);
    let mut err = Narrow::ample(alloc);
    let input = Pieces::whole(TRACE.as_bytes());
    let status = watch_command(alloc, "a trace", input, &mut out, &mut err);
    assert!(rt; status == 4 && out.inner.held.is_empty());
    assert!(rt; err.held.as_slice() == b"svsim: output failed\n".as_slice());
    assert!(rt; out.tries == u64::from(MOST_TRIES));
    Ok(())
}
