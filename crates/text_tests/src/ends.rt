//! How a command ends, with readers and writers that may fail.
use harts::OpenGate;
use scenario::{Which, command, live_command};
use std::alloc::Global;
use std::io;
use std::io::{ErrorKind, Read, Write};
use std::sync::Wait;
use std::test::Fail;
use std::thread::Threads;

/// A command that reads a file whole.
#[derive(Clone, Copy, PartialEq, Eq)]
pub enum Job {
    Plain(Which),
    Live,
}

pub const JOBS: [Job; 7] = [
    Job::Plain(Which::Walk),
    Job::Plain(Which::Run),
    Job::Live,
    Job::Plain(Which::Stale),
    Job::Plain(Which::Show),
    Job::Plain(Which::Draw),
    Job::Plain(Which::Check),
];

/// A reader that gives pieces of at most `piece` bytes, and fails once it was read `reads` times.
#[derive(Drop)]
pub struct Pieces<'a> {
    pub left: &'a [u8],
    pub piece: usize,
    pub reads: usize,
}

impl<'a> Pieces<'a> {
    /// All of it at once, if wanted.
    pub fn whole(left: &'a [u8]) -> Pieces<'a> {
        Pieces {
            left,
            piece: usize::MAX,
            reads: usize::MAX,
        }
    }
}

impl Read for Pieces<'_> {
    fn read(&mut self, buf: &mut [u8]) -> io::Result<usize> {
        if self.reads == 0 {
            return Err(io::Error::from(ErrorKind::Other));
        }
        self.reads -= 1;
        let count = self.piece.min(self.left.len()).min(buf.len());
        let (front, rest) = self.left.split_at(count);
        buf[..count].copy_from_slice(front);
        self.left = rest;
        Ok(count)
    }
}

/// What a narrow writer does once it is full.
#[derive(Clone, Copy, PartialEq, Eq)]
pub enum AtEnd {
    Fails,
    TakesNothing,
    /// Nobody reads it any more.
    BreaksPipe,
}

/// A writer that takes at most `step` bytes a write, and `room` bytes in all.
#[derive(Drop)]
pub struct Narrow {
    pub held: Vec<u8>,
    pub step: usize,
    pub room: usize,
    pub at_end: AtEnd,
}

impl Narrow {
    pub fn new(alloc: Global, step: usize, room: usize, at_end: AtEnd) -> Narrow {
        Narrow {
            held: Vec::new(alloc),
            step,
            room,
            at_end,
        }
    }

    /// One with room for all, that takes at most `step` bytes a write.
    pub fn steps_of(alloc: Global, step: usize) -> Narrow {
        Narrow::new(alloc, step, usize::MAX, AtEnd::Fails)
    }

    /// One with room for all.
    pub fn ample(alloc: Global) -> Narrow {
        Narrow::new(alloc, usize::MAX, usize::MAX, AtEnd::Fails)
    }
}

impl Write for Narrow {
    fn write(&mut self, buf: &[u8]) -> io::Result<usize> {
        let left = self.room.saturating_sub(self.held.len());
        let count = self.step.min(left).min(buf.len());
        if count == 0 {
            match self.at_end {
                AtEnd::Fails => return Err(io::Error::from(ErrorKind::Other)),
                AtEnd::BreaksPipe => return Err(io::Error::from(ErrorKind::BrokenPipe)),
                AtEnd::TakesNothing => {}
            }
        }
        self.held.extend_from_slice(&buf[..count])?;
        Ok(count)
    }

    fn flush(&mut self) -> io::Result<()> {
        Ok(())
    }
}

/// The status of a command on a file named `a file`.
pub fn status_of<T: Threads + Wait + Sync, R: Read, W: Write, E: Write>(
    rt: &T,
    alloc: Global,
    job: Job,
    input: &mut R,
    out: &mut W,
    err: &mut E,
) -> u8 {
    match job {
        Job::Plain(which) => command(alloc, which, "a file", input, out, err),
        Job::Live => live_command(rt, alloc, "a file", input, out, err, &OpenGate),
    }
}

/// What a command ended with: the status, the output and standard error.
#[derive(Drop)]
pub struct Ended {
    pub status: u8,
    pub out: Vec<u8>,
    pub err: Vec<u8>,
}

impl Ended {
    /// Whether it is this.
    pub fn is(&self, status: u8, lines: &str, line: &str) -> bool {
        self.status == status
            && self.out.as_slice() == lines.as_bytes()
            && self.err.as_slice() == line.as_bytes()
    }
}

/// What a command ends with where its writers take all.
pub fn end_of<T: Threads + Wait + Sync>(
    rt: &T,
    alloc: Global,
    job: Job,
    input: &mut Pieces<'_>,
) -> Ended {
    let mut out = Narrow::ample(alloc);
    let mut err = Narrow::ample(alloc);
    let status = status_of(rt, alloc, job, input, &mut out, &mut err);
    Ended {
        status,
        out: out.held,
        err: err.held,
    }
}

/// Whether a command is done, with these lines.
pub fn prints<T: Threads + Wait + Sync>(
    rt: &T,
    alloc: Global,
    job: Job,
    text: &str,
    lines: &str,
) -> bool {
    end_of(rt, alloc, job, &mut Pieces::whole(text.as_bytes())).is(0, lines, "")
}

/// Whether a command ends with this status and reason, and prints nothing.
pub fn refuses<T: Threads + Wait + Sync>(
    rt: &T,
    alloc: Global,
    job: Job,
    text: &str,
    status: u8,
    reason: &str,
) -> Result<bool, Fail> {
    let line = format!(in alloc; "svsim: {reason}\n")?;
    let ended = end_of(rt, alloc, job, &mut Pieces::whole(text.as_bytes()));
    Ok(ended.is(status, "", line.as_str()))
}
