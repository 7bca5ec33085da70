//! How much was read, for who waits at a terminal.
use std::io;
use std::io::{Read, Write};
use std::time::{Clock, Instant};

/// For so many seconds nothing is told.
const QUIET_SECONDS: u64 = 2;

const MEGABYTE: u64 = 1_000_000;

/// What was read, and what a terminal was told of it.
#[derive(Drop)]
struct Meter<'a, C, W> {
    clock: &'a C,
    terminal: Option<W>,
    began: Option<Instant>,
    bytes: u64,
    /// For how many seconds it had been read when it was last told.
    told: u64,
}

impl<C: Clock, W: Write> Meter<'_, C, W> {
    /// For how many seconds it has been read, where that is to be told.
    fn seconds(&self) -> Option<u64> {
        let now = Instant::now(self.clock).ok()?;
        let seconds = now.duration_since(self.began?).as_secs();
        if seconds >= QUIET_SECONDS && seconds > self.told {
            Some(seconds)
        } else {
            None
        }
    }

    /// More bytes were read, or the end.
    fn tell(&mut self, count: usize) {
        if self.terminal.is_none() {
            return;
        }
        self.bytes = self.bytes.saturating_add(count as u64);
        let seconds = self.seconds();
        let Some(terminal) = &mut self.terminal else {
            return;
        };
        if count == 0 && self.told > 0 {
            let _ = write!(terminal, "\x1b[K");
            self.told = 0;
        }
        if count > 0
            && let Some(seconds) = seconds
        {
            let _ = write!(terminal, "{} MB read\x1b[K\r", self.bytes / MEGABYTE);
            self.told = seconds;
        }
    }
}

/// A reader that tells a terminal how much it has read: nothing for two seconds, then a line each second.
/// Each is written over by what comes next on the terminal, and the last is cleared at the end.
#[derive(Drop)]
pub struct Progress<'a, R, C, W> {
    inner: R,
    meter: Meter<'a, C, W>,
}

impl<'a, R: Read, C: Clock, W: Write> Progress<'a, R, C, W> {
    /// Without a terminal nothing is told.
    pub fn new(inner: R, clock: &'a C, terminal: Option<W>) -> Progress<'a, R, C, W> {
        Progress {
            inner,
            meter: Meter {
                clock,
                terminal,
                began: Instant::now(clock).ok(),
                bytes: 0,
                told: 0,
            },
        }
    }
}

impl<R: Read, C: Clock, W: Write> Read for Progress<'_, R, C, W> {
    ghost remaining = { λ reader. R.remaining reader.inner };

    fn read(&mut self, buf: &mut [u8]) -> io::Result<usize> {
        let count = self.inner.read(buf)?;
        self.meter.tell(count);
        Ok(count)
    }
}
