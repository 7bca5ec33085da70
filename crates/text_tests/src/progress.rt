//! What is told of a long trace while it is read.
use crate::ends::Narrow;
use scenario::Progress;
use std::cell::Cell;
use std::io;
use std::io::Read;
use std::test::Fail;
use std::time::{Clock, Duration};

/// A clock on which each look takes half a second.
#[derive(Drop)]
struct Slow {
    looks: Cell<u64>,
}

impl Clock for Slow {
    fn monotonic(&self) -> io::Result<Duration> {
        let looks = self.looks.get().saturating_add(1);
        self.looks.set(looks);
        Ok(Duration::from_millis(looks.saturating_mul(500)))
    }

    fn since_1970(&self) -> io::Result<Duration> {
        self.monotonic()
    }
}

/// A reader that fills its buffer so many times.
#[derive(Drop)]
struct Filling {
    times: u32,
}

impl Read for Filling {
    fn read(&mut self, buf: &mut [u8]) -> io::Result<usize> {
        if self.times == 0 {
            return Ok(0);
        }
        self.times -= 1;
        Ok(buf.len())
    }
}

/// How often 700,000 bytes are read, and what is told of it: after two seconds, each second, and at the end.
const TOLD: [(u32, &str); 4] = [
    (0, ""),
    (3, ""),
    (4, "2 MB read\x1b[K\r\x1b[K"),
    (
        9,
        "2 MB read\x1b[K\r4 MB read\x1b[K\r5 MB read\x1b[K\r\x1b[K",
    ),
];

#[test]
fn long_traces_are_told(rt: HostRuntime) -> Result<(), Fail> {
    let alloc = rt.alloc();
    let mut buffer = Vec::new(alloc);
    buffer.resize(700_000, 0u8)?;
    for (times, told) in TOLD {
        let clock = Slow {
            looks: Cell::new(0),
        };
        let mut terminal = Narrow::ample(alloc);
        let mut reader = Progress::new(Filling { times }, &clock, Some(&mut terminal));
        for _ in 0..times.saturating_add(2) {
            reader.read(buffer.as_mut_slice())?;
        }
        assert!(rt;
            terminal.held.as_slice() == told.as_bytes(),
            "{times} times"
        );
    }
    Ok(())
}
