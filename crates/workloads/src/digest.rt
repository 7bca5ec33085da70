//! A digest of what is written.

use std::io;
use std::io::Write;

/// What it was given so far, by the hash FNV-1a of 64 bits (Fowler, Noll, Vo), and how many bytes.
#[derive(Clone, Copy, Debug, PartialEq, Eq, Drop)]
pub struct Digest {
    /// The hash.
    pub hash: u64,
    /// The bytes.
    pub bytes: u64,
}

impl Digest {
    /// Of nothing.
    pub fn new() -> Digest {
        Digest {
            hash: 0xcbf2_9ce4_8422_2325,
            bytes: 0,
        }
    }

    /// Takes bytes.
    pub fn take(&mut self, bytes: &[u8]) {
        for byte in bytes {
            self.hash = (self.hash ^ u64::from(*byte)).wrapping_mul(0x100_0000_01b3);
        }
        self.bytes = self.bytes.wrapping_add(bytes.len() as u64);
    }

    /// Takes a number as one.
    pub fn take_number(&mut self, number: u64) {
        self.hash = (self.hash ^ number).wrapping_mul(0x100_0000_01b3);
        self.bytes = self.bytes.wrapping_add(8);
    }
}

impl Write for Digest {
    fn write(&mut self, buf: &[u8]) -> io::Result<usize> {
        self.take(buf);
        Ok(buf.len())
    }

    fn flush(&mut self) -> io::Result<()> {
        Ok(())
    }
}
