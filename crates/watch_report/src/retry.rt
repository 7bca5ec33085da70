//! Reads and writes that a signal interrupts, which are tried again.
ghost use Rattle.std.specs.Prelude.{◌≢◌, IfErr};
ghost use Rattle.std.specs.Io.{ReadsAtMost, WritesAtMost};
ghost use Rattle.std.specs.Io.KnownBytes.{ReadConsumes, WriteAppends};
ghost use Rattle.std.specs.IoError.{error_kind};

use std::io;
use std::io::{ErrorKind, Read, Write};

/// How often one read or write is tried.
const MOST_TRIES: u32 = 65_536;

/// One read. While a signal interrupts it, it is tried up to 65,536 times.
pub fn read_retrying<R: Read>(input: &mut R, buffer: &mut [u8]) -> io::Result<usize>
    ensures bound { ReadsAtMost result buffer.new }
    ensures bytes { ReadConsumes (R.remaining input.old) (R.remaining input.new) result buffer.new }
    ensures retried { IfErr result (λ e. error_kind e ≢ ErrorKind.Interrupted) }
{
    for _ in 0..MOST_TRIES {
        match input.read(buffer) {
            Ok(count) => return Ok(count),
            Err(error) => {
                if error.kind() != ErrorKind::Interrupted {
                    return Err(error);
                }
            }
        }
    }
    Err(io::Error::from(ErrorKind::TimedOut))
}

/// One write. While a signal interrupts it, it is tried up to 65,536 times.
#[inline(never)]
pub fn write_retrying<W: Write>(out: &mut W, bytes: &[u8]) -> io::Result<usize>
    ensures bound { WritesAtMost result bytes.now }
    ensures bytes { WriteAppends (W.contents out.old) (W.contents out.new) result bytes.now }
    ensures retried { IfErr result (λ e. error_kind e ≢ ErrorKind.Interrupted) }
{
    for _ in 0..MOST_TRIES {
        match out.write(bytes) {
            Ok(taken) => return Ok(taken),
            Err(fault) => {
                if fault.kind() != ErrorKind::Interrupted {
                    return Err(fault);
                }
            }
        }
    }
    Err(io::Error::from(ErrorKind::TimedOut))
}

/// A reader each of whose reads is tried again while it is interrupted.
#[derive(Drop)]
pub struct Retrying<R> {
    pub inner: R,
}

impl<R: Read> Read for Retrying<R> {
    ghost remaining = { λ reader. R.remaining reader.inner };

    fn read(&mut self, buffer: &mut [u8]) -> io::Result<usize> {
        read_retrying(&mut self.inner, buffer)
    }
}
