//! Writing a text whole.
ghost use Rattle.std.specs.Prelude.{◌≡◌, ◌<◌, length, OnOk, OnErr};
ghost use Rattle.std.specs.Io.KnownBytes.{Appends};
ghost use Rattle.std.specs.IoError.{error_kind};
ghost use Rattle.watch_report.specs.Output.{AppendsFront, write_fault};

use crate::retry::write_retrying;
use std::io;
use std::io::{ErrorKind, Write};

/// Why a text is not written whole.
#[derive(Clone, Copy)]
pub enum WriteFault {
    /// Nobody reads what is written any more.
    BrokenPipe,
    /// The writer failed.
    Failed,
}

fn write_fault(error: &io::Error) -> WriteFault
    ensures { result ≡ write_fault (error_kind error.now) }
{
    if error.kind() == ErrorKind::BrokenPipe {
        WriteFault::BrokenPipe
    } else {
        WriteFault::Failed
    }
}

/// Writes all of the bytes. A write that fails, or writes no bytes, ends it at once; one that a signal
/// interrupts is tried again (`write_retrying`).
#[inline(always)]
pub fn write_whole<W: Write>(out: &mut W, bytes: &[u8]) -> Result<(), WriteFault>
    ensures ok { OnOk result (Appends (W.contents out.old) (W.contents out.new) bytes.now) }
    ensures err { OnErr result (AppendsFront (W.contents out.old) (W.contents out.new) bytes.now) }
    ensures some { OnErr result (0 < length bytes.now) }
{
    let mut written = 0usize;
    while written < bytes.len() {
        match write_retrying(out, &bytes[written..]) {
            Ok(0) => return Err(WriteFault::Failed),
            Ok(count) => written += count,
            Err(error) => return Err(write_fault(&error)),
        }
    }
    Ok(())
}
