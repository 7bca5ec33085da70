//! Reading line by line.
ghost use Rattle.std.specs.Prelude.{◌≡◌, ◌≢◌, ◌++◌, ◌∷◌, ℕ, List, [], All, IfOk, IfErr, IfSome, None, Ok, OnErr, false, true};
ghost use Rattle.std.specs.Io.{StopsAt};
ghost use Rattle.std.specs.Io.KnownBytes.{Consumes, Keeps};
ghost use Rattle.watch_report.specs.Reading.{IsReadFault, ReadsLine};

use crate::bytes::first_of;
use crate::reading_fault::ReadingFault;
use std::io;
use std::io::BufRead;

/// Takes a line feed from the end. Whether one stood there.
fn take_feed(line: &mut Vec<u8>) -> bool
    ensures taken { result ≡ true → line.old.items ≡ line.new.items ++ 10 ∷ [] }
    ensures left { result ≡ false → line.new.items ≡ line.old.items }
    ensures gone { StopsAt line.old.items 10 → All (λ byte. byte ≢ 10) line.new.items }
{
    let length = line.len();
    if length == 0 {
        return false;
    }
    if line[length - 1] != b'\n' {
        return false;
    }
    line.truncate(length - 1);
    true
}

pub(crate) fn read_fault(error: &io::Error) -> ReadingFault
    ensures { IsReadFault result }
{
    if error.kind() == io::ErrorKind::OutOfMemory {
        ReadingFault::NoMemory
    } else {
        ReadingFault::Unreadable
    }
}

/// Reads a line that the reader shows whole, or the end, into an empty `line`. `None`: it shows
/// neither, and nothing was read.
fn read_shown<R: BufRead>(input: &mut R, line: &mut Vec<u8>) -> Result<Option<bool>, ReadingFault>
    requires empty { line.old.items ≡ [] }
    ensures read { IfOk result (λ read. IfSome read (λ more.
        ReadsLine (R.remaining input.old) (R.remaining input.new) line.new.items more)) }
    ensures kept { result ≡ Ok None → (line.new.items ≡ [])
        × Keeps (R.remaining input.old) (R.remaining input.new) }
    ensures err { OnErr result (Consumes (R.remaining input.old) (R.remaining input.new) []) }
    ensures fault { IfErr result IsReadFault }
{
    let shown = match input.fill_buf() {
        Ok(shown) => shown,
        Err(error) => return Err(read_fault(&error)),
    };
    if shown.is_empty() {
        return Ok(Some(false));
    }
    let end = first_of(b'\n', shown);
    if end >= shown.len() {
        return Ok(None);
    }
    line.extend_from_slice(&shown[..end])?;
    input.consume(end + 1);
    Ok(Some(true))
}

/// Reads a line, without its line feed, in place of what `line` held. Whether more come after it:
/// only the last line has no line feed at its end.
pub fn read_line<R: BufRead>(input: &mut R, line: &mut Vec<u8>) -> Result<bool, ReadingFault>
    ensures ok { IfOk result (λ more. ReadsLine (R.remaining input.old) (R.remaining input.new)
        line.new.items more) }
    ensures err { OnErr result ((bytes : List ℕ)
        × Consumes (R.remaining input.old) (R.remaining input.new) bytes) }
    ensures fault { IfErr result IsReadFault }
{
    line.clear();
    if let Some(more) = read_shown(input, line)? {
        return Ok(more);
    }
    if let Err(error) = input.read_until(b'\n', line) {
        return Err(read_fault(&error));
    }
    Ok(take_feed(line))
}
