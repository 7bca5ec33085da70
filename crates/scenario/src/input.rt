//! Reading a file whole.
ghost use Rattle.std.specs.Prelude.{◌≤◌, ◌+◌, length, vec_len, IfOk, IfErr};
ghost use Rattle.scenario.specs.Input.{AreLeft, IsPieceTrouble, IsReadTrouble, ReadsPiece, ReadsUpTo};
ghost use Rattle.scenario.specs.Limits.{most_bytes};

use crate::limits::MOST_BYTES;
use crate::trouble::Trouble;
use std::alloc::Global;
use std::io::Read;
use watch_report::read_retrying;

/// The bytes of one read.
const PIECE: usize = 4096;

/// One read, whose bytes go to the end of `bytes`. It is tried again while it is interrupted.
fn read_piece<R: Read>(
    input: &mut R,
    buffer: &mut [u8],
    bytes: &mut Vec<u8>,
) -> Result<usize, Trouble>
    ensures err { IfErr result IsPieceTrouble }
    ensures ok { IfOk result (λ count. ReadsPiece (R.remaining input.old) (R.remaining input.new)
        (length buffer.old) bytes.old.items bytes.new.items count) }
    ensures up_to { ReadsUpTo (length buffer.old) (R.remaining input.old) (R.remaining input.new) }
{
    let Ok(count) = read_retrying(input, buffer) else {
        return Err(Trouble::Unreadable);
    };
    bytes.extend_from_slice(&buffer[..count])?;
    Ok(count)
}

/// All that the reader has, if it is not too long. It is read no further than one byte past the
/// limit.
pub fn read_file<R: Read>(alloc: Global, input: &mut R) -> Result<Vec<u8>, Trouble>
    ensures whole { IfOk result (λ bytes. AreLeft (R.remaining input.old) bytes.items) }
    ensures short { IfOk result (λ bytes. vec_len bytes ≤ most_bytes) }
    ensures err { IfErr result (λ trouble. IsReadTrouble trouble (R.remaining input.old)) }
    ensures up_to { ReadsUpTo (most_bytes + 1) (R.remaining input.old) (R.remaining input.new) }
{
    let mut bytes = Vec::new(alloc);
    let mut buffer = [0u8; PIECE];
    while bytes.len() <= MOST_BYTES {
        let room = PIECE.min(MOST_BYTES + 1 - bytes.len());
        if read_piece(input, &mut buffer[..room], &mut bytes)? == 0 {
            return Ok(bytes);
        }
    }
    Err(Trouble::TooLarge)
}
