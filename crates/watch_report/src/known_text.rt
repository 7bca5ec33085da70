//! The text of a list of what is known to be by design.
ghost use Rattle.std.specs.Prelude.{◌≡◌, ◌++◌, ◌+◌, ◌∷◌, IfErr, IfOk, IfSome, MatchResult, Err, Ok, Some, find, length, map, not};
ghost use Rattle.watch_causes.specs.KnownFindings.{known_entry};
ghost use Rattle.watch_report.specs.KnownTexts.{FailsBy, is_silent, known_in_text, line_entries, line_tests, lines_left, listed, other_byte};
ghost use Rattle.watch_report.specs.TraceLines.{note_of};
ghost use Rattle.watch_report.specs.TraceText.{lines_of};

use crate::bytes::first_of;
use crate::known_fault::{KnownError, KnownFault, KnownReason};
use crate::known_words::{KnownTests, has_space_too_many, read_tests};
use crate::line::{note_start, split_note};
use crate::shown::is_plain;
use std::alloc::Global;
use watch_causes::Known;

/// The first byte before the note that no word has.
fn other_byte(text: &[u8]) -> Option<u8>
    ensures { result ≡ other_byte text.now }
{
    let end = note_start(text);
    text[..end].iter().copied().find(|byte| !is_plain(*byte))
}

/// What a line says that is neither empty nor a comment, and its note, or why it is no entry.
fn read_line(text: &[u8]) -> Result<(KnownTests, &[u8]), KnownReason>
    ensures { MatchResult result (λ entry. (line_tests text.now ≡ Ok entry.0)
        × (note_of text.now ≡ entry.1.now)) (λ reason. line_tests text.now ≡ Err reason) }
{
    if text.ends_with(b"\r".as_slice()) {
        return Err(KnownReason::CarriageReturn);
    }
    if let Some(byte) = other_byte(text) {
        return Err(KnownReason::OtherByte(byte));
    }
    let Some((body, note)) = split_note(text) else {
        return Err(KnownReason::NoSpace);
    };
    if has_space_too_many(body) {
        return Err(KnownReason::Space);
    }
    let tests = read_tests(body)?;
    Ok((tests, note))
}

fn is_silent(text: &[u8]) -> bool
    ensures { result ≡ is_silent text.now }
{
    text.is_empty() || text.starts_with(b"#".as_slice())
}

/// The entry of a line, if it has one.
fn read_entry(alloc: Global, line: u64, text: &[u8]) -> Result<Option<Known>, KnownError>
    ensures ok { IfOk result (λ known. line_entries line text.now ≡ Ok (listed known)) }
    ensures err { IfErr result (λ error. FailsBy (line_entries line text.now) error) }
{
    if is_silent(text) {
        return Ok(None);
    }
    match read_line(text) {
        Ok((tests, note)) => Ok(Some(Known {
            line,
            global: tests.global,
            first: tests.first,
            reason: tests.reason,
            reach: tests.reach,
            range: tests.range,
            note: note.to_vec(alloc)?,
        })),
        Err(reason) => Err(KnownError::Line(KnownFault { line, reason })),
    }
}

/// The first line of a text, and what stands after its line feed, if there is one.
pub(crate) fn first_line(text: &[u8]) -> (&[u8], Option<&[u8]>)
    ensures lines { lines_of text.now ≡ result.0.now ∷ lines_left result.1 }
    ensures rest { IfSome result.1 (λ rest. length result.0.now + 1 + length rest.now
        ≡ length text.now) }
{
    let end = first_of(b'\n', text);
    if end < text.len() {
        (&text[..end], Some(&text[end + 1..]))
    } else {
        (text, None)
    }
}

/// Reads the list of what is known to be by design. A line of no bytes and one that begins with `#` say
/// nothing. Any other is an entry, its words apart by exactly one space, and perhaps a note after them,
/// ` @NOTE` or ` #NOTE`:
///
/// ```text
/// OWNER FIRST REASON [REACH] [START SIZE] [@NOTE]
/// ```
///
/// OWNER is `user` or `kernel`. FIRST, the first verdict of a finding, is `free`, `reuse`, `claim` or
/// `use`, and REASON, the reason of that, `no-flush`, `no-fence`, `other-hart`, `other-asid`,
/// `other-page` or `not-done`; `-` is any. REACH, that of the finding on the whole trace, is `used`,
/// `reachable` or `not-reached`. One of SIZE addresses from START on lies in the page: both
/// are hexadecimal, of 1 to 16 digits. With NOTE the note of the record begins that made the page stale.
///
/// The entries come in the order of their lines, which have numbers from 1 on; the last line may lack
/// its line feed. `Line`: the first line that is no entry, and why. `NoMemory`: there was no room.
pub fn read_known(alloc: Global, text: &[u8]) -> Result<Vec<Known>, KnownError>
    ensures ok { IfOk result (λ known. known_in_text text.now ≡ Ok (map known_entry known.items)) }
    ensures err { IfErr result (λ error. FailsBy (known_in_text text.now) error) }
{
    let mut known = Vec::new(alloc);
    let mut line = 1_u64;
    let mut left = Some(text);
    while let Some(lines) = left {
        let (text, rest) = first_line(lines);
        if let Some(entry) = read_entry(alloc, line, text)? {
            if known.push(entry).is_err() {
                return Err(KnownError::NoMemory);
            }
        }
        line += 1;
        left = rest;
    }
    Ok(known)
}
