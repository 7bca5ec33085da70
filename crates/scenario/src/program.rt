//! What the program does, over any reader and writers.
ghost use Rattle.std.specs.Prelude.{◌≡◌, ◌⊎◌, ◌+◌, List, ℕ, IfErr, IfOk, string_bytes};
ghost use Rattle.std.specs.Io.KnownBytes.{Keeps};
ghost use Rattle.scenario.specs.Input.{AreLeft, ReadsUpTo};
ghost use Rattle.scenario.specs.Limits.{most_bytes};
ghost use Rattle.scenario.specs.Command.{ending_of, Ends, error_line, Reports, status_of};
ghost use Rattle.scenario.specs.Commands.{meaning_of};
ghost use Rattle.scenario.specs.Outcomes.{EndsAnswered, IsAnswered, IsFound, IsRefused, IsUnanswered};

use crate::commands::Which;
use crate::finding::Finding;
use crate::input::read_file;
use crate::inspections::{checked, picture_of, stale_of, state_of};
use crate::outcome::Outcome;
use crate::output::write_whole;
use crate::texts::{replies_of, walked};
use crate::trouble::Trouble;
use files::Fault;
use std::alloc::{AllocError, Global};
use std::io::{Read, Write};

pub(crate) const DONE: u8 = 0;

/// A stale mapping answered an access.
const STALE_USED: u8 = 1;

/// There is a verdict.
pub(crate) const WARNED: u8 = 1;

/// There is no verdict to explain.
const NO_VERDICT: u8 = 1;

const NOT_READ: u8 = 2;

const REFUSED: u8 = 3;

const OUTPUT_FAILED: u8 = 4;

/// There was not enough memory, or no thread.
const NO_MEMORY: u8 = 5;

fn status(trouble: &Trouble) -> u8
    ensures { result ≡ status_of (ending_of trouble.now) }
{
    match trouble {
        Trouble::Usage
        | Trouble::Unreadable
        | Trouble::TooLarge
        | Trouble::Refused(Fault::NotToml) => NOT_READ,
        Trouble::Refused(Fault::Output) => OUTPUT_FAILED,
        Trouble::NoThread | Trouble::Refused(Fault::NoMemory) => NO_MEMORY,
        Trouble::Line { warned: true, .. } => WARNED,
        Trouble::NoVerdict { .. } => NO_VERDICT,
        Trouble::Line { warned: false, .. } | Trouble::KnownLine(_) | Trouble::Refused(_) => {
            REFUSED
        }
    }
}

/// The line on standard error.
fn error_text(alloc: Global, file: &str, trouble: &Trouble) -> Result<String, AllocError>
    ensures { IfOk result (λ text. string_bytes text
        ≡ error_line file.now (ending_of trouble.now)) }
{
    let mut text = String::new(alloc);
    match trouble {
        Trouble::Unreadable => writeln!(text, "svsim: cannot read {file}")?,
        Trouble::Line { number, fault, .. } => writeln!(text, "{file}:{number}:{fault}")?,
        Trouble::NoVerdict { line } => writeln!(text, "{file}:{line}: no such verdict")?,
        Trouble::KnownLine(fault) => writeln!(text, "{file}:{fault}")?,
        Trouble::Usage | Trouble::TooLarge | Trouble::NoThread | Trouble::Refused(_) => {
            writeln!(text, "svsim: {trouble}")?
        }
    }
    Ok(text)
}

/// Writes the line of a trouble, as far as it goes, and answers the status.
pub(crate) fn report<E: Write>(alloc: Global, file: &str, trouble: &Trouble, err: &mut E) -> u8
    ensures { Reports file.now (ending_of trouble.now) result (E.contents err.old)
        (E.contents err.new) }
{
    match error_text(alloc, file, trouble) {
        Ok(text) => {
            let _ = write_whole(err, text.as_bytes());
            status(trouble)
        }
        Err(_) => {
            let _ = write_whole(err, b"svsim: no memory\n");
            NO_MEMORY
        }
    }
}

/// Writes what was answered of a file, and answers the status of the program.
pub(crate) fn end<W: Write, E: Write>(
    alloc: Global,
    file: &str,
    answered: Result<Outcome, Trouble>,
    out: &mut W,
    err: &mut E,
) -> u8
    ensures { EndsAnswered answered file.now result (W.contents out.old) (W.contents out.new)
        (E.contents err.old) (E.contents err.new) }
{
    let Outcome { lines, finding } = match answered {
        Ok(outcome) => outcome,
        Err(trouble) => return report(alloc, file, &trouble, err),
    };
    if let Err(fault) = write_whole(out, lines.as_bytes()) {
        return report(alloc, file, &Trouble::Refused(fault), err);
    }
    match finding {
        Finding::Nothing => DONE,
        Finding::StaleUsed => STALE_USED,
        Finding::Faulty(fault) => report(alloc, file, &Trouble::Refused(fault), err),
    }
}

/// What a command makes of the text of a file of this name, or its fault.
fn plain_outcome(alloc: Global, which: Which, file: &str, text: &str) -> Result<Outcome, Fault>
    ensures ok { IfOk result (λ outcome. IsFound (meaning_of file.now which) text.now
        (string_bytes outcome.lines) outcome.finding) }
    ensures err { IfErr result (IsRefused (meaning_of file.now which) text.now) }
{
    match which {
        Which::Walk => walked(alloc, text),
        Which::Run => replies_of(alloc, text),
        Which::Stale => stale_of(alloc, text),
        Which::Show => state_of(alloc, text),
        Which::Draw => picture_of(alloc, file, text),
        Which::Check => Ok(checked(alloc, file, text)?),
    }
}

/// What a command makes of the text of a file of this name, or why nothing.
fn outcome_of(alloc: Global, which: Which, file: &str, text: &str) -> Result<Outcome, Trouble>
    ensures ok { IfOk result (λ outcome. IsFound (meaning_of file.now which) text.now
        (string_bytes outcome.lines) outcome.finding) }
    ensures err { IfErr result (IsUnanswered (meaning_of file.now which) text.now) }
{
    match plain_outcome(alloc, which, file, text) {
        Ok(outcome) => Ok(outcome),
        Err(fault) => Err(Trouble::Refused(fault)),
    }
}

/// What a command makes of the file that `input` reads, or why nothing.
fn answer<R: Read>(
    alloc: Global,
    which: Which,
    file: &str,
    input: &mut R,
) -> Result<Outcome, Trouble>
    ensures answered { (bytes : List ℕ) × AreLeft (R.remaining input.old) bytes
        × IsAnswered (meaning_of file.now which) bytes result }
    ensures read { ReadsUpTo (most_bytes + 1) (R.remaining input.old) (R.remaining input.new) }
{
    let bytes = read_file(alloc, input)?;
    let Ok(text) = str::from_utf8(bytes.as_slice()) else {
        return Err(Trouble::Refused(Fault::NotToml));
    };
    outcome_of(alloc, which, file, text)
}

/// Does a command on the file that `input` reads, and answers the status of the program: 0 done,
/// and for `stale` no access was answered by a stale mapping, 1 for `stale` one was, 2 not read, too
/// large, or not TOML, 3 a refused scenario, 4 the output failed, 5 out of memory. At 2 to 5 one
/// line goes to `err`, as far as it takes it; its own faults count for nothing. `check` writes what
/// is wrong with a faulty file to `out`, at 2 and 3 too, if the file is UTF-8; the others write
/// nothing then. `file` is the file's name in the line, and in those of `check`. No more than 1,048,577 bytes are read. A
/// read that fails is `cannot read`; one that a signal interrupts is tried again (`read_retrying`).
pub fn command<R: Read, W: Write, E: Write>(
    alloc: Global,
    which: Which,
    file: &str,
    input: &mut R,
    out: &mut W,
    err: &mut E,
) -> u8
    ensures ends { (bytes : List ℕ) × AreLeft (R.remaining input.old) bytes
        × Ends (meaning_of file.now which) file.now bytes result (W.contents out.old)
        (W.contents out.new) (E.contents err.old) (E.contents err.new) }
    ensures silent { ¬ (meaning_of file.now which).Explains → (result ≡ 2) ⊎ (result ≡ 3)
        → Keeps (W.contents out.old) (W.contents out.new) }
    ensures read { ReadsUpTo (most_bytes + 1) (R.remaining input.old) (R.remaining input.new) }
{
    let answered = answer(alloc, which, file, input);
    end(alloc, file, answered, out, err)
}
