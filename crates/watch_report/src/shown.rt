//! Notes as they are shown.
ghost use Rattle.std.specs.Prelude.{◌≡◌, ◌++◌, OnOk};
ghost use Rattle.std.specs.List.{list_all};
ghost use Rattle.watch_report.specs.ShownNotes.{escaped, is_plain, shown_byte, shown_note};

use crate::push::{digit, push};
use crate::word_faults::is_printable;
use std::alloc::AllocError;

/// Whether a terminal takes the byte for no command: it is printable, or a space.
pub(crate) fn is_plain(byte: u8) -> bool
    ensures { result ≡ is_plain byte }
{
    byte == b' ' || is_printable(byte)
}

fn are_plain(note: &[u8]) -> bool
    ensures { result ≡ list_all is_plain note.now }
{
    note.iter().all(|byte| is_plain(*byte))
}

fn push_escaped(text: &mut Vec<u8>, byte: u8) -> Result<(), AllocError>
    ensures ok { OnOk result (text.new.items ≡ text.old.items ++ escaped byte) }
{
    let byte = u64::from(byte);
    push(text, &[b'\\', b'x', digit(byte / 16), digit(byte % 16)])
}

fn push_byte(text: &mut Vec<u8>, byte: u8) -> Result<(), AllocError>
    ensures ok { OnOk result (text.new.items ≡ text.old.items ++ shown_byte byte) }
{
    if is_plain(byte) {
        push(text, &[byte])
    } else {
        push_escaped(text, byte)
    }
}

fn push_each(text: &mut Vec<u8>, note: &[u8]) -> Result<(), AllocError>
    ensures ok { OnOk result (text.new.items ≡ text.old.items ++ shown_note note.now) }
{
    for byte in note {
        push_byte(text, *byte)?;
    }
    Ok(())
}

/// Adds a note as it is shown.
#[tactic(auto, using(crate::proofs::ShownLemmas::plain_as_it_is))]
pub(crate) fn push_shown(text: &mut Vec<u8>, note: &[u8]) -> Result<(), AllocError>
    ensures ok { OnOk result (text.new.items ≡ text.old.items ++ shown_note note.now) }
{
    if are_plain(note) {
        push(text, note)
    } else {
        push_each(text, note)
    }
}
