//! Flags, and the entries of TLBs.

ghost use Rattle.std.specs.Prelude.{◌≡◌, ◌++◌, IfOk, OnOk, string_bytes};
ghost use Rattle.lines.specs.Rows.{entry_line, flags_text, owner_text};

use crate::columns::pad;
use crate::printing::Letters;
use crate::replies::push_page;
use pte::PteFlags;
use std::alloc::{AllocError, Global};
use tlb::Entry;

/// Adds the letters of the flags that are set, of `rwxugad`. V is not among them: each leaf has it.
pub(crate) fn push_flags(line: &mut String, flags: PteFlags) -> Result<(), AllocError>
    ensures ok { OnOk result (string_bytes line.new ≡ string_bytes line.old ++ flags_text flags) }
{
    let letters = Letters(flags);
    write!(line, "{letters}")
}

/// Adds the ASID of an entry, or that it is global.
fn push_owner(line: &mut String, entry: &Entry) -> Result<(), AllocError>
    ensures ok { OnOk result (string_bytes line.new ≡ string_bytes line.old
        ++ owner_text entry.now) }
{
    let asid = entry.asid;
    if entry.global {
        line.push_str("global")
    } else {
        write!(line, "{asid}")
    }
}

/// The columns of a TLB's entries.
pub(crate) const ENTRY_HEAD: &str =
    "hart  age  page                     asid    ppn            flags\n";

/// The line of an entry of the TLB of a hart.
pub(crate) fn entry_line(
    alloc: Global,
    hart: u8,
    age: usize,
    entry: &Entry,
) -> Result<String, AllocError>
    ensures { IfOk result (λ line. string_bytes line ≡ entry_line hart age entry.now) }
{
    let mut line = String::new(alloc);
    let ppn = entry.ppn;
    write!(line, "{hart}")?;
    pad(&mut line, 6)?;
    write!(line, "{age}")?;
    pad(&mut line, 11)?;
    push_page(&mut line, entry.page)?;
    pad(&mut line, 36)?;
    push_owner(&mut line, entry)?;
    pad(&mut line, 44)?;
    write!(line, "0x{ppn:x}")?;
    pad(&mut line, 59)?;
    push_flags(&mut line, entry.flags)?;
    line.push_str("\n")?;
    Ok(line)
}
