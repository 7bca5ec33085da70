//! The list of what is known to be by design, which `watch` is given.
ghost use Rattle.std.specs.Prelude.{◌≡◌};
ghost use Rattle.scenario.specs.KnownFiles.{ReadsList, entries_view};
ghost use Rattle.watch_report.specs.KnownLists.{known_in, none_known};

use crate::input::read_file;
use crate::trouble::Trouble;
use files::Fault;
use std::alloc::Global;
use std::io::Read;
use watch_report::{Known, KnownError, KnownList, read_known};

/// No list.
pub(crate) fn no_list<'a>(alloc: Global) -> KnownList<'a>
    ensures { known_in result ≡ none_known }
{
    KnownList {
        file: b"",
        entries: Vec::new(alloc),
    }
}

/// The entries of the list that `input` reads, whole; without a reader it could not be opened.
pub(crate) fn read_list<R: Read + Drop>(
    alloc: Global,
    input: Option<R>,
) -> Result<Vec<Known>, Trouble>
    ensures { ReadsList R.remaining input (entries_view result) }
{
    let Some(mut reader) = input else {
        return Err(Trouble::Unreadable);
    };
    let bytes = read_file(alloc, &mut reader)?;
    match read_known(alloc, bytes.as_slice()) {
        Ok(entries) => Ok(entries),
        Err(KnownError::Line(fault)) => Err(Trouble::KnownLine(fault)),
        Err(KnownError::NoMemory) => Err(Trouble::Refused(Fault::NoMemory)),
    }
}
