//! The first line of a trace.
ghost use Rattle.std.specs.Prelude.{◌≡◌};
ghost use Rattle.watch_report.specs.Fields.{fields_of};
ghost use Rattle.watch_report.specs.TraceLines.{header_in, hart_count_field, is_format, scheme_field};

use crate::fields::four_fields;
use crate::numbers::decimal;
use pte::Scheme;

/// What the first line of a trace says of the machine.
#[derive(Clone, Copy, PartialEq, Eq, Debug)]
pub struct Header {
    /// How many harts, 1 to 64, with numbers from 0 on.
    pub harts: u8,
    /// The scheme of each translation.
    pub scheme: Scheme,
}

/// A decimal number from 1 to 64.
fn harts(field: &[u8]) -> Option<u8>
    ensures { result ≡ hart_count_field field.now }
{
    let harts = decimal(field)?;
    if 0 < harts && harts <= 64 {
        Some(harts as u8)
    } else {
        None
    }
}

/// `sv39` or `sv48`.
pub(crate) fn scheme(field: &[u8]) -> Option<Scheme>
    ensures { result ≡ scheme_field field.now }
{
    if field == b"sv39".as_slice() {
        Some(Scheme::Sv39)
    } else if field == b"sv48".as_slice() {
        Some(Scheme::Sv48)
    } else {
        None
    }
}

/// `watch` and `1`.
fn is_format(name: &[u8], version: &[u8]) -> bool
    ensures { result ≡ is_format name.now version.now }
{
    name == b"watch".as_slice() && version == b"1".as_slice()
}

/// Reads the first line, without its end: `watch 1 HARTS SCHEME`, with HARTS a decimal number from
/// 1 to 64 and SCHEME `sv39` or `sv48`. `None` for any other text.
pub fn read_header(text: &[u8]) -> Option<Header>
    ensures { result ≡ header_in (fields_of text.now) }
{
    let (name, version, count, mode) = four_fields(text)?;
    let harts = harts(count)?;
    let scheme = scheme(mode)?;
    if is_format(name, version) {
        Some(Header { harts, scheme })
    } else {
        None
    }
}
