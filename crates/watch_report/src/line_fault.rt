//! Why a line has no form.

use crate::line_form::{Field, LineForm};
use pte::Scheme;
use std::fmt;

/// What is wrong with a line that has no form, and where. `Display` is the column and the text of the
/// reason, as `5: PA 80000004 is no multiple of 8`.
#[derive(Clone, Copy, PartialEq, Eq, Debug)]
pub struct LineFault {
    /// The byte of the line where the wrong thing begins, from 1 on.
    pub column: u64,
    /// What is wrong there.
    pub reason: LineReason,
}

/// Why a line has no form.
#[derive(Clone, Copy, PartialEq, Eq, Debug)]
pub enum LineReason {
    /// The first line has no bytes.
    EmptyStart,
    /// The first word of the first line is not `watch`.
    NoTrace,
    /// A time as the log of a kernel puts it before a line.
    LogTime,
    /// The version is not 1.
    OtherVersion,
    /// HARTS is not from 1 to 64.
    OtherHarts(u64),
    /// The scheme is neither `sv39` nor `sv48`.
    OtherScheme,
    /// A word has a byte order mark in it.
    ByteOrderMark,
    /// A word has a byte 0 in it.
    ZeroByte,
    /// A word has a carriage return in it.
    CarriageReturn,
    /// A word has a tab in it.
    Tab,
    /// A word has another byte in it that is not printable ASCII.
    OtherByte(u8),
    /// A space stands where no field ends, or none begins.
    Space,
    /// No record has this letter.
    OtherLetter,
    /// The line ends before this field.
    Missing { form: LineForm, field: Field },
    /// A word stands after the last field.
    Excess(LineForm),
    /// No decimal number.
    NotDecimal(Field),
    /// No hexadecimal number.
    NotHexadecimal(Field),
    /// Neither a hexadecimal number nor `-`.
    NotOptional(Field),
    /// A number with `0x` or `0X` in front.
    Prefixed,
    /// A number of more than 16 digits.
    TooLong,
    /// A hart that is not there, and the last that is.
    NoHart { hart: u64, last: u8 },
    /// The address of a word is no multiple of 8.
    Unaligned(u64),
    /// An ASID of more than 16 bits.
    WideAsid(u64),
    /// MODE of satp is neither Bare nor that of the scheme.
    OtherMode { mode: u64, scheme: Scheme },
    /// A note without a space before it.
    NoSpace,
}

const EMPTY_START: &str = "the first line is empty: a trace begins with watch 1 HARTS SCHEME";

const NO_TRACE: &str =
    "no trace, which begins with watch 1 HARTS SCHEME (a scenario is for svsim run)";

const LOG_TIME: &str = "a time of the kernel's log: sed 's/^\\[[^]]*] *//' takes it out";

const ZERO_BYTE: &str = "a byte 0, as of a buffer that was not full: tr -d '\\0' takes it out";

pub(crate) const CARRIAGE_RETURN: &str = "a carriage return: lines end in a line feed alone";

const TAB: &str = "a tab: one space stands between two fields";

pub(crate) const SPACE: &str =
    "a space too many: one stands between two fields, and none at the ends";

const OTHER_LETTER: &str =
    "no line begins so: a record has one of the letters a c d e f r s u w z, a mark is m TEXT";

pub(crate) const NO_SPACE: &str = "no space before the note";

const TOO_LONG: &str = "too long: a number has 1 to 16 digits";

/// A number as lines write it.
#[derive(Clone, Copy)]
pub(crate) struct Word(pub(crate) u64);

impl fmt::Display for Word {
    ghost use Rattle.std.specs.Prelude.{Some};
    ghost use Rattle.watch_report.specs.Warnings.{hexadecimal};

    ghost output = { λ word. Some (hexadecimal word.0) };

    fn fmt<W: fmt::Write>(&self, f: &mut fmt::Formatter<W>) -> fmt::Result {
        let Word(word) = self;
        write!(f, "{word:x}")
    }
}

impl fmt::Display for LineReason {
    ghost use Rattle.std.specs.Prelude.{Some};
    ghost use Rattle.watch_report.specs.ReasonTexts.{line_reason_text};

    ghost output = { λ reason. Some (line_reason_text reason) };

    fn fmt<W: fmt::Write>(&self, f: &mut fmt::Formatter<W>) -> fmt::Result {
        match self {
            LineReason::EmptyStart => f.write_str(EMPTY_START),
            LineReason::NoTrace => f.write_str(NO_TRACE),
            LineReason::LogTime => f.write_str(LOG_TIME),
            LineReason::OtherVersion => f.write_str("another version: only 1 is known"),
            LineReason::OtherHarts(harts) => write!(f, "HARTS is {harts}, not 1 to 64"),
            LineReason::OtherScheme => f.write_str("SCHEME is neither sv39 nor sv48"),
            LineReason::ByteOrderMark => f.write_str("a byte order mark: a trace has none"),
            LineReason::ZeroByte => f.write_str(ZERO_BYTE),
            LineReason::CarriageReturn => f.write_str(CARRIAGE_RETURN),
            LineReason::Tab => f.write_str(TAB),
            LineReason::OtherByte(byte) => {
                let byte = Word(u64::from(*byte));
                write!(
                    f,
                    "byte {byte}: a trace is text, its fields printable ASCII"
                )
            }
            LineReason::Space => f.write_str(SPACE),
            LineReason::OtherLetter => f.write_str(OTHER_LETTER),
            LineReason::Missing { form, field } => write!(f, "{field} is missing: {form}"),
            LineReason::Excess(form) => write!(f, "a field too many: {form}"),
            LineReason::NotDecimal(field) => write!(f, "{field} is no decimal number"),
            LineReason::NotHexadecimal(field) => write!(f, "{field} is no hexadecimal number"),
            LineReason::NotOptional(field) => {
                write!(f, "{field} is neither a hexadecimal number nor -")
            }
            LineReason::Prefixed => f.write_str("a number has no 0x in front"),
            LineReason::TooLong => f.write_str(TOO_LONG),
            LineReason::NoHart { hart, last } => {
                write!(f, "no hart {hart}: harts are 0 to {last}")
            }
            LineReason::Unaligned(address) => {
                let address = Word(*address);
                write!(f, "PA {address} is no multiple of 8")
            }
            LineReason::WideAsid(asid) => {
                let asid = Word(*asid);
                write!(f, "ASID {asid} has more than 16 bits")
            }
            LineReason::OtherMode { mode, scheme } => match scheme {
                Scheme::Sv39 => write!(f, "MODE of satp is {mode}: in sv39 it is 0 or 8"),
                Scheme::Sv48 => write!(f, "MODE of satp is {mode}: in sv48 it is 0 or 9"),
            },
            LineReason::NoSpace => f.write_str(NO_SPACE),
        }
    }
}

impl fmt::Display for LineFault {
    ghost use Rattle.std.specs.Prelude.{Some};
    ghost use Rattle.watch_report.specs.ReasonTexts.{line_fault_text};

    ghost output = { λ fault. Some (line_fault_text fault) };

    fn fmt<W: fmt::Write>(&self, f: &mut fmt::Formatter<W>) -> fmt::Result {
        let LineFault { column, reason } = self;
        write!(f, "{column}: {reason}")
    }
}
