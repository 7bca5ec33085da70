//! The forms of lines, and the fields of each.
ghost use Rattle.std.specs.Prelude.{◌≡◌, None, Some, MatchOption};
ghost use Rattle.watch_report.specs.LineForms.{form_of, form_fields, kind_of};

use std::fmt;

/// What a line is.
#[derive(Clone, Copy, PartialEq, Eq, Debug)]
pub enum LineForm {
    /// The first line, `watch 1 HARTS SCHEME`.
    Header,
    /// `w H PA VALUE`
    Store,
    /// `s H SATP`
    SatpWrite,
    /// `f H RS1 RS2`
    Fence,
    /// `r H TOKEN MASK START SIZE ASID`
    RemoteBegin,
    /// `e H TOKEN`
    RemoteEnd,
    /// `a H PPN COUNT`
    GiveOut,
    /// `z H PPN COUNT`
    GiveBack,
    /// `c H TOKEN ROOT START SIZE`
    ClaimBegin,
    /// `d H TOKEN`
    ClaimEnd,
    /// `u H VA`
    Use,
}

/// A field of a line, by its name there.
#[derive(Clone, Copy, PartialEq, Eq, Debug)]
pub enum Field {
    /// The word `watch`.
    Watch,
    /// The word `1`.
    Version,
    /// HARTS
    Harts,
    /// SCHEME
    Scheme,
    /// H
    Hart,
    /// PA
    PhysicalAddress,
    /// VALUE
    Value,
    /// SATP
    Satp,
    /// RS1
    Rs1,
    /// RS2
    Rs2,
    /// TOKEN
    Token,
    /// MASK
    Mask,
    /// START
    Start,
    /// SIZE
    Size,
    /// ASID
    Asid,
    /// PPN
    Ppn,
    /// COUNT
    Count,
    /// ROOT
    Root,
    /// VA
    VirtualAddress,
}

/// What a field may hold.
#[derive(Clone, Copy, PartialEq, Eq, Debug)]
pub(crate) enum FieldKind {
    /// `watch`
    Name,
    /// `1`
    Version,
    /// A decimal number from 1 to 64.
    HartCount,
    /// `sv39` or `sv48`
    Scheme,
    /// A decimal number below HARTS.
    Hart,
    /// A number that is a multiple of 8.
    WordAddress,
    /// A number.
    Number,
    /// A number, or `-`.
    Optional,
    /// A number of 16 bits, or `-`.
    Asid,
    /// A number with MODE 0 or that of the scheme.
    Satp,
}

/// The form of a record with this letter.
pub(crate) fn form_of(letter: &[u8]) -> Option<LineForm>
    ensures { result ≡ form_of letter.now }
{
    if letter == b"w".as_slice() {
        Some(LineForm::Store)
    } else if letter == b"s".as_slice() {
        Some(LineForm::SatpWrite)
    } else if letter == b"f".as_slice() {
        Some(LineForm::Fence)
    } else if letter == b"r".as_slice() {
        Some(LineForm::RemoteBegin)
    } else if letter == b"e".as_slice() {
        Some(LineForm::RemoteEnd)
    } else if letter == b"a".as_slice() {
        Some(LineForm::GiveOut)
    } else if letter == b"z".as_slice() {
        Some(LineForm::GiveBack)
    } else if letter == b"c".as_slice() {
        Some(LineForm::ClaimBegin)
    } else if letter == b"d".as_slice() {
        Some(LineForm::ClaimEnd)
    } else if letter == b"u".as_slice() {
        Some(LineForm::Use)
    } else {
        None
    }
}

/// The fields of a line in order, of a record those after its letter.
pub(crate) fn fields_of_form(form: LineForm) -> &'static [Field]
    ensures { result.now ≡ form_fields form }
{
    match form {
        LineForm::Header => &[Field::Watch, Field::Version, Field::Harts, Field::Scheme],
        LineForm::Store => &[Field::Hart, Field::PhysicalAddress, Field::Value],
        LineForm::SatpWrite => &[Field::Hart, Field::Satp],
        LineForm::Fence => &[Field::Hart, Field::Rs1, Field::Rs2],
        LineForm::RemoteBegin => &[
            Field::Hart,
            Field::Token,
            Field::Mask,
            Field::Start,
            Field::Size,
            Field::Asid,
        ],
        LineForm::RemoteEnd | LineForm::ClaimEnd => &[Field::Hart, Field::Token],
        LineForm::GiveOut | LineForm::GiveBack => &[Field::Hart, Field::Ppn, Field::Count],
        LineForm::ClaimBegin => &[
            Field::Hart,
            Field::Token,
            Field::Root,
            Field::Start,
            Field::Size,
        ],
        LineForm::Use => &[Field::Hart, Field::VirtualAddress],
    }
}

/// What a field may hold.
pub(crate) fn kind_of(field: Field) -> FieldKind
    ensures { result ≡ kind_of field }
{
    match field {
        Field::Watch => FieldKind::Name,
        Field::Version => FieldKind::Version,
        Field::Harts => FieldKind::HartCount,
        Field::Scheme => FieldKind::Scheme,
        Field::Hart => FieldKind::Hart,
        Field::PhysicalAddress => FieldKind::WordAddress,
        Field::Satp => FieldKind::Satp,
        Field::Asid => FieldKind::Asid,
        Field::Rs1 | Field::Rs2 | Field::Root => FieldKind::Optional,
        Field::Value
        | Field::Token
        | Field::Mask
        | Field::Start
        | Field::Size
        | Field::Ppn
        | Field::Count
        | Field::VirtualAddress => FieldKind::Number,
    }
}

impl fmt::Display for LineForm {
    ghost use Rattle.std.specs.Prelude.{Some};
    ghost use Rattle.watch_report.specs.LineForms.{form_text};

    ghost output = { λ form. Some (form_text form) };

    fn fmt<W: fmt::Write>(&self, f: &mut fmt::Formatter<W>) -> fmt::Result {
        match self {
            LineForm::Header => f.write_str("watch 1 HARTS SCHEME"),
            LineForm::Store => f.write_str("w H PA VALUE"),
            LineForm::SatpWrite => f.write_str("s H SATP"),
            LineForm::Fence => f.write_str("f H RS1 RS2"),
            LineForm::RemoteBegin => f.write_str("r H TOKEN MASK START SIZE ASID"),
            LineForm::RemoteEnd => f.write_str("e H TOKEN"),
            LineForm::GiveOut => f.write_str("a H PPN COUNT"),
            LineForm::GiveBack => f.write_str("z H PPN COUNT"),
            LineForm::ClaimBegin => f.write_str("c H TOKEN ROOT START SIZE"),
            LineForm::ClaimEnd => f.write_str("d H TOKEN"),
            LineForm::Use => f.write_str("u H VA"),
        }
    }
}

impl fmt::Display for Field {
    ghost use Rattle.std.specs.Prelude.{Some};
    ghost use Rattle.watch_report.specs.LineForms.{field_name};

    ghost output = { λ field. Some (field_name field) };

    fn fmt<W: fmt::Write>(&self, f: &mut fmt::Formatter<W>) -> fmt::Result {
        match self {
            Field::Watch => f.write_str("watch"),
            Field::Version => f.write_str("version"),
            Field::Harts => f.write_str("HARTS"),
            Field::Scheme => f.write_str("SCHEME"),
            Field::Hart => f.write_str("H"),
            Field::PhysicalAddress => f.write_str("PA"),
            Field::Value => f.write_str("VALUE"),
            Field::Satp => f.write_str("SATP"),
            Field::Rs1 => f.write_str("RS1"),
            Field::Rs2 => f.write_str("RS2"),
            Field::Token => f.write_str("TOKEN"),
            Field::Mask => f.write_str("MASK"),
            Field::Start => f.write_str("START"),
            Field::Size => f.write_str("SIZE"),
            Field::Asid => f.write_str("ASID"),
            Field::Ppn => f.write_str("PPN"),
            Field::Count => f.write_str("COUNT"),
            Field::Root => f.write_str("ROOT"),
            Field::VirtualAddress => f.write_str("VA"),
        }
    }
}
