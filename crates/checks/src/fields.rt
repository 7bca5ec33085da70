//! What is expected of a word of a step.
ghost use Rattle.std.specs.Prelude.{◌≡◌};
ghost use Rattle.checks.specs.Meant.{is_read};

use pte::Scheme;
use spaces::MAX_HARTS;
use steps::{Field, StepFault};

/// What is expected of a word.
pub fn expected(field: Field) -> &'static str {
    match field {
        Field::Mode => "u or s, then perhaps +sum, then perhaps +mxr",
        Field::Access => "fetch, load or store",
        Field::Va | Field::Address | Field::Ppn => {
            "a number: 0x and 1 to 16 hexadecimal digits, or decimal digits of a value below 2^64"
        }
        Field::Place => "a space below 256, or k for the kernel window",
        Field::Page => {
            "4K, 2M, 1G or, with mode = \"sv48\", 512G, a colon and the address, as 2M:0x400000"
        }
        Field::Flags => "letters of rwxugad, each at most once, or - for none",
        Field::Named => "harts joined by commas without blanks, as 0,1, or - for none",
        Field::Scope => "a space below 256, or all",
        Field::Rs1 | Field::Rs2 => "x0, or the number that another register holds",
        Field::Space => "a space: a number below 256",
        Field::Asid => "an ASID: a number below 65536",
        Field::Ticket => "a ticket: a number below 2^32",
        Field::Hart | Field::From | Field::To => "the number of a hart",
    }
}

/// Whether a word is of this kind, as the reader of steps has it.
pub fn is_right(field: Field, scheme: Scheme, word: &[u8]) -> bool
    ensures { result ≡ is_read scheme field word.now }
{
    match field.fault(scheme, MAX_HARTS as u8, word) {
        Some(StepFault::NotStep) => false,
        Some(StepFault::NoSuchHart) | Some(StepFault::NotPage) | None => true,
    }
}
