//! The faults that are told.
ghost use Rattle.std.specs.Prelude.{◌≡◌, ◌≤◌, ◌+◌, ◌||◌, [], OnOk, false, is_err, length, min, nat_le, vec_len};
ghost use Rattle.checks.specs.Told.{IsStillTrue, most_told};

use crate::forms::Form;
use crate::positions::Position;
use crate::printed::Told;
use crate::shown::is_hidden;
use crate::split::text_of;
use files::Fault;
use std::alloc::{AllocError, Global};
use steps::{Field, StepFault};

/// The most faults that are reported.
pub const MOST_TOLD: usize = 200;

/// The most letters of a word of the file that are printed.
const MOST_LETTERS: usize = 40;

/// A piece of a line that explains.
#[derive(Clone, Copy)]
pub enum Piece<'a> {
    Text(&'a str),
    /// A word of the file.
    Word(&'a str),
    Number(u64),
    /// A number that may be negative.
    Whole(i64),
    /// A number in hexadecimal digits.
    Address(u64),
    /// The limit of a range: `2^44` if it is such a power, else its digits.
    Limit(u64),
    Fault(&'a Fault),
    StepFault(StepFault),
    /// How a step is written.
    Form(Form),
    /// What is meant perhaps; nothing if it is empty.
    Meant(&'a [u8]),
}

/// Where a fault is, and what the line that tells it begins with.
#[derive(Clone, Copy)]
pub struct Spot<'a> {
    pub at: Position<'a>,
    pub place: &'a [Piece<'a>],
}

impl<'a> Spot<'a> {
    /// The same at the word of this index of the text.
    pub fn at_word(self, index: usize) -> Spot<'a> {
        Spot {
            at: self.at.at_word(index),
            place: self.place,
        }
    }
}

/// The faults that are told, in the order in which they are found.
#[derive(Drop)]
pub struct Report {
    pub alloc: Global,
    pub told: Vec<Told>,
    /// A fault or a place could not be kept.
    pub is_out_of_memory: bool,
    ghost few: { vec_len told ≤ most_told },
}

impl Report {
    /// A report of no fault.
    pub fn new(alloc: Global) -> Report
        ensures told { result.told.items ≡ [] }
        ensures memory { result.is_out_of_memory ≡ false }
    {
        Report {
            alloc,
            told: Vec::new(alloc),
            is_out_of_memory: false,
        }
    }

    /// Adds a fault, unless no more faults are reported.
    pub fn add(&mut self, spot: Spot<'_>, what: &[Piece<'_>]) -> Result<(), AllocError>
        ensures told { OnOk result (length self.new.told.items
            ≡ min (length self.old.told.items + 1) most_told) }
        ensures memory { self.new.is_out_of_memory ≡ self.old.is_out_of_memory }
    {
        if self.is_full() {
            return Ok(());
        }
        let text = told_text(self.alloc, spot, what)?;
        let (line, column) = (spot.at.line, spot.at.column);
        self.told.push(Told { line, column, text })?;
        Ok(())
    }

    /// Adds a fault as `add` does, and notes whether there was enough memory.
    pub fn tell(&mut self, spot: Spot<'_>, what: &[Piece<'_>])
        ensures told { self.new.is_out_of_memory ≡ false → length self.new.told.items
            ≡ min (length self.old.told.items + 1) most_told }
        ensures still_short { IsStillTrue self.old.is_out_of_memory self.new.is_out_of_memory }
    {
        let added = self.add(spot, what);
        self.note(added);
    }

    /// Adds a fault whose line is not known.
    pub fn tell_of_file(&mut self, what: &[Piece<'_>])
        ensures told { self.new.is_out_of_memory ≡ false → length self.new.told.items
            ≡ min (length self.old.told.items + 1) most_told }
        ensures still_short { IsStillTrue self.old.is_out_of_memory self.new.is_out_of_memory }
    {
        let spot = Spot {
            at: Position::unknown(),
            place: &[],
        };
        self.tell(spot, what);
    }

    /// What is meant perhaps, or nothing, also if there was not enough memory, which is noted.
    pub fn meant(&mut self, meant: Result<Option<Vec<u8>>, AllocError>) -> Vec<u8>
        ensures told { self.new.told ≡ self.old.told }
        ensures still_short { IsStillTrue self.old.is_out_of_memory self.new.is_out_of_memory }
    {
        match meant {
            Ok(Some(meant)) => meant,
            Ok(None) => Vec::new(self.alloc),
            Err(error) => {
                self.note(Err(error));
                Vec::new(self.alloc)
            }
        }
    }

    /// Notes whether there was enough memory.
    pub fn note(&mut self, done: Result<(), AllocError>)
        ensures memory { self.new.is_out_of_memory ≡ (self.old.is_out_of_memory || is_err done) }
        ensures told { self.new.told ≡ self.old.told }
    {
        if done.is_err() {
            self.is_out_of_memory = true;
        }
    }

    /// Whether no more faults are reported.
    pub fn is_full(&self) -> bool
        ensures { result ≡ nat_le most_told (length self.now.told.items) }
    {
        self.told.len() >= MOST_TOLD
    }
}

/// Adds a word of the file as it is printed: between backquotes, with `?` for each control character
/// and each letter that sets the direction of text, and cut after 40 letters.
fn push_word(text: &mut String, word: &str) -> Result<(), AllocError> {
    text.push_str("`")?;
    for letter in word.chars().take(MOST_LETTERS) {
        text.push(if is_hidden(letter) { '?' } else { letter })?;
    }
    let is_cut = word.chars().count() > MOST_LETTERS;
    text.push_str(if is_cut { "..`" } else { "`" })
}

fn push_piece(text: &mut String, piece: Piece<'_>) -> Result<(), AllocError> {
    match piece {
        Piece::Text(part) => text.push_str(part),
        Piece::Word(word) => push_word(text, word),
        Piece::Number(number) => write!(text, "{number}"),
        Piece::Whole(number) => write!(text, "{number}"),
        Piece::Address(number) => write!(text, "{number:#x}"),
        Piece::Limit(limit) => push_limit(text, limit),
        Piece::Fault(fault) => write!(text, "{fault}"),
        Piece::StepFault(fault) => write!(text, "{fault}"),
        Piece::Form(form) => push_form(text, form),
        Piece::Meant(meant) => push_meant(text, meant),
    }
}

fn push_meant(text: &mut String, meant: &[u8]) -> Result<(), AllocError> {
    if meant.is_empty() {
        return Ok(());
    }
    text.push_str("; perhaps ")?;
    text.push_str(text_of(meant))
}

fn push_limit(text: &mut String, limit: u64) -> Result<(), AllocError> {
    if limit.is_power_of_two() {
        let bits = limit.trailing_zeros();
        write!(text, "2^{bits}")
    } else {
        write!(text, "{limit}")
    }
}

fn push_pieces(text: &mut String, pieces: &[Piece<'_>]) -> Result<(), AllocError> {
    for piece in pieces {
        push_piece(text, *piece)?;
    }
    Ok(())
}

fn told_text(alloc: Global, spot: Spot<'_>, what: &[Piece<'_>]) -> Result<String, AllocError> {
    let mut text = String::new(alloc);
    push_pieces(&mut text, spot.place)?;
    push_pieces(&mut text, what)?;
    Ok(text)
}

/// Adds how a step is written, as `H switch SPACE`.
fn push_form(text: &mut String, form: Form) -> Result<(), AllocError> {
    if form.has_hart {
        text.push_str(Field::Hart.label())?;
        text.push_str(" ")?;
    }
    let mut before = "";
    if let Some(name) = form.name {
        text.push_str(name)?;
        before = " ";
    }
    for field in form.fields {
        text.push_str(before)?;
        text.push_str(field.label())?;
        before = " ";
    }
    Ok(())
}
