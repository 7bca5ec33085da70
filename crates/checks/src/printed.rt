//! The faults that are told, in their order, and what is printed of them.
ghost use Rattle.std.specs.Prelude.{◌≡◌, ◌++◌, IfOk, IsPermutation, OnOk, map, string_bytes, vec_len};
ghost use Rattle.checks.specs.Lines.{IsInOrder, order_of, position_text, told_line};
ghost use Rattle.checks.specs.Shown.{shown_name};
ghost use Rattle.checks.specs.Told.{last_text, lines_text, whole_text};

use crate::report::MOST_TOLD;
use crate::shown::shown_name;
use std::alloc::{AllocError, Global};

/// A fault that is told.
#[derive(Drop)]
pub struct Told {
    /// Its line and column in the file, from 1 on, as far as they are known.
    pub line: Option<usize>,
    pub column: Option<usize>,
    /// What is wrong.
    pub text: String,
}

impl Told {
    /// By which the faults are ordered.
    fn order(&self) -> (usize, usize)
        ensures { result ≡ order_of self.now }
    {
        (self.line.unwrap_or(usize::MAX), self.column.unwrap_or(0))
    }
}

/// The faults in the order of their lines and columns, those without a line last. `AllocError`:
/// there was not enough memory.
pub fn in_order(told: Vec<Told>) -> Result<Vec<Told>, AllocError>
    ensures sorted { IfOk result (λ sorted. IsInOrder sorted.items) }
    ensures same { IfOk result (λ sorted. IsPermutation told.items sorted.items) }
    ensures many { IfOk result (λ sorted. vec_len sorted ≡ vec_len told) }
{
    let mut sorted = told;
    sorted.sort_by_key(|fault| fault.order())?;
    Ok(sorted)
}

/// Adds `:LINE:COL`, `:LINE` or nothing.
fn push_position(
    text: &mut String,
    line: Option<usize>,
    column: Option<usize>,
) -> Result<(), AllocError>
    ensures { OnOk result (string_bytes text.new ≡ string_bytes text.old ++ position_text
        line column) }
{
    let Some(line) = line else {
        return Ok(());
    };
    write!(text, ":{line}")?;
    let Some(column) = column else {
        return Ok(());
    };
    write!(text, ":{column}")
}

/// Adds the line of a fault, without its end.
fn push_line(text: &mut String, name: &str, told: &Told) -> Result<(), AllocError>
    ensures { OnOk result (string_bytes text.new ≡ string_bytes text.old ++ told_line
        name.now told.now) }
{
    text.push_str(name)?;
    push_position(text, told.line, told.column)?;
    text.push_str(": ")?;
    text.push_str(told.text.as_str())
}

/// Adds the lines, each with its end.
fn push_lines(text: &mut String, name: &str, told: &[Told]) -> Result<(), AllocError>
    ensures { OnOk result (string_bytes text.new ≡ string_bytes text.old ++ lines_text
        (map (told_line name.now) told.now)) }
{
    match told {
        [] => Ok(()),
        [first, rest @ ..] => {
            push_line(text, name, first)?;
            text.push_str("\n")?;
            push_lines(text, name, rest)
        }
    }
}

/// Adds the last line: `ok`, or the number of faults that are reported.
fn push_last(text: &mut String, count: usize) -> Result<(), AllocError>
    ensures { OnOk result (string_bytes text.new ≡ string_bytes text.old ++ last_text count) }
{
    if count == 0 {
        text.push_str("ok\n")
    } else if count == 1 {
        text.push_str("1 fault\n")
    } else if count < MOST_TOLD {
        writeln!(text, "{count} faults")
    } else {
        writeln!(text, "{count} faults are told, and there may be more")
    }
}

/// What is printed of a file for a command.
pub fn text_of(
    alloc: Global,
    command: &str,
    file: &str,
    told: &[Told],
    notes: &[Told],
) -> Result<String, AllocError>
    ensures { IfOk result (λ text. string_bytes text ≡ whole_text command.now
        (map (told_line (shown_name file.now)) told.now)
        (map (told_line (shown_name file.now)) notes.now)) }
{
    let name = shown_name(alloc, file)?;
    let mut text = String::new(alloc);
    writeln!(text, "file for {command}")?;
    push_lines(&mut text, name.as_str(), told)?;
    push_lines(&mut text, name.as_str(), notes)?;
    push_last(&mut text, told.len())?;
    Ok(text)
}
