//! What is printed of the letters of a file and of its name.
ghost use Rattle.std.specs.Prelude.{◌≡◌, ◌++◌, OnOk, IfOk, string_bytes};
ghost use Rattle.checks.specs.Shown.{is_hidden, shown_letters, shown_name};

use std::alloc::{AllocError, Global};

/// Whether a letter is printed as `?`: a control character, or one that sets the direction of the
/// text around it, with the property Bidi_Control (Unicode Standard Annex 9, section 2).
pub fn is_hidden(letter: char) -> bool
    ensures { result ≡ is_hidden letter }
{
    matches!(
        letter,
        '\0'..='\u{1F}'
            | '\u{7F}'..='\u{9F}'
            | '\u{61C}'
            | '\u{200E}'..='\u{200F}'
            | '\u{202A}'..='\u{202E}'
            | '\u{2066}'..='\u{2069}'
    )
}

/// Adds letters as they are printed.
fn push_letters(text: &mut String, letters: &[char]) -> Result<(), AllocError>
    ensures { OnOk result (string_bytes text.new ≡ string_bytes text.old ++ shown_letters
        letters.now) }
{
    match letters {
        [] => Ok(()),
        [letter, rest @ ..] => {
            text.push(if is_hidden(*letter) { '?' } else { *letter })?;
            push_letters(text, rest)
        }
    }
}

/// A file's name as it is printed.
pub fn shown_name(alloc: Global, file: &str) -> Result<String, AllocError>
    ensures { IfOk result (λ name. string_bytes name ≡ shown_name file.now) }
{
    let letters: Vec<char> = file.chars().collect(alloc)?;
    let mut name = String::new(alloc);
    push_letters(&mut name, letters.as_slice())?;
    Ok(name)
}
