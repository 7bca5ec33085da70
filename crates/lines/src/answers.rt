//! The lines of the answers of translations.
ghost use Rattle.std.specs.Prelude.{◌≡◌, ◌<◌, ◌^◌, ◌++◌, Err, OnOk, IfOk, codes, string_bytes};
ghost use Rattle.pte.specs.declared.entry.TheConstants.{PPN_BITS};
ghost use Rattle.lines.specs.AnswerLines.{global_text, line_of, size_text, why_text, WritesLines};

use crate::numbers::{push_decimal, push_hexadecimal};
use pte::{PageSize, Scheme};
use std::alloc::{AllocError, Global};
use steps::WalkStep;
use walk::{Found, Trap, Why, Words, translate_in};

/// The word of a size of page: `4K`, `2M`, `1G`, `512G`.
pub fn size_word(size: PageSize) -> &'static str
    ensures { result.now ≡ size_text size }
{
    match size {
        PageSize::Kib4 => "4K",
        PageSize::Mib2 => "2M",
        PageSize::Gib1 => "1G",
        PageSize::Gib512 => "512G",
    }
}

/// The word of why an access traps.
pub fn why_word(why: Why) -> &'static str
    ensures { result.now ≡ why_text why }
{
    match why {
        Why::NotCanonical => "NotCanonical",
        Why::Outside => "Outside",
        Why::Invalid => "Invalid",
        Why::Reserved => "Reserved",
        Why::TooDeep => "TooDeep",
        Why::Denied => "Denied",
        Why::Misaligned => "Misaligned",
        Why::NotAccessed => "NotAccessed",
        Why::NotDirty => "NotDirty",
    }
}

fn global_word(global: bool) -> &'static str
    ensures { result.now ≡ global_text global }
{
    if global { " global" } else { "" }
}

/// Adds the size of the page that was found, whether it is global, and the end of the line.
fn push_page(text: &mut String, found: &Found) -> Result<(), AllocError>
    ensures ok { OnOk result (string_bytes text.new ≡ string_bytes text.old ++ codes " "
        ++ size_text found.now.page.size ++ global_text found.now.global ++ codes "\n") }
{
    let size = size_word(found.page.size());
    let end = global_word(found.global);
    text.push_str(" ")?;
    text.push_str(size)?;
    text.push_str(end)?;
    text.push_str("\n")
}

/// Adds the line of an exception.
fn push_trap(text: &mut String, number: usize, trap: Trap) -> Result<(), AllocError>
    ensures ok { OnOk result (string_bytes text.new ≡ string_bytes text.old
        ++ line_of number (Err trap)) }
{
    let cause = trap.cause;
    let why = why_word(trap.why);
    writeln!(text, "{number} trap {cause} {why}")
}

/// Adds the line of an answer.
#[tactic(auto, using(crate::proofs::LineLemmas::found_line))]
fn push_line(
    text: &mut String,
    number: usize,
    answer: Result<Found, Trap>,
) -> Result<(), AllocError>
    ensures ok { OnOk result (string_bytes text.new ≡ string_bytes text.old
        ++ line_of number answer) }
{
    match answer {
        Ok(found) => {
            push_decimal(text, number)?;
            text.push_str(" pa 0x")?;
            push_hexadecimal(text, found.pa)?;
            push_page(text, &found)
        }
        Err(trap) => push_trap(text, number, trap),
    }
}

/// The lines of `walk`: each step's number, from 1, and the answer of the scheme's translation from
/// the root, which the caller keeps below 2^44.
pub fn walk_lines<W: Words>(
    alloc: Global,
    scheme: Scheme,
    words: &W,
    root: u64,
    steps: &[WalkStep],
) -> Result<String, AllocError>
    requires { root < 2 ^ PPN_BITS }
    ensures { IfOk result (λ text. WritesLines scheme (W.words words.now) root 1 steps.now
        (string_bytes text)) }
{
    let mut text = String::new(alloc);
    for (index, step) in steps.iter().enumerate() {
        let answer = translate_in(scheme, words, root, step.va, step.access, step.ctx);
        push_line(&mut text, index + 1, answer)?;
    }
    Ok(text)
}
