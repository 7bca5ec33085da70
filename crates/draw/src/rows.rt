//! What a picture has many of: rows, heads of columns, and texts in them. Each is written in few
//! pieces, and a number that stands twice is made once.

ghost use Rattle.std.specs.Prelude.{ℕ, List, ◌≡◌, ◌<◌, ◌^◌, ◌++◌, OnOk, codes, string_bytes};
ghost use Rattle.std.specs.Fmt.{decimal};
ghost use Rattle.draw.specs.Rows.{numbers, pair, text_opening, with_hart, with_row};
ghost use Rattle.draw.specs.Shapes.{escape, text_begin};

use crate::shapes::push_escaped;
use itoa::Buffer;
use std::alloc::AllocError;

/// Adds a piece, and what stands behind it.
#[inline(always)]
#[tactic(auto, unfolding(crate::specs::Rows::pair))]
fn push_pair(svg: &mut String, piece: &str, behind: &str) -> Result<(), AllocError>
    ensures ok { OnOk result (string_bytes svg.new ≡ string_bytes svg.old
        ++ pair piece.now behind.now) }
{
    svg.push_str(piece)?;
    svg.push_str(behind)
}

/// Adds the end of an opening, and the number of a step, or those of a first and a last one.
#[tactic(auto, unfolding(crate::specs::Rows::numbers, crate::specs::Rows::pair))]
fn push_numbers(svg: &mut String, first: u64, last: u64) -> Result<(), AllocError>
    ensures ok { OnOk result (string_bytes svg.new ≡ string_bytes svg.old ++ codes "'>"
        ++ numbers first last) }
{
    push_pair(svg, "'>", Buffer::new().format(first))?;
    if first == last {
        return Ok(());
    }
    push_pair(svg, "-", Buffer::new().format(last))
}

/// Adds the line of a row, whose middle is at `y`, and the numbers of its first and last step.
/// `right` has the digits of the place where the line ends.
pub fn push_row(
    svg: &mut String,
    right: &str,
    y: u64,
    first: u64,
    last: u64,
) -> Result<(), AllocError>
    requires { y < 2 ^ 41 }
    ensures ok { (end : ℕ) → right.now ≡ decimal end → OnOk result (string_bytes svg.new
        ≡ with_row (string_bytes svg.old) end y first last) }
{
    let mut buffer = Buffer::new();
    let middle = buffer.format(y);
    push_pair(svg, "<line class='row' x1='84' y1='", middle)?;
    push_pair(svg, "' x2='", right)?;
    push_pair(svg, "' y2='", middle)?;
    push_pair(
        svg,
        "'/>\n<text class='number' x='78' y='",
        Buffer::new().format(y + 4),
    )?;
    push_numbers(svg, first, last)?;
    svg.push_str("</text>\n")
}

/// Adds the head of a hart's column, with the space that it is in. `y` has the digits of its place.
pub fn push_hart(svg: &mut String, x: u64, y: &str, hart: u64, space: u64) -> Result<(), AllocError>
    ensures ok { (low : ℕ) → y.now ≡ decimal low → OnOk result (string_bytes svg.new
        ≡ with_hart (string_bytes svg.old) (record { x = x; y = low }) hart space) }
{
    push_pair(svg, "<text class='hart' x='", Buffer::new().format(x))?;
    push_pair(svg, "' y='", y)?;
    push_pair(svg, "'>hart ", Buffer::new().format(hart))?;
    push_pair(svg, ", space ", Buffer::new().format(space))?;
    svg.push_str("</text>\n")
}

/// Adds words after the opening of a text, as `<text class='step' x='`. `x` has the digits of its
/// place.
pub fn push_words(
    svg: &mut String,
    opening: &str,
    x: &str,
    y: u64,
    words: &str,
) -> Result<(), AllocError>
    ensures ok { (class : List ℕ) (left : ℕ) → opening.now ≡ text_opening class
        → x.now ≡ decimal left → OnOk result (string_bytes svg.new ≡ string_bytes svg.old
        ++ text_begin class (record { x = left; y = y }) ++ escape words.now
        ++ codes "</text>\n") }
{
    push_pair(svg, opening, x)?;
    push_pair(svg, "' y='", Buffer::new().format(y))?;
    svg.push_str("'>")?;
    push_escaped(svg, words)?;
    svg.push_str("</text>\n")
}
