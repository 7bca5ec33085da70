//! The shapes of a picture, as elements of SVG. A class names how a shape looks (`style`).

ghost use Rattle.std.specs.Prelude.{◌≡◌, ◌∷◌, ◌++◌, ◌+◌, ◌-◌, ◌<◌, ◌^◌, [], IsTrue, OnOk, codes, string_bytes};
ghost use Rattle.std.specs.Fmt.{decimal};
ghost use Rattle.draw.specs.Shapes.{after, dot, escape, escaped, line, opening, path, rect, text_begin, turns};

use crate::layout::Point;
use itoa::Buffer;
use std::alloc::AllocError;

/// A rectangle: its upper left corner, and its size.
#[derive(Clone, Copy)]
pub struct Area {
    pub at: Point,
    pub width: u64,
    pub height: u64,
}

/// Adds what stands for a byte of words.
fn push_byte(svg: &mut String, byte: u8) -> Result<(), AllocError>
    ensures ok { OnOk result (string_bytes svg.new ≡ string_bytes svg.old ++ escaped byte) }
{
    if byte == b'<' {
        return svg.push_str("&lt;");
    }
    if byte == b'>' {
        return svg.push_str("&gt;");
    }
    if byte == b'&' {
        return svg.push_str("&amp;");
    }
    if byte == b'"' {
        return svg.push_str("&quot;");
    }
    if byte == b'\'' {
        return svg.push_str("&apos;");
    }
    if byte < 128 {
        svg.push(char::from(byte))
    } else {
        svg.push_str("?")
    }
}

/// Whether a byte stands for itself.
fn is_plain(byte: u8) -> bool
    ensures { IsTrue result → escaped byte ≡ byte ∷ [] }
{
    byte < 128 && byte != b'<' && byte != b'>' && byte != b'&' && byte != b'"' && byte != b'\''
}

/// Whether each byte of words stands for itself.
fn are_plain(words: &str) -> bool
    ensures { IsTrue result → escape words.now ≡ words.now }
{
    let mut plain = true;
    for byte in words.as_bytes() {
        plain &= is_plain(*byte);
    }
    plain
}

/// Adds what stands for words, byte by byte.
fn push_bytes(svg: &mut String, words: &str) -> Result<(), AllocError>
    ensures ok { OnOk result (string_bytes svg.new ≡ string_bytes svg.old ++ escape words.now) }
{
    for byte in words.as_bytes() {
        push_byte(svg, *byte)?;
    }
    Ok(())
}

/// Adds words, with an entity for each character that SVG reads as its own, and `?` for each byte
/// that is not ASCII.
pub fn push_escaped(svg: &mut String, words: &str) -> Result<(), AllocError>
    ensures ok { OnOk result (string_bytes svg.new ≡ string_bytes svg.old ++ escape words.now) }
{
    if are_plain(words) {
        svg.push_str(words)
    } else {
        push_bytes(svg, words)
    }
}

/// Adds a number in decimal.
fn push_decimal(svg: &mut String, n: u64) -> Result<(), AllocError>
    ensures ok { OnOk result (string_bytes svg.new ≡ string_bytes svg.old ++ decimal n) }
{
    svg.push_str(Buffer::new().format(n))
}

/// Adds a number after what stands before it.
#[tactic(auto, unfolding(crate::specs::Shapes::after))]
fn push_after(svg: &mut String, before: &str, n: u64) -> Result<(), AllocError>
    ensures ok { OnOk result (string_bytes svg.new ≡ string_bytes svg.old ++ after before.now n) }
{
    svg.push_str(before)?;
    push_decimal(svg, n)
}

/// Adds an element up to its class.
#[tactic(auto, unfolding(crate::specs::Shapes::opening))]
fn push_class(svg: &mut String, element: &str, class: &str) -> Result<(), AllocError>
    ensures ok { OnOk result (string_bytes svg.new ≡ string_bytes svg.old
        ++ opening element.now class.now) }
{
    svg.push_str(element)?;
    svg.push_str(class)
}

/// Adds a place, after what stands before each of its numbers.
fn push_place(svg: &mut String, x: &str, y: &str, at: Point) -> Result<(), AllocError>
    ensures ok { OnOk result (string_bytes svg.new ≡ string_bytes svg.old ++ after x.now at.x
        ++ after y.now at.y) }
{
    push_after(svg, x, at.x)?;
    push_after(svg, y, at.y)
}

/// Adds a rectangle.
pub fn push_rect(svg: &mut String, class: &str, area: &Area) -> Result<(), AllocError>
    ensures ok { OnOk result (string_bytes svg.new ≡ string_bytes svg.old
        ++ rect class.now area.now) }
{
    push_class(svg, "<rect class='", class)?;
    push_place(svg, "' x='", "' y='", area.at)?;
    push_after(svg, "' width='", area.width)?;
    push_after(svg, "' height='", area.height)?;
    svg.push_str("'/>\n")
}

/// Adds a line.
pub fn push_line(svg: &mut String, class: &str, from: Point, to: Point) -> Result<(), AllocError>
    ensures ok { OnOk result (string_bytes svg.new ≡ string_bytes svg.old
        ++ line class.now from to) }
{
    push_class(svg, "<line class='", class)?;
    push_place(svg, "' x1='", "' y1='", from)?;
    push_place(svg, "' x2='", "' y2='", to)?;
    svg.push_str("'/>\n")
}

/// Adds a small circle.
pub fn push_dot(svg: &mut String, class: &str, at: Point) -> Result<(), AllocError>
    ensures ok { OnOk result (string_bytes svg.new ≡ string_bytes svg.old ++ dot class.now at) }
{
    svg.push_str("<circle")?;
    push_class(svg, " class='", class)?;
    push_place(svg, "' cx='", "' cy='", at)?;
    svg.push_str("' r='3'/>\n")
}

/// Adds the beginning of a text, whose baseline begins at a point.
fn push_text_begin(svg: &mut String, class: &str, at: Point) -> Result<(), AllocError>
    ensures ok { OnOk result (string_bytes svg.new ≡ string_bytes svg.old
        ++ text_begin class.now at) }
{
    push_class(svg, "<text class='", class)?;
    push_place(svg, "' x='", "' y='", at)?;
    svg.push_str("'>")
}

/// Adds words, whose baseline begins at a point.
pub fn push_text(svg: &mut String, class: &str, at: Point, words: &str) -> Result<(), AllocError>
    ensures ok { OnOk result (string_bytes svg.new ≡ string_bytes svg.old ++ text_begin class.now at
        ++ escape words.now ++ codes "</text>\n") }
{
    push_text_begin(svg, class, at)?;
    push_escaped(svg, words)?;
    svg.push_str("</text>\n")
}

/// Adds a number, where words would stand.
pub fn push_number(svg: &mut String, class: &str, at: Point, n: u64) -> Result<(), AllocError>
    ensures ok { OnOk result (string_bytes svg.new ≡ string_bytes svg.old ++ text_begin class.now at
        ++ decimal n ++ codes "</text>\n") }
{
    push_text_begin(svg, class, at)?;
    push_decimal(svg, n)?;
    svg.push_str("</text>\n")
}

/// Adds the beginning of a path, at a point.
fn push_path(svg: &mut String, class: &str, at: Point) -> Result<(), AllocError>
    ensures ok { OnOk result (string_bytes svg.new ≡ string_bytes svg.old ++ path class.now at) }
{
    push_class(svg, "<path class='", class)?;
    push_place(svg, "' d='M", ",", at)
}

/// Adds what follows in a path that goes level to a turn, down, and level to its end.
fn push_turns(svg: &mut String, turn: u64, to: Point) -> Result<(), AllocError>
    ensures ok { OnOk result (string_bytes svg.new ≡ string_bytes svg.old ++ turns turn to) }
{
    push_after(svg, "H", turn)?;
    push_after(svg, "V", to.y)?;
    push_after(svg, "H", to.x)
}

/// Adds the path of an arrow: level to a turn, down, and level to its end.
pub fn push_arrow(
    svg: &mut String,
    class: &str,
    from: Point,
    turn: u64,
    to: Point,
) -> Result<(), AllocError>
    ensures ok { OnOk result (string_bytes svg.new ≡ string_bytes svg.old ++ path class.now from
        ++ turns turn to ++ codes "'/>\n") }
{
    push_path(svg, class, from)?;
    push_turns(svg, turn, to)?;
    svg.push_str("'/>\n")
}

/// Adds the head of an arrow, full, with its tip at a point.
pub fn push_full_head(svg: &mut String, class: &str, tip: Point) -> Result<(), AllocError>
    ensures ok { OnOk result (string_bytes svg.new ≡ string_bytes svg.old ++ path class.now tip
        ++ codes "l-8,-4v8z'/>\n") }
{
    push_path(svg, class, tip)?;
    svg.push_str("l-8,-4v8z'/>\n")
}

/// Adds the head of an arrow, open, with its tip at a point.
pub fn push_open_head(svg: &mut String, class: &str, tip: Point) -> Result<(), AllocError>
    ensures ok { OnOk result (string_bytes svg.new ≡ string_bytes svg.old ++ path class.now tip
        ++ codes "m-8,-5l8,5l-8,5'/>\n") }
{
    push_path(svg, class, tip)?;
    svg.push_str("m-8,-5l8,5l-8,5'/>\n")
}

/// Adds the end of what a step ends: a line, and a short one across where it arrives.
pub fn push_end(svg: &mut String, from: Point, to: Point) -> Result<(), AllocError>
    requires { to.y < 2 ^ 63 }
    ensures ok { OnOk result (string_bytes svg.new ≡ string_bytes svg.old
        ++ line (codes "end") from to ++ line (codes "end-mark") (record { x = to.x; y = to.y - 6 })
        (record { x = to.x; y = to.y + 6 })) }
{
    push_line(svg, "end", from, to)?;
    push_line(
        svg,
        "end-mark",
        Point {
            x: to.x,
            y: to.y.saturating_sub(6),
        },
        Point {
            x: to.x,
            y: to.y + 6,
        },
    )
}
