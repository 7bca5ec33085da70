//! The beginning of a picture's document, and its title.

use crate::layout::Point;
use crate::shapes::{Area, push_escaped, push_rect, push_text};
use crate::style::STYLE;
use std::alloc::AllocError;

/// Adds the beginning of a document: its size, and its title for those who do not see it.
pub fn push_begin(
    svg: &mut String,
    width: u64,
    height: u64,
    title: &str,
) -> Result<(), AllocError> {
    writeln!(
        svg,
        "<svg xmlns='http://www.w3.org/2000/svg' width='{width}' height='{height}' viewBox='0 0 {width} {height}' role='img'>"
    )?;
    svg.push_str("<title>")?;
    push_escaped(svg, title)?;
    svg.push_str("</title>\n")
}

/// Adds how shapes look, and what they stand on.
pub fn push_paper(svg: &mut String, width: u64, height: u64) -> Result<(), AllocError> {
    svg.push_str(STYLE)?;
    push_rect(
        svg,
        "paper",
        &Area {
            at: Point { x: 0, y: 0 },
            width,
            height,
        },
    )
}

/// Adds the title, and the line below it unless that is empty.
pub fn push_heading(svg: &mut String, title: &str, subtitle: &str) -> Result<(), AllocError> {
    push_text(svg, "title", Point { x: 16, y: 28 }, title)?;
    if subtitle.is_empty() {
        return Ok(());
    }
    push_text(svg, "subtitle", Point { x: 16, y: 48 }, subtitle)
}
