//! The legend of a picture: an entry for each kind of shape that it has.

ghost use Rattle.std.specs.Prelude.{◌<◌, ◌≤◌, ◌^◌};

use crate::layout::Point;
use crate::shapes::{
    Area, push_arrow, push_dot, push_end, push_full_head, push_open_head, push_rect, push_text,
};
use std::alloc::AllocError;

const LEFT: u64 = 16;

const WORDS: u64 = 72;

/// A kind of shape in the columns of a picture.
#[derive(Clone, Copy, PartialEq, Eq)]
pub enum Kind {
    Walk,
    Service,
    Order,
    Request,
    Acknowledgement,
    Stale,
    Life,
    End,
    Hit,
    SecondOwner,
    Space,
}

/// The kinds, in the order of the legend.
pub const KINDS: [Kind; 11] = [
    Kind::Walk,
    Kind::Service,
    Kind::Order,
    Kind::Request,
    Kind::Acknowledgement,
    Kind::Stale,
    Kind::Life,
    Kind::End,
    Kind::Hit,
    Kind::SecondOwner,
    Kind::Space,
];

/// What a kind of shape stands for.
fn words_of(kind: Kind) -> &'static str {
    match kind {
        Kind::Walk => "a walk, from its begin to the load that ends it",
        Kind::Service => "a request is served, from take to ack",
        Kind::Order => {
            "an order with its ticket: open; then empty, since it is done, until it is finished"
        }
        Kind::Request => "a request, from post to take (to a circle: not taken at the end)",
        Kind::Acknowledgement => {
            "an acknowledgement, from ack to the collect that finds it (to a circle: not collected)"
        }
        Kind::Stale => {
            "stale: the TLB holds this page with this frame, and the tables do not map it so"
        }
        Kind::Life => "valid: the TLB holds this page with this frame, and the tables map it so",
        Kind::End => "the step that ends a stale mapping, with a line to it",
        Kind::Hit => "an access that is answered by a stale mapping, with a line to it",
        Kind::SecondOwner => {
            "a frame is mapped elsewhere while a TLB still reaches it, with a line to what reaches it"
        }
        Kind::Space => "the tint of a column: the space that its hart is in, four tints in turn",
    }
}

/// Adds a bar as it is drawn in columns.
fn push_bar(svg: &mut String, class: &str, x: u64, y: u64, width: u64) -> Result<(), AllocError>
    requires { 9 ≤ y }
{
    push_rect(
        svg,
        class,
        &Area {
            at: Point { x, y: y - 7 },
            width,
            height: 14,
        },
    )
}

/// Adds an entry whose shape is a bar, and whose middle is at `y`.
pub fn push_bar_entry(svg: &mut String, class: &str, y: u64, words: &str) -> Result<(), AllocError>
    requires above { 9 ≤ y }
    requires bound { y < 2 ^ 41 }
{
    push_bar(svg, class, LEFT, y, 46)?;
    push_text(svg, "words", Point { x: WORDS, y: y + 4 }, words)
}

/// Adds the arrow of a request.
fn push_request(svg: &mut String, from: Point, to: Point) -> Result<(), AllocError> {
    push_arrow(svg, "request", from, LEFT + 20, to)?;
    push_dot(svg, "request-start", from)?;
    push_full_head(svg, "request-head", to)
}

/// Adds the arrow of an acknowledgement.
fn push_acknowledgement(svg: &mut String, from: Point, to: Point) -> Result<(), AllocError> {
    push_arrow(svg, "ack", from, LEFT + 20, to)?;
    push_dot(svg, "ack-start", from)?;
    push_open_head(svg, "ack-head", to)
}

/// Adds the line from a fill to a bar.
fn push_life(svg: &mut String, y: u64) -> Result<(), AllocError>
    requires above { 9 ≤ y }
    requires bound { y < 2 ^ 41 }
{
    let turn = LEFT + 39;
    let from = Point {
        x: LEFT + 3,
        y: y - 7,
    };
    let to = Point { x: turn, y: y + 8 };
    push_arrow(svg, "life", from, turn, to)
}

/// Adds a shape as it is drawn in columns.
fn push_sample(svg: &mut String, kind: Kind, y: u64) -> Result<(), AllocError>
    requires above { 9 ≤ y }
    requires bound { y < 2 ^ 41 }
{
    let from = Point { x: LEFT + 3, y };
    let to = Point { x: LEFT + 46, y };
    match kind {
        Kind::Walk => push_bar(svg, "walk", LEFT, y, 12),
        Kind::Service => push_bar(svg, "service", LEFT, y, 12),
        Kind::Order => {
            push_bar(svg, "order", LEFT, y, 23)?;
            push_bar(svg, "done", LEFT + 23, y, 23)
        }
        Kind::Request => push_request(svg, from, to),
        Kind::Acknowledgement => push_acknowledgement(svg, from, to),
        Kind::Stale => push_bar(svg, "stale", LEFT, y, 46),
        Kind::Life => push_life(svg, y),
        Kind::End => push_end(svg, from, to),
        Kind::Hit => push_bar(svg, "hit", LEFT, y, 46),
        Kind::SecondOwner => push_bar(svg, "given", LEFT, y, 46),
        Kind::Space => {
            push_bar(svg, "tint-0", LEFT, y, 23)?;
            push_bar(svg, "tint-1", LEFT + 23, y, 23)?;
            push_bar(svg, "swatch", LEFT, y, 46)
        }
    }
}

/// Adds the entry of a kind, whose middle is at `y`.
pub fn push_entry(svg: &mut String, kind: Kind, y: u64) -> Result<(), AllocError>
    requires above { 9 ≤ y }
    requires bound { y < 2 ^ 41 }
{
    push_sample(svg, kind, y)?;
    push_text(svg, "words", Point { x: WORDS, y: y + 4 }, words_of(kind))
}
