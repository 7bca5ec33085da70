//! Draws what is open for a while: bars, arrows, and the lines at them.

ghost use Rattle.std.specs.Prelude.{◌<◌, ◌^◌};

use crate::layout::{Column, Point, ROW_HEIGHT, ROWS_A_HEAD, heads_above, row_middle, row_top};
use crate::record::{Arrow, Bar, Line, Message, Record, SecondOwner, Span, StaleHit};
use crate::rows::push_words;
use crate::shapes::{
    Area, push_arrow, push_dot, push_end, push_full_head, push_line, push_open_head, push_rect,
};
use crate::step_words::push_mapping;
use itoa::Buffer;
use std::alloc::AllocError;

/// How far below the last row a bar goes on that had not ended there.
const TAIL: u64 = 12;

/// The lines from the first to the last of a bar.
#[derive(Clone, Copy)]
struct Lines {
    first: u32,
    last: u32,
    has_end: bool,
}

impl Lines {
    fn of_bar(record: &Record, bar: &Bar) -> Lines {
        Lines {
            first: record.line(bar.first),
            last: record.line(bar.last),
            has_end: bar.has_end,
        }
    }
}

/// Adds a bar from one line to another.
fn push_span(
    svg: &mut String,
    class: &str,
    x: u64,
    width: u64,
    lines: Lines,
) -> Result<(), AllocError> {
    let top = row_top(lines.first) + 2;
    let bottom = row_top(lines.last) + ROW_HEIGHT - 2;
    let bottom = if lines.has_end { bottom } else { bottom + TAIL };
    push_rect(
        svg,
        class,
        &Area {
            at: Point { x, y: top },
            width,
            height: bottom.saturating_sub(top),
        },
    )
}

/// The line for a label at a place that goes into a line: that, or the next one, if a text runs over
/// the place in it.
fn label_line(record: &Record, x: u64, line: u32, last: u32) -> u32 {
    let Some(drawn) = record.sheet.lines.get(line as usize) else {
        return line;
    };
    let Some(column) = record.columns.get(usize::from(drawn.hart)) else {
        return line;
    };
    if line < last && column.text_x() <= x && drawn.end_x(column) > x {
        line.saturating_add(1)
    } else {
        line
    }
}

/// Adds the label of a bar at its beginning, and below each line of heads.
fn push_labels(
    svg: &mut String,
    record: &Record,
    opening: &str,
    x: u64,
    lines: Lines,
    label: &str,
) -> Result<(), AllocError> {
    let mut digits = Buffer::new();
    let left = digits.format(x);
    let first = label_line(record, x, lines.first, lines.last);
    push_words(svg, opening, left, row_middle(first) + 4, label)?;
    for heads in heads_above(lines.first)..heads_above(lines.last) {
        let top = heads.saturating_mul(ROWS_A_HEAD);
        let line = label_line(record, x, top, lines.last);
        push_words(svg, opening, left, row_middle(line) + 4, label)?;
    }
    Ok(())
}

/// Adds the bar of an order, and its ticket.
fn push_order(
    svg: &mut String,
    record: &Record,
    x: u64,
    lines: Lines,
    ticket: u32,
    done: Option<u32>,
) -> Result<(), AllocError>
    requires { x < 2 ^ 60 }
{
    push_span(svg, "order", x, 14, lines)?;
    if let Some(first) = done {
        push_span(svg, "done", x, 14, Lines { first, ..lines })?;
    }
    let mut digits = Buffer::new();
    push_labels(
        svg,
        record,
        "<text class='ticket' x='",
        x + 7,
        lines,
        digits.format(ticket),
    )
}

/// Adds the line from the fill of an entry to the bar of what became stale in it.
fn push_life(
    svg: &mut String,
    record: &Record,
    x: u64,
    row: u32,
    first: u32,
) -> Result<(), AllocError>
    requires { x < 2 ^ 60 }
{
    let Some((line, column)) = record.text_of(row) else {
        return Ok(());
    };
    let turn = x + 7;
    let from = Point {
        x: turn.min(line.end_x(column) + 6),
        y: row_middle(record.line(row)),
    };
    let to = Point {
        x: turn,
        y: row_top(first) + 2,
    };
    push_arrow(svg, "life", from, turn, to)
}

/// Adds the line from a step to the bar of a stale mapping that it ends.
fn push_ended(
    svg: &mut String,
    record: &Record,
    bar: &Bar,
    left: u64,
    right: u64,
) -> Result<(), AllocError>
    requires left { left < 2 ^ 60 }
    requires right { right < 2 ^ 61 }
{
    let Some((line, column)) = record.text_of(bar.last) else {
        return Ok(());
    };
    let y = row_middle(record.line(bar.last));
    let begins = line.end_x(column) + 6;
    let ends = column.doing_x() - 6;
    let (from, to) = if right < ends {
        (ends, right + 3)
    } else {
        (begins.min(left), left.saturating_sub(3))
    };
    push_end(svg, Point { x: from, y }, Point { x: to, y })
}

/// Adds the bar of a stale mapping, its label, and the lines from where it became valid and to what
/// ended it.
fn push_stale(
    svg: &mut String,
    record: &Record,
    bar: &Bar,
    x: u64,
    width: u64,
    valid: Option<u32>,
    label: &str,
) -> Result<(), AllocError>
    requires x { x < 2 ^ 60 }
    requires width { width < 2 ^ 40 }
{
    let lines = Lines::of_bar(record, bar);
    if let Some(row) = valid {
        push_life(svg, record, x, row, lines.first)?;
    }
    push_span(svg, "stale", x, width, lines)?;
    if bar.has_end {
        push_ended(svg, record, bar, x, x + width)?;
    }
    push_labels(
        svg,
        record,
        "<text class='mapping' x='",
        x + 5,
        lines,
        label,
    )
}

/// Adds a bar. `scratch` is for its label.
pub fn push_bar(
    svg: &mut String,
    scratch: &mut String,
    record: &Record,
    bar: &Bar,
) -> Result<(), AllocError> {
    let Some(column) = record.columns.get(usize::from(bar.hart)) else {
        return Ok(());
    };
    let lines = Lines::of_bar(record, bar);
    match bar.span {
        Span::Walk => push_span(svg, "walk", column.doing_x(), 12, lines),
        Span::Service => push_span(svg, "service", column.doing_x(), 12, lines),
        Span::Order { ticket, done } => {
            let done = done.map(|row| record.line(row));
            push_order(svg, record, column.order_x(bar.lane), lines, ticket, done)
        }
        Span::Stale {
            page,
            ppn,
            valid,
            is_named,
        } => {
            scratch.clear();
            push_mapping(scratch, page, ppn, is_named)?;
            let x = column.stale_x(bar.lane);
            let width = column.stale_width();
            push_stale(svg, record, bar, x, width, valid, scratch.as_str())
        }
    }
}

/// Adds an arrow, from one end of its sender's text or lane to its receiver's lane.
fn push_message(
    svg: &mut String,
    arrow: &Arrow,
    from: Point,
    turn: u64,
    to: Point,
) -> Result<(), AllocError> {
    let end = if arrow.has_end {
        to
    } else {
        Point { x: turn, y: to.y }
    };
    match arrow.message {
        Message::Request => {
            push_arrow(svg, "request", from, turn, end)?;
            push_dot(svg, "request-start", from)?;
            if arrow.has_end {
                return push_full_head(svg, "request-head", end);
            }
        }
        Message::Acknowledgement => {
            push_arrow(svg, "ack", from, turn, end)?;
            push_dot(svg, "ack-start", from)?;
            if arrow.has_end {
                return push_open_head(svg, "ack-head", end);
            }
        }
    }
    push_dot(svg, "waits", end)
}

/// Adds an arrow between two columns.
pub fn push_flight(svg: &mut String, record: &Record, arrow: &Arrow) -> Result<(), AllocError> {
    let Some((line, sender)) = record.text_of(arrow.first) else {
        return Ok(());
    };
    let Some(receiver) = record.columns.get(usize::from(arrow.receiver)) else {
        return Ok(());
    };
    let turn = receiver.flight_x(arrow.lane);
    let x = if arrow.sender < arrow.receiver {
        turn.min(line.end_x(sender) + 8)
    } else {
        sender.doing_x().saturating_sub(4)
    };
    let from = Point {
        x,
        y: row_middle(record.line(arrow.first)),
    };
    let to = Point {
        x: receiver.doing_x().saturating_sub(2),
        y: row_middle(record.line(arrow.last)),
    };
    push_message(svg, arrow, from, turn, to)
}

/// Adds an outline round the text of a step.
fn push_outline(
    svg: &mut String,
    class: &str,
    column: &Column,
    number: u32,
    line: &Line,
) -> Result<(), AllocError> {
    let left = column.text_x() - 4;
    let right = line.text_end(column) + 4;
    push_rect(
        svg,
        class,
        &Area {
            at: Point {
                x: left,
                y: row_middle(number) - 9,
            },
            width: right.saturating_sub(left),
            height: 18,
        },
    )
}

/// Adds the mark of a step that maps a frame which a stale mapping reaches, unless it has it, and
/// the line to the bar of that.
pub fn push_owner(
    svg: &mut String,
    record: &Record,
    owner: &SecondOwner,
    is_marked: bool,
) -> Result<(), AllocError> {
    let Some((line, column)) = record.text_of(owner.row) else {
        return Ok(());
    };
    let number = record.line(owner.row);
    if !is_marked {
        push_outline(svg, "given", column, number, line)?;
    }
    let Some(holder) = record.columns.get(usize::from(owner.hart)) else {
        return Ok(());
    };
    let y = row_middle(number);
    let x = holder.stale_x(owner.lane);
    let begins = line.end_x(column) + 4;
    let (from, to) = if x + holder.stale_width() < column.doing_x() {
        (column.text_x() - 4, x + holder.stale_width() - 6)
    } else {
        (begins.min(x + 6), x + 6)
    };
    push_line(svg, "given-line", Point { x: from, y }, Point { x: to, y })?;
    push_dot(svg, "given-dot", Point { x: to, y })
}

/// Adds the mark of an access that was answered by a stale mapping, and the line to the bar of that.
/// It stands in the line of this number.
pub fn push_hit(
    svg: &mut String,
    column: &Column,
    hit: &StaleHit,
    number: u32,
    line: &Line,
) -> Result<(), AllocError> {
    let y = row_middle(number);
    push_outline(svg, "hit", column, number, line)?;
    let Some(lane) = hit.lane else {
        return Ok(());
    };
    let to = Point {
        x: column.stale_x(lane) + 6,
        y,
    };
    let from = Point {
        x: to.x.min(line.text_end(column) + 4),
        y,
    };
    push_line(svg, "hit-line", from, to)?;
    push_dot(svg, "hit-dot", to)
}
