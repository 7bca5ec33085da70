//! The spaces that harts are in: tints of their columns, and numbers for their heads.

use crate::layout::{Point, row_top};
use crate::record::{Record, Switch};
use crate::shapes::{Area, push_rect};
use std::alloc::AllocError;

/// The class of the tint for a space.
fn tint_of(space: u8) -> &'static str {
    match space % 4 {
        0 => "tint-0",
        1 => "tint-1",
        2 => "tint-2",
        _ => "tint-3",
    }
}

/// A column without its lanes: from where to where it goes.
#[derive(Clone, Copy)]
struct Strip {
    left: u64,
    right: u64,
}

/// Adds the tint of a strip from a line to before another one.
fn push_tint(
    svg: &mut String,
    strip: Strip,
    space: u8,
    first: u32,
    end: u32,
) -> Result<(), AllocError> {
    if first >= end {
        return Ok(());
    }
    let y = row_top(first);
    push_rect(
        svg,
        tint_of(space),
        &Area {
            at: Point { x: strip.left, y },
            width: strip.right.saturating_sub(strip.left),
            height: row_top(end).saturating_sub(y),
        },
    )
}

/// Adds the tints of the column of a hart.
fn push_hart_tints(
    svg: &mut String,
    record: &Record,
    strip: Strip,
    hart: u8,
) -> Result<(), AllocError> {
    let mut space = 0;
    let mut first = 0;
    for switch in record.switches.as_slice() {
        if switch.hart == hart {
            let line = record.line(switch.row);
            push_tint(svg, strip, space, first, line)?;
            space = switch.space;
            first = line;
        }
    }
    push_tint(svg, strip, space, first, record.line_count())
}

/// Adds the tints of all columns, if some hart goes to another space. The last column goes on to the
/// right of the picture.
pub fn push_tints(svg: &mut String, record: &Record, width: u64) -> Result<(), AllocError> {
    if record.switches.is_empty() {
        return Ok(());
    }
    let mut hart: u8 = 0;
    for column in record.columns.as_slice() {
        let next = hart.saturating_add(1);
        let right = match record.columns.get(usize::from(next)) {
            Some(column) => u64::from(column.left),
            None => width,
        };
        let left = u64::from(column.left);
        push_hart_tints(svg, record, Strip { left, right }, hart)?;
        hart = next;
    }
    Ok(())
}

/// The spaces of the harts, line by line. Each hart begins in space 0.
#[derive(Drop)]
pub struct Spaces<'a> {
    record: &'a Record,
    switches: &'a [Switch],
    spaces: [u8; 8],
}

impl<'a> Spaces<'a> {
    /// The spaces before the first line.
    pub fn new(record: &'a Record) -> Spaces<'a> {
        Spaces {
            record,
            switches: record.switches.as_slice(),
            spaces: [0; 8],
        }
    }

    /// Goes on to before a line.
    pub fn go_to(&mut self, line: u32) {
        let mut rest = self.switches;
        while let [switch, after @ ..] = rest {
            if self.record.line(switch.row) >= line {
                break;
            }
            if let Some(space) = self.spaces.get_mut(usize::from(switch.hart)) {
                *space = switch.space;
            }
            rest = after;
        }
        self.switches = rest;
    }

    /// The space of a hart.
    pub fn of_hart(&self, hart: u8) -> u8 {
        match self.spaces.get(usize::from(hart)) {
            Some(space) => *space,
            None => 0,
        }
    }
}
