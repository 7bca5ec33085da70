//! Lays out the columns of a picture: as wide as their texts, or narrow where these make it too wide
//! for a page.

use crate::layout::{Column, FIRST_COLUMN, PAGE_WIDTH};
use crate::recorder::{Room, Track};
use crate::sheet::Sheet;
use std::alloc::{AllocError, Global};

/// Room for all characters.
const WIDE: Room = Room {
    characters: u16::MAX,
    label: u16::MAX,
};

/// Room for the columns of many harts on a page: a text or label that is longer runs over what is
/// right of it.
const NARROW: Room = Room {
    characters: 13,
    label: 1,
};

/// The columns, side by side.
fn columns_in(
    alloc: Global,
    tracks: &[Track],
    sheet: &Sheet,
    room: Room,
) -> Result<Vec<Column>, AllocError> {
    let mut columns = Vec::new(alloc);
    let mut hart: u8 = 0;
    let mut left = FIRST_COLUMN;
    for track in tracks {
        let column = track.column(left, sheet.width(hart), room);
        left = u32::try_from(column.right()).unwrap_or(u32::MAX);
        columns.push(column)?;
        hart = hart.saturating_add(1);
    }
    Ok(columns)
}

/// The columns of a run.
pub fn columns_of(
    alloc: Global,
    tracks: &[Track],
    sheet: &Sheet,
) -> Result<Vec<Column>, AllocError> {
    let columns = columns_in(alloc, tracks, sheet, WIDE)?;
    let right = match columns.as_slice().last() {
        Some(column) => column.right(),
        None => 0,
    };
    if right <= PAGE_WIDTH {
        return Ok(columns);
    }
    columns_in(alloc, tracks, sheet, NARROW)
}

/// Where the labels of bars end on the right.
pub fn labels_end(tracks: &[Track], columns: &[Column]) -> u64 {
    let mut end = 0;
    for (track, column) in tracks.iter().zip(columns) {
        if column.stale > 0 {
            let last = column.stale_x(column.stale - 1);
            end = track.label_width().saturating_add(last).max(end);
        }
    }
    end
}
