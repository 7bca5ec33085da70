//! The story of a verdict, as its picture shows it: its records, and where their columns stand.

use crate::heading::{NAME_CHARACTERS, last_component, push_plain, push_plain_bytes};
use crate::layout::{CHAR_WIDTH, Column, FIRST_COLUMN, PAGE_WIDTH};
use std::alloc::{AllocError, Global};

/// How many characters of a record are shown.
const RECORD_CHARACTERS: usize = 60;

/// How many characters of what a record has to do with the verdict are shown.
const REMARK_CHARACTERS: usize = 80;

/// How many characters of the verdict's line are shown.
const VERDICT_CHARACTERS: usize = 400;

/// How many characters of a record a column has room for where the columns of many harts make the
/// picture too wide: a longer text runs over what is right of it.
const NARROW: u16 = 13;

/// What a record of a story does to the translation of its verdict.
#[derive(Clone, Copy, PartialEq, Eq)]
pub enum StoryMark {
    /// It is one of those before the hart may hold the translation.
    LeadsTo,
    /// It makes the translation stale.
    MakesStale,
    /// Nothing.
    Other,
}

/// A record of a story.
#[derive(Clone, Copy)]
pub struct StoryRecord<'a> {
    /// The line of the file that it stands on.
    pub line: u64,
    pub hart: u8,
    pub mark: StoryMark,
    pub text: &'a [u8],
    /// What it has to do with the verdict.
    pub remark: &'a [u8],
}

/// A row of the picture.
#[derive(Drop)]
pub struct StoryRow {
    pub line: u64,
    pub hart: u8,
    pub mark: StoryMark,
    pub text: String,
    pub remark: String,
}

/// The column of a hart.
#[derive(Clone, Copy)]
pub struct StoryColumn {
    pub hart: u8,
    pub column: Column,
}

/// A story: the last of its records has the verdict.
#[derive(Drop)]
pub struct Story {
    /// The name of the file, without its folders.
    pub file: String,
    /// The verdict's line behind the name of the file.
    pub verdict: String,
    /// The hart that may hold the translation.
    pub hart: u8,
    /// The words at the bar of the translation.
    pub label: String,
    pub rows: Vec<StoryRow>,
}

/// A number of characters, as far as it can be.
pub fn short(length: usize) -> u16 {
    u16::try_from(length).unwrap_or(u16::MAX)
}

impl Story {
    /// A story without a record, of a verdict in this file on a translation that the hart may hold.
    /// `verdict` is its line behind the name of the file.
    pub fn new(
        alloc: Global,
        file: &str,
        verdict: &[u8],
        hart: u8,
        label: &[u8],
    ) -> Result<Story, AllocError> {
        let mut story = Story {
            file: String::new(alloc),
            verdict: String::new(alloc),
            hart,
            label: String::new(alloc),
            rows: Vec::new(alloc),
        };
        push_plain(&mut story.file, last_component(file), NAME_CHARACTERS)?;
        push_plain_bytes(&mut story.verdict, verdict, VERDICT_CHARACTERS)?;
        push_plain_bytes(&mut story.label, label, RECORD_CHARACTERS)?;
        Ok(story)
    }

    /// Adds the next record.
    pub fn add(&mut self, alloc: Global, record: &StoryRecord<'_>) -> Result<(), AllocError> {
        let mut row = StoryRow {
            line: record.line,
            hart: record.hart,
            mark: record.mark,
            text: String::new(alloc),
            remark: String::new(alloc),
        };
        push_plain_bytes(&mut row.text, record.text, RECORD_CHARACTERS)?;
        push_plain_bytes(&mut row.remark, record.remark, REMARK_CHARACTERS)?;
        Ok(self.rows.push(row)?)
    }

    /// Whether a hart has a column: it makes a record, or may hold the translation.
    fn has_column(&self, hart: u8) -> bool {
        hart == self.hart || self.rows.iter().any(|row| row.hart == hart)
    }

    /// How many characters the longest record of a hart has.
    fn characters(&self, hart: u8) -> u16 {
        let mut most = 0;
        for row in self.rows.as_slice() {
            if row.hart == hart {
                most = short(row.text.len()).max(most);
            }
        }
        most
    }

    /// The column of a hart, with room for this many characters of its records.
    fn column_at(&self, left: u32, hart: u8, room: u16) -> Column {
        Column {
            left,
            flights: 0,
            orders: 0,
            characters: self.characters(hart).min(room),
            stale: u16::from(hart == self.hart),
            label: short(self.label.len()),
        }
    }

    /// The columns, side by side.
    fn columns_in(&self, alloc: Global, room: u16) -> Result<Vec<StoryColumn>, AllocError> {
        let mut columns = Vec::new(alloc);
        let mut left = FIRST_COLUMN;
        for hart in 0..u8::MAX {
            if self.has_column(hart) {
                let column = self.column_at(left, hart, room);
                left = u32::try_from(column.right()).unwrap_or(u32::MAX);
                columns.push(StoryColumn { hart, column })?;
            }
        }
        Ok(columns)
    }

    /// The columns, as wide as their records, or narrow where these make the picture too wide.
    pub fn columns(&self, alloc: Global) -> Result<Vec<StoryColumn>, AllocError> {
        let columns = self.columns_in(alloc, u16::MAX)?;
        if right_of(columns.as_slice()) <= PAGE_WIDTH {
            return Ok(columns);
        }
        self.columns_in(alloc, NARROW)
    }

    /// How many characters the longest remark has.
    fn longest_remark(&self) -> u16 {
        let mut most = 0;
        for row in self.rows.as_slice() {
            most = short(row.remark.len()).max(most);
        }
        most
    }

    /// How wide the longest remark is.
    pub fn remarks_width(&self) -> u64 {
        u64::from(self.longest_remark()) * CHAR_WIDTH
    }

    /// The number of the last row with a mark, from 0 on, up to a number.
    pub fn last_of(&self, mark: StoryMark, most: u32) -> Option<u32> {
        let mut found = None;
        let mut number: u32 = 0;
        for row in self.rows.as_slice() {
            if row.mark == mark && number <= most {
                found = Some(number);
            }
            number = number.saturating_add(1);
        }
        found
    }

    /// How many rows there are.
    pub fn count(&self) -> u32 {
        u32::try_from(self.rows.len()).unwrap_or(u32::MAX)
    }
}

/// Where the last column ends.
pub fn right_of(columns: &[StoryColumn]) -> u64 {
    match columns.last() {
        Some(last) => last.column.right(),
        None => 0,
    }
}

/// The column of a hart.
pub fn column_of(columns: &[StoryColumn], hart: u8) -> Option<Column> {
    let mut found = None;
    for at in columns {
        if at.hart == hart {
            found = Some(at.column);
        }
    }
    found
}
