//! Writes the story of a verdict as an SVG document.

ghost use Rattle.std.specs.Prelude.{◌≤◌, ◌<◌, ◌^◌};

use crate::document::{push_begin, push_heading, push_paper};
use crate::heading::{Heading, TITLE_CHARACTERS, push_plain};
use crate::layout::{
    CHAR_WIDTH, Column, ENTRY_HEIGHT, HEAD_HEIGHT, LEAST_WIDTH, Point, ROW_HEIGHT, ROWS_A_HEAD,
    TITLE_CHAR_WIDTH, entry_middle, row_middle, row_top,
};
use crate::legend::push_bar_entry;
use crate::rows::push_row;
use crate::shapes::{Area, push_dot, push_line, push_rect, push_text};
use crate::story::{Story, StoryColumn, StoryMark, StoryRow, column_of, right_of, short};
use itoa::Buffer;
use std::alloc::{AllocError, Global};

/// How many characters the name of a file has at most, as it is shown.
const NAME_ROOM: u64 = 62;

/// How many entries the legend has.
const ENTRIES: u8 = 3;

/// What the picture is, for those who do not see it.
const DESCRIPTION: &str =
    "<desc>Time goes down, a row a record, and each hart has a column. The bar is the translation that the hart may hold: valid at first, and stale up to the record with the verdict.</desc>\n";

/// A picture while it is written.
#[derive(Drop)]
struct Drawing {
    svg: String,
    /// The head of a column.
    scratch: String,
    width: u64,
    /// Where remarks begin.
    remarks: u64,
}

/// The words above the picture of a story: what the hart may hold, and below that the place of the
/// verdict with the rest of its line.
fn heading_of(alloc: Global, story: &Story) -> Result<Heading, AllocError> {
    let mut heading = Heading::new(alloc);
    let (place, said) = split(story.verdict.as_str(), ": ");
    let (holds, rest) = split(said, ", ");
    push_plain(&mut heading.title, holds, TITLE_CHARACTERS)?;
    heading.subtitle.push_str(story.file.as_str())?;
    heading.subtitle.push_str(place)?;
    heading.subtitle.push_str(": ")?;
    push_plain(&mut heading.subtitle, rest, TITLE_CHARACTERS)?;
    Ok(heading)
}

/// How wide the words above a picture are, with room for any name of a file.
fn heading_width(story: &Story, heading: &Heading) -> u64 {
    let title = short(heading.title.len());
    let name = story.file.len();
    let behind = short(heading.subtitle.len().saturating_sub(name));
    let below = u64::from(behind) + NAME_ROOM;
    let width = (u64::from(title) * TITLE_CHAR_WIDTH).max(below * CHAR_WIDTH);
    width.saturating_add(32)
}

/// A text up to a separator, and what stands behind it.
fn split<'a>(text: &'a str, at: &str) -> (&'a str, &'a str) {
    match text.split_once(at) {
        Some((before, behind)) => (before, behind),
        None => (text, ""),
    }
}

/// The class of a record's text: the last one has the verdict.
fn class_of(is_last: bool) -> &'static str {
    if is_last { "hit-words" } else { "step" }
}

/// The class of what a record has to do with the verdict.
fn remark_class(mark: StoryMark) -> &'static str {
    match mark {
        StoryMark::MakesStale => "mapping",
        StoryMark::LeadsTo | StoryMark::Other => "remark",
    }
}

/// Adds a bar from one height to another.
fn push_span(
    svg: &mut String,
    class: &str,
    column: &Column,
    top: u64,
    bottom: u64,
) -> Result<(), AllocError> {
    push_rect(
        svg,
        class,
        &Area {
            at: Point {
                x: column.stale_x(0),
                y: top,
            },
            width: column.stale_width(),
            height: bottom.saturating_sub(top),
        },
    )
}

/// Adds the label of a bar in a row.
fn push_label(
    svg: &mut String,
    class: &str,
    column: &Column,
    row: u32,
    label: &str,
) -> Result<(), AllocError> {
    let at = Point {
        x: column.stale_x(0) + 5,
        y: row_middle(row) + 4,
    };
    push_text(svg, class, at, label)
}

impl Drawing {
    /// A picture that has room for a story, and for the words above it.
    fn new(alloc: Global, story: &Story, columns: &[StoryColumn], heading: &Heading) -> Drawing {
        let remarks = right_of(columns).saturating_add(10);
        let texts = remarks.saturating_add(story.remarks_width());
        let least = heading_width(story, heading).max(LEAST_WIDTH);
        Drawing {
            svg: String::new(alloc),
            scratch: String::new(alloc),
            width: texts.saturating_add(20).max(least),
            remarks,
        }
    }

    /// Adds the beginning of the document, and the words above the columns.
    fn push_front(&mut self, story: &Story, heading: &Heading) -> Result<(), AllocError> {
        let width = self.width;
        let height = entry_middle(story.count(), ENTRIES) + ENTRY_HEIGHT / 2;
        push_begin(&mut self.svg, width, height, heading.title.as_str())?;
        self.svg.push_str(DESCRIPTION)?;
        push_paper(&mut self.svg, width, height)?;
        push_heading(
            &mut self.svg,
            heading.title.as_str(),
            heading.subtitle.as_str(),
        )
    }

    /// Adds the head of a hart's column.
    fn push_hart(&mut self, at: Point, hart: u8) -> Result<(), AllocError> {
        self.scratch.clear();
        write!(self.scratch, "hart {hart}")?;
        push_text(&mut self.svg, "hart", at, self.scratch.as_str())
    }

    /// Adds a line of heads, above a row.
    fn push_heads(&mut self, columns: &[StoryColumn], row: u32) -> Result<(), AllocError> {
        let top = row_top(row) - HEAD_HEIGHT;
        push_rect(
            &mut self.svg,
            "head",
            &Area {
                at: Point { x: 0, y: top + 3 },
                width: self.width,
                height: HEAD_HEIGHT - 6,
            },
        )?;
        let y = top + 17;
        for at in columns {
            let x = at.column.text_x();
            self.push_hart(Point { x, y }, at.hart)?;
        }
        push_text(&mut self.svg, "number", Point { x: 78, y }, "line")?;
        push_text(
            &mut self.svg,
            "hart",
            Point { x: self.remarks, y },
            "what it does",
        )
    }

    /// Adds the lines of the rows with the numbers of their lines, and the heads.
    fn push_rows(&mut self, story: &Story, columns: &[StoryColumn]) -> Result<(), AllocError> {
        let mut digits = Buffer::new();
        let right = digits.format(self.width);
        let mut number: u32 = 0;
        for row in story.rows.as_slice() {
            if number % ROWS_A_HEAD == 0 {
                self.push_heads(columns, number)?;
            }
            push_row(&mut self.svg, right, row_middle(number), row.line, row.line)?;
            number = number.saturating_add(1);
        }
        Ok(())
    }

    /// Adds the side of a column.
    fn push_side(&mut self, story: &Story, x: u64) -> Result<(), AllocError> {
        let bottom = row_top(story.count()) + ROW_HEIGHT;
        push_line(
            &mut self.svg,
            "side",
            Point { x, y: row_top(0) },
            Point { x, y: bottom },
        )
    }

    /// Adds the sides of the columns, and that of the remarks.
    fn push_sides(&mut self, story: &Story, columns: &[StoryColumn]) -> Result<(), AllocError> {
        for at in columns {
            self.push_side(story, u64::from(at.column.left))?;
        }
        self.push_side(story, self.remarks.saturating_sub(10))
    }

    /// Adds the bar of the translation: valid from the last record that leads to it, and stale from the
    /// record that makes it so to the last one.
    fn push_bars(&mut self, story: &Story, column: &Column) -> Result<(), AllocError> {
        let last = story.count().saturating_sub(1);
        let stale = story.last_of(StoryMark::MakesStale, last).unwrap_or(0);
        let label = story.label.as_str();
        let top = row_top(stale) + 2;
        if stale > 0 {
            let before = stale.saturating_sub(1);
            let valid = story.last_of(StoryMark::LeadsTo, before).unwrap_or(0);
            push_span(&mut self.svg, "life", column, row_top(valid) + 2, top)?;
            push_label(&mut self.svg, "words", column, valid, label)?;
        }
        let bottom = row_top(last) + ROW_HEIGHT - 2;
        push_span(&mut self.svg, "stale", column, top, bottom)?;
        push_label(&mut self.svg, "mapping", column, stale, label)
    }

    /// Adds the text of a row, and what it has to do with the verdict.
    fn push_texts(
        &mut self,
        column: &Column,
        number: u32,
        row: &StoryRow,
        is_last: bool,
    ) -> Result<(), AllocError> {
        let y = row_middle(number) + 4;
        let x = column.text_x();
        push_text(
            &mut self.svg,
            class_of(is_last),
            Point { x, y },
            row.text.as_str(),
        )?;
        let at = Point { x: self.remarks, y };
        push_text(
            &mut self.svg,
            remark_class(row.mark),
            at,
            row.remark.as_str(),
        )
    }

    /// Adds the texts of the rows.
    fn push_records(&mut self, story: &Story, columns: &[StoryColumn]) -> Result<(), AllocError> {
        let last = story.count().saturating_sub(1);
        let mut number: u32 = 0;
        for row in story.rows.as_slice() {
            if let Some(column) = column_of(columns, row.hart) {
                self.push_texts(&column, number, row, number == last)?;
            }
            number = number.saturating_add(1);
        }
        Ok(())
    }

    /// Adds the mark of the verdict, if there is a row.
    fn push_last(
        &mut self,
        story: &Story,
        columns: &[StoryColumn],
        holder: &Column,
    ) -> Result<(), AllocError> {
        let Some(row) = story.rows.as_slice().last() else {
            return Ok(());
        };
        match column_of(columns, row.hart) {
            Some(column) => self.push_verdict(story, row, &column, holder),
            None => Ok(()),
        }
    }

    /// Adds the mark of the verdict at the last row, and the line from there to the bar.
    fn push_verdict(
        &mut self,
        story: &Story,
        row: &StoryRow,
        column: &Column,
        holder: &Column,
    ) -> Result<(), AllocError> {
        let y = row_middle(story.count().saturating_sub(1));
        let characters = short(row.text.len());
        let left = column.text_x() - 4;
        let right = column.text_end(characters) + 4;
        push_rect(
            &mut self.svg,
            "hit",
            &Area {
                at: Point { x: left, y: y - 9 },
                width: right.saturating_sub(left),
                height: 18,
            },
        )?;
        let x = holder.stale_x(0);
        let (from, to) = if x < left {
            (left, x + holder.stale_width() - 6)
        } else {
            (right.min(x + 6), x + 6)
        };
        push_line(
            &mut self.svg,
            "hit-line",
            Point { x: from, y },
            Point { x: to, y },
        )?;
        push_dot(&mut self.svg, "hit-dot", Point { x: to, y })
    }

    /// Adds the legend.
    fn push_legend(&mut self, rows: u32) -> Result<(), AllocError> {
        push_bar_entry(
            &mut self.svg,
            "life",
            entry_middle(rows, 0),
            "valid: the hart may hold the translation, and the tables map the page so",
        )?;
        push_bar_entry(
            &mut self.svg,
            "stale",
            entry_middle(rows, 1),
            "stale: the hart may still hold the translation, and the tables do not map the page so",
        )?;
        push_bar_entry(
            &mut self.svg,
            "hit",
            entry_middle(rows, 2),
            "the record with the verdict, with a line to what the hart may hold",
        )
    }
}

/// The picture of a story, as an SVG document: a column for each hart that makes one of its records or
/// may hold the translation, a row for each record, and what the legend in it says.
pub fn draw_story(alloc: Global, story: &Story) -> Result<String, AllocError> {
    let heading = heading_of(alloc, story)?;
    let all = story.columns(alloc)?;
    let columns = all.as_slice();
    let mut drawing = Drawing::new(alloc, story, columns, &heading);
    drawing.push_front(story, &heading)?;
    drawing.push_rows(story, columns)?;
    drawing.push_sides(story, columns)?;
    if let Some(holder) = column_of(columns, story.hart) {
        drawing.push_bars(story, &holder)?;
        drawing.push_last(story, columns, &holder)?;
    }
    drawing.push_records(story, columns)?;
    drawing.push_legend(story.count())?;
    drawing.svg.push_str("</svg>\n")?;
    Ok(drawing.svg)
}
