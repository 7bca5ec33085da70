//! Writes a recorded run as an SVG document.

ghost use Rattle.std.specs.Prelude.{◌≡◌, IfErr};
ghost use Rattle.files.specs.declared.fault.Fault.TheVariants.{NoMemory};

use crate::bars::{push_bar, push_flight, push_hit, push_owner};
use crate::comments::Comments;
use crate::document::{push_begin, push_heading, push_paper};
use crate::file_comments::comments_of;
use crate::heading::{Heading, push_plain};
use crate::layout::{
    CHAR_WIDTH, Column, ENTRY_HEIGHT, HEAD_HEIGHT, LEAST_WIDTH, PAGE_WIDTH, Point, ROW_HEIGHT,
    ROWS_A_HEAD, TITLE_CHAR_WIDTH, entry_middle, row_middle, row_top,
};
use crate::legend::{KINDS, push_entry};
use crate::record::{Line, LineKind, Record};
use crate::rows::{push_hart, push_row, push_words};
use crate::run::record;
use crate::shapes::{Area, push_line, push_rect};
use crate::tints::{Spaces, push_tints};
use files::{Fault, RunScenario};
use itoa::Buffer;
use std::alloc::{AllocError, Global};

/// Where the comments before steps begin.
const NOTE_X: u64 = 98;

/// A picture while it is written.
#[derive(Drop)]
struct Picture {
    svg: String,
    /// The label of a bar before it is escaped.
    scratch: String,
    width: u64,
    /// Where the rows end.
    bottom: u64,
}

/// How the text of a line begins.
fn opening_of(line: &Line) -> &'static str {
    match line.kind {
        LineKind::Note => "<text class='note' x='",
        LineKind::Step => "<text class='step' x='",
        LineKind::RefusedStep => "<text class='refused' x='",
        LineKind::HitStep => "<text class='hit-words' x='",
    }
}

/// How wide the texts of a record are: those of steps whole, and comments behind them as far as a
/// page is wide.
fn texts_width(record: &Record) -> u64 {
    let mut width = record.labels_end;
    for line in record.sheet.lines.as_slice() {
        if let Some(column) = record.columns.get(usize::from(line.hart)) {
            if line.kind != LineKind::Note {
                let end = line.end_x(column).min(PAGE_WIDTH - 20);
                width = width.max(end).max(line.text_end(column));
            }
        }
    }
    width
}

/// How many entries the legend of a picture has.
fn entries_of(record: &Record) -> u8 {
    let mut entries: u8 = 0;
    for kind in KINDS {
        if record.has(kind) {
            entries = entries.saturating_add(1);
        }
    }
    entries
}

impl Picture {
    /// A picture that has room for a record, and for a title of this many characters.
    fn new(alloc: Global, record: &Record, characters: u16) -> Picture {
        let right = match record.columns.as_slice().last() {
            Some(column) => column.right(),
            None => 0,
        };
        let title = u64::from(characters) * TITLE_CHAR_WIDTH + 32;
        let texts = texts_width(record).saturating_add(20);
        Picture {
            svg: String::new(alloc),
            scratch: String::new(alloc),
            width: right.max(LEAST_WIDTH).max(title).max(texts),
            bottom: row_top(record.line_count()) + ROW_HEIGHT,
        }
    }

    /// Adds the beginning of the document: its size, and what it is in words.
    fn push_front(&mut self, record: &Record, heading: &Heading) -> Result<(), AllocError> {
        let width = self.width;
        let entries = entries_of(record);
        let height = entry_middle(record.line_count(), entries) + ENTRY_HEIGHT / 2;
        push_begin(&mut self.svg, width, height, heading.title.as_str())?;
        let hits = record.hits.len();
        writeln!(
            self.svg,
            "<desc>Time goes down, a row a step or a walk, and each hart has a column. Accesses that stale mappings answer: {hits}.</desc>"
        )?;
        push_paper(&mut self.svg, width, height)?;
        push_heading(
            &mut self.svg,
            heading.title.as_str(),
            heading.subtitle.as_str(),
        )
    }

    /// Adds a line of heads, above a row.
    fn push_heads(
        &mut self,
        columns: &[Column],
        row: u32,
        spaces: &Spaces<'_>,
    ) -> Result<(), AllocError> {
        let bottom = row_top(row);
        let top = bottom - HEAD_HEIGHT;
        push_rect(
            &mut self.svg,
            "head",
            &Area {
                at: Point { x: 0, y: top + 3 },
                width: self.width,
                height: HEAD_HEIGHT - 6,
            },
        )?;
        let mut digits = Buffer::new();
        let y = digits.format(top + 17);
        let mut hart: u8 = 0;
        for column in columns {
            let space = u64::from(spaces.of_hart(hart));
            push_hart(&mut self.svg, column.text_x(), y, u64::from(hart), space)?;
            hart = hart.saturating_add(1);
        }
        Ok(())
    }

    /// Adds the line of a row, with the numbers of its steps.
    fn push_line(&mut self, right: &str, number: u32, line: &Line) -> Result<(), AllocError> {
        let first = u64::from(line.first) + 1;
        let last = u64::from(line.last) + 1;
        push_row(&mut self.svg, right, row_middle(number), first, last)
    }

    /// Adds the lines of the rows with their numbers, and the heads of the columns.
    fn push_rows(&mut self, record: &Record) -> Result<(), AllocError> {
        let mut digits = Buffer::new();
        let right = digits.format(self.width);
        let mut spaces = Spaces::new(record);
        let mut number: u32 = 0;
        for line in record.sheet.lines.as_slice() {
            if number % ROWS_A_HEAD == 0 {
                spaces.go_to(number);
                self.push_heads(record.columns.as_slice(), number, &spaces)?;
            }
            if line.kind != LineKind::Note {
                self.push_line(right, number, line)?;
            }
            number = number.saturating_add(1);
        }
        for column in record.columns.as_slice() {
            let x = u64::from(column.left);
            push_line(
                &mut self.svg,
                "side",
                Point { x, y: row_top(0) },
                Point { x, y: self.bottom },
            )?;
        }
        Ok(())
    }

    /// Adds a comment from a place on, as far as the picture is wide.
    fn push_comment(
        &mut self,
        opening: &str,
        x: u64,
        number: u32,
        words: &str,
    ) -> Result<(), AllocError> {
        let room = self.width.saturating_sub(x).saturating_sub(20) / CHAR_WIDTH;
        let most = usize::try_from(room).unwrap_or(usize::MAX);
        self.scratch.clear();
        push_plain(&mut self.scratch, words, most)?;
        push_words(
            &mut self.svg,
            opening,
            Buffer::new().format(x),
            row_middle(number) + 4,
            self.scratch.as_str(),
        )
    }

    /// Adds the text of a step.
    fn push_step(
        &mut self,
        column: &Column,
        line: &Line,
        number: u32,
        words: &str,
    ) -> Result<(), AllocError> {
        push_words(
            &mut self.svg,
            opening_of(line),
            Buffer::new().format(column.text_x()),
            row_middle(number) + 4,
            words,
        )
    }

    /// Adds the marks of accesses that stale mappings answered.
    fn push_hits(&mut self, record: &Record) -> Result<(), AllocError> {
        for hit in record.hits.as_slice() {
            if let Some((line, column)) = record.text_of(hit.row) {
                push_hit(&mut self.svg, column, hit, record.line(hit.row), line)?;
            }
        }
        Ok(())
    }

    /// Adds the texts of the lines.
    fn push_texts(&mut self, record: &Record) -> Result<(), AllocError> {
        let mut texts = record.sheet.texts.as_str();
        let mut number: u32 = 0;
        for line in record.sheet.lines.as_slice() {
            let Some((words, rest)) = texts.split_at_checked(line.length) else {
                return Ok(());
            };
            let Some((remark, rest)) = rest.split_at_checked(line.remark) else {
                return Ok(());
            };
            if line.kind == LineKind::Note {
                self.push_comment(opening_of(line), NOTE_X, number, words)?;
            } else if let Some(column) = record.columns.get(usize::from(line.hart)) {
                self.push_step(column, line, number, words)?;
                if !remark.is_empty() {
                    let opening = "<text class='remark' x='";
                    self.push_comment(opening, line.remark_x(column), number, remark)?;
                }
            }
            texts = rest;
            number = number.saturating_add(1);
        }
        Ok(())
    }

    /// Adds the marks of second owners.
    fn push_owners(&mut self, record: &Record) -> Result<(), AllocError> {
        let mut marked: Option<u32> = None;
        for owner in record.owners.as_slice() {
            let is_marked = marked == Some(owner.row);
            push_owner(&mut self.svg, record, owner, is_marked)?;
            marked = Some(owner.row);
        }
        Ok(())
    }

    /// Adds the legend: an entry for each kind of shape that the picture has.
    fn push_legend(&mut self, record: &Record) -> Result<(), AllocError> {
        let mut entry: u8 = 0;
        for kind in KINDS {
            if record.has(kind) {
                let y = entry_middle(record.line_count(), entry);
                push_entry(&mut self.svg, kind, y)?;
                entry = entry.saturating_add(1);
            }
        }
        Ok(())
    }
}

/// Writes a record as a document.
fn write(alloc: Global, record: &Record, heading: &Heading) -> Result<String, AllocError> {
    let characters = u16::try_from(heading.title.len()).unwrap_or(u16::MAX);
    let mut picture = Picture::new(alloc, record, characters);
    picture.push_front(record, heading)?;
    push_tints(&mut picture.svg, record, picture.width)?;
    picture.push_rows(record)?;
    for bar in record.bars.as_slice() {
        push_bar(&mut picture.svg, &mut picture.scratch, record, bar)?;
    }
    for arrow in record.arrows.as_slice() {
        push_flight(&mut picture.svg, record, arrow)?;
    }
    picture.push_owners(record)?;
    picture.push_hits(record)?;
    picture.push_texts(record)?;
    picture.push_legend(record)?;
    picture.svg.push_str("</svg>\n")?;
    Ok(picture.svg)
}

/// The picture of a run, as an SVG document: a column a hart, a row a step or a walk, and what the
/// legend in it says. An error comes only if there is no memory.
pub fn draw_text(alloc: Global, scenario: &RunScenario) -> Result<String, Fault>
    ensures { IfErr result (λ fault. fault ≡ NoMemory) }
{
    let record = record(alloc, scenario, Comments::none(alloc))?;
    let mut heading = Heading::new(alloc);
    heading.count(record.columns.len(), record.rows.len())?;
    Ok(write(alloc, &record, &heading)?)
}

/// The picture of the run of a file, of which this is the name and this the text that the scenario
/// was read from: as `draw_text`, with the first line of the comment at its head as a title, up to
/// the end of a sentence; below that the last component of the name; and the comments at the steps.
/// An error comes only if there is no memory.
pub fn draw_file(
    alloc: Global,
    name: &str,
    text: &str,
    scenario: &RunScenario,
) -> Result<String, Fault>
    ensures { IfErr result (λ fault. fault ≡ NoMemory) }
{
    let record = record(alloc, scenario, comments_of(alloc, text)?)?;
    let mut heading = Heading::new(alloc);
    heading.describe(name, text, record.columns.len(), record.rows.len())?;
    Ok(write(alloc, &record, &heading)?)
}
