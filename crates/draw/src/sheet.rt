//! The lines of a picture while they are recorded: a line a step, but a walk goes on in its line as
//! long as no other hart makes a step, and a line for the comments before a step.

use crate::comments::{At, Comments};
use crate::record::{Line, LineKind};
use crate::step_words::{hart_of, push_steps};
use std::alloc::{AllocError, Global};
use stepcore::{Event, Reply};

/// A line that may go on: its first step, and its last row and reply.
#[derive(Clone, Copy)]
struct OpenLine {
    event: Event,
    reply: Reply,
    first: u32,
    last: u32,
    /// Whether a stale mapping answered the step.
    is_hit: bool,
}

impl OpenLine {
    /// Whether a step goes on with the walk of the line.
    fn goes_on(&self, event: &Event) -> bool {
        match *event {
            Event::Load { hart } => {
                matches!(self.reply, Reply::More) && hart == hart_of(&self.event)
            }
            _ => false,
        }
    }
}

/// The kind of the line of a step.
fn kind_of(reply: Reply, is_hit: bool) -> LineKind {
    match reply {
        Reply::Refused(_) => LineKind::RefusedStep,
        _ if is_hit => LineKind::HitStep,
        _ => LineKind::Step,
    }
}

/// The lines so far, their texts, and how many characters the longest text of each hart has.
#[derive(Drop)]
pub struct Sheet {
    pub lines: Vec<Line>,
    /// The texts of the lines, one after the other, each with the comment behind it.
    pub texts: String,
    widths: Vec<usize>,
    open: Option<OpenLine>,
    /// The comments behind the steps of that line.
    remark: String,
    comments: Comments,
    /// A comment that was taken.
    scratch: String,
}

impl Sheet {
    /// No line of a run with these comments.
    pub fn new(alloc: Global, harts: u8, comments: Comments) -> Result<Sheet, AllocError> {
        let mut widths = Vec::new(alloc);
        for _ in 0..harts {
            widths.push(0)?;
        }
        Ok(Sheet {
            lines: Vec::new(alloc),
            texts: String::new(alloc),
            widths,
            open: None,
            remark: String::new(alloc),
            comments,
            scratch: String::new(alloc),
        })
    }

    /// How many characters the longest text of a hart has.
    pub fn width(&self, hart: u8) -> usize {
        match self.widths.get(usize::from(hart)) {
            Some(width) => *width,
            None => 0,
        }
    }

    /// The line that may go on, if a step goes on with it.
    fn going_on(&self, event: &Event) -> Option<OpenLine> {
        let open = self.open?;
        if open.goes_on(event) {
            Some(open)
        } else {
            None
        }
    }

    /// Adds a step, which a stale mapping answered or not, and answers the line in which it is drawn.
    pub fn add(
        &mut self,
        row: u32,
        event: &Event,
        reply: Reply,
        is_hit: bool,
    ) -> Result<u32, AllocError> {
        let mut open = OpenLine {
            event: *event,
            reply,
            first: row,
            last: row,
            is_hit,
        };
        self.scratch.clear();
        let has_note = self.comments.take(row, At::Before, &mut self.scratch)?;
        match self.going_on(event) {
            Some(line) if !has_note => {
                open.event = line.event;
                open.first = line.first;
            }
            _ => {
                self.close_line()?;
                self.add_note(row)?;
            }
        }
        self.take_remark(row)?;
        self.open = Some(open);
        Ok(u32::try_from(self.lines.len()).unwrap_or(u32::MAX))
    }

    /// Adds a line with the comment that was taken, if it has words.
    fn add_note(&mut self, row: u32) -> Result<(), AllocError> {
        if self.scratch.is_empty() {
            return Ok(());
        }
        self.texts.push_str(self.scratch.as_str())?;
        Ok(
            self.lines.push(Line {
                kind: LineKind::Note,
                hart: 0,
                first: row,
                last: row,
                length: self.scratch.len(),
                remark: 0,
            })?,
        )
    }

    /// Takes the comment behind the step of a row.
    fn take_remark(&mut self, row: u32) -> Result<(), AllocError> {
        self.scratch.clear();
        if !self.comments.take(row, At::Behind, &mut self.scratch)? {
            return Ok(());
        }
        if !self.remark.is_empty() {
            self.remark.push_str("; ")?;
        }
        self.remark.push_str(self.scratch.as_str())
    }

    /// Adds what is left after the last step, which is before this row.
    pub fn close(&mut self, row: u32) -> Result<(), AllocError> {
        self.close_line()?;
        self.scratch.clear();
        self.comments.take(row, At::Before, &mut self.scratch)?;
        self.add_note(row)
    }

    /// Adds the line that may go on.
    fn close_line(&mut self) -> Result<(), AllocError> {
        let Some(open) = self.open else {
            return Ok(());
        };
        self.open = None;
        let start = self.texts.len();
        let loads = open.last.saturating_sub(open.first);
        push_steps(&mut self.texts, &open.event, loads, open.reply)?;
        let length = self.texts.len().saturating_sub(start);
        let remark = self.remark.len();
        self.texts.push_str(self.remark.as_str())?;
        self.remark.clear();
        let hart = hart_of(&open.event);
        if let Some(width) = self.widths.get_mut(usize::from(hart)) {
            *width = (*width).max(length);
        }
        Ok(
            self.lines.push(Line {
                kind: kind_of(open.reply, open.is_hit),
                hart,
                first: open.first,
                last: open.last,
                length,
                remark,
            })?,
        )
    }
}
