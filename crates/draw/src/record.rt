//! What is recorded of a run: bars, arrows and marks, by harts, rows and lanes.

ghost use Rattle.std.specs.Prelude.{◌<◌, ◌^◌};

use crate::layout::{CHAR_WIDTH, Column};
use crate::legend::Kind;
use crate::sheet::Sheet;
use pte::Page;

/// How far behind the text of a step the comment on its line begins.
const REMARK_GAP: u64 = 14;

/// What a bar stands for.
#[derive(Clone, Copy)]
pub enum Span {
    /// A walk, from its begin to its end.
    Walk,
    /// The service of a request, from take to acknowledgement.
    Service,
    /// An order, from opened to finished, and the row from which on it is done.
    Order {
        ticket: u32,
        done: Option<u32>,
    },
    /// A mapping that a TLB holds while the tables do not map it so.
    Stale {
        page: Page,
        /// The PPN for the page.
        ppn: u64,
        /// The row since which the TLB held it and it was valid.
        valid: Option<u32>,
        /// Whether the order that the step opened which made it stale names the hart.
        is_named: bool,
    },
}

/// A bar in the column of a hart, from one row to another, both included.
#[derive(Clone, Copy)]
pub struct Bar {
    pub span: Span,
    pub hart: u8,
    pub lane: u16,
    pub first: u32,
    pub last: u32,
    /// Whether it ended there: else the run ended before it.
    pub has_end: bool,
}

impl Bar {
    /// Whether it, or a line at it, is of a kind.
    pub fn shows(&self, kind: Kind) -> bool {
        match self.span {
            Span::Walk => kind == Kind::Walk,
            Span::Service => kind == Kind::Service,
            Span::Order { .. } => kind == Kind::Order,
            Span::Stale { valid, .. } => match kind {
                Kind::Stale => true,
                Kind::Life => valid.is_some(),
                Kind::End => self.has_end,
                _ => false,
            },
        }
    }
}

/// What goes from one hart to another.
#[derive(Clone, Copy, PartialEq, Eq)]
pub enum Message {
    /// A request, from post to take.
    Request,
    /// An acknowledgement, from there to its collect.
    Acknowledgement,
}

/// A message, from the row and hart that it leaves to those at which it arrives.
#[derive(Clone, Copy)]
pub struct Arrow {
    pub message: Message,
    pub sender: u8,
    pub receiver: u8,
    pub lane: u16,
    pub first: u32,
    pub last: u32,
    /// Whether it arrived: else the run ended before that.
    pub has_end: bool,
}

/// An access that was answered by a stale mapping.
#[derive(Clone, Copy)]
pub struct StaleHit {
    pub row: u32,
    pub hart: u8,
    /// The lane of the mapping's bar, if it has one.
    pub lane: Option<u16>,
}

/// A step: its hart, and the line in which it is drawn, counted from 0.
#[derive(Clone, Copy)]
pub struct Row {
    pub hart: u8,
    pub line: u32,
}

/// A step that maps a frame which a TLB can reach by a stale mapping, in another place.
#[derive(Clone, Copy)]
pub struct SecondOwner {
    pub row: u32,
    /// The hart of that TLB, and the lane of the mapping's bar.
    pub hart: u8,
    pub lane: u16,
}

/// A step by which a hart goes to another space.
#[derive(Clone, Copy)]
pub struct Switch {
    pub row: u32,
    pub hart: u8,
    pub space: u8,
}

/// What a line of the picture has.
#[derive(Clone, Copy, PartialEq, Eq)]
pub enum LineKind {
    /// A comment before its first row.
    Note,
    Step,
    RefusedStep,
    /// An access that was answered by a stale mapping.
    HitStep,
}

/// A line of the picture: the steps of a hart from one row to another, how many characters their
/// text has, and how many the comment behind it.
#[derive(Clone, Copy)]
pub struct Line {
    pub kind: LineKind,
    pub hart: u8,
    pub first: u32,
    pub last: u32,
    pub length: usize,
    pub remark: usize,
}

impl Line {
    /// How many characters its text has, as far as a column can be wide.
    pub fn characters(&self) -> u16 {
        u16::try_from(self.length).unwrap_or(u16::MAX)
    }

    /// Where the text ends.
    pub fn text_end(&self, column: &Column) -> u64
        ensures bound { result < 2 ^ 42 }
    {
        column.text_end(self.characters())
    }

    /// Where the comment behind the text begins: behind the column, if a line goes to a bar in it.
    pub fn remark_x(&self, column: &Column) -> u64
        ensures bound { result < 2 ^ 62 }
    {
        let behind = self.text_end(column) + REMARK_GAP;
        if self.kind == LineKind::HitStep {
            behind.max(column.right() + 6)
        } else {
            behind
        }
    }

    /// Where the text ends, with the comment behind it.
    pub fn end_x(&self, column: &Column) -> u64
        ensures bound { result < 2 ^ 63 }
    {
        if self.remark == 0 {
            return self.text_end(column);
        }
        let characters = u16::try_from(self.remark).unwrap_or(u16::MAX);
        self.remark_x(column) + u64::from(characters) * CHAR_WIDTH
    }
}

/// A run as it was recorded. Bars, arrows and hits are in the order in which they ended, second
/// owners and switches in that of their rows.
#[derive(Drop)]
pub struct Record {
    pub columns: Vec<Column>,
    /// Where the labels of bars end on the right.
    pub labels_end: u64,
    pub rows: Vec<Row>,
    pub sheet: Sheet,
    pub bars: Vec<Bar>,
    pub arrows: Vec<Arrow>,
    pub hits: Vec<StaleHit>,
    pub owners: Vec<SecondOwner>,
    pub switches: Vec<Switch>,
}

impl Record {
    /// How many lines there are.
    pub fn line_count(&self) -> u32 {
        u32::try_from(self.sheet.lines.len()).unwrap_or(u32::MAX)
    }

    /// The line in which a row is drawn.
    pub fn line(&self, row: u32) -> u32 {
        match self.rows.get(row as usize) {
            Some(row) => row.line,
            None => 0,
        }
    }

    /// The line with the step of a row, and the column of the hart that makes it.
    pub fn text_of(&self, row: u32) -> Option<(&Line, &Column)> {
        let step = self.rows.get(row as usize)?;
        let line = self.sheet.lines.get(step.line as usize)?;
        let column = self.columns.get(usize::from(step.hart))?;
        Some((line, column))
    }

    /// Whether the picture has a shape of a kind.
    pub fn has(&self, kind: Kind) -> bool {
        match kind {
            Kind::Request => self.has_message(Message::Request),
            Kind::Acknowledgement => self.has_message(Message::Acknowledgement),
            Kind::Hit => !self.hits.is_empty(),
            Kind::SecondOwner => !self.owners.is_empty(),
            Kind::Space => !self.switches.is_empty(),
            _ => self.bars.iter().any(|bar| bar.shows(kind)),
        }
    }

    fn has_message(&self, message: Message) -> bool {
        self.arrows.iter().any(|arrow| arrow.message == message)
    }
}
