//! What a hart knows. No value of these types is made.

use pte::{Page, What};
use spaces::{Config, Place};
use std::collections::LinkedList;
use tlb::Entry;
use walk::Walk;

/// A word that a walk's load found.
pub struct Read {
    /// The PPN of the table.
    pub table: u64,
    /// The index of the word in its table.
    pub index: u64,
    /// The word.
    pub word: u64,
}

/// What an order follows.
pub enum Cause {
    /// A page of a place was unmapped.
    Unmapped(Place, Page),
    /// Anything else, after which harts drop this.
    Other(What),
}

/// An order, under a ticket.
pub struct Order {
    /// The number of the ticket, below 64.
    pub ticket: u64,
    /// What the order follows.
    pub cause: Cause,
    /// Whether a leaf was mapped over the page since.
    pub anew: bool,
    /// How many table words the hart had stored as the order began, with the one that it follows.
    pub since: u64,
    /// The harts whose cell was armed for it.
    pub armed: LinkedList<u64>,
    /// The harts that were collected.
    pub collected: LinkedList<u64>,
}

/// A step on a cell, which stands at an index among all words.
pub enum CellStep {
    /// A load of the cell found this word.
    Found(u64, u64),
    /// This word was stored to the cell.
    Stored(u64, u64),
}

/// What the seat of a hart knows.
pub struct View {
    /// The hart.
    pub hart: u64,
    /// What the board was opened with.
    pub config: Config,
    /// The next hart that gets a seat from this one, or 0.
    pub next: u64,
    /// The words of all frames, frame by frame: those at home as this hart left them, the others as
    /// at the opening.
    pub words: LinkedList<u64>,
    /// For which place each frame is in use as a spare one, frame by frame. Only this hart's are.
    pub holders: LinkedList<Option<Place>>,
    /// How many of the hart's spare frames are in use.
    pub used: u64,
    /// How many table words the hart stored.
    pub stores: u64,
    /// The words as they were at the opening and after each of these stores, the last ones first.
    pub versions: LinkedList<LinkedList<u64>>,
    /// The root of the last walk.
    pub root: u64,
    /// Where the last walk stands, if it has not ended.
    pub walk: Option<Walk>,
    /// The words that the last walk read, the first one first.
    pub reads: LinkedList<Read>,
    /// How many loads all walks made.
    pub loads: u64,
    /// What all walks filled, but for what was dropped.
    pub entries: LinkedList<Entry>,
    /// All orders of the hart, open or past, the last one first.
    pub orders: LinkedList<Order>,
    /// All steps that armed a cell, acknowledged or looked for an acknowledgement, the last one
    /// first.
    pub cell_steps: LinkedList<CellStep>,
}

/// What the shared words keep of a seat.
pub struct SeatView {
    /// What its hart knows.
    pub view: View,
    /// What the harts knew whose seats were gathered with this one.
    pub gathered: LinkedList<View>,
    /// What the hart knows whose seat is lent to this one.
    pub borrowed: Option<View>,
    /// Whether the seat was given up, to be gathered with another. It makes no step any more.
    pub is_given_up: bool,
    /// Whether the seat is lent. It makes no step until it is given back.
    pub is_lent: bool,
    /// Whether it is no seat of a hart, but a notice that one is lent.
    pub is_notice: bool,
}
