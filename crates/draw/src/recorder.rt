//! What is open while a run is recorded, hart by hart.

use crate::fills::Fills;
use crate::lanes::Lanes;
use crate::layout::{CHAR_WIDTH, Column};
use crate::record::{Arrow, Bar, Message, Span};
use pte::{PAGE_BYTES, Page, VirtAddr};
use stale::stale_page;
use std::alloc::{AllocError, Global};
use stepcore::Machine;
use tlb::Entry;

/// A walk or a service that goes on.
#[derive(Clone, Copy)]
pub struct Doing {
    pub span: Span,
    pub first: u32,
}

/// A message that is under way to a hart.
#[derive(Clone, Copy)]
pub struct Flight {
    pub message: Message,
    pub sender: u8,
    pub ticket: u32,
    pub first: u32,
}

/// An order that is open, and since when it is done.
#[derive(Clone, Copy)]
pub struct OpenOrder {
    pub ticket: u32,
    pub first: u32,
    pub done: Option<u32>,
}

/// A stale mapping that a TLB holds: an entry, and the page of it that is stale.
#[derive(Clone, Copy)]
pub struct Held {
    pub entry: Entry,
    pub page: Page,
    pub first: u32,
    /// Since which row the TLB held it and it was valid.
    pub valid: Option<u32>,
    /// Whether the order for it names the hart.
    pub is_named: bool,
    /// The number of the page of 4 KiB that was found to be stale last.
    pub found: u64,
}

impl Held {
    /// What a TLB holds by an entry since it became stale in a page.
    pub fn new(entry: Entry, page: Page, first: u32, valid: Option<u32>, is_named: bool) -> Held {
        Held {
            entry,
            page,
            first,
            valid,
            is_named,
            found: page.base().get() / PAGE_BYTES,
        }
    }

    /// The PPN that the entry has for the page.
    pub fn ppn(&self) -> u64 {
        self.ppn_of(&self.page)
    }

    /// The PPN that the entry has for a page in its own.
    pub fn ppn_of(&self, page: &Page) -> u64 {
        let bytes = page
            .base()
            .get()
            .saturating_sub(self.entry.page.base().get());
        self.entry.ppn.saturating_add(bytes / PAGE_BYTES)
    }
}

/// What is open of one hart.
#[derive(Drop)]
pub struct Track {
    pub doing: Option<Doing>,
    /// The hart and the ticket of the request that it serves.
    pub serves: Option<(u8, u32)>,
    pub flights: Lanes<Flight>,
    pub orders: Lanes<OpenOrder>,
    pub stale: Lanes<Held>,
    pub fills: Fills,
    /// How many characters the longest label of its stale mappings has.
    pub label: usize,
}

/// How many characters of texts and labels a column has room for at most. Longer ones run over what
/// is right of them.
#[derive(Clone, Copy)]
pub struct Room {
    pub characters: u16,
    pub label: u16,
}

/// A number of characters, as far as it can be.
fn short(length: usize) -> u16 {
    u16::try_from(length).unwrap_or(u16::MAX)
}

impl Track {
    /// A hart of which nothing is open.
    pub fn new(alloc: Global) -> Track {
        Track {
            doing: None,
            serves: None,
            flights: Lanes::new(alloc),
            orders: Lanes::new(alloc),
            stale: Lanes::new(alloc),
            fills: Fills::new(),
            label: 0,
        }
    }

    /// The column that has room for all that was open, and for this many characters of texts and
    /// labels, if they have as many.
    pub fn column(&self, left: u32, characters: usize, room: Room) -> Column {
        Column {
            left,
            flights: self.flights.count(),
            orders: self.orders.count(),
            characters: short(characters).min(room.characters),
            stale: self.stale.count(),
            label: short(self.label).min(room.label),
        }
    }

    /// How wide the longest label of its stale mappings is.
    pub fn label_width(&self) -> u64 {
        u64::from(short(self.label)) * CHAR_WIDTH
    }

    /// The lane of the message that has been under way longest, from a hart and, for an
    /// acknowledgement, of a ticket.
    fn lane_of(&self, message: Message, sender: u8, ticket: u32) -> Option<u16> {
        let mut found: Option<(u16, u32)> = None;
        for lane in 0..self.flights.count() {
            if let Some(flight) = self.flights.get(lane) {
                let fits = flight.message == message
                    && flight.sender == sender
                    && (message == Message::Request || flight.ticket == ticket);
                let is_older = match found {
                    Some((_, first)) => flight.first < first,
                    None => true,
                };
                if fits && is_older {
                    found = Some((lane, flight.first));
                }
            }
        }
        found.map(|(lane, _)| lane)
    }

    /// Ends the message that has been under way longest.
    pub fn arrive(
        &mut self,
        message: Message,
        sender: u8,
        receiver: u8,
        ticket: u32,
        last: u32,
        arrows: &mut Vec<Arrow>,
    ) -> Result<(), AllocError> {
        let Some(lane) = self.lane_of(message, sender, ticket) else {
            return Ok(());
        };
        self.land(receiver, lane, last, true, arrows)
    }

    /// Ends the message in a lane.
    fn land(
        &mut self,
        receiver: u8,
        lane: u16,
        last: u32,
        has_end: bool,
        arrows: &mut Vec<Arrow>,
    ) -> Result<(), AllocError> {
        let Some(flight) = self.flights.get(lane) else {
            return Ok(());
        };
        self.flights.close(lane, last);
        Ok(arrows.push(Arrow {
            message: flight.message,
            sender: flight.sender,
            receiver,
            lane,
            first: flight.first,
            last,
            has_end,
        })?)
    }

    /// Ends the walk or the service.
    pub fn end_doing(
        &mut self,
        hart: u8,
        last: u32,
        has_end: bool,
        bars: &mut Vec<Bar>,
    ) -> Result<(), AllocError> {
        let Some(doing) = self.doing else {
            return Ok(());
        };
        self.doing = None;
        Ok(bars.push(Bar {
            span: doing.span,
            hart,
            lane: 0,
            first: doing.first,
            last,
            has_end,
        })?)
    }

    /// The lane of an order.
    fn order_lane(&self, ticket: u32) -> Option<u16> {
        for lane in 0..self.orders.count() {
            if let Some(order) = self.orders.get(lane) {
                if order.ticket == ticket {
                    return Some(lane);
                }
            }
        }
        None
    }

    /// An order is done from a row on, unless it was before.
    pub fn mark_done(&mut self, ticket: u32, row: u32) {
        let Some(lane) = self.order_lane(ticket) else {
            return;
        };
        if let Some(order) = self.orders.get(lane) {
            if order.done.is_none() {
                self.orders.set(
                    lane,
                    OpenOrder {
                        ticket: order.ticket,
                        first: order.first,
                        done: Some(row),
                    },
                );
            }
        }
    }

    /// Ends an order.
    pub fn finish(
        &mut self,
        hart: u8,
        ticket: u32,
        last: u32,
        bars: &mut Vec<Bar>,
    ) -> Result<(), AllocError> {
        let Some(lane) = self.order_lane(ticket) else {
            return Ok(());
        };
        self.end_order(hart, lane, last, true, bars)
    }

    fn end_order(
        &mut self,
        hart: u8,
        lane: u16,
        last: u32,
        has_end: bool,
        bars: &mut Vec<Bar>,
    ) -> Result<(), AllocError> {
        let Some(order) = self.orders.get(lane) else {
            return Ok(());
        };
        self.orders.close(lane, last);
        Ok(bars.push(Bar {
            span: Span::Order {
                ticket: order.ticket,
                done: order.done,
            },
            hart,
            lane,
            first: order.first,
            last,
            has_end,
        })?)
    }

    /// The lane of a stale mapping of an entry that has an address.
    pub fn stale_lane(&self, entry: &Entry, va: VirtAddr) -> Option<u16> {
        for lane in 0..self.stale.count() {
            if let Some(held) = self.stale.get(lane) {
                if held.entry == *entry && held.page.contains(va) {
                    return Some(lane);
                }
            }
        }
        None
    }

    /// Ends the stale mapping in a lane.
    pub fn end_stale(
        &mut self,
        hart: u8,
        lane: u16,
        last: u32,
        has_end: bool,
        bars: &mut Vec<Bar>,
    ) -> Result<(), AllocError> {
        let Some(held) = self.stale.get(lane) else {
            return Ok(());
        };
        self.stale.close(lane, last);
        self.fills.restore(&held.entry, last);
        Ok(bars.push(Bar {
            span: Span::Stale {
                page: held.page,
                ppn: held.ppn(),
                valid: held.valid,
                is_named: held.is_named,
            },
            hart,
            lane,
            first: held.first,
            last,
            has_end,
        })?)
    }

    /// Ends the stale mapping in a lane, if it is stale no more.
    fn drop_lane(
        &mut self,
        machine: &Machine,
        hart: u8,
        lane: u16,
        row: u32,
        bars: &mut Vec<Bar>,
    ) -> Result<(), AllocError> {
        let Some(mut held) = self.stale.get(lane) else {
            return Ok(());
        };
        match stale_page(machine, hart, &held.entry, &held.page, held.found) {
            Some(number) => {
                held.found = number;
                self.stale.set(lane, held);
                Ok(())
            }
            None => self.end_stale(hart, lane, row, true, bars),
        }
    }

    /// Ends the mappings that are stale no more after a step.
    pub fn drop_over(
        &mut self,
        machine: &Machine,
        hart: u8,
        row: u32,
        bars: &mut Vec<Bar>,
    ) -> Result<(), AllocError> {
        for lane in 0..self.stale.count() {
            self.drop_lane(machine, hart, lane, row, bars)?;
        }
        Ok(())
    }

    /// Ends all that is open, since the run ends.
    pub fn end_all(
        &mut self,
        hart: u8,
        last: u32,
        bars: &mut Vec<Bar>,
        arrows: &mut Vec<Arrow>,
    ) -> Result<(), AllocError> {
        self.end_doing(hart, last, false, bars)?;
        for lane in 0..self.orders.count() {
            self.end_order(hart, lane, last, false, bars)?;
        }
        for lane in 0..self.stale.count() {
            self.end_stale(hart, lane, last, false, bars)?;
        }
        for lane in 0..self.flights.count() {
            self.land(hart, lane, last, false, arrows)?;
        }
        Ok(())
    }
}
