//! Records a run: opens a machine, makes the steps, and lists what stands where in its picture.

ghost use Rattle.std.specs.Prelude.{◌≡◌, ◌+◌, IfErr, IfOk, OnOk, vec_len};
ghost use Rattle.files.specs.declared.fault.Fault.TheVariants.{NoMemory};

use crate::columns::{columns_of, labels_end};
use crate::comments::Comments;
use crate::owners::{Mapping, find_owners};
use crate::record::{Message, Record, Row, Span, StaleHit, Switch};
use crate::recorder::{Doing, Flight, Held, OpenOrder, Track};
use crate::sheet::Sheet;
use crate::step_words::{hart_of, push_mapping};
use files::{Fault, RunScenario};
use shoot::HartSet;
use spaces::{OpenFault, Place};
use stale::{
    BecameStale, StaleAt, StaleItem, StaleUse, may_end_stale, may_end_stale_at, step_stale,
};
use std::alloc::{AllocError, Global};
use stepcore::{Event, Machine, Reply};
use tlb::Entry;

/// A run while it is recorded: what is open, and what has ended.
#[derive(Drop)]
struct Recorder {
    tracks: Vec<Track>,
    record: Record,
    /// A label that is measured.
    scratch: String,
}

/// The harts that a step names which opens an order; all, if it has no such word.
fn named_by(event: &Event) -> HartSet {
    match *event {
        Event::Unmap { named, .. } | Event::Protect { named, .. } => HartSet::from(named),
        _ => HartSet::from(u8::MAX),
    }
}

/// The youngest entry of a hart's TLB.
fn youngest(machine: &Machine, hart: u8) -> Option<Entry> {
    if hart >= machine.harts() {
        return None;
    }
    let tlb = machine.hart(hart).tlb();
    tlb.entry(tlb.len().checked_sub(1)?)
}

impl Recorder {
    fn new(
        alloc: Global,
        harts: u8,
        steps: usize,
        comments: Comments,
    ) -> Result<Recorder, AllocError>
        ensures { IfOk result (λ recorder. vec_len recorder.«record».rows ≡ 0) }
    {
        let mut tracks = Vec::new(alloc);
        for _ in 0..harts {
            tracks.push(Track::new(alloc))?;
        }
        Ok(Recorder {
            tracks,
            record: Record {
                columns: Vec::new(alloc),
                labels_end: 0,
                rows: Vec::with_capacity(alloc, steps)?,
                sheet: Sheet::new(alloc, harts, comments)?,
                bars: Vec::new(alloc),
                arrows: Vec::new(alloc),
                hits: Vec::new(alloc),
                owners: Vec::new(alloc),
                switches: Vec::new(alloc),
            },
            scratch: String::new(alloc),
        })
    }

    /// Adds a row for a step, and its text.
    fn add_row(&mut self, row: u32, event: &Event, reply: Reply) -> Result<(), AllocError>
        ensures { OnOk result (vec_len self.new.«record».rows ≡ vec_len self.old.«record».rows + 1) }
    {
        let is_hit = match self.record.hits.as_slice().last() {
            Some(hit) => hit.row == row,
            None => false,
        };
        let line = self.record.sheet.add(row, event, reply, is_hit)?;
        let hart = hart_of(event);
        Ok(self.record.rows.push(Row { hart, line })?)
    }

    /// A walk or a service begins.
    fn begin(&mut self, hart: u8, span: Span, first: u32)
        ensures { self.new.«record».rows ≡ self.old.«record».rows }
    {
        if let Some(track) = self.tracks.get_mut(usize::from(hart)) {
            track.doing = Some(Doing { span, first });
        }
    }

    /// A walk or a service ends.
    fn end(&mut self, hart: u8, last: u32) -> Result<(), AllocError>
        ensures { self.new.«record».rows ≡ self.old.«record».rows }
    {
        match self.tracks.get_mut(usize::from(hart)) {
            Some(track) => track.end_doing(hart, last, true, &mut self.record.bars),
            None => Ok(()),
        }
    }

    /// A message leaves for a hart.
    fn send(&mut self, receiver: u8, flight: Flight) -> Result<(), AllocError>
        ensures { self.new.«record».rows ≡ self.old.«record».rows }
    {
        match self.tracks.get_mut(usize::from(receiver)) {
            Some(track) => track.flights.open(flight, flight.first),
            None => Ok(()),
        }
    }

    /// A message arrives at a hart.
    fn receive(
        &mut self,
        receiver: u8,
        message: Message,
        sender: u8,
        ticket: u32,
        row: u32,
    ) -> Result<(), AllocError>
        ensures { self.new.«record».rows ≡ self.old.«record».rows }
    {
        match self.tracks.get_mut(usize::from(receiver)) {
            Some(track) => track.arrive(
                message,
                sender,
                receiver,
                ticket,
                row,
                &mut self.record.arrows,
            ),
            None => Ok(()),
        }
    }

    /// A hart takes a request.
    fn take(&mut self, hart: u8, from: u8, ticket: u32, row: u32) -> Result<(), AllocError>
        ensures { self.new.«record».rows ≡ self.old.«record».rows }
    {
        self.receive(hart, Message::Request, from, ticket, row)?;
        if let Some(track) = self.tracks.get_mut(usize::from(hart)) {
            track.serves = Some((from, ticket));
        }
        self.begin(hart, Span::Service, row);
        Ok(())
    }

    /// A hart acknowledges what it serves.
    fn acknowledge(&mut self, hart: u8, row: u32) -> Result<(), AllocError>
        ensures { self.new.«record».rows ≡ self.old.«record».rows }
    {
        let served = match self.tracks.get(usize::from(hart)) {
            Some(track) => track.serves,
            None => None,
        };
        self.end(hart, row)?;
        match served {
            Some((to, ticket)) => self.send(
                to,
                Flight {
                    message: Message::Acknowledgement,
                    sender: hart,
                    ticket,
                    first: row,
                },
            ),
            None => Ok(()),
        }
    }

    /// An order opens.
    fn open_order(&mut self, hart: u8, ticket: u32, first: u32) -> Result<(), AllocError>
        ensures { self.new.«record».rows ≡ self.old.«record».rows }
    {
        match self.tracks.get_mut(usize::from(hart)) {
            Some(track) => track.orders.open(
                OpenOrder {
                    ticket,
                    first,
                    done: None,
                },
                first,
            ),
            None => Ok(()),
        }
    }

    /// An order is done, if the reply says so.
    fn progress(&mut self, hart: u8, ticket: u32, reply: &Reply, row: u32)
        ensures { self.new.«record».rows ≡ self.old.«record».rows }
    {
        if matches!(reply, Reply::Done) {
            if let Some(track) = self.tracks.get_mut(usize::from(hart)) {
                track.mark_done(ticket, row);
            }
        }
    }

    /// An order ends.
    fn finish(&mut self, hart: u8, ticket: u32, row: u32) -> Result<(), AllocError>
        ensures { self.new.«record».rows ≡ self.old.«record».rows }
    {
        match self.tracks.get_mut(usize::from(hart)) {
            Some(track) => track.finish(hart, ticket, row, &mut self.record.bars),
            None => Ok(()),
        }
    }

    /// Records an access that was not refused: a walk begins, goes on or ends.
    fn note_access(
        &mut self,
        row: u32,
        hart: u8,
        is_begin: bool,
        reply: &Reply,
    ) -> Result<(), AllocError>
        ensures { self.new.«record».rows ≡ self.old.«record».rows }
    {
        let goes_on = matches!(reply, Reply::More);
        if is_begin && goes_on {
            self.begin(hart, Span::Walk, row);
        }
        if !is_begin && !goes_on {
            return self.end(hart, row);
        }
        Ok(())
    }

    /// Records a step by which a request or an order goes on, and that was not refused.
    fn note_protocol(&mut self, row: u32, event: &Event, reply: &Reply) -> Result<(), AllocError>
        ensures { self.new.«record».rows ≡ self.old.«record».rows }
    {
        match *event {
            Event::Post { hart, ticket, to } => self.send(
                to,
                Flight {
                    message: Message::Request,
                    sender: hart,
                    ticket,
                    first: row,
                },
            ),
            Event::Take { hart, from } => match *reply {
                Reply::Taken(request) => self.take(hart, from, request.ticket, row),
                _ => Ok(()),
            },
            Event::Ack { hart } => self.acknowledge(hart, row),
            Event::AckSelf { hart, ticket } => {
                self.progress(hart, ticket, reply, row);
                Ok(())
            }
            Event::Collect { hart, ticket, from } => {
                self.progress(hart, ticket, reply, row);
                self.receive(hart, Message::Acknowledgement, from, ticket, row)
            }
            Event::Finish { hart, ticket } => self.finish(hart, ticket, row),
            _ => Ok(()),
        }
    }

    /// Records a step that was not refused.
    fn note(&mut self, row: u32, event: &Event, reply: &Reply) -> Result<(), AllocError>
        ensures { self.new.«record».rows ≡ self.old.«record».rows }
    {
        if let Reply::Opened(ticket) = *reply {
            return self.open_order(hart_of(event), ticket, row);
        }
        match *event {
            Event::Begin { hart, .. } => self.note_access(row, hart, true, reply),
            Event::Load { hart } => self.note_access(row, hart, false, reply),
            _ => self.note_protocol(row, event, reply),
        }
    }

    /// Ends the bars of mappings that are stale no more after a step: only TLBs of which the step
    /// can end one are asked.
    fn note_drops(
        &mut self,
        machine: &Machine,
        row: u32,
        event: &Event,
        reply: &Reply,
    ) -> Result<(), AllocError>
        ensures { self.new.«record».rows ≡ self.old.«record».rows }
    {
        let mut hart: u8 = 0;
        for track in self.tracks.as_mut_slice() {
            if may_end_stale_at(event, reply, hart) {
                track.drop_over(machine, hart, row, &mut self.record.bars)?;
            }
            hart = hart.saturating_add(1);
        }
        Ok(())
    }

    /// Remembers the entry that a step filled.
    fn note_fill(&mut self, machine: &Machine, row: u32, event: &Event, reply: &Reply)
        ensures { self.new.«record».rows ≡ self.old.«record».rows }
    {
        if !matches!(reply, Reply::Filled(_)) {
            return;
        }
        let hart = hart_of(event);
        if let Some(track) = self.tracks.get_mut(usize::from(hart)) {
            if let Some(entry) = youngest(machine, hart) {
                track.fills.add(entry, row);
            }
        }
    }

    /// Begins a bar for a mapping that became stale, if it has none.
    fn note_becoming(
        &mut self,
        row: u32,
        event: &Event,
        became: &BecameStale,
    ) -> Result<(), AllocError>
        ensures { self.new.«record».rows ≡ self.old.«record».rows }
    {
        let Some(track) = self.tracks.get_mut(usize::from(became.hart)) else {
            return Ok(());
        };
        if track
            .stale_lane(&became.entry, became.page.base())
            .is_some()
        {
            return Ok(());
        }
        let valid = track.fills.valid_since(&became.entry);
        let is_named = named_by(event).contains(became.hart);
        let held = Held::new(became.entry, became.page, row, valid, is_named);
        self.scratch.clear();
        push_mapping(&mut self.scratch, held.page, held.ppn(), is_named)?;
        track.label = track.label.max(self.scratch.len());
        track.stale.open(held, valid.unwrap_or(row))
    }

    /// Marks an access that was answered by a stale mapping.
    fn note_hit(&mut self, row: u32, used: &StaleUse) -> Result<(), AllocError>
        ensures { self.new.«record».rows ≡ self.old.«record».rows }
    {
        let lane = match self.tracks.get(usize::from(used.hart)) {
            Some(track) => track.stale_lane(&used.entry, used.va),
            None => None,
        };
        Ok(
            self.record.hits.push(StaleHit {
                row,
                hart: used.hart,
                lane,
            })?,
        )
    }

    /// Records what a step did with stale mappings.
    fn note_items(&mut self, row: u32, event: &Event, items: &[StaleAt]) -> Result<(), AllocError>
        ensures { self.new.«record».rows ≡ self.old.«record».rows }
    {
        for at in items {
            match &at.item {
                StaleItem::Became(became) => self.note_becoming(row, event, became)?,
                StaleItem::Used(used) => self.note_hit(row, used)?,
            }
        }
        Ok(())
    }

    /// Records a step that is made: a leaf is stored, or a hart goes to another space.
    fn note_place(
        &mut self,
        machine: &Machine,
        row: u32,
        event: &Event,
        reply: &Reply,
    ) -> Result<(), AllocError>
        ensures { self.new.«record».rows ≡ self.old.«record».rows }
    {
        match *event {
            Event::Map {
                place,
                page,
                ppn,
                ..
            } if matches!(reply, Reply::Leaf) => {
                let asid = match place {
                    Place::Space(space) => machine.asid_of_space(space),
                    Place::Kernel => None,
                };
                let mapping = Mapping { asid, page, ppn };
                find_owners(
                    self.tracks.as_slice(),
                    row,
                    &mapping,
                    &mut self.record.owners,
                )
            }
            Event::Switch { hart, space } => {
                Ok(self.record.switches.push(Switch { row, hart, space })?)
            }
            _ => Ok(()),
        }
    }

    /// Makes a step, and records it.
    fn step(
        &mut self,
        machine: &mut Machine,
        row: u32,
        event: &Event,
        items: &mut Vec<StaleAt>,
    ) -> Result<(), AllocError>
        ensures { OnOk result (vec_len self.new.«record».rows ≡ vec_len self.old.«record».rows + 1) }
    {
        items.clear();
        let reply = step_stale(machine, *event, row as usize, items)?;
        if !matches!(reply, Reply::Refused(_)) {
            self.note(row, event, &reply)?;
            self.note_fill(machine, row, event, &reply);
            self.note_items(row, event, items.as_slice())?;
            if may_end_stale(event, &reply) {
                self.note_drops(machine, row, event, &reply)?;
            }
            self.note_place(machine, row, event, &reply)?;
        }
        self.add_row(row, event, reply)
    }

    /// Ends all that is open, and lays out the columns.
    fn close(mut self, alloc: Global, rows: u32) -> Result<Record, AllocError>
        ensures { IfOk result (λ closed. closed.rows ≡ self.«record».rows) }
    {
        self.record.sheet.close(rows)?;
        let last = rows.saturating_sub(1);
        let mut hart: u8 = 0;
        for track in self.tracks.as_mut_slice() {
            track.end_all(hart, last, &mut self.record.bars, &mut self.record.arrows)?;
            hart = hart.saturating_add(1);
        }
        self.record.columns = columns_of(alloc, self.tracks.as_slice(), &self.record.sheet)?;
        self.record.labels_end = labels_end(self.tracks.as_slice(), self.record.columns.as_slice());
        Ok(self.record)
    }
}

/// Opens the machine of a scenario.
fn open(alloc: Global, scenario: &RunScenario) -> Result<Machine, Fault>
    ensures { IfErr result (λ fault. fault ≡ NoMemory) }
{
    match Machine::open(alloc, &scenario.config) {
        Ok(machine) => Ok(machine),
        Err(OpenFault::NoMemory) => Err(Fault::NoMemory),
        Err(OpenFault::BadLayout) => Err(Fault::Layout),
    }
}

/// Makes the steps of a scenario, and records them with the comments at them: a row for each step.
pub fn record(alloc: Global, scenario: &RunScenario, comments: Comments) -> Result<Record, Fault>
    ensures rows { IfOk result (λ made. vec_len made.rows ≡ vec_len scenario.now.events) }
    ensures error { IfErr result (λ fault. fault ≡ NoMemory) }
{
    let mut machine = open(alloc, scenario)?;
    let mut recorder = Recorder::new(alloc, machine.harts(), scenario.events.len(), comments)?;
    let mut items = Vec::new(alloc);
    let mut row: u32 = 0;
    for event in scenario.events.as_slice() {
        recorder.step(&mut machine, row, event, &mut items)?;
        row = row.saturating_add(1);
    }
    Ok(recorder.close(alloc, row)?)
}
