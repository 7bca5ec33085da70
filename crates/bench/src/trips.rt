//! Shootdowns between two harts, each in a thread of its own, and what bounds them.
//!
//! What goes there and back:
//!
//! - `rings`: hart 0 opens a ticket, posts its request to hart 1, serves it itself, and finishes it
//!   once hart 1 has served it too; hart 1 says so by posting the request back;
//! - `lock`: the same on a machine under one lock: hart 1 acknowledges, and hart 0 collects;
//! - `words`: a number, in two words that the threads poll: no request can be quicker.

use crate::pause::pause;
use board::{Inbox, Outbox, ends};
use pte::{Scheme, What};
use shoot::{Request, Tickets};
use std::alloc::{AllocError, Global};
use std::sync::atomic::{AtomicU64, Ordering};
use std::thread::{Threads, join};
use tlb::Tlb;

/// How many requests wait at most.
const CAPACITY: usize = 4;

/// Harts 0 and 1.
const BOTH: u8 = 0b11;

/// A hart: its TLB, and its ends to and from the other one.
#[derive(Drop)]
struct Hart {
    tlb: Tlb,
    outbox: Outbox,
    inbox: Inbox,
}

impl Hart {
    fn new(outbox: Outbox, inbox: Inbox) -> Hart {
        Hart {
            tlb: Tlb::new_in(Scheme::Sv39),
            outbox,
            inbox,
        }
    }

    /// The next request of the other hart, which is served.
    fn serve_next(&mut self) -> Option<Request> {
        for tries in 0..u64::MAX {
            if let Some(request) = self.inbox.take() {
                self.tlb.serve(&request.what);
                return Some(request);
            }
            pause(tries);
        }
        None
    }

    /// Posts a request to the other hart.
    fn post(&mut self, request: Request) -> Option<()> {
        self.outbox.post(request).ok()
    }

    /// One request that was posted came back.
    fn release(&mut self) {
        if self.outbox.outstanding() > 0 {
            self.outbox.release();
        }
    }
}

/// Hart 0 makes one shootdown of everything.
fn shoot_down(tickets: &mut Tickets, hart: &mut Hart) -> Option<()> {
    let ticket = tickets.open(What::All, BOTH).ok()?;
    if !tickets.names(ticket, 1) || tickets.is_posted(ticket, 1) {
        return None;
    }
    let what = tickets.what(ticket);
    hart.post(Request { ticket, what })?;
    tickets.posted(ticket, 1);
    hart.tlb.serve(&what);
    if tickets.names(ticket, 0) {
        tickets.acked(ticket, 0);
    }
    let back = hart.serve_next()?;
    hart.release();
    if tickets.names(back.ticket, 1) {
        tickets.acked(back.ticket, 1);
    }
    if tickets.names(back.ticket, 1) {
        tickets.collect(back.ticket, 1);
    }
    if tickets.is_open(ticket) {
        tickets.finish(ticket).ok()
    } else {
        None
    }
}

/// How many shootdowns hart 0 made, one after another.
fn shoots(mut hart: Hart, count: u64) -> u64 {
    let mut tickets = Tickets::new(0);
    for made in 0..count {
        if shoot_down(&mut tickets, &mut hart).is_none() {
            return made;
        }
    }
    count
}

/// Hart 1 serves, and posts each request back.
fn serves(mut hart: Hart, count: u64) -> u64 {
    for made in 0..count {
        let Some(request) = hart.serve_next() else {
            return made;
        };
        // Hart 0 has had what was posted back before.
        hart.release();
        if hart.post(request).is_none() {
            return made;
        }
    }
    count
}

/// Makes `count` shootdowns over two rings. How many were made.
pub fn over_rings<R: Threads>(rt: &R, alloc: Global, count: u64) -> Result<u64, AllocError> {
    let (out_0, in_1) = ends(alloc, CAPACITY)?;
    let (out_1, in_0) = ends(alloc, CAPACITY)?;
    let (zero, one) = (Hart::new(out_0, in_0), Hart::new(out_1, in_1));
    let (made, _served) = join(rt, move || shoots(zero, count), move || serves(one, count));
    Ok(made)
}

/// Two words on cache lines of their own.
#[derive(Drop)]
struct Words {
    there: AtomicU64,
    gap: [u64; 31],
    back: AtomicU64,
}

/// Whether the word came to be the number.
fn comes(word: &AtomicU64, number: u64) -> bool {
    for tries in 0..u64::MAX {
        if word.load(Ordering::SeqCst) == number {
            return true;
        }
        pause(tries);
    }
    false
}

/// How many numbers came back.
fn bounces(words: &Words, count: u64) -> u64 {
    for number in 0..count {
        words.there.store(number + 1, Ordering::SeqCst);
        if !comes(&words.back, number + 1) {
            return number;
        }
    }
    count
}

/// Stores each number back.
fn bounces_back(words: &Words, count: u64) -> u64 {
    for number in 0..count {
        if !comes(&words.there, number + 1) {
            return number;
        }
        words.back.store(number + 1, Ordering::SeqCst);
    }
    count
}

/// Sends `count` numbers there and back. How many came back.
pub fn over_words<R: Threads>(rt: &R, count: u64) -> u64 {
    let words = Words {
        there: AtomicU64::new(0),
        gap: [0; 31],
        back: AtomicU64::new(0),
    };
    let shared = &words;
    let (made, _stored) = join(
        rt,
        || bounces(shared, count),
        || bounces_back(shared, count),
    );
    made
}
