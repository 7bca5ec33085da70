//! Rings, boards, and harts that run in threads of their own.

use crate::shootdown::{INVALID, superpage, two_harts};
use crate::verdict::Verdict;
use board::{Board, ends};
use harts::{LiveFault, LiveReply, LiveReport, OpenGate, run_live};
use history::{LiveStep, Reply, Scope};
use pte::{Access, Ctx, Mode, Page, PteFlags, Scheme, What};
use shoot::Request;
use spaces::{Config, Place};
use std::alloc::{AllocError, Global};
use std::sync::Wait;
use std::thread::Threads;

/// The two ends of a ring that takes one request.
pub fn two_ends(alloc: Global) -> Verdict {
    let Ok((mut outbox, mut inbox)) = ends(alloc, 1) else {
        return Verdict::NoMemory;
    };
    let request = Request {
        ticket: 0,
        what: What::All,
    };
    let posted = outbox.post(request) == Ok(());
    Verdict::is_usual(posted && inbox.take() == Some(request))
}

/// The board of each scheme, with a request that goes from port to port.
pub fn board(alloc: Global) -> Verdict {
    for scheme in [Scheme::Sv39, Scheme::Sv48] {
        let (_board, mut ports) = match Board::open(alloc, &two_harts(scheme)) {
            Ok(opened) => opened,
            Err(fault) => return Verdict::of_fault(fault),
        };
        let (Some(mut one), Some(mut zero)) = (ports.pop(), ports.pop()) else {
            return Verdict::Other;
        };
        let posted = zero.flush(Scope::All, 0b11) == Ok(0) && zero.post(0, 1) == Ok(());
        if !posted || one.serve(0).is_err() || !ports.is_empty() {
            return Verdict::Other;
        }
    }
    Verdict::Usual
}

/// A load by the user at the end of the page.
const LOAD: LiveStep = LiveStep::Translate {
    va: 0x5F_FFFF,
    access: Access::Load,
    ctx: Ctx {
        mode: Mode::User,
        sum: false,
        mxr: false,
    },
};

/// Hart 0 maps the page by two stores: a pointer to a table, and the leaf.
fn map(page: Page) -> LiveStep {
    LiveStep::Map {
        place: Place::Space(0),
        page,
        ppn: 0x200,
        flags: PteFlags::R | PteFlags::U | PteFlags::A,
    }
}

/// Hart 0 shoots the page down; hart 1 serves it once its own script has ended.
fn scripts(alloc: Global, page: Page) -> Result<Vec<Vec<LiveStep>>, AllocError> {
    let mut script = Vec::with_capacity(alloc, 5)?;
    for step in [
        LiveStep::Unmap {
            place: Place::Space(0),
            page,
            named: 0b11,
        },
        LiveStep::Post { ticket: 0, to: 1 },
        LiveStep::AckSelf { ticket: 0 },
        LiveStep::Wait { ticket: 0 },
        LOAD,
    ] {
        script.push(step)?;
    }
    let mut scripts = Vec::with_capacity(alloc, 1)?;
    scripts.push(script)?;
    Ok(scripts)
}

/// Whether these are the answers.
fn is_shot_down(report: &LiveReport) -> bool {
    let setup = [
        LiveReply::Replied(Reply::Table(0x8_0003)),
        LiveReply::Replied(Reply::Leaf),
        LiveReply::Translated(0x3F_FFFF),
    ];
    let script = [
        LiveReply::Replied(Reply::Opened(0)),
        LiveReply::Replied(Reply::Ok),
        LiveReply::Replied(Reply::Waiting(0b10)),
        LiveReply::Replied(Reply::Done),
        LiveReply::Replied(INVALID),
    ];
    let is_first = report
        .scripts
        .as_slice()
        .first()
        .is_some_and(|answers| answers.as_slice() == script.as_slice());
    is_first && report.setup.as_slice() == setup.as_slice()
}

/// The run, if setup's harts exist and there are no more scripts than harts.
fn live_run<R: Threads + Wait + Sync>(
    rt: &R,
    alloc: Global,
    config: &Config,
    setup: &[(u8, LiveStep)],
    scripts: &[Vec<LiveStep>],
) -> Option<Result<LiveReport, LiveFault>> {
    if !setup.iter().all(|step| u16::from(step.0) < config.harts) {
        return None;
    }
    if scripts.len() > usize::from(config.harts) {
        return None;
    }
    let turns = 1_000_000_000;
    Some(run_live(rt, alloc, config, setup, scripts, turns, &OpenGate))
}

/// A shootdown between two threads.
pub fn run<R: Threads + Wait + Sync>(rt: &R, alloc: Global) -> Verdict {
    let Some(page) = superpage() else {
        return Verdict::Other;
    };
    let Ok(scripts) = scripts(alloc, page) else {
        return Verdict::NoMemory;
    };
    let setup = [(0, map(page)), (0, map(page)), (1, LOAD)];
    let config = two_harts(Scheme::Sv39);
    match live_run(rt, alloc, &config, setup.as_slice(), scripts.as_slice()) {
        Some(Ok(report)) => Verdict::is_usual(is_shot_down(&report)),
        Some(Err(LiveFault::NoMemory | LiveFault::NoThread)) => Verdict::NoMemory,
        Some(Err(LiveFault::BadLayout)) | None => Verdict::Other,
    }
}
