//! Two harts of a board, each in a thread of its own.
ghost use Rattle.std.specs.Prelude.{◌≡◌, map};
ghost use Rattle.board.specs.Ports.{ArePorts, name_of};

use crate::board_shootdowns::{shoot_down_often, translate_and_serve};
use crate::boards::{post_five, serve_three};
use crate::senders::{ask_and_serve, unmap_while_full};
use board::*;
use spaces::Config;
use std::alloc::Global;
use std::test::Fail;
use std::thread;
use std::thread::Threads;

/// What hart 0 asks of hart 1.
#[derive(Clone, Copy)]
pub(crate) enum Job {
    /// To serve requests.
    Requests,
    /// To give up a page, again and again.
    Shootdowns,
    /// To give up a page while its mailbox is full.
    Unmapping,
}

/// What hart 0 does. Whether it was answered as it should be.
fn ask(port: HartPort, job: Job) -> (HartPort, bool)
    ensures { name_of result.0 ≡ name_of port }
{
    match job {
        Job::Requests => post_five(port),
        Job::Shootdowns => shoot_down_often(port),
        Job::Unmapping => unmap_while_full(port),
    }
}

/// What hart 1 does. Whether it was answered as it should be.
fn answer(port: HartPort, job: Job) -> (HartPort, bool)
    ensures { name_of result.0 ≡ name_of port }
{
    match job {
        Job::Requests => serve_three(port),
        Job::Shootdowns => translate_and_serve(port),
        Job::Unmapping => ask_and_serve(port),
    }
}

// Both harts in threads of their own, and then the report.
fn in_two_threads(
    rt: &impl Threads,
    board: Board,
    mut ports: Vec<HartPort>,
    job: Job,
) -> Result<(bool, Report), Fail>
    requires { ArePorts board (map name_of ports.items) }
{
    let (Some(one), Some(zero)) = (ports.pop(), ports.pop()) else {
        return Err(Fail::new("not two ports"));
    };
    let ((zero, asked), (one, answered)) = thread::join(
        rt,
        move || -> (HartPort, bool)
            ensures { name_of result.0 ≡ name_of zero }
        { ask(zero, job) },
        move || -> (HartPort, bool)
            ensures { name_of result.0 ≡ name_of one }
        { answer(one, job) },
    );
    ports.push(zero)?;
    ports.push(one)?;
    Ok((asked && answered, board.close(ports)))
}

/// Whether two harts of a layout do a job as they should, and the report.
pub(crate) fn report_of_job(
    rt: &impl Threads,
    alloc: Global,
    config: &Config,
    job: Job,
) -> Result<(bool, Report), Fail> {
    match Board::open(alloc, config) {
        Ok((board, ports)) => in_two_threads(rt, board, ports, job),
        Err(_) => Err(Fail::new("no board")),
    }
}
