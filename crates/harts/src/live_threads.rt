//! The threads of a live run.

ghost use Rattle.std.specs.Prelude.{◌≡◌, ◌≢◌, ◌≤◌, true, [], All, Ok, IfOk, IfErr, IfSome, length, map, slice_index_or, vec_capacity};
ghost use Rattle.pte.specs.declared.TheConstants.{MAX_HARTS};
ghost use Rattle.harts.specs.Plays.{HasPlayed, HavePlayed, start_of, starts_from};
ghost use Rattle.harts.specs.Scripts.{are_answered, IsAnswered, scripts_of};
ghost use Rattle.board.specs.Ports.{name_of};

use crate::gate::Gate;
use crate::live_latch::Latch;
use crate::live_reply::LiveReply;
use crate::live_report::LiveFault;
use crate::live_script::{Role, run_script};
use board::HartPort;
use history::LiveStep;
use std::alloc::{AllocError, Global};
use std::snapshot::Snapshot;
use std::sync::Wait;
use std::thread;
use std::thread::{Promise, PromisedHandle, Threads};

/// What the thread of a hart began with, for contracts alone: it gives that port back, with the
/// replies of its script, which it has played, or none in a run that was abandoned.
#[derive(Drop)]
pub(crate) struct Played<G: Gate> {
    gate: Snapshot<G>,
    harts: u8,
    turns: u32,
    hart: u8,
    port: Snapshot<HartPort>,
    steps: Snapshot<Vec<LiveStep>>,
}

impl<G: Gate> Promise<(HartPort, Option<Vec<LiveReply>>)> for Played<G> {
    ghost use Rattle.std.specs.Prelude.{◌≡◌, IfSome};
    ghost use Rattle.board.specs.Ports.{name_of};
    ghost use Rattle.harts.specs.Plays.{HasPlayed, start_of};
    ghost use Rattle.harts.specs.Scripts.{IsAnswered};

    ghost kept_by = { λ p r. (name_of r.0 ≡ name_of p.port.value)
        × IfSome r.1 (λ answers. IsAnswered p.steps.value.items answers.items)
        × IfSome r.1 (λ answers. HasPlayed
        (record { gate = G.says p.gate.value; harts = p.harts; turns = p.turns })
        (start_of p.hart p.port.value p.steps.value.items) answers.items) };
}

impl<G: Gate> Played<G> {
    fn of(
        gate: &G,
        harts: u8,
        turns: u32,
        hart: u8,
        port: &HartPort,
        script: &Vec<LiveStep>,
    ) -> Played<G>
        ensures gate { result.gate.value ≡ gate.now }
        ensures run { (result.harts ≡ harts) × (result.turns ≡ turns) }
        ensures hart { result.hart ≡ hart }
        ensures port { result.port.value ≡ port.now }
        ensures steps { result.steps.value.items ≡ script.now.items }
    {
        Played {
            gate: Snapshot::of(gate),
            harts,
            turns,
            hart,
            port: Snapshot::of(port),
            steps: Snapshot::of(script),
        }
    }
}

type Running<G> = PromisedHandle<(HartPort, Option<Vec<LiveReply>>), Played<G>>;

/// The script of a hart, which is the empty one if there is none.
fn script_of<'a>(
    scripts: &'a [Vec<LiveStep>],
    hart: usize,
    empty: &'a Vec<LiveStep>,
) -> &'a Vec<LiveStep>
    requires { empty.now.items ≡ [] }
    ensures { result.now.items ≡ slice_index_or (map (λ script. script.items) scripts.now) hart [] }
{
    match scripts.get(hart) {
        Some(script) => script,
        None => empty,
    }
}

/// What each hart's thread begins with.
pub(crate) fn roles_of<'a>(
    alloc: Global,
    ports: Vec<HartPort>,
    scripts: &'a [Vec<LiveStep>],
    empty: &'a Vec<LiveStep>,
) -> Result<Vec<Role<'a>>, AllocError>
    requires few { length ports.items ≤ MAX_HARTS }
    requires empty { empty.now.items ≡ [] }
    ensures same { IfOk result (λ roles. map (λ role. name_of role.port) roles.items
        ≡ map name_of ports.items) }
    ensures scripts { IfOk result (λ roles. map (λ role. role.script.now.items) roles.items
        ≡ scripts_of (length ports.items) (map (λ script. script.items) scripts.now)) }
    ensures starts { IfOk result (λ roles.
        map (λ role. start_of role.hart role.port role.script.now.items) roles.items
        ≡ starts_from 0 ports.items
        (scripts_of (length ports.items) (map (λ script. script.items) scripts.now))) }
    ensures count { IfOk result (λ roles. length roles.items ≡ length ports.items) }
{
    let mut roles = Vec::with_capacity(alloc, ports.len())?;
    for port in ports {
        let hart = roles.len();
        let script = script_of(scripts, hart, empty);
        let answers = Vec::with_capacity(alloc, script.len())?;
        roles.push_reserved(Role {
            hart: hart as u8,
            port,
            script,
            answers,
        });
    }
    Ok(roles)
}

/// What the threads give, in order, the ports and the answers. `None` if the run was abandoned.
fn join_all<R: Threads, G: Gate>(
    rt: &R,
    handles: Vec<Running<G>>,
    ports: &mut Vec<HartPort>,
    answers: &mut Vec<Vec<LiveReply>>,
    turns: u32,
    latch: &Latch,
    gate: &G,
) -> Option<()>
    requires none { (ports.old.items ≡ []) × (answers.old.items ≡ []) }
    requires room { (length handles.items ≤ vec_capacity ports.old)
        × (length handles.items ≤ vec_capacity answers.old) }
    requires run { All (λ handle. (handle.promise.gate.value ≡ gate.now)
        × (handle.promise.harts ≡ latch.now.harts) × (handle.promise.turns ≡ turns)) handles.items }
    ensures ports { IfSome result (λ _. map name_of ports.new.items
        ≡ map (λ handle. name_of handle.promise.port.value) handles.items) }
    ensures count { IfSome result (λ _. length answers.new.items ≡ length handles.items) }
    ensures answered { IfSome result (λ _.
        are_answered (map (λ handle. handle.promise.steps.value.items) handles.items)
        (map (λ replies. replies.items) answers.new.items) ≡ true) }
    ensures played { IfSome result (λ _. HavePlayed
        (record { gate = G.says gate.now; harts = latch.now.harts; turns = turns })
        (map (λ handle. start_of handle.promise.hart handle.promise.port.value
        handle.promise.steps.value.items) handles.items)
        (map (λ replies. replies.items) answers.new.items)) }
{
    let _turns = turns;
    let _latch = latch;
    let _gate = gate;
    for handle in handles {
        let (port, own) = handle.join(rt);
        let Some(replies) = own else {
            return None;
        };
        ports.push_reserved(port);
        answers.push_reserved(replies);
    }
    Some(())
}

/// The handle of a thread. If it could not be started, the run is abandoned.
fn handle_of<G: Gate, E: Drop>(started: Result<Running<G>, E>, latch: &Latch) -> Option<Running<G>>
    ensures { IfSome result (λ handle. started ≡ Ok handle) }
{
    match started {
        Ok(handle) => Some(handle),
        Err(_) => {
            latch.abandon();
            None
        }
    }
}

/// A thread for each hart, in order. None if one could not be started; then the others end before
/// their next step.
fn start_all<'a, R: Threads + Wait + Sync, G: Gate + Sync>(
    rt: &R,
    mut handles: Vec<Running<G>>,
    roles: Vec<Role<'a>>,
    turns: u32,
    latch: &Latch,
    gate: &G,
) -> Option<Vec<Running<G>>>
    requires { (handles.items ≡ []) × (length roles.items ≤ vec_capacity handles) }
    ensures ports { IfSome result (λ handles.
        map (λ handle. name_of handle.promise.port.value) handles.items
        ≡ map (λ role. name_of role.port) roles.entry.items) }
    ensures scripts { IfSome result (λ handles.
        map (λ handle. handle.promise.steps.value.items) handles.items
        ≡ map (λ role. role.script.now.items) roles.entry.items) }
    ensures starts { IfSome result (λ handles.
        map (λ handle. start_of handle.promise.hart handle.promise.port.value
        handle.promise.steps.value.items) handles.items
        ≡ map (λ role. start_of role.hart role.port role.script.now.items) roles.entry.items) }
    ensures run { IfSome result (λ handles.
        All (λ handle. (handle.promise.gate.value ≡ gate.now)
        × (handle.promise.harts ≡ latch.now.harts) × (handle.promise.turns ≡ turns))
        handles.items) }
{
    thread::scope(
        thread::scope_env(),
        rt,
        |scope| -> Option<Vec<Running<G>>>
            requires { (handles.items ≡ []) × (length roles.items ≤ vec_capacity handles) }
            ensures ports { IfSome result (λ handles.
                map (λ handle. name_of handle.promise.port.value) handles.items
                ≡ map (λ role. name_of role.port) roles.entry.items) }
            ensures scripts { IfSome result (λ handles.
                map (λ handle. handle.promise.steps.value.items) handles.items
                ≡ map (λ role. role.script.now.items) roles.entry.items) }
            ensures starts { IfSome result (λ handles.
                map (λ handle. start_of handle.promise.hart handle.promise.port.value
                handle.promise.steps.value.items) handles.items
                ≡ map (λ role. start_of role.hart role.port role.script.now.items)
                roles.entry.items) }
            ensures run { IfSome result (λ handles.
                All (λ handle. (handle.promise.gate.value ≡ gate.entry.now)
                × (handle.promise.harts ≡ latch.entry.now.harts)
                × (handle.promise.turns ≡ turns)) handles.items) }
        {
            for role in roles {
                let (hart, port, script, answers) = role.into_parts();
                let promise = Played::of(gate, latch.harts, turns, hart, &port, script);
                let started = scope.spawn_with(
                    promise,
                    move || -> (HartPort, Option<Vec<LiveReply>>)
                        requires { (answers.items ≡ [])
                            × (length script.now.items ≤ vec_capacity answers) }
                        ensures port { name_of result.0 ≡ name_of port }
                        ensures answered { IfSome result.1 (λ own.
                            IsAnswered script.entry.now.items own.items) }
                        ensures played { IfSome result.1 (λ own. HasPlayed
                            (record {
                              gate = G.says gate.entry.now;
                              harts = latch.entry.now.harts;
                              turns = turns;
                            })
                            (start_of hart port script.entry.now.items) own.items) }
                    { run_script(port, hart, script.as_slice(), answers, turns, latch, gate) },
                );
                handles.push_reserved(handle_of(started, latch)?);
            }
            Some(handles)
        },
    )
}

/// Runs each script in a thread of its own. The ports, and the answers to each script.
pub(crate) fn run_threads<'a, R: Threads + Wait + Sync, G: Gate + Sync>(
    rt: &R,
    alloc: Global,
    roles: Vec<Role<'a>>,
    turns: u32,
    latch: &Latch,
    gate: &G,
) -> Result<(Vec<HartPort>, Vec<Vec<LiveReply>>), LiveFault>
    ensures ports { IfOk result (λ r. map name_of r.0.items
        ≡ map (λ role. name_of role.port) roles.entry.items) }
    ensures count { IfOk result (λ r. length r.1.items ≡ length roles.entry.items) }
    ensures answered { IfOk result (λ r.
        are_answered (map (λ role. role.script.now.items) roles.entry.items)
        (map (λ replies. replies.items) r.1.items) ≡ true) }
    ensures played { IfOk result (λ r. HavePlayed
        (record { gate = G.says gate.now; harts = latch.now.harts; turns = turns })
        (map (λ role. start_of role.hart role.port role.script.now.items) roles.entry.items)
        (map (λ replies. replies.items) r.1.items)) }
    ensures layout { IfErr result (λ fault. fault ≢ LiveFault.BadLayout) }
{
    let handles = Vec::with_capacity(alloc, roles.len())?;
    let mut ports = Vec::with_capacity(alloc, roles.len())?;
    let mut answers = Vec::with_capacity(alloc, roles.len())?;
    let Some(handles) = start_all(rt, handles, roles, turns, latch, gate) else {
        return Err(LiveFault::NoThread);
    };
    match join_all(rt, handles, &mut ports, &mut answers, turns, latch, gate) {
        Some(()) => Ok((ports, answers)),
        None => Err(LiveFault::NoThread),
    }
}
