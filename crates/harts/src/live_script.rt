//! What one thread of a live run does.

ghost use Rattle.std.specs.Prelude.{◌≡◌, ◌≤◌, [], IfSome, IsTrue, length, vec_capacity};
ghost use Rattle.board.specs.Ports.{name_of};
ghost use Rattle.harts.specs.Plays.{HasPlayed, Plays, start_of};
ghost use Rattle.harts.specs.Scripts.{IsAnswered};

use crate::gate::Gate;
use crate::live_latch::Latch;
use crate::live_port::{perform, serve_until_over};
use crate::live_reply::LiveReply;
use board::HartPort;
use history::LiveStep;

/// What the thread of a hart begins with: its port, its script, and room for the answers.
#[derive(Drop)]
pub(crate) struct Role<'a> {
    pub(crate) hart: u8,
    pub(crate) port: HartPort,
    pub(crate) script: &'a Vec<LiveStep>,
    pub(crate) answers: Vec<LiveReply>,
    ghost none: { answers.items ≡ [] },
    ghost room: { length script.now.items ≤ vec_capacity answers },
}

impl<'a> Role<'a> {
    pub(crate) fn into_parts(self) -> (u8, HartPort, &'a Vec<LiveStep>, Vec<LiveReply>)
        ensures same { (result.0 ≡ self.entry.hart) × (result.1 ≡ self.entry.port)
            × (result.2.now.items ≡ self.entry.script.now.items) }
        ensures none { result.3.items ≡ [] }
        ensures room { length result.2.now.items ≤ vec_capacity result.3 }
    {
        let Role {
            hart,
            port,
            script,
            answers,
            ..
        } = self;
        (hart, port, script, answers)
    }
}

/// The steps of a script in order, each between the two calls of the gate. Whether it came to its
/// end, or to the step that the gate halts: in a run that was abandoned, of which there is no report,
/// it ends before its next step.
fn play<G: Gate>(
    port: &mut HartPort,
    hart: u8,
    script: &[LiveStep],
    answers: &mut Vec<LiveReply>,
    turns: u32,
    latch: &Latch,
    gate: &G,
) -> bool
    requires none { answers.old.items ≡ [] }
    requires room { length script.now ≤ vec_capacity answers.old }
    ensures same { name_of port.new ≡ name_of port.old }
    ensures answered { IsTrue result → IsAnswered script.now answers.new.items }
    ensures plays { IsTrue result
        → Plays (record { gate = G.says gate.now; harts = latch.now.harts; turns = turns }) hart 0
        script.now port.old answers.new.items port.new }
{
    let mut number = 0_u32;
    for step in script {
        if latch.is_abandoned() {
            return false;
        }
        number = number.saturating_add(1);
        if !gate.before(hart, number) {
            answers.push_reserved(LiveReply::Halted);
            return true;
        }
        let Some(reply) = perform(port, step, turns, latch) else {
            return false;
        };
        answers.push_reserved(reply);
        gate.after(hart, number);
    }
    true
}

/// The script of a hart to its end, and then the service of the others until all scripts have
/// ended. `None` if the run was abandoned.
pub(crate) fn run_script<G: Gate>(
    mut port: HartPort,
    hart: u8,
    script: &[LiveStep],
    mut answers: Vec<LiveReply>,
    turns: u32,
    latch: &Latch,
    gate: &G,
) -> (HartPort, Option<Vec<LiveReply>>)
    requires none { answers.items ≡ [] }
    requires room { length script.now ≤ vec_capacity answers }
    ensures same { name_of result.0 ≡ name_of port }
    ensures answered { IfSome result.1 (λ answers. IsAnswered script.now answers.items) }
    ensures played { IfSome result.1 (λ answers. HasPlayed
        (record { gate = G.says gate.now; harts = latch.now.harts; turns = turns })
        (start_of hart port script.now) answers.items) }
{
    let ended = play(&mut port, hart, script, &mut answers, turns, latch, gate);
    latch.count_down();
    serve_until_over(&mut port, turns, latch);
    (port, ended.then_some(answers))
}
