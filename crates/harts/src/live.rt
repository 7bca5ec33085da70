//! Live runs: each hart is a thread, which does the steps of its script by its port.

ghost use Rattle.std.specs.Prelude.{◌≡◌, ◌≤◌, ◌<◌, ◌↔◌, All, true, IfOk, OnOk, Err, length, map};
ghost use Rattle.spaces.specs.Limits.{MeetsLimits};
ghost use Rattle.spaces.specs.declared.configuration.TheConstants.{MAX_LIVE_FRAMES};
ghost use Rattle.history.specs.Setup.{setup_of};
ghost use Rattle.board.specs.Ports.{ArePorts, AreNew, name_of};
ghost use Rattle.board.specs.Reports.{pairs_of};
ghost use Rattle.harts.specs.Plays.{HaveRun};
ghost use Rattle.harts.specs.Scripts.{are_made, AreAnswered};

use crate::gate::Gate;
use crate::live_latch::Latch;
use crate::live_port::step_of;
use crate::live_report::{LiveFault, LiveReport};
use crate::live_threads::{roles_of, run_threads};
use board::{Board, HartPort};
use history::LiveStep;
use spaces::Config;
use std::alloc::Global;
use std::sync::Wait;
use std::thread::Threads;

/// The board and its ports.
fn open(alloc: Global, config: &Config) -> Result<(Board, Vec<HartPort>), LiveFault>
    ensures bad_layout { (result ≡ Err LiveFault.BadLayout)
        ↔ (¬ MeetsLimits MAX_LIVE_FRAMES config.now) }
    ensures limits { OnOk result (MeetsLimits MAX_LIVE_FRAMES config.now) }
    ensures board { IfOk result (λ r. r.0 ≡ setup_of config.now) }
    ensures ports { IfOk result (λ r. ArePorts (setup_of config.now) (map name_of r.1.items)) }
    ensures new { IfOk result (λ r. AreNew r.1.items) }
    ensures count { IfOk result (λ r. length r.1.items ≡ config.now.harts) }
{
    let opened = Board::open(alloc, config)?;
    Ok(opened)
}

/// Runs setup's steps in order on this thread, each by the port of its hart. Then each hart is a
/// thread of its own, which does the steps of its script in order; a hart past the end of `scripts`
/// has none. `gate` is asked before each step of a script, and called after it.
///
/// At `Ok` each step of setup has its answer, and each step of a script, up to its end or to the
/// step before which the gate ended it: that one is answered `Halted`, and nothing follows. What a
/// step does of its port and answers is what the port's own call does and answers (`Performs`), from
/// ports that were just opened on.
///
/// A wait takes at most `turns` turns, and then answers `Timeout`. In a turn the hart serves once
/// from each other hart, the lowest first, and then collects the ticket; a turn that finds it done or
/// not open is the last. A hart whose script has ended serves every other
/// hart in turns, until all scripts have ended or `turns` turns passed. All room for answers is
/// taken before the first thread starts.
///
/// `BadLayout` exactly if `Config::check_live` says no, `NoMemory` if there is not enough memory,
/// `NoThread` if a thread could not be started. In which order the threads take their steps is not
/// promised.
pub fn run_live<R: Threads + Wait + Sync, G: Gate + Sync>(
    rt: &R,
    alloc: Global,
    config: &Config,
    setup: &[(u8, LiveStep)],
    scripts: &[Vec<LiveStep>],
    turns: u32,
    gate: &G,
) -> Result<LiveReport, LiveFault>
    requires setup { All (λ step. step.0 < config.now.harts) setup.now }
    requires scripts { length scripts.now ≤ config.now.harts }
    ensures bad_layout { (result ≡ Err LiveFault.BadLayout)
        ↔ (¬ MeetsLimits MAX_LIVE_FRAMES config.now) }
    ensures setup { IfOk result (λ r. length r.setup.items ≡ length setup.now) }
    ensures made { IfOk result (λ r. are_made (map (λ step. step.1) setup.now) r.setup.items
        ≡ true) }
    ensures scripts { IfOk result (λ r. length r.scripts.items ≡ config.now.harts) }
    ensures answered { IfOk result (λ r. AreAnswered (map (λ script. script.items) scripts.now)
        (map (λ replies. replies.items) r.scripts.items)) }
    ensures ran { IfOk result (λ r. HaveRun
        (record { gate = G.says gate.now; harts = config.now.harts; turns = turns })
        (setup_of config.now) setup.now r.setup.items (map (λ script. script.items) scripts.now)
        (map (λ replies. replies.items) r.scripts.items)) }
    ensures pairs { IfOk result (λ r.
        map (λ pair. (pair.sender, pair.receiver)) r.report.pairs.items
        ≡ pairs_of config.now.harts config.now.harts) }
{
    let (board, mut ports) = open(alloc, config)?;
    let latch = Latch::new(config.harts as u8);
    let mut answers = Vec::with_capacity(alloc, setup.len())?;
    for (hart, step) in setup {
        let Some(reply) = step_of(&mut ports, *hart, step, turns, &latch) else {
            return Err(LiveFault::NoThread);
        };
        answers.push_reserved(reply);
    }
    let empty = Vec::new(alloc);
    let roles = roles_of(alloc, ports, scripts, &empty)?;
    let (ports, scripts) = run_threads(rt, alloc, roles, turns, &latch, gate)?;
    Ok(LiveReport {
        setup: answers,
        scripts,
        report: board.close(ports),
    })
}
