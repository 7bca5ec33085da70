//! The same calls by the port of a board with one hart, and by a machine.

ghost use Rattle.std.specs.Prelude.{◌≡◌, [], Err, IfOk, OnOk};
ghost use Rattle.history.specs.Setup.{setup_of};
ghost use Rattle.laws.specs.Kept.{IsSetup};
ghost use Rattle.spaces.specs.Limits.{MeetsLimits};
ghost use Rattle.spaces.specs.declared.faults.OpenFault.TheVariants as OpenFault;
ghost use Rattle.spaces.specs.declared.configuration.TheConstants.{MAX_FRAMES, MAX_LIVE_FRAMES};
ghost use Rattle.one_hart.specs.Asked.{answers_due};
ghost use Rattle.one_hart.specs.Alone.{NewPortIsAlone};
ghost use Rattle.one_hart.specs.Runs.{EachCallIsARun};

use crate::call::Call;
use crate::machine_calls::machine_answers;
use crate::port_calls::port_answers;
use board::Board;
use history::Reply;
use spaces::{Config, OpenFault};
use std::alloc::Global;
use stepcore::Machine;

/// The port of a board that was just opened, if it is the only one, has what the empty history
/// leaves.
pub fn new_port_is_alone()
    ensures { NewPortIsAlone }
{}

/// What a call is answered is the last of the replies that are due to some events, as `Machine::run`
/// gives them, and the history goes on by these events; but for a look for acknowledgements, which
/// is no event.
pub fn each_call_is_a_run()
    ensures { EachCallIsARun }
{}

/// What the port of a board with one hart answers to calls, from its opening on.
fn board_answers(alloc: Global, config: &Config, calls: &[Call]) -> Result<Vec<Reply>, OpenFault>
    requires one { config.now.harts ≡ 1 }
    requires setup { IsSetup (setup_of config.now) }
    ensures limits { OnOk result (MeetsLimits MAX_LIVE_FRAMES config.now) }
    ensures bad_layout { result ≡ Err OpenFault.BadLayout
        → ¬ MeetsLimits MAX_LIVE_FRAMES config.now }
    ensures due { IfOk result (λ answers. answers.items
        ≡ answers_due (setup_of config.now) [] calls.now) }
{
    let (_board, mut ports) = Board::open(alloc, config)?;
    let answers = port_answers(alloc, &mut ports[0], calls)?;
    Ok(answers)
}

/// Opens a board and a machine with a configuration of one hart, and makes the same calls by both:
/// their answers are the same, and they are due. Refused with `BadLayout` only for a configuration
/// that breaks a limit of either, and with `NoMemory` if memory runs out.
pub fn both_answers(
    alloc: Global,
    config: &Config,
    calls: &[Call],
) -> Result<(Vec<Reply>, Vec<Reply>), OpenFault>
    requires { config.now.harts ≡ 1 }
    ensures limits { OnOk result (MeetsLimits MAX_FRAMES config.now
        × MeetsLimits MAX_LIVE_FRAMES config.now) }
    ensures bad_layout { result ≡ Err OpenFault.BadLayout
        → ¬ (MeetsLimits MAX_FRAMES config.now × MeetsLimits MAX_LIVE_FRAMES config.now) }
    ensures same { IfOk result (λ r. r.0.items ≡ r.1.items) }
    ensures due { IfOk result (λ r. r.0.items ≡ answers_due (setup_of config.now) [] calls.now) }
{
    let mut machine = Machine::open(alloc, config)?;
    let by_board = board_answers(alloc, config, calls)?;
    let by_machine = machine_answers(alloc, &mut machine, calls)?;
    Ok((by_board, by_machine))
}
