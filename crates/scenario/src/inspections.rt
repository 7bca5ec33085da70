//! The commands that say of a file what its replies don't.
ghost use Rattle.std.specs.Prelude.{◌≡◌, IfErr, IfOk, string_bytes};
ghost use Rattle.scenario.specs.Commands.{check, draw, show, stale};
ghost use Rattle.scenario.specs.Outcomes.{finding_by_use, finding_of, IsFound, IsUntold};

use crate::finding::Finding;
use crate::outcome::Outcome;
use crate::stale_texts::stale_text;
use checks::check_text;
use draw::draw_file;
use files::{Fault, read_run};
use lines::show_text;
use std::alloc::{AllocError, Global};

/// What `stale` found.
fn finding_by_use(used: bool) -> Finding
    ensures { result ≡ finding_by_use used }
{
    if used {
        Finding::StaleUsed
    } else {
        Finding::Nothing
    }
}

/// Which mappings become stale in a scenario of `run`, and which accesses they answer.
pub(crate) fn stale_of(alloc: Global, text: &str) -> Result<Outcome, Fault>
    ensures ok { IfOk result (λ outcome. IsFound stale text.now (string_bytes outcome.lines)
        outcome.finding) }
    ensures err { IfErr result (λ fault. IsUntold fault (stale.fault text.now)) }
{
    let scenario = read_run(alloc, text)?;
    let told = stale_text(alloc, &scenario)?;
    Ok(Outcome {
        lines: told.text,
        finding: finding_by_use(told.is_used),
    })
}

/// The state after the last step of a scenario of `run`.
pub(crate) fn state_of(alloc: Global, text: &str) -> Result<Outcome, Fault>
    ensures ok { IfOk result (λ outcome. IsFound show text.now (string_bytes outcome.lines)
        outcome.finding) }
    ensures err { IfErr result (λ fault. IsUntold fault (show.fault text.now)) }
{
    let scenario = read_run(alloc, text)?;
    Ok(Outcome::of_lines(show_text(alloc, &scenario)?))
}

/// The picture of a scenario of `run`, in a file of this name.
pub(crate) fn picture_of(alloc: Global, file: &str, text: &str) -> Result<Outcome, Fault>
    ensures ok { IfOk result (λ outcome. IsFound draw text.now (string_bytes outcome.lines)
        outcome.finding) }
    ensures err { IfErr result (λ fault. IsUntold fault (draw.fault text.now)) }
{
    let scenario = read_run(alloc, text)?;
    Ok(Outcome::of_lines(draw_file(alloc, file, text, &scenario)?))
}

/// What a check found.
fn finding_of(fault: Option<Fault>) -> Finding
    ensures { result ≡ finding_of fault }
{
    match fault {
        None => Finding::Nothing,
        Some(fault) => Finding::Faulty(fault),
    }
}

/// What is wrong with a file of this name.
pub(crate) fn checked(alloc: Global, file: &str, text: &str) -> Result<Outcome, AllocError>
    ensures { IfOk result (λ outcome. IsFound (check file.now) text.now
        (string_bytes outcome.lines) outcome.finding) }
{
    let checked = check_text(alloc, file, text)?;
    Ok(Outcome {
        lines: checked.text,
        finding: finding_of(checked.fault),
    })
}
