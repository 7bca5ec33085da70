//! The lines of live runs.
ghost use Rattle.std.specs.Prelude.{◌≡◌, ◌++◌, OnOk, IfOk, map, string_bytes};
ghost use Rattle.std.specs.Fmt.{decimal};
ghost use Rattle.scenario.specs.LiveLines.{counts_text, live_line, live_lines, live_text, pair_line, pairs_lines, scripts_lines, steps_lines};

use board::PairReport;
use harts::LiveReply;
use itoa::Buffer;
use lines::{push_decimal, push_hexadecimal, push_reply};
use std::alloc::{AllocError, Global};

fn push_live(text: &mut String, reply: LiveReply) -> Result<(), AllocError>
    ensures ok { OnOk result (string_bytes text.new ≡ string_bytes text.old ++ live_text reply) }
{
    match reply {
        LiveReply::Translated(pa) => {
            text.push_str("pa 0x")?;
            push_hexadecimal(text, pa)
        }
        LiveReply::Replied(reply) => push_reply(text, reply),
        LiveReply::Halted => text.push_str("halted"),
        LiveReply::Timeout => text.push_str("timeout"),
    }
}

/// Adds the line of a step: whose it is, its number, and what it answered.
fn push_live_line(
    text: &mut String,
    whose: &str,
    number: usize,
    reply: LiveReply,
) -> Result<(), AllocError>
    ensures ok { OnOk result (string_bytes text.new ≡ string_bytes text.old
        ++ live_line whose.now number reply) }
{
    text.push_str(whose)?;
    text.push_str(" ")?;
    push_decimal(text, number)?;
    text.push_str(" ")?;
    push_live(text, reply)?;
    text.push_str("\n")
}

/// Adds the lines of one list of steps.
fn push_steps(text: &mut String, whose: &str, replies: &[LiveReply]) -> Result<(), AllocError>
    ensures ok { OnOk result (string_bytes text.new ≡ string_bytes text.old
        ++ steps_lines whose.now replies.now) }
{
    for (index, reply) in replies.iter().enumerate() {
        push_live_line(text, whose, index + 1, *reply)?;
    }
    Ok(())
}

/// Adds the lines of a hart's script.
fn push_script(text: &mut String, hart: usize, replies: &[LiveReply]) -> Result<(), AllocError>
    ensures ok { OnOk result (string_bytes text.new ≡ string_bytes text.old
        ++ steps_lines (decimal hart) replies.now) }
{
    let mut digits = Buffer::new();
    push_steps(text, digits.format(hart), replies)
}

fn push_scripts(text: &mut String, scripts: &[Vec<LiveReply>]) -> Result<(), AllocError>
    ensures ok { OnOk result (string_bytes text.new ≡ string_bytes text.old
        ++ scripts_lines (map (λ replies. replies.items) scripts.now)) }
{
    for (hart, replies) in scripts.iter().enumerate() {
        push_script(text, hart, replies.as_slice())?;
    }
    Ok(())
}

fn push_counts(
    text: &mut String,
    accepted: u64,
    taken: u64,
    waiting: usize,
) -> Result<(), AllocError>
    ensures ok { OnOk result (string_bytes text.new ≡ string_bytes text.old
        ++ counts_text accepted taken waiting) }
{
    write!(text, " accepted {accepted} taken {taken} waiting {waiting}")
}

/// Adds the line of a mailbox.
fn push_pair(text: &mut String, pair: &PairReport) -> Result<(), AllocError>
    ensures ok { OnOk result (string_bytes text.new ≡ string_bytes text.old ++ pair_line pair.now) }
{
    let sender = pair.sender;
    let receiver = pair.receiver;
    write!(text, "pair {sender} {receiver}")?;
    push_counts(
        text,
        pair.accepted,
        pair.taken,
        pair.waiting.as_slice().len(),
    )?;
    text.push_str("\n")
}

fn push_pairs(text: &mut String, pairs: &[PairReport]) -> Result<(), AllocError>
    ensures ok { OnOk result (string_bytes text.new ≡ string_bytes text.old
        ++ pairs_lines pairs.now) }
{
    for pair in pairs {
        push_pair(text, pair)?;
    }
    Ok(())
}

/// The lines of `live`: for each step of the setup `setup`, its number from 1 and what it answered;
/// then, hart by hart, for each step of its script the hart, the step's number from 1 and what it
/// answered; then for each mailbox of `pairs` the hart that posts, the hart that takes, and how
/// many requests were accepted, were taken, and wait.
pub fn live_lines(
    alloc: Global,
    setup: &[LiveReply],
    scripts: &[Vec<LiveReply>],
    pairs: &[PairReport],
) -> Result<String, AllocError>
    ensures { IfOk result (λ text. string_bytes text
        ≡ live_lines setup.now (map (λ replies. replies.items) scripts.now) pairs.now) }
{
    let mut text = String::new(alloc);
    push_steps(&mut text, "setup", setup)?;
    push_scripts(&mut text, scripts)?;
    push_pairs(&mut text, pairs)?;
    Ok(text)
}
