//! A shootdown in one call: a hart unmaps a page and asks the other harts to drop it.
ghost use Rattle.std.specs.Prelude.{◌≡◌, IfErr, IfOk, OnOk};
ghost use Rattle.shoot.specs.HartSet.{harts_in};
ghost use Rattle.board.specs.Calls.{KeepsUnmappings};
ghost use Rattle.board.specs.Ports.{name_of};
ghost use Rattle.board.specs.Promises.{IsUnmapping};
ghost use Rattle.harts.specs.Asks.{Asks, AsksBelow, IsNotAsked, IsNotShotDown, IsShotDown, IsStopped, is_no_hart};

use board::{HartPort, unmapping_stays_open};
use history::Refusal;
use pte::{MAX_HARTS, Page};
use shoot::HartSet;
use spaces::Place;

/// Whether a post was refused since the port has no mailbox to the hart: it is its own.
fn is_no_hart(refusal: Refusal) -> bool
    ensures { result ≡ is_no_hart refusal }
{
    matches!(refusal, Refusal::NoHart)
}

/// Posts a ticket's request to a hart that exists. The own hart is left out.
fn ask(port: &mut HartPort, ticket: u32, to: u8) -> Result<(), Refusal>
    ensures asked { OnOk result (Asks ticket to port.old port.new) }
    ensures refused { IfErr result (λ refusal. IsNotAsked ticket to port.old port.new refusal) }
    ensures keeps { KeepsUnmappings port.old port.new }
    ensures same { name_of port.new ≡ name_of port.old }
{
    unmapping_stays_open();
    match port.post(ticket, to) {
        Ok(()) => Ok(()),
        Err(refusal) => {
            if is_no_hart(refusal) {
                Ok(())
            } else {
                Err(refusal)
            }
        }
    }
}

/// Posts a ticket's request to each other hart of a set, the lowest first, up to the first that
/// cannot be asked.
fn ask_each(port: &mut HartPort, ticket: u32, named: HartSet) -> Result<(), Refusal>
    ensures asked { OnOk result (AsksBelow 8 named ticket port.old port.new) }
    ensures refused { IfErr result (λ refusal.
        IsStopped named ticket port.old port.new refusal) }
    ensures keeps { KeepsUnmappings port.old port.new }
    ensures same { name_of port.new ≡ name_of port.old }
{
    for to in 0..MAX_HARTS as u8 {
        if named.contains(to) {
            ask(port, ticket, to)?;
        }
    }
    Ok(())
}

/// Unmaps a page, posts the request to drop it to each other hart of `named`, bit h for hart h, and
/// drops the page from the own TLB. Waits for no hart: `collect` of the ticket, which is the answer,
/// tells how far it is, and once that is `Done` the page is gone from the named harts.
///
/// Refused as `HartPort::unmap`, nothing changes. Else refused as `HartPort::post`, say with `Full`,
/// at the lowest named hart that cannot be asked. Then the page is unmapped, its ticket is the lowest
/// number that was free, the named harts below that one are asked, and the own hart has not
/// acknowledged. The caller may go on with `post` and `ack_self`.
pub fn shoot_down(port: &mut HartPort, place: Place, page: Page, named: u8) -> Result<u32, Refusal>
    ensures shot_down { IfOk result (λ ticket.
        IsShotDown port.old place page named ticket port.new) }
    ensures refused { IfErr result (λ refusal.
        IsNotShotDown port.old place page named port.new refusal) }
    ensures stays_open { IfOk result (λ ticket. IsUnmapping port.new ticket place page named) }
    ensures same { name_of port.new ≡ name_of port.old }
{
    unmapping_stays_open();
    let ticket = port.unmap(place, page, named)?;
    ask_each(port, ticket, HartSet::from(named))?;
    port.ack_self(ticket)?;
    Ok(ticket)
}
