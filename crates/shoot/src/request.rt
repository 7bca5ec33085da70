//! Requests.

use pte::What;
use std::marker::Model;

/// What one hart asks another to drop, under the number of the ticket that
/// keeps count of the answers. The number is below 64.
#[derive(Clone, Copy, PartialEq, Eq, Debug)]
pub struct Request {
    /// The number of the sender's ticket.
    pub ticket: u32,
    /// What is to be dropped.
    pub what: What,
}

impl Model for Request {
    ghost use Rattle.std.specs.Prelude.{◌<◌};
    ghost use Rattle.shoot.specs.Request.{Request};
    ghost use Rattle.shoot.specs.declared.TheConstants.{MAX_TICKETS};

    ghost Value = { Request };

    ghost view = { λ r. record { ticket = r.ticket; what = r.what } };

    ghost invariant = { λ r. r.ticket < MAX_TICKETS };

    ghost inverse = { λ m. record { ticket = m.ticket; what = m.what } };
}

impl Default for Request {
    ghost use Rattle.std.specs.Prelude.{◌≡◌};
    ghost use Rattle.shoot.specs.Request.{Request};
    ghost use Rattle.pte.specs.declared.address.What.TheVariants.{All};

    ghost is_default = { λ r. r ≡ record { ticket = 0; what = All } };

    /// The request of ticket 0 for everything.
    fn default() -> Request {
        Request {
            ticket: 0,
            what: What::All,
        }
    }
}
