//! What a hart may find in the spaces of the others, and take from them, given what they did.

use crate::accounts::{Account, Asked, awaited_in, number_of};
use crate::calls::{Answer, INVALID};
use crate::live_calls::answer_of;
use crate::scripts::ppn_of;
use harts::LiveReply;
use history::{LiveStep, Reply};
use shoot::Request;

/// Which space a hart is in, how many requests from each hart it has taken at least, and the least
/// version that it may still find of each page: what it served the unmapping of is gone, and what
/// it found once is not replaced by something older.
#[derive(Clone, Copy)]
pub(crate) struct Reader {
    hart: u8,
    space: u8,
    taken: [u64; 8],
    least: [u16; 16],
}

/// Where the least version of a page of a space stands.
fn place_of(space: u8, number: u8) -> usize {
    2 * usize::from(space) + usize::from(number)
}

impl Reader {
    pub(crate) fn new(hart: u8) -> Reader {
        Reader {
            hart,
            space: 0,
            taken: [0; 8],
            least: [0; 16],
        }
    }

    /// How many requests from a hart it has taken at least.
    pub(crate) fn known(&self, from: u8) -> u64 {
        match self.taken.get(usize::from(from)) {
            Some(taken) => *taken,
            None => 0,
        }
    }

    fn raise(&mut self, space: u8, number: u8, version: u16) {
        if let Some(least) = self.least.get_mut(place_of(space, number)) {
            *least = version.max(*least);
        }
    }

    /// The hart serves a request of another, which took a page away perhaps.
    fn drop_gone(&mut self, space: u8, asked: &Asked) {
        if let Some(gone) = asked.order.gone {
            self.raise(space, gone.page, gone.version.saturating_add(1));
        }
    }

    fn set_taken(&mut self, from: u8, number: u64) {
        if let Some(taken) = self.taken.get_mut(usize::from(from)) {
            *taken = number;
        }
    }

    /// A request that was taken: the first one of those that the sender asked, after those that
    /// were taken, that is the same. Those before it were taken too.
    fn serve(&mut self, from: u8, account: &Account, request: Option<&Request>) -> bool {
        let known = self.known(from);
        let mut number: u64 = 0;
        for asked in account.asked.iter() {
            if asked.to != self.hart {
                continue;
            }
            number = number.saturating_add(1);
            if number <= known {
                continue;
            }
            self.drop_gone(from, asked);
            if request.is_none() || asked.is_same(request) {
                self.set_taken(from, number);
                return true;
            }
        }
        false
    }

    /// The same of a request of the hart of that number.
    fn serve_of(&mut self, from: u8, accounts: &[Account], request: Option<&Request>) -> bool {
        match accounts.get(usize::from(from)) {
            Some(account) => self.serve(from, account, request),
            None => false,
        }
    }

    /// Whether that version of a page of the space may be found.
    fn may_find(&self, number: u8, version: u16, accounts: &[Account]) -> bool {
        let Some(home) = accounts.get(usize::from(self.space)) else {
            return false;
        };
        let Some(least) = self.least.get(place_of(self.space, number)) else {
            return false;
        };
        *least <= version && home.maps.contains(&(number, version))
    }

    /// A load finds what was mapped there once, and is not gone.
    fn load(&mut self, va: u64, accounts: &[Account], answer: &Answer) -> bool {
        let Answer::Found(pa) = *answer else {
            return *answer == INVALID;
        };
        let Some(number) = number_of(va) else {
            return false;
        };
        let version = (pa / 0x1000 % 0x1_0000) as u16;
        let is_right = self.may_find(number, version, accounts);
        self.raise(self.space, number, version);
        is_right && pa % 0x1000 == va % 0x1000 && pa / 0x1000 == ppn_of(self.space, version)
    }

    /// Whether a step may have the answer, as far as it speaks of other harts.
    pub(crate) fn allows(
        &mut self,
        accounts: &[Account],
        step: &LiveStep,
        reply: &LiveReply,
    ) -> bool {
        match *step {
            LiveStep::Switch { space } => {
                self.space = space;
                true
            }
            LiveStep::Translate { va, .. } => self.load(va, accounts, &answer_of(reply)),
            LiveStep::Serve { from } => match reply {
                LiveReply::Replied(Reply::Taken(request)) => {
                    self.serve_of(from, accounts, Some(request))
                }
                _ => true,
            },
            LiveStep::AckSelf { .. } => {
                awaited_in(&answer_of(reply)).is_none() || self.serve_of(self.hart, accounts, None)
            }
            _ => true,
        }
    }
}
