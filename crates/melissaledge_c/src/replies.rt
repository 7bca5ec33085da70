//! The replies of a machine, as numbers.

ghost use Rattle.std.specs.Prelude.{◌≡◌};
ghost use Rattle.melissaledge_c.specs.Replies.{reply_given, what_given, zero_reply};

use crate::codes::why_code;
use crate::requests::WhatAsked;
use pte::What;
use stepcore::Reply;

/// A reply: `struct mle_reply` of C. Each field that the kind does not name is 0.
#[repr(C)]
#[derive(Clone, Copy, PartialEq, Eq, Default)]
pub struct ReplyGiven {
    /// The physical address of kinds 0 and 3, the PPN of kind 4, the ticket of kinds 6 and 8, the
    /// harts of kind 10.
    pub value: u64,
    /// What was taken, for kind 8.
    pub what: WhatAsked,
    /// What is answered.
    pub kind: u8,
    /// The cause of the exception, for kind 1.
    pub cause: u8,
    /// Why there is an exception, for kind 1.
    pub why: u8,
    /// The number of the refusal, for kind 11.
    pub refusal: u8,
}

impl WhatAsked {
    /// The numbers of what is to be dropped.
    pub(crate) fn of(what: &What) -> WhatAsked
        ensures { result ≡ what_given what.now }
    {
        match what {
            What::PageOf(page, asid) => WhatAsked {
                page_base: page.base().get(),
                page_bytes: page.size().bytes(),
                asid: asid.unwrap_or(0),
                has_asid: if asid.is_some() { 1 } else { 0 },
                kind: 0,
            },
            What::SpaceOf(asid) => WhatAsked {
                asid: *asid,
                kind: 1,
                ..WhatAsked::default()
            },
            What::All => WhatAsked {
                kind: 2,
                ..WhatAsked::default()
            },
        }
    }
}

impl ReplyGiven {
    /// A kind and its number.
    fn told(kind: u8, value: u64) -> ReplyGiven
        ensures { result ≡ record zero_reply { kind = kind; value = value } }
    {
        ReplyGiven {
            kind,
            value,
            ..ReplyGiven::default()
        }
    }

    /// The numbers of a reply.
    pub(crate) fn of(reply: &Reply) -> ReplyGiven
        ensures { result ≡ reply_given reply.now }
    {
        match reply {
            Reply::Hit(pa) => ReplyGiven::told(0, *pa),
            Reply::Trap(trap) => ReplyGiven {
                kind: 1,
                cause: trap.cause,
                why: why_code(trap.why),
                ..ReplyGiven::default()
            },
            Reply::More => ReplyGiven::told(2, 0),
            Reply::Filled(pa) => ReplyGiven::told(3, *pa),
            Reply::Table(ppn) => ReplyGiven::told(4, *ppn),
            Reply::Leaf => ReplyGiven::told(5, 0),
            Reply::Opened(ticket) => ReplyGiven::told(6, u64::from(*ticket)),
            Reply::Ok => ReplyGiven::told(7, 0),
            Reply::Taken(request) => ReplyGiven {
                kind: 8,
                value: u64::from(request.ticket),
                what: WhatAsked::of(&request.what),
                ..ReplyGiven::default()
            },
            Reply::Done => ReplyGiven::told(9, 0),
            Reply::Waiting(named) => ReplyGiven::told(10, u64::from(*named)),
            Reply::Refused(refusal) => ReplyGiven {
                kind: 11,
                refusal: refusal.code(),
                ..ReplyGiven::default()
            },
        }
    }
}
