//! The word by which a hart acknowledges a request.

ghost use Rattle.std.specs.Prelude.{◌≡◌, ◌≢◌, ◌<◌, ◌^◌};
ghost use Rattle.pte.specs.Address.{IsPage, level_of};
ghost use Rattle.shoot.specs.Acknowledgement.{IsAskable, acknowledgement, number_in, word_with};

use crate::request::Request;
use pte::{PAGE_BYTES, Page, What};

/// How many bits of a page's address identify the page: bits 47 to 12.
const NUMBER_BITS: u32 = 36;

/// An acknowledgement by its word: bit 63 is 1, bits 55 and 54 are the kind, 53 and 52 the size of
/// the page by its level, 51 to 36 the ASID, and 35 to 0 bits 47 to 12 of the page's address; all
/// else is 0.
#[derive(Clone, Copy)]
struct AcknowledgementWord(u64);

impl AcknowledgementWord {
    const MARK: u64 = 1 << 63;

    const PAGE_OF_ASID: u64 = 0;

    const GLOBAL_PAGE: u64 = 1;

    const SPACE: u64 = 2;

    const ALL: u64 = 3;

    /// The word of a kind that speaks of no page.
    fn of_kind(kind: u64, asid: u16) -> AcknowledgementWord
        requires { kind < 4 }
        ensures { result.0 ≡ word_with kind 0 asid 0 }
    {
        AcknowledgementWord(Self::MARK + (kind << 54) + (u64::from(asid) << NUMBER_BITS))
    }

    /// The word of a kind that speaks of a page.
    fn of_page(kind: u64, page: &Page, asid: u16) -> AcknowledgementWord
        requires { kind < 2 }
        ensures word { result.0
            ≡ word_with kind (level_of page.now.size) asid (number_in page.now) }
        ensures page { IsPage page.now }
    {
        let size = u64::from(page.size().level());
        let number = page.base().get() / PAGE_BYTES % (1 << NUMBER_BITS);
        AcknowledgementWord(Self::of_kind(kind, asid).0 + (size << 52) + number)
    }

    fn of(what: &What) -> AcknowledgementWord
        ensures word { result.0 ≡ acknowledgement what.now }
        ensures asked { IsAskable what.now }
    {
        match *what {
            What::PageOf(page, Some(asid)) => Self::of_page(Self::PAGE_OF_ASID, &page, asid),
            What::PageOf(page, None) => Self::of_page(Self::GLOBAL_PAGE, &page, 0),
            What::SpaceOf(asid) => Self::of_kind(Self::SPACE, asid),
            What::All => Self::of_kind(Self::ALL, 0),
        }
    }
}

/// The word that acknowledges a request. It is never 0, and two requests have the same word exactly
/// if they ask for the same, under whatever tickets (law `equal_words_ask_for_the_same`).
pub fn encode(request: &Request) -> u64
    ensures word { result ≡ acknowledgement request.now.what }
    ensures not_zero { result ≢ 0 }
    ensures asked { IsAskable request.now.what }
{
    AcknowledgementWord::of(&request.what).0
}
