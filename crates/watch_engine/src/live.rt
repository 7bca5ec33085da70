//! What a hart can fill now.

ghost use Rattle.std.specs.Prelude.{◌≡◌, get_or, set};
ghost use Rattle.watch.specs.Computed.{has_leaf};
ghost use Rattle.watch.specs.ComputedTraces.{belongs_to, is_live_in};
ghost use Rattle.watch_engine.specs.declared.live.Answer.TheVariants.{Unasked};
ghost use Rattle.watch_engine.specs.Filling.{answer_from, is_live_answer};

use crate::tables::Tables;
use pte::Scheme;
use tlb::Entry;
use watch::Space;

/// What a hart has answered to whether it can fill a leaf now.
#[derive(Clone, Copy, PartialEq, Eq, Debug)]
pub(crate) enum Answer {
    Unasked,
    Live,
    NotLive,
}

impl Answer {
    fn from_live(live: bool) -> Answer
        ensures { result ≡ answer_from live }
    {
        if live { Answer::Live } else { Answer::NotLive }
    }

    /// The hart can fill the leaf.
    pub(crate) fn is_live(self) -> bool
        ensures { result ≡ is_live_answer self }
    {
        match self {
            Answer::Live => true,
            Answer::Unasked | Answer::NotLive => false,
        }
    }
}

/// What the hart has answered, if there is a place for it.
pub(crate) fn answer_of(answers: &[Answer], hart: u8) -> Answer
    ensures { result ≡ get_or answers.now hart Unasked }
{
    match answers.get(hart as usize) {
        Some(answer) => *answer,
        None => Answer::Unasked,
    }
}

/// With what the hart answers, if there is a place for it.
pub(crate) fn keep_answer(answers: &mut [Answer], hart: u8, live: bool)
    ensures { answers.new ≡ set answers.old hart (answer_from live) }
{
    let place = hart as usize;
    if place >= answers.len() {
        return;
    }
    answers[place] = Answer::from_live(live);
}

fn belongs_to(space: &Space, root: u64, entry: &Entry) -> bool
    ensures { result ≡ belongs_to space.now (record { root = root; entry = entry.now }) }
{
    entry.global || space.root == root && space.asid == entry.asid
}

// The tables of the root have the leaf.
fn has_leaf<T: Tables>(tables: &T, scheme: Scheme, root: u64, entry: &Entry) -> bool
    ensures { result ≡ has_leaf scheme (T.words tables.now) root entry.now }
{
    tables.has_leaf(scheme, root, entry)
}

/// The hart with this space in its satp can fill the translation now.
pub(crate) fn is_live_in<T: Tables>(
    tables: &T,
    scheme: Scheme,
    space: Option<Space>,
    root: u64,
    entry: &Entry,
) -> bool
    ensures { result ≡ is_live_in scheme (T.words tables.now) space
        (record { root = root; entry = entry.now }) }
{
    match space {
        None => false,
        Some(space) => {
            belongs_to(&space, root, entry) && has_leaf(tables, scheme, space.root, entry)
        }
    }
}
