//! Remote fences and claims that have begun and not ended.

ghost use Rattle.std.specs.Prelude.{ℕ, ◌≡◌, None, filter};
ghost use Rattle.watch_engine.specs.Open.{is_not_of, newest};

use watch::{Claim, RemoteFence};

/// A remote fence that has begun.
#[derive(Clone, Copy, PartialEq, Eq, Debug)]
pub(crate) struct OpenFence {
    pub(crate) token: u64,
    pub(crate) fence: RemoteFence,
    /// The number of records up to its begin.
    pub(crate) begun: u64,
}

/// A claim that has begun.
#[derive(Clone, Copy, PartialEq, Eq, Debug)]
pub(crate) struct OpenClaim {
    pub(crate) token: u64,
    pub(crate) claim: Claim,
    /// The number of records up to its begin.
    pub(crate) begun: u64,
}

/// What begins under a token.
pub(crate) trait Begun: Copy {
    // its token
    ghost token_of: { Self → ℕ };

    /// Its token.
    fn token(&self) -> u64
        ensures { result ≡ token_of self.now };
}

impl Begun for OpenFence {
    ghost token_of = { λ o. o.token };

    fn token(&self) -> u64 {
        self.token
    }
}

impl Begun for OpenClaim {
    ghost token_of = { λ o. o.token };

    fn token(&self) -> u64 {
        self.token
    }
}

// The newest under the token.
pub(crate) fn newest<B: Begun>(begun: &[B], token: u64) -> Option<B>
    ensures { result ≡ newest B.token_of token None begun.now }
{
    let mut found = None;
    for one in begun {
        if one.token() == token {
            found = Some(*one);
        }
    }
    found
}

// Without those under the token.
pub(crate) fn end_all<B: Begun>(begun: &mut Vec<B>, token: u64)
    ensures { begun.new.items ≡ filter (is_not_of B.token_of token) begun.old.items }
{
    begun.retain(|one| one.token() != token);
}
