//! The words of an access: its mode, and what it does.
ghost use Rattle.std.specs.Prelude.{◌≡◌};
ghost use Rattle.steps.specs.Accesses.{access_of, ctx_of};

use pte::{Access, Ctx, Mode};

/// `fetch`, `load` or `store`.
pub fn read_access(word: &[u8]) -> Option<Access>
    ensures { result ≡ access_of word.now }
{
    if word == b"fetch".as_slice() {
        Some(Access::Fetch)
    } else if word == b"load".as_slice() {
        Some(Access::Load)
    } else if word == b"store".as_slice() {
        Some(Access::Store)
    } else {
        None
    }
}

/// `u` or `s`, then perhaps `+sum`, then perhaps `+mxr`.
pub fn read_ctx(word: &[u8]) -> Option<Ctx>
    ensures { result ≡ ctx_of word.now }
{
    let ctx = |mode, sum, mxr| Some(Ctx { mode, sum, mxr });
    if word == b"u".as_slice() {
        ctx(Mode::User, false, false)
    } else if word == b"u+sum".as_slice() {
        ctx(Mode::User, true, false)
    } else if word == b"u+mxr".as_slice() {
        ctx(Mode::User, false, true)
    } else if word == b"u+sum+mxr".as_slice() {
        ctx(Mode::User, true, true)
    } else if word == b"s".as_slice() {
        ctx(Mode::Super, false, false)
    } else if word == b"s+sum".as_slice() {
        ctx(Mode::Super, true, false)
    } else if word == b"s+mxr".as_slice() {
        ctx(Mode::Super, false, true)
    } else if word == b"s+sum+mxr".as_slice() {
        ctx(Mode::Super, true, true)
    } else {
        None
    }
}
