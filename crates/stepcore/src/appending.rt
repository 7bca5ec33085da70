//! Replies that are appended where there is room. Each kind of reply to an access has a function of
//! its own, which makes the reply where it stands: a `Reply` has room for a request, and one that
//! is made before is moved as a whole.

ghost use Rattle.std.specs.Prelude.{◌≡◌, ◌<◌, ◌+◌, ◌++◌, ◌∷◌, []};
ghost use Rattle.std.specs.Vec.{vec_capacity, vec_len};
ghost use Rattle.history.specs.declared.reply.Reply.TheVariants as reply;
ghost use Rattle.stepcore.specs.Answers.{reply_to_access};
ghost use Rattle.stepcore.specs.Changes.{reply_of};

use crate::hart::AccessReply;
use history::{Refusal, Reply};
use walk::Trap;

/// Appends a hit.
#[inline(always)]
fn append_hit(pa: u64, replies: &mut Vec<Reply>)
    requires { vec_len replies.old < vec_capacity replies.old }
    ensures items { replies.new.items ≡ replies.old.items ++ reply.Hit pa ∷ [] }
    ensures len { vec_len replies.new ≡ vec_len replies.old + 1 }
    ensures capacity { vec_capacity replies.new ≡ vec_capacity replies.old }
{
    replies.push_reserved(Reply::Hit(pa));
}

/// Appends that a walk goes on.
#[inline(always)]
fn append_more(replies: &mut Vec<Reply>)
    requires { vec_len replies.old < vec_capacity replies.old }
    ensures items { replies.new.items ≡ replies.old.items ++ reply.More ∷ [] }
    ensures len { vec_len replies.new ≡ vec_len replies.old + 1 }
    ensures capacity { vec_capacity replies.new ≡ vec_capacity replies.old }
{
    replies.push_reserved(Reply::More);
}

/// Appends what a walk found.
#[inline(always)]
fn append_filled(pa: u64, replies: &mut Vec<Reply>)
    requires { vec_len replies.old < vec_capacity replies.old }
    ensures items { replies.new.items ≡ replies.old.items ++ reply.Filled pa ∷ [] }
    ensures len { vec_len replies.new ≡ vec_len replies.old + 1 }
    ensures capacity { vec_capacity replies.new ≡ vec_capacity replies.old }
{
    replies.push_reserved(Reply::Filled(pa));
}

/// Appends a trap.
#[inline(never)]
fn append_trap(trap: Trap, replies: &mut Vec<Reply>)
    requires { vec_len replies.old < vec_capacity replies.old }
    ensures items { replies.new.items ≡ replies.old.items ++ reply.Trap trap ∷ [] }
    ensures len { vec_len replies.new ≡ vec_len replies.old + 1 }
    ensures capacity { vec_capacity replies.new ≡ vec_capacity replies.old }
{
    replies.push_reserved(Reply::Trap(trap));
}

/// Appends a refusal.
#[inline(never)]
fn append_refused(refusal: Refusal, replies: &mut Vec<Reply>)
    requires { vec_len replies.old < vec_capacity replies.old }
    ensures items { replies.new.items ≡ replies.old.items ++ reply.Refused refusal ∷ [] }
    ensures len { vec_len replies.new ≡ vec_len replies.old + 1 }
    ensures capacity { vec_capacity replies.new ≡ vec_capacity replies.old }
{
    replies.push_reserved(Reply::Refused(refusal));
}

/// Appends the reply to an access or a load.
#[inline(always)]
pub(crate) fn append(answer: AccessReply, replies: &mut Vec<Reply>)
    requires { vec_len replies.old < vec_capacity replies.old }
    ensures items { replies.new.items ≡ replies.old.items ++ reply_to_access answer ∷ [] }
    ensures len { vec_len replies.new ≡ vec_len replies.old + 1 }
    ensures capacity { vec_capacity replies.new ≡ vec_capacity replies.old }
{
    match answer {
        AccessReply::Hit(pa) => append_hit(pa, replies),
        AccessReply::More => append_more(replies),
        AccessReply::Filled(pa) => append_filled(pa, replies),
        AccessReply::Trap(trap) => append_trap(trap, replies),
        AccessReply::Refused(refusal) => append_refused(refusal, replies),
    }
}

/// Appends what an event is answered, as a reply.
#[inline(always)]
pub(crate) fn append_answer(answer: Result<Reply, Refusal>, replies: &mut Vec<Reply>)
    requires { vec_len replies.old < vec_capacity replies.old }
    ensures items { replies.new.items ≡ replies.old.items ++ reply_of answer ∷ [] }
    ensures len { vec_len replies.new ≡ vec_len replies.old + 1 }
    ensures capacity { vec_capacity replies.new ≡ vec_capacity replies.old }
{
    match answer {
        Ok(reply) => replies.push_reserved(reply),
        Err(refusal) => append_refused(refusal, replies),
    }
}
