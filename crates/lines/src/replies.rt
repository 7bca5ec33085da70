//! The lines of the replies to steps.
ghost use Rattle.std.specs.Prelude.{◌≡◌, ◌++◌, OnOk, IfOk, string_bytes};
ghost use Rattle.lines.specs.ReplyLines.{harts_text, page_text, reply_line, reply_lines, reply_text, what_text};

use crate::numbers::push_decimal;
use crate::printing::Text;
use history::Reply;
use pte::{Page, What};
use shoot::HartSet;
use std::alloc::{AllocError, Global};

/// Adds the harts of a set, ascending, with commas between them.
pub fn push_harts(text: &mut String, set: HartSet) -> Result<(), AllocError>
    ensures ok { OnOk result (string_bytes text.new ≡ string_bytes text.old ++ harts_text set) }
{
    let set = Text(set);
    write!(text, "{set}")
}

/// Adds a page: its size and its base, as `2M:0x400000`.
pub fn push_page(text: &mut String, page: Page) -> Result<(), AllocError>
    ensures ok { OnOk result (string_bytes text.new ≡ string_bytes text.old ++ page_text page) }
{
    let page = Text(page);
    write!(text, "{page}")
}

/// Adds what a request asks to drop.
pub fn push_what(text: &mut String, what: What) -> Result<(), AllocError>
    ensures ok { OnOk result (string_bytes text.new ≡ string_bytes text.old ++ what_text what) }
{
    let what = Text(what);
    write!(text, "{what}")
}

/// Adds the text of a reply.
pub fn push_reply(text: &mut String, reply: Reply) -> Result<(), AllocError>
    ensures ok { OnOk result (string_bytes text.new ≡ string_bytes text.old ++ reply_text reply) }
{
    let reply = Text(reply);
    write!(text, "{reply}")
}

/// Adds the line of a reply.
fn push_reply_line(text: &mut String, number: usize, reply: Reply) -> Result<(), AllocError>
    ensures ok { OnOk result (string_bytes text.new ≡ string_bytes text.old
        ++ reply_line number reply) }
{
    push_decimal(text, number)?;
    text.push_str(" ")?;
    push_reply(text, reply)?;
    text.push_str("\n")
}

/// The lines of `run`: each step's number, from 1, and its reply.
pub fn reply_lines(alloc: Global, replies: &[Reply]) -> Result<String, AllocError>
    ensures { IfOk result (λ text. string_bytes text ≡ reply_lines replies.now) }
{
    let mut text = String::new(alloc);
    for (index, reply) in replies.iter().enumerate() {
        push_reply_line(&mut text, index + 1, *reply)?;
    }
    Ok(text)
}
