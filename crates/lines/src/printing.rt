//! Values of the machine as text.

ghost use Rattle.std.specs.Prelude.{◌≡◌, ◌++◌};
ghost use Rattle.std.specs.Fmt.{WritesOnOk};
ghost use Rattle.lines.specs.AnswerLines.{hex};
ghost use Rattle.lines.specs.ReplyLines.{next_text, reach_text, refusal_text};
ghost use Rattle.lines.specs.Rows.{has_letter, letter_if, rights_text, uses_text};

use crate::answers::{size_word, why_word};
use crate::numbers::{MOST_DIGITS, write_hexadecimal};
use history::{Refusal, Reply};
use pte::{MAX_HARTS, Page, PteFlags, What};
use shoot::{HartSet, Request};
use std::fmt;
use std::str::from_utf8;

/// A value, to be printed: `{}` writes the text that the lines of `svsim` have for it.
#[derive(Clone, Copy)]
pub struct Text<T>(pub T);

fn refusal_word(refusal: Refusal) -> &'static str
    ensures { result.now ≡ refusal_text refusal }
{
    match refusal {
        Refusal::NoHart => "NoHart",
        Refusal::NoSpace => "NoSpace",
        Refusal::NotHome => "NotHome",
        Refusal::WrongHalf => "WrongHalf",
        Refusal::BadFlags => "BadFlags",
        Refusal::PpnTooLarge => "PpnTooLarge",
        Refusal::Misaligned => "Misaligned",
        Refusal::AlreadyMapped => "AlreadyMapped",
        Refusal::LeafInWay => "LeafInWay",
        Refusal::TableInWay => "TableInWay",
        Refusal::NoFrame => "NoFrame",
        Refusal::NotMapped => "NotMapped",
        Refusal::WrongSize => "WrongSize",
        Refusal::HomeNotNamed => "HomeNotNamed",
        Refusal::NoTicket => "NoTicket",
        Refusal::NotOpen => "NotOpen",
        Refusal::NotNamed => "NotNamed",
        Refusal::AlreadyPosted => "AlreadyPosted",
        Refusal::Closed => "Closed",
        Refusal::Full => "Full",
        Refusal::Empty => "Empty",
        Refusal::Walking => "Walking",
        Refusal::NotWalking => "NotWalking",
        Refusal::Serving => "Serving",
        Refusal::NotServing => "NotServing",
        Refusal::NotFenced => "NotFenced",
        Refusal::NotDone => "NotDone",
        Refusal::Retiring => "Retiring",
        Refusal::InUse => "InUse",
        Refusal::NotAcked => "NotAcked",
        Refusal::NotRetiring => "NotRetiring",
        Refusal::NotFree => "NotFree",
        Refusal::AsidInUse => "AsidInUse",
    }
}

/// Writes a hart, after a comma where it is not the first.
fn write_hart<W: fmt::Write>(f: &mut fmt::Formatter<W>, is_first: bool, hart: u8) -> fmt::Result
    ensures { WritesOnOk W.write_str_gives f.old result (next_text is_first hart) f.new }
{
    if is_first {
        write!(f, "{hart}")
    } else {
        write!(f, ",{hart}")
    }
}

/// Writes a number in hexadecimal, with its prefix.
fn write_address<W: fmt::Write>(f: &mut fmt::Formatter<W>, n: u64) -> fmt::Result
    ensures { WritesOnOk W.write_str_gives f.old result (hex n) f.new }
{
    f.write_str("0x")?;
    let mut buffer = [0; MOST_DIGITS];
    let start = write_hexadecimal(n, &mut buffer);
    match from_utf8(&buffer[start..]) {
        Ok(digits) => f.write_str(digits),
        Err(_) => unreachable!(),
    }
}

fn letter(is_set: bool, letter: &'static str) -> &'static str
    ensures { result.now ≡ letter_if is_set letter.now }
{
    if is_set { letter } else { "" }
}

/// Writes the letters of the set flags of R, W and X.
fn write_rights<W: fmt::Write>(f: &mut fmt::Formatter<W>, flags: PteFlags) -> fmt::Result
    ensures { WritesOnOk W.write_str_gives f.old result (rights_text flags) f.new }
{
    f.write_str(letter(flags.may_read(), "r"))?;
    f.write_str(letter(flags.may_write(), "w"))?;
    f.write_str(letter(flags.may_execute(), "x"))
}

/// Writes the letters of the set flags of U, G, A and D.
fn write_uses<W: fmt::Write>(f: &mut fmt::Formatter<W>, flags: PteFlags) -> fmt::Result
    ensures { WritesOnOk W.write_str_gives f.old result (uses_text flags) f.new }
{
    f.write_str(letter(flags.is_user(), "u"))?;
    f.write_str(letter(flags.is_global(), "g"))?;
    f.write_str(letter(flags.is_accessed(), "a"))?;
    f.write_str(letter(flags.is_dirty(), "d"))
}

/// Flags, to be printed in a row of a table: no letter is no text.
#[derive(Clone, Copy)]
pub(crate) struct Letters(pub(crate) PteFlags);

impl fmt::Display for Letters {
    ghost use Rattle.std.specs.Prelude.{Some};
    ghost use Rattle.lines.specs.Rows.{flags_text};

    ghost output = { λ letters. Some (flags_text letters.0) };

    fn fmt<W: fmt::Write>(&self, f: &mut fmt::Formatter<W>) -> fmt::Result {
        write_rights(f, self.0)?;
        write_uses(f, self.0)
    }
}

/// Whether some flag but V is set.
fn has_letter(flags: PteFlags) -> bool
    ensures { result ≡ has_letter flags }
{
    !flags.is_pointer()
        || flags.is_user()
        || flags.is_global()
        || flags.is_accessed()
        || flags.is_dirty()
}

impl fmt::Display for Text<PteFlags> {
    ghost use Rattle.std.specs.Prelude.{Some};
    ghost use Rattle.lines.specs.Rows.{flags_word};

    ghost output = { λ text. Some (flags_word text.0) };

    /// As a file writes flags: letters of `rwxugad`, or `-` for none.
    fn fmt<W: fmt::Write>(&self, f: &mut fmt::Formatter<W>) -> fmt::Result {
        if has_letter(self.0) {
            let letters = Letters(self.0);
            write!(f, "{letters}")
        } else {
            f.write_str("-")
        }
    }
}

impl fmt::Display for Text<Page> {
    ghost use Rattle.std.specs.Prelude.{Some};
    ghost use Rattle.lines.specs.ReplyLines.{page_text};

    ghost output = { λ text. Some (page_text text.0) };

    /// The size of a page and its base, as `2M:0x400000`.
    fn fmt<W: fmt::Write>(&self, f: &mut fmt::Formatter<W>) -> fmt::Result {
        let size = size_word(self.0.size());
        let base = self.0.base().get();
        write!(f, "{size}:0x{base:x}")
    }
}

/// Writes where a page is dropped: in the address space of an ASID, or in each.
fn write_reach<W: fmt::Write>(f: &mut fmt::Formatter<W>, asid: Option<u16>) -> fmt::Result
    ensures { WritesOnOk W.write_str_gives f.old result (reach_text asid) f.new }
{
    match asid {
        Some(asid) => write!(f, "asid {asid}"),
        None => f.write_str("global"),
    }
}

impl fmt::Display for Text<What> {
    ghost use Rattle.std.specs.Prelude.{Some};
    ghost use Rattle.lines.specs.ReplyLines.{what_text};

    ghost output = { λ text. Some (what_text text.0) };

    /// What a request asks to drop, as `page 4K:0x1000 asid 1`, `asid 1` or `all`.
    fn fmt<W: fmt::Write>(&self, f: &mut fmt::Formatter<W>) -> fmt::Result {
        match self.0 {
            What::PageOf(page, asid) => {
                let page = Text(page);
                write!(f, "page {page} ")?;
                write_reach(f, asid)
            }
            What::SpaceOf(asid) => write!(f, "asid {asid}"),
            What::All => f.write_str("all"),
        }
    }
}

impl fmt::Display for Text<Request> {
    ghost use Rattle.std.specs.Prelude.{Some};
    ghost use Rattle.lines.specs.ReplyLines.{request_text};

    ghost output = { λ text. Some (request_text text.0) };

    /// A request as the reply to a `take`, as `taken 0 all`.
    fn fmt<W: fmt::Write>(&self, f: &mut fmt::Formatter<W>) -> fmt::Result {
        let ticket = self.0.ticket;
        let what = Text(self.0.what);
        write!(f, "taken {ticket} {what}")
    }
}

impl fmt::Display for Text<HartSet> {
    ghost use Rattle.std.specs.Prelude.{Some};
    ghost use Rattle.lines.specs.ReplyLines.{harts_text};

    ghost output = { λ text. Some (harts_text text.0) };

    /// The harts, ascending, with commas between them.
    fn fmt<W: fmt::Write>(&self, f: &mut fmt::Formatter<W>) -> fmt::Result {
        let mut is_first = true;
        for hart in 0..MAX_HARTS as u8 {
            if self.0.contains(hart) {
                write_hart(f, is_first, hart)?;
                is_first = false;
            }
        }
        Ok(())
    }
}

impl fmt::Display for Text<Refusal> {
    ghost use Rattle.std.specs.Prelude.{Some};
    ghost use Rattle.lines.specs.ReplyLines.{refusal_text};

    ghost output = { λ text. Some (refusal_text text.0) };

    /// The name of the refusal, as `NoHart`.
    fn fmt<W: fmt::Write>(&self, f: &mut fmt::Formatter<W>) -> fmt::Result {
        f.write_str(refusal_word(self.0))
    }
}

impl fmt::Display for Text<Reply> {
    ghost use Rattle.std.specs.Prelude.{Some};
    ghost use Rattle.lines.specs.ReplyLines.{reply_text};

    ghost output = { λ text. Some (reply_text text.0) };

    /// A reply without the number of its step, as `hit 0x200123` or `refused NoHart`.
    fn fmt<W: fmt::Write>(&self, f: &mut fmt::Formatter<W>) -> fmt::Result {
        match self.0 {
            Reply::Hit(pa) => {
                f.write_str("hit ")?;
                write_address(f, pa)
            }
            Reply::Trap(trap) => {
                let cause = trap.cause;
                let why = why_word(trap.why);
                write!(f, "trap {cause} {why}")
            }
            Reply::More => f.write_str("more"),
            Reply::Filled(pa) => {
                f.write_str("fill ")?;
                write_address(f, pa)
            }
            Reply::Table(ppn) => write!(f, "table 0x{ppn:x}"),
            Reply::Leaf => f.write_str("leaf"),
            Reply::Opened(ticket) => write!(f, "opened {ticket}"),
            Reply::Ok => f.write_str("ok"),
            Reply::Taken(request) => {
                let request = Text(request);
                write!(f, "{request}")
            }
            Reply::Done => f.write_str("done"),
            Reply::Waiting(left) => {
                let left = Text(HartSet::from(left));
                write!(f, "waiting {left}")
            }
            Reply::Refused(refusal) => {
                let refusal = Text(refusal);
                write!(f, "refused {refusal}")
            }
        }
    }
}
