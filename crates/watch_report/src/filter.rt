//! Which verdicts a report tells of.
ghost use Rattle.std.specs.Prelude.{◌≡◌, ◌==◌, false, option_map, true};
ghost use Rattle.std.specs.List.{filter as kept_by};
ghost use Rattle.pte.specs.Address.{holds};
ghost use Rattle.watch_report.specs.Fields.{hart_field, hexadecimal_field};
ghost use Rattle.watch_report.specs.Filters.{asked, filter_in, has_kind, is_open, kind_in, passes, takes, verdict_in};

use crate::numbers::{decimal, hexadecimal};
use pte::Page;
use watch::Verdict;
use watch_engine::Warning;

/// The most harts of a trace.
const HARTS: u64 = 64;

/// What the word of a verdict says in its line: `free`, `reuse`, `claim` or `use`, or one of these
/// after `kernel-`.
#[derive(Clone, Copy, PartialEq, Eq, Debug)]
pub struct Kind {
    /// Of a global page, which is the kernel's.
    pub global: bool,
    /// What is wrong.
    pub verdict: Verdict,
}

/// Which verdicts a report tells of: those that pass each test that is there.
#[derive(Clone, Copy, PartialEq, Eq, Debug, Default)]
pub struct Filter {
    /// The hart of the verdict.
    pub hart: Option<u8>,
    /// An address in its page.
    pub address: Option<u64>,
    /// The word in its line.
    pub kind: Option<Kind>,
}

impl Kind {
    /// Whether a verdict on a page, global or not, has the word.
    fn is_of(self, verdict: Verdict, global: bool) -> bool
        ensures { result ≡ has_kind verdict global self }
    {
        self.verdict == verdict && self.global == global
    }
}

/// Whether the address lies in the page. It may be an address of no page at all.
fn lies_in(address: u64, page: &Page) -> bool
    ensures { result ≡ holds page.now address }
{
    let base = page.base().get();
    base <= address && address - base < page.size().bytes()
}

impl Filter {
    /// Whether no test is there.
    fn is_open(&self) -> bool
        ensures { result ≡ is_open self.now }
    {
        self.hart.is_none() && self.address.is_none() && self.kind.is_none()
    }

    fn takes_hart(&self, warning: &Warning) -> bool
        ensures { result ≡ passes (λ hart. warning.now.hart == hart) self.now.hart }
    {
        match self.hart {
            Some(hart) => warning.hart == hart,
            None => true,
        }
    }

    fn takes_page(&self, warning: &Warning) -> bool
        ensures { result ≡ passes (holds warning.now.entry.page) self.now.address }
    {
        match self.address {
            Some(address) => lies_in(address, &warning.entry.page),
            None => true,
        }
    }

    fn takes_kind(&self, warning: &Warning) -> bool
        ensures { result
            ≡ passes (has_kind warning.now.verdict warning.now.entry.global) self.now.kind }
    {
        match self.kind {
            Some(kind) => kind.is_of(warning.verdict, warning.entry.global),
            None => true,
        }
    }

    /// Whether a report tells of this verdict.
    pub fn takes(&self, warning: &Warning) -> bool
        ensures { result ≡ takes self.now warning.now }
    {
        self.takes_hart(warning) && self.takes_page(warning) && self.takes_kind(warning)
    }

    /// Drops the verdicts of which a report does not tell.
    pub(crate) fn retain(&self, warnings: &mut Vec<Warning>)
        ensures { warnings.new.items ≡ kept_by (takes self.now) warnings.old.items }
    {
        if warnings.is_empty() {
            return;
        }
        if self.is_open() {
            return;
        }
        warnings.retain(|warning| self.takes(warning));
    }
}

/// The verdict on a user's page that has this word.
pub(crate) fn user_verdict(word: &[u8]) -> Option<Verdict>
    ensures { result ≡ verdict_in false word.now }
{
    if word == b"free".as_slice() {
        Some(Verdict::Free)
    } else if word == b"reuse".as_slice() {
        Some(Verdict::Reuse)
    } else if word == b"claim".as_slice() {
        Some(Verdict::Claimed)
    } else if word == b"use".as_slice() {
        Some(Verdict::Used)
    } else {
        None
    }
}

/// The verdict on the kernel's page that has this word.
fn kernel_verdict(word: &[u8]) -> Option<Verdict>
    ensures { result ≡ verdict_in true word.now }
{
    if word == b"kernel-free".as_slice() {
        Some(Verdict::Free)
    } else if word == b"kernel-reuse".as_slice() {
        Some(Verdict::Reuse)
    } else if word == b"kernel-claim".as_slice() {
        Some(Verdict::Claimed)
    } else if word == b"kernel-use".as_slice() {
        Some(Verdict::Used)
    } else {
        None
    }
}

fn read_kind(word: &[u8]) -> Option<Kind>
    ensures { result ≡ kind_in word.now }
{
    if let Some(verdict) = user_verdict(word) {
        return Some(Kind {
            global: false,
            verdict,
        });
    }
    let verdict = kernel_verdict(word)?;
    Some(Kind {
        global: true,
        verdict,
    })
}

fn read_hart(word: &[u8]) -> Option<u8>
    ensures { result ≡ hart_field 64 word.now }
{
    let hart = decimal(word)?;
    if hart < HARTS { Some(hart as u8) } else { None }
}

/// The test of harts that a word asks for, or none without a word. `None`: it is no hart.
fn hart_test(word: Option<&[u8]>) -> Option<Option<u8>>
    ensures { result ≡ asked (hart_field 64) (option_map (λ w. w.now) word.entry) }
{
    let Some(word) = word else {
        return Some(None);
    };
    Some(Some(read_hart(word)?))
}

/// The same of pages.
fn page_test(word: Option<&[u8]>) -> Option<Option<u64>>
    ensures { result ≡ asked hexadecimal_field (option_map (λ w. w.now) word.entry) }
{
    let Some(word) = word else {
        return Some(None);
    };
    Some(Some(hexadecimal(word)?))
}

/// The same of kinds.
fn kind_test(word: Option<&[u8]>) -> Option<Option<Kind>>
    ensures { result ≡ asked kind_in (option_map (λ w. w.now) word.entry) }
{
    let Some(word) = word else {
        return Some(None);
    };
    Some(Some(read_kind(word)?))
}

/// The filter that words ask for: a hart in decimal digits, 0 to 63; an address of a page in 1 to 16
/// hexadecimal digits, without `0x`; and the word of a kind. `None`: one of them is no such word.
pub fn read_filter(hart: Option<&[u8]>, page: Option<&[u8]>, kind: Option<&[u8]>) -> Option<Filter>
    ensures { result ≡ filter_in (option_map (λ w. w.now) hart.entry)
        (option_map (λ w. w.now) page.entry) (option_map (λ w. w.now) kind.entry) }
{
    let hart = hart_test(hart)?;
    let address = page_test(page)?;
    let kind = kind_test(kind)?;
    Some(Filter {
        hart,
        address,
        kind,
    })
}
