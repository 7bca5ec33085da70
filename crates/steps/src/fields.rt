//! The words of a step.
ghost use Rattle.std.specs.Prelude.{◌≡◌, option_map};
ghost use Rattle.steps.specs.Likely.{letter};
ghost use Rattle.steps.specs.Fields.{among, are_there, asid_of, flag_of, flags_of, hart_in, listed_of, named_among, named_in, named_of, page_after, page_at, page_in, page_of, place_of, register_of, scope_of, sized_page_of, space_of, ticket_of, with_hart, with_letters, with_part};

use crate::fault::StepFault;
use crate::numbers::num;
use bitflags::Flags;
use history::Scope;
use pte::{ASID_BITS, MAX_HARTS, Page, PageSize, PteFlags, Scheme, VirtAddr};
use shoot::HartSet;
use spaces::Place;

/// A size and an address that is a page's base, or not.
#[derive(Clone, Copy, Debug, PartialEq, Eq)]
pub struct PageWord {
    pub base: u64,
    pub size: PageSize,
}

/// Harts that are named by their numbers, whether they exist or not.
#[derive(Clone, Copy)]
pub struct NamedHarts {
    /// Those whose numbers a hart can have.
    pub set: HartSet,
    /// The greatest number, `None` where no hart is named.
    pub greatest: Option<u64>,
}

/// A number below 2^32.
pub fn ticket(word: &[u8]) -> Option<u32>
    ensures { result ≡ ticket_of word.now }
{
    let ticket = num(word)?;
    if ticket < 1 << 32 {
        Some(ticket as u32)
    } else {
        None
    }
}

/// A number below 256.
pub fn space(word: &[u8]) -> Option<u8>
    ensures { result ≡ space_of word.now }
{
    let space = num(word)?;
    if space < 1 << 8 {
        Some(space as u8)
    } else {
        None
    }
}

/// A number below 65536.
pub fn asid(word: &[u8]) -> Option<u16>
    ensures { result ≡ asid_of word.now }
{
    let asid = num(word)?;
    if asid < 1 << ASID_BITS {
        Some(asid as u16)
    } else {
        None
    }
}

/// A space, or `k` for the kernel window.
pub fn place(word: &[u8]) -> Option<Place>
    ensures { result ≡ place_of word.now }
{
    if word == b"k".as_slice() {
        return Some(Place::Kernel);
    }
    let space = space(word)?;
    Some(Place::Space(space))
}

/// A space, or `all`.
pub fn scope(word: &[u8]) -> Option<Scope>
    ensures { result ≡ scope_of word.now }
{
    if word == b"all".as_slice() {
        return Some(Scope::All);
    }
    let space = space(word)?;
    Some(Scope::Space(space))
}

/// The operand of a fence: `None` is the register x0, which the word `x0` names, and a number is
/// what another holds.
pub fn register(word: &[u8]) -> Option<Option<u64>>
    ensures { result ≡ register_of word.now }
{
    if word == b"x0".as_slice() {
        return Some(None);
    }
    let value = num(word)?;
    Some(Some(value))
}

/// The first letter of a word, 0 where there is none.
fn first_letter(word: &[u8]) -> u8
    ensures { result ≡ letter word.now 0 }
{
    word.first().copied().unwrap_or(0)
}

/// A page of this size, whose address stands after a prefix.
fn page_after(prefix: &[u8], size: PageSize, word: &[u8]) -> Option<PageWord>
    ensures { result ≡ page_after prefix.now size word.now }
{
    let digits = word.strip_prefix(prefix)?;
    let base = num(digits)?;
    Some(PageWord { base, size })
}

/// `4K`, `2M`, `1G` or `512G`, a colon, and an address: the first digit tells which it can be.
#[tactic(auto, using(crate::proofs::PageLemmas::page_by_4, crate::proofs::PageLemmas::page_by_2, crate::proofs::PageLemmas::page_by_1, crate::proofs::PageLemmas::page_by_others))]
fn sized_page(word: &[u8]) -> Option<PageWord>
    ensures { result ≡ sized_page_of word.now }
{
    let first = first_letter(word);
    if first == b'4' {
        page_after(b"4K:".as_slice(), PageSize::Kib4, word)
    } else if first == b'2' {
        page_after(b"2M:".as_slice(), PageSize::Mib2, word)
    } else if first == b'1' {
        page_after(b"1G:".as_slice(), PageSize::Gib1, word)
    } else {
        page_after(b"512G:".as_slice(), PageSize::Gib512, word)
    }
}

/// A size that the scheme has, a colon, and an address.
fn page_word(scheme: Scheme, word: &[u8]) -> Option<PageWord>
    ensures { result ≡ page_of scheme word.now }
{
    let page = sized_page(word)?;
    if page.size.level() <= scheme.top_level() {
        Some(page)
    } else {
        None
    }
}

/// The page that the word writes. `NotPage`: its address is not canonical in the scheme, or no
/// multiple of its size.
fn page_at(scheme: Scheme, word: PageWord) -> Result<Page, StepFault>
    ensures { result ≡ page_at scheme word }
{
    let Some(base) = VirtAddr::new_in(scheme, word.base) else {
        return Err(StepFault::NotPage);
    };
    match Page::new(base, word.size) {
        Ok(page) => Ok(page),
        Err(_) => Err(StepFault::NotPage),
    }
}

/// The flag of a letter: one of `rwxugad`.
fn flag(letter: u8) -> Option<PteFlags>
    ensures { option_map (λ flag. flag.0) result ≡ flag_of letter }
{
    match letter {
        b'r' => Some(PteFlags::R),
        b'w' => Some(PteFlags::W),
        b'x' => Some(PteFlags::X),
        b'u' => Some(PteFlags::U),
        b'g' => Some(PteFlags::G),
        b'a' => Some(PteFlags::A),
        b'd' => Some(PteFlags::D),
        _ => None,
    }
}

/// The flags of the letters, each of which stands once.
fn with_letters(letters: &[u8]) -> Option<PteFlags>
    ensures { option_map (λ flags. flags.0) result ≡ with_letters 0 letters.now }
{
    let mut flags = PteFlags::empty();
    for letter in letters {
        let flag = flag(*letter)?;
        if flags.intersects(flag) {
            return None;
        }
        flags = flags.union(flag);
    }
    Some(flags)
}

/// Letters of `rwxugad`, each at most once, or `-` for none.
pub fn flags(word: &[u8]) -> Option<PteFlags>
    ensures { result ≡ flags_of word.now }
{
    if word.is_empty() {
        return None;
    }
    if word == b"-".as_slice() {
        return Some(PteFlags::empty());
    }
    with_letters(word)
}

/// The hart of this number, where there are `harts` harts with numbers from 0. `NoSuchHart`: the
/// number is not below `harts`.
fn among(harts: u8, hart: u64) -> Result<u8, StepFault>
    ensures { result ≡ among harts hart }
{
    if hart >= u64::from(harts) {
        return Err(StepFault::NoSuchHart);
    }
    Ok(hart as u8)
}

/// The named harts and one more, which is in the set only if its number is below `MAX_HARTS`, and
/// counts for the greatest number in any case.
fn with_hart(named: NamedHarts, hart: u64) -> NamedHarts
    ensures { result ≡ with_hart named hart }
{
    let mut set = named.set;
    if hart < MAX_HARTS as u64 {
        set.insert(hart as u8);
    }
    let most = named.greatest.unwrap_or(0);
    let greatest = if hart < most { most } else { hart };
    NamedHarts {
        set,
        greatest: Some(greatest),
    }
}

/// The harts of the parts that were read, and that of one part more.
fn with_part(named: Option<NamedHarts>, part: &[u8]) -> Option<NamedHarts>
    ensures { result ≡ with_part named part.now }
{
    let hart = num(part)?;
    let named = named?;
    Some(with_hart(named, hart))
}

/// The harts whose numbers stand between commas.
fn listed(word: &[u8]) -> Option<NamedHarts>
    ensures { result ≡ listed_of word.now }
{
    let nobody = NamedHarts {
        set: HartSet::new(),
        greatest: None,
    };
    word.split(|byte| *byte == b',')
        .fold(Some(nobody), |named, part| with_part(named, part))
}

/// The harts that a word names: their numbers with commas between them, or `-` for none.
fn named(word: &[u8]) -> Option<NamedHarts>
    ensures { result ≡ named_of word.now }
{
    if word == b"-".as_slice() {
        return Some(NamedHarts {
            set: HartSet::new(),
            greatest: None,
        });
    }
    listed(word)
}

/// Whether there are more harts than the greatest number of one that is named.
fn are_there(harts: u8, greatest: Option<u64>) -> bool
    ensures { result ≡ are_there harts greatest }
{
    match greatest {
        None => true,
        Some(greatest) => greatest < u64::from(harts),
    }
}

/// The harts that are named, bit h for hart h. `NoSuchHart`: one of their numbers is not below
/// `harts`.
fn named_among(harts: u8, named: NamedHarts) -> Result<u8, StepFault>
    ensures { result ≡ named_among harts named }
{
    if !are_there(harts, named.greatest) {
        return Err(StepFault::NoSuchHart);
    }
    Ok(u8::from(named.set))
}

/// The hart whose number a word is. `NotStep`: it is no number. `NoSuchHart`: it is not below
/// `harts`.
pub fn hart_in(harts: u8, word: &[u8]) -> Result<u8, StepFault>
    ensures { result ≡ hart_in harts word.now }
{
    let hart = num(word).ok_or(StepFault::NotStep)?;
    among(harts, hart)
}

/// The page that a word is. `NotStep`: it has no size of the scheme, or no address. `NotPage`: the
/// address is not canonical in the scheme, or no multiple of the size.
pub fn page_in(scheme: Scheme, word: &[u8]) -> Result<Page, StepFault>
    ensures { result ≡ page_in scheme word.now }
{
    let page = page_word(scheme, word).ok_or(StepFault::NotStep)?;
    page_at(scheme, page)
}

/// The harts that a word names, bit h for hart h. `NotStep`: it does not name harts. `NoSuchHart`:
/// one of their numbers is not below `harts`.
pub fn named_in(harts: u8, word: &[u8]) -> Result<u8, StepFault>
    ensures { result ≡ named_in harts word.now }
{
    let named = named(word).ok_or(StepFault::NotStep)?;
    named_among(harts, named)
}
