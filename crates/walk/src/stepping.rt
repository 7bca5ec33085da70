//! A walk under a policy for A and D, which tells the word that decided.

ghost use Rattle.std.specs.Prelude.{◌≡◌, ◌<◌, ◌^◌};
ghost use Rattle.pte.specs.declared.entry.TheConstants.{PPN_BITS};
ghost use Rattle.pte.specs.declared.entry.Kind.TheVariants as kinds;
ghost use Rattle.walk.specs.Answer.{page_trap};
ghost use Rattle.walk.specs.declared.walking.Progress.TheVariants as progress;
ghost use Rattle.walk.specs.Policy.{bits_set, clear_bits, load_under, no_bits, read_at, told};
ghost use Rattle.walk.specs.Policy.{with_bits, word_address};
ghost use Rattle.walk.specs.Step.{step_of};

use crate::found_or_trap::{Found, Trap, Why};
use crate::walking::Walk;
use bitflags::Flags;
use pte::{Access, Kind, PAGE_BYTES, Pte, PteFlags};

/// How many bytes the word of a table has: PTESIZE of the manual (privileged manual 4.4.1).
pub const WORD_BYTES: u64 = 8;

/// What a clear A, or a clear D at a store, does to an access that the leaf permits. The manual
/// leaves the choice (privileged manual 4.3.2, step 7).
#[derive(Clone, Copy, PartialEq, Eq, Debug, Default)]
pub enum AccessedDirty {
    /// It raises a page fault, as with the extension Svade.
    #[default]
    Trap,
    /// The bits are set, as with the extension Svadu: the walk tells which, and its client stores
    /// them by an atomic compare and swap of the word before it uses the translation. If the word
    /// is another by then, the client begins the walk again.
    Set,
}

/// The word of a table that a walk read.
#[derive(Clone, Copy, PartialEq, Eq, Debug)]
pub struct ReadWord {
    /// Its physical address in bytes, of 56 bits: a multiple of 8.
    pub pa: u64,
    /// The word.
    pub word: u64,
    /// The level of its table, from 0 to 3.
    pub level: u8,
}

/// A leaf that the access may use.
#[derive(Clone, Copy, PartialEq, Eq, Debug)]
pub struct Granted {
    /// What the leaf gives, with the flags that it has once the bits are set.
    pub found: Found,
    /// The bits that the client has to set in the leaf's word: those that are clear of A and, at a
    /// store, of D. Always empty under `Trap`.
    pub set: PteFlags,
    /// The leaf's word, with the bits still clear.
    pub read: ReadWord,
}

/// The exception that an access raises.
#[derive(Clone, Copy, PartialEq, Eq, Debug)]
pub struct Trapped {
    /// The exception.
    pub trap: Trap,
    /// The word that decided, or `None` if it lies outside memory.
    pub read: Option<ReadWord>,
}

/// What comes of a load under a policy.
#[derive(Clone, Copy, PartialEq, Eq, Debug)]
pub enum Advance {
    /// The word was a pointer: the walk goes on one level below.
    More(Walk),
    /// The word was a leaf that the access may use.
    Granted(Granted),
    /// The access raises an exception.
    Trapped(Trapped),
}

/// The bits that an access sets in a leaf with these flags: those that are clear of A and, at a
/// store, of D.
#[inline(always)]
fn clear_bits(flags: PteFlags, access: Access) -> PteFlags
    ensures { result ≡ clear_bits access flags }
{
    let accessed = if flags.is_accessed() {
        PteFlags::empty()
    } else {
        PteFlags::A
    };
    let dirty = if access == Access::Store && !flags.is_dirty() {
        PteFlags::D
    } else {
        PteFlags::empty()
    };
    accessed.union(dirty)
}

/// The bits that an access sets under a policy.
#[inline(always)]
fn bits_set(policy: AccessedDirty, flags: PteFlags, access: Access) -> PteFlags
    ensures { result ≡ bits_set policy access flags }
{
    match policy {
        AccessedDirty::Trap => PteFlags::empty(),
        AccessedDirty::Set => clear_bits(flags, access),
    }
}

/// The flags once these bits are set.
#[inline(always)]
fn with_bits(set: PteFlags, flags: PteFlags) -> PteFlags
    ensures { result ≡ with_bits set flags }
{
    flags.union(set)
}

impl Walk {
    /// The physical address in bytes, of 56 bits, of the word that the walk waits for: that of its
    /// table and 8 for each word before it (privileged manual 4.3.2, step 2).
    #[inline(always)]
    pub fn word_address(&self) -> u64
        ensures { result ≡ word_address self.now }
    {
        let (table, index) = self.wants();
        table * PAGE_BYTES + u64::from(index) * WORD_BYTES
    }

    /// The word that the walk waited for, which it was given.
    #[inline(always)]
    fn read(&self, word: u64) -> ReadWord
        ensures { result ≡ read_at self.now word }
    {
        ReadWord {
            pa: self.word_address(),
            word,
            level: self.level(),
        }
    }

    /// The page fault of the access, by a word.
    #[inline(always)]
    fn fault_at(&self, word: u64, why: Why) -> Advance
        ensures { result ≡ told self.now word no_bits (progress.Trap (page_trap self.now.access why)) }
    {
        Advance::Trapped(Trapped {
            trap: Trap::page(self.access(), why),
            read: Some(self.read(word)),
        })
    }

    /// What a leaf at the walk's level gives, by its word, with these bits to set.
    #[inline(always)]
    fn end_at(self, word: u64, ppn: u64, flags: PteFlags, set: PteFlags) -> Advance
        requires { ppn < 2 ^ PPN_BITS }
        ensures { result ≡ told self word set (step_of self (kinds.Leaf ppn (with_bits set flags))) }
    {
        match self.leaf(ppn, with_bits(set, flags)) {
            Ok(found) => Advance::Granted(Granted {
                found,
                set,
                read: self.read(word),
            }),
            Err(trap) => Advance::Trapped(Trapped {
                trap,
                read: Some(self.read(word)),
            }),
        }
    }

    /// Goes on under a policy with the word that the walk waited for, `None` if it lies outside
    /// memory. Under `Trap` all is as with `load`.
    #[inline(always)]
    pub fn load_under(self, policy: AccessedDirty, word: Option<u64>) -> Advance
        ensures { result ≡ load_under policy self word }
    {
        let Some(word) = word else {
            return Advance::Trapped(Trapped {
                trap: Trap::outside(self.access()),
                read: None,
            });
        };
        match Pte(word).kind() {
            Kind::Invalid => self.fault_at(word, Why::Invalid),
            Kind::Reserved => self.fault_at(word, Why::Reserved),
            Kind::Table { ppn, global } => {
                if self.level() == 0 {
                    return self.fault_at(word, Why::TooDeep);
                }
                Advance::More(self.below(ppn, global))
            }
            Kind::Leaf { ppn, flags } => {
                let set = bits_set(policy, flags, self.access());
                self.end_at(word, ppn, flags, set)
            }
        }
    }
}
