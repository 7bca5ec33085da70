//! What a record has to do with a verdict.

ghost use Rattle.std.specs.Prelude.{◌≡◌};
ghost use Rattle.watch_causes.specs.Roles.{if_covered, is_in_space, miss_of, of_satp, role_before, role_of, role_since};
ghost use Rattle.watch_engine.specs.Warnings.{shown_of};

use crate::fences::{covers, is_for, is_of_space};
use crate::reason::Reason;
use pte::Scheme;
use watch::{Record, Space};
use watch_engine::Warning;

/// What a record has to do with a verdict on a translation that a hart may hold.
#[derive(Clone, Copy, PartialEq, Eq, Debug)]
pub enum Role {
    /// Stores a word before the translation was stale.
    Maps,
    /// Writes the address space of the translation to the hart's satp; of what is global, any.
    Enters,
    /// Writes another address space to it, or none.
    Leaves,
    /// The hart fences the translation before it was stale.
    Drops,
    /// Asks the hart for a fence of the translation before it was stale: that may not take it out.
    AsksEarly,
    /// Makes the translation stale.
    MakesStale,
    /// A fence since then, and why it does not take the translation from the hart.
    Misses(Reason),
    /// Begins a flush.
    BeginsFlush,
    /// Returns from a flush.
    EndsFlush,
    /// Takes frames back.
    GivesBack,
    /// Gives frames out.
    GivesOut,
    /// Accesses an address.
    Uses,
    /// None of these.
    Other,
}

/// The address space is that of the warning's translation; what is global is of all.
pub(crate) fn is_in_space(warning: &Warning, space: Option<Space>) -> bool
    ensures { result ≡ is_in_space (shown_of warning.now) space }
{
    match space {
        None => false,
        Some(space) => {
            warning.entry.global || (space.root == warning.root && space.asid == warning.entry.asid)
        }
    }
}

fn of_satp(warning: &Warning, hart: u8, space: Option<Space>) -> Role
    ensures { result ≡ of_satp warning.now hart space }
{
    if hart != warning.hart {
        Role::Other
    } else if is_in_space(warning, space) {
        Role::Enters
    } else {
        Role::Leaves
    }
}

/// Why a fence does not take the warning's translation from its hart: the first that holds.
fn miss_of(scheme: Scheme, warning: &Warning, made: &Record) -> Reason
    ensures { result ≡ miss_of scheme warning.now made.now }
{
    if !is_for(made, warning.hart) {
        Reason::OtherHarts
    } else if !is_of_space(scheme, made, &warning.entry) {
        Reason::OtherSpaces
    } else if !covers(scheme, made, &warning.entry) {
        Reason::OtherPages
    } else {
        Reason::NotDone
    }
}

fn if_covered(scheme: Scheme, warning: &Warning, made: &Record, role: Role) -> Role
    ensures { result ≡ if_covered scheme warning.now made.now role }
{
    if is_for(made, warning.hart) && covers(scheme, made, &warning.entry) {
        role
    } else {
        Role::Other
    }
}

fn role_before(scheme: Scheme, warning: &Warning, made: &Record) -> Role
    ensures { result ≡ role_before scheme warning.now made.now }
{
    match made {
        Record::Store { .. } => Role::Maps,
        Record::Satp { hart, space } => of_satp(warning, *hart, *space),
        Record::Fence { .. } => if_covered(scheme, warning, made, Role::Drops),
        Record::RemoteBegin { .. } => if_covered(scheme, warning, made, Role::AsksEarly),
        _ => Role::Other,
    }
}

fn role_since(scheme: Scheme, warning: &Warning, made: &Record) -> Role
    ensures { result ≡ role_since scheme warning.now made.now }
{
    match made {
        Record::Satp { hart, space } => of_satp(warning, *hart, *space),
        Record::Fence { .. } => Role::Misses(miss_of(scheme, warning, made)),
        Record::RemoteBegin { .. } => Role::Misses(miss_of(scheme, warning, made)),
        Record::ClaimBegin { .. } => Role::BeginsFlush,
        Record::ClaimEnd { .. } => Role::EndsFlush,
        Record::GiveBack { .. } => Role::GivesBack,
        Record::GiveOut { .. } => Role::GivesOut,
        Record::Use { .. } => Role::Uses,
        Record::Store { .. } => Role::Other,
        Record::RemoteEnd { .. } => Role::Other,
    }
}

/// What the record of this number has to do with the verdict.
pub(crate) fn role_of(scheme: Scheme, warning: &Warning, number: u64, made: &Record) -> Role
    ensures { result ≡ role_of scheme warning.now number made.now }
{
    if number == warning.stale_since {
        Role::MakesStale
    } else if number < warning.stale_since {
        role_before(scheme, warning, made)
    } else {
        role_since(scheme, warning, made)
    }
}
