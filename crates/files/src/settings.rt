//! The harts, the spaces and the table memory that the keys of a document ask for.
ghost use Rattle.std.specs.Prelude.{◌≡◌, ◌≤◌, IfOk, OnOk, length, map, option_and_then, option_map};
ghost use Rattle.toml.specs.View.{table_view, view};
ghost use Rattle.spaces.specs.Limits.{MeetsLimits};
ghost use Rattle.spaces.specs.declared.configuration.TheConstants.{MAX_FRAMES, MAX_LIVE_FRAMES};
ghost use Rattle.files.specs.Faults.{Gives};
ghost use Rattle.steps.specs.Words.{words_of};
ghost use Rattle.files.specs.Keys.{each, one_word};
ghost use Rattle.files.specs.Settings.{base_at, checked, config_at, few_spaces, mode_at, scheme_named, space, space_of, space_of_words, spaces_at, spaces_of, spares_at, spares_of, whole_at, whole_of, wholes_of};

use crate::documents::{key_fault, number, texts_in, value_of};
use crate::fault::Fault;
use crate::key_table::Key;
use arrayvec::ArrayVec;
use pte::Scheme;
use spaces::{Config, MAX_HARTS, MAX_SPACES, Space};
use std::alloc::{AllocError, Global};
use steps::{num, words};
use toml::{Table, Value};

/// A whole number from 0 to 65535.
fn whole(value: &Value) -> Option<u16>
    ensures { result ≡ whole_of (view value.now) }
{
    let n = value.as_integer()?;
    u16::try_from(n).ok()
}

fn whole_at(alloc: Global, table: &Table, key: Key, default: u16) -> Result<u16, Fault>
    ensures { Gives (λ n. n) result (whole_at key default (table_view table.now)) }
{
    let Some(value) = value_of(table, key) else {
        return Ok(default);
    };
    match whole(value) {
        Some(n) => Ok(n),
        None => Err(key_fault(alloc, key)),
    }
}

fn base(alloc: Global, table: &Table) -> Result<u64, Fault>
    ensures { Gives (λ n. n) result (base_at (table_view table.now)) }
{
    let Some(value) = value_of(table, Key::Base) else {
        return Ok(Config::default().base);
    };
    let Some(text) = value.as_str() else {
        return Err(key_fault(alloc, Key::Base));
    };
    match number(alloc, text)? {
        Some(base) => Ok(base),
        None => Err(key_fault(alloc, Key::Base)),
    }
}

/// The scheme that a word names.
fn scheme_named(word: &[u8]) -> Option<Scheme>
    ensures { result ≡ scheme_named word.now }
{
    if word == b"sv39".as_slice() {
        Some(Scheme::Sv39)
    } else if word == b"sv48".as_slice() {
        Some(Scheme::Sv48)
    } else {
        None
    }
}

fn scheme_in(words: &[&[u8]]) -> Option<Scheme>
    ensures { result ≡ option_and_then scheme_named (one_word (map (λ word. word.now) words.now)) }
{
    if words.len() != 1 {
        return None;
    }
    scheme_named(words[0])
}

/// The scheme that a text of one word names.
fn scheme(alloc: Global, text: &str) -> Result<Option<Scheme>, AllocError>
    ensures { IfOk result (λ scheme. scheme
        ≡ option_and_then scheme_named (one_word (words_of text.now))) }
{
    let words = words(alloc, text)?;
    Ok(scheme_in(words.as_slice()))
}

/// The scheme of translation that the keys of a document ask for. `Key` if `mode` names none.
pub fn mode(alloc: Global, table: &Table) -> Result<Scheme, Fault>
    ensures { Gives (λ scheme. scheme) result (mode_at (table_view table.now)) }
{
    let Some(value) = value_of(table, Key::Mode) else {
        return Ok(Config::default().scheme);
    };
    let Some(text) = value.as_str() else {
        return Err(key_fault(alloc, Key::Mode));
    };
    match scheme(alloc, text)? {
        Some(scheme) => Ok(scheme),
        None => Err(key_fault(alloc, Key::Mode)),
    }
}

/// Whole numbers, as many as there may be harts at most.
fn wholes(values: &[Value]) -> Option<ArrayVec<u16, MAX_HARTS>>
    requires { length values.now ≤ MAX_HARTS }
    ensures { option_map (λ v. v.items) result ≡ each (λ value. whole_of (view value)) values.now }
{
    let mut wholes = ArrayVec::new();
    for value in values {
        wholes.push(whole(value)?);
    }
    Some(wholes)
}

fn few_wholes(values: &[Value]) -> Option<ArrayVec<u16, MAX_HARTS>>
    ensures { option_map (λ v. v.items) result ≡ wholes_of (map view values.now) }
{
    if values.len() > MAX_HARTS {
        return None;
    }
    wholes(values)
}

fn spares_in(value: &Value) -> Option<ArrayVec<u16, MAX_HARTS>>
    ensures { option_map (λ v. v.items) result ≡ spares_of (view value.now) }
{
    let values = value.as_array()?;
    few_wholes(values)
}

fn spares(alloc: Global, table: &Table, harts: u16) -> Result<ArrayVec<u16, MAX_HARTS>, Fault>
    ensures { Gives (λ v. v.items) result (spares_at harts (table_view table.now)) }
{
    let Some(value) = value_of(table, Key::Spares) else {
        return Ok(Config::with_harts(harts).spares);
    };
    match spares_in(value) {
        Some(spares) => Ok(spares),
        None => Err(key_fault(alloc, Key::Spares)),
    }
}

fn space_in(words: &[&[u8]]) -> Option<Space>
    ensures { result ≡ space_of_words (map (λ word. word.now) words.now) }
{
    if words.len() != 2 {
        return None;
    }
    let home = u8::try_from(num(words[0])?).ok()?;
    let asid = u16::try_from(num(words[1])?).ok()?;
    Some(Space { home, asid })
}

fn space(alloc: Global, text: &str) -> Result<Option<Space>, AllocError>
    ensures { IfOk result (λ space. space ≡ space_of text.now) }
{
    let words = words(alloc, text)?;
    Ok(space_in(words.as_slice()))
}

fn spaces_of(
    alloc: Global,
    texts: &[&str],
) -> Result<Option<ArrayVec<Space, MAX_SPACES>>, AllocError>
    requires { length texts.now ≤ MAX_SPACES }
    ensures { IfOk result (λ found. option_map (λ v. v.items) found
        ≡ each (λ text. space_of text.now) texts.now) }
{
    let mut spaces = ArrayVec::new();
    for text in texts {
        match space(alloc, text)? {
            Some(space) => spaces.push(space),
            None => return Ok(None),
        }
    }
    Ok(Some(spaces))
}

fn few_spaces(
    alloc: Global,
    texts: &[&str],
) -> Result<Option<ArrayVec<Space, MAX_SPACES>>, AllocError>
    ensures { IfOk result (λ found. option_map (λ v. v.items) found
        ≡ few_spaces (map (λ text. text.now) texts.now)) }
{
    if texts.len() > MAX_SPACES {
        return Ok(None);
    }
    spaces_of(alloc, texts)
}

fn spaces_in(
    alloc: Global,
    value: &Value,
) -> Result<Option<ArrayVec<Space, MAX_SPACES>>, AllocError>
    ensures { IfOk result (λ found. option_map (λ v. v.items) found ≡ spaces_of (view value.now)) }
{
    match texts_in(alloc, value)? {
        Some(texts) => few_spaces(alloc, texts.as_slice()),
        None => Ok(None),
    }
}

fn spaces(alloc: Global, table: &Table) -> Result<ArrayVec<Space, MAX_SPACES>, Fault>
    ensures { Gives (λ v. v.items) result (spaces_at (table_view table.now)) }
{
    let Some(value) = value_of(table, Key::Spaces) else {
        return Ok(Config::default().spaces);
    };
    match spaces_in(alloc, value)? {
        Some(spaces) => Ok(spaces),
        None => Err(key_fault(alloc, Key::Spaces)),
    }
}

/// The configuration that the keys of a document ask for, within the limits or not, but for the
/// scheme, whose key comes after the steps. `Key` is the first key in the order of docs/FORMAT.md
/// whose value has the wrong type or content.
#[tactic(auto, unfolding(crate::specs::Settings::config_at))]
pub fn config(alloc: Global, table: &Table) -> Result<Config, Fault>
    ensures { Gives (λ config. config) result (config_at (table_view table.now)) }
{
    let default = Config::default();
    let harts = whole_at(alloc, table, Key::Harts, default.harts)?;
    let window = whole_at(alloc, table, Key::Window, default.window)?;
    let base = base(alloc, table)?;
    let capacity = whole_at(alloc, table, Key::Capacity, default.capacity)?;
    let spares = spares(alloc, table, harts)?;
    let spaces = spaces(alloc, table)?;
    Ok(Config {
        scheme: default.scheme,
        harts,
        spaces,
        window,
        base,
        spares,
        capacity,
    })
}

/// Refuses with `Layout` a configuration that is not within the limits, with at most 512 table
/// frames.
pub fn check_layout(config: &Config) -> Result<(), Fault>
    ensures checked { Gives (λ done. done) result (checked MAX_FRAMES config.now) }
    ensures within { OnOk result (MeetsLimits MAX_FRAMES config.now) }
{
    if config.check() {
        Ok(())
    } else {
        Err(Fault::Layout)
    }
}

/// Refuses with `Layout` a configuration that is not within the limits for harts on threads, with
/// at most 96 table frames.
pub fn check_live_layout(config: &Config) -> Result<(), Fault>
    ensures checked { Gives (λ done. done) result (checked MAX_LIVE_FRAMES config.now) }
    ensures within { OnOk result (MeetsLimits MAX_LIVE_FRAMES config.now) }
{
    if config.check_live() {
        Ok(())
    } else {
        Err(Fault::Layout)
    }
}
