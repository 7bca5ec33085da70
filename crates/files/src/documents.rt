//! What the keys of a document hold.
ghost use Rattle.std.specs.Prelude.{◌≡◌, IfErr, IfOk, map, option_map, option_and_then, string_bytes, Ok, Err};
ghost use Rattle.std.specs.Option.{ok_or};
ghost use Rattle.toml.specs.Data.{get_member, as_str};
ghost use Rattle.toml.specs.Errors.{IsMemory};
ghost use Rattle.toml.specs.Parse.{parse_document};
ghost use Rattle.toml.specs.View.{table_view, view};
ghost use Rattle.files.specs.Faults.{Fails, Gives, not_toml, wrong_key};
ghost use Rattle.files.specs.declared.fault.Fault.TheVariants.{NoMemory, NotToml};
ghost use Rattle.files.specs.KeyTable.{names_of};
ghost use Rattle.files.specs.Keys.{each, known_only, least_unknown, member_of, one_number, one_word, text_views, texts_at, texts_of, wrong_value};
ghost use Rattle.steps.specs.Num.{num_of};

use crate::fault::Fault;
use crate::key_table::{Command, Key};
use std::alloc::{AllocError, Global};
use steps::{num, words};
use toml::{Table, Value};

/// The table of a document. `NotToml` if the text is none, `NoMemory` if there is not enough
/// memory.
pub fn document(alloc: Global, text: &str) -> Result<Table, Fault>
    ensures { Gives table_view result (ok_or (parse_document text.now) not_toml) }
{
    document_of(toml::table_from_str(alloc, text))
}

/// What the reader of TOML answered: out of memory exactly where it says so.
fn document_of(read: Result<Table, toml::de::Error>) -> Result<Table, Fault>
    ensures table { IfOk read (λ table. result ≡ Ok table) }
    ensures memory { IfErr read (λ error. IsMemory error → result ≡ Err NoMemory) }
    ensures not_toml { IfErr read (λ error. ¬ IsMemory error → result ≡ Err NotToml) }
{
    match read {
        Ok(table) => Ok(table),
        Err(error) if error.is_memory() => Err(Fault::NoMemory),
        Err(_) => Err(Fault::NotToml),
    }
}

fn unknown_key(table: &Table, command: Command) -> Option<&String>
    ensures { option_map (λ key. string_bytes key.now) result
        ≡ least_unknown (names_of command) (table_view table.now) }
{
    table.keys().find(|key| !command.knows(key.as_str()))
}

/// The fault of a key of this name, or `NoMemory` if there is no memory for the name.
fn fault_of_name(alloc: Global, name: &str) -> Fault
    ensures { Fails {Y = Unit {0}} result (Err (wrong_key name.now)) }
{
    match String::from_str(alloc, name) {
        Ok(name) => Fault::Key(name),
        Err(_) => Fault::NoMemory,
    }
}

/// The fault of a key whose value is wrong, or `NoMemory` if there is no memory for its name.
pub fn key_fault(alloc: Global, key: Key) -> Fault
    ensures { Fails {Y = Unit {0}} result (Err (wrong_value key)) }
{
    fault_of_name(alloc, key.name())
}

/// Refuses with `Key` a key that the command does not know: the least by bytes.
pub fn check_keys(alloc: Global, table: &Table, command: Command) -> Result<(), Fault>
    ensures { Gives (λ done. done) result
        (known_only (names_of command) (table_view table.now)) }
{
    match unknown_key(table, command) {
        Some(key) => Err(fault_of_name(alloc, key.as_str())),
        None => Ok(()),
    }
}

/// The value at a key of this name.
pub fn value_at<'a>(table: &'a Table, key: &str) -> Option<&'a Value>
    ensures { option_map (λ value. view value.now) result
        ≡ get_member key.now (table_view table.now) }
{
    table.get(key)
}

/// The value of a key of the table.
pub fn value_of(table: &Table, key: Key) -> Option<&Value>
    ensures { option_map (λ value. view value.now) result
        ≡ member_of key (table_view table.now) }
{
    value_at(table, key.name())
}

/// The number that a text of one word writes. `AllocError`: there was not enough memory.
pub fn number(alloc: Global, text: &str) -> Result<Option<u64>, AllocError>
    ensures { IfOk result (λ n. n ≡ one_number text.now) }
{
    let words = words(alloc, text)?;
    Ok(number_in(words.as_slice()))
}

fn number_in(words: &[&[u8]]) -> Option<u64>
    ensures { result ≡ option_and_then num_of (one_word (map (λ word. word.now) words.now)) }
{
    if words.len() != 1 {
        return None;
    }
    num(words[0])
}

/// The texts of an array, each of which is a text.
fn texts<'a>(alloc: Global, values: &'a [Value]) -> Result<Option<Vec<&'a str>>, AllocError>
    ensures { IfOk result (λ found. option_map text_views found
        ≡ each (λ value. as_str (view value)) values.now) }
{
    let mut texts = Vec::with_capacity(alloc, values.len())?;
    for value in values {
        match value.as_str() {
            Some(text) => texts.push(text)?,
            None => return Ok(None),
        }
    }
    Ok(Some(texts))
}

/// The texts of an array that has nothing else. `AllocError`: there was not enough memory.
pub fn texts_in<'a>(alloc: Global, value: &'a Value) -> Result<Option<Vec<&'a str>>, AllocError>
    ensures { IfOk result (λ found. option_map text_views found ≡ texts_of (view value.now)) }
{
    match value.as_array() {
        Some(values) => texts(alloc, values),
        None => Ok(None),
    }
}

/// The texts at a key, none where it is absent. `Key` if its value is no array of texts.
pub fn texts_of_key<'a>(alloc: Global, table: &'a Table, key: Key) -> Result<Vec<&'a str>, Fault>
    ensures { Gives text_views result (texts_at key (table_view table.now)) }
{
    match value_of(table, key) {
        Some(value) => match texts_in(alloc, value)? {
            Some(texts) => Ok(texts),
            None => Err(key_fault(alloc, key)),
        },
        None => Ok(Vec::new(alloc)),
    }
}
