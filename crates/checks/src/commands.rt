//! The command that a file is for.
ghost use Rattle.std.specs.Prelude.{◌≡◌};
ghost use Rattle.std.specs.List.{list_any};
ghost use Rattle.toml.specs.View.{table_view};
ghost use Rattle.checks.specs.Told.{command_of, has_key, has_own_key};

use files::{Command, Key, value_of};
use toml::Table;

/// The command that a document is for: `live` if it has a key that no other command knows, else
/// `walk` if it has such a key, else `run`.
pub fn command_of(table: &Table) -> Command
    ensures { result ≡ command_of (table_view table.now) }
{
    if has_own_key(table, Command::Live) {
        Command::Live
    } else if has_own_key(table, Command::Walk) {
        Command::Walk
    } else {
        Command::Run
    }
}

fn has_own_key(table: &Table, command: Command) -> bool
    ensures { result ≡ has_own_key command (table_view table.now) }
{
    has_one_of(table, command.own_keys())
}

fn has_one_of(table: &Table, keys: &[Key]) -> bool
    ensures { result ≡ list_any (has_key (table_view table.now)) keys.now }
{
    match keys {
        [] => false,
        [key, rest @ ..] => has_key(table, *key) || has_one_of(table, rest),
    }
}

fn has_key(table: &Table, key: Key) -> bool
    ensures { result ≡ has_key (table_view table.now) key }
{
    match value_of(table, key) {
        Some(_) => true,
        None => false,
    }
}
