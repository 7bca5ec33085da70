//! Keys that the command does not know.
ghost use Rattle.std.specs.Prelude.{◌≤◌, length};
ghost use Rattle.files.specs.declared.key_table.TheConstants.{MOST_KEYS};
ghost use Rattle.checks.specs.Told.{IsStillTrue};

use crate::near::nearest;
use crate::report::{Piece, Report};
use crate::values::Document;
use arrayvec::ArrayVec;
use files::{Command, Key, MOST_KEYS};

/// The names of keys.
fn names(keys: &[Key]) -> ArrayVec<&'static str, MOST_KEYS>
    requires { length keys.now ≤ MOST_KEYS }
{
    let mut names = ArrayVec::new();
    for index in 0..keys.len() {
        names.push(keys[index].name());
    }
    names
}

/// The name of a key of the command that is meant perhaps.
#[tactic(auto, using(crate::proofs::FewKeys::few_keys))]
fn nearest_of(command: Command, key: &str) -> Option<&'static str> {
    nearest(key, names(command.keys()).as_slice())
}

/// The first other command that knows the key.
fn other_that_knows(key: &str) -> Option<Command> {
    if Command::Run.knows(key) {
        Some(Command::Run)
    } else if Command::Live.knows(key) {
        Some(Command::Live)
    } else if Command::Walk.knows(key) {
        Some(Command::Walk)
    } else {
        None
    }
}

/// The key that is meant perhaps, and a command that knows it.
fn nearest_of_others(key: &str) -> Option<(&'static str, Command)> {
    for command in [Command::Live, Command::Walk, Command::Run] {
        if let Some(meant) = nearest_of(command, key) {
            return Some((meant, command));
        }
    }
    None
}

/// Reports each key that the command does not know, in the order of their bytes.
pub fn tell_unknown(report: &mut Report, document: &Document<'_>, command: Command)
    ensures { IsStillTrue report.old.is_out_of_memory report.new.is_out_of_memory }
{
    for key in document.table.keys() {
        if report.is_full() {
            break;
        }
        if !command.knows(key.as_str()) {
            tell_unknown_key(report, document, command, key.as_str());
        }
    }
}

fn tell_unknown_key(report: &mut Report, document: &Document<'_>, command: Command, key: &str)
    ensures { IsStillTrue report.old.is_out_of_memory report.new.is_out_of_memory }
{
    let this = Piece::Text(command.name());
    if let Some(other) = other_that_knows(key) {
        let other = Piece::Text(other.name());
        let what = [
            Piece::Text("a key of "),
            other,
            Piece::Text(", not of "),
            this,
        ];
        document.tell_of_name(report, key, &what);
        return;
    }
    let (none, perhaps) = (Piece::Text("no key of "), Piece::Text("; perhaps "));
    if let Some(meant) = nearest_of(command, key) {
        document.tell_of_name(report, key, &[none, this, perhaps, Piece::Text(meant)]);
        return;
    }
    match nearest_of_others(key) {
        Some((meant, other)) => {
            let (of, other) = (Piece::Text(" of "), Piece::Text(other.name()));
            let what = [none, this, perhaps, Piece::Text(meant), of, other];
            document.tell_of_name(report, key, &what);
        }
        None => document.tell_of_name(report, key, &[none, this]),
    }
}
