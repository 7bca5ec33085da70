//! What the program shows of itself: its help and its version.
ghost use Rattle.std.specs.Prelude.{◌≡◌, map, string_bytes};
ghost use Rattle.scenario.specs.Shown.{help_for, is_help_flag, is_version_flag, shown, shown_by, shown_by_one, shown_by_two};

use crate::commands::{Command, Which, command_of};

/// What is shown where the words ask for no file.
#[derive(Clone, Copy, Debug, PartialEq, Eq)]
pub enum Shown {
    /// The commands, with a line each.
    Help,
    /// What a command does, with an example.
    HelpOf(Command),
    Version,
}

const HELP: &str = "\
svsim COMMAND FILE

  run FILE            makes the steps of a scenario, and prints the reply to each
  live FILE           gives each hart a thread and a script
  walk FILE           translates addresses over page tables that the file spells out
  stale FILE          lists the stale translations of a run, and the accesses that they answer
  show FILE           prints the state after the last step of a run
  draw FILE           prints a picture of a run, as SVG
  check FILE          tells what is wrong with a file of any command
  watch TRACE         judges a kernel's trace: where may a hart still use a translation that is gone?
  explain TRACE LINE  tells why a line of a trace has a verdict

  help COMMAND        tells more of one command
  --version           tells the version
";

const RUN: &str = "\
svsim run FILE makes the steps of a scenario in order, and prints a line for each: its number, and the reply.

  svsim run examples/frame-used-again.toml

docs/FORMAT.md has the steps and replies. Status 0: done. 2: not read. 3: a fault in the file; svsim check FILE lists them all.
";

const LIVE: &str = "\
svsim live FILE gives each hart a thread and a script, and prints the answers once all threads have ended.

  svsim live examples/live-unmap-at-once.toml

Two runs may print different answers. Status 0: done. 2: not read. 3: a fault in the file. 5: no memory or no thread.
";

const WALK: &str = "\
svsim walk FILE translates addresses over page tables that the file spells out word by word, in Sv39 or Sv48.

  svsim walk examples/first.toml

A line is a physical address with the page's size, or the exception and its reason. Status 0: done. 2: not read. 3: a fault in the file.
";

const STALE: &str = "\
svsim stale FILE makes the steps of a scenario, and lists each translation that a TLB holds after it was unmapped or changed, and each
access that such a translation answers.

  svsim stale examples/hart-left-out.toml

Status 0: no access was answered so. 1: one was, which a right kernel may have too, before the hart acknowledges. 3: a fault in the file.
";

const SHOW: &str = "\
svsim show FILE makes the steps of a scenario, and prints the state after the last one: harts, TLBs, mailboxes, tickets, page tables.

  svsim show examples/shootdown.toml
";

const DRAW: &str = "\
svsim draw FILE makes the steps of a scenario, and prints a picture of them as SVG: a row a step or a walk, a column a hart.

  svsim draw examples/shootdown.toml > shootdown.svg
";

const CHECK: &str = "\
svsim check FILE lists what is wrong with a file of run, live or walk, with its line and what was perhaps meant.

  svsim check examples/first.toml

Status 0: nothing is wrong.
";

const WATCH: &str = "\
svsim watch TRACE reads what a kernel did to its page tables, its satp and its TLBs. A verdict is a point where a hart may still use a
translation that the kernel takes for gone. The causes of the verdicts are printed: each with its first verdict, and all with their
counts and the notes of their stores at the end. TRACE is a file, or - for standard input.

  svsim watch examples/watch/left-out-hart.trace

  --all         prints a line for each verdict in place of the causes
  --quiet       prints the last line alone, which counts the verdicts
  --json        prints an object of JSON on each line
  --max N       prints the first N verdicts or causes at most; all are counted
  --known FILE  leaves out the findings that FILE lists as by design, and counts them at the end
  --hart H      takes the verdicts of one hart alone, 0 to 63
  --page VA     takes those of pages that VA lies in, in hexadecimal without 0x
  --kind KIND   takes those of one kind: claim, free, reuse, use, or kernel-claim and so on

What is counted, and the status, is of the verdicts that are taken. A line of FILE is OWNER FIRST REASON [REACH] [START SIZE] [@NOTE]:
user or kernel; the first verdict of a finding; no-flush, no-fence, other-hart, other-asid, other-page or not-done; used, reachable or
not-reached, for which TRACE is read whole first; addresses of which one lies in the page, in hexadecimal; how the note of the record
begins that made the page stale. - is any verdict or reason. A line that begins with # is a comment.
docs/YOUR-KERNEL.md tells how to get a trace. Status 0: no verdict. 1: some. 3: a wrong line, and no verdict before it.
";

const EXPLAIN: &str = "\
svsim explain TRACE LINE tells why a line of a trace has a verdict: it prints the records that alone give the first verdict of the line.
Each comes after a comment, which has its line and what it does. TRACE is a file, or - for standard input.

  svsim explain examples/watch/left-out-hart.trace 15

  --svg        prints a picture of them as SVG: a row a record, a column a hart
  --hart H     takes the verdicts of one hart alone, 0 to 63
  --page VA    takes those of pages that VA lies in, in hexadecimal without 0x
  --kind KIND  takes those of one kind: claim, free, reuse, use, or kernel-claim and so on

Of several verdicts the first that svsim watch --all prints is told. Without --svg a trace is printed: svsim watch finds the same verdict there.
Status 0: done. 1: the line has no such verdict. 3: a wrong line up to that one.
";

/// The version, of which CHANGELOG.md tells.
const VERSION: &str = "svsim 0.2.0\n";

/// What a command does, with an example.
fn help_of(command: Command) -> &'static str {
    match command {
        Command::Plain(Which::Walk) => WALK,
        Command::Plain(Which::Run) => RUN,
        Command::Plain(Which::Stale) => STALE,
        Command::Plain(Which::Show) => SHOW,
        Command::Plain(Which::Draw) => DRAW,
        Command::Plain(Which::Check) => CHECK,
        Command::Live => LIVE,
        Command::Watch => WATCH,
        Command::Explain => EXPLAIN,
    }
}

impl Shown {
    /// What is shown.
    pub fn text(self) -> &'static str {
        match self {
            Shown::Help => HELP,
            Shown::HelpOf(command) => help_of(command),
            Shown::Version => VERSION,
        }
    }
}

/// `--help`, `-h`.
fn is_help_flag(word: &str) -> bool
    ensures { result ≡ is_help_flag word.now }
{
    word == "--help" || word == "-h"
}

/// `--version`, `-V`.
fn is_version_flag(word: &str) -> bool
    ensures { result ≡ is_version_flag word.now }
{
    word == "--version" || word == "-V"
}

fn shown_by_one(word: &str) -> Option<Shown>
    ensures { result ≡ shown_by_one word.now }
{
    if word == "help" || is_help_flag(word) {
        return Some(Shown::Help);
    }
    if is_version_flag(word) {
        return Some(Shown::Version);
    }
    None
}

fn help_for(word: &str) -> Option<Shown>
    ensures { result ≡ help_for word.now }
{
    match command_of(word) {
        Some(command) => Some(Shown::HelpOf(command)),
        None => None,
    }
}

fn shown_by_two(word: &str, other: &str) -> Option<Shown>
    ensures { result ≡ shown_by_two word.now other.now }
{
    if word == "help" {
        return help_for(other);
    }
    if is_help_flag(other) {
        return help_for(word);
    }
    None
}

fn shown_by(words: &[String]) -> Option<Shown>
    ensures { result ≡ shown_by (map string_bytes words.now) }
{
    match words {
        [] => None,
        [word, rest @ ..] => match rest {
            [] => shown_by_one(word.as_str()),
            [other, more @ ..] => match more {
                [] => shown_by_two(word.as_str(), other.as_str()),
                [_, ..] => None,
            },
        },
    }
}

/// What the words ask to be shown, of which the first is the program's name: `help`, `--help` and
/// `-h` the commands; `help COMMAND` and `COMMAND --help` what a command does; `--version` and `-V`
/// the version.
pub fn shown_of(words: &[String]) -> Option<Shown>
    ensures { result ≡ shown (map string_bytes words.now) }
{
    match words {
        [] => None,
        [_, rest @ ..] => shown_by(rest),
    }
}
