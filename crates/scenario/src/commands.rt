//! The commands of the program, and the words that ask for them.
ghost use Rattle.std.specs.Prelude.{◌≡◌};
ghost use Rattle.scenario.specs.Commands.{command_of, which_of};

/// The commands that read a file whole before they answer, and start no thread.
#[derive(Clone, Copy, Debug, PartialEq, Eq)]
pub enum Which {
    /// Answers accesses by walks from one root.
    Walk,
    /// Runs the steps of the harts.
    Run,
    /// Which steps make mappings of TLBs stale, and which accesses stale mappings answer.
    Stale,
    /// The state of the machine after the last step.
    Show,
    /// A picture of the run.
    Draw,
    /// What is wrong with a file, of any command.
    Check,
}

/// The commands.
#[derive(Clone, Copy, Debug, PartialEq, Eq)]
pub enum Command {
    /// One of those that read a file whole and start no thread.
    Plain(Which),
    /// Runs scripts of harts, each on a thread of its own.
    Live,
    /// Reads a trace line by line, for its verdicts.
    Watch,
    /// Tells one verdict of a trace as a story.
    Explain,
}

fn which_of(word: &str) -> Option<Which>
    ensures { result ≡ which_of word.now }
{
    if word == "walk" {
        return Some(Which::Walk);
    }
    if word == "run" {
        return Some(Which::Run);
    }
    if word == "stale" {
        return Some(Which::Stale);
    }
    if word == "show" {
        return Some(Which::Show);
    }
    if word == "draw" {
        return Some(Which::Draw);
    }
    if word == "check" {
        return Some(Which::Check);
    }
    None
}

/// The command that a word asks for.
pub(crate) fn command_of(word: &str) -> Option<Command>
    ensures { result ≡ command_of word.now }
{
    if word == "live" {
        return Some(Command::Live);
    }
    if word == "watch" {
        return Some(Command::Watch);
    }
    if word == "explain" {
        return Some(Command::Explain);
    }
    match which_of(word) {
        Some(which) => Some(Command::Plain(which)),
        None => None,
    }
}
