//! What is done with a file: a command, with what else the words give it.
ghost use Rattle.std.specs.Prelude.{◌≡◌, option_map};
ghost use Rattle.std.specs.Char.{is_ascii_digit};
ghost use Rattle.std.specs.List.{list_all};
ghost use Rattle.clap.specs.Words.{first_value, found_of};
ghost use Rattle.scenario.specs.Tasks.{detail_of, explain_in, filter_of, form_of, has_none, has_none_of_explain, has_none_of_watch, is_decimal, is_set, line_in, line_of, number_in, options_given, options_view, story_task, task_of, watch_at_most, watch_in};

use crate::commands::{Command, Which};
use clap::ArgMatches;
use watch_report::{Detail, Filter, Form, Options, read_filter};

/// What is done with a file.
#[derive(Clone, Copy, PartialEq, Eq, Debug)]
pub enum Task {
    /// Reads it whole, and starts no thread.
    Plain(Which),
    /// Runs its scripts, each on a thread of its own.
    Live,
    /// Prints this of the verdicts of a trace.
    Watch(Options),
    /// Tells the first verdict at this line of a trace that the filter takes.
    Explain(Filter, u64),
    /// Draws that.
    Picture(Filter, u64),
}

/// The flags that were given, and the values of LINE and the other options.
#[derive(Clone, Copy)]
pub(crate) struct Given<'a> {
    all: bool,
    quiet: bool,
    json: bool,
    svg: bool,
    hart: Option<&'a str>,
    page: Option<&'a str>,
    kind: Option<&'a str>,
    max: Option<&'a str>,
    pub(crate) known: Option<&'a str>,
    line: Option<&'a str>,
}

/// The value of a flag is `true` if it was given.
fn is_set(flag: Option<&str>) -> bool
    ensures { result ≡ is_set (option_map (λ text. text.now) flag.entry) }
{
    match flag {
        Some(text) => text == "true",
        None => false,
    }
}

fn bytes_of<'a>(value: Option<&'a str>) -> Option<&'a [u8]>
    ensures { option_map (λ text. text.now) result ≡ option_map (λ text. text.now) value.entry }
{
    match value {
        Some(text) => Some(text.as_bytes()),
        None => None,
    }
}

fn are_digits(bytes: &[u8]) -> bool
    ensures { result ≡ list_all is_ascii_digit bytes.now }
{
    bytes.iter().all(|byte| byte.is_ascii_digit())
}

/// One digit or more, and nothing else.
fn is_decimal(text: &str) -> bool
    ensures { result ≡ is_decimal text.now }
{
    !text.is_empty() && are_digits(text.as_bytes())
}

/// A decimal number that has room in 64 bits.
fn read_number(text: &str) -> Option<u64>
    ensures { result ≡ number_in text.now }
{
    if !is_decimal(text) {
        return None;
    }
    let Ok(number) = u64::from_str_radix(text, 10) else {
        return None;
    };
    Some(number)
}

/// The number of a line, from 1 on.
fn read_line_number(text: &str) -> Option<u64>
    ensures { result ≡ line_in text.now }
{
    let Some(number) = read_number(text) else {
        return None;
    };
    if number == 0 {
        return None;
    }
    Some(number)
}

/// In text, or as a picture.
fn story_task(svg: bool, filter: Filter, line: u64) -> Task
    ensures { result ≡ story_task svg filter line }
{
    if svg {
        Task::Picture(filter, line)
    } else {
        Task::Explain(filter, line)
    }
}

impl<'a> Given<'a> {
    pub(crate) fn new(matches: &ArgMatches<'a>) -> Given<'a>
        ensures { options_view result ≡ options_given (first_value (found_of matches.now)) }
    {
        Given {
            all: is_set(matches.get_str("all")),
            quiet: is_set(matches.get_str("quiet")),
            json: is_set(matches.get_str("json")),
            svg: is_set(matches.get_str("svg")),
            hart: matches.get_str("hart"),
            page: matches.get_str("page"),
            kind: matches.get_str("kind"),
            max: matches.get_str("max"),
            known: matches.get_str("known"),
            line: matches.get_str("LINE"),
        }
    }

    /// None of the options that `watch` alone takes.
    fn has_none_of_watch(&self) -> bool
        ensures { result ≡ has_none_of_watch (options_view self.now) }
    {
        !self.all && !self.quiet && !self.json && self.max.is_none() && self.known.is_none()
    }

    /// None of what `explain` alone takes.
    fn has_none_of_explain(&self) -> bool
        ensures { result ≡ has_none_of_explain (options_view self.now) }
    {
        !self.svg && self.line.is_none()
    }

    fn has_none(&self) -> bool
        ensures { result ≡ has_none (options_view self.now) }
    {
        self.has_none_of_watch()
            && self.hart.is_none()
            && self.page.is_none()
            && self.kind.is_none()
            && self.has_none_of_explain()
    }

    /// What is printed. `--all` and `--quiet` don't go together.
    fn detail(&self) -> Option<Detail>
        ensures { result ≡ detail_of (options_view self.now) }
    {
        if self.all && self.quiet {
            return None;
        }
        if self.all {
            return Some(Detail::Verdicts);
        }
        if self.quiet {
            return Some(Detail::Counts);
        }
        Some(Detail::Causes)
    }

    fn filter(&self) -> Option<Filter>
        ensures { result ≡ filter_of (options_view self.now) }
    {
        read_filter(
            bytes_of(self.hart),
            bytes_of(self.page),
            bytes_of(self.kind),
        )
    }

    fn form(&self) -> Form
        ensures { result ≡ form_of (options_view self.now) }
    {
        if self.json { Form::Json } else { Form::Text }
    }

    fn line(&self) -> Option<u64>
        ensures { result ≡ line_of (options_view self.now) }
    {
        match self.line {
            Some(text) => read_line_number(text),
            None => None,
        }
    }

    /// `watch` that tells so many at most.
    fn watch_at_most(&self, most: Option<u64>) -> Option<Task>
        ensures { result ≡ watch_at_most (options_view self.now) most }
    {
        let Some(detail) = self.detail() else {
            return None;
        };
        let Some(filter) = self.filter() else {
            return None;
        };
        Some(Task::Watch(Options {
            detail,
            filter,
            form: self.form(),
            most,
        }))
    }

    /// `watch` takes all options but `--svg`, and no LINE.
    fn watch(&self) -> Option<Task>
        ensures { result ≡ watch_in (options_view self.now) }
    {
        if !self.has_none_of_explain() {
            return None;
        }
        let Some(text) = self.max else {
            return self.watch_at_most(None);
        };
        let Some(most) = read_number(text) else {
            return None;
        };
        self.watch_at_most(Some(most))
    }

    /// `explain` wants a LINE, and takes `--svg` and the options of the filter.
    fn explain(&self) -> Option<Task>
        ensures { result ≡ explain_in (options_view self.now) }
    {
        if !self.has_none_of_watch() {
            return None;
        }
        let Some(filter) = self.filter() else {
            return None;
        };
        let Some(line) = self.line() else {
            return None;
        };
        Some(story_task(self.svg, filter, line))
    }

    /// What the command does, if it takes what was given, and that is right.
    pub(crate) fn task(&self, command: Command) -> Option<Task>
        ensures { result ≡ task_of (options_view self.now) command }
    {
        match command {
            Command::Plain(which) => {
                if self.has_none() {
                    Some(Task::Plain(which))
                } else {
                    None
                }
            }
            Command::Live => {
                if self.has_none() {
                    Some(Task::Live)
                } else {
                    None
                }
            }
            Command::Watch => self.watch(),
            Command::Explain => self.explain(),
        }
    }
}
