//! What is wrong with the text of a step.
ghost use Rattle.checks.specs.Told.{IsStillTrue};
ghost use Rattle.std.specs.Prelude.{◌≤◌};

use crate::fields::{expected, is_right};
use crate::forms::{Form, names};
use crate::meant::{name_meant, word_meant};
use crate::report::{Piece, Report, Spot};
use crate::split::{text_of, word_at};
use files::Command;
use pte::Scheme;
use steps::{Field, StepFault, live_step_among, num, run_step_among, setup_step_among, walk_step};

const WRITTEN: Piece<'static> = Piece::Text("; written: ");

const NO_NAME: &str = "the name of the step is missing";

/// The list that a step stands in.
#[derive(Clone, Copy)]
pub enum List {
    Walk,
    Run,
    Setup,
    /// The script of this hart.
    Script(usize),
}

/// What the texts of a list are read by.
#[derive(Clone, Copy)]
pub struct Reader {
    pub list: List,
    pub scheme: Scheme,
    pub harts: u8,
}

impl List {
    fn command(self) -> Command {
        match self {
            List::Walk => Command::Walk,
            List::Run => Command::Run,
            List::Setup | List::Script(_) => Command::Live,
        }
    }

    /// In which array of the value of its key its texts stand, counted from 1, or 0.
    pub fn group(self) -> usize {
        match self {
            List::Script(hart) => hart.saturating_add(1),
            List::Walk | List::Run | List::Setup => 0,
        }
    }

    /// Which word is the name of the step.
    fn name_at(self) -> Option<usize> {
        match self {
            List::Walk => None,
            List::Run | List::Setup => Some(1),
            List::Script(_) => Some(0),
        }
    }
}

impl Reader {
    /// What is wrong with a text, as the reader of the command reports it.
    pub fn fault(&self, text: &str) -> Option<StepFault> {
        match self.list {
            List::Walk => match walk_step(text) {
                Some(_) => None,
                None => Some(StepFault::NotStep),
            },
            List::Run => run_step_among(self.scheme, self.harts, text).err(),
            List::Setup => setup_step_among(self.scheme, self.harts, text).err(),
            List::Script(_) => live_step_among(self.scheme, self.harts, text).err(),
        }
    }

    /// Reports what is wrong with a text that has this fault.
    pub fn tell(&self, report: &mut Report, spot: Spot<'_>, text: &str, fault: StepFault)
        ensures { IsStillTrue report.old.is_out_of_memory report.new.is_out_of_memory }
    {
        if self.tell_name(report, spot, text) {
            return;
        }
        let form = self.form(text);
        let is_told = match fault {
            StepFault::NotStep => self.tell_word(report, spot, form, text),
            StepFault::NoSuchHart => self.tell_hart(report, spot, form, text),
            StepFault::NotPage => self.tell_page(report, spot, form, text),
        };
        if !is_told {
            let what = [Piece::StepFault(fault), WRITTEN, Piece::Form(form)];
            report.tell(spot, &what);
        }
    }

    /// Reports what is wrong with the hart and the name, with which a step begins. Answers whether
    /// something is.
    fn tell_name(&self, report: &mut Report, spot: Spot<'_>, text: &str) -> bool
        ensures { IsStillTrue report.old.is_out_of_memory report.new.is_out_of_memory }
    {
        let Some(at) = self.list.name_at() else {
            return false;
        };
        let Some(first) = word_at(text, 0) else {
            let why = if at == 1 { "no word" } else { NO_NAME };
            report.tell(spot, &[Piece::Text(why)]);
            return true;
        };
        if at == 1 && num(first).is_none() {
            let why = " where the number of the hart is expected";
            let spot = spot.at_word(0);
            report.tell(spot, &[Piece::Word(text_of(first)), Piece::Text(why)]);
            return true;
        }
        let Some(name) = word_at(text, at) else {
            report.tell(spot, &[Piece::Text(NO_NAME)]);
            return true;
        };
        self.tell_unknown(report, spot.at_word(at), text_of(name))
    }

    /// Reports what is wrong with the name of a step, if it is none. Answers whether it is none.
    fn tell_unknown(&self, report: &mut Report, spot: Spot<'_>, name: &str) -> bool
        ensures { IsStillTrue report.old.is_out_of_memory report.new.is_out_of_memory }
    {
        let command = self.list.command();
        if Form::of_name(command, name.as_bytes(), false).is_some() {
            return false;
        }
        if matches!(self.list, List::Script(_)) && num(name.as_bytes()).is_some() {
            let why = " where a name is expected: in a script no hart stands before it";
            report.tell(spot, &[Piece::Word(name), Piece::Text(why)]);
        } else {
            tell_no_step(report, spot, command, name);
        }
        true
    }

    /// How a step of the name in a text is written.
    fn form(&self, text: &str) -> Form {
        let Some(at) = self.list.name_at() else {
            return Form::of_walk();
        };
        let name = word_at(text, at).unwrap_or(b"".as_slice());
        Form::of_name(self.list.command(), name, at == 1).unwrap_or(Form::of_walk())
    }

    /// Reports the first word that is wrong, missing or too many. Answers whether one is.
    fn tell_word(&self, report: &mut Report, spot: Spot<'_>, form: Form, text: &str) -> bool
        ensures { IsStillTrue report.old.is_out_of_memory report.new.is_out_of_memory }
    {
        for index in 0..form.count() {
            if let Some(field) = form.field_at(index) {
                let word = word_at(text, index).map(|word| text_of(word));
                let spot = match word {
                    Some(_) => spot.at_word(index),
                    None => spot,
                };
                if self.tell_field(report, spot, form, field, word) {
                    return true;
                }
            }
        }
        let Some(word) = word_at(text, form.count()) else {
            return false;
        };
        let (word, is) = (
            Piece::Word(text_of(word)),
            Piece::Text(" is a word too many"),
        );
        let spot = spot.at_word(form.count());
        report.tell(spot, &[word, is, WRITTEN, Piece::Form(form)]);
        true
    }

    /// Reports what is wrong with the word of a field. Answers whether something is.
    fn tell_field(
        &self,
        report: &mut Report,
        spot: Spot<'_>,
        form: Form,
        field: Field,
        word: Option<&str>,
    ) -> bool
        ensures { IsStillTrue report.old.is_out_of_memory report.new.is_out_of_memory }
    {
        let Some(word) = word else {
            tell_missing(report, spot, form, field);
            return true;
        };
        if is_right(field, self.scheme, word.as_bytes()) {
            return false;
        }
        let found = word_meant(report.alloc, self.scheme, field, word.as_bytes());
        let meant = report.meant(found);
        tell_wrong(report, spot, form, field, word, meant.as_slice());
        true
    }

    /// Reports the first hart that is named and does not exist. Answers whether there is one.
    fn tell_hart(&self, report: &mut Report, spot: Spot<'_>, form: Form, text: &str) -> bool
        ensures { IsStillTrue report.old.is_out_of_memory report.new.is_out_of_memory }
    {
        for index in 0..form.count() {
            if let Some(hart) = self.absent_at(form, text, index) {
                let is = Piece::Text(" is not there: the harts are 0 to ");
                let last = Piece::Number(u64::from(self.harts.saturating_sub(1)));
                let what = [Piece::Text("hart "), Piece::Number(hart), is, last];
                report.tell(spot.at_word(index), &what);
                return true;
            }
        }
        false
    }

    /// The first hart of the word of this index that does not exist.
    fn absent_at(&self, form: Form, text: &str, index: usize) -> Option<u64> {
        match (form.field_at(index), word_at(text, index)) {
            (Some(field), Some(word)) => self.absent_in(field, word),
            (Some(_), None) => None,
            (None, _) => None,
        }
    }

    /// The first hart of a word that does not exist.
    fn absent_in(&self, field: Field, word: &[u8]) -> Option<u64> {
        match field {
            Field::Hart | Field::From | Field::To => num(word).filter(|hart| *hart
                >= u64::from(self.harts)),
            Field::Named => absent_of(word, self.harts),
            _ => None,
        }
    }

    /// Reports why the address of the page is none. Answers whether there is a page.
    fn tell_page(&self, report: &mut Report, spot: Spot<'_>, form: Form, text: &str) -> bool
        ensures { IsStillTrue report.old.is_out_of_memory report.new.is_out_of_memory }
    {
        for index in 0..form.count() {
            if matches!(form.field_at(index), Some(Field::Page)) {
                let word = word_at(text, index).unwrap_or(b"".as_slice());
                let why = Piece::Text(wrong_base(self.scheme, word));
                let is = Piece::Text(" is no page: ");
                let what = [Piece::Word(text_of(word)), is, why];
                report.tell(spot.at_word(index), &what);
                return true;
            }
        }
        false
    }
}

/// Reports that the word of a field is missing.
fn tell_missing(report: &mut Report, spot: Spot<'_>, form: Form, field: Field)
    ensures { IsStillTrue report.old.is_out_of_memory report.new.is_out_of_memory }
{
    let (name, is) = (Piece::Text(field.label()), Piece::Text(" is missing: "));
    let what = [
        name,
        is,
        Piece::Text(expected(field)),
        WRITTEN,
        Piece::Form(form),
    ];
    report.tell(spot, &what);
}

/// Reports that a word is wrong for a field, and which one is meant perhaps.
fn tell_wrong<'a>(
    report: &mut Report,
    spot: Spot<'_>,
    form: Form,
    field: Field,
    word: &'a str,
    meant: &'a [u8],
)
    ensures { IsStillTrue report.old.is_out_of_memory report.new.is_out_of_memory }
{
    let what = [
        Piece::Word(word),
        Piece::Text(" where "),
        Piece::Text(field.label()),
        Piece::Text(" is expected: "),
        Piece::Text(expected(field)),
        WRITTEN,
        Piece::Form(form),
        Piece::Meant(meant),
    ];
    report.tell(spot, &what);
}

/// Reports that a word is no step of a command.
fn tell_no_step(report: &mut Report, spot: Spot<'_>, command: Command, name: &str)
    ensures { IsStillTrue report.old.is_out_of_memory report.new.is_out_of_memory }
{
    let other = match command {
        Command::Live => Command::Run,
        Command::Run | Command::Walk => Command::Live,
    };
    let (word, this) = (Piece::Word(name), Piece::Text(command.name()));
    if Form::of_name(other, name.as_bytes(), false).is_some() {
        let other = Piece::Text(other.name());
        let (is, not) = (Piece::Text(" is a step of "), Piece::Text(", not of "));
        report.tell(spot, &[word, is, other, not, this]);
        return;
    }
    let is = Piece::Text(" is no step of ");
    let names = names(command);
    match name_meant(name, names.as_slice(), names.as_slice()) {
        Some(meant) => {
            let (perhaps, meant) = (Piece::Text("; perhaps "), Piece::Text(meant));
            report.tell(spot, &[word, is, this, perhaps, meant]);
        }
        None => report.tell(spot, &[word, is, this]),
    }
}

/// The first of the numbers between commas that is not below the number of harts.
fn absent_of(word: &[u8], harts: u8) -> Option<u64> {
    word.split(|byte| *byte == b',')
        .filter_map(|part| num(part))
        .find(|hart| *hart >= u64::from(harts))
}

/// Whether the address after the size's word is no multiple of the size in bytes.
fn is_misaligned(word: &[u8], prefix: &[u8], size: u64) -> bool
    requires { 1 ≤ size }
{
    match word.strip_prefix(prefix) {
        Some(digits) => num(digits).is_some_and(|base| base % size != 0),
        None => false,
    }
}

/// Why a page's address is not one of the scheme or of its size.
fn wrong_base(scheme: Scheme, word: &[u8]) -> &'static str {
    if is_misaligned(word, b"4K:".as_slice(), 0x1000) {
        "the address is no multiple of 4K"
    } else if is_misaligned(word, b"2M:".as_slice(), 0x20_0000) {
        "the address is no multiple of 2M"
    } else if is_misaligned(word, b"1G:".as_slice(), 0x4000_0000) {
        "the address is no multiple of 1G"
    } else if is_misaligned(word, b"512G:".as_slice(), 0x80_0000_0000) {
        "the address is no multiple of 512G"
    } else {
        match scheme {
            Scheme::Sv39 => "the address is not canonical: in sv39 its bits 63 to 38 must be equal",
            Scheme::Sv48 => "the address is not canonical: in sv48 its bits 63 to 47 must be equal",
        }
    }
}
