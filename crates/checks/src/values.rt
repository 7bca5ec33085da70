//! What is wrong with the values of keys: each on its own.
ghost use Rattle.std.specs.Prelude.{IfSome};
ghost use Rattle.files.specs.KeyTable.{name_of};
ghost use Rattle.checks.specs.Places.{IsKeyLine};
ghost use Rattle.checks.specs.Told.{IsStillTrue};

use crate::meant::{number_in, scheme_meant};
use crate::places::Place;
use crate::positions::Position;
use crate::report::{Piece, Report, Spot};
use crate::split::number_of;
use files::{Key, Kind};
use pte::Scheme;
use spaces::Config;
use steps::next_word;
use toml::{Table, Value};

/// What is wrong with a word that is no number.
const NO_NUMBER: &str =
    " is no number: 0x and 1 to 16 hexadecimal digits, or decimal digits of a value below 2^64";

/// A document and its text.
#[derive(Clone, Copy)]
pub struct Document<'a> {
    pub text: &'a str,
    pub table: &'a Table,
}

/// What kind of value it is.
pub fn kind(value: &Value) -> &'static str {
    match value {
        Value::String(_) => "a text",
        Value::Integer(_) => "a whole number",
        Value::Float(_) => "a number with a fraction",
        Value::Boolean(_) => "true or false",
        Value::Datetime(_) => "a date",
        Value::Array(_) => "an array",
        Value::Table(_) => "a table",
    }
}

impl<'a> Document<'a> {
    /// The value at a key.
    pub fn value(&self, key: Key) -> Option<&'a Value> {
        self.table.get(key.name())
    }

    /// Where a key stands in the text.
    pub fn place(&self, report: &mut Report, key: Key) -> Place
        ensures line { IfSome result.line
            (λ number. IsKeyLine self.now.text.now (name_of key) number) }
        ensures still_short { IsStillTrue report.old.is_out_of_memory report.new.is_out_of_memory }
    {
        self.place_of_name(report, key.name())
    }

    /// Where a key of this name, known or not, stands in the text; nowhere if there was not enough
    /// memory.
    fn place_of_name(&self, report: &mut Report, name: &str) -> Place
        ensures line { IfSome result.line
            (λ number. IsKeyLine self.now.text.now name.now number) }
        ensures still_short { IsStillTrue report.old.is_out_of_memory report.new.is_out_of_memory }
    {
        match Place::of_key(report.alloc, self.text, name) {
            Ok(place) => place,
            Err(error) => {
                report.note(Err(error));
                Place::unknown(report.alloc)
            }
        }
    }

    /// The position of the text of this index in the array of this number among those of a key.
    pub fn position(&self, place: &Place, group: usize, index: usize) -> Position<'a> {
        match place.mark_of(group, index) {
            Some(mark) => Position::of_mark(self.text, mark),
            None => Position::unknown(),
        }
    }

    /// The position of the text of this index in the array of a key, or else the line of the key.
    pub fn position_in_array(&self, place: &Place, index: usize) -> Position<'a> {
        match place.mark_of(0, index) {
            Some(mark) => Position::of_mark(self.text, mark),
            None => Position::of_line(place.line),
        }
    }

    /// Reports what is wrong with a key.
    pub fn tell(&self, report: &mut Report, key: Key, what: &[Piece<'_>])
        ensures { IsStillTrue report.old.is_out_of_memory report.new.is_out_of_memory }
    {
        self.tell_of_name(report, key.name(), what)
    }

    /// Reports what is wrong with a key of this name, known or not.
    pub fn tell_of_name(&self, report: &mut Report, name: &str, what: &[Piece<'_>])
        ensures { IsStillTrue report.old.is_out_of_memory report.new.is_out_of_memory }
    {
        let line = self.place_of_name(report, name).line;
        tell_at(report, Position::of_line(line), name, what);
    }

    /// Reports what is wrong with the text that is the value of a key.
    fn tell_text(&self, report: &mut Report, key: Key, what: &[Piece<'_>])
        ensures { IsStillTrue report.old.is_out_of_memory report.new.is_out_of_memory }
    {
        let place = self.place(report, key);
        let at = self.position_in_array(&place, 0);
        tell_at(report, at, key.name(), what);
    }

    /// Reports that the value of a key is of the wrong kind.
    pub fn tell_kind(&self, report: &mut Report, key: Key, expected: &str, value: &Value)
        ensures { IsStillTrue report.old.is_out_of_memory report.new.is_out_of_memory }
    {
        let what = [
            Piece::Text(expected),
            Piece::Text(" is expected, not "),
            Piece::Text(kind(value)),
        ];
        self.tell(report, key, &what)
    }

    /// The whole number at a key, or else its default. `None`: it is wrong, or the key has another
    /// kind.
    pub fn whole(&self, key: Key) -> Option<u32> {
        match key.kind() {
            Kind::Whole {
                least,
                most,
                default,
            } => match self.value(key) {
                Some(value) => whole_in(value, least, most),
                None => Some(default),
            },
            Kind::Ppn { .. } | Kind::Scheme | Kind::Spares | Kind::Texts | Kind::Scripts => None,
        }
    }

    /// The PPN at a key, or else its default. `None`: it is wrong, or the key has another kind.
    pub fn ppn(&self, key: Key) -> Option<u64> {
        match key.kind() {
            Kind::Ppn { limit, default } => match self.value(key) {
                Some(value) => ppn_in(value, limit),
                None => Some(default),
            },
            Kind::Whole { .. } | Kind::Scheme | Kind::Spares | Kind::Texts | Kind::Scripts => None,
        }
    }

    /// Reports what is wrong with the values of those of the keys that have numbers.
    pub fn tell_numbers(&self, report: &mut Report, keys: &[Key])
        ensures { IsStillTrue report.old.is_out_of_memory report.new.is_out_of_memory }
    {
        for key in keys {
            if let Some(value) = self.value(*key) {
                self.tell_number(report, *key, value);
            }
        }
    }

    /// Reports what is wrong with a value, if it is to be a number.
    fn tell_number(&self, report: &mut Report, key: Key, value: &Value)
        ensures { IsStillTrue report.old.is_out_of_memory report.new.is_out_of_memory }
    {
        match key.kind() {
            Kind::Whole { least, most, .. } => {
                let range = (i64::from(least), i64::from(most));
                self.tell_whole(report, key, range, value)
            }
            Kind::Ppn { limit, .. } => self.tell_ppn(report, key, limit, value),
            Kind::Scheme | Kind::Spares | Kind::Texts | Kind::Scripts => {}
        }
    }

    /// Reports whether a value is no whole number within the range.
    fn tell_whole(&self, report: &mut Report, key: Key, range: (i64, i64), value: &Value)
        ensures { IsStillTrue report.old.is_out_of_memory report.new.is_out_of_memory }
    {
        match value.as_integer() {
            Some(n) if n >= range.0 && n <= range.1 => {}
            Some(n) => self.tell_outside(report, key, range, n),
            None => self.tell_no_whole(report, key, range, value),
        }
    }

    fn tell_outside(&self, report: &mut Report, key: Key, range: (i64, i64), n: i64)
        ensures { IsStillTrue report.old.is_out_of_memory report.new.is_out_of_memory }
    {
        let what = [
            Piece::Whole(n),
            Piece::Text(" is not from "),
            Piece::Whole(range.0),
            Piece::Text(" to "),
            Piece::Whole(range.1),
        ];
        self.tell(report, key, &what)
    }

    fn tell_no_whole(&self, report: &mut Report, key: Key, range: (i64, i64), value: &Value)
        ensures { IsStillTrue report.old.is_out_of_memory report.new.is_out_of_memory }
    {
        let what = [
            Piece::Text("a whole number from "),
            Piece::Whole(range.0),
            Piece::Text(" to "),
            Piece::Whole(range.1),
            Piece::Text(" is expected, not "),
            Piece::Text(kind(value)),
        ];
        self.tell(report, key, &what)
    }

    /// Reports whether a value is no text of one number, below `limit` if there is one.
    fn tell_ppn(&self, report: &mut Report, key: Key, limit: Option<u64>, value: &Value)
        ensures { IsStillTrue report.old.is_out_of_memory report.new.is_out_of_memory }
    {
        let Some(text) = value.as_str() else {
            let expected = "a text of a number is expected, as \"0x80000\"";
            let what = [
                Piece::Text(expected),
                Piece::Text(", not "),
                Piece::Text(kind(value)),
            ];
            self.tell(report, key, &what);
            return;
        };
        let Some(n) = number_of(text) else {
            let found = number_in(report.alloc, text, limit);
            let meant = report.meant(found);
            let (no, meant) = (Piece::Text(NO_NUMBER), Piece::Meant(meant.as_slice()));
            self.tell_text(report, key, &[Piece::Word(text), no, meant]);
            return;
        };
        match limit {
            Some(limit) if n >= limit => {
                let is = Piece::Text(" is not below ");
                self.tell_text(report, key, &[Piece::Word(text), is, Piece::Limit(limit)])
            }
            _ => {}
        }
    }

    /// The scheme of the key `mode`.
    pub fn mode(&self, report: &mut Report) -> Option<Scheme>
        ensures { IsStillTrue report.old.is_out_of_memory report.new.is_out_of_memory }
    {
        let Some(value) = self.value(Key::Mode) else {
            return Some(Config::default().scheme);
        };
        let Some(text) = value.as_str() else {
            self.tell_kind(report, Key::Mode, "a text sv39 or sv48", value);
            return None;
        };
        if is_only_word(text, "sv39") {
            return Some(Scheme::Sv39);
        }
        if is_only_word(text, "sv48") {
            return Some(Scheme::Sv48);
        }
        let neither = Piece::Text(" is neither sv39 nor sv48");
        let meant = Piece::Meant(scheme_meant(text).as_bytes());
        let what = [Piece::Word(text), neither, meant];
        self.tell_text(report, Key::Mode, &what);
        None
    }

    /// The values of the array at a key, each of which is a text; `of` says what the array is.
    /// `None`: the key is absent, or something is no text, and that is reported.
    pub fn texts(&self, report: &mut Report, key: Key, of: &str) -> Option<&'a [Value]>
        ensures { IsStillTrue report.old.is_out_of_memory report.new.is_out_of_memory }
    {
        match self.value(key) {
            Some(value) => {
                self.tell_texts(report, key, of, value);
                texts_in(value)
            }
            None => None,
        }
    }

    /// Reports whether a value is no array, and each element of it that is no text.
    pub fn tell_texts(&self, report: &mut Report, key: Key, of: &str, value: &Value)
        ensures { IsStillTrue report.old.is_out_of_memory report.new.is_out_of_memory }
    {
        let Some(values) = value.as_array() else {
            self.tell_kind(report, key, of, value);
            return;
        };
        for (index, value) in values.as_slice().iter().enumerate() {
            if report.is_full() {
                break;
            }
            if value.as_str().is_none() {
                self.tell_element(report, key, index, value);
            }
        }
    }

    /// Reports that an element of an array is no text.
    fn tell_element(&self, report: &mut Report, key: Key, index: usize, value: &Value)
        ensures { IsStillTrue report.old.is_out_of_memory report.new.is_out_of_memory }
    {
        let what = [
            Piece::Text("element "),
            Piece::Number(index.saturating_add(1) as u64),
            Piece::Text(" is "),
            Piece::Text(kind(value)),
            Piece::Text(", and a text is expected"),
        ];
        self.tell(report, key, &what)
    }
}

/// Reports at a position what is wrong with a key of this name.
fn tell_at(report: &mut Report, at: Position<'_>, name: &str, what: &[Piece<'_>])
    ensures { IsStillTrue report.old.is_out_of_memory report.new.is_out_of_memory }
{
    let place = [Piece::Text("key "), Piece::Word(name), Piece::Text(": ")];
    report.tell(Spot { at, place: &place }, what);
}

/// The whole number that a value is, if it is within the range.
fn whole_in(value: &Value, least: u32, most: u32) -> Option<u32> {
    let n = value.as_integer()?;
    let n = u32::try_from(n).ok()?;
    if n >= least && n <= most {
        Some(n)
    } else {
        None
    }
}

/// The number that the text of a value writes, if it is below the limit.
fn ppn_in(value: &Value, limit: Option<u64>) -> Option<u64> {
    let n = number_of(value.as_str()?)?;
    if is_below(n, limit) { Some(n) } else { None }
}

fn is_below(n: u64, limit: Option<u64>) -> bool {
    match limit {
        Some(limit) => n < limit,
        None => true,
    }
}

/// The values of an array in which each is a text.
pub fn texts_in(value: &Value) -> Option<&[Value]> {
    let Some(values) = value.as_array() else {
        return None;
    };
    for value in values.as_slice() {
        if value.as_str().is_none() {
            return None;
        }
    }
    Some(values.as_slice())
}

/// The text of a value that is one.
pub fn text_in(value: &Value) -> &str {
    value.as_str().unwrap_or("")
}

/// Whether a text has just this word.
fn is_only_word(text: &str, expected: &str) -> bool {
    match next_word(text.as_bytes()) {
        Some((word, rest)) => word == expected.as_bytes() && next_word(rest).is_none(),
        None => false,
    }
}
