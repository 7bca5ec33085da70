//! What is wrong with the steps of a file.
ghost use Rattle.checks.specs.Told.{IsStillTrue};

use crate::layout::tell_layout;
use crate::places::Place;
use crate::positions::Position;
use crate::report::{Piece, Report, Spot};
use crate::step_texts::{List, Reader};
use crate::tables_told::tell_tables;
use crate::values::{Document, text_in, texts_in};
use files::{Command, Key, MOST_STEPS};
use pte::Scheme;
use spaces::{MAX_FRAMES, MAX_HARTS, MAX_LIVE_FRAMES};
use steps::StepFault;
use toml::Value;

/// What the value of `scripts` is, and each of its elements.
const SCRIPT_TEXTS: &str = "an array of texts for each hart";

/// Reports each text of a list that is no step.
fn tell_texts(
    report: &mut Report,
    document: &Document<'_>,
    reader: &Reader,
    place: &Place,
    values: &[Value],
)
    ensures { IsStillTrue report.old.is_out_of_memory report.new.is_out_of_memory }
{
    for (index, value) in values.iter().enumerate() {
        if report.is_full() {
            break;
        }
        let text = text_in(value);
        if let Some(fault) = reader.fault(text) {
            let at = document.position(place, reader.list.group(), index);
            tell_step(report, reader, at, index, text, fault);
        }
    }
}

/// Reports what is wrong with the text of this index in a list, which has this fault.
fn tell_step(
    report: &mut Report,
    reader: &Reader,
    at: Position<'_>,
    index: usize,
    text: &str,
    fault: StepFault,
)
    ensures { IsStillTrue report.old.is_out_of_memory report.new.is_out_of_memory }
{
    let number = Piece::Number(index.saturating_add(1) as u64);
    let (step, end) = (Piece::Text("step "), Piece::Text(": "));
    match reader.list {
        List::Script(hart) => {
            let (script, hart) = (Piece::Text("script "), Piece::Number(hart as u64));
            let place = [script, hart, Piece::Text(" "), step, number, end];
            let spot = Spot { at, place: &place };
            reader.tell(report, spot, text, fault);
        }
        List::Setup => {
            let place = [Piece::Text("setup "), step, number, end];
            let spot = Spot { at, place: &place };
            reader.tell(report, spot, text, fault);
        }
        List::Walk | List::Run => {
            let place = [step, number, end];
            let spot = Spot { at, place: &place };
            reader.tell(report, spot, text, fault);
        }
    }
}

/// Reports each text at a key that is no step.
fn tell_list(
    report: &mut Report,
    document: &Document<'_>,
    key: Key,
    reader: &Reader,
    values: &[Value],
)
    ensures { IsStillTrue report.old.is_out_of_memory report.new.is_out_of_memory }
{
    let place = document.place(report, key);
    tell_texts(report, document, reader, &place, values)
}

/// Reports that there are too many steps.
fn tell_many(report: &mut Report, count: usize)
    ensures { IsStillTrue report.old.is_out_of_memory report.new.is_out_of_memory }
{
    if count <= MOST_STEPS {
        return;
    }
    let what = [
        Piece::Number(count as u64),
        Piece::Text(" steps are more than "),
        Piece::Number(MOST_STEPS as u64),
    ];
    report.tell_of_file(&what)
}

/// Reports what is wrong with the steps of `walk` or `run`.
fn tell_steps(
    report: &mut Report,
    document: &Document<'_>,
    reader: &Reader,
    values: Option<&[Value]>,
)
    ensures { IsStillTrue report.old.is_out_of_memory report.new.is_out_of_memory }
{
    if let Some(values) = values {
        tell_many(report, values.len());
        tell_list(report, document, Key::Steps, reader, values);
    }
}

/// Reports what is wrong with a file for `walk`, but for unknown keys.
pub fn tell_walk(report: &mut Report, document: &Document<'_>)
    ensures { IsStillTrue report.old.is_out_of_memory report.new.is_out_of_memory }
{
    tell_tables(report, document);
    let values = document.texts(report, Key::Steps, "an array of texts MODE ACCESS ADDRESS");
    let _mode = document.mode(report);
    let reader = Reader {
        list: List::Walk,
        scheme: Scheme::Sv39,
        harts: 1,
    };
    tell_steps(report, document, &reader, values)
}

/// Reports what is wrong with a file for `run`, but for unknown keys.
pub fn tell_run(report: &mut Report, document: &Document<'_>)
    ensures { IsStillTrue report.old.is_out_of_memory report.new.is_out_of_memory }
{
    let harts = tell_layout(report, document, MAX_FRAMES);
    let values = document.texts(report, Key::Steps, "an array of texts");
    let scheme = document.mode(report).unwrap_or(Scheme::Sv48);
    let reader = Reader {
        list: List::Run,
        scheme,
        harts: harts.unwrap_or(MAX_HARTS as u8),
    };
    tell_steps(report, document, &reader, values)
}

/// The scripts of a document.
fn scripts<'a>(document: &Document<'a>) -> &'a [Value] {
    match document.value(Key::Scripts) {
        Some(Value::Array(scripts)) => scripts.as_slice(),
        _ => &[],
    }
}

/// Reports what is wrong with the scripts, but for their steps.
fn tell_shape(report: &mut Report, document: &Document<'_>, harts: u8)
    ensures { IsStillTrue report.old.is_out_of_memory report.new.is_out_of_memory }
{
    let Some(value) = document.value(Key::Scripts) else {
        return;
    };
    let Some(values) = value.as_array() else {
        document.tell_kind(report, Key::Scripts, SCRIPT_TEXTS, value);
        return;
    };
    let count = values.len();
    if count > usize::from(harts) {
        let what = [
            Piece::Number(count as u64),
            Piece::Text(" scripts are more than "),
            Piece::Number(u64::from(harts)),
            Piece::Text(if harts == 1 { " hart" } else { " harts" }),
        ];
        document.tell(report, Key::Scripts, &what);
    }
    for value in values.as_slice() {
        if report.is_full() {
            break;
        }
        document.tell_texts(report, Key::Scripts, SCRIPT_TEXTS, value);
    }
}

/// Reports what is wrong with the steps of each script.
fn tell_scripts(report: &mut Report, document: &Document<'_>, reader: Reader, scripts: &[Value])
    ensures { IsStillTrue report.old.is_out_of_memory report.new.is_out_of_memory }
{
    let mut place = document.place(report, Key::Scripts);
    if scripts.iter().any(|script| texts_in(script).is_none()) {
        place.marks.clear();
    }
    tell_each_script(report, document, reader, &place, scripts)
}

fn tell_each_script(
    report: &mut Report,
    document: &Document<'_>,
    reader: Reader,
    place: &Place,
    scripts: &[Value],
)
    ensures { IsStillTrue report.old.is_out_of_memory report.new.is_out_of_memory }
{
    for (hart, script) in scripts.iter().enumerate() {
        let mut reader = reader;
        reader.list = List::Script(hart);
        if let Some(values) = texts_in(script) {
            tell_texts(report, document, &reader, place, values);
        }
    }
}

/// How many texts the setup and the scripts have together.
fn count_all(setup: Option<&[Value]>, scripts: &[Value]) -> usize {
    let mut count = match setup {
        Some(values) => values.len(),
        None => 0,
    };
    for script in scripts {
        if let Some(values) = texts_in(script) {
            count = count.saturating_add(values.len());
        }
    }
    count
}

/// Reports what is wrong with a file for `live`, but for unknown keys.
pub fn tell_live(report: &mut Report, document: &Document<'_>)
    ensures { IsStillTrue report.old.is_out_of_memory report.new.is_out_of_memory }
{
    let harts = tell_layout(report, document, MAX_LIVE_FRAMES);
    let harts = harts.unwrap_or(MAX_HARTS as u8);
    let setup = document.texts(report, Key::Setup, "an array of texts");
    tell_shape(report, document, harts);
    document.tell_numbers(report, Command::Live.own_keys());
    let scheme = document.mode(report).unwrap_or(Scheme::Sv48);
    let reader = Reader {
        list: List::Setup,
        scheme,
        harts,
    };
    tell_live_steps(report, document, reader, setup)
}

/// Reports what is wrong with the steps of `live`.
fn tell_live_steps(
    report: &mut Report,
    document: &Document<'_>,
    reader: Reader,
    setup: Option<&[Value]>,
)
    ensures { IsStillTrue report.old.is_out_of_memory report.new.is_out_of_memory }
{
    let scripts = scripts(document);
    tell_many(report, count_all(setup, scripts));
    if let Some(values) = setup {
        tell_list(report, document, Key::Setup, &reader, values);
    }
    tell_scripts(report, document, reader, scripts)
}
