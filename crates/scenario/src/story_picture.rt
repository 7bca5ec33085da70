//! The story of a verdict as a picture.
ghost use Rattle.std.specs.Prelude.{◌≡◌, List, ℕ};
ghost use Rattle.scenario.specs.Input.{AreLeft};
ghost use Rattle.scenario.specs.Watches.{Draws, WritesPicture};
ghost use Rattle.watch_report.specs.Explaining.{asked_of};

use draw::{Story as Drawn, StoryMark, StoryRecord, draw_story};
use lines::push_hexadecimal;
use std::alloc::{AllocError, Global};
use std::io::{Read, Write};
use watch_report::{Filter, ReportFault, Role, Story, tell_story, write_told};

/// What a record with a role does to the translation.
fn mark_of(role: Role) -> StoryMark {
    match role {
        Role::Maps | Role::Enters => StoryMark::LeadsTo,
        Role::MakesStale => StoryMark::MakesStale,
        _ => StoryMark::Other,
    }
}

/// A line without its last byte, which is its end.
fn without_end(line: &[u8]) -> &[u8] {
    match line {
        [front @ .., _] => front,
        [] => line,
    }
}

/// The picture of a story in this file.
fn picture_of(alloc: Global, file: &str, story: &Story) -> Result<String, AllocError> {
    let mut label = String::new(alloc);
    label.push_str("page ")?;
    push_hexadecimal(&mut label, story.page)?;
    let verdict = without_end(story.verdict.as_slice());
    let mut drawn = Drawn::new(alloc, file, verdict, story.hart, label.as_bytes())?;
    for row in story.rows.as_slice() {
        drawn.add(
            alloc,
            &StoryRecord {
                line: row.line,
                hart: row.hart,
                mark: mark_of(row.role),
                text: row.text.as_slice(),
                remark: row.words.as_slice(),
            },
        )?;
    }
    draw_story(alloc, &drawn)
}

/// Writes the picture of a story in this file.
fn write_picture<W: Write>(
    alloc: Global,
    file: &str,
    story: &Story,
    out: &mut W,
) -> Result<bool, ReportFault>
    ensures { WritesPicture result (W.contents out.old) (W.contents out.new) }
{
    let Ok(picture) = picture_of(alloc, file, story) else {
        return Err(ReportFault::NoMemory);
    };
    match write_told(out, picture.as_bytes()) {
        Ok(()) => Ok(true),
        Err(fault) => Err(fault),
    }
}

/// Reads a trace up to a line, and writes the picture of the story that `explain_trace` writes.
/// Whether there is one.
pub(crate) fn draw_trace<R: Read + Drop, W: Write>(
    alloc: Global,
    filter: Filter,
    line: u64,
    file: &str,
    input: R,
    out: &mut W,
) -> Result<bool, ReportFault>
    ensures { (text : List ℕ) × AreLeft (R.remaining input) text
        × Draws (asked_of file.now line filter) text result (W.contents out.old)
        (W.contents out.new) }
{
    match tell_story(alloc, filter, line, file, input) {
        Ok(Some(story)) => write_picture(alloc, file, &story, out),
        Ok(None) => Ok(false),
        Err(fault) => Err(fault),
    }
}
