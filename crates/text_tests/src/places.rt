//! Where keys and their texts stand in a document.
use checks::{Mark, Place};
use std::test::Fail;

const TEXT: &str = "# steps = ['']\nsteps = [ # '\n  \"0 \u{FC}\", '''\n0'''] # ''\nharts = 1";

/// Whether a text stands there.
fn is_at(mark: Option<Mark>, line: usize, column: usize, text: &str) -> bool {
    match mark {
        Some(mark) => {
            mark.line == line
                && mark.column == column
                && mark.group == 0
                && TEXT.as_bytes().get(mark.start..mark.end) == Some(text.as_bytes())
        }
        None => false,
    }
}

/// Two texts, the second of two lines; quotes of comments begin none.
#[test]
fn texts_of_a_key(rt: HostRuntime) -> Result<(), Fail> {
    let place = Place::of_key(rt.alloc(), TEXT, "steps")?;
    assert!(rt; place.line == Some(2));
    assert!(rt; is_at(place.mark_of(0, 0), 3, 3, "\"0 \u{FC}\""));
    assert!(rt; is_at(place.mark_of(0, 1), 3, 10, "'''\n0'''"));
    assert!(rt; place.mark_of(0, 2).is_none());
    assert!(rt; place.mark_of(1, 0).is_none());
    Ok(())
}

/// Texts of arrays in an array, and a value that is a text.
#[test]
fn texts_of_arrays_and_alone(rt: HostRuntime) -> Result<(), Fail> {
    let text = "scripts = [[\"a\"], [], ['b', 'c']]\nmode = 'sv48'";
    let scripts = Place::of_key(rt.alloc(), text, "scripts")?;
    let last = scripts.mark_of(3, 1).map(|mark| (mark.start, mark.end));
    assert!(rt; last == Some((28, 31)));
    assert!(rt; scripts.mark_of(2, 0).is_none());
    let mode = Place::of_key(rt.alloc(), text, "mode")?;
    let alone = mode.mark_of(0, 0).map(|mark| (mark.line, mark.column));
    assert!(rt; alone == Some((2, 8)));
    let absent = Place::of_key(rt.alloc(), text, "steps")?;
    assert!(rt; absent.line.is_none());
    Ok(())
}
