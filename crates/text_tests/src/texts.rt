//! What no clause says of calls on texts: a writer that is full, the printed texts of faults, and words
//! that can't be read.
use crate::ends::{AtEnd, Narrow};
use crate::samples::FILE;
use harts::OpenGate;
use scenario::{Fault, NoWords, StepFault, answer_words, walk_text};
use std::test::Fail;

/// What a full writer took before the fault.
#[test]
fn text_that_is_not_taken(rt: HostRuntime) {
    let alloc = rt.alloc();
    let mut out = Narrow::new(alloc, 1, 3, AtEnd::Fails);
    assert!(rt; matches!(walk_text(alloc, FILE, &mut out), Err(Fault::Output)));
    assert!(rt; out.held.as_slice() == b"1 p".as_slice());
}

#[test]
fn each_fault_has_its_text(rt: HostRuntime) -> Result<(), Fail> {
    let alloc = rt.alloc();
    for (fault, shown) in [
        (Fault::NotToml, "not TOML"),
        (Fault::Layout, "layout refused"),
        (Fault::TooMany, "too many steps"),
        (Fault::Step(7, StepFault::NotStep), "step 7: not a step"),
        (
            Fault::Script(3, 65_536, StepFault::NotPage),
            "script 3 step 65536: not a page",
        ),
        (Fault::Output, "output failed"),
        (Fault::NoMemory, "no memory"),
    ] {
        let told = format!(in alloc; "{fault}")?;
        assert!(rt; told.as_str() == shown);
    }
    Ok(())
}

/// No word at all, not even the program's name, and words that the system does not give.
#[test]
fn words_that_are_not_there(rt: HostRuntime) {
    let alloc = rt.alloc();
    for (words, status, line) in [
        (Ok(Vec::new(alloc)), 2, "svsim: usage: svsim COMMAND FILE\n"),
        (
            Err(NoWords::NotText),
            2,
            "svsim: usage: svsim COMMAND FILE\n",
        ),
        (Err(NoWords::NoMemory), 5, "svsim: no memory\n"),
    ] {
        let mut out: Vec<u8> = Vec::new(alloc);
        let mut err: Vec<u8> = Vec::new(alloc);
        let open = |_name: &str| Some(FILE.as_bytes());
        let none = |_name: &str| None::<&[u8]>;
        let answered = answer_words(&rt, alloc, words, open, none, &mut out, &mut err, &OpenGate);
        assert!(rt; answered == status);
        assert!(rt; out.is_empty());
        assert!(rt; err.as_slice() == line.as_bytes());
    }
}
