//! The list of what is known is read before the trace is opened.
use crate::samples::TRACE;
use harts::OpenGate;
use scenario::answer_words;
use std::alloc::{AllocError, Global};
use std::cell::Cell;
use std::test::Fail;

/// What a list has, and what the program answers: its status, the line on standard error, and whether the
/// trace was opened.
#[derive(Clone, Copy)]
struct Case {
    list: Option<&'static str>,
    status: u8,
    line: &'static str,
    opens: bool,
}

const CASES: [Case; 4] = [
    Case {
        list: Some("# nothing\n"),
        status: 1,
        line: "",
        opens: true,
    },
    Case {
        list: None,
        status: 2,
        line: "svsim: cannot read a list\n",
        opens: false,
    },
    Case {
        list: Some("user - -\nkernel - \n"),
        status: 3,
        line: "a list:2: a space too many: one stands between two fields, and none at the ends\n",
        opens: false,
    },
    Case {
        list: Some("somebody - -"),
        status: 3,
        line: "a list:1: no owner: an entry begins with user or kernel\n",
        opens: false,
    },
];

fn words(alloc: Global) -> Result<Vec<String>, AllocError> {
    let mut words = Vec::new(alloc);
    for word in ["svsim", "watch", "--known", "a list", "a trace"] {
        words.push(String::from_str(alloc, word)?)?;
    }
    Ok(words)
}

#[test]
fn list_is_read_before_the_trace_is_opened(rt: HostRuntime) -> Result<(), Fail> {
    let alloc = rt.alloc();
    for case in CASES {
        let mut out: Vec<u8> = Vec::new(alloc);
        let mut err: Vec<u8> = Vec::new(alloc);
        let opened = Cell::new(false);
        let status = answer_words(
            &rt,
            alloc,
            Ok(words(alloc)?),
            |_name| {
                opened.set(true);
                Some(TRACE.as_bytes())
            },
            |_name| case.list.map(str::as_bytes),
            &mut out,
            &mut err,
            &OpenGate,
        );
        assert!(rt; status == case.status);
        assert!(rt; err.as_slice() == case.line.as_bytes());
        assert!(rt; opened.get() == case.opens);
        assert!(rt; out.is_empty() != case.opens);
    }
    Ok(())
}

/// A list as long as a file may be, and one that is a byte longer.
#[test]
fn longest_list(rt: HostRuntime) -> Result<(), Fail> {
    let alloc = rt.alloc();
    for (bytes, status, line) in [
        (1_048_576, 1, ""),
        (1_048_577, 2, "svsim: file too large\n"),
    ] {
        let mut list: Vec<u8> = Vec::new(alloc);
        list.resize(bytes, b'\n')?;
        let mut out: Vec<u8> = Vec::new(alloc);
        let mut err: Vec<u8> = Vec::new(alloc);
        let answered = answer_words(
            &rt,
            alloc,
            Ok(words(alloc)?),
            |_name| Some(TRACE.as_bytes()),
            |_name| Some(list.as_slice()),
            &mut out,
            &mut err,
            &OpenGate,
        );
        assert!(rt; answered == status);
        assert!(rt; err.as_slice() == line.as_bytes());
    }
    Ok(())
}
