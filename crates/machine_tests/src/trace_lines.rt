//! Lines of records are read and printed, and verdicts printed.

use pte::{Page, PageSize, PteFlags, VirtAddr};
use tlb::Entry;
use watch::Frames;
use watch_report::{
    Line, Trigger, VerdictCounts, Warning, push_record, push_summary, push_warning, read_header,
    read_line,
};

/// A line of each kind of record, as it is printed.
const RECORDS: &[u8] = b"w 11 80000008 20000401 @boot\n\
    s 1 8000a00000080000\n\
    s 1 0\n\
    f 0 1000 -\n\
    f 0 - a @flush one\n\
    r 0 2 3 1000 2000 a\n\
    r 0 2 3 0 ffffffffffffffff -\n\
    e 0 2\n\
    a 0 100 1\n\
    z 0 100 2\n\
    c 0 1 80000 1000 2000\n\
    c 0 1 - 1000 ffffffffffffffff\n\
    d 0 1\n\
    u 3 ffffffc000001234\n";

#[test]
fn records_are_read_and_printed(rt: HostRuntime) {
    let header = read_header(b"watch 1 12 sv39").expect(&rt, "a header");
    let mut text = Vec::new(rt.alloc());
    for line in RECORDS.split(|byte| *byte == b'\n') {
        if let Some(Line::Record { record, by }) = read_line(header, line) {
            push_record(&mut text, header.scheme, record, by).expect(&rt, "room");
        }
    }
    assert!(rt; text.as_slice() == RECORDS);
}

#[test]
fn verdicts_are_printed(rt: HostRuntime) {
    let base = VirtAddr::new(0x1000).expect(&rt, "an address");
    let entry = Entry {
        asid: 10,
        global: false,
        page: Page::around(base, PageSize::Kib4),
        ppn: 0x100,
        flags: PteFlags::R,
    };
    let frames = Frames {
        first: 0x100,
        count: 1,
    };
    let warning = Warning {
        line: 18,
        hart: 11,
        root: 0x80000,
        entry,
        since: 6,
        trigger: Trigger::GivenBack(frames),
    };
    let user = VerdictCounts {
        free: 1,
        ..VerdictCounts::default()
    };
    let mut text = Vec::new(rt.alloc());
    push_warning(&mut text, b"boot.watch", &warning, b"unmap", b"").expect(&rt, "room");
    push_summary(&mut text, 18, None, &user, &VerdictCounts::default(), None).expect(&rt, "room");
    let wanted =
        b"boot.watch:18: free hart 11 may hold page 1000+1000 -> 100 r---- asid a root 80000, \
        stale since line 6 by unmap; frames 100+1 given back\n18 records, 1 verdict: free 1\n";
    assert!(rt; text.as_slice() == wanted.as_slice());
}
