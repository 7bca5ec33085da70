//! Traps that no run replies, as they are printed.

use history::Reply;
use lines::reply_lines;
use std::test::Fail;
use walk::{Trap, Why};

const TRAPS: [(Why, &str); 5] = [
    (Why::Outside, "1 trap 13 Outside\n"),
    (Why::Reserved, "1 trap 13 Reserved\n"),
    (Why::TooDeep, "1 trap 13 TooDeep\n"),
    (Why::Misaligned, "1 trap 13 Misaligned\n"),
    (Why::NotDirty, "1 trap 13 NotDirty\n"),
];

#[test]
fn traps(rt: HostRuntime) -> Result<(), Fail> {
    for (why, line) in TRAPS {
        let text = reply_lines(rt.alloc(), &[Reply::Trap(Trap { cause: 13, why })])?;
        assert!(rt; text.as_str() == line);
    }
    Ok(())
}
