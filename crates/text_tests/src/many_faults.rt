//! What `check` reports of files with many faults.
use checks::check_text;
use std::test::Fail;

#[test]
fn too_many_steps(rt: HostRuntime) -> Result<(), Fail> {
    let mut text = String::from_str(rt.alloc(), "steps = [")?;
    for _ in 0..65_537 {
        text.push_str("'0 load',")?;
    }
    text.push_str("]")?;
    let checked = check_text(rt.alloc(), "many.toml", text.as_str())?;
    let lines = "file for run\nmany.toml: 65537 steps are more than 65536\n1 fault\n";
    assert!(rt; checked.text.as_str() == lines);
    assert!(rt; checked.told.len() == 1);
    Ok(())
}

/// Control characters of a file's name and letters that set the direction of text are printed as
/// `?`, and all others as they are.
#[test]
fn names_of_files(rt: HostRuntime) -> Result<(), Fail> {
    let name = "a\u{7}b\n\u{7F}\u{9F}\u{202E}\u{E7} d.toml";
    let checked = check_text(rt.alloc(), name, "harts = 9")?;
    let lines =
        "file for run\na?b????\u{E7} d.toml:1: key `harts`: 9 is not from 1 to 8\n1 fault\n";
    assert!(rt; checked.text.as_str() == lines);
    Ok(())
}
