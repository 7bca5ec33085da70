//! The sheets of the folder `shown`: `NAME-N.txt` is what `show` prints after the first N steps of
//! `NAME.toml`.
use scenario::{Which, command};
use std::alloc::{AllocError, Global};
use std::{fs, io};

/// The names of the sheets, in order.
pub fn sheets(rt: &HostRuntime) -> io::Result<Vec<String>> {
    let mut sheets = Vec::new(rt.alloc());
    for entry in fs::read_dir(rt, "shown")? {
        let entry = entry?;
        sheets.push(String::from_str(rt.alloc(), entry.file_name())?)?;
    }
    sheets.sort_unstable();
    Ok(sheets)
}

/// The file whose steps a sheet is for, and how many of them: of `shootdown-7.txt` `shootdown` and
/// 7.
fn parts(sheet: &str) -> Option<(&str, usize)> {
    let (name, steps) = sheet.strip_suffix(".txt")?.rsplit_once('-')?;
    let steps = steps.parse::<usize>().ok()?;
    Some((name, steps))
}

/// A file up to the last of its first steps, which stand in a line each, with its list closed.
fn first_steps(alloc: Global, text: &str, steps: usize) -> Result<String, AllocError> {
    let mut first = String::new(alloc);
    let mut left = steps;
    for line in text.lines() {
        if line == "]" || left == 0 {
            break;
        }
        if line.starts_with("    \"") {
            left -= 1;
        }
        first.push_str(line)?;
        first.push_str("\n")?;
    }
    first.push_str("]\n")?;
    Ok(first)
}

/// Whether `show` prints the sheet and nothing else.
pub fn is_shown(rt: &HostRuntime, sheet: &str) -> io::Result<bool> {
    let alloc = rt.alloc();
    let Some((name, steps)) = parts(sheet) else {
        return Ok(false);
    };
    let file = fs::read_to_string(rt, format!(in alloc; "{name}.toml")?.as_str())?;
    let wanted = fs::read_to_string(rt, format!(in alloc; "shown/{sheet}")?.as_str())?;
    let first = first_steps(alloc, file.as_str(), steps)?;
    let mut input = first.as_bytes();
    let mut out: Vec<u8> = Vec::new(alloc);
    let mut err: Vec<u8> = Vec::new(alloc);
    let status = command(alloc, Which::Show, name, &mut input, &mut out, &mut err);
    Ok(status == 0 && err.is_empty() && out.as_slice() == wanted.as_bytes())
}
