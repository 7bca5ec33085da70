//! Reads the comments at the steps of a file for `run`.

use crate::comments::{At, Comments, between};
use crate::heading::comment_of;
use checks::Place;
use std::alloc::{AllocError, Global};

/// The comments at the steps of a file for `run`.
pub fn comments_of(alloc: Global, text: &str) -> Result<Comments, AllocError> {
    let mut comments = Comments::none(alloc);
    // to find where the texts of steps stand goes over each byte of the file
    if !text.contains('#') {
        return Ok(comments);
    }
    let place = Place::of_key(alloc, text, "steps")?;
    let mut row: u32 = 0;
    let mut end = 0;
    for mark in place.marks.as_slice() {
        add_between(
            &mut comments,
            row,
            between(text, end, mark.start),
            place.line,
        )?;
        end = mark.end;
        row = row.saturating_add(1);
    }
    if row > 0 {
        add_last(&mut comments, row, between(text, end, text.len()))?;
    }
    Ok(comments)
}

/// Adds what stands before the step of a row: the rest of the line of the step before it, and lines.
/// Before the first step these are all lines of the file, of which those up to the line of the key
/// are not meant.
fn add_between(
    comments: &mut Comments,
    row: u32,
    text: &str,
    key_line: Option<usize>,
) -> Result<(), AllocError> {
    if row > 0 {
        add_behind(comments, row.saturating_sub(1), text)?;
    }
    let skipped = if row > 0 { 1 } else { key_line.unwrap_or(0) };
    for line in text.lines().skip(skipped) {
        if let Some(words) = comment_of(line) {
            comments.add(row, At::Before, words)?;
        }
    }
    Ok(())
}

/// Adds what stands behind the last step, up to the end of the array.
fn add_last(comments: &mut Comments, row: u32, text: &str) -> Result<(), AllocError> {
    add_behind(comments, row.saturating_sub(1), text)?;
    if ends_array(text) {
        return Ok(());
    }
    for line in text.lines().skip(1) {
        match comment_of(line) {
            Some(words) => comments.add(row, At::Before, words)?,
            None if line.trim().is_empty() => {}
            None => return Ok(()),
        }
    }
    Ok(())
}

/// Adds the comment in the rest of the line of a step.
fn add_behind(comments: &mut Comments, row: u32, text: &str) -> Result<(), AllocError> {
    let Some(line) = text.lines().next() else {
        return Ok(());
    };
    match line.split_once('#') {
        Some((_, words)) => comments.add(row, At::Behind, words.trim()),
        None => Ok(()),
    }
}

/// Whether the array ends in the first line of what stands behind a text of it.
fn ends_array(text: &str) -> bool {
    let Some(line) = text.lines().next() else {
        return true;
    };
    match line.split_once('#') {
        Some((before, _)) => before.contains(']'),
        None => line.contains(']'),
    }
}
