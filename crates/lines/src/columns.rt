//! Lines of columns, and tables of lines.

ghost use Rattle.std.specs.Prelude.{◌≡◌, ◌++◌, OnOk, string_bytes};
ghost use Rattle.lines.specs.Rows.{table_text, upto};

use std::alloc::AllocError;

/// Fills a line with blanks up to a column. A line that is as long already stays as it is.
pub(crate) fn pad(line: &mut String, column: usize) -> Result<(), AllocError>
    ensures ok { OnOk result (string_bytes line.new ≡ upto column (string_bytes line.old)) }
{
    let missing = column.saturating_sub(line.len());
    for _ in 0..missing {
        line.push_str(" ")?;
    }
    Ok(())
}

/// Adds a table after a blank line, if it has rows.
pub(crate) fn push_table(text: &mut String, head: &str, rows: &str) -> Result<(), AllocError>
    ensures ok { OnOk result (string_bytes text.new ≡ string_bytes text.old
        ++ table_text head.now rows.now) }
{
    if rows.is_empty() {
        return Ok(());
    }
    text.push_str("\n")?;
    text.push_str(head)?;
    text.push_str(rows)
}
