//! Page tables, as a tree.

ghost use Rattle.std.specs.Prelude.{◌≡◌, ◌<◌, ◌≤◌, IfOk, IfSome, length, string_bytes};
ghost use Rattle.lines.specs.Rows.{indexed, leaf_line, pointer_line};
ghost use Rattle.pte.specs.Address.{top_level};

use crate::answers::size_word;
use crate::columns::pad;
use crate::entries::push_flags;
use pte::{Kind, LEVEL_BITS, OFFSET_BITS, PageSize, Pte, PteFlags, Scheme, TABLE_LENGTH};
use spaces::Memory;
use std::alloc::{AllocError, Global};
use stepcore::Machine;
use walk::Words;

/// A table: its PPN, its level, and the bits of its addresses above those that it translates.
#[derive(Clone, Copy, PartialEq, Eq, Debug)]
struct Table {
    ppn: u64,
    level: u8,
    above: u64,
}

/// The first address that the word at an index of a table translates.
fn address(scheme: Scheme, table: Table, index: u16) -> u64
    requires { table.level ≤ top_level scheme }
{
    let va = table.above | u64::from(index) << (OFFSET_BITS + LEVEL_BITS * u32::from(table.level));
    if va >> (scheme.address_bits() - 1) == 1 {
        va | u64::MAX << scheme.address_bits()
    } else {
        va
    }
}

/// A line that begins with an index, farther in at a lower level.
fn indexed_line(alloc: Global, depth: u8, index: u16) -> Result<String, AllocError>
    ensures { IfOk result (λ line. string_bytes line ≡ indexed depth index) }
{
    let mut line = String::new(alloc);
    pad(&mut line, 2 + 2 * usize::from(depth))?;
    write!(line, "{index}")?;
    pad(&mut line, 7 + 2 * usize::from(depth))?;
    Ok(line)
}

/// The line of a pointer.
fn pointer_line(
    alloc: Global,
    depth: u8,
    index: u16,
    table: Table,
    global: bool,
) -> Result<String, AllocError>
    ensures { IfOk result (λ line. string_bytes line
        ≡ pointer_line depth index table.ppn table.level global) }
{
    let (ppn, level) = (table.ppn, table.level);
    let mut line = indexed_line(alloc, depth, index)?;
    write!(line, "table 0x{ppn:x} level {level}")?;
    line.push_str(if global { " g" } else { "" })?;
    line.push_str("\n")?;
    Ok(line)
}

/// The line of a leaf.
fn leaf_line(
    alloc: Global,
    depth: u8,
    index: u16,
    size: PageSize,
    va: u64,
    ppn: u64,
    flags: PteFlags,
) -> Result<String, AllocError>
    ensures { IfOk result (λ line. string_bytes line ≡ leaf_line depth index size va ppn flags) }
{
    let mut line = indexed_line(alloc, depth, index)?;
    let size = size_word(size);
    write!(line, "{size}:0x{va:x}")?;
    pad(&mut line, 38)?;
    write!(line, "0x{ppn:x}")?;
    pad(&mut line, 53)?;
    push_flags(&mut line, flags)?;
    line.push_str("\n")?;
    Ok(line)
}

/// Adds the line of a word, if it is a pointer or a leaf. The table that a pointer leads to comes
/// back.
fn push_word(
    alloc: Global,
    text: &mut String,
    scheme: Scheme,
    table: Table,
    index: u16,
    word: u64,
) -> Result<Option<Table>, AllocError>
    requires { table.level ≤ top_level scheme }
    ensures { IfOk result (λ found. IfSome found (λ below. below.level < table.level)) }
{
    let depth = scheme.top_level() - table.level;
    let va = address(scheme, table, index);
    match Pte(word).kind() {
        Kind::Invalid | Kind::Reserved => Ok(None),
        Kind::Leaf { ppn, flags } => {
            let size = PageSize::at_level(table.level);
            let line = leaf_line(alloc, depth, index, size, va, ppn, flags)?;
            text.push_str(line.as_str())?;
            Ok(None)
        }
        Kind::Table { ppn, global } => {
            if table.level == 0 {
                return Ok(None);
            }
            let below = Table {
                ppn,
                level: table.level - 1,
                above: va,
            };
            let line = pointer_line(alloc, depth, index, below, global)?;
            text.push_str(line.as_str())?;
            Ok(Some(below))
        }
    }
}

/// Adds the words of a table from an index up to another, each with all that lies below it, one
/// level after the other.
fn push_words(
    alloc: Global,
    text: &mut String,
    memory: &Memory,
    table: Table,
    from: u16,
    to: u16,
) -> Result<(), AllocError>
    requires { table.level ≤ top_level memory.now.layout.scheme }
{
    let scheme = memory.scheme();
    for index in from..to {
        let Some(word) = memory.word(table.ppn, index) else {
            return Ok(());
        };
        if let Some(below) = push_word(alloc, text, scheme, table, index, word)? {
            push_words(alloc, text, memory, below, 0, TABLE_LENGTH)?;
        }
    }
    Ok(())
}

/// The table at the root of a space.
fn root(memory: &Memory, space: u8) -> Table
    requires { space < length memory.now.layout.homes }
    ensures { result.level ≡ top_level memory.now.layout.scheme }
{
    Table {
        ppn: memory.root(space),
        level: memory.scheme().top_level(),
        above: 0,
    }
}

/// The lines of the tables of each space, and of those of the kernel once.
pub(crate) fn tree_text(alloc: Global, machine: &Machine, window: u16) -> Result<String, AllocError>
    requires spaces { length machine.now.spaces ≡ length machine.now.memory.layout.homes }
    requires some { 0 < length machine.now.memory.layout.homes }
    requires window { window ≤ TABLE_LENGTH }
{
    let mut text = String::new(alloc);
    let memory = machine.memory();
    let first = TABLE_LENGTH - window;
    for space in 0..machine.spaces() {
        let table = root(memory, space);
        let ppn = table.ppn;
        write!(text, "\ntables of space {space}: root 0x{ppn:x}\n")?;
        push_words(alloc, &mut text, memory, table, 0, first)?;
    }
    text.push_str("\ntables of the kernel: in each root\n")?;
    let table = root(memory, 0);
    push_words(alloc, &mut text, memory, table, first, TABLE_LENGTH)?;
    Ok(text)
}
