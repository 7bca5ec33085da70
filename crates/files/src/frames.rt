//! The table frames of a file, and their words.
ghost use Rattle.std.specs.Prelude.{◌≡◌, ◌≤◌, ◌*◌, vec_len};
ghost use Rattle.std.specs.List.Sorted.{IsStrictlyIncreasing};
ghost use Rattle.pte.specs.declared.address.TheConstants.{TABLE_LENGTH};
ghost use Rattle.files.specs.declared.limits.TheConstants.{MOST_FRAMES};

use pte::TABLE_LENGTH;
use std::alloc::{AllocError, Global};
use walk::Words;

/// The words of a table.
const TABLE_WORDS: usize = TABLE_LENGTH as usize;

/// The word at an index of a frame.
#[derive(Clone, Copy, Debug, PartialEq, Eq)]
pub struct TableWord {
    pub ppn: u64,
    pub index: u16,
    pub word: u64,
}

/// Frames by their PPNs, each once and in rising order, so that one is found by bisection.
#[derive(Debug, Drop)]
pub struct Frames {
    ppns: Vec<u64>,
    ghost few: { vec_len ppns ≤ MOST_FRAMES },
    ghost rising: { IsStrictlyIncreasing ppns.items },
}

impl Frames {
    ghost use Rattle.std.specs.Prelude.{◌≡◌, IfOk};
    ghost use Rattle.files.specs.Memory.{is_frame_of, is_listed, place_of, position_of};

    /// The frames that a list names; doubles are allowed.
    pub fn new(ppns: Vec<u64>) -> Result<Frames, AllocError>
        requires { vec_len ppns ≤ MOST_FRAMES }
        ensures { IfOk result (λ frames. is_frame_of frames ≡ is_listed ppns.items) }
    {
        let mut ppns = ppns;
        ppns.sort()?;
        ppns.dedup();
        Ok(Frames { ppns })
    }

    /// The place of a frame among them all.
    fn place(&self, ppn: u64) -> Option<usize>
        ensures { result ≡ place_of self.now ppn }
    {
        self.ppns.binary_search(&ppn).ok()
    }

    /// Where a word stands among the words of all frames, if its frame is one of them and its index
    /// is within a table.
    fn position(&self, ppn: u64, index: u16) -> Option<usize>
        ensures { result ≡ position_of self.now ppn index }
    {
        let index = usize::from(index);
        if index >= TABLE_WORDS {
            return None;
        }
        let place = self.place(ppn)?;
        Some(TABLE_WORDS * place + index)
    }

    /// Whether the PPN is that of a frame.
    pub fn contains(&self, ppn: u64) -> bool
        ensures { result ≡ is_frame_of self.now ppn }
    {
        self.place(ppn).is_some()
    }
}

/// The words of some frames, one table of words after the other.
#[derive(Debug, Drop)]
pub struct TableFrames {
    frames: Frames,
    words: Vec<u64>,
    ghost room: { vec_len words ≡ TABLE_LENGTH * vec_len frames.ppns },
}

impl TableFrames {
    ghost use Rattle.std.specs.Prelude.{◌≡◌, ℕ, [], IfOk};
    ghost use Rattle.files.specs.Memory.{is_frame_of, stored, word_at, word_in};

    /// Frames whose words are these, a later one in place of an earlier one, and else 0.
    pub fn new(
        alloc: Global,
        frames: Frames,
        words: &[TableWord],
    ) -> Result<TableFrames, AllocError>
        ensures { IfOk result (λ tables. word_at tables ≡ word_in (is_frame_of frames) words.now) }
    {
        let mut tables = TableFrames::empty(alloc, frames)?;
        for word in words {
            tables.store(*word);
        }
        Ok(tables)
    }

    /// Frames whose words are all 0.
    fn empty(alloc: Global, frames: Frames) -> Result<TableFrames, AllocError>
        ensures { IfOk result (λ tables. (ppn index : ℕ)
            → word_at tables ppn index ≡ word_in (is_frame_of frames) [] ppn index) }
    {
        let words = vec![in alloc; 0; TABLE_WORDS * frames.ppns.len()]?;
        Ok(TableFrames { frames, words })
    }

    /// Stores a word; one that is not in these tables changes nothing.
    fn store(&mut self, word: TableWord)
        ensures { (ppn index : ℕ)
            → word_at self.new ppn index ≡ stored word ppn index (word_at self.old ppn index) }
    {
        if let Some(position) = self.frames.position(word.ppn, word.index) {
            self.words[position] = word.word;
        }
    }
}

impl Words for TableFrames {
    ghost use Rattle.files.specs.Memory.{word_at};

    ghost words = { λ tables ppn index. word_at tables ppn index };

    fn word(&self, ppn: u64, index: u16) -> Option<u64> {
        let position = self.frames.position(ppn, index)?;
        Some(self.words[position])
    }
}
