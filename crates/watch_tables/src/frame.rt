//! The words of one frame of memory.

ghost use Rattle.std.specs.Prelude.{ℕ, ◌≡◌, ◌≢◌, ◌+◌, ◌-◌, ◌<◌, ◌≤◌, ◌==◌, ◌↔◌, if◌then◌else◌};
ghost use Rattle.std.specs.Prelude.{IfOk, IfSome, IsTrue, List, None, OnErr, OnOk, Option, Some, [], false};
ghost use Rattle.std.specs.Prelude.{length};
ghost use Rattle.std.specs.Option.{unwrap_or};
ghost use Rattle.watch_tables.specs.declared.frame.IndexedWord.{IndexedWord as IndexedWordOf};
ghost use Rattle.watch_tables.specs.Paths.{lacks_g};
ghost use Rattle.watch_tables.specs.Stored.{value_of, word_to_store};
ghost use Rattle.watch_tables.specs.IndexedWords.{AreIndexes, ArePlaces, ArePlacesIfKept, IsWithout};
ghost use Rattle.watch_tables.specs.IndexedWords.{index_at, stored_at};

use crate::leaf::lacks_g;
use pte::TABLE_LENGTH;
use std::alloc::{AllocError, Global};

/// How many words are searched one by one. With more, the places of all are kept.
const FEW: usize = 12;

/// A word, and how many records had been when it was stored.
#[derive(Clone, Copy, PartialEq, Eq, Debug)]
pub(crate) struct StoredWord {
    /// The word.
    pub(crate) word: u64,
    /// The number of records.
    pub(crate) since: u64,
}

/// What is stored at an index of a frame.
#[derive(Clone, Copy, PartialEq, Eq, Debug)]
pub(crate) struct IndexedWord {
    /// The index.
    pub(crate) index: u16,
    /// What is stored there.
    pub(crate) stored: StoredWord,
}

/// The words of a frame that are not 0.
#[derive(Drop)]
pub(crate) struct Frame {
    // in no order
    words: Vec<IndexedWord>,
    // empty, or for each index one more than the place of its word, or 0
    places: Vec<u16>,
    ghost indexed: { AreIndexes (index_at words.items) },
    ghost placed: { ArePlacesIfKept (index_at words.items) places.items },
}

/// The place of the word at an index, by a search.
#[inline(always)]
fn place_among(words: &[IndexedWord], index: u16) -> Option<usize>
    ensures some { IfSome result (λ place. index_at words.now place ≡ Some index) }
    ensures none { result ≡ None → (p : ℕ) → index_at words.now p ≢ Some index }
{
    for place in 0..words.len() {
        if words[place].index == index {
            return Some(place);
        }
    }
    None
}

/// The least index from `from` on at which a word is stored, and what is stored there, by a search.
fn next_among(words: &[IndexedWord], from: u16) -> Option<(u16, StoredWord)>
    requires indexes { AreIndexes (index_at words.now) }
    requires from { from ≤ TABLE_LENGTH }
    ensures from { IfSome result (λ next. from ≤ next.0) }
    ensures below { IfSome result (λ next. next.0 < TABLE_LENGTH) }
    ensures present { IfSome result (λ next. stored_at words.now next.0 ≡ Some next.1) }
    ensures least { IfSome result (λ next. (n : ℕ) → from ≤ n → n < next.0
        → stored_at words.now n ≡ None) }
    ensures none { result ≡ None → (n : ℕ) → from ≤ n → n < TABLE_LENGTH
        → stored_at words.now n ≡ None }
{
    let mut least = TABLE_LENGTH;
    let mut stored = StoredWord { word: 0, since: 0 };
    for word in words {
        if word.index >= from && word.index < least {
            least = word.index;
            stored = word.stored;
        }
    }
    if least == TABLE_LENGTH {
        return None;
    }
    Some((least, stored))
}

/// The least index from `from` on at which a word lacks G, and what is stored there, by a search.
fn next_lacking_g_among(words: &[IndexedWord], from: u16) -> Option<(u16, StoredWord)>
    requires indexes { AreIndexes (index_at words.now) }
    requires from { from ≤ TABLE_LENGTH }
    ensures from { IfSome result (λ next. from ≤ next.0) }
    ensures below { IfSome result (λ next. next.0 < TABLE_LENGTH) }
    ensures present { IfSome result (λ next. stored_at words.now next.0 ≡ Some next.1) }
    ensures lacks { IfSome result (λ next. IsTrue (lacks_g next.1.word)) }
    ensures skipped { IfSome result (λ next. (n : ℕ) → from ≤ n → n < next.0
        → lacks_g (unwrap_or (value_of (stored_at words.now n)) 0) ≡ false) }
    ensures none { result ≡ None → (n : ℕ) → from ≤ n → n < TABLE_LENGTH
        → lacks_g (unwrap_or (value_of (stored_at words.now n)) 0) ≡ false }
{
    let mut least = TABLE_LENGTH;
    let mut stored = StoredWord { word: 0, since: 0 };
    for word in words {
        if word.index >= from && word.index < least && lacks_g(word.stored.word) {
            least = word.index;
            stored = word.stored;
        }
    }
    if least == TABLE_LENGTH {
        return None;
    }
    Some((least, stored))
}

/// Enters the place of each word.
fn place_each(words: &[IndexedWord], places: &mut [u16])
    requires indexes { AreIndexes (index_at words.now) }
    requires none { ArePlaces (index_at []) places.old }
    ensures { ArePlaces (index_at words.now) places.new }
{
    for place in 0..words.len() {
        places[usize::from(words[place].index)] = place as u16 + 1;
    }
}

/// Keeps the places of words that are more than a few, if there is memory for that.
fn place_many(words: &[IndexedWord], places: &mut Vec<u16>)
    requires indexes { AreIndexes (index_at words.now) }
    requires none { length places.old.items ≡ 0 }
    ensures { ArePlacesIfKept (index_at words.now) places.new.items }
{
    if words.len() <= FEW || places.resize(usize::from(TABLE_LENGTH), 0).is_err() {
        return;
    }
    place_each(words, places.as_mut_slice());
}

/// Makes places, if they are kept, those of the words without the one at a place. The last word comes
/// to that place.
fn vacate(words: &[IndexedWord], places: &mut [u16], place: usize)
    requires place { place < length words.now }
    requires indexes { AreIndexes (index_at words.now) }
    requires placed { ArePlacesIfKept (index_at words.now) places.old }
    ensures { (left : List IndexedWordOf) → IsWithout words.now place left
        → ArePlacesIfKept (index_at left) places.new }
{
    if places.is_empty() {
        return;
    }
    places[usize::from(words[words.len() - 1].index)] = place as u16 + 1;
    places[usize::from(words[place].index)] = 0;
}

/// Gives the places up where words are few again.
fn forget_places(places: &mut Vec<u16>, count: usize)
    ensures { (indexes : ℕ → Option ℕ) → ArePlacesIfKept indexes places.old.items
        → ArePlacesIfKept indexes places.new.items }
{
    if count <= FEW / 2 {
        places.truncate(0);
        places.shrink_to(0);
    }
}

/// Gives room back where three quarters of it are free.
fn shrink(words: &mut Vec<IndexedWord>)
    ensures { words.new.items ≡ words.old.items }
{
    let count = words.len();
    if count < words.capacity() / 4 {
        words.shrink_to(2 * count);
    }
}

impl Frame {
    ghost use Rattle.watch_tables.specs.InFrame.{word_in};

    /// A frame of which each word is 0, with room for one.
    pub(crate) fn new(alloc: Global) -> Result<Frame, AllocError>
        ensures { IfOk result (λ frame. (i : ℕ) → word_in frame i ≡ None) }
    {
        let words = Vec::with_capacity(alloc, 1)?;
        Ok(Frame {
            words,
            places: Vec::new(alloc),
        })
    }

    /// The place of the word at an index, where places are kept.
    #[inline(always)]
    fn kept_place(&self, index: u16) -> Option<usize>
        requires index { index < TABLE_LENGTH }
        requires kept { 0 < length self.now.places.items }
        ensures some { IfSome result (λ place. index_at self.now.words.items place ≡ Some index) }
        ensures none { result ≡ None → (p : ℕ) → index_at self.now.words.items p ≢ Some index }
    {
        let after = usize::from(self.places[usize::from(index)]);
        if after == 0 {
            return None;
        }
        Some(after - 1)
    }

    /// The place of the word at an index.
    #[inline(always)]
    fn place_of(&self, index: u16) -> Option<usize>
        requires { index < TABLE_LENGTH }
        ensures some { IfSome result (λ place. index_at self.now.words.items place ≡ Some index) }
        ensures none { result ≡ None → (p : ℕ) → index_at self.now.words.items p ≢ Some index }
    {
        if self.places.is_empty() {
            return place_among(self.words.as_slice(), index);
        }
        self.kept_place(index)
    }

    /// What is stored at an index.
    pub(crate) fn word(&self, index: u16) -> Option<StoredWord>
        ensures { result ≡ word_in self.now index }
    {
        if index >= TABLE_LENGTH {
            return None;
        }
        match self.place_of(index) {
            Some(place) => Some(self.words[place].stored),
            None => None,
        }
    }

    /// The word at an index.
    #[inline(always)]
    pub(crate) fn value(&self, index: u16) -> u64
        requires { index < TABLE_LENGTH }
        ensures { result ≡ unwrap_or (value_of (word_in self.now index)) 0 }
    {
        match self.place_of(index) {
            Some(place) => self.words[place].stored.word,
            None => 0,
        }
    }

    /// Adds what is stored at an index that has no word. At `Err` nothing changed.
    fn add(&mut self, index: u16, stored: StoredWord) -> Result<(), AllocError>
        requires index { index < TABLE_LENGTH }
        requires none { (p : ℕ) → index_at self.old.words.items p ≢ Some index }
        ensures ok { OnOk result ((i : ℕ) → word_in self.new i
            ≡ (if i == index then Some stored else word_in self.old i)) }
        ensures err { OnErr result ((i : ℕ) → word_in self.new i ≡ word_in self.old i) }
    {
        let place = self.words.len();
        self.words.push(IndexedWord { index, stored })?;
        if self.places.is_empty() {
            place_many(self.words.as_slice(), &mut self.places);
            return Ok(());
        }
        self.places[usize::from(index)] = place as u16 + 1;
        Ok(())
    }

    /// Takes the word at an index out, which stands at this place.
    fn take_out(&mut self, index: u16, place: usize)
        requires { index_at self.old.words.items place ≡ Some index }
        ensures { (i : ℕ) → word_in self.new i
            ≡ (if i == index then None else word_in self.old i) }
    {
        vacate(self.words.as_slice(), self.places.as_mut_slice(), place);
        self.words.swap_remove(place);
        forget_places(&mut self.places, self.words.len());
        shrink(&mut self.words);
    }

    /// Puts a word down at an index, with the number of records so far; 0 is not kept. Refused only
    /// where there is no memory for one word more: then nothing has changed.
    pub(crate) fn put(&mut self, index: u16, word: u64, count: u64) -> Result<(), AllocError>
        requires { index < TABLE_LENGTH }
        ensures ok { OnOk result ((i : ℕ) → word_in self.new i
            ≡ (if i == index then word_to_store word count else word_in self.old i)) }
        ensures err { OnErr result ((i : ℕ) → word_in self.new i ≡ word_in self.old i) }
        ensures filled { OnErr result (word ≢ 0) }
        ensures more { OnErr result (word_in self.old index ≡ None) }
    {
        let stored = StoredWord { word, since: count };
        let Some(place) = self.place_of(index) else {
            if word == 0 {
                return Ok(());
            }
            return self.add(index, stored);
        };
        if word == 0 {
            self.take_out(index, place);
            return Ok(());
        }
        self.words[place] = IndexedWord { index, stored };
        Ok(())
    }

    /// Whether each word is 0.
    pub(crate) fn is_empty(&self) -> bool
        ensures { IsTrue result ↔ ((i : ℕ) → word_in self.now i ≡ None) }
    {
        self.words.is_empty()
    }

    /// The first index from `from` on at which a word is stored, and what is stored there.
    pub(crate) fn next_word(&self, from: u16) -> Option<(u16, StoredWord)>
        requires { from ≤ TABLE_LENGTH }
        ensures from { IfSome result (λ next. from ≤ next.0) }
        ensures below { IfSome result (λ next. next.0 < TABLE_LENGTH) }
        ensures present { IfSome result (λ next. word_in self.now next.0 ≡ Some next.1) }
        ensures least { IfSome result (λ next. (n : ℕ) → from ≤ n → n < next.0
            → word_in self.now n ≡ None) }
        ensures none { result ≡ None → (n : ℕ) → from ≤ n → n < TABLE_LENGTH
            → word_in self.now n ≡ None }
    {
        if self.places.is_empty() {
            return next_among(self.words.as_slice(), from);
        }
        for index in from..TABLE_LENGTH {
            if let Some(place) = self.kept_place(index) {
                return Some((index, self.words[place].stored));
            }
        }
        None
    }

    /// The first index from `from` on at which a word lacks G, and what is stored there.
    pub(crate) fn next_lacking_g(&self, from: u16) -> Option<(u16, StoredWord)>
        requires { from ≤ TABLE_LENGTH }
        ensures from { IfSome result (λ next. from ≤ next.0) }
        ensures below { IfSome result (λ next. next.0 < TABLE_LENGTH) }
        ensures present { IfSome result (λ next. word_in self.now next.0 ≡ Some next.1) }
        ensures lacks { IfSome result (λ next. IsTrue (lacks_g next.1.word)) }
        ensures skipped { IfSome result (λ next. (n : ℕ) → from ≤ n → n < next.0
            → lacks_g (unwrap_or (value_of (word_in self.now n)) 0) ≡ false) }
        ensures none { result ≡ None → (n : ℕ) → from ≤ n → n < TABLE_LENGTH
            → lacks_g (unwrap_or (value_of (word_in self.now n)) 0) ≡ false }
    {
        if self.places.is_empty() {
            return next_lacking_g_among(self.words.as_slice(), from);
        }
        for index in from..TABLE_LENGTH {
            if let Some(place) = self.kept_place(index) {
                let stored = self.words[place].stored;
                if lacks_g(stored.word) {
                    return Some((index, stored));
                }
            }
        }
        None
    }
}
