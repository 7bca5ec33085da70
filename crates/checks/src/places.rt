//! Where keys and texts stand in a document that was read: their lines, columns and bytes.
ghost use Rattle.std.specs.Prelude.{◌≡◌, IfOk, IfSome, None};
ghost use Rattle.checks.specs.Places.{after_blanks, after_bracket, begins_with, has_head_key, has_key, is_blank, is_first, IsKeyLine};

use std::alloc::{AllocError, Global};

/// What the scan of a document is in.
#[derive(Clone, Copy)]
enum State {
    /// No text and no comment.
    Plain,
    Comment,
    /// One opening quote was read, or two.
    One(u8),
    Two(u8),
    /// In a text that ends at this quote; after a backslash in it.
    Text(u8),
    Escape,
    /// In a text of several lines that ends at three of this quote, and how many of them were read;
    /// after a backslash in it.
    Long(u8, u8),
    LongEscape,
    /// Three closing quotes were read. Up to two more belong to the text.
    Closed(u8),
}

impl State {
    /// Whether a byte still belongs to the text that the scan is in.
    fn holds(self, byte: u8) -> bool {
        match self {
            State::Plain | State::Comment => false,
            State::Two(quote) | State::Closed(quote) => byte == quote,
            State::One(_)
            | State::Text(_)
            | State::Escape
            | State::Long(_, _)
            | State::LongEscape => true,
        }
    }
}

/// Where a text of a key's value stands, with its quotes.
#[derive(Clone, Copy)]
pub struct Mark {
    /// The line and the column of the opening quote, counted from 1, the column in characters.
    pub line: usize,
    pub column: usize,
    /// The index of the opening quote among the bytes of the document, and that of the byte behind
    /// the closing quote.
    pub start: usize,
    pub end: usize,
    /// In which array of the array it stands, counted from 1; 0 of the texts of the array itself
    /// and of a value that is a text.
    pub group: usize,
}

#[derive(Clone, Copy)]
struct Scan {
    state: State,
    depth: usize,
    group: usize,
    /// The text that the scan is in, whose end is not known yet.
    open: Option<Mark>,
}

/// A line of the document: its number, and the index of its first byte.
#[derive(Clone, Copy)]
struct Line<'a> {
    bytes: &'a [u8],
    number: usize,
    offset: usize,
}

impl Scan {
    /// The scan after a byte outside of texts and comments.
    fn plain(self, byte: u8) -> Scan {
        let mut next = self;
        next.state = match byte {
            b'#' => State::Comment,
            b'"' | b'\'' => State::One(byte),
            _ => State::Plain,
        };
        if byte == b'[' || byte == b'{' {
            next.depth = self.depth.saturating_add(1);
            if next.depth == 2 {
                next.group = self.group.saturating_add(1);
            }
        }
        if byte == b']' || byte == b'}' {
            next.depth = self.depth.saturating_sub(1);
        }
        next
    }

    fn in_state(self, state: State) -> Scan {
        Scan { state, ..self }
    }

    /// The scan after a byte.
    fn after(self, byte: u8) -> Scan {
        match self.state {
            State::Plain => self.plain(byte),
            State::Comment => self,
            State::One(quote) if byte == quote => self.in_state(State::Two(quote)),
            State::Two(quote) if byte == quote => self.in_state(State::Long(quote, 0)),
            State::Two(_) => self.plain(byte),
            State::One(quote) | State::Text(quote) => self.in_state(text_after(quote, byte)),
            State::Escape => self.in_state(State::Text(b'"')),
            State::Long(quote, read) => self.in_state(long_after(quote, read, byte)),
            State::LongEscape => self.in_state(State::Long(b'"', 0)),
            State::Closed(quote) if byte == quote => self,
            State::Closed(_) => self.plain(byte),
        }
    }

    /// The scan at the end of a line.
    fn at_line_end(self) -> Scan {
        match self.state {
            State::Long(quote, _) => self.in_state(State::Long(quote, 0)),
            State::LongEscape => self.in_state(State::Long(b'"', 0)),
            _ => self.in_state(State::Plain),
        }
    }
}

/// The state in a text after a byte of it.
fn text_after(quote: u8, byte: u8) -> State {
    if byte == quote {
        State::Plain
    } else if byte == b'\\' && quote == b'"' {
        State::Escape
    } else {
        State::Text(quote)
    }
}

/// The state in a text of several lines after a byte of it, where `read` quotes stand before the
/// byte.
fn long_after(quote: u8, read: u8, byte: u8) -> State {
    if byte == quote {
        if read >= 2 {
            State::Closed(quote)
        } else {
            State::Long(quote, read + 1)
        }
    } else if byte == b'\\' && quote == b'"' {
        State::LongEscape
    } else {
        State::Long(quote, 0)
    }
}

/// Whether a line begins with a key and `=` or `.`, or with the head of a table whose name begins
/// with the key.
fn begins_with(line: &[u8], key: &str) -> bool
    ensures { result ≡ begins_with key.now line.now }
{
    let line = trimmed(line);
    has_key(b'=', b'.', key, line) || has_head_key(key, line)
}

/// Whether the head of a table stands first, whose first key this is.
fn has_head_key(key: &str, line: &[u8]) -> bool
    ensures { result ≡ has_head_key key.now line.now }
{
    is_first(b'[', b'[', line)
        && has_key(b']', b'.', key, trimmed(after_bracket(after_bracket(line))))
}

/// Whether a key stands first, and behind it, after blanks, one of two bytes.
fn has_key(one: u8, other: u8, key: &str, line: &[u8]) -> bool
    ensures { result ≡ has_key one other key.now line.now }
{
    match line.strip_prefix(key.as_bytes()) {
        Some(rest) => is_first(one, other, trimmed(rest)),
        None => false,
    }
}

fn is_first(one: u8, other: u8, line: &[u8]) -> bool
    ensures { result ≡ is_first one other line.now }
{
    match line {
        [] => false,
        [byte, ..] => *byte == one || *byte == other,
    }
}

/// What stands behind an opening bracket, if one stands first.
fn after_bracket(line: &[u8]) -> &[u8]
    ensures { result.now ≡ after_bracket line.now }
{
    match line {
        [b'[', rest @ ..] => rest,
        _ => line,
    }
}

fn is_blank(byte: u8) -> bool
    ensures { result ≡ is_blank byte }
{
    byte == b' ' || byte == b'\t'
}

/// What stands after the blanks at the beginning.
fn trimmed(line: &[u8]) -> &[u8]
    ensures { result.now ≡ after_blanks line.now }
{
    let mut rest = line;
    while let [first, after @ ..] = rest {
        if !is_blank(*first) {
            break;
        }
        rest = after;
    }
    rest
}

/// The scan after a line. If the line is one of the value of the key, the texts that end in it are
/// added to the marks.
fn scan_line(
    scan: Scan,
    line: Line<'_>,
    is_ours: bool,
    place: &mut Place,
) -> Result<Scan, AllocError>
    ensures { place.new.line ≡ place.old.line }
{
    let mut scan = scan;
    let mut start = line.offset;
    let mut column = 1_usize;
    for byte in line.bytes {
        if !scan.state.holds(*byte) {
            scan = place.close(scan, start)?;
        }
        scan = scan.after(*byte);
        if is_ours && matches!(scan.state, State::One(_)) && scan.open.is_none() {
            scan.open = Some(Mark {
                line: line.number,
                column,
                start,
                end: start,
                group: scan.group,
            });
        }
        start = start.saturating_add(1);
        column = column_after(column, *byte);
    }
    scan = scan.at_line_end();
    if matches!(scan.state, State::Plain) {
        scan = place.close(scan, start)?;
    }
    Ok(scan)
}

/// The column after a byte, where a column is a character.
pub fn column_after(column: usize, byte: u8) -> usize {
    // the other bytes of a character are 10xxxxxx
    if byte & 0xC0 == 0x80 {
        column
    } else {
        column.saturating_add(1)
    }
}

/// The line that begins with a key or with the head of its table, and the texts of its value: the
/// value itself, or those in the array, or in the arrays of the array. `None`: there is no such
/// line.
#[derive(Drop)]
pub struct Place {
    pub line: Option<usize>,
    pub marks: Vec<Mark>,
}

impl Place {
    /// A place of nothing.
    pub fn unknown(alloc: Global) -> Place
        ensures { result.line ≡ None }
    {
        Place {
            line: None,
            marks: Vec::new(alloc),
        }
    }

    /// Where the key and its texts stand in a document. The line begins with the key or with the
    /// head of its table.
    /// `AllocError`: there was not enough memory.
    pub fn of_key(alloc: Global, text: &str, key: &str) -> Result<Place, AllocError>
        ensures line { IfOk result (λ place. IfSome place.line (λ number. IsKeyLine text.now
            key.now number)) }
    {
        let mut place = Place::unknown(alloc);
        place.find(text, key)?;
        Ok(place)
    }

    /// Adds the text that the scan is in, which ends before this byte.
    fn close(&mut self, scan: Scan, end: usize) -> Result<Scan, AllocError>
        ensures { self.new.line ≡ self.old.line }
    {
        if let Some(mark) = scan.open {
            self.marks.push(Mark { end, ..mark })?;
        }
        Ok(Scan { open: None, ..scan })
    }

    fn find(&mut self, text: &str, key: &str) -> Result<(), AllocError>
        ensures { self.old.line ≡ None
            → IfSome self.new.line (λ number. IsKeyLine text.now key.now number) }
    {
        let start = Scan {
            state: State::Plain,
            depth: 0,
            group: 0,
            open: None,
        };
        let mut scan = start;
        let mut is_ours = false;
        let mut offset = 0_usize;
        for (index, bytes) in text.as_bytes().split(|byte| *byte == b'\n').enumerate() {
            let line = index.saturating_add(1);
            if matches!(scan.state, State::Plain) && scan.depth == 0 {
                scan = start;
                is_ours = self.line.is_none() && begins_with(bytes, key);
                if is_ours {
                    self.line = Some(line);
                }
            }
            let row = Line {
                bytes,
                number: line,
                offset,
            };
            scan = scan_line(scan, row, is_ours, self)?;
            offset = offset.saturating_add(bytes.len()).saturating_add(1);
        }
        Ok(())
    }

    /// The text of this index in the array of this number, or of the array itself for 0.
    pub fn mark_of(&self, group: usize, index: usize) -> Option<Mark> {
        self.marks
            .iter()
            .filter(|mark| mark.group == group)
            .nth(index)
            .copied()
    }
}
