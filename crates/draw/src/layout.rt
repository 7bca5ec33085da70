//! Where things stand in a picture: rows, and the columns of the harts, in pixels from the top
//! left.

ghost use Rattle.std.specs.Prelude.{◌≡◌, ◌+◌, ◌*◌, ◌/◌, ◌<◌, ◌≤◌, ◌^◌};
ghost use Rattle.draw.specs.Layout.{doing_x, row_top, stale_x, text_x};

/// How high a row is.
pub const ROW_HEIGHT: u64 = 20;

/// After how many rows the heads of the columns stand once more.
pub const ROWS_A_HEAD: u32 = 40;

/// How high a line of heads is.
pub const HEAD_HEIGHT: u64 = 26;

/// How high the title and the line below it are.
pub const TITLE_HEIGHT: u64 = 62;

/// How high an entry of the legend is.
pub const ENTRY_HEIGHT: u64 = 20;

/// Where the first column begins: the numbers of the rows stand before it.
pub const FIRST_COLUMN: u32 = 90;

/// How wide a picture is at least: as wide as the legend.
pub const LEAST_WIDTH: u64 = 690;

/// How wide a picture is at most, unless it has so many columns or a longer text of a step.
pub const PAGE_WIDTH: u64 = 1800;

/// How wide a character of the title is at most.
pub const TITLE_CHAR_WIDTH: u64 = 10;

const MARGIN: u64 = 10;

/// How far below the last row the middle of the first entry of the legend is.
const LEGEND_GAP: u64 = 40;

const FLIGHT_WIDTH: u64 = 9;

const ORDER_WIDTH: u64 = 18;

/// How much room the heads of arrows have before the lane of walks and services.
const HEAD_WIDTH: u64 = 10;

const DOING_WIDTH: u64 = 18;

/// How wide a character of a step's text is at most.
pub const CHAR_WIDTH: u64 = 7;

const LABEL_CHAR_WIDTH: u64 = 7;

/// A place, in pixels.
#[derive(Clone, Copy)]
pub struct Point {
    pub x: u64,
    pub y: u64,
}

/// The column of a hart: where it begins, and how many lanes and characters it has room for. From
/// the left: a lane for each message that is under way to the hart, one for each order, one for its
/// walk or service, the text, one for each stale mapping.
#[derive(Clone, Copy)]
pub struct Column {
    pub left: u32,
    pub flights: u16,
    pub orders: u16,
    pub characters: u16,
    pub stale: u16,
    /// How many characters the longest label of a stale mapping has.
    pub label: u16,
}

/// How many lines of heads stand above a row, counted from 0.
pub fn heads_above(row: u32) -> u32
    ensures { result ≡ row / 40 + 1 }
{
    row / ROWS_A_HEAD + 1
}

/// The top of a row, counted from 0.
pub fn row_top(row: u32) -> u64
    ensures value { result ≡ row_top row }
    ensures above { 88 ≤ result }
    ensures bound { result < 2 ^ 40 }
{
    let heads = u64::from(heads_above(row));
    TITLE_HEIGHT + heads * HEAD_HEIGHT + u64::from(row) * ROW_HEIGHT
}

/// The middle of a row.
pub fn row_middle(row: u32) -> u64
    ensures value { result ≡ row_top row + 10 }
    ensures above { 98 ≤ result }
    ensures bound { result < 2 ^ 41 }
{
    row_top(row) + ROW_HEIGHT / 2
}

/// The middle of an entry of the legend, which stands below this many rows.
pub fn entry_middle(rows: u32, entry: u8) -> u64
    ensures value { result ≡ row_top rows + 20 * entry + 40 }
    ensures above { 128 ≤ result }
    ensures bound { result < 2 ^ 41 }
{
    row_top(rows) + u64::from(entry) * ENTRY_HEIGHT + LEGEND_GAP
}

impl Column {
    /// How wide the bar of a stale mapping is.
    pub fn stale_width(&self) -> u64
        ensures value { result ≡ 7 * self.now.label + 10 }
        ensures bound { result < 2 ^ 40 }
    {
        u64::from(self.label) * LABEL_CHAR_WIDTH + MARGIN
    }

    /// Where the lane of a message to the hart is.
    pub fn flight_x(&self, lane: u16) -> u64
        ensures { result ≡ self.now.left + 9 * lane + 10 }
    {
        u64::from(self.left) + u64::from(lane) * FLIGHT_WIDTH + MARGIN
    }

    /// Where the lane of an order begins.
    pub fn order_x(&self, lane: u16) -> u64
        ensures value { result ≡ self.now.left + 9 * self.now.flights + 18 * lane + 10 }
        ensures bound { result < 2 ^ 40 }
    {
        let flights = u64::from(self.flights) * FLIGHT_WIDTH;
        u64::from(self.left) + flights + u64::from(lane) * ORDER_WIDTH + MARGIN
    }

    /// Where the lane of walks and services begins.
    pub fn doing_x(&self) -> u64
        ensures value { result ≡ doing_x self.now }
        ensures above { 20 ≤ result }
        ensures bound { result < 2 ^ 40 }
    {
        let flights = u64::from(self.flights) * FLIGHT_WIDTH;
        let orders = u64::from(self.orders) * ORDER_WIDTH;
        u64::from(self.left) + flights + orders + MARGIN + HEAD_WIDTH
    }

    /// Where texts begin.
    pub fn text_x(&self) -> u64
        ensures value { result ≡ text_x self.now }
        ensures above { 20 ≤ result }
        ensures bound { result < 2 ^ 41 }
    {
        self.doing_x() + DOING_WIDTH
    }

    /// Where a text of this many characters ends.
    pub fn text_end(&self, characters: u16) -> u64
        ensures value { result ≡ text_x self.now + 7 * characters }
        ensures bound { result < 2 ^ 42 }
    {
        self.text_x() + u64::from(characters) * CHAR_WIDTH
    }

    /// Where the lane of a stale mapping begins.
    pub fn stale_x(&self, lane: u16) -> u64
        ensures value { result ≡ stale_x self.now lane }
        ensures bound { result < 2 ^ 60 }
    {
        let before = u64::from(lane) * (self.stale_width() + 4);
        self.text_end(self.characters) + MARGIN + before
    }

    /// Where the column ends.
    pub fn right(&self) -> u64
        ensures value { result ≡ stale_x self.now self.now.stale + 10 }
        ensures bound { result < 2 ^ 61 }
    {
        self.stale_x(self.stale) + MARGIN
    }
}
