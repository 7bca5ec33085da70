//! How many shapes of each kind a picture has.
use std::alloc::{AllocError, Global};

/// The shapes in the columns of a picture.
#[derive(Clone, Copy, PartialEq, Eq, Debug)]
pub struct Shapes {
    pub rows: usize,
    pub walks: usize,
    pub services: usize,
    pub orders: usize,
    /// Orders that are done.
    pub done: usize,
    pub requests: usize,
    /// Requests that arrive.
    pub taken: usize,
    pub acknowledgements: usize,
    /// Acknowledgements that arrive.
    pub collected: usize,
    pub stale: usize,
    /// Uses of stale mappings.
    pub hits: usize,
    /// Stale mappings that a line joins to the fill.
    pub lives: usize,
    /// Steps that map a frame which a stale mapping reaches.
    pub second_owners: usize,
    /// Comments on lines of their own.
    pub notes: usize,
}

impl Shapes {
    /// They in words, each with its number.
    pub fn text(&self, alloc: Global) -> Result<String, AllocError> {
        let mut text = String::new(alloc);
        write!(text, "{} rows: walks {}", self.rows, self.walks)?;
        write!(text, ", services {}, orders {}", self.services, self.orders)?;
        write!(text, " (done {}), requests {}", self.done, self.requests)?;
        write!(text, " (taken {})", self.taken)?;
        write!(text, ", acknowledgements {}", self.acknowledgements)?;
        write!(
            text,
            " (collected {}), stale {}",
            self.collected, self.stale
        )?;
        write!(text, ", hits {}, lives {}", self.hits, self.lives)?;
        write!(
            text,
            ", second owners {}, notes {}",
            self.second_owners, self.notes
        )?;
        Ok(text)
    }
}

/// How often a text has these words.
fn count(text: &str, words: &str) -> usize {
    text.split(words).count().saturating_sub(1)
}

/// How many shapes of a kind there are, but for the one in a legend.
fn beyond_legend(picture: &str, shape: &str) -> usize {
    count(picture, shape).saturating_sub(1)
}

/// The shapes of a picture. The legend has one of each kind that the picture has, but for rows and
/// notes.
pub fn shapes_of(picture: &str) -> Shapes {
    Shapes {
        rows: count(picture, "<text class='number'"),
        walks: beyond_legend(picture, "<rect class='walk'"),
        services: beyond_legend(picture, "<rect class='service'"),
        orders: beyond_legend(picture, "<rect class='order'"),
        done: beyond_legend(picture, "<rect class='done'"),
        requests: beyond_legend(picture, "<path class='request'"),
        taken: beyond_legend(picture, "<path class='request-head'"),
        acknowledgements: beyond_legend(picture, "<path class='ack'"),
        collected: beyond_legend(picture, "<path class='ack-head'"),
        stale: beyond_legend(picture, "<rect class='stale'"),
        hits: beyond_legend(picture, "<rect class='hit'"),
        lives: beyond_legend(picture, "<path class='life'"),
        second_owners: beyond_legend(picture, "<rect class='given'"),
        notes: count(picture, "<text class='note'"),
    }
}
