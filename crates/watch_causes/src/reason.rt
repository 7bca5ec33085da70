//! Reasons.

/// Why a hart may still hold a translation that the kernel took for gone: the first of these that
/// holds of the fences that its flush asked for.
#[derive(Clone, Copy, PartialEq, Eq, Debug)]
pub enum Reason {
    /// No flush of the page had begun.
    NoFlush,
    /// The flush asked for no fence.
    NoFence,
    /// None of its fences is for the hart.
    OtherHarts,
    /// None of those is for the ASID. A fence by ASID takes out nothing that is global.
    OtherSpaces,
    /// None of those is for the page.
    OtherPages,
    /// One of its fences takes the translation from the hart, and was not done yet.
    NotDone,
}
