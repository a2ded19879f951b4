//! Why a scale refuses a boundary.

/// Why a boundary was not added. The scale is as it was.
#[derive(Clone, Copy, Debug, PartialEq, Eq)]
pub enum ScaleRefused {
    /// The number is a boundary already.
    Present,
    /// The scale has as many boundaries as it may have.
    Limit,
}
