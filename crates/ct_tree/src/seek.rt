//! Which pair a search is for.

/// The first pair at the target or above it, or above it alone; the last at it or below it, or below
/// it alone.
#[derive(Clone, Copy, Debug, PartialEq, Eq)]
pub enum Seek {
    AtOrAbove,
    Above,
    AtOrBelow,
    Below,
}
