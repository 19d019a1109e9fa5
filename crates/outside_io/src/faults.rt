//! How a call of the outside ends where it doesn't end well.

/// The object failed, and its count of faults rose.
#[derive(Clone, Copy, Debug, PartialEq, Eq, Drop)]
pub struct Failed;

/// Why nothing was fetched.
#[derive(Clone, Copy, Debug, PartialEq, Eq, Drop)]
pub enum FetchEnd {
    /// The vault failed, or it tells its texts and none has the name.
    Failed,
    /// The text has more bytes than the limit.
    TooLong,
    /// There was no memory for the text.
    Memory,
}
