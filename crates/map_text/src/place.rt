//! The places of the words in a face line.

/// What stands at a place of a face line.
#[derive(Clone, Copy, Debug, PartialEq, Eq)]
pub enum Place {
    /// The word of this one byte.
    Mark(u8),
    /// A whole number.
    Number,
}

const OPEN: Place = Place::Mark(b'(');

const CLOSE: Place = Place::Mark(b')');

const LEFT: Place = Place::Mark(b'[');

const RIGHT: Place = Place::Mark(b']');

const NUMBER: Place = Place::Number;

// The words before the name: three points.
pub(crate) const POINTS: [Place; 15] = [
    OPEN, NUMBER, NUMBER, NUMBER, CLOSE, OPEN, NUMBER, NUMBER, NUMBER, CLOSE, OPEN, NUMBER, NUMBER,
    NUMBER, CLOSE,
];

// The words after the name: two axes with their offsets, the rotation and two scales.
pub(crate) const TEXTURE: [Place; 15] = [
    LEFT, NUMBER, NUMBER, NUMBER, NUMBER, RIGHT, LEFT, NUMBER, NUMBER, NUMBER, NUMBER, RIGHT,
    NUMBER, NUMBER, NUMBER,
];
