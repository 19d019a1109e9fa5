//! What a map text holds: entities with their properties and brushes.

use exact_geom::Rows;
use fixed_num::Text;
use uv_lock::{Face, Format};

/// The document that a map text reads as.
#[derive(Debug, Drop)]
pub struct MapDoc {
    /// The form of the text's first face, be its brush bad or not. Where the text has no face, Valve exactly where the
    /// first entity's `mapversion` is `220`.
    pub format: Format,
    pub entities: Rows<RawEntity>,
}

/// An entity of a map text, in braces.
#[derive(Debug, Drop)]
pub struct RawEntity {
    /// Keys and values. Each key stands once: where the text has it first, with the value that it has last.
    pub props: Rows<(Text, Text)>,
    pub brushes: Rows<RawBrush>,
}

/// A brush of a map text, in braces in its entity.
#[derive(Debug, Drop)]
pub enum RawBrush {
    /// Its faces, in order.
    Faces(Rows<Face>),
    /// It reads by the grammar, and can't be a brush of a map: the first reason that holds.
    Bad(Reason),
}

/// Why a brush of a text is no brush of a map. A text alone gives the first six.
#[derive(Clone, Copy, Debug, PartialEq, Eq)]
pub enum Reason {
    /// A coordinate isn't whole, rounded to six decimals.
    Point,
    /// A coordinate is beyond 4352 in size.
    Range,
    /// A number of a texture is 1,000,000 or more in size, rounded.
    Texture,
    /// Contents or flags aren't whole, rounded to six decimals, or not in -2147483648..=4294967295, or the value of a
    /// surface is 1,000,000 or more in size, rounded to six decimals.
    Surface,
    /// The points of a face lie on a line.
    Flat,
    /// It has more than 256 faces.
    Many,
    /// It has no point inside.
    Volume,
    /// It leaves the world.
    World,
    /// It needs more than 128 faces.
    Faces,
}
