//! The reader of map texts: what a text of Quake's maps means, in the Standard and the Valve 220 format, as a document of
//! entities, properties and brushes.
//!
//! `read_map` reads a text by its grammar. It promises that the document is what the text means, and that a text is refused
//! just where its first token that doesn't fit is at fault, with that token's line. A brush that can't be one of a map is
//! kept as bad, with the first reason.
#![tactic(auto)]

mod brush_text;
mod document;
mod entity_text;
mod face_text;
mod judged;
mod map_text_reader;
mod number_text;
mod place;
mod point_text;
mod read_fault;
mod reader;
mod reading_law;
mod surface_text;
mod texture_text;

pub use document::{MapDoc, RawBrush, RawEntity, Reason};
pub use map_text_reader::read_map;
pub use place::Place;
pub use read_fault::{ReadFault, What};
pub use reading_law::one_reading_law;
