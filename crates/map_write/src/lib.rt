//! The text that a map document is saved as, and the law that it is read again as the same document.
//!
//! Properties and faces stand one a line, entities and brushes under comments with their numbers, numbers in
//! their shortest decimals. No memory is taken but for the growth of the text.
#![tactic(auto)]

mod brush_writer;
mod entity_writer;
mod face_writer;
mod laws;
mod map_writer;
mod material;
mod numbers;
mod surface_writer;
mod texture_writer;

pub use laws::{old_files_law, saved_is_read_again_law};
pub use map_writer::{all_good, write_map};
