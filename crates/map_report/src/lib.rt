//! What is said of a map file: notes on what was mended, refusals, and summaries, each as a type and as one line.
//!
//! [`note_text`], [`fault_text`] and [`summary_text`] write the line, with its line feed, into the buffer of fixed size that
//! replies are written into. No call takes memory, and none of the lines is the line `memory`.
#![tactic(auto)]

mod fault;
mod laws;
mod lines;
mod note;
mod summary;

pub use fault::MapFault;
pub use laws::report_law;
pub use lines::{fault_text, note_text, summary_text};
pub use note::Note;
pub use summary::Summary;
