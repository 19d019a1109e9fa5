//! The files of maps: the document that a map is saved as, and the map of a document.
//!
//! [`to_doc`] gives the document that a map is saved as. What it gives can be saved, reads again as the same document, and
//! builds the map again with its nodes numbered in the order of the file, with no note.
//!
//! [`to_tree`] gives the map that a document builds, with notes on what was mended or left out, or a [`TreeFault`]: why there
//! is none. It goes in passes, each with one definition as its clause: what each entity says, its brushes judged; which
//! entities stay, each beneath the place of its parent; their slots; and the map. Documents with link sets or protected keys
//! aren't read yet.
#![tactic(auto)]

mod brushes;
mod building;
mod children;
mod copies;
mod dropped;
mod empty;
mod entities;
mod fault;
mod ids;
mod items;
mod judged;
mod keep;
mod kinds;
mod numbering;
mod numbers;
mod order;
mod pairs;
mod parents;
mod placing;
mod props;
mod reading;
mod refusals;
mod rings;
mod saving;
mod slots;
mod whole_map;

pub use building::to_tree;
pub use fault::TreeFault;
pub use saving::to_doc;
