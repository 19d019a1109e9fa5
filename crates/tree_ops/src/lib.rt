//! The commands of the tree, planned over a map: `delete`, `entity`, `set`, `unset`, `tie`, `untie`, `layer`, `freeze`, `thaw`,
//! `group`, `ungroup` and `into`.
//!
//! [`edit`] gives the first refusal of the one order in which refusals are tried, or else a change that names exactly the
//! nodes that differ, with the reply. It changes no map. What a row costs goes by what the command names, and not by the map;
//! an edit also copies the nodes that it changes, with their lists of children. [`rows`] has the rows that other commands share.
#![tactic(auto)]

mod editing;
mod fault;
mod gathering;
mod keys;
mod kinds;
mod making;
mod named;
mod own;
mod plan;
mod planned;
mod pruning;
mod refusing;
mod removal;
pub mod rows;
mod settings;

pub use editing::edit;
pub use fault::OpFault;
pub use kinds::is_movable;
pub use named::ids;
pub use planned::Planned;
pub use pruning::prune;
pub use settings::Settings;
