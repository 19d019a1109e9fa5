//! The nodes of maps: their numbers, properties, faces with their solids, links, and the five kinds of nodes.
//!
//! A contract sees each as the plain value that the definitions of maps speak of: a number, a list of pairs, a list of
//! faces. So a node is seen as a case of `Node` with plain lists in it, and two nodes are equal where these are.
#![tactic(auto)]

mod body;
mod children;
mod entry;
mod link;
mod lists;
mod node;
mod node_id;
mod props;
mod renumbering;
mod same_faces;
mod sameness;
mod sides;

pub use body::Body;
pub use entry::Entry;
pub use link::Link;
pub use node::Node;
pub use node_id::NodeId;
pub use props::Props;
pub use sides::sides_of;
