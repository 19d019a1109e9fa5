//! What commands on brushes share: the rows on the nodes that they name, bodies of faces that are all needed, faces with plain
//! fields, and a new brush of the world. It changes no map.
#![tactic(auto)]

mod bodies;
mod brush_rows;
mod new_brush;
mod new_faces;
mod node_rows;

pub use bodies::body_of;
pub use brush_rows::refuse_brushes;
pub use new_brush::put_brush;
pub use new_faces::{plain_face, plain_faces};
pub use node_rows::refuse_nodes;
