//! The text of a whole map.

ghost use Rattle.std.specs.Prelude.{IfOk};
ghost use Rattle.map_model.specs.Tree.{whole};
ghost use Rattle.obj_export.specs.Text.{IsObjOf};

use crate::brushes::{Counts, add_nodes};
use fixed_num::Text;
use map_nodes::NodeId;
use std::alloc::{AllocError, Global};
use tree_node::{Change, Map};

/// A map as a Wavefront OBJ text, and how many brushes, vertices and faces it has. A vertex where several brushes meet is
/// counted for each.
#[derive(Debug, Drop)]
pub struct Obj {
    pub text: Text,
    pub brushes: u64,
    pub vertices: u64,
    pub faces: u64,
}

/// Writes the brushes of a map in preorder. For each there is first a line `v x y z` for each vertex, in the order of their
/// names, its coordinates rounded to millionths and written as shortest decimals. Then there are two lines for each face:
/// `usemtl NAME`, and `f` with the numbers of its vertices, counterclockwise as seen from outside, from the least one on.
/// Vertices count from 1 through the whole text. A name has `_` for each space, tab and carriage return of the material, and
/// is `__TB_empty` for an empty one.
///
/// An error only where there is no memory. The time is linear in the text.
pub fn write_obj(alloc: Global, map: &Map) -> Result<Obj, AllocError>
    ensures { IfOk result (IsObjOf (whole map.now)) }
{
    let ids = Change::new(alloc, map).preorder(alloc, map, NodeId(0))?;
    let mut text = Vec::new(alloc);
    let mut counts = Counts {
        brushes: 0,
        vertices: 0,
        faces: 0,
    };
    add_nodes(&mut text, &mut counts, map, &ids)?;
    Ok(Obj {
        text: Text::from_vec(text),
        brushes: counts.brushes,
        vertices: counts.vertices,
        faces: counts.faces,
    })
}
