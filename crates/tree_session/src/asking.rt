//! The word that asks for the texture coordinates of a point.

ghost use Rattle.std.specs.Prelude.{◌≡◌, option_copied, slice_get};
ghost use Rattle.cmd_text.specs.Kept.{IsPoint};
ghost use Rattle.map_model.specs.Tree.{whole, faces_at};
ghost use Rattle.map_model.specs.Commands.{point_in};
ghost use Rattle.tree_session.specs.Words.{AnswersPoint};

use cmd_text::{Refusal, Reply};
use exact_geom::Point;
use map_nodes::{Node, NodeId};
use tree_node::Map;
use uv_lock::{Face, uv_at};

// The face of a number of a brush. `None` where the node is no brush, or has no such face.
fn face_of(map: &Map, node: u32, face: u32) -> Option<&Face>
    ensures { option_copied result ≡ slice_get (faces_at (whole map.now) node) face }
{
    match map.get(NodeId(node)) {
        Some(Node::Brush { body, .. }) => body.faces().get(face as usize),
        _ => None,
    }
}

/// The point of three coordinates.
pub(crate) fn point(at: [i32; 3]) -> Point
    ensures { result ≡ point_in at }
{
    let [x, y, z] = at;
    Point { x, y, z }
}

/// The texture coordinates of a point on a face. It is refused where there is no such node, where this has no such face, and
/// where the face has a rotation at which it has no axes. It takes no memory.
pub(crate) fn uv(map: &Map, node: u32, face: u32, at: [i32; 3]) -> Reply
    requires { IsPoint at }
    ensures { AnswersPoint (whole map.now) node face at result }
{
    if map.get(NodeId(node)).is_none() {
        return Reply::No(Refusal::NoNode(node));
    }
    let Some(asked) = face_of(map, node, face) else {
        return Reply::No(Refusal::WrongKind(node));
    };
    match uv_at(asked, point(at)) {
        Some(coordinates) => Reply::Uv(coordinates),
        None => Reply::No(Refusal::Rotation(node, face)),
    }
}
