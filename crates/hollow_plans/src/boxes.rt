//! Which brushes are boxes along the axes.

ghost use Rattle.std.specs.Prelude.{◌≡◌, ℕ, IsTrue};
ghost use Rattle.std.specs.List.{list_all};
ghost use Rattle.algebra.specs.Members.{◌∈◌};
ghost use Rattle.exact_geom.specs.Planes.{half_space};
ghost use Rattle.map_model.specs.Brushes.{is_along_axis, is_box};
ghost use Rattle.map_model.specs.Rows.{at_each};
ghost use Rattle.map_model.specs.Tree.{whole, is_brush};
ghost use Rattle.tree_ops.specs.Passing.{passes};
ghost use Rattle.hollow_plans.specs.Walls.{no_box};

use cmd_text::Refusal;
use cut_plans::body_at;
use exact_geom::Plane;
use map_nodes::NodeId;
use tree_node::Map;
use uv_lock::Face;

/// `NotBox` with the first of the brushes that is no box.
pub(crate) fn refuse_other_brushes(map: &Map, ids: &[NodeId]) -> Result<(), Refusal>
    requires brushes { (n : ℕ) → n ∈ ids.now → IsTrue (is_brush (whole map.now) n) }
    ensures { result ≡ passes (at_each ids.now (no_box (whole map.now))) }
{
    for id in ids {
        if !is_box(body_at(map, *id).faces()) {
            return Err(Refusal::NotBox(id.number()));
        }
    }
    Ok(())
}

// Whether the faces are six with normals along the axes.
fn is_box(faces: &[Face]) -> bool
    ensures { result ≡ is_box faces.now }
{
    faces.len() == 6 && are_along_axes(faces)
}

// Whether each normal is along an axis.
fn are_along_axes(faces: &[Face]) -> bool
    ensures { result ≡ list_all (λ f. is_along_axis (half_space f.plane).normal) faces.now }
{
    for face in faces {
        if !is_along_axis(&face.plane) {
            return false;
        }
    }
    true
}

// Whether one part of the normal, and no other, differs from 0.
fn is_along_axis(plane: &Plane) -> bool
    ensures { result ≡ is_along_axis (half_space plane.now).normal }
{
    let [x, y, z] = plane.normal();
    (x != 0 && y == 0 && z == 0) || (x == 0 && y != 0 && z == 0) || (x == 0 && y == 0 && z != 0)
}
