//! Whether a polyhedron lies in the world.

ghost use Rattle.std.specs.Prelude.{◌↔◌, List, IsTrue};
ghost use Rattle.algebra.specs.Members.{Every};
ghost use Rattle.algebra.specs.Space.{Homogeneous};
ghost use Rattle.algebra.specs.World.{InCube, world};
ghost use Rattle.half_poly.specs.Shapes.{solid_of};
ghost use Rattle.solid_laws.specs.Names.{AreVertices};

use exact_geom::in_world;
use half_poly::Poly;

/// Whether all vertices lie in the world, the cube from -4096 to 4096.
pub(crate) fn lies_in_world(poly: &Poly) -> bool
    ensures { (V : List Homogeneous) → AreVertices (solid_of poly.now) V → IsTrue result ↔ Every (InCube world) V }
{
    for k in 0..poly.vertex_count() {
        let Some(vertex) = poly.vertex(k) else {
            unreachable!()
        };
        if !in_world(&vertex) {
            return false;
        }
    }
    true
}
