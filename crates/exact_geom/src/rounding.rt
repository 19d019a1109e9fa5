//! The world cube, whole vertices, and rounding to a grid.

ghost use Rattle.std.specs.Prelude.{◌≡◌, ◌↔◌, ◌<◌, ◌≤◌, ◌*◌, ◌≤ℤ◌, ◌*ℤ◌, pos, neg_ℤ, unsigned_abs, IsTrue, IsSome, IfSome};
ghost use Rattle.algebra.specs.World.{InCube, world, world_limit};
ghost use Rattle.exact_geom.specs.Limits.{weight_limit};
ghost use Rattle.exact_geom.specs.Planes.{vector};
ghost use Rattle.exact_geom.specs.Machine.{IsHalfUp, IsWithin};
ghost use Rattle.exact_geom.specs.Rounding.{IsGrid, IsNearest, IsRounded};

use crate::point::Point;
use crate::vertex::HVertex;

/// The greatest size of a coordinate in the world.
const WORLD: u128 = 4096;

/// Whether the vertex lies in the world cube, -4096 to 4096 in each coordinate.
pub fn in_world(v: &HVertex) -> bool
    ensures { IsTrue result ↔ InCube world v.now }
{
    is_near(v.x, v.w) && is_near(v.y, v.w) && is_near(v.z, v.w)
}

// Whether x / w is from -4096 to 4096.
fn is_near(x: i128, w: i128) -> bool
    requires weight { pos 1 ≤ℤ w }
    requires weight_size { unsigned_abs w ≤ weight_limit }
    ensures { IsTrue result ↔ ((neg_ℤ (world *ℤ w) ≤ℤ x) × (x ≤ℤ (world *ℤ w))) }
{
    x.unsigned_abs() <= WORLD * w.unsigned_abs()
}

/// The vertex as a whole point. `None` exactly where its weight isn't 1.
pub fn whole(v: &HVertex) -> Option<Point>
    requires { InCube world v.now }
    ensures some { IsSome result ↔ (v.now.weight ≡ pos 1) }
    ensures point { IfSome result (λ p. vector p ≡ v.now.vector) }
{
    if v.w != 1 {
        return None;
    }
    Some(Point {
        x: v.x as i32,
        y: v.y as i32,
        z: v.z as i32,
    })
}

/// The vertex with each coordinate at the nearest multiple of the grid, half away from zero.
pub fn round(v: &HVertex, grid: i32) -> Point
    requires grid { IsGrid grid }
    requires in_world { InCube world v.now }
    ensures rounded { IsRounded grid v.now (vector result) }
    ensures in_world { IsWithin world_limit (vector result) }
{
    Point {
        x: nearest(v.x, v.w, grid),
        y: nearest(v.y, v.w, grid),
        z: nearest(v.z, v.w, grid),
    }
}

// The multiple of the grid that is nearest to x / w, of two the one further from 0.
fn nearest(x: i128, w: i128, grid: i32) -> i32
    requires grid { IsGrid grid }
    requires weight { pos 1 ≤ℤ w }
    requires weight_size { unsigned_abs w ≤ weight_limit }
    requires in_world { unsigned_abs x ≤ world_limit * unsigned_abs w }
    ensures nearest { IsNearest grid x w result }
    ensures in_world { unsigned_abs result ≤ world_limit }
{
    let size = half_up(x.unsigned_abs(), w.unsigned_abs(), grid.unsigned_abs()) as i32;
    if x < 0 { -size } else { size }
}

// The multiple of the grid that is nearest to size / weight, of two the greater one.
fn half_up(size: u128, weight: u128, grid: u32) -> u32
    requires grid { IsGrid (pos grid) }
    requires weight { 0 < weight }
    requires weight_size { weight ≤ weight_limit }
    requires in_world { size ≤ world_limit * weight }
    ensures nearest { IsHalfUp size weight grid result }
    ensures in_world { result ≤ world_limit }
{
    let spacing = u128::from(grid) * weight;
    let count = (2 * size + spacing) / (2 * spacing);
    count as u32 * grid
}
