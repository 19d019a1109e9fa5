//! Coordinates in millionths.

ghost use Rattle.std.specs.Prelude.{◌≡◌, ◌<◌, ◌≤◌, ◌*◌, ◌^◌, ◌≤ℤ◌, pos, unsigned_abs};
ghost use Rattle.algebra.specs.World.{InCube, world, world_limit};
ghost use Rattle.exact_geom.specs.Limits.{weight_limit};
ghost use Rattle.fixed_num.specs.Count.{nearest};
ghost use Rattle.obj_export.specs.Text.{micro_of, micros};
ghost use Rattle.obj_export.specs.Adding.{AreNearest};

use exact_geom::HVertex;
use fixed_num::Micro;

// So many millionths are a map unit.
const MILLION: u128 = 1_000_000;

/// The coordinates of a vertex in the world in millionths, each rounded to the nearest count, halves away from 0. It takes no
/// memory.
pub fn to_micro(v: &HVertex) -> [Micro; 3]
    requires in_world { InCube world v.now }
    ensures counts { result ≡ micros v.now }
    ensures nearest { AreNearest v.now (micro_of v.now.weight v.now.vector.x) (micro_of v.now.weight v.now.vector.y) (micro_of v.now.weight v.now.vector.z) }
{
    let [x, y, z, weight] = v.parts();
    [micro(x, weight), micro(y, weight), micro(z, weight)]
}

// The coordinate x / w.
fn micro(x: i128, w: i128) -> Micro
    requires weight { pos 1 ≤ℤ w }
    requires weight_size { unsigned_abs w ≤ weight_limit }
    requires in_world { unsigned_abs x ≤ world_limit * unsigned_abs w }
    ensures { result ≡ micro_of w x }
{
    let size = nearest(x.unsigned_abs(), w.unsigned_abs()) as i64;
    if x < 0 { Micro(-size) } else { Micro(size) }
}

// The count of millionths nearest to size / weight, of two the greater one.
fn nearest(size: u128, weight: u128) -> u128
    requires weight { 0 < weight }
    requires weight_size { weight ≤ weight_limit }
    requires in_world { size ≤ world_limit * weight }
    ensures nearest { result ≡ nearest (size * 10 ^ 6) weight }
    ensures in_world { result ≤ 4096000000 }
{
    (2 * (size * MILLION) + weight) / (2 * weight)
}
