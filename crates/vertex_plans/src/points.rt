//! The points of a line.

ghost use Rattle.std.specs.Prelude.{◌≡◌, IfOk};
ghost use Rattle.map_model.specs.Commands.{point_in, points_in};

use exact_geom::{Point, Rows};
use std::alloc::{AllocError, Global};

fn point(numbers: [i32; 3]) -> Point
    ensures { result ≡ point_in numbers }
{
    let [x, y, z] = numbers;
    Point { x, y, z }
}

/// The points of their numbers, in order.
pub(crate) fn points(alloc: Global, numbers: &Rows<[i32; 3]>) -> Result<Vec<Point>, AllocError>
    ensures { IfOk result (λ points. points.items ≡ points_in numbers.now) }
{
    let mut points = Vec::new(alloc);
    for three in numbers.list() {
        points.push(point(*three))?;
    }
    Ok(points)
}
