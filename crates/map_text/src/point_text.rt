//! The points of a face.

ghost use Rattle.std.specs.Prelude.{◌≡◌, [], ◌∷◌, ◌++◌, IfOk, IfErr};
ghost use Rattle.map_text.specs.Judged.{point_from, points_from};
ghost use Rattle.map_text.specs.Parts.{point_part, points_part, points_places};
ghost use Rattle.map_text.specs.Reading.{IsRead, IsRefused};
ghost use Rattle.map_text.specs.Refusals.{rest_of_point};

use crate::judged::{Judged, both};
use crate::number_text::read_coordinate;
use crate::read_fault::{ReadFault, What};
use crate::reader::Reader;
use exact_geom::Point;

#[inline(always)]
fn point_from(x: Judged<i32>, y: Judged<i32>, z: Judged<i32>) -> Judged<Point>
    ensures { result ≡ point_from x y z }
{
    let ((x, y), z) = both(both(x, y), z)?;
    Ok(Point { x, y, z })
}

#[inline(always)]
fn points_from(p0: Judged<Point>, p1: Judged<Point>, p2: Judged<Point>) -> Judged<[Point; 3]>
    ensures { result ≡ points_from p0 p1 p2 }
{
    let ((p0, p1), p2) = both(both(p0, p1), p2)?;
    Ok([p0, p1, p2])
}

// Reads a point behind its first bracket.
fn read_point(reader: &mut Reader<'_>) -> Result<Judged<Point>, ReadFault>
    ensures read { IfOk result (IsRead point_part rest_of_point [] reader.old reader.new) }
    ensures fault { IfErr result (IsRefused reader.old rest_of_point) }
{
    let x = read_coordinate(reader)?;
    let y = read_coordinate(reader)?;
    let z = read_coordinate(reader)?;
    reader.expect(b')', What::Point)?;
    Ok(point_from(x, y, z))
}

/// Reads the three points of a face behind the bracket of the first one.
pub(crate) fn read_points(reader: &mut Reader<'_>) -> Result<Judged<[Point; 3]>, ReadFault>
    ensures read { IfOk result (IsRead points_part points_places [] reader.old reader.new) }
    ensures fault { IfErr result (IsRefused reader.old points_places) }
{
    let p0 = read_point(reader)?;
    reader.expect(b'(', What::Point)?;
    let p1 = read_point(reader)?;
    reader.expect(b'(', What::Point)?;
    let p2 = read_point(reader)?;
    Ok(points_from(p0, p1, p2))
}
