//! Writes the line of a face.

ghost use Rattle.std.specs.Prelude.{◌≡◌, ◌++◌, [], ◌∷◌, OnOk};
ghost use Rattle.map_text.specs.Grammar.{point_symbols};
ghost use Rattle.map_write.specs.Written.{face_line, kept, line_of, point_text};

use crate::material::write_material;
use crate::numbers::write_coordinate;
use crate::texture_writer::write_texture;
use exact_geom::Point;
use std::alloc::AllocError;
use uv_lock::Face;

fn write_point(text: &mut Vec<u8>, point: &Point) -> Result<(), AllocError>
    ensures { OnOk result (text.new.items ≡ text.old.items ++ line_of (point_symbols (point_text point.now))) }
{
    text.extend_from_slice(b"( ")?;
    write_coordinate(text, point.x)?;
    text.push(b' ')?;
    write_coordinate(text, point.y)?;
    text.push(b' ')?;
    write_coordinate(text, point.z)?;
    text.extend_from_slice(b" )")?;
    Ok(())
}

/// Appends the line of a face with its line feed.
pub(crate) fn write_face(text: &mut Vec<u8>, face: &Face) -> Result<(), AllocError>
    ensures { OnOk result (text.new.items ≡ text.old.items ++ (face_line kept face.now ++ 10 ∷ [])) }
{
    let [p0, p1, p2] = face.plane.points();
    write_point(text, &p0)?;
    text.push(b' ')?;
    write_point(text, &p1)?;
    text.push(b' ')?;
    write_point(text, &p2)?;
    text.push(b' ')?;
    write_material(text, face.material.bytes())?;
    text.push(b' ')?;
    write_texture(text, &face.tex)?;
    text.push(b'\n')?;
    Ok(())
}
