//! Writes brushes: their faces in braces.

ghost use Rattle.std.specs.Prelude.{◌≡◌, ◌++◌, OnOk, map};
ghost use Rattle.map_lex.specs.LineTexts.{text_of};
ghost use Rattle.map_text.specs.Spelled.{faces_of_brush};
ghost use Rattle.map_write.specs.Written.{brush_lines, face_line, kept};

use crate::face_writer::write_face;
use crate::numbers::write_heading;
use map_text::RawBrush;
use std::alloc::AllocError;
use uv_lock::Face;

// The faces of a brush; none where it is bad.
fn faces_of(brush: &RawBrush) -> &[Face]
    ensures { result.now ≡ faces_of_brush brush.now }
{
    match brush {
        RawBrush::Faces(faces) => faces.list(),
        RawBrush::Bad(_) => &[],
    }
}

fn write_faces(text: &mut Vec<u8>, faces: &[Face]) -> Result<(), AllocError>
    ensures { OnOk result (text.new.items ≡ text.old.items ++ text_of (map (face_line kept) faces.now)) }
{
    for face in faces {
        write_face(text, face)?;
    }
    Ok(())
}

/// Appends a brush with its number, in lines that are each ended by a line feed.
pub(crate) fn write_brush(
    text: &mut Vec<u8>,
    number: usize,
    brush: &RawBrush,
) -> Result<(), AllocError>
    ensures { OnOk result (text.new.items ≡ text.old.items ++ text_of (brush_lines kept number brush.now)) }
{
    write_heading(text, b"// brush ", number)?;
    write_faces(text, faces_of(brush))?;
    text.extend_from_slice(b"}\n")?;
    Ok(())
}
