//! Faces with plain fields, in the current material.

ghost use Rattle.std.specs.Prelude.{◌≡◌, IfOk};
ghost use Rattle.exact_geom.specs.Planes.{ThreePoints};
ghost use Rattle.uv_lock.specs.declared.texture.Format.TheVariants.{Standard};
ghost use Rattle.map_model.specs.Tree.{whole, format_of};
ghost use Rattle.map_model.specs.Carry.{plain_tex};
ghost use Rattle.map_model.specs.Rows.{current_material, plain_face};
ghost use Rattle.brush_plans.specs.PlainFaces.{plain_faces};

use exact_geom::Plane;
use fixed_num::{Micro, Nano, Pico, Text};
use map_nodes::{Node, NodeId};
use std::alloc::{AllocError, Global};
use tree_node::Map;
use tree_ops::Settings;
use uv_lock::{Face, Format, StandardTex, Tex, to_valve};

/// One, as the count of a scale.
const SCALE_UNIT: i64 = 1_000_000_000;

/// A plain face on each of the planes.
pub fn plain_faces(
    alloc: Global,
    map: &Map,
    set: &Settings,
    planes: &[Plane],
) -> Result<Vec<Face>, AllocError>
    ensures { IfOk result (λ faces. faces.items ≡ plain_faces set.now (whole map.now) planes.now) }
{
    let mut faces = Vec::with_capacity(alloc, planes.len())?;
    for plane in planes {
        faces.push(plain_face(alloc, map, set, *plane)?)?;
    }
    Ok(faces)
}

/// A face with plain fields, in the current material: offsets and rotation 0, scales 1, no surface numbers, and in the Valve
/// format the base axes of its plane.
pub fn plain_face(
    alloc: Global,
    map: &Map,
    set: &Settings,
    plane: Plane,
) -> Result<Face, AllocError>
    ensures { IfOk result (λ face. face ≡ plain_face set.now (whole map.now) plane) }
{
    let material = Text::of(alloc, current_material(set))?;
    let face = Face {
        plane,
        material,
        tex: plain_tex(),
    };
    Ok(in_format(face, format_of(map)))
}

// The material of new faces.
fn current_material(set: &Settings) -> &[u8]
    ensures { result.now ≡ current_material set.now }
{
    if set.material().is_empty() {
        b"__TB_empty"
    } else {
        set.material()
    }
}

// The format of the map's faces.
fn format_of(map: &Map) -> Format
    ensures { result ≡ format_of (whole map.now) }
{
    match map.get(NodeId(0)) {
        Some(Node::World { format, .. }) => *format,
        _ => Format::Standard,
    }
}

// Offsets and rotation 0, scales 1, and no surface numbers.
fn plain_tex() -> Tex
    ensures { (plane : ThreePoints) → result ≡ plain_tex Standard plane }
{
    Tex::Standard(StandardTex {
        off: [Pico(0), Pico(0)],
        rotation: Micro(0),
        scale: [Nano(SCALE_UNIT), Nano(SCALE_UNIT)],
        surface: None,
    })
}

// A plain Standard face in a format: in the Valve format the base axes of its plane are written out.
fn in_format(face: Face, format: Format) -> Face
    requires plain { face.tex ≡ plain_tex Standard face.plane }
    ensures { result ≡ record face { tex = plain_tex format face.plane } }
{
    match format {
        Format::Standard => face,
        Format::Valve => {
            let Some(tex) = to_valve(&face) else {
                unreachable!()
            };
            Face { tex, ..face }
        }
    }
}
