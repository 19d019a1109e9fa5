//! The faces of brushes with their solids.

ghost use Rattle.std.specs.Prelude.{◌≡◌, IfOk};
ghost use Rattle.std.specs.Bool.{Decides};
ghost use Rattle.map_nodes.specs.Seen.{sides_of};
ghost use Rattle.solid_brush.specs.Sides.{IsSolid};

use crate::same_faces::same_faces;
use exact_geom::Rows;
use solid_brush::Solid;
use std::alloc::{AllocError, Global};
use std::marker::Model;
use uv_lock::Face;

/// The faces of a valid brush, with the solid that they bound: its sides are the planes of the faces, in order, and each
/// has its place as its tag. Contracts see the faces alone, so bodies are equal where their faces are.
#[derive(Debug, Drop)]
pub struct Body {
    faces: Rows<Face>,
    solid: Solid,
}

impl Model for Body {
    ghost use Rattle.std.specs.Prelude.{List, ◌≡◌};
    ghost use Rattle.uv_lock.specs.declared.face.Face.{Face as PlainFace};

    ghost Value = { List PlainFace };

    ghost use Rattle.map_nodes.specs.Seen.{sides_of};

    ghost view = { λ b. b.faces };

    ghost invariant = { λ b. b.solid ≡ sides_of b.faces };
}

impl Body {
    /// The body of faces and of their solid. It takes no memory.
    pub fn of(faces: Rows<Face>, solid: Solid) -> Body
        requires fits { solid ≡ sides_of faces }
        ensures { result ≡ faces }
    {
        Body { faces, solid }
    }

    /// The faces, in order.
    pub fn faces(&self) -> &[Face]
        ensures faces { result.now ≡ self.now }
    {
        self.faces.list()
    }

    /// The solid that they bound.
    pub fn solid(&self) -> &Solid
        ensures sides { result.now ≡ sides_of self.now }
    {
        &self.solid
    }

    /// The faces are those of a valid brush.
    pub fn is_valid(&self)
        ensures { IsSolid (sides_of self.now) }
    {
        let _sides = self.solid.sides();
    }

    /// Whether two bodies have the same faces in the same order.
    pub fn is_same(&self, other: &Body) -> bool
        ensures { Decides result (self.now ≡ other.now) }
    {
        same_faces(self.faces.list(), other.faces.list())
    }

    /// An equal body, or an error for want of memory.
    pub fn copy(&self, alloc: Global) -> Result<Body, AllocError>
        ensures { IfOk result (λ body. body ≡ self.now) }
    {
        Ok(Body {
            faces: copy_faces(alloc, self.faces.list())?,
            solid: self.solid.copy(alloc)?,
        })
    }
}

// Equal faces.
fn copy_faces(alloc: Global, faces: &[Face]) -> Result<Rows<Face>, AllocError>
    ensures { IfOk result (λ copies. copies ≡ faces.now) }
{
    let mut copies = Vec::with_capacity(alloc, faces.len())?;
    for face in faces {
        copies.push(face.copy(alloc)?)?;
    }
    Ok(Rows::of(copies))
}
