//! Faces of brushes.

ghost use Rattle.std.specs.Prelude.{◌≡◌, IfOk};

use crate::texture::Tex;
use exact_geom::Plane;
use fixed_num::Text;
use std::alloc::{AllocError, Global};

/// One face of a brush.
#[derive(Debug, Drop)]
pub struct Face {
    pub plane: Plane,
    /// The name of the texture's image, of any bytes.
    pub material: Text,
    pub tex: Tex,
}

impl Face {
    /// An equal face; an error only where there is no memory for its material.
    pub fn copy(&self, alloc: Global) -> Result<Face, AllocError>
        ensures { IfOk result (λ face. face ≡ self.now) }
    {
        Ok(Face {
            plane: self.plane,
            material: Text::of(alloc, self.material.bytes())?,
            tex: self.tex,
        })
    }
}
