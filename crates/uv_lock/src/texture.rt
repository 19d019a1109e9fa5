//! How a texture lies on a face, in the two formats of Quake map files.

use crate::surface::Surface;
use fixed_num::{Micro, Nano, Pico};

/// How the faces of a map name their texture axes.
#[derive(Clone, Copy, Debug, PartialEq, Eq, Hash)]
pub enum Format {
    /// The first format of Quake: the axes follow from the plane, turned by the rotation.
    Standard,
    /// Valve 220: each face names its axes.
    Valve,
}

/// The texture fields of a face in the Standard format.
#[derive(Clone, Copy, Debug, PartialEq, Eq)]
pub struct StandardTex {
    /// The offsets along U and V, in texels.
    pub off: [Pico; 2],
    /// The rotation of the axes, in degrees.
    pub rotation: Micro,
    /// The map units of a texel along U and V; 0 counts as 1.
    pub scale: [Nano; 2],
    /// The surface numbers, where the face has them.
    pub surface: Option<Surface>,
}

/// The texture fields of a face in the Valve 220 format.
#[derive(Clone, Copy, Debug, PartialEq, Eq)]
pub struct ValveTex {
    /// The axes U and V, each by its x, y and z.
    pub axis: [[Nano; 3]; 2],
    /// The offsets along U and V, in texels.
    pub off: [Pico; 2],
    /// The rotation, in degrees. The axes are turned already: it is kept and has no effect.
    pub rotation: Micro,
    /// The map units of a texel along U and V; 0 counts as 1.
    pub scale: [Nano; 2],
    /// The surface numbers, where the face has them.
    pub surface: Option<Surface>,
}

/// The texture fields of a face.
#[derive(Clone, Copy, Debug, PartialEq, Eq)]
pub enum Tex {
    Standard(StandardTex),
    Valve(ValveTex),
}
