//! Points with whole coordinates.

ghost use Rattle.std.specs.Prelude.{◌≡◌};

/// The greatest size of a coordinate of a plane's point.
const LIMIT: u32 = 4352;

/// A point with whole coordinates, in map units.
#[derive(Clone, Copy, Debug, PartialEq, Eq, Hash)]
pub struct Point {
    pub x: i32,
    pub y: i32,
    pub z: i32,
}

impl Point {
    ghost use Rattle.exact_geom.specs.Planes.{is_in_range};

    /// Whether a plane may be given by it: each coordinate is at most 4352 in size.
    pub(crate) fn is_in_range(&self) -> bool
        ensures { result ≡ is_in_range self.now }
    {
        self.x.unsigned_abs() <= LIMIT
            && self.y.unsigned_abs() <= LIMIT
            && self.z.unsigned_abs() <= LIMIT
    }
}
