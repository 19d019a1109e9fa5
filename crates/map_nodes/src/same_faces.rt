//! Equality of faces.

ghost use Rattle.std.specs.Prelude.{◌≡◌};
ghost use Rattle.std.specs.Bool.{Decides};

use exact_geom::{Plane, Point};
use uv_lock::{Face, StandardTex, Surface, Tex, ValveTex};

/// Whether two lists have the same faces in the same order.
pub(crate) fn same_faces(a: &[Face], b: &[Face]) -> bool
    ensures { Decides result (a.now ≡ b.now) }
{
    if a.len() != b.len() {
        return false;
    }
    for k in 0..a.len() {
        if !same_face(&a[k], &b[k]) {
            return false;
        }
    }
    true
}

// Whether two faces have the same points, material and texture fields.
fn same_face(a: &Face, b: &Face) -> bool
    ensures { Decides result (a.now ≡ b.now) }
{
    same_plane(&a.plane, &b.plane)
        & (a.material.bytes() == b.material.bytes())
        & same_tex(&a.tex, &b.tex)
}

// Whether two planes are given by the same points.
fn same_plane(a: &Plane, b: &Plane) -> bool
    ensures { Decides result (a.now ≡ b.now) }
{
    let [a0, a1, a2] = a.points();
    let [b0, b1, b2] = b.points();
    same_point(&a0, &b0) & same_point(&a1, &b1) & same_point(&a2, &b2)
}

fn same_point(a: &Point, b: &Point) -> bool
    ensures { Decides result (a.now ≡ b.now) }
{
    (a.x == b.x) & (a.y == b.y) & (a.z == b.z)
}

// Whether texture fields are of one format and the same.
fn same_tex(a: &Tex, b: &Tex) -> bool
    ensures { Decides result (a.now ≡ b.now) }
{
    match a {
        Tex::Standard(t) => match b {
            Tex::Standard(u) => same_standard(t, u),
            Tex::Valve(_) => false,
        },
        Tex::Valve(t) => match b {
            Tex::Standard(_) => false,
            Tex::Valve(u) => same_valve(t, u),
        },
    }
}

fn same_standard(a: &StandardTex, b: &StandardTex) -> bool
    ensures { Decides result (a.now ≡ b.now) }
{
    (a.off == b.off)
        & (a.rotation == b.rotation)
        & (a.scale == b.scale)
        & same_surface(a.surface, b.surface)
}

fn same_valve(a: &ValveTex, b: &ValveTex) -> bool
    ensures { Decides result (a.now ≡ b.now) }
{
    (a.axis == b.axis)
        & (a.off == b.off)
        & (a.rotation == b.rotation)
        & (a.scale == b.scale)
        & same_surface(a.surface, b.surface)
}

// Whether both have the same surface numbers, or neither has any.
fn same_surface(a: Option<Surface>, b: Option<Surface>) -> bool
    ensures { Decides result (a ≡ b) }
{
    match a {
        None => b.is_none(),
        Some(s) => match b {
            None => false,
            Some(t) => (s.contents == t.contents) & (s.flags == t.flags) & (s.value == t.value),
        },
    }
}
