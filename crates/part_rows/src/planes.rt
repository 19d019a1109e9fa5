//! Planes, their normals and base axes, and the half-spaces that they bound.

use crate::row::Row;
use crate::shown::add_shown;
use case_text::CaseFault;
use exact_geom::same_halfspace;
use uv_lock::base_axes;

/// Adds the normal, the distance and the base axes of a plane, or why three points are none.
pub fn add_plane(out: &mut String, spelled: &str) -> Result<(), CaseFault> {
    match Row::of(spelled).try_plane()? {
        Ok(plane) => {
            writeln!(
                out,
                "= normal {:?}, distance {}",
                plane.normal(),
                plane.dist()
            )?;
            Ok(writeln!(out, "= axes {:?}", base_axes(&plane))?)
        }
        Err(fault) => add_shown(out, &fault),
    }
}

/// Adds whether two planes bound the same half-space, in both orders, and whether the first one, reversed, does.
pub fn add_same(out: &mut String, spelled: &str) -> Result<(), CaseFault> {
    let mut row = Row::of(spelled);
    let (a, b) = (row.plane()?, row.plane()?);
    let (there, back) = (same_halfspace(&a, &b), same_halfspace(&b, &a));
    let turned = same_halfspace(&a.reverse(), &b);
    writeln!(out, "= {there} {back}, reversed {turned}")?;
    Ok(())
}
