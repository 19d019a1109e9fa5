//! The vertices of several solids as points.

ghost use Rattle.std.specs.Prelude.{◌≡◌, ◌++◌, ◌^◌, ◌<◌, ◌≤◌, length, map, IfOk, IfErr, OnOk};
ghost use Rattle.exact_geom.specs.Planes.{vector};
ghost use Rattle.hull_merge.specs.Hulls.{AreFirstPlaces, distinct};
ghost use Rattle.hull_merge.specs.Gathered.{AreGathered, AreAllWhole, IsNoGatherFor};

use crate::gather_fault::GatherFault;
use crate::places::first_places;
use crate::vertices::{vertices_of, whole_points};
use exact_geom::Point;
use solid_brush::Solid;
use std::alloc::{AllocError, AllocFailed, Global};

// Adds points.
fn add_points(all: &mut Vec<Point>, points: &[Point]) -> Result<(), AllocFailed<Point>>
    ensures { OnOk result (all.new.items ≡ all.old.items ++ points.now) }
{
    for point in points {
        all.push(*point)?;
    }
    Ok(())
}

// The vertices of all solids as points, by solid and by name.
fn all_points(alloc: Global, list: &[Solid]) -> Result<Vec<Point>, GatherFault>
    requires few { length list.now < 4096 }
    ensures all { IfOk result (λ all. AreAllWhole list.now all.items) }
    ensures few { IfOk result (λ all. length all.items < 2 ^ 32) }
    ensures fault { IfErr result (IsNoGatherFor list.now) }
{
    let mut all = Vec::new(alloc);
    for k in 0..list.len() {
        let vertices = vertices_of(alloc, &list[k])?;
        let Some(points) = whole_points(alloc, &vertices)? else {
            return Err(GatherFault::Fractional(k as u32));
        };
        add_points(&mut all, &points)?;
    }
    Ok(all)
}

// The points at places.
fn points_at(alloc: Global, all: &[Point], places: &[u32]) -> Result<Vec<Point>, AllocError>
    requires places { AreFirstPlaces all.now places.now }
    ensures points { IfOk result (λ points. map vector points.items ≡ distinct all.now) }
{
    let mut points = Vec::new(alloc);
    for k in places {
        points.push(all[*k as usize])?;
    }
    Ok(points)
}

/// The vertices of solids as points, by solid and by name, later equal ones dropped. They are fewer than 2^32.
///
/// They are refused exactly where some vertex isn't whole, by the number of the first solid with such a vertex; but `Memory`, for
/// want of memory, may come in place of any answer.
pub fn gather(alloc: Global, list: &[Solid]) -> Result<Vec<Point>, GatherFault>
    requires few { length list.now < 4096 }
    ensures gathered { IfOk result (λ points. AreGathered list.now points.items) }
    ensures fault { IfErr result (IsNoGatherFor list.now) }
{
    let all = all_points(alloc, list)?;
    let places = first_places(alloc, &all)?;
    let points = points_at(alloc, &all, &places)?;
    Ok(points)
}
