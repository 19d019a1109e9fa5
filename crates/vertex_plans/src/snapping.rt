//! Brushes whose vertices are rounded to a grid.

ghost use Rattle.std.specs.Prelude.{◌≡◌, ℕ, [], ◌∷◌, ◌++◌, IsTrue, OnOk};
ghost use Rattle.algebra.specs.Members.{◌∈◌};
ghost use Rattle.exact_geom.specs.Rounding.{IsGrid};
ghost use Rattle.map_model.specs.Tree.{whole, is_brush};
ghost use Rattle.vertex_plans.specs.Snaps.{IsSnapped, AreSnapped, AreFew, IsKept};

use crate::on_facets::remade;
use crate::putting::NewBody;
use cmd_text::Refusal;
use cut_plans::body_at;
use exact_geom::Rows;
use map_nodes::NodeId;
use std::alloc::{AllocError, Global};
use tree_node::Map;
use tree_ops::OpFault;
use vertex_edit::{SnapFault, snap};

/// A brush whose vertices are rounded: with its faces, or with their count, where there are more than 128.
#[derive(Drop)]
pub(crate) enum Snapped {
    Few(NewBody),
    Many(NodeId, u64),
}

/// The brushes with their vertices rounded. `NoVolume` with the first of them whose rounded vertices don't span space.
pub(crate) fn snap_all(
    alloc: Global,
    map: &Map,
    grid: &i32,
    ids: &[NodeId],
) -> Result<Rows<Snapped>, OpFault>
    requires grid { IsGrid grid.now }
    requires brushes { (n : ℕ) → n ∈ ids.now → IsTrue (is_brush (whole map.now) n) }
    ensures { AreSnapped (whole map.now) grid.now ids.now result }
{
    let mut list = Vec::new(alloc);
    for id in ids {
        let one = snap_one(alloc, map, grid, *id)?;
        add(&mut list, one)?;
    }
    Ok(Rows::of(list))
}

fn add(list: &mut Vec<Snapped>, one: Snapped) -> Result<(), AllocError>
    ensures { OnOk result (list.new.items ≡ list.old.items ++ one ∷ []) }
{
    list.push(one)?;
    Ok(())
}

fn snap_one(alloc: Global, map: &Map, grid: &i32, id: NodeId) -> Result<Snapped, OpFault>
    requires grid { IsGrid grid.now }
    requires brush { IsTrue (is_brush (whole map.now) id) }
    ensures { IsSnapped (whole map.now) grid.now id result }
{
    let old = body_at(map, id);
    old.is_valid();
    match snap(alloc, old.solid(), *grid) {
        Ok(moved) => {
            let body = remade(alloc, old, moved)?;
            Ok(Snapped::Few(NewBody { id, body }))
        }
        Err(SnapFault::NoVolume) => Err(OpFault::No(Refusal::NoVolume(id.number()))),
        Err(SnapFault::TooManyFaces(count)) => Ok(Snapped::Many(id, count)),
        Err(SnapFault::Memory) => Err(OpFault::Memory),
    }
}
