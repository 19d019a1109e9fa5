//! A brush some of whose vertices move.

ghost use Rattle.std.specs.Prelude.{◌≡◌, ◌<◌, ◌^◌, length};
ghost use Rattle.vertex_edit.specs.Places.{IsSmall};
ghost use Rattle.vertex_plans.specs.Moves.{IsMovedBody, pick_of, why};

use crate::on_facets::remade;
use cmd_text::Refusal;
use exact_geom::Point;
use map_nodes::{Body, NodeId};
use std::alloc::Global;
use tree_ops::OpFault;
use vertex_edit::{MoveFault, move_vertices};

// Why a command that moves vertices of the brush is refused.
fn why(id: NodeId, fault: MoveFault) -> OpFault
    requires few { pick_of fault < 2 ^ 32 }
    ensures { result ≡ why id fault }
{
    let node = id.number();
    match fault {
        MoveFault::NoVertex(k) => OpFault::No(Refusal::NoVertex(k as u32)),
        MoveFault::Fractional => OpFault::No(Refusal::FractionalVertex(node)),
        MoveFault::PointRange(k) => OpFault::No(Refusal::PointRange(node, k as u32)),
        MoveFault::NoVolume => OpFault::No(Refusal::NoVolume(node)),
        MoveFault::TooManyFaces(n) => OpFault::No(Refusal::TooManyFaces(node, n)),
        MoveFault::OutOfWorld => OpFault::No(Refusal::OutOfWorld(node)),
        MoveFault::Memory => OpFault::Memory,
    }
}

/// The brush whose picked vertices are moved by the shift, or the first row on its vertices that refuses it.
pub(crate) fn moved_body(
    alloc: Global,
    body: &Body,
    id: NodeId,
    shift: [i32; 3],
    picks: &[Point],
) -> Result<Body, OpFault>
    requires small { IsSmall shift }
    requires few { length picks.now < 4096 }
    ensures { IsMovedBody body.now id shift picks.now result }
{
    body.is_valid();
    match move_vertices(alloc, body.solid(), picks, shift) {
        Ok(moved) => Ok(remade(alloc, body, moved)?),
        Err(fault) => Err(why(id, fault)),
    }
}
