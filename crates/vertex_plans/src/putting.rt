//! Brushes with other faces, put in place.

ghost use Rattle.std.specs.Prelude.{◌≡◌, ◌++◌, [], ◌∷◌, IfOk, OnOk};
ghost use Rattle.map_model.specs.Tree.{whole};
ghost use Rattle.map_model.specs.Edits.{each_in_turn};
ghost use Rattle.map_model.specs.Replies.{Done};
ghost use Rattle.tree_node.specs.Held.{changed};
ghost use Rattle.cut_plans.specs.Ending.{Ends};
ghost use Rattle.vertex_plans.specs.Putting.{put_body};

use cmd_text::Reply;
use map_nodes::{Body, NodeId};
use std::alloc::{AllocError, Global};
use tree_node::{Change, Map};
use tree_ops::{OpFault, Planned, prune};

/// A brush and the faces that it gets.
#[derive(Drop)]
pub(crate) struct NewBody {
    pub(crate) id: NodeId,
    pub(crate) body: Body,
}

/// One such brush.
pub(crate) fn one(alloc: Global, id: NodeId, body: Body) -> Result<Vec<NewBody>, AllocError>
    ensures { IfOk result (λ list. list.items ≡ record { id = id; body = body } ∷ []) }
{
    let mut list = Vec::new(alloc);
    list.push(NewBody { id, body })?;
    Ok(list)
}

/// Plans brushes with other faces.
pub(crate) fn put_all(
    alloc: Global,
    map: &Map,
    ids: &[NodeId],
    bodies: Vec<NewBody>,
) -> Result<Planned, OpFault>
    ensures { Ends (whole map.now) ids.now (each_in_turn put_body bodies.items (whole map.now)) 0 Done result }
{
    let mut change = Change::new(alloc, map);
    change.room(0)?;
    put_bodies(alloc, map, &mut change, bodies)?;
    prune(alloc, map, &mut change, ids)?;
    change.tighten(map);
    Ok(Planned {
        change,
        reply: Reply::Ok,
    })
}

// Gives the brushes their faces, one after another.
fn put_bodies(
    alloc: Global,
    map: &Map,
    change: &mut Change,
    bodies: Vec<NewBody>,
) -> Result<(), AllocError>
    ensures { OnOk result (changed map.now change.new ≡ each_in_turn put_body bodies.items (changed map.now change.old)) }
{
    for remade in bodies {
        put_one(alloc, map, change, remade)?;
    }
    Ok(())
}

fn put_one(alloc: Global, map: &Map, change: &mut Change, new: NewBody) -> Result<(), AllocError>
    ensures { OnOk result (changed map.now change.new ≡ put_body new (changed map.now change.old)) }
{
    let NewBody { id, body } = new;
    change.put_body(alloc, map, id, body)
}
