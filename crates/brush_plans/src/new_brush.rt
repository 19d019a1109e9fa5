//! A new brush of the world.

ghost use Rattle.std.specs.Prelude.{◌≡◌};
ghost use Rattle.map_model.specs.Tree.{whole};
ghost use Rattle.brush_plans.specs.NewBrush.{IsPut};

use cmd_text::Reply;
use map_nodes::{Body, Node, NodeId};
use std::alloc::Global;
use tree_node::{Change, Map};
use tree_ops::{OpFault, Planned};

/// Plans a brush at the end of the world's brushes, with the next number: `Full` where there is none left. Nothing is said
/// where there is no memory for it.
pub fn put_brush(alloc: Global, map: &Map, body: Body) -> Result<Planned, OpFault>
    ensures { IsPut (whole map.now) body result }
{
    let mut change = Change::new(alloc, map);
    change.room(1)?;
    change.put_last(
        alloc,
        map,
        NodeId(0),
        Node::Brush {
            parent: NodeId(0),
            mark: None,
            body,
        },
    )?;
    change.tighten(map);
    let reply = Reply::Made {
        count: 1,
        first: map.next(),
    };
    Ok(Planned { change, reply })
}
