//! What a map holds.

ghost use Rattle.std.specs.Prelude.{◌≡◌, ◌==◌, ◌&&◌, is_some, not};
ghost use Rattle.map_model.specs.Tree.{whole, at, format_of, is_brush};
ghost use Rattle.map_model.specs.Counts.{node_count, brush_count};
ghost use Rattle.map_opening.specs.Opening.{summary_of};

use map_nodes::{Node, NodeId};
use map_report::Summary;
use tree_node::Map;
use uv_lock::Format;

fn format_of(map: &Map) -> Format
    ensures { result ≡ format_of (whole map.now) }
{
    match map.get(NodeId(0)) {
        Some(Node::World { format, .. }) => *format,
        _ => Format::Standard,
    }
}

// Whether a node but the world has the number.
fn is_counted(map: &Map, number: u32) -> bool
    ensures { result ≡ (is_some (at (whole map.now) number) && not (number == 0)) }
{
    map.get(NodeId(number)).is_some() && number != 0
}

fn node_count(map: &Map) -> u32
    ensures { result ≡ node_count (whole map.now) }
{
    let mut count = 0;
    for number in 0..map.next() {
        if is_counted(map, number) {
            count += 1;
        }
    }
    count
}

fn is_brush(map: &Map, number: u32) -> bool
    ensures { result ≡ is_brush (whole map.now) number }
{
    match map.get(NodeId(number)) {
        Some(node) => node.is_brush(),
        None => false,
    }
}

fn brush_count(map: &Map) -> u32
    ensures { result ≡ brush_count (whole map.now) }
{
    let mut count = 0;
    for number in 0..map.next() {
        if is_brush(map, number) {
            count += 1;
        }
    }
    count
}

/// What a map holds: its format, its nodes but the world, the brushes among them, and its link sets, of which no map has
/// any yet. It takes no memory.
pub fn summary(map: &Map) -> Summary
    ensures { result ≡ summary_of (whole map.now) }
{
    map.is_map();
    Summary::Map {
        format: format_of(map),
        nodes: node_count(map),
        brushes: brush_count(map),
        links: 0,
    }
}
