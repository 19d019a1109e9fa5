//! The rows on keys of properties.

ghost use Rattle.std.specs.Prelude.{◌≡◌, ◌&&◌, ◌||◌, ◌==◌, not, IsTrue};
ghost use Rattle.std.specs.Str.{bytes_eq};
ghost use Rattle.tree_ops.specs.TreeCommands.{is_tree_command};
ghost use Rattle.map_model.specs.Tree.{whole, props_at, props_of};
ghost use Rattle.map_model.specs.Props.{is_file_key, has_key, classname};
ghost use Rattle.map_model.specs.Rows.{refuse, reserved_key, no_key};
ghost use Rattle.map_model.specs.Replies.{ReservedKey, NoKey};
ghost use Rattle.tree_ops.specs.Passing.{passes};

use cmd_text::{Command, Refusal};
use key_table::file_keys;
use map_nodes::{Node, NodeId};
use tree_node::Map;

/// Whether the program keeps the key that the command gives or takes for itself.
pub(crate) fn reserved_key(c: &Command) -> Result<(), Refusal>
    requires { IsTrue (is_tree_command c.now) }
    ensures { result ≡ passes (reserved_key c.now) }
{
    match c {
        Command::Set { node, key, .. } => key_to_set(*node, key.bytes()),
        Command::Unset { node, key } => key_to_unset(*node, key.bytes()),
        _ => Ok(()),
    }
}

/// Whether the key of `set` can be set at this node: it is none that the files have for themselves, and at the world it isn't `classname`.
pub fn key_to_set(node: u32, key: &[u8]) -> Result<(), Refusal>
    ensures { result ≡ passes (refuse (is_file_key key.now || (node == 0 && bytes_eq key.now classname)) (ReservedKey node)) }
{
    if is_file_key(key) || (node == 0 && is_classname(key)) {
        Err(Refusal::ReservedKey(node))
    } else {
        Ok(())
    }
}

/// Whether the key of `unset` can be taken out: it is none that the files have for themselves, and not `classname`.
pub fn key_to_unset(node: u32, key: &[u8]) -> Result<(), Refusal>
    ensures { result ≡ passes (refuse (is_file_key key.now || bytes_eq key.now classname) (ReservedKey node)) }
{
    if is_file_key(key) || is_classname(key) {
        Err(Refusal::ReservedKey(node))
    } else {
        Ok(())
    }
}

fn is_file_key(key: &[u8]) -> bool
    ensures { result ≡ is_file_key key.now }
{
    file_keys().find(key).is_some()
}

fn is_classname(key: &[u8]) -> bool
    ensures { result ≡ bytes_eq key.now classname }
{
    key == b"classname".as_slice()
}

/// Whether the key that the command takes is there.
pub(crate) fn no_key(map: &Map, c: &Command) -> Result<(), Refusal>
    requires { IsTrue (is_tree_command c.now) }
    ensures { result ≡ passes (no_key (whole map.now) c.now) }
{
    match c {
        Command::Unset { node, key } => key_is_there(map, *node, key.bytes()),
        _ => Ok(()),
    }
}

fn key_is_there(map: &Map, node: u32, key: &[u8]) -> Result<(), Refusal>
    ensures { result ≡ passes (refuse (not (has_key key.now (props_at (whole map.now) node))) (NoKey node)) }
{
    if has_key(map, NodeId(node), key) {
        Ok(())
    } else {
        Err(Refusal::NoKey(node))
    }
}

fn has_key(map: &Map, id: NodeId, key: &[u8]) -> bool
    ensures { result ≡ has_key key.now (props_at (whole map.now) id) }
{
    match map.get(id) {
        None => false,
        Some(node) => node_has_key(node, key),
    }
}

fn node_has_key(node: &Node, key: &[u8]) -> bool
    ensures { result ≡ has_key key.now (props_of node.now) }
{
    match node {
        Node::World { props, .. } => props.value(key).is_some(),
        Node::Layer { props, .. } => props.value(key).is_some(),
        Node::Group { props, .. } => props.value(key).is_some(),
        Node::Entity { props, .. } => props.value(key).is_some(),
        Node::Brush { .. } => false,
    }
}
