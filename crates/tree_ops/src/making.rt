//! The nodes that commands make.

ghost use Rattle.std.specs.Prelude.{◌≡◌, ◌++◌, [], ◌∷◌, None, false, IfOk, OnOk};
ghost use Rattle.std.specs.Fmt.{signed_decimal};
ghost use Rattle.map_model.specs.Tree.{Entity, Layer, Group};
ghost use Rattle.map_model.specs.Commands.{point_in};
ghost use Rattle.map_model.specs.Props.{classname, origin};
ghost use Rattle.map_model.specs.Own.{point_text};

use exact_geom::Rows;
use fixed_num::Text;
use itoa::Buffer;
use map_nodes::{Node, NodeId, Props};
use std::alloc::{AllocError, Global};

/// An entity of a class.
pub(crate) fn entity_of(alloc: Global, class: &[u8]) -> Result<Node, AllocError>
    ensures { IfOk result (λ node. node ≡ Entity 0 None ((classname, class.now) ∷ []) [] []) }
{
    let mut props = Props::new(alloc);
    props.set(alloc, b"classname", class)?;
    Ok(with_props(alloc, props))
}

/// An entity of a class with its origin at a point.
pub(crate) fn point_entity_of(alloc: Global, class: &[u8], at: [i32; 3]) -> Result<Node, AllocError>
    ensures { IfOk result (λ node. node ≡ Entity 0 None ((classname, class.now) ∷ (origin, point_text (point_in at)) ∷ []) [] []) }
{
    let text = point_text(alloc, at[0], at[1], at[2])?;
    let mut props = Props::new(alloc);
    props.set(alloc, b"classname", class)?;
    props.set(alloc, b"origin", &text)?;
    Ok(with_props(alloc, props))
}

// An entity of properties.
fn with_props(alloc: Global, props: Props) -> Node
    ensures { result ≡ Entity 0 None props [] [] }
{
    Node::Entity {
        parent: NodeId(0),
        mark: None,
        props,
        protected: Rows::of(Vec::new(alloc)),
        brushes: Rows::of(Vec::new(alloc)),
    }
}

// Three numbers with a blank between two.
fn point_text(alloc: Global, x: i32, y: i32, z: i32) -> Result<Vec<u8>, AllocError>
    ensures { IfOk result (λ text. text.items ≡ signed_decimal x ++ 32 ∷ (signed_decimal y ++ 32 ∷ signed_decimal z)) }
{
    let mut text = Vec::new(alloc);
    write_number(&mut text, x)?;
    text.push(b' ')?;
    write_number(&mut text, y)?;
    text.push(b' ')?;
    write_number(&mut text, z)?;
    Ok(text)
}

fn write_number(text: &mut Vec<u8>, number: i32) -> Result<(), AllocError>
    ensures { OnOk result (text.new.items ≡ text.old.items ++ signed_decimal number) }
{
    let mut buffer = Buffer::new();
    text.extend_from_slice(buffer.format(number).as_bytes())?;
    Ok(())
}

/// A layer of a name, not frozen.
pub(crate) fn layer_of(alloc: Global, name: &[u8]) -> Result<Node, AllocError>
    ensures { IfOk result (λ node. node ≡ Layer name.now false [] [] []) }
{
    Ok(Node::Layer {
        name: Text::of(alloc, name)?,
        frozen: false,
        props: Props::new(alloc),
        brushes: Rows::of(Vec::new(alloc)),
        others: Rows::of(Vec::new(alloc)),
    })
}

/// A group of a name, in no link set.
pub(crate) fn group_of(alloc: Global, name: &[u8]) -> Result<Node, AllocError>
    ensures { IfOk result (λ node. node ≡ Group 0 None name.now None [] [] []) }
{
    Ok(Node::Group {
        parent: NodeId(0),
        mark: None,
        name: Text::of(alloc, name)?,
        link: None,
        props: Props::new(alloc),
        brushes: Rows::of(Vec::new(alloc)),
        others: Rows::of(Vec::new(alloc)),
    })
}
