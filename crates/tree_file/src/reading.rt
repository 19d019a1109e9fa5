//! What each entity of a document says by itself.

ghost use Rattle.std.specs.Prelude.{◌≡◌, ◌<◌, ◌^◌, ◌+◌, ℕ, Bool, true, false, cond, not, ◌&&◌, ◌||◌, length, map, filter, option_map, option_and_then, unwrap_or, None, IfOk, OnOk, IsTrue, codes, option_copied};
ghost use Rattle.std.specs.List.{list_all, list_any};
ghost use Rattle.std.specs.Str.{bytes_eq};
ghost use Rattle.map_text.specs.Meaning.{put_property, value_of_key};
ghost use Rattle.map_text.specs.Spelled.{is_spelled_entity, is_spelled_brush, keys_are_distinct};
ghost use Rattle.map_model.specs.Tree.{group, layer, has_kind, kind_of};
ghost use Rattle.map_model.specs.Props.{has_key};
ghost use Rattle.map_model.specs.Below.{Below, IsRight};
ghost use Rattle.file_laws.specs.FileLeaves.{file_leaves};
ghost use Rattle.file_laws.specs.Readings.{reading, readings_from, stays, kept_props, node_in, text_in, is_locked, id_in, is_named, is_placed, judged};
ghost use Rattle.tree_file.specs.Kinds.{kind_of_part};
ghost use Rattle.tree_file.specs.Promises.{asks_for_links};

use crate::judged::judge;
use crate::kinds::{Part, is_taken, part_in, value_of};
use crate::numbers::read_id;
use exact_geom::Rows;
use fixed_num::Text;
use map_nodes::{Body, Node, NodeId, Props};
use map_text::{RawBrush, RawEntity, Reason};
use std::alloc::{AllocError, Global};
use std::marker::Model;
use uv_lock::Format;

/// What an entity of a file says by itself. Its place counts from 0, and its node has no parent and no children yet.
#[derive(Drop)]
pub(crate) struct Reading {
    place: u32,
    node: Node,
    // Its own id, of a layer or a group.
    id: Option<u32>,
    // The ids that a group's or an entity's keys name, and whether it has such a key at all.
    in_group: Option<u32>,
    in_layer: Option<u32>,
    names_parent: bool,
    // Its brushes, or why they are none of a map.
    brushes: Vec<Result<Body, Reason>>,
}

impl Model for Reading {
    ghost use Rattle.std.specs.Prelude.{None};
    ghost use Rattle.file_laws.specs.Readings.{Reading as PlainReading};

    ghost Value = { PlainReading };

    ghost view = { λ r. record { place = r.place; node = r.node; id = r.id; in_group = r.in_group; in_layer = r.in_layer; names_parent = r.names_parent; set = None; motion = None; brushes = r.brushes.items } };
}

impl Reading {
    /// The place in the file.
    pub(crate) fn place(&self) -> u32
        ensures { result ≡ self.now.place }
    {
        self.place
    }

    /// Its own id.
    pub(crate) fn id(&self) -> Option<u32>
        ensures { result ≡ self.now.id }
    {
        self.id
    }

    /// The id that it names as that of its group.
    pub(crate) fn in_group(&self) -> Option<u32>
        ensures { result ≡ self.now.in_group }
    {
        self.in_group
    }

    /// The id that it names as that of its layer.
    pub(crate) fn in_layer(&self) -> Option<u32>
        ensures { result ≡ self.now.in_layer }
    {
        self.in_layer
    }

    /// Whether it has a key that tells its parent.
    pub(crate) fn names_parent(&self) -> bool
        ensures { result ≡ self.now.names_parent }
    {
        self.names_parent
    }

    /// Whether it is a group.
    pub(crate) fn is_group(&self) -> bool
        ensures { result ≡ has_kind group self.now.node }
    {
        match &self.node {
            Node::World { .. } => false,
            Node::Layer { .. } => false,
            Node::Group { .. } => true,
            Node::Entity { .. } => false,
            Node::Brush { .. } => false,
        }
    }

    /// Whether it is a layer.
    pub(crate) fn is_layer(&self) -> bool
        ensures { result ≡ has_kind layer self.now.node }
    {
        match &self.node {
            Node::World { .. } => false,
            Node::Layer { .. } => true,
            Node::Group { .. } => false,
            Node::Entity { .. } => false,
            Node::Brush { .. } => false,
        }
    }

    /// Whether it is of a kind that has an id.
    pub(crate) fn is_named(&self) -> bool
        ensures { result ≡ is_named (kind_of self.now.node) }
    {
        match &self.node {
            Node::World { .. } => false,
            Node::Layer { .. } => true,
            Node::Group { .. } => true,
            Node::Entity { .. } => false,
            Node::Brush { .. } => false,
        }
    }

    /// Its brushes, or why they are none of a map.
    pub(crate) fn brushes(&self) -> &[Result<Body, Reason>]
        ensures { result.now ≡ self.now.brushes }
    {
        &self.brushes
    }

    /// Its node, and its brushes or why they are none.
    pub(crate) fn into_parts(self) -> (Node, Vec<Result<Body, Reason>>)
        ensures node { result.0 ≡ self.node }
        ensures brushes { result.1.items ≡ self.brushes }
    {
        let Reading { node, brushes, .. } = self;
        (node, brushes)
    }
}

// Puts a property in, if it stays.
fn keep_pair(part: Part, kept: &mut Props, key: Text, value: Text) -> Result<(), AllocError>
    ensures { OnOk result (kept.new ≡ cond (stays (kind_of_part part) (key, value)) (put_property key value kept.old) kept.old) }
{
    if is_taken(part, key.bytes()) {
        return Ok(());
    }
    kept.put(key, value)
}

// The properties that stay.
fn kept_props(alloc: Global, part: Part, props: Rows<(Text, Text)>) -> Result<Props, AllocError>
    requires distinct { IsTrue (keys_are_distinct props) }
    ensures { IfOk result (λ kept. kept ≡ kept_props (kind_of_part part) props) }
{
    let mut kept = Props::new(alloc);
    for (key, value) in props.into_vec() {
        keep_pair(part, &mut kept, key, value)?;
    }
    Ok(kept)
}

// The text of a key. An absent one is empty.
fn text_in<'a>(key: &[u8], props: &'a [(Text, Text)]) -> &'a [u8]
    ensures { result.now ≡ text_in key.now props.now }
{
    match value_of(key, props) {
        Some(text) => text,
        None => &[],
    }
}

fn is_locked(props: &[(Text, Text)]) -> bool
    ensures { result ≡ is_locked props.now }
{
    text_in(b"_tb_layer_locked", props) == b"1".as_slice()
}

// The node of an entity that protects no keys.
fn node_in(
    alloc: Global,
    format: Format,
    part: Part,
    props: Rows<(Text, Text)>,
) -> Result<Node, AllocError>
    requires distinct { IsTrue (keys_are_distinct props) }
    requires plain { value_of_key (codes "_tb_protected_properties") props ≡ None }
    ensures { IfOk result (λ node. node ≡ node_in format props (kind_of_part part)) }
{
    match part {
        Part::World => Ok(Node::World {
            format,
            props: kept_props(alloc, part, props)?,
            brushes: Rows::of(Vec::new(alloc)),
            others: Rows::of(Vec::new(alloc)),
        }),
        Part::Layer => Ok(Node::Layer {
            name: Text::of(alloc, text_in(b"_tb_name", props.list()))?,
            frozen: is_locked(props.list()),
            props: kept_props(alloc, part, props)?,
            brushes: Rows::of(Vec::new(alloc)),
            others: Rows::of(Vec::new(alloc)),
        }),
        Part::Group => Ok(Node::Group {
            parent: NodeId(0),
            mark: None,
            name: Text::of(alloc, text_in(b"_tb_name", props.list()))?,
            link: None,
            props: kept_props(alloc, part, props)?,
            brushes: Rows::of(Vec::new(alloc)),
            others: Rows::of(Vec::new(alloc)),
        }),
        Part::Entity => Ok(Node::Entity {
            parent: NodeId(0),
            mark: None,
            props: kept_props(alloc, part, props)?,
            protected: Rows::of(Vec::new(alloc)),
            brushes: Rows::of(Vec::new(alloc)),
        }),
    }
}

// The id that the value of a key spells.
fn id_in(key: &[u8], props: &[(Text, Text)]) -> Option<u32>
    ensures { result ≡ id_in key.now props.now }
{
    match value_of(key, props) {
        Some(text) => read_id(text),
        None => None,
    }
}

// Layers and groups have an id of their own.
fn own_id(part: Part, props: &[(Text, Text)]) -> Option<u32>
    ensures { result ≡ cond (is_named (kind_of_part part)) (id_in (codes "_tb_id") props.now) None }
{
    match part {
        Part::World => None,
        Part::Layer => id_in(b"_tb_id", props),
        Part::Group => id_in(b"_tb_id", props),
        Part::Entity => None,
    }
}

// Whether an entity's keys may tell its parent.
fn is_placed(part: Part) -> bool
    ensures { result ≡ is_placed (kind_of_part part) }
{
    match part {
        Part::World => false,
        Part::Layer => false,
        Part::Group => true,
        Part::Entity => true,
    }
}

// The id that a key of a group or of an entity names.
fn named_id(part: Part, key: &[u8], props: &[(Text, Text)]) -> Option<u32>
    ensures { result ≡ cond (is_placed (kind_of_part part)) (id_in key.now props.now) None }
{
    if is_placed(part) {
        id_in(key, props)
    } else {
        None
    }
}

fn has_key(key: &[u8], props: &[(Text, Text)]) -> bool
    ensures { result ≡ has_key key.now props.now }
{
    value_of(key, props).is_some()
}

// Whether a group or an entity has a key that tells its parent.
fn names_parent(part: Part, props: &[(Text, Text)]) -> bool
    ensures { result ≡ (is_placed (kind_of_part part) && (has_key (codes "_tb_group") props.now || has_key (codes "_tb_layer") props.now)) }
{
    is_placed(part) && (has_key(b"_tb_group", props) || has_key(b"_tb_layer", props))
}

// The brushes of a map, and why the others are none.
fn judge_all(alloc: Global, brushes: Vec<RawBrush>) -> Result<Vec<Result<Body, Reason>>, AllocError>
    requires spelled { IsTrue (list_all is_spelled_brush brushes.items) }
    ensures { IfOk result (λ outcomes. (b : Below) → IsRight b → map (judged (file_leaves b)) brushes.items ≡ outcomes.items) }
{
    let mut outcomes = Vec::with_capacity(alloc, brushes.len())?;
    for brush in brushes {
        outcomes.push(judge(alloc, brush)?)?;
    }
    Ok(outcomes)
}

// What an entity at a place says by itself.
fn read_entity(
    alloc: Global,
    format: Format,
    place: u32,
    raw: RawEntity,
) -> Result<Reading, AllocError>
    requires spelled { IsTrue (is_spelled_entity raw) }
    requires plain { asks_for_links raw ≡ false }
    ensures { IfOk result (λ r. (b : Below) → IsRight b → reading (file_leaves b) format place raw ≡ r) }
{
    let RawEntity { props, brushes } = raw;
    let outcomes = judge_all(alloc, brushes.into_vec())?;
    let pairs = props.list();
    let part = part_in(place, pairs);
    Ok(Reading {
        place,
        id: own_id(part, pairs),
        in_group: named_id(part, b"_tb_group", pairs),
        in_layer: named_id(part, b"_tb_layer", pairs),
        names_parent: names_parent(part, pairs),
        brushes: outcomes,
        node: node_in(alloc, format, part, props)?,
    })
}

/// What each entity of a document says by itself, in order.
pub(crate) fn read_entities(
    alloc: Global,
    format: Format,
    entities: Vec<RawEntity>,
) -> Result<Vec<Reading>, AllocError>
    requires few { length entities.items < 2 ^ 32 }
    requires spelled { IsTrue (list_all is_spelled_entity entities.items) }
    requires plain { list_any asks_for_links entities.items ≡ false }
    ensures { IfOk result (λ readings. (b : Below) → IsRight b → readings_from (file_leaves b) format 0 entities.items ≡ readings.items) }
{
    let mut readings = Vec::with_capacity(alloc, entities.len())?;
    let mut place: u32 = 0;
    for raw in entities {
        readings.push(read_entity(alloc, format, place, raw)?)?;
        place += 1;
    }
    Ok(readings)
}
