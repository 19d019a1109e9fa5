//! What kind of node an entity of a file is, and which of its keys are taken out.

ghost use Rattle.std.specs.Prelude.{◌≡◌, option_map};
ghost use Rattle.map_model.specs.Shape.{taken_keys};
ghost use Rattle.map_model.specs.Props.{is_text_among};
ghost use Rattle.map_text.specs.Meaning.{value_of_key};
ghost use Rattle.file_laws.specs.Readings.{kind_in, kind_of_type};
ghost use Rattle.map_model.specs.Tree.{world, layer, group, entity};
ghost use Rattle.tree_file.specs.Kinds.{kind_of_part};

use fixed_num::Text;

/// What an entity of a file is.
#[derive(Clone, Copy, Debug, PartialEq, Eq)]
pub(crate) enum Part {
    World,
    Layer,
    Group,
    Entity,
}

/// The value of a key.
pub(crate) fn value_of<'a>(key: &[u8], props: &'a [(Text, Text)]) -> Option<&'a [u8]>
    ensures { option_map (λ text. text.now) result ≡ value_of_key key.now props.now }
{
    'props: for (name, value) in props {
        if name.bytes() == key {
            return Some(value.bytes());
        }
    }
    None
}

fn part_of_type(text: &[u8]) -> Part
    ensures { kind_of_part result ≡ kind_of_type text.now }
{
    if text == b"_tb_layer".as_slice() {
        return Part::Layer;
    }
    if text == b"_tb_group".as_slice() {
        return Part::Group;
    }
    Part::Entity
}

/// The first entity is the world. Another is a layer or a group where its type says so, and else an entity.
pub(crate) fn part_in(place: u32, props: &[(Text, Text)]) -> Part
    ensures { kind_of_part result ≡ kind_in place props.now }
{
    if place == 0 {
        return Part::World;
    }
    match value_of(b"_tb_type", props) {
        Some(text) => part_of_type(text),
        None => Part::Entity,
    }
}

/// Whether a key is taken out of the properties.
pub(crate) fn is_taken(part: Part, key: &[u8]) -> bool
    ensures { result ≡ is_text_among key.now (taken_keys (kind_of_part part)) }
{
    match part {
        Part::World => is_of_world(key),
        Part::Layer => is_of_layer(key),
        Part::Group => is_of_group(key),
        Part::Entity => is_of_entity(key),
    }
}

fn is_of_world(key: &[u8]) -> bool
    ensures { result ≡ is_text_among key.now (taken_keys world) }
{
    key == b"classname".as_slice() || key == b"mapversion".as_slice()
}

fn is_of_layer(key: &[u8]) -> bool
    ensures { result ≡ is_text_among key.now (taken_keys layer) }
{
    key == b"classname".as_slice()
        || key == b"_tb_type".as_slice()
        || key == b"_tb_name".as_slice()
        || key == b"_tb_id".as_slice()
        || key == b"_tb_layer_locked".as_slice()
}

fn is_of_group(key: &[u8]) -> bool
    ensures { result ≡ is_text_among key.now (taken_keys group) }
{
    key == b"classname".as_slice()
        || key == b"_tb_type".as_slice()
        || key == b"_tb_name".as_slice()
        || key == b"_tb_id".as_slice()
        || key == b"_tb_layer".as_slice()
        || key == b"_tb_group".as_slice()
        || key == b"_tb_linked_group_id".as_slice()
        || key == b"_tb_transformation".as_slice()
}

fn is_of_entity(key: &[u8]) -> bool
    ensures { result ≡ is_text_among key.now (taken_keys entity) }
{
    key == b"_tb_layer".as_slice()
        || key == b"_tb_group".as_slice()
        || key == b"_tb_protected_properties".as_slice()
}
