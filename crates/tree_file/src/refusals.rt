//! What a document's entities ask for: why there may be no tree.

ghost use Rattle.std.specs.Prelude.{◌≡◌, false, ◌&&◌, codes, nat_lt, length};
ghost use Rattle.std.specs.List.{list_any};
ghost use Rattle.std.specs.Option.{option_map_or};
ghost use Rattle.std.specs.Str.{bytes_eq};
ghost use Rattle.map_model.specs.Props.{value_at, has_key, classname};
ghost use Rattle.file_laws.specs.Build.{begins_with_world};
ghost use Rattle.tree_file.specs.Promises.{asks_for_links};

use crate::kinds::value_of;
use fixed_num::Text;
use map_text::RawEntity;

// Whether the `classname` is that of the world.
fn is_world(props: &[(Text, Text)]) -> bool
    ensures { result ≡ option_map_or (λ class. bytes_eq class (codes "worldspawn")) (value_at classname props.now) false }
{
    match value_of(b"classname", props) {
        Some(class) => class == b"worldspawn".as_slice(),
        None => false,
    }
}

/// Whether the first entity is the world.
pub(crate) fn begins_with_world(entities: &[RawEntity]) -> bool
    ensures { result ≡ begins_with_world entities.now }
{
    match entities {
        [] => false,
        [first, ..] => is_world(first.props.list()),
    }
}

// Whether the type is that of a group.
fn is_group_type(props: &[(Text, Text)]) -> bool
    ensures { result ≡ option_map_or (λ type. bytes_eq type (codes "_tb_group")) (value_at (codes "_tb_type") props.now) false }
{
    match value_of(b"_tb_type", props) {
        Some(text) => text == b"_tb_group".as_slice(),
        None => false,
    }
}

// Whether a link set is named.
fn names_set(props: &[(Text, Text)]) -> bool
    ensures { result ≡ option_map_or (λ text. nat_lt 0 (length text)) (value_at (codes "_tb_linked_group_id") props.now) false }
{
    match value_of(b"_tb_linked_group_id", props) {
        Some(text) => text.len() > 0,
        None => false,
    }
}

// Whether keys are protected.
fn protects(props: &[(Text, Text)]) -> bool
    ensures { result ≡ has_key (codes "_tb_protected_properties") props.now }
{
    value_of(b"_tb_protected_properties", props).is_some()
}

fn asks_for_links(entity: &RawEntity) -> bool
    ensures { result ≡ asks_for_links entity.now }
{
    let props = entity.props.list();
    protects(props) || (is_group_type(props) && names_set(props))
}

/// Whether an entity names a link set or protects keys.
pub(crate) fn has_links(entities: &[RawEntity]) -> bool
    ensures { result ≡ list_any asks_for_links entities.now }
{
    for entity in entities {
        if asks_for_links(entity) {
            return true;
        }
    }
    false
}
