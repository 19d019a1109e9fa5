//! Lists of keys with values, as documents have them.

ghost use Rattle.std.specs.Prelude.{◌≡◌, [], ◌∷◌, ◌++◌, OnOk};
ghost use Rattle.std.specs.Fmt.{decimal};

use fixed_num::Text;
use itoa::Buffer;
use map_nodes::Props;
use std::alloc::{AllocError, Global};

/// Appends a key with its value.
pub(crate) fn push_pair(
    alloc: Global,
    pairs: &mut Vec<(Text, Text)>,
    key: &[u8],
    value: &[u8],
) -> Result<(), AllocError>
    ensures { OnOk result (pairs.new.items ≡ pairs.old.items ++ (key.now, value.now) ∷ []) }
{
    pairs.push((Text::of(alloc, key)?, Text::of(alloc, value)?))?;
    Ok(())
}

/// Appends a key whose value is a number.
pub(crate) fn push_number(
    alloc: Global,
    pairs: &mut Vec<(Text, Text)>,
    key: &[u8],
    number: u32,
) -> Result<(), AllocError>
    ensures { OnOk result (pairs.new.items ≡ pairs.old.items ++ (key.now, decimal number) ∷ []) }
{
    let mut buffer = Buffer::new();
    push_pair(alloc, pairs, key, buffer.format(number).as_bytes())
}

/// Appends all of the properties.
pub(crate) fn push_props(
    alloc: Global,
    pairs: &mut Vec<(Text, Text)>,
    props: &Props,
) -> Result<(), AllocError>
    ensures { OnOk result (pairs.new.items ≡ pairs.old.items ++ props.now) }
{
    for k in 0..props.len() {
        match props.pair(k) {
            Some((key, value)) => push_pair(alloc, pairs, key, value)?,
            None => {}
        }
    }
    Ok(())
}
