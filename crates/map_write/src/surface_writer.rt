//! Writes the surface numbers of a face.

ghost use Rattle.std.specs.Prelude.{◌≡◌, ◌++◌, OnOk};
ghost use Rattle.map_write.specs.Written.{surface_end};

use crate::numbers::{write_bits, write_micro_number};
use std::alloc::AllocError;
use uv_lock::Surface;

/// Appends the surface numbers where there are some, with a space before each.
pub(crate) fn write_surface(text: &mut Vec<u8>, surface: Option<Surface>) -> Result<(), AllocError>
    ensures { OnOk result (text.new.items ≡ text.old.items ++ surface_end surface) }
{
    let Some(surface) = surface else {
        return Ok(());
    };
    text.push(b' ')?;
    write_bits(text, surface.contents)?;
    text.push(b' ')?;
    write_bits(text, surface.flags)?;
    text.push(b' ')?;
    write_micro_number(text, surface.value)?;
    Ok(())
}
