//! The names of materials.

ghost use Rattle.std.specs.Prelude.{◌≡◌, ◌++◌, OnOk, map};
ghost use Rattle.obj_export.specs.Text.{parts_words, name_byte, material_name};

use std::alloc::AllocError;

// Whether the byte would part a name into words.
fn parts_words(byte: u8) -> bool
    ensures { result ≡ parts_words byte }
{
    matches!(byte, b' ' | b'\t' | b'\r')
}

fn name_byte(byte: u8) -> u8
    ensures { result ≡ name_byte byte }
{
    if parts_words(byte) { b'_' } else { byte }
}

fn put_bytes(text: &mut Vec<u8>, material: &[u8]) -> Result<(), AllocError>
    ensures { OnOk result (text.new.items ≡ text.old.items ++ map name_byte material.now) }
{
    for byte in material {
        text.push(name_byte(*byte))?;
    }
    Ok(())
}

/// Adds a material as one word.
pub(crate) fn put_name(text: &mut Vec<u8>, material: &[u8]) -> Result<(), AllocError>
    ensures { OnOk result (text.new.items ≡ text.old.items ++ material_name material.now) }
{
    if material.is_empty() {
        text.extend_from_slice(b"__TB_empty")
    } else {
        put_bytes(text, material)
    }
}
