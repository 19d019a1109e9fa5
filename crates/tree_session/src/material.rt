//! The material of a face in a listing.

ghost use Rattle.std.specs.Prelude.{◌≡◌, ◌++◌, OnOk};
ghost use Rattle.std.specs.List.{list_any};
ghost use Rattle.map_lex.specs.Bytes.{begins_comment, is_blank};
ghost use Rattle.map_lex.specs.OneToken.{needs_quotes};
ghost use Rattle.map_write.specs.Written.{material_symbol, written};

use crate::listing::Listing;
use std::alloc::AllocError;

fn is_blank(byte: u8) -> bool
    ensures { result ≡ is_blank byte }
{
    matches!(byte, b' ' | b'\t' | b'\r' | b'\n')
}

fn has_blank(material: &[u8]) -> bool
    ensures { result ≡ list_any is_blank material.now }
{
    material.iter().any(|byte| is_blank(*byte))
}

fn begins_comment(material: &[u8]) -> bool
    ensures { result ≡ begins_comment material.now }
{
    matches!(material, [b'/', b'/', ..])
}

fn needs_quotes(material: &[u8]) -> bool
    ensures { result ≡ needs_quotes material.now }
{
    material.is_empty() || has_blank(material) || begins_comment(material)
}

/// Adds a material as a saved text has it: between quotes where a word can't be it.
pub(crate) fn put_material(listing: &mut Listing, material: &[u8]) -> Result<(), AllocError>
    ensures { OnOk result (listing.new ≡ listing.old ++ written (material_symbol material.now)) }
{
    if needs_quotes(material) {
        listing.quoted(material)
    } else {
        listing.put(material)
    }
}
