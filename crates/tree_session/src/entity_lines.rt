//! The listing of properties.

ghost use Rattle.std.specs.Prelude.{◌≡◌, ◌++◌, OnOk, slice_get};
ghost use Rattle.map_model.specs.Props.{is_text_among};
ghost use Rattle.map_model.specs.Listings.{entity_lines};
ghost use Rattle.tree_session.specs.Lines.{pair_text, pair_at};

use crate::listing::Listing;
use fixed_num::Text;
use map_nodes::{NodeId, Props};
use std::alloc::AllocError;

fn is_among(key: &[u8], protected: &[Text]) -> bool
    ensures { result ≡ is_text_among key.now protected.now }
{
    for text in protected {
        if key == text.bytes() {
            return true;
        }
    }
    false
}

fn put_pair(
    listing: &mut Listing,
    key: &[u8],
    value: &[u8],
    protected: bool,
) -> Result<(), AllocError>
    ensures { OnOk result (listing.new ≡ listing.old ++ pair_text key.now value.now protected) }
{
    listing.quoted(key)?;
    listing.put(b" ")?;
    listing.quoted(value)?;
    if protected {
        listing.put(b" protected\n")
    } else {
        listing.put(b"\n")
    }
}

// Adds the line of the pair at place k.
fn put_pair_at(
    listing: &mut Listing,
    props: &Props,
    protected: &[Text],
    k: usize,
) -> Result<(), AllocError>
    ensures { OnOk result (listing.new ≡ listing.old ++ pair_at protected.now (slice_get props.now k)) }
{
    match props.pair(k) {
        None => Ok(()),
        Some((key, value)) => put_pair(listing, key, value, is_among(key, protected)),
    }
}

/// Adds the lines of an entity or of the world: how many properties it has, and then each, told whether it is protected.
pub(crate) fn put_properties(
    listing: &mut Listing,
    id: NodeId,
    props: &Props,
    protected: &[Text],
) -> Result<(), AllocError>
    ensures { OnOk result (listing.new ≡ listing.old ++ entity_lines id props.now protected.now) }
{
    listing.put(b"entity ")?;
    listing.number(u64::from(id.number()))?;
    listing.put(b" ")?;
    listing.number(props.len() as u64)?;
    listing.put(b"\n")?;
    for k in 0..props.len() {
        put_pair_at(listing, props, protected, k)?;
    }
    Ok(())
}
