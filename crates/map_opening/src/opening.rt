//! Opens map files.

ghost use Rattle.std.specs.Prelude.{◌≡◌, ◌≢◌, ◌<◌, ◌-◌, ◌^◌, length, IfErr, IfOk};
ghost use Rattle.map_opening.specs.Faults.{fault_of};
ghost use Rattle.map_text.specs.declared.read_fault.ReadFault.TheVariants.{Memory};
ghost use Rattle.map_report.specs.declared.fault.MapFault.TheVariants.{Read};
ghost use Rattle.map_model.specs.Tree.{whole};
ghost use Rattle.map_opening.specs.Opening.{Opens, Refused, Tree};

use map_report::{MapFault, Note};
use map_text::{ReadFault, read_map};
use map_write::saved_is_read_again_law;
use std::alloc::Global;
use tree_file::{TreeFault, to_tree};
use tree_node::Map;

// Why a map is refused whose document builds no tree.
fn fault_of(fault: TreeFault) -> MapFault
    ensures { result ≡ fault_of fault }
{
    match fault {
        TreeFault::NoWorld => MapFault::NoWorld,
        TreeFault::NotBuilt => MapFault::NotBuilt,
        TreeFault::Full(count) => MapFault::Full(count),
        TreeFault::Memory => MapFault::Read(ReadFault::Memory),
    }
}

/// Opens the bytes of a map file: the map that they build, with notes on what was mended or left out.
///
/// `Read` comes where the bytes don't read as a map text, with the reader's fault. `NoWorld` comes where they do, and
/// there is no entity or the first isn't the world; `NotBuilt` where a group names a link set, or an entity protects
/// keys; `Full` where there would be more than 65,535 nodes, with their number. The first that holds is told. Want of
/// memory, for the document or for the map, is `Read(Memory)`.
pub fn open_map(alloc: Global, bytes: &[u8]) -> Result<(Map, Vec<Note>), MapFault>
    requires short { length bytes.now < 2 ^ 32 - 1 }
    ensures opened { IfOk result (λ r. Opens bytes.now (Tree (whole r.0) r.1.items)) }
    ensures refused { IfErr result (λ fault. (fault ≢ Read Memory) → Opens bytes.now (Refused fault)) }
{
    let doc = read_map(alloc, bytes).map_err(MapFault::Read)?;
    saved_is_read_again_law();
    to_tree(alloc, doc).map_err(fault_of)
}
