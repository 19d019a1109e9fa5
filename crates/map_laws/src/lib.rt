//! Laws of whole maps: what the edits keep, and that a map after a command has the shape of maps again, where no group is linked.
//!
//! A crate whose code makes the change of a command cites them: it shows that its change leads to the map of the definitions, and a law here
//! says what that map keeps. They cover the commands that change the tree, that move or copy nodes, and that make or remake brushes; for
//! those that change geometry the tests on solids are to be right. There is no code that runs: the functions are empty, and each states a law as its
//! `ensures`, which is proved in `proofs/`.
#![tactic(auto)]

ghost use Rattle.map_laws.specs.BoxCommand.{MaterialLaw, BoxRowsLaw, BoxApplyLaw, BoxCommandLaw};
ghost use Rattle.map_laws.specs.Walking.{WalksLaw};
ghost use Rattle.map_laws.specs.Editing.{PutLastLaw, MoveLaw, DeleteLaw, ReplaceLaw, PutAfterLaw, CopyLaw, RenewLaw, PruneLaw};
ghost use Rattle.map_laws.specs.MovingCommands.{MovingRowsLaw, MovingApplyLaw, MovingCommandLaw};
ghost use Rattle.map_laws.specs.Reshaping.{ReshapingRowsLaw, ReshapingApplyLaw, ReshapingCommandLaw};
ghost use Rattle.map_laws.specs.TreeCommands.{UnlinkedApplyLaw, UnlinkedRowsLaw, TreeCommandLaw};

/// What stands above and beneath a node is found with the fuel that there is.
pub fn walks_law()
    ensures { WalksLaw }
{}

/// A new node stands at the end of another.
pub fn put_last_law()
    ensures { PutLastLaw }
{}

/// A node goes to the end of another.
pub fn move_law()
    ensures { MoveLaw }
{}

/// A node goes with all beneath it.
pub fn delete_law()
    ensures { DeleteLaw }
{}

/// New brushes stand in the place of one.
pub fn replace_law()
    ensures { ReplaceLaw }
{}

/// A new brush stands directly after one.
pub fn put_after_law()
    ensures { PutAfterLaw }
{}

/// A copy of a node with all beneath it stands at the end of another.
pub fn copy_law()
    ensures { CopyLaw }
{}

/// A part is changed that no other node sees.
pub fn renew_law()
    ensures { RenewLaw }
{}

/// Pruning keeps the tree.
pub fn prune_law()
    ensures { PruneLaw }
{}

/// Where no group is linked, a command of the tree is its rows, its own changes, pruning and the row of numbers.
pub fn unlinked_apply_law()
    ensures { UnlinkedApplyLaw }
{}

/// Where no group is linked, seven rows can refuse a command of the tree.
pub fn unlinked_rows_law()
    ensures { UnlinkedRowsLaw }
{}

/// The commands of the tree keep the shape of a map in which no group is linked.
pub fn tree_command_law()
    ensures { TreeCommandLaw }
{}

/// Where no group is linked, nine rows can refuse a command that moves or copies nodes.
pub fn moving_rows_law()
    ensures { MovingRowsLaw }
{}

/// Where no group is linked, a command that moves or copies nodes is its rows, its own changes, pruning and the row of numbers.
pub fn moving_apply_law()
    ensures { MovingApplyLaw }
{}

/// The commands that move or copy nodes keep the shape of a map in which no group is linked, and their brushes are valid.
pub fn moving_command_law()
    ensures { MovingCommandLaw }
{}

/// New faces get a material that can be saved, at the start and once a line has set it.
pub fn material_law()
    ensures { MaterialLaw }
{}

/// Three rows can refuse a box.
pub fn box_rows_law()
    ensures { BoxRowsLaw }
{}

/// Where no group is linked, the command that makes a box is its rows, its own changes and the row of numbers.
pub fn box_apply_law()
    ensures { BoxApplyLaw }
{}

/// The command that makes a box keeps the shape of a map in which no group is linked, and the box is a valid brush.
pub fn box_command_law()
    ensures { BoxCommandLaw }
{}

/// Where no group is linked, a few rows can refuse a command that remakes brushes or their faces.
pub fn reshaping_rows_law()
    ensures { ReshapingRowsLaw }
{}

/// Where no group is linked, a command that remakes brushes is its rows, its own changes, pruning and the row of numbers.
pub fn reshaping_apply_law()
    ensures { ReshapingApplyLaw }
{}

/// The commands that remake brushes keep the shape of a map in which no group is linked, and the brushes are valid.
pub fn reshaping_command_law()
    ensures { ReshapingCommandLaw }
{}
