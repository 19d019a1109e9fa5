//! What a line that was read asks for.

ghost use Rattle.std.specs.Prelude.{◌≡◌};
ghost use Rattle.map_model.specs.Machine.{fault_reply};
ghost use Rattle.tree_ops.specs.TreeCommands.{is_tree_command};
ghost use Rattle.tree_session.specs.Built.{changes_map};

use cmd_text::{Command, LineFault, Refusal, Reply};
use edit_ops::is_edit_command;

/// The reply to a line that is no command.
pub(crate) fn fault_reply(fault: LineFault) -> Reply
    ensures { result ≡ fault_reply fault }
{
    match fault {
        LineFault::TooLong => Reply::No(Refusal::LineTooLong),
        LineFault::UnknownWord => Reply::No(Refusal::UnknownCommand),
        LineFault::Arguments(place) => Reply::No(Refusal::Arguments(place)),
        LineFault::Memory => Reply::Memory,
    }
}

/// Whether it is a command that changes the map.
pub(crate) fn changes_map(command: &Command) -> bool
    ensures { result ≡ changes_map command.now }
{
    is_tree_command(command) || is_edit_command(command)
}

/// Whether it is a command of the tree.
pub(crate) fn is_tree_command(command: &Command) -> bool
    ensures { result ≡ is_tree_command command.now }
{
    matches!(
        command,
        Command::Delete { .. }
            | Command::Entity { .. }
            | Command::Set { .. }
            | Command::Unset { .. }
            | Command::Tie { .. }
            | Command::Untie { .. }
            | Command::Layer { .. }
            | Command::Freeze { .. }
            | Command::Thaw { .. }
            | Command::Group { .. }
            | Command::Ungroup { .. }
            | Command::Into { .. }
    )
}
