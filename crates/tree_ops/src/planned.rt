//! Plans.

use cmd_text::Reply;
use tree_node::Change;

/// A change that makes of a map what a command makes of it, and the reply.
#[derive(Drop)]
pub struct Planned {
    pub change: Change,
    pub reply: Reply,
}
