//! What a line is answered.

use cmd_text::Reply;
use fixed_num::Text;

/// What a line is answered.
#[derive(Debug, Drop)]
pub enum Answer {
    /// Nothing: the line is empty, has blanks only, or is a comment.
    Silent,
    /// A reply of one line.
    Short(Reply),
    /// The text of a listing, all its lines.
    Long(Text),
}
