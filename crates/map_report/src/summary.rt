//! What a map holds, and what was made.

use uv_lock::Format;

/// What a map holds, and what was made.
#[derive(Clone, Copy, Debug, PartialEq, Eq)]
pub enum Summary {
    /// What a map holds: its nodes but the world, the brushes among them, and its link sets.
    Map {
        format: Format,
        nodes: u32,
        brushes: u32,
        links: u32,
    },
    /// The map that was made of so many boxes.
    Generated {
        boxes: u32,
        brushes: u32,
        links: u32,
    },
    /// What was written for other programs.
    Exported {
        brushes: u64,
        vertices: u64,
        faces: u64,
    },
}
