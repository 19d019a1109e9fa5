//! Replies: what a line is answered.

use fixed_num::Frac;

/// Why a line is refused, in the order in which refusals are tried. The fields are printed in their order.
#[derive(Clone, Copy, Debug, PartialEq, Eq)]
pub enum Refusal {
    /// The line has more than 4,096 bytes.
    LineTooLong,
    /// The first word begins no command.
    UnknownCommand,
    /// The word at this place behind the command's, from 1, can't stand there, or is missing; 0 where the line can't
    /// be cut into words.
    Arguments(u32),
    /// The command isn't built yet.
    NotBuilt,
    /// There is no node of this number.
    NoNode(u32),
    /// The node is named twice.
    Repeated(u32),
    /// The command doesn't take a node of this kind, or the brush has no such face.
    WrongKind(u32),
    /// The node lies beneath another named one.
    NestedIds(u32),
    /// The node is a frozen layer or lies in one.
    LockedLayer(u32),
    /// The node lies in this linked group, and an earlier named one in another of its set.
    TwoMembers(u32),
    /// The program keeps the key for itself at this node.
    ReservedKey(u32),
    /// The node hasn't the key, or doesn't protect it.
    NoKey(u32),
    /// The group isn't linked, or the entity lies in no linked group.
    NotLinked(u32),
    /// One linked group would lie beneath another.
    NestedLink(u32),
    /// Textures can be locked in a Valve map alone.
    LockNeedsValve,
    /// The rotation of this face of the node is no multiple of 90.
    Rotation(u32, u32),
    /// The points of the plane lie on a line.
    FlatPlane,
    /// The plane leaves one part of the brush without an inside.
    PlaneMisses(u32),
    /// The brush has no inside in common with the others.
    Apart(u32),
    /// The brush is no box along the axes.
    NotBox(u32),
    /// The walls of the brush would meet.
    Thick(u32),
    /// The point at this place among the picks, from 1, is no vertex.
    NoVertex(u32),
    /// The brush has a vertex that isn't whole.
    FractionalVertex(u32),
    /// There are so many points, too many for a hull.
    TooManyPoints(u32),
    /// A point of this face of the node would pass 4352; at a pick, the place of the pick.
    PointRange(u32, u32),
    /// The brush would have no inside.
    NoVolume(u32),
    /// A brush in the place of this node would have so many faces, more than 128.
    TooManyFaces(u32, u64),
    /// A brush would leave the world.
    OutOfWorld(u32),
    /// The offset of this face of the node, locked, would be this fraction, which has no count.
    LockOffset(u32, u32, Frac),
    /// The origin of the entity doesn't read, or its new value is out of range.
    Origin(u32),
    /// The motion of the linked group would pass its limit.
    ShiftRange(u32),
    /// The linked group would lose its last child.
    EmptyLink(u32),
    /// So many numbers would be drawn in all, more than 65,535.
    Full(u64),
    /// In this member the image of this node would have a point of this face beyond 4352.
    LinkPoint(u32, u32, u32),
    /// In this member the image of this node would leave the world.
    LinkWorld(u32, u32),
    /// In this member the image of this node would have an offset of this face without a count.
    LinkLock(u32, u32, u32),
    /// The origin of this node doesn't read, or its image in this member is out of range.
    LinkOrigin(u32, u32),
    /// The motion to this member would pass the limit.
    LinkShift(u32),
    /// This is the first map.
    NothingToUndo,
    /// This is the last map.
    NothingToRedo,
    /// The two points of the ray are one.
    NoRay,
}

/// What a line is answered.
#[derive(Clone, Copy, Debug, PartialEq, Eq)]
pub enum Reply {
    /// It is done.
    Ok,
    /// So many nodes were made, numbered from the first on.
    Made {
        count: u32,
        first: u32,
    },
    /// The texture coordinates of a point.
    Uv([Frac; 2]),
    /// The brush that a ray meets first, its face unless the ray begins inside, and how far along, in lengths from the first
    /// point to the second.
    Hit {
        node: u32,
        face: Option<u32>,
        at: Frac,
    },
    /// The ray meets no brush.
    NoHit,
    /// It is refused, and nothing has changed.
    No(Refusal),
    /// There was no memory for it, and nothing has changed.
    Memory,
}
