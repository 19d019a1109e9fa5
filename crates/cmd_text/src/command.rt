//! Commands: what the lines of a script say.

use exact_geom::{Axis, Rows};
use fixed_num::{Micro, Nano, Pico, Text};

/// Why a line is no command.
#[derive(Clone, Copy, Debug, PartialEq, Eq)]
pub enum LineFault {
    /// The line has more than 4,096 bytes.
    TooLong,
    /// Its first word is no command's.
    UnknownWord,
    /// The first word that can't stand where it does, counted from 1 behind the command's, or one past the last
    /// where words are missing; 0 where the line can't be cut into words.
    Arguments(u32),
    /// There is no memory for the texts and lists of the command.
    Memory,
}

/// Which part of a brush a cut keeps.
#[derive(Clone, Copy, Debug, PartialEq, Eq)]
pub enum Part {
    /// The part that the normal of the plane points into.
    Front,
    /// The other part.
    Back,
    Both,
}

/// What becomes of the surface numbers of a face.
#[derive(Clone, Copy, Debug, PartialEq, Eq)]
pub enum SurfaceWords {
    /// They stay.
    Stay,
    /// They are taken out.
    Out,
    /// They are set. Contents and flags are in -2147483648..=4294967295.
    Set {
        contents: i64,
        flags: i64,
        value: Micro,
    },
}

/// A line of a script, one variant for each word that may begin one. Points and shifts are in map units, and nodes are named by
/// their numbers. `read_line` says which ranges, counts and texts they keep.
#[derive(Debug, Drop)]
pub enum Command {
    /// A box between two corners.
    Box {
        a: [i32; 3],
        b: [i32; 3],
    },
    /// The convex hull of points.
    Hull {
        points: Rows<[i32; 3]>,
    },
    /// Nodes go, with all beneath them.
    Delete {
        nodes: Rows<u32>,
    },
    /// Copies of nodes, moved.
    Copy {
        shift: [i32; 3],
        nodes: Rows<u32>,
    },
    /// Nodes are moved.
    Move {
        shift: [i32; 3],
        nodes: Rows<u32>,
    },
    /// Nodes are turned by so many quarters, 1 to 3, about the axis through a point.
    Turn {
        axis: Axis,
        quarters: u8,
        about: [i32; 3],
        nodes: Rows<u32>,
    },
    /// Nodes are mirrored where the coordinate of the axis has this value.
    Flip {
        axis: Axis,
        at: i32,
        nodes: Rows<u32>,
    },
    /// Brushes are cut by the plane of three points.
    Clip {
        part: Part,
        plane: [[i32; 3]; 3],
        nodes: Rows<u32>,
    },
    /// One brush is cut out of others.
    Subtract {
        by: u32,
        nodes: Rows<u32>,
    },
    /// The first brush becomes what it has in common with the others, which go.
    Intersect {
        nodes: Rows<u32>,
    },
    /// The first brush becomes the hull of all, and the others go.
    Merge {
        nodes: Rows<u32>,
    },
    /// Boxes become walls of this thickness, 1 to 4096.
    Hollow {
        thickness: i32,
        nodes: Rows<u32>,
    },
    /// The vertices of a brush at these points are moved.
    Vertex {
        node: u32,
        shift: [i32; 3],
        picks: Rows<[i32; 3]>,
    },
    /// Vertices are rounded to a grid of 1, 2, 4, 8, 16, 32 or 64.
    Snap {
        grid: i32,
        nodes: Rows<u32>,
    },
    /// The material of new faces.
    Material {
        name: Text,
    },
    /// The material, offsets, rotation and scales of a face, and what becomes of its surface numbers.
    Tex {
        node: u32,
        face: u32,
        name: Text,
        off: [Pico; 2],
        rotation: Micro,
        scale: [Nano; 2],
        surface: SurfaceWords,
    },
    /// Whether textures are locked to faces that are moved.
    Lock {
        on: bool,
    },
    /// Asks for the texture coordinates of a point on a face.
    Uv {
        node: u32,
        face: u32,
        at: [i32; 3],
    },
    /// All faces become Valve faces.
    Convert,
    /// A point entity.
    Entity {
        class: Text,
        at: [i32; 3],
    },
    /// A property of the world or of an entity.
    Set {
        node: u32,
        key: Text,
        value: Text,
    },
    /// A property is taken out.
    Unset {
        node: u32,
        key: Text,
    },
    /// Brushes become an entity of this class.
    Tie {
        class: Text,
        nodes: Rows<u32>,
    },
    /// The brushes of entities go to where the entities were.
    Untie {
        nodes: Rows<u32>,
    },
    /// A layer.
    Layer {
        name: Text,
    },
    /// What lies in the layer can't be changed any more.
    Freeze {
        node: u32,
    },
    /// What lies in the layer can be changed again.
    Thaw {
        node: u32,
    },
    /// Nodes become a group.
    Group {
        name: Text,
        nodes: Rows<u32>,
    },
    /// Groups are taken apart.
    Ungroup {
        nodes: Rows<u32>,
    },
    /// Nodes go to the end of the place: the world, a layer, a group or an entity.
    Into {
        place: u32,
        nodes: Rows<u32>,
    },
    /// A linked copy of a group, moved.
    Link {
        node: u32,
        shift: [i32; 3],
    },
    /// A group leaves its link set.
    Unlink {
        node: u32,
    },
    /// The entity keeps its own value of the key where linked groups are made alike.
    Protect {
        node: u32,
        key: Text,
    },
    /// It doesn't any more.
    Unprotect {
        node: u32,
        key: Text,
    },
    /// One map back.
    Undo,
    /// One map forth.
    Redo,
    /// A listing of a brush, an entity or the world.
    Show {
        node: u32,
    },
    /// A listing of all nodes.
    Tree,
    /// Asks which brush a ray from one point through another meets first.
    Pick {
        from: [i32; 3],
        to: [i32; 3],
    },
    /// A listing of the brushes that overlap one.
    Touching {
        node: u32,
    },
}
