//! The motions of commands.

ghost use Rattle.std.specs.Prelude.{◌≡◌, ◌≤◌, ◌-ℤ◌, IsTrue, unsigned_abs};
ghost use Rattle.algebra.specs.Space.{minus};
ghost use Rattle.cmd_text.specs.Kept.{IsCoordinate, IsPoint};
ghost use Rattle.map_laws.specs.MovingCommands.{is_moving_command};
ghost use Rattle.map_model.specs.Commands.{IsGood};
ghost use Rattle.map_model.specs.Motions.{shifting, turning, flipping, is_short, is_signed_permutation};
ghost use Rattle.map_model.specs.Rows.{motion_of, named};
ghost use Rattle.orient48.specs.Kept.{motion_at, vector_in};
ghost use Rattle.orient48.specs.Motions.{along, turned};
ghost use Rattle.orient48.specs.Orients.{matrix_of};

use cmd_text::Command;
use exact_geom::{Axis, Rows};
use orient48::{Motion, Orient};

/// The motion of a command that moves or copies nodes.
pub(crate) fn motion_of(c: &Command) -> Motion
    requires own { IsTrue (is_moving_command c.now) }
    requires good { IsGood c.now }
    ensures { result ≡ motion_of c.now }
{
    match c {
        Command::Copy { shift, .. } => shifting(*shift),
        Command::Move { shift, .. } => shifting(*shift),
        Command::Turn {
            axis,
            quarters,
            about,
            ..
        } => turning(*axis, *quarters, *about),
        Command::Flip { axis, at, .. } => flipping(*axis, *at),
        _ => unreachable!(),
    }
}

/// The nodes that such a command names.
pub(crate) fn nodes_of(c: &Command) -> &Rows<u32>
    requires own { IsTrue (is_moving_command c.now) }
    ensures { result.now ≡ named c.now }
{
    match c {
        Command::Copy { nodes, .. } => nodes,
        Command::Move { nodes, .. } => nodes,
        Command::Turn { nodes, .. } => nodes,
        Command::Flip { nodes, .. } => nodes,
        _ => unreachable!(),
    }
}

/// The matrix of a motion is a signed permutation.
pub(crate) fn is_rigid(motion: &Motion)
    ensures { IsTrue (is_signed_permutation motion.now.matrix) }
{
    let _flips = motion.orient().is_flip();
}

// The motion by a shift.
fn shifting(shift: [i32; 3]) -> Motion
    requires { IsTrue (is_short (vector_in shift)) }
    ensures { result ≡ shifting (vector_in shift) }
{
    kept(Orient::identity(), shift)
}

// So many quarter turns about the axis through a point.
fn turning(axis: Axis, quarters: u8, about: [i32; 3]) -> Motion
    requires quarters { quarters ≤ 3 }
    requires about { IsPoint about }
    ensures { result ≡ turning axis quarters (vector_in about) }
{
    let orient = Orient::turn(axis, quarters);
    kept(orient, way_back(orient, about))
}

// The coordinate along the axis is mirrored at a place.
fn flipping(axis: Axis, at: i32) -> Motion
    requires { IsCoordinate at }
    ensures { result ≡ flipping axis at }
{
    kept(Orient::flip(axis), along(axis, at + at))
}

// The motion of an orientation and of a shift that isn't too long.
fn kept(orient: Orient, shift: [i32; 3]) -> Motion
    requires { IsTrue (is_short (vector_in shift)) }
    ensures { result ≡ motion_at orient shift }
{
    let Some(motion) = Motion::of(orient, shift) else {
        unreachable!()
    };
    motion
}

// The shift from where the orientation takes a point back to the point.
fn way_back(orient: Orient, point: [i32; 3]) -> [i32; 3]
    requires { IsPoint point }
    ensures back { vector_in result ≡ minus (vector_in point) (turned (matrix_of orient) (vector_in point)) }
    ensures short { IsTrue (is_short (vector_in result)) }
{
    let [x, y, z] = orient.apply([
        i64::from(point[0]),
        i64::from(point[1]),
        i64::from(point[2]),
    ]);
    [
        difference(point[0], x),
        difference(point[1], y),
        difference(point[2], z),
    ]
}

fn difference(a: i32, b: i64) -> i32
    requires a { unsigned_abs a ≤ 4352 }
    requires b { unsigned_abs b ≤ 4352 }
    ensures { result ≡ a -ℤ b }
{
    (i64::from(a) - b) as i32
}

// A shift along an axis.
fn along(axis: Axis, shift: i32) -> [i32; 3]
    ensures { vector_in result ≡ along axis shift }
{
    match axis {
        Axis::X => [shift, 0, 0],
        Axis::Y => [0, shift, 0],
        Axis::Z => [0, 0, shift],
    }
}
