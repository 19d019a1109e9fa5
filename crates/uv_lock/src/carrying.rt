//! What a motion does to the texture fields of a face.

ghost use Rattle.std.specs.Prelude.{◌≡◌, IsTrue, IfOk, IfErr, None, Some, true};
ghost use Rattle.exact_geom.specs.Planes.{parts};
ghost use Rattle.orient48.specs.Kept.{vector_in};
ghost use Rattle.orient48.specs.Motions.{is_short, turned};
ghost use Rattle.orient48.specs.Orients.{matrix_of};
ghost use Rattle.uv_lock.specs.Carry.{axis_vector, carried_tex, exact_offset, kept_offset, lost_offset, turned_by};
ghost use Rattle.uv_lock.specs.Fractions.{fraction_of};

use crate::face::Face;
use crate::fraction::reduced;
use crate::numbers::{OFFSET_UNIT, along, scale_count, scaled_offset};
use crate::texture::{Tex, ValveTex};
use fixed_num::{Frac, Nano, Pico, exact_quotient};
use orient48::{Motion, Orient};

/// Offsets are below 1,000,000 in size.
const OFFSET_LIMIT: i128 = 1_000_000 * OFFSET_UNIT;

/// No count of an offset keeps the texture where it is on the face.
#[derive(Clone, Copy, Debug, PartialEq, Eq)]
pub struct LockOffset {
    /// The exact offset that would keep it, in texels: along U, or along V where the one along U has a count.
    pub offset: Frac,
}

/// The texture fields of the face once the motion has moved it.
///
/// A Standard face keeps its fields. Of a Valve face the axes turn with it. Without lock its offsets stay; with lock they
/// change so that each point keeps its texture coordinates. An error comes exactly where an offset that does so is no
/// whole number of 10^-12 or reaches 1,000,000 in size.
pub fn carry(f: &Face, m: &Motion, lock: bool) -> Result<Tex, LockOffset>
    ensures ok { IfOk result (λ tex. carried_tex lock m.now f.now.tex ≡ Some tex) }
    ensures lost { IfErr result (λ fault. carried_tex lock m.now f.now.tex ≡ None) }
    ensures offset { IfErr result (λ fault. lost_offset m.now f.now.tex ≡ Some (fraction_of fault.offset)) }
{
    match f.tex {
        Tex::Standard(tex) => Ok(Tex::Standard(tex)),
        Tex::Valve(tex) => {
            if lock {
                return locked(tex, m);
            }
            let axis = turned_axes(tex.axis, m.orient());
            Ok(Tex::Valve(ValveTex { axis, ..tex }))
        }
    }
}

// The fields with lock.
fn locked(tex: ValveTex, m: &Motion) -> Result<Tex, LockOffset>
    ensures ok { IfOk result (λ carried. carried_tex true m.now (Tex.Valve tex) ≡ Some carried) }
    ensures lost { IfErr result (λ fault. carried_tex true m.now (Tex.Valve tex) ≡ None) }
    ensures offset { IfErr result (λ fault. lost_offset m.now (Tex.Valve tex) ≡ Some (fraction_of fault.offset)) }
{
    let axis = turned_axes(tex.axis, m.orient());
    let shift = m.shift();
    let u = locked_offset(tex.off[0], tex.scale[0], axis[0], shift)?;
    let v = locked_offset(tex.off[1], tex.scale[1], axis[1], shift)?;
    let off = [u, v];
    Ok(Tex::Valve(ValveTex { axis, off, ..tex }))
}

fn turned_axis(axis: [Nano; 3], orient: Orient) -> [Nano; 3]
    ensures { result ≡ parts (turned (matrix_of orient) (axis_vector axis)) }
{
    let [x, y, z] = axis;
    let [x, y, z] = orient.apply([x.0, y.0, z.0]);
    [Nano(x), Nano(y), Nano(z)]
}

fn turned_axes(axes: [[Nano; 3]; 2], orient: Orient) -> [[Nano; 3]; 2]
    ensures { result ≡ turned_by (matrix_of orient) axes }
{
    [turned_axis(axes[0], orient), turned_axis(axes[1], orient)]
}

// The offset that keeps the coordinate of each point along the turned axis, once the points go by the shift.
fn locked_offset(
    off: Pico,
    scale: Nano,
    axis: [Nano; 3],
    shift: [i32; 3],
) -> Result<Pico, LockOffset>
    requires { IsTrue (is_short (vector_in shift)) }
    ensures ok { IfOk result (λ kept. kept_offset off scale (axis_vector axis) (vector_in shift) ≡ Some kept) }
    ensures lost { IfErr result (λ fault. kept_offset off scale (axis_vector axis) (vector_in shift) ≡ None) }
    ensures offset { IfErr result (λ fault. fraction_of fault.offset ≡ exact_offset off scale (axis_vector axis) (vector_in shift)) }
{
    let product = scaled_offset(off, scale) - OFFSET_UNIT * along(shift, axis);
    let scale = scale_count(scale);
    match exact_quotient(product, scale, OFFSET_LIMIT) {
        Some(count) => Ok(Pico(count as i64)),
        None => Err(LockOffset {
            offset: reduced(product, scale * OFFSET_UNIT),
        }),
    }
}
