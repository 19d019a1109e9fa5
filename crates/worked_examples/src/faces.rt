//! Faces and their copies.

use super::table::same;
use exact_geom::{Plane, Point};
use fixed_num::{Micro, Nano, Pico, Text};
use std::test::Fail;
use uv_lock::{Face, StandardTex, Surface, Tex, ValveTex};

const STANDARD: StandardTex = StandardTex {
    off: [Pico(16_000_000_000_000), Pico(-500_000_000_000)],
    rotation: Micro(90_000_000),
    scale: [Nano(1_000_000_000), Nano(0)],
    surface: None,
};

const VALVE: ValveTex = ValveTex {
    axis: [
        [Nano(1_000_000_000), Nano(0), Nano(0)],
        [Nano(0), Nano(0), Nano(-1_000_000_000)],
    ],
    off: [Pico(0), Pico(999_999_999_999_999_999)],
    rotation: Micro(0),
    scale: [Nano(1_000_000_000), Nano(250_000_000)],
    surface: Some(Surface {
        contents: 4_294_967_295,
        flags: -2_147_483_648,
        value: Micro(50_500_000),
    }),
};

#[test]
fn a_copy_is_equal(rt: HostRuntime) -> Result<(), Fail> {
    let plane = Plane::of(
        Point {
            x: 64,
            y: 64,
            z: 16,
        },
        Point {
            x: 64,
            y: 65,
            z: 16,
        },
        Point {
            x: 65,
            y: 64,
            z: 16,
        },
    )?;
    for (material, tex) in [
        (b"__TB_empty".as_slice(), Tex::Valve(VALVE)),
        (b"sky 1".as_slice(), Tex::Standard(STANDARD)),
        (b"".as_slice(), Tex::Standard(STANDARD)),
    ] {
        let face = Face {
            plane,
            material: Text::of(rt.alloc(), material)?,
            tex,
        };
        let copy = face.copy(rt.alloc())?;
        same(&rt, material, &copy.plane, &plane);
        same(&rt, material, &copy.material.bytes(), &material);
        same(&rt, material, &copy.tex, &tex);
        same(&rt, material, &face.material.bytes(), &material);
    }
    Ok(())
}
