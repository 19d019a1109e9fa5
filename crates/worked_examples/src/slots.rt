//! Arenas whose room was made before.

use super::table::same;
use half_arena::{Arena, FaceId};
use std::test::Fail;

#[test]
fn inserts_after_one_reserve_need_no_memory(rt: HostRuntime) -> Result<(), Fail> {
    let mut arena: Arena<u64, FaceId> = Arena::new(rt.alloc());
    same(&rt, "new", &(arena.spare(), arena.len()), &(0, 0));
    arena.reserve(5)?;
    let spare = arena.spare();
    for value in 0..5u64 {
        assert!(rt; arena.spare() > 0);
        let id = arena.insert(value);
        same(&rt, value, &arena.get(id).copied(), &Some(value));
    }
    let left = spare.wrapping_sub(5);
    same(&rt, "full", &(arena.spare(), arena.len()), &(left, 5));
    assert!(rt; arena.place_limit() >= arena.len());
    Ok(())
}
