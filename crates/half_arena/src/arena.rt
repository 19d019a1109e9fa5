//! Values under typed numbers.
ghost use Rattle.std.specs.Prelude.{◌≡◌, ℕ, ◌+◌, ◌-◌, ◌<◌, ◌≤◌, [], Some, None, IfNone, OnOk, OnErr, OnSome, option_copied};
ghost use Rattle.std.specs.Option.{option_copied_mut};
ghost use Rattle.std.specs.Borrow.{sem};
ghost use Rattle.slab.specs.Slab.{slab_len};
ghost use Rattle.half_arena.specs.Slots.{contents, put, live_count, IsLive};

use crate::ids::SlotId;
use slab::Slab;
use std::alloc::{AllocError, Global};
use std::marker::{Model, PhantomData};

/// Values, each under a number of the type `Id` that the arena picks.
#[derive(Drop)]
pub struct Arena<T, Id> {
    slab: Slab<T>,
    // How many more values were promised a slot.
    spare: usize,
    ids: PhantomData<Id>,
}

impl<T, Id> Model for Arena<T, Id> {
    ghost use Rattle.slab.specs.Slab.{HasRoomFor};
    ghost use Rattle.half_arena.specs.Slots.{Slots, slots_code};

    ghost Value = { Slots T };

    ghost coded = { slots_code T.code };

    ghost view = { λ a. record { slots = a.slab.slots; spare = a.spare } };

    ghost invariant = { λ a. HasRoomFor a.slab a.spare };
}

impl<T, Id: SlotId> Arena<T, Id> {
    ghost use Rattle.half_arena.specs.Lends.{lends_slot};

    /// An arena without values, which takes no memory.
    pub fn new(alloc: Global) -> Arena<T, Id>
        ensures slots { result.slots ≡ [] }
        ensures spare { result.spare ≡ 0 }
    {
        Arena {
            slab: Slab::new(alloc),
            spare: 0,
            ids: PhantomData,
        }
    }

    /// Makes room for `n` more values at least. It fails where there is no memory.
    pub fn reserve(&mut self, n: usize) -> Result<(), AllocError>
        ensures spare { OnOk result (n ≤ self.new.spare) }
        ensures kept { self.new.slots ≡ self.old.slots }
        ensures never_lower { self.old.spare ≤ self.new.spare }
        ensures err { OnErr result (self.new ≡ self.old) }
    {
        self.slab.reserve(n)?;
        self.spare = room(&self.slab);
        Ok(())
    }

    /// How many more values have room.
    pub fn spare(&self) -> usize
        ensures { result ≡ self.now.spare }
    {
        self.spare
    }

    /// The number of values.
    pub fn len(&self) -> usize
        ensures { result ≡ live_count self.now }
    {
        self.slab.len()
    }

    /// How many slots the arena has memory for, with a value or without one: at least `len()` and
    /// `spare()` together, and above the place of every value. It is for walking over the places, or
    /// for the length of a table by places.
    pub fn place_limit(&self) -> usize
        ensures room { live_count self.now + self.now.spare ≤ result }
        ensures above { (place : ℕ) → IsLive self.now place → place < result }
    {
        self.slab.capacity()
    }

    /// Puts a value in, under a number that names nothing else.
    pub fn insert(&mut self, value: T) -> Id
        requires { 0 < self.old.spare }
        ensures was_free { contents self.old (Id.place_of result) ≡ None }
        ensures contents { contents self.new ≡ put (contents self.old) (Id.place_of result) (Some value) }
        ensures spare { self.new.spare + 1 ≡ self.old.spare }
    {
        self.spare -= 1;
        Id::at(self.slab.insert_reserved(value))
    }

    /// Takes the value out, or `None` where the number names nothing. The number is free then.
    pub fn take(&mut self, id: Id) -> Option<T>
        ensures value { result ≡ contents self.old (Id.place_of id) }
        ensures contents { contents self.new ≡ put (contents self.old) (Id.place_of id) None }
        ensures room { OnSome result (self.old.spare + 1 ≤ self.new.spare) }
        ensures absent { IfNone result (self.new ≡ self.old) }
    {
        let value = self.slab.try_remove(id.place())?;
        self.spare = room(&self.slab);
        Some(value)
    }

    /// The value under the number, or `None` where the number names nothing.
    pub fn get(&self, id: Id) -> Option<&T>
        ensures { option_copied result ≡ contents self.now (Id.place_of id) }
    {
        self.slab.get(id.place())
    }

    /// The value under the number for writing, or `None` where the number names nothing.
    pub fn get_mut(&mut self, id: Id) -> Option<&mut T>
        ensures* writes_back { sem 𝓛 (lends_slot T.row Id.row self.entry (Id.place_of id) result) }
        ensures value { option_copied_mut result ≡ contents self.old (Id.place_of id) }
    {
        let place = id.place();
        if !self.slab.contains(place) {
            return None;
        }
        self.slab.get_mut(place)
    }
}

impl<T: Clone, Id> Arena<T, Id> {
    ghost use Rattle.std.specs.Prelude.{IfOk};
    ghost use Rattle.std.specs.List.{AllZip};
    ghost use Rattle.slab.specs.Slab.{IsSlotClone};

    /// The arena again, with a clone of each value under the same number, or an error for want of
    /// memory.
    pub fn copy(&self) -> Result<Arena<T, Id>, AllocError>
        ensures clones { IfOk result (λ copy. AllZip (IsSlotClone T.is_clone) self.now.slots copy.slots) }
    {
        let slab = self.slab.clone()?;
        let spare = room(&slab);
        Ok(Arena {
            slab,
            spare,
            ids: PhantomData,
        })
    }
}

// How many more values the slab has room for.
fn room<T>(slab: &Slab<T>) -> usize
    ensures { slab_len slab.now + result ≡ slab.now.capacity }
{
    slab.capacity() - slab.len()
}
