//! The numbers of vertices, half-edges and faces, each a type of its own.
ghost use Rattle.std.specs.Prelude.{◌≡◌, ℕ};

/// A typed number of a slot.
pub trait SlotId: Copy {
    /// The number of the slot at a place.
    ghost of_place: { ℕ → Self };

    /// The place of the slot that a number names.
    ghost place_of: { Self → ℕ };

    /// The number of the slot at `place`.
    fn at(place: usize) -> Self
        ensures { result ≡ of_place place };

    /// The place of the slot.
    fn place(self) -> usize
        ensures { result ≡ place_of self };

    /// The place of the number of a place is that place.
    ghost there_and_back: { (place : ℕ) → place_of (of_place place) ≡ place };

    /// The number of a number's place is that number.
    ghost back_and_there: { (id : Self) → of_place (place_of id) ≡ id };
}

/// The number of a vertex.
#[derive(Clone, Copy, Debug, PartialEq, Eq)]
pub struct VertId(usize);

/// The number of a half-edge.
#[derive(Clone, Copy, Debug, PartialEq, Eq)]
pub struct EdgeId(usize);

/// The number of a face.
#[derive(Clone, Copy, Debug, PartialEq, Eq)]
pub struct FaceId(usize);

impl SlotId for VertId {
    ghost use Rattle.std.specs.Prelude.{refl};

    ghost of_place = { λ k. record { 0 = k } };

    ghost place_of = { λ id. id.0 };

    ghost there_and_back = { λ k. refl };

    ghost back_and_there = { λ id. refl };

    fn at(place: usize) -> VertId {
        VertId(place)
    }

    fn place(self) -> usize {
        self.0
    }
}

impl SlotId for EdgeId {
    ghost use Rattle.std.specs.Prelude.{refl};

    ghost of_place = { λ k. record { 0 = k } };

    ghost place_of = { λ id. id.0 };

    ghost there_and_back = { λ k. refl };

    ghost back_and_there = { λ id. refl };

    fn at(place: usize) -> EdgeId {
        EdgeId(place)
    }

    fn place(self) -> usize {
        self.0
    }
}

impl SlotId for FaceId {
    ghost use Rattle.std.specs.Prelude.{refl};

    ghost of_place = { λ k. record { 0 = k } };

    ghost place_of = { λ id. id.0 };

    ghost there_and_back = { λ k. refl };

    ghost back_and_there = { λ id. refl };

    fn at(place: usize) -> FaceId {
        FaceId(place)
    }

    fn place(self) -> usize {
        self.0
    }
}
