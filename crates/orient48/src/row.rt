//! The rows of signed permutations.

ghost use Rattle.std.specs.Prelude.{◌≡◌, ◌<◌, ◌^◌, All, unsigned_abs};
ghost use Rattle.algebra.specs.Space.{dot};
ghost use Rattle.exact_geom.specs.Planes.{parts};
ghost use Rattle.orient48.specs.Kept.{vector_in};
ghost use Rattle.orient48.specs.Rows.{row_vector};

/// A row of a signed permutation: the part of a vector that it takes, and under which sign.
#[derive(Clone, Copy, Debug, PartialEq, Eq)]
pub(crate) enum Row {
    X,
    MinusX,
    Y,
    MinusY,
    Z,
    MinusZ,
}

impl Row {
    /// The row times a vector.
    pub(crate) fn times(self, v: [i64; 3]) -> i64
        requires { All (λ part. unsigned_abs part < 2 ^ 63) v }
        ensures { result ≡ dot (row_vector self) (vector_in v) }
    {
        match self {
            Row::X => v[0],
            Row::MinusX => -v[0],
            Row::Y => v[1],
            Row::MinusY => -v[1],
            Row::Z => v[2],
            Row::MinusZ => -v[2],
        }
    }

    /// Its three numbers.
    pub(crate) fn numbers(self) -> [i64; 3]
        ensures { result ≡ parts (row_vector self) }
    {
        match self {
            Row::X => [1, 0, 0],
            Row::MinusX => [-1, 0, 0],
            Row::Y => [0, 1, 0],
            Row::MinusY => [0, -1, 0],
            Row::Z => [0, 0, 1],
            Row::MinusZ => [0, 0, -1],
        }
    }
}
