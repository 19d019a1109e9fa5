//! The 48 orientations.

ghost use Rattle.std.specs.Prelude.{◌≡◌, ◌↔◌, ◌<◌, ◌≤◌, ◌^◌, Some, None, IfSome, IfNone, IsTrue, false, if◌then◌else◌, nat_lt, All, map, unsigned_abs};
ghost use Rattle.exact_geom.specs.Planes.{parts};
ghost use Rattle.orient48.specs.Kept.{matrix_in, rows_of, vector_in};
ghost use Rattle.orient48.specs.Motions.{flipped, is_flip, is_signed_permutation, product, quarters as quarter_turns, transposed, turned, unturned};
ghost use Rattle.orient48.specs.Orients.{matrix_of, orient_count};

use crate::tables;
use exact_geom::Axis;
use std::marker::Model;

/// One of the 48 signed permutations of the coordinates, by its number `8 * p + s`: part i of the result is part p_i of
/// the vector, where (p_0, p_1, p_2) is the permutation at place p of the six in lexicographic order, and it has the sign
/// minus where bit i of s is set. A contract sees the number, and `matrix_of` is its matrix.
#[derive(Clone, Copy, Debug, PartialEq, Eq)]
pub struct Orient(u8);

impl Model for Orient {
    ghost use Rattle.std.specs.Prelude.{ℕ, ◌<◌};
    ghost use Rattle.orient48.specs.Orients.{orient_count};

    ghost Value = { ℕ };

    ghost view = { λ o. o.0 };

    ghost invariant = { λ o. o.0 < orient_count };

    ghost inverse = { λ number. record { 0 = number } };
}

impl Orient {
    /// The orientation that changes nothing.
    pub fn identity() -> Orient
        ensures { matrix_of result ≡ unturned }
    {
        Orient(0)
    }

    /// So many quarter turns about the axis, 0 to 3. One turn about z takes (x, y, z) to (-y, x, z), one about x to
    /// (x, -z, y), and one about y to (z, y, -x).
    pub fn turn(axis: Axis, quarters: u8) -> Orient
        requires { quarters ≤ 3 }
        ensures { matrix_of result ≡ quarter_turns axis quarters }
    {
        match axis {
            Axis::X => Orient([0, 10, 6, 12][quarters as usize]),
            Axis::Y => Orient([0, 44, 5, 41][quarters as usize]),
            Axis::Z => Orient([0, 17, 3, 18][quarters as usize]),
        }
    }

    /// The coordinate along the axis changes its sign.
    pub fn flip(axis: Axis) -> Orient
        ensures { matrix_of result ≡ flipped axis }
    {
        match axis {
            Axis::X => Orient(1),
            Axis::Y => Orient(2),
            Axis::Z => Orient(4),
        }
    }

    /// The orientation with this number, or `None` exactly where it is 48 or more.
    pub fn of(number: u8) -> Option<Orient>
        ensures { result ≡ (if nat_lt number orient_count then Some number else None) }
    {
        if number < 48 {
            Some(Orient(number))
        } else {
            None
        }
    }

    // The orientation with this matrix, or `None` where it is no signed permutation.
    pub(crate) fn of_matrix(rows: [[i64; 3]; 3]) -> Option<Orient>
        ensures some { IfSome result (λ orient. matrix_of orient ≡ matrix_in rows) }
        ensures signed { IfSome result (λ orient. IsTrue (is_signed_permutation (matrix_of orient))) }
        ensures none { IfNone result (is_signed_permutation (matrix_in rows) ≡ false) }
    {
        for number in 0..48 {
            let orient = Orient(number);
            if is_same_matrix(orient.matrix(), rows) {
                return Some(orient);
            }
        }
        None
    }

    /// Its matrix, row by row: a signed permutation.
    pub fn matrix(self) -> [[i64; 3]; 3]
        ensures rows { result ≡ rows_of (matrix_of self) }
        ensures signed { IsTrue (is_signed_permutation (matrix_of self)) }
    {
        let [x, y, z] = tables::rows(self.0);
        [x.numbers(), y.numbers(), z.numbers()]
    }

    /// Its number, below 48.
    pub fn number(self) -> u8
        ensures number { result ≡ self }
        ensures below { self < orient_count }
    {
        self.0
    }

    /// First `other`, then this one: the product of the matrices.
    pub fn compose(self, other: Orient) -> Orient
        ensures { matrix_of result ≡ product (matrix_of self) (matrix_of other) }
    {
        Orient(tables::product(self.0, other.0))
    }

    /// The way back: the inverse matrix, which is the transposed one.
    pub fn inverse(self) -> Orient
        ensures transposed { matrix_of result ≡ transposed (matrix_of self) }
        ensures undone { product (matrix_of result) (matrix_of self) ≡ unturned }
    {
        Orient(tables::inverse(self.0))
    }

    /// Whether it turns left into right: the determinant of the matrix is -1.
    pub fn is_flip(self) -> bool
        ensures flip { result ≡ is_flip (matrix_of self) }
        ensures signed { IsTrue (is_signed_permutation (matrix_of self)) }
    {
        tables::flips(self.0)
    }

    /// The matrix times the vector. No part of the vector is the least number.
    pub fn apply(self, v: [i64; 3]) -> [i64; 3]
        requires { All (λ part. unsigned_abs part < 2 ^ 63) v }
        ensures turned { result ≡ parts (turned (matrix_of self) (vector_in v)) }
        ensures signed { IsTrue (is_signed_permutation (matrix_of self)) }
    {
        let [x, y, z] = tables::rows(self.0);
        [x.times(v), y.times(v), z.times(v)]
    }

    /// The matrix times each of the vectors. No part of a vector is the least number.
    pub fn apply_all<const N: usize>(self, v: [[i64; 3]; N]) -> [[i64; 3]; N]
        requires { All (All (λ part. unsigned_abs part < 2 ^ 63)) v }
        ensures { result ≡ map (λ each. parts (turned (matrix_of self) (vector_in each))) v.entry }
    {
        let mut turned = v;
        for place in 0..N {
            turned[place] = self.apply(turned[place]);
        }
        turned
    }
}

fn is_same_row(a: [i64; 3], b: [i64; 3]) -> bool
    ensures { IsTrue result ↔ (vector_in a ≡ vector_in b) }
{
    a[0] == b[0] && a[1] == b[1] && a[2] == b[2]
}

fn is_same_matrix(a: [[i64; 3]; 3], b: [[i64; 3]; 3]) -> bool
    ensures { IsTrue result ↔ (matrix_in a ≡ matrix_in b) }
{
    is_same_row(a[0], b[0]) && is_same_row(a[1], b[1]) && is_same_row(a[2], b[2])
}
