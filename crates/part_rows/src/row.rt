//! The numbers of a row.

use case_text::CaseFault;
use exact_geom::{Plane, PlaneFault, Point};
use std::alloc::Global;
use std::num::ParseIntError;
use std::str::{FromStr, SplitWhitespace};

/// The numbers of a row that are still to be read, as `( 0 0 64 ) 7`. Brackets are left out.
#[derive(Drop)]
pub struct Row<'a> {
    left: SplitWhitespace<'a>,
}

impl<'a> Row<'a> {
    /// A whole row.
    pub fn of(spelled: &'a str) -> Row<'a> {
        Row {
            left: spelled.split_whitespace(),
        }
    }

    /// The next number.
    pub fn number<T: FromStr<Err = ParseIntError>>(&mut self) -> Result<T, CaseFault> {
        match self.left.find(|word| *word != "(" && *word != ")") {
            Some(word) => word.parse().ok().ok_or(CaseFault::Number),
            None => Err(CaseFault::Number),
        }
    }

    /// The point of the next three numbers.
    pub fn point(&mut self) -> Result<Point, CaseFault> {
        Ok(Point {
            x: self.number()?,
            y: self.number()?,
            z: self.number()?,
        })
    }

    /// The plane of the next three points, or why they are none.
    pub fn try_plane(&mut self) -> Result<Result<Plane, PlaneFault>, CaseFault> {
        Ok(Plane::of(self.point()?, self.point()?, self.point()?))
    }

    /// The plane of the next three points.
    pub fn plane(&mut self) -> Result<Plane, CaseFault> {
        self.try_plane()?.ok().ok_or(CaseFault::Number)
    }
}

/// The points of a row, each in brackets.
pub fn points(alloc: Global, spelled: &str) -> Result<Vec<Point>, CaseFault> {
    let mut points = Vec::new(alloc);
    let mut parts = spelled.split('(');
    let _before = parts.next();
    for part in parts {
        points.push(Row::of(part).point()?)?;
    }
    Ok(points)
}
