//! Blocks, from which brushes are cut.

ghost use Rattle.std.specs.Prelude.{◌≡◌, ◌<◌, ◌^◌, List, ◌++◌, ◌∷◌, [], IfOk, IfErr, OnErr};
ghost use Rattle.algebra.specs.Members.{Every};
ghost use Rattle.solid_brush.specs.Sides.{HaveTags, IsSolid};
ghost use Rattle.solid_brush.specs.Blocks.{IsTrimmedTo, IsCut, IsLeft, IsOverfull};
ghost use Rattle.solid_brush.specs.declared.side.Side.{Side};

use crate::cutting::{cut_poly, is_gone, sides_of};
use crate::meet_fault::MeetFault;
use crate::side::Side;
use crate::solid::{MOST_FACES, Solid};
use half_poly::Poly;
use std::alloc::{AllocError, Global};
use std::marker::Model;

/// A convex solid with a volume, in the world, by the sides that it needs, however many. Brushes are cut from it.
/// A contract sees the list of its sides.
#[derive(Drop)]
pub struct Block {
    pub(crate) poly: Poly,
}

impl Model for Block {
    ghost use Rattle.std.specs.Prelude.{List, map};
    ghost use Rattle.solid_brush.specs.declared.side.Side.{Side};
    ghost use Rattle.solid_brush.specs.Cutting.{untagged};
    ghost use Rattle.solid_brush.specs.Blocks.{IsBlock};

    ghost Value = { List Side };

    ghost view = { λ b. map untagged b.poly };

    ghost invariant = { λ b. IsBlock (map untagged b.poly) };
}

impl Block {
    /// Cuts off what lies in front of a further side, whose tag must be new, and tells whether any point is left inside. Where
    /// none is, nothing changes, and neither does it for want of memory.
    pub fn cut(&mut self, alloc: Global, side: &Side) -> Result<bool, AllocError>
        requires new { Every (λ s. ¬ (s.tag ≡ side.now.tag)) self.old }
        requires small { side.now.tag < 2 ^ 31 }
        ensures cut { IfOk result (IsCut self.old side.now self.new) }
        ensures err { OnErr result (self.new ≡ self.old) }
    {
        let cut = cut_poly(alloc, &mut self.poly, side)?;
        Ok(!is_gone(cut))
    }

    /// What is left of the block behind further sides: with them it is trimmed to the faces that are needed, and so is whatever the
    /// block was trimmed from. `None` exactly where no point is inside all of them.
    pub fn meet(mut self, alloc: Global, more: &[Side]) -> Result<Option<Block>, AllocError>
        requires tags { HaveTags (self ++ more.now) }
        ensures left { IfOk result (IsLeft (self ++ more.now)) }
        ensures further { (all : List Side) → IsTrimmedTo all self → IfOk result (IsLeft (all ++ more.now)) }
    {
        // What it reads tells that the block is trimmed.
        let _poly = &self.poly;
        for side in more {
            if !self.cut(alloc, side)? {
                return Ok(None);
            }
        }
        Ok(Some(self))
    }

    /// The block as a brush. It is refused exactly where it has more than 128 sides, with their count, but that `Memory`, for want
    /// of memory, may come in place of any answer.
    pub fn solid(self, alloc: Global) -> Result<Solid, MeetFault>
        ensures same { IfOk result (λ solid. solid ≡ self) }
        ensures solid { IfOk result IsSolid }
        ensures fault { IfErr result (IsOverfull self) }
    {
        let sides = sides_of(alloc, &self.poly)?;
        if sides.len() > MOST_FACES {
            return Err(MeetFault::TooManyFaces(sides.len() as u32));
        }
        Ok(Solid {
            sides,
            poly: self.poly,
        })
    }

    /// An equal block, or an error for want of memory.
    pub fn copy(&self, alloc: Global) -> Result<Block, AllocError>
        ensures equal { IfOk result (λ block. block ≡ self.now) }
    {
        Ok(Block {
            poly: self.poly.copy(alloc)?,
        })
    }
}
