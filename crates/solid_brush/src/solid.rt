//! Valid brushes.

ghost use Rattle.std.specs.Prelude.{◌≡◌, ◌+◌, ◌^◌, ◌<◌, ◌≤◌, ◌++◌, map, length, None, IfOk, IfErr, IfSome};
ghost use Rattle.algebra.specs.Members.{Every};
ghost use Rattle.exact_geom.specs.Planes.{first_out_of_range};
ghost use Rattle.orient48.specs.Motions.{moved_plane};
ghost use Rattle.solid_laws.specs.FaceLoop.{HasVertexCount, HasVertex, HasLoopVertex};
ghost use Rattle.solid_brush.specs.Sides.{half_spaces, HaveTags, IsSolid, IsBuiltOf, IsRefusedFor, with_base};
ghost use Rattle.solid_brush.specs.Blocks.{IsTrimmedTo, IsLeft, NeedsTooMany};
ghost use Rattle.solid_brush.specs.Moved.{IsMovedOf};

use crate::block::Block;
use crate::cutting::{behind, sides_of};
use crate::fault::BuildFault;
use crate::meet_fault::MeetFault;
use crate::side::{Side, add_to_tags};
use crate::world::lies_in_world;
use exact_geom::HVertex;
use half_poly::Poly;
use orient48::Motion;
use std::alloc::{AllocError, Global};
use std::marker::Model;

// More faces no brush may need.
pub(crate) const MOST_FACES: usize = 128;

/// A valid brush: a convex solid with a volume, in the world, with the 4 to 128 sides that it needs and no other.
/// A contract sees the list of its sides.
#[derive(Drop)]
#[derive_where(Debug)]
pub struct Solid {
    pub(crate) sides: Vec<Side>,
    // The same sides as a polyhedron.
    #[derive_where(skip)]
    pub(crate) poly: Poly,
}

impl Model for Solid {
    ghost use Rattle.std.specs.Prelude.{List};
    ghost use Rattle.solid_brush.specs.declared.side.Side.{Side};
    ghost use Rattle.solid_brush.specs.Cutting.{IsKeptSolid};

    ghost Value = { List Side };

    ghost view = { λ s. s.sides.items };

    ghost invariant = { λ s. IsKeptSolid s.sides.items s.poly };
}

impl Solid {
    /// The brush behind all of the sides: those of them that it needs, in their order, and of sides that bound the same
    /// half-space the first. It has exactly the points that are behind or on all of the sides.
    ///
    /// The sides are refused exactly for the first cause of `BuildFault` that holds, but that `Memory`, for want of memory, may
    /// come in place of any answer.
    pub fn build(alloc: Global, sides: &[Side]) -> Result<Solid, BuildFault>
        requires few { length sides.now ≤ 256 }
        requires tags { HaveTags sides.now }
        ensures built { IfOk result (λ solid. IsBuiltOf sides.now solid) }
        ensures solid { IfOk result IsSolid }
        ensures fault { IfErr result (IsRefusedFor (half_spaces sides.now)) }
    {
        let Some(poly) = behind(alloc, sides)? else {
            return Err(BuildFault::NoVolume);
        };
        if !lies_in_world(&poly) {
            return Err(BuildFault::OutOfWorld);
        }
        let kept = sides_of(alloc, &poly)?;
        if kept.len() > MOST_FACES {
            return Err(BuildFault::TooManyFaces(kept.len() as u32));
        }
        Ok(Solid { sides: kept, poly })
    }

    /// What of the brush lies behind further sides too: of all the sides the faces that are needed, in their order, and of sides
    /// that bound the same half-space the first. `None` exactly where no point is inside all of them.
    ///
    /// It is refused exactly where more than 128 faces are needed, with their count, but that `Memory`, for want of memory, may
    /// come in place of any answer.
    pub fn meet(&self, alloc: Global, more: &[Side]) -> Result<Option<Solid>, MeetFault>
        requires tags { HaveTags (self.now ++ more.now) }
        ensures left { IfOk result (IsLeft (self.now ++ more.now)) }
        ensures solid { IfOk result (λ met. IfSome met IsSolid) }
        ensures fault { IfErr result (NeedsTooMany (self.now ++ more.now)) }
    {
        let Some(block) = self.block(alloc)?.meet(alloc, more)? else {
            return Ok(None);
        };
        Ok(Some(block.solid(alloc)?))
    }

    /// The brush as a block, or an error for want of memory.
    pub fn block(&self, alloc: Global) -> Result<Block, AllocError>
        ensures same { IfOk result (λ block. block ≡ self.now) }
        ensures trimmed { IfOk result (IsTrimmedTo self.now) }
    {
        Ok(Block {
            poly: self.poly.copy(alloc)?,
        })
    }

    /// The sides, in order.
    pub fn sides(&self) -> &[Side]
        ensures sides { result.now ≡ self.now }
        ensures solid { IsSolid self.now }
    {
        &self.sides
    }

    /// How many vertices there are.
    pub fn vertex_count(&self) -> u32
        ensures count { HasVertexCount (half_spaces self.now) result }
    {
        self.poly.vertex_count() as u32
    }

    /// The vertex with number k, of the vertices in the order of their names: a vertex is named by the first three sides, by
    /// their numbers, that meet there. `None` exactly past the end.
    pub fn vertex(&self, k: u32) -> Option<HVertex>
        ensures vertex { HasVertex (half_spaces self.now) k result }
    {
        self.poly.vertex(k as usize)
    }

    /// The number of the vertex at place k of the loop of a side: its vertices clockwise, seen from outside, from the one
    /// with the least number on. `None` exactly past the end, or where there is no such side.
    pub fn loop_vertex(&self, face: u32, k: u32) -> Option<u32>
        ensures vertex { HasLoopVertex (half_spaces self.now) face k result }
    {
        number_as_u32(self.poly.loop_of_face(face as usize, k as usize))
    }

    /// The brush of the moved sides, each with its tag, where the points of all moved planes are in range. `None` exactly where a
    /// vertex leaves the world. An error comes for want of memory alone.
    ///
    /// It is moved as it stands, without a cut: its time grows with the slots of its vertices and edges, times a logarithm at
    /// most.
    pub fn moved(&self, alloc: Global, motion: &Motion) -> Result<Option<Solid>, AllocError>
        requires in_range { Every (λ s. first_out_of_range (moved_plane motion.now s.plane) ≡ None) self.now }
        ensures moved { IfOk result (IsMovedOf motion.now self.now) }
    {
        let Some(poly) = self.poly.moved(alloc, motion)? else {
            return Ok(None);
        };
        let sides = sides_of(alloc, &poly)?;
        Ok(Some(Solid { sides, poly }))
    }

    /// Adds a number to each tag.
    pub fn retag(&mut self, base: u32)
        requires room { Every (λ s. s.tag + base < 2 ^ 31) self.old }
        ensures tags { self.new ≡ map (with_base base) self.old }
    {
        add_to_tags(&mut self.sides, base);
        self.poly.retag(base);
    }

    /// An equal brush, or an error for want of memory.
    pub fn copy(&self, alloc: Global) -> Result<Solid, AllocError>
        ensures equal { IfOk result (λ solid. solid ≡ self.now) }
    {
        Ok(Solid {
            sides: Vec::from_slice(alloc, &self.sides)?,
            poly: self.poly.copy(alloc)?,
        })
    }
}

// The number in fewer bits.
fn number_as_u32(number: Option<usize>) -> Option<u32>
    requires small { IfSome number (λ n. n < 2 ^ 32) }
    ensures { result ≡ number }
{
    Some(number? as u32)
}
