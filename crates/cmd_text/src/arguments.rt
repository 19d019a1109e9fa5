//! The words behind a command's, read one after another.

ghost use Rattle.std.specs.Prelude.{◌≡◌, ◌<◌, ◌≤◌, ◌+◌, ◌∷◌, [], length, drop, IfOk, IfSome, MatchOption};
ghost use Rattle.std.specs.List.{AllByRecursion};
ghost use Rattle.cmd_text.specs.Kept.{IsNumber, IsQuarters, IsCoordinate, IsShift, IsPoint, AreShifts, IsThickness, IsMicro, IsNano, IsPico, KeepsSurface};
ghost use Rattle.exact_geom.specs.Rounding.{IsGrid};
ghost use Rattle.fixed_num.specs.Whole.{IsWide};
ghost use Rattle.cmd_text.specs.Commands.{text_at, number_at, quarters_at, coordinate_at, shift_at, point_at, shifts_at, thickness_at, grid_at, axis_at, part_at, switch_at, micro_at, nano_at, pico_at, wide_at, plane_at, offsets_at, scales_at, numbers, points, surface_of, surface_numbers, coordinate};

use crate::command::{Part, SurfaceWords};
use crate::kinds::{COORDINATE_LIMIT, SHIFT_LIMIT};
use crate::numbers::{micro_of, nano_of, pico_of, wide_of};
use crate::spelling::{
    is_dash, read_axis, read_grid, read_number, read_number_within, read_part, read_switch,
    read_thickness, read_whole,
};
use crate::words::Words;
use exact_geom::{Axis, Rows};
use fixed_num::{Micro, Nano, Pico, Text};
use std::alloc::{AllocError, Global};

// Each reads the next word, or the next three. The words are known to fit; of one that doesn't, any value of its range
// is read.
impl<'a> Words<'a> {
    fn bytes(&mut self) -> &'a [u8]
        ensures value { result.now ≡ text_at 0 self.old }
        ensures rest { self.new ≡ drop 1 self.old }
        ensures fewer { length self.new ≤ length self.old }
    {
        match self.next() {
            Some(word) => word,
            None => &[],
        }
    }

    pub(crate) fn text(&mut self, alloc: Global) -> Result<Text, AllocError>
        ensures value { IfOk result (λ text. text ≡ text_at 0 self.old) }
        ensures rest { self.new ≡ drop 1 self.old }
        ensures fewer { length self.new ≤ length self.old }
    {
        Text::of(alloc, self.bytes())
    }

    pub(crate) fn number(&mut self) -> u32
        ensures value { result ≡ number_at 0 self.old }
        ensures within { IsNumber result }
        ensures rest { self.new ≡ drop 1 self.old }
        ensures fewer { length self.new ≤ length self.old }
    {
        read_number(self.bytes()).unwrap_or(0)
    }

    pub(crate) fn quarters(&mut self) -> u8
        ensures value { result ≡ quarters_at 0 self.old }
        ensures within { IsQuarters result }
        ensures rest { self.new ≡ drop 1 self.old }
        ensures fewer { length self.new ≤ length self.old }
    {
        read_number_within(self.bytes(), 1, 3).unwrap_or(1) as u8
    }

    pub(crate) fn coordinate(&mut self) -> i32
        ensures value { result ≡ coordinate_at 0 self.old }
        ensures within { IsCoordinate result }
        ensures rest { self.new ≡ drop 1 self.old }
        ensures fewer { length self.new ≤ length self.old }
    {
        read_whole(self.bytes(), COORDINATE_LIMIT).unwrap_or(0)
    }

    fn shift(&mut self) -> i32
        ensures value { result ≡ shift_at 0 self.old }
        ensures within { IsShift result }
        ensures rest { self.new ≡ drop 1 self.old }
        ensures fewer { length self.new ≤ length self.old }
    {
        read_whole(self.bytes(), SHIFT_LIMIT).unwrap_or(0)
    }

    pub(crate) fn point(&mut self) -> [i32; 3]
        ensures value { result ≡ point_at 0 self.old }
        ensures within { IsPoint result }
        ensures rest { self.new ≡ drop 3 self.old }
        ensures fewer { length self.new ≤ length self.old }
    {
        [self.coordinate(), self.coordinate(), self.coordinate()]
    }

    pub(crate) fn shifts(&mut self) -> [i32; 3]
        ensures value { result ≡ shifts_at 0 self.old }
        ensures within { AreShifts result }
        ensures rest { self.new ≡ drop 3 self.old }
        ensures fewer { length self.new ≤ length self.old }
    {
        [self.shift(), self.shift(), self.shift()]
    }

    #[tactic(auto, using(crate::proofs::Drops::drop_again))]
    pub(crate) fn plane(&mut self) -> [[i32; 3]; 3]
        ensures value { result ≡ plane_at 0 self.old }
        ensures within { AllByRecursion IsPoint result }
        ensures rest { self.new ≡ drop 9 self.old }
        ensures fewer { length self.new ≤ length self.old }
    {
        [self.point(), self.point(), self.point()]
    }

    pub(crate) fn thickness(&mut self) -> i32
        ensures value { result ≡ thickness_at 0 self.old }
        ensures within { IsThickness result }
        ensures rest { self.new ≡ drop 1 self.old }
        ensures fewer { length self.new ≤ length self.old }
    {
        read_thickness(self.bytes()).unwrap_or(1) as i32
    }

    pub(crate) fn grid(&mut self) -> i32
        ensures value { result ≡ grid_at 0 self.old }
        ensures within { IsGrid result }
        ensures rest { self.new ≡ drop 1 self.old }
        ensures fewer { length self.new ≤ length self.old }
    {
        read_grid(self.bytes()).unwrap_or(1) as i32
    }

    pub(crate) fn axis(&mut self) -> Axis
        ensures value { result ≡ axis_at 0 self.old }
        ensures rest { self.new ≡ drop 1 self.old }
        ensures fewer { length self.new ≤ length self.old }
    {
        read_axis(self.bytes()).unwrap_or(Axis::X)
    }

    pub(crate) fn part(&mut self) -> Part
        ensures value { result ≡ part_at 0 self.old }
        ensures rest { self.new ≡ drop 1 self.old }
        ensures fewer { length self.new ≤ length self.old }
    {
        read_part(self.bytes()).unwrap_or(Part::Front)
    }

    pub(crate) fn switch(&mut self) -> bool
        ensures value { result ≡ switch_at 0 self.old }
        ensures rest { self.new ≡ drop 1 self.old }
        ensures fewer { length self.new ≤ length self.old }
    {
        read_switch(self.bytes()).unwrap_or(false)
    }

    pub(crate) fn micro(&mut self) -> Micro
        ensures value { result ≡ micro_at 0 self.old }
        ensures within { IsMicro result }
        ensures rest { self.new ≡ drop 1 self.old }
        ensures fewer { length self.new ≤ length self.old }
    {
        micro_of(self.bytes()).unwrap_or(Micro(0))
    }

    fn nano(&mut self) -> Nano
        ensures value { result ≡ nano_at 0 self.old }
        ensures within { IsNano result }
        ensures rest { self.new ≡ drop 1 self.old }
        ensures fewer { length self.new ≤ length self.old }
    {
        nano_of(self.bytes()).unwrap_or(Nano(0))
    }

    fn pico(&mut self) -> Pico
        ensures value { result ≡ pico_at 0 self.old }
        ensures within { IsPico result }
        ensures rest { self.new ≡ drop 1 self.old }
        ensures fewer { length self.new ≤ length self.old }
    {
        pico_of(self.bytes()).unwrap_or(Pico(0))
    }

    #[tactic(auto, using(crate::proofs::Drops::drop_again))]
    pub(crate) fn offsets(&mut self) -> [Pico; 2]
        ensures value { result ≡ offsets_at 0 self.old }
        ensures within { AllByRecursion IsPico result }
        ensures rest { self.new ≡ drop 2 self.old }
        ensures fewer { length self.new ≤ length self.old }
    {
        [self.pico(), self.pico()]
    }

    #[tactic(auto, using(crate::proofs::Drops::drop_again))]
    pub(crate) fn scales(&mut self) -> [Nano; 2]
        ensures value { result ≡ scales_at 0 self.old }
        ensures within { AllByRecursion IsNano result }
        ensures rest { self.new ≡ drop 2 self.old }
        ensures fewer { length self.new ≤ length self.old }
    {
        [self.nano(), self.nano()]
    }

    fn wide(&mut self) -> i64
        ensures value { result ≡ wide_at 0 self.old }
        ensures within { IsWide result }
        ensures rest { self.new ≡ drop 1 self.old }
        ensures fewer { length self.new ≤ length self.old }
    {
        wide_of(self.bytes()).unwrap_or(0)
    }

    /// All further words, as numbers.
    pub(crate) fn numbers(mut self, alloc: Global) -> Result<Rows<u32>, AllocError>
        ensures value { IfOk result (λ rows. rows ≡ numbers self.entry) }
        ensures within { IfOk result (λ rows. AllByRecursion IsNumber rows) }
        ensures fewer { IfOk result (λ rows. length rows ≤ length self.entry) }
    {
        let mut list = Vec::new(alloc);
        while let Some(word) = self.next() {
            list.push(read_number(word).unwrap_or(0))?;
        }
        Ok(Rows::of(list))
    }

    // The next three words, where there are three.
    fn next_point(&mut self) -> Option<[i32; 3]>
        ensures point { MatchOption result (points self.old ≡ []) (λ point. points self.old ≡ point ∷ points self.new) }
        ensures shorter { IfSome result (λ point. length self.new < length self.old) }
        ensures within { IfSome result IsPoint }
    {
        let x = self.next()?;
        let y = self.next()?;
        let z = self.next()?;
        Some([coordinate_of(x), coordinate_of(y), coordinate_of(z)])
    }

    /// All further words, as points.
    pub(crate) fn points(mut self, alloc: Global) -> Result<Rows<[i32; 3]>, AllocError>
        ensures value { IfOk result (λ rows. rows ≡ points self.entry) }
        ensures within { IfOk result (λ rows. AllByRecursion IsPoint rows) }
        ensures fewer { IfOk result (λ rows. length rows ≤ length self.entry) }
    {
        let mut list = Vec::new(alloc);
        while let Some(point) = self.next_point() {
            list.push(point)?;
        }
        Ok(Rows::of(list))
    }

    /// All further words, as what becomes of surface numbers.
    pub(crate) fn surface(self) -> SurfaceWords
        ensures value { result ≡ surface_of self.entry }
        ensures within { KeepsSurface result }
    {
        let mut first = self.again();
        match first.next() {
            None => SurfaceWords::Stay,
            Some(word) => {
                if is_dash(word) {
                    SurfaceWords::Out
                } else {
                    self.surface_numbers()
                }
            }
        }
    }

    fn surface_numbers(mut self) -> SurfaceWords
        ensures value { result ≡ surface_numbers self.entry }
        ensures within { KeepsSurface result }
    {
        SurfaceWords::Set {
            contents: self.wide(),
            flags: self.wide(),
            value: self.micro(),
        }
    }
}

fn coordinate_of(word: &[u8]) -> i32
    ensures value { result ≡ coordinate word.now }
    ensures within { IsCoordinate result }
{
    read_whole(word, COORDINATE_LIMIT).unwrap_or(0)
}
