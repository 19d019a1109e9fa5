//! Motions as texts.

ghost use Rattle.std.specs.Prelude.{◌≡◌, ◌≤◌, ◌++◌, All, IfOk, OnOk, unsigned_abs};
ghost use Rattle.orient48.specs.Kept.{vector_in};
ghost use Rattle.orient48.specs.MotionTexts.{is_last_row, motion_of_numbers, motion_text, read_motion, words_of};
ghost use Rattle.orient48.specs.Motions.{shift_limit};
ghost use Rattle.orient48.specs.Reading.{first_numbers, row_text, small_in, spaced};

use crate::motion::Motion;
use crate::orient::Orient;
use crate::words::first_word;
use fixed_num::{Text, WholeFault, read_whole};
use itoa::Buffer;
use std::alloc::{AllocError, Global};

/// No number of a motion's text is greater than this in size.
const LIMIT: i64 = 1_000_000;

/// The motion that a text stands for: sixteen number words row by row, with the shift as a fourth column and the last row
/// `0 0 0 1`. One or more blanks (space, tab, carriage return, line feed) stand between neighbours, and none before the
/// first word or after the last. `None` exactly where the words, rounded to six decimals, aren't whole numbers, their
/// matrix is no signed permutation, a coordinate of the shift is above 1,000,000 in size, or the last row is another.
pub fn read_motion(text: &[u8]) -> Option<Motion>
    ensures { result ≡ read_motion text.now }
{
    motion_of(read_numbers(text)?)
}

// Sixteen whole numbers, each at most 1,000,000 in size.
fn read_numbers(text: &[u8]) -> Option<[i64; 16]>
    ensures { result ≡ first_numbers 16 (words_of text.now) }
{
    let mut numbers = [0; 16];
    let mut rest = Some(text);
    for place in 0..16 {
        let (word, behind) = first_word(rest?);
        numbers[place] = small(word)?;
        rest = behind;
    }
    match rest {
        None => Some(numbers),
        Some(_) => None,
    }
}

// The whole number that a word is, at most 1,000,000 in size.
fn small(word: &[u8]) -> Option<i64>
    ensures { result ≡ small_in word.now }
{
    match read_whole(word, LIMIT) {
        Ok(number) => Some(number),
        Err(WholeFault::NotNumber) => None,
        Err(WholeFault::NotWhole) => None,
        Err(WholeFault::TooLarge) => None,
    }
}

// The motion of sixteen numbers, row by row.
fn motion_of(n: [i64; 16]) -> Option<Motion>
    requires { All (λ x. unsigned_abs x ≤ shift_limit) n }
    ensures { result ≡ motion_of_numbers n }
{
    if !is_last_row(n[12], n[13], n[14], n[15]) {
        return None;
    }
    let orient = Orient::of_matrix([[n[0], n[1], n[2]], [n[4], n[5], n[6]], [n[8], n[9], n[10]]])?;
    Motion::of(orient, [n[3] as i32, n[7] as i32, n[11] as i32])
}

fn is_last_row(x: i64, y: i64, z: i64, w: i64) -> bool
    ensures { result ≡ is_last_row x y z w }
{
    x == 0 && (y == 0 && (z == 0 && w == 1))
}

/// The text of a motion: sixteen numbers row by row, one blank between. An error only where there is no memory.
pub fn write_motion(alloc: Global, m: &Motion) -> Result<Text, AllocError>
    ensures { IfOk result (λ text. text ≡ motion_text m.now) }
{
    let [x, y, z] = m.orient().matrix();
    let shift = m.shift();
    let mut text = Vec::new(alloc);
    write_row(&mut text, x, shift[0])?;
    write_row(&mut text, y, shift[1])?;
    write_row(&mut text, z, shift[2])?;
    text.extend_from_slice(b"0 0 0 1")?;
    Text::of(alloc, &text)
}

// Appends a row of the matrix and a coordinate of the shift, with a blank behind each number.
fn write_row(text: &mut Vec<u8>, row: [i64; 3], shift: i32) -> Result<(), AllocError>
    ensures { OnOk result (text.new.items ≡ text.old.items ++ row_text (vector_in row) shift) }
{
    write_number(text, row[0])?;
    write_number(text, row[1])?;
    write_number(text, row[2])?;
    write_number(text, i64::from(shift))
}

// Appends a number and a blank.
fn write_number(text: &mut Vec<u8>, number: i64) -> Result<(), AllocError>
    ensures { OnOk result (text.new.items ≡ text.old.items ++ spaced number) }
{
    let mut buffer = Buffer::new();
    text.extend_from_slice(buffer.format(number).as_bytes())?;
    text.extend_from_slice(b" ")?;
    Ok(())
}
