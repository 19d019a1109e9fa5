//! The places of entities: three numbers in a text, read, moved and written.

ghost use Rattle.std.specs.Prelude.{◌≡◌, ◌++◌, ◌∷◌, [], ◌<◌, ◌≤◌, ◌^◌, ◌+ℤ◌, ◌*ℤ◌, pos, unsigned_abs, option_map, option_and_then, IfOk, OnOk};
ghost use Rattle.fixed_num.specs.Shortest.{shortest_decimal};
ghost use Rattle.orient48.specs.Motions.{vector_at};
ghost use Rattle.map_model.specs.Origins.{in_range, three_counts, read_origin, moved_counts, written_origin, moved_origin, is_origin_stuck};
ghost use Rattle.edit_ops.specs.Places.{counts_of, small, count_in};

use fixed_num::{Micro, MicroFault, NumBuf, Text, read_micro, write_micro};
use map_nodes::Props;
use orient48::{Motion, first_word};
use std::alloc::{AllocError, Global};

/// Counts of millionths are below this in size.
const LIMIT: u64 = 1_000_000_000_000;

/// The place of an entity.
#[derive(Clone, Copy, Debug, PartialEq, Eq)]
pub(crate) struct Place {
    pub(crate) x: Micro,
    pub(crate) y: Micro,
    pub(crate) z: Micro,
}

// The place that a text tells: three number words with blanks between, each below 1,000,000 in size. `None` for any other text.
fn read_place(text: &[u8]) -> Option<Place>
    ensures { option_map counts_of result ≡ read_origin text.now }
{
    let (x, rest) = first_word(text);
    let (y, rest) = first_word(rest?);
    let (z, rest) = first_word(rest?);
    match rest {
        None => place_of_words(x, y, z),
        Some(_) => None,
    }
}

// The place of three words.
fn place_of_words(x: &[u8], y: &[u8], z: &[u8]) -> Option<Place>
    ensures { option_map counts_of result ≡ three_counts (x.now ∷ y.now ∷ z.now ∷ []) }
{
    Some(Place {
        x: number(x)?,
        y: number(y)?,
        z: number(z)?,
    })
}

// The count of a number word. `None` for another word, and for a number that is too large.
fn number(word: &[u8]) -> Option<Micro>
    ensures { result ≡ count_in word.now }
{
    match read_micro(word) {
        Ok(count) => Some(count),
        Err(MicroFault::NotNumber) => None,
        Err(MicroFault::TooLarge) => None,
    }
}

// Where the motion takes a place. `None` where a coordinate is too large then.
fn moved_place(place: Place, motion: &Motion) -> Option<Place>
    ensures { option_map counts_of result ≡ in_range (moved_counts motion.now (counts_of place)) }
{
    let [x, y, z] = motion
        .orient()
        .apply([count(place.x), count(place.y), count(place.z)]);
    let shift = motion.shift();
    place_at(
        shifted(x, shift[0]),
        shifted(y, shift[1]),
        shifted(z, shift[2]),
    )
}

fn count(number: Micro) -> i64
    ensures value { result ≡ number }
    ensures size { unsigned_abs result < 10 ^ 12 }
{
    number.0
}

// A count moved by whole units.
fn shifted(count: i64, shift: i32) -> i64
    requires count { unsigned_abs count < 10 ^ 12 }
    requires shift { unsigned_abs shift ≤ 1000000 }
    ensures { result ≡ count +ℤ pos 1000000 *ℤ shift }
{
    count + 1_000_000 * i64::from(shift)
}

// The place of three counts.
fn place_at(x: i64, y: i64, z: i64) -> Option<Place>
    ensures { option_map counts_of result ≡ in_range (vector_at x y z) }
{
    Some(Place {
        x: micro(x)?,
        y: micro(y)?,
        z: micro(z)?,
    })
}

fn micro(count: i64) -> Option<Micro>
    ensures { result ≡ small count }
{
    if count.unsigned_abs() < LIMIT {
        Some(Micro(count))
    } else {
        None
    }
}

// Where the motion takes the place that a text tells.
fn moved_from(text: &[u8], motion: &Motion) -> Option<Place>
    ensures { option_map counts_of result ≡ option_and_then (λ v. in_range (moved_counts motion.now v)) (read_origin text.now) }
{
    moved_place(read_place(text)?, motion)
}

// The place as a text: three shortest decimals with one blank between.
fn write_place(alloc: Global, place: Place) -> Result<Text, AllocError>
    ensures { IfOk result (λ text. text ≡ written_origin (counts_of place)) }
{
    let mut text = Vec::new(alloc);
    write_number(&mut text, place.x)?;
    text.push(b' ')?;
    write_number(&mut text, place.y)?;
    text.push(b' ')?;
    write_number(&mut text, place.z)?;
    Ok(Text::from_vec(text))
}

fn write_number(text: &mut Vec<u8>, number: Micro) -> Result<(), AllocError>
    ensures { OnOk result (text.new.items ≡ text.old.items ++ shortest_decimal 6 number) }
{
    let mut buffer = NumBuf::new();
    write_micro(number, &mut buffer);
    text.extend_from_slice(buffer.text())?;
    Ok(())
}

/// The text of an origin, moved. `None` where it doesn't tell a place, or a coordinate is too large then.
pub(crate) fn moved_origin(
    alloc: Global,
    text: &[u8],
    motion: &Motion,
) -> Result<Option<Text>, AllocError>
    ensures { IfOk result (λ moved. moved ≡ moved_origin motion.now text.now) }
{
    match moved_from(text, motion) {
        Some(place) => Ok(Some(write_place(alloc, place)?)),
        None => Ok(None),
    }
}

/// Whether there is an origin that can't be moved.
pub(crate) fn is_stuck(props: &Props, motion: &Motion) -> bool
    ensures { result ≡ is_origin_stuck motion.now props.now }
{
    match props.value(b"origin") {
        None => false,
        Some(text) => moved_from(text, motion).is_none(),
    }
}
