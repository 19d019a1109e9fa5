//! Writes numbers, and the headings of entities and brushes.

ghost use Rattle.std.specs.Prelude.{◌≡◌, ◌++◌, OnOk, codes};
ghost use Rattle.std.specs.Fmt.{decimal, signed_decimal};
ghost use Rattle.fixed_num.specs.Decimals.{axis_decimals, offset_decimals, rotation_decimals};
ghost use Rattle.fixed_num.specs.Shortest.{shortest_decimal};

use fixed_num::{Micro, Nano, NumBuf, Pico, write_micro, write_nano, write_pico};
use itoa::Buffer;
use std::alloc::AllocError;

/// Appends a coordinate of a point.
pub(crate) fn write_coordinate(text: &mut Vec<u8>, number: i32) -> Result<(), AllocError>
    ensures { OnOk result (text.new.items ≡ text.old.items ++ signed_decimal number) }
{
    let mut buffer = Buffer::new();
    text.extend_from_slice(buffer.format(number).as_bytes())?;
    Ok(())
}

/// Appends contents or flags.
pub(crate) fn write_bits(text: &mut Vec<u8>, number: i64) -> Result<(), AllocError>
    ensures { OnOk result (text.new.items ≡ text.old.items ++ signed_decimal number) }
{
    let mut buffer = Buffer::new();
    text.extend_from_slice(buffer.format(number).as_bytes())?;
    Ok(())
}

/// Appends the shortest decimal of a count of millionths.
pub(crate) fn write_micro_number(text: &mut Vec<u8>, number: Micro) -> Result<(), AllocError>
    ensures { OnOk result (text.new.items ≡ text.old.items ++ shortest_decimal rotation_decimals number) }
{
    let mut buffer = NumBuf::new();
    write_micro(number, &mut buffer);
    text.extend_from_slice(buffer.text())?;
    Ok(())
}

/// Appends the shortest decimal of a count of billionths.
pub(crate) fn write_nano_number(text: &mut Vec<u8>, number: Nano) -> Result<(), AllocError>
    ensures { OnOk result (text.new.items ≡ text.old.items ++ shortest_decimal axis_decimals number) }
{
    let mut buffer = NumBuf::new();
    write_nano(number, &mut buffer);
    text.extend_from_slice(buffer.text())?;
    Ok(())
}

/// Appends the shortest decimal of a count of trillionths.
pub(crate) fn write_pico_number(text: &mut Vec<u8>, number: Pico) -> Result<(), AllocError>
    ensures { OnOk result (text.new.items ≡ text.old.items ++ shortest_decimal offset_decimals number) }
{
    let mut buffer = NumBuf::new();
    write_pico(number, &mut buffer);
    text.extend_from_slice(buffer.text())?;
    Ok(())
}

/// Appends a comment with a number, and an opening brace on a line of its own.
pub(crate) fn write_heading(
    text: &mut Vec<u8>,
    comment: &[u8],
    number: usize,
) -> Result<(), AllocError>
    ensures { OnOk result (text.new.items ≡ text.old.items ++ (comment.now ++ (decimal number ++ codes "\n{\n"))) }
{
    let mut buffer = Buffer::new();
    text.extend_from_slice(comment)?;
    text.extend_from_slice(buffer.format(number).as_bytes())?;
    text.extend_from_slice(b"\n{\n")?;
    Ok(())
}
