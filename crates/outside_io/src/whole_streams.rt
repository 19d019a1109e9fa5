//! All that a reader gives, and all bytes to a writer.

ghost use Rattle.std.specs.Prelude.{◌≡◌, ◌≤◌, true, IfOk, IfSome, OnOk, vec_len};
ghost use Rattle.std.specs.Io.KnownBytes.{Appends};
ghost use Rattle.outside_io.specs.Streams.{IsWhole};

use std::io;
use std::io::{Read, Write};

/// Replaces `out` by all that the reader gives, and tells whether that is at most `limit` bytes. Of
/// more bytes one past the limit is read.
pub fn read_whole<R: Read + Drop>(reader: R, limit: usize, out: &mut Vec<u8>) -> io::Result<bool>
    ensures within { IfOk result (λ fits. fits ≡ true → vec_len out.new ≤ limit) }
    // Where the reader tells what is left of its bytes, these are what `out` holds.
    ensures whole { IfOk result (λ fits. IfSome (R.remaining reader)
        (λ bytes. IsWhole bytes limit out.new.items fits)) }
{
    out.clear();
    let most = (limit as u64).saturating_add(1);
    reader.take(most).read_to_end(out)?;
    Ok(out.len() <= limit)
}

/// Writes all of the bytes, and flushes.
pub fn write_whole<W: Write>(writer: &mut W, bytes: &[u8]) -> io::Result<()>
    // Where the writer tells its bytes, they have grown by these.
    ensures { OnOk result (Appends (W.contents writer.old) (W.contents writer.new) bytes.now) }
{
    writer.write_all(bytes)?;
    writer.flush()
}
