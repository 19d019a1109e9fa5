//! Texts in memory, found by their names.

ghost use Rattle.std.specs.Prelude.{◌≡◌, ◌≢◌, ◌<◌, ◌≤◌, ◌↔◌, length, OnOk, option_copied, vec_len};
ghost use Rattle.outside_io.specs.Texts.{text_named, texts_of};

use crate::faults::FetchEnd;

/// A name and the bytes under it.
pub(crate) type Pair = (String, Vec<u8>);

/// The bytes under this name. Of equal names the last one counts.
pub(crate) fn find<'a>(texts: &'a [Pair], name: &str) -> Option<&'a [u8]>
    ensures { option_copied result ≡ text_named (texts_of texts.now) name.now }
{
    let mut found = None;
    for text in texts {
        if text.0.as_str() == name {
            found = Some(text.1.as_slice());
        }
    }
    found
}

/// Replaces `out` by these bytes, where they are at most `limit`.
pub(crate) fn copy(bytes: &[u8], limit: usize, out: &mut Vec<u8>) -> Result<(), FetchEnd>
    ensures copied { OnOk result (out.new.items ≡ bytes.now) }
    ensures within { OnOk result (vec_len out.new ≤ limit) }
    ensures too_long { (result ≡ Err FetchEnd.TooLong) ↔ (limit < length bytes.now) }
    ensures found { result ≢ Err FetchEnd.Failed }
{
    if bytes.len() > limit {
        return Err(FetchEnd::TooLong);
    }
    out.clear();
    match out.extend_from_slice(bytes) {
        Ok(()) => Ok(()),
        Err(_) => Err(FetchEnd::Memory),
    }
}
