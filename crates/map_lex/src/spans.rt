//! How far the pieces of a text go, and what is wrong with them.

ghost use Rattle.std.specs.Prelude.{◌≡◌, ◌<◌, ◌≤◌, ◌+◌, ◌==◌, true, false, [], length, take, IfSome, IfNone};
ghost use Rattle.std.specs.List.{list_all, list_any, position_or_len};
ghost use Rattle.map_lex.specs.Bytes.{is_blank, is_stray, rest_of_line, up_to_blank, closes};
ghost use Rattle.map_lex.specs.Cut.{Quoted, Open};
ghost use Rattle.map_lex.specs.Pieces.{quoted_from};

use crate::bytes::{is_blank, is_stray};

// How many bytes stand before the line's end.
pub(crate) fn line_len(text: &[u8]) -> usize
    ensures line { result ≡ position_or_len (λ b. b == 10) text.now }
    ensures within { result ≤ length text.now }
{
    for (len, &byte) in text.iter().enumerate() {
        if byte == b'\n' {
            return len;
        }
    }
    text.len()
}

// How many bytes stand before the next blank; `None` where one of them is a stray byte. Each byte is looked at once, and
// only the last one more closely.
pub(crate) fn word_len(text: &[u8]) -> Option<usize>
    ensures word { IfSome result (λ len. (len ≤ length text.now) × (len ≡ position_or_len is_blank text.now)) }
    ensures clean { IfSome result (λ len. list_any is_stray (take len text.now) ≡ false) }
    ensures stray { IfNone result (list_any is_stray (up_to_blank text.now) ≡ true) }
{
    for (len, &byte) in text.iter().enumerate() {
        if byte <= b' ' {
            if is_blank(byte) {
                return Some(len);
            }
            return None;
        }
    }
    Some(text.len())
}

pub(crate) fn has_stray(piece: &[u8]) -> bool
    ensures { result ≡ list_any is_stray piece.now }
{
    piece.iter().any(|byte| is_stray(*byte))
}

// Whether a quote between these bytes of a quoted token and those after it closes the token.
fn closes(before: &[u8], after: &[u8]) -> bool
    ensures { result ≡ closes before.now after.now }
{
    !before.ends_with(b"\\") || blanks_alone_follow(after)
}

// Whether blanks alone stand before the line's end. It stops at the first other byte, so that a
// run of blanks is looked at once more for the one quote before it.
#[tactic(auto, using(crate::proofs::Fronts::blank_line_at))]
fn blanks_alone_follow(after: &[u8]) -> bool
    ensures { result ≡ list_all is_blank (rest_of_line after.now) }
{
    for &byte in after {
        if byte == b'\n' {
            return true;
        }
        if !is_blank(byte) {
            return false;
        }
    }
    true
}

// Where the quoted token that begins with these bytes is closed, if it is closed on its line.
pub(crate) fn closing_quote(text: &[u8]) -> Option<usize>
    ensures found { IfSome result (λ len.
        (len < length text.now) × (quoted_from [] text.now ≡ Quoted (take len text.now))) }
    ensures open { IfNone result (quoted_from [] text.now ≡ Open (rest_of_line text.now)) }
{
    for (len, &byte) in text.iter().enumerate() {
        if byte == b'\n' {
            return None;
        }
        if byte == b'"' && closes(&text[..len], &text[len + 1..]) {
            return Some(len);
        }
    }
    None
}
