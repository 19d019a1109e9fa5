//! The kinds of bytes that decide where a text is cut.

ghost use Rattle.std.specs.Prelude.{◌≡◌};
ghost use Rattle.map_lex.specs.Bytes.{is_blank, is_stray};

// Space, tab, carriage return or line feed.
pub(crate) fn is_blank(byte: u8) -> bool
    ensures { result ≡ is_blank byte }
{
    matches!(byte, b' ' | b'\t' | b'\r' | b'\n')
}

// Below 32 and no blank.
pub(crate) fn is_stray(byte: u8) -> bool
    ensures { result ≡ is_stray byte }
{
    byte < 32 && !is_blank(byte)
}
