//! The words of a text that blanks separate.

ghost use Rattle.std.specs.Prelude.{◌≡◌, ◌∷◌, option_copied};
ghost use Rattle.orient48.specs.MotionTexts.{is_blank, words_of};
ghost use Rattle.orient48.specs.Reading.{after_blanks, words_left};

fn is_blank(byte: u8) -> bool
    ensures { result ≡ is_blank byte }
{
    byte == b' ' || byte == b'\t' || byte == b'\r' || byte == b'\n'
}

// What stands behind the blanks that the text begins with.
fn past_blanks(text: &[u8]) -> &[u8]
    ensures { result.now ≡ after_blanks text.now }
{
    for (len, &byte) in text.iter().enumerate() {
        if !is_blank(byte) {
            return &text[len..];
        }
    }
    &[]
}

/// The first word of a text as blanks cut it, and what stands behind the blanks that follow it; `None` where none do. A text that
/// begins with a blank has an empty first word. Blanks are spaces, tabs, carriage returns and line feeds.
pub fn first_word(text: &[u8]) -> (&[u8], Option<&[u8]>)
    ensures { words_of text.now ≡ result.0.now ∷ words_left (option_copied result.1) }
{
    for (len, &byte) in text.iter().enumerate() {
        if is_blank(byte) {
            return (&text[..len], Some(past_blanks(&text[len..])));
        }
    }
    (text, None)
}
