//! Ids as they are written in a file.

ghost use Rattle.std.specs.Prelude.{◌≡◌, ◌<◌, IfSome};
ghost use Rattle.cmd_text.specs.Spelling.{number_of};
ghost use Rattle.file_laws.specs.Numbers.{read_id};

// How many digits a number has at most.
const MOST_DIGITS: usize = 9;

// The number that one to nine digits spell.
#[tactic(auto, unfolding(cmd_text::specs::Spelling::number_of))]
fn read_number(text: &[u8]) -> Option<u32>
    ensures { result ≡ number_of text.now }
{
    if text.is_empty() || text.len() > MOST_DIGITS {
        return None;
    }
    let mut value: u32 = 0;
    for byte in text {
        if !byte.is_ascii_digit() {
            return None;
        }
        value = value * 10 + u32::from(*byte - b'0');
    }
    Some(value)
}

/// The id that a text spells: one to nine digits, above 0.
pub(crate) fn read_id(text: &[u8]) -> Option<u32>
    ensures { result ≡ read_id text.now }
{
    match read_number(text) {
        Some(number) => {
            if number == 0 {
                return None;
            }
            Some(number)
        }
        None => None,
    }
}
