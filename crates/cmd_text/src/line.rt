//! Lines that the program gives: a name, and up to three fields behind it.

ghost use Rattle.std.specs.Prelude.{◌≡◌, ◌≤◌, [], ◌∷◌, length, Some, decimal};
ghost use Rattle.cmd_text.specs.declared.line.Field.TheVariants.{Number, Word as Text, Counted};
ghost use Rattle.cmd_text.specs.Lines.{words, fields_of, words_of_line};

use fixed_num::Frac;
use key_table::Word;

/// A word of a line behind its name.
#[derive(Clone, Copy, Debug, PartialEq, Eq)]
pub enum Field {
    Number(u64),
    /// A fraction, as `p/q`, or as `p` where q is 1.
    Ratio(Frac),
    /// A word as it stands.
    Word(Word),
    /// A number behind the word that says what it counts.
    Counted(Word, u64),
}

impl Field {
    /// A number.
    pub fn number(count: u32) -> Option<Field>
        ensures { result ≡ Some (Number count) }
    {
        Some(Field::Number(u64::from(count)))
    }

    /// A word of at most 32 bytes.
    pub fn word(text: &[u8]) -> Option<Field>
        requires short { length text.now ≤ 32 }
        ensures field { result ≡ Some (Text text.now) }
    {
        Some(Field::Word(Word::known(text)))
    }

    /// A number behind the word that says what it counts.
    pub fn counted(label: &[u8], count: u64) -> Option<Field>
        requires short { length label.now ≤ 32 }
        ensures field { result ≡ Some (Counted label.now count) }
    {
        Some(Field::Counted(Word::known(label), count))
    }
}

/// The name of a line and the fields behind it.
#[derive(Clone, Copy, Debug, PartialEq, Eq)]
pub struct Line {
    pub name: Word,
    pub fields: [Option<Field>; 3],
}

impl Line {
    /// The line of a name of at most 32 bytes and of these fields.
    pub fn of(name: &[u8], fields: [Option<Field>; 3]) -> Line
        requires short { length name.now ≤ 32 }
        ensures line { words_of_line result ≡ words name.now (fields_of fields) }
    {
        Line {
            name: Word::known(name),
            fields,
        }
    }
    /// The line of a name alone.
    pub fn bare(name: &[u8]) -> Line
        requires { length name.now ≤ 32 }
        ensures { words_of_line result ≡ words name.now [] }
    {
        Line::of(name, [None, None, None])
    }

    /// The line of a name and one number.
    pub fn one(name: &[u8], a: u32) -> Line
        requires { length name.now ≤ 32 }
        ensures { words_of_line result ≡ words name.now (decimal a ∷ []) }
    {
        Line::of(name, [Field::number(a), None, None])
    }

    /// The line of a name and two numbers.
    pub fn two(name: &[u8], a: u32, b: u32) -> Line
        requires { length name.now ≤ 32 }
        ensures { words_of_line result ≡ words name.now (decimal a ∷ decimal b ∷ []) }
    {
        Line::of(name, [Field::number(a), Field::number(b), None])
    }

    /// The line of a name and three numbers.
    pub fn three(name: &[u8], a: u32, b: u32, c: u32) -> Line
        requires { length name.now ≤ 32 }
        ensures { words_of_line result ≡ words name.now (decimal a ∷ decimal b ∷ decimal c ∷ []) }
    {
        Line::of(name, [Field::number(a), Field::number(b), Field::number(c)])
    }
}
