//! A reader in the middle of a map text.

ghost use Rattle.std.specs.Prelude.{◌≡◌, ◌^◌, ◌<◌, ◌≤◌, ◌-◌, ◌+◌, ◌==◌, List, [], ◌∷◌, true, false, length, slice_get, option_map, IsTrue, IfOk, IfErr, OnOk, OnErr};
ghost use Rattle.std.specs.List.{count_by};
ghost use Rattle.map_lex.specs.TokenList.{token_list, value_of};
ghost use Rattle.map_lex.specs.OneToken.{ends_with_backslash};
ghost use Rattle.map_text.specs.Grammar.{bracket};
ghost use Rattle.map_text.specs.Refusals.{Awaited, is_bracket, last_line, mark};
ghost use Rattle.map_text.specs.Reading.{IsFound, IsNext, IsRefused, Passes, allows, is_inner};

use crate::read_fault::{ReadFault, What};
use map_lex::{Token, Tokens};
use std::marker::Model;
use uv_lock::Format;

/// The tokens that are left of a text, and the format of its first face, once there was one.
#[derive(Drop)]
pub(crate) struct Reader<'a> {
    text: &'a [u8],
    tokens: Tokens<'a>,
    format: Option<Format>,
}

impl<'a> Model for Reader<'a> {
    ghost use Rattle.std.specs.Prelude.{◌^◌, ◌<◌, ◌-◌, length};
    ghost use Rattle.map_text.specs.Refusals.{last_line};
    ghost use Rattle.map_text.specs.Reading.{IsRefused, ReaderState};

    ghost Value = { ReaderState };

    ghost view = { λ r. record { last = last_line r.text.now; first = r.format; left = r.tokens } };

    ghost invariant = { λ r. length r.text.now < 2 ^ 32 - 1 };
}

// How many line feeds a text has.
fn line_feeds(text: &[u8]) -> usize
    ensures count { result ≡ count_by (λ b. b == 10) text.now }
    ensures few { result ≤ length text.now }
{
    text.iter().filter(|byte| **byte == b'\n').count()
}

impl<'a> Reader<'a> {
    /// A reader at the start of a text.
    pub(crate) fn new(text: &'a [u8]) -> Reader<'a>
        requires { length text.now < 2 ^ 32 - 1 }
        ensures state { result ≡ record { last = last_line text.now; first = None; left = token_list text.now } }
        ensures count { length result.left.tokens ≤ length text.now }
    {
        Reader {
            text,
            tokens: Tokens::new(text),
            format: None,
        }
    }

    /// The format of the first face that was read, if there was one.
    pub(crate) fn format(&self) -> Option<Format>
        ensures { result ≡ self.now.first }
    {
        self.format
    }

    /// The next token, if there is one. It is left.
    pub(crate) fn peek(&self) -> Option<Token<'a>>
        ensures { option_map value_of result ≡ slice_get self.now.left.tokens 0 }
    {
        self.tokens.peek()
    }

    /// The next token, where one may be missing.
    #[inline(always)]
    pub(crate) fn next_token(&mut self) -> Result<Option<Token<'a>>, ReadFault>
        ensures token { IfOk result (λ found. IsFound self.old found self.new) }
        ensures fault { IfErr result (λ why. (places : List Awaited) (place : Awaited) → IsRefused self.old (place ∷ places) why) }
    {
        Ok(self.tokens.next()?)
    }

    // What ends a text inside an entity: its last line. Apart, so that what reads a token stays short.
    #[inline(never)]
    fn ends_early(&self) -> ReadFault
        ensures { result ≡ ReadFault.EndsEarly self.now.last }
    {
        ReadFault::EndsEarly(1 + line_feeds(self.text) as u32)
    }

    /// The next token, inside an entity.
    #[inline(always)]
    pub(crate) fn token(&mut self) -> Result<Token<'a>, ReadFault>
        ensures token { IfOk result (λ token. IsNext self.old (value_of token) self.new) }
        ensures fault { IfErr result (λ why. (place : Awaited) → IsTrue (is_inner place) → IsRefused self.old (place ∷ []) why) }
    {
        match self.next_token()? {
            Some(token) => Ok(token),
            None => Err(self.ends_early()),
        }
    }

    // Takes the next token where it is this bracket between two spaces, as most are, and tells whether it did.
    #[inline(always)]
    #[tactic(auto, using(crate::proofs::Passing::mark_taken))]
    fn take_bracket(&mut self, byte: u8) -> bool
        ensures taken { result ≡ true → (what : What) → Passes self.old self.new (mark byte what ∷ []) [] (bracket byte ∷ []) [] }
        ensures left { result ≡ false → self.new ≡ self.old }
    {
        self.tokens.take_mark(byte)
    }

    // The next token, which has to be this bracket. Apart, so that what reads a bracket stays short.
    #[inline(never)]
    fn expect_anywhere(&mut self, byte: u8, what: What) -> Result<(), ReadFault>
        ensures read { OnOk result (Passes self.old self.new (mark byte what ∷ []) [] (bracket byte ∷ []) []) }
        ensures fault { IfErr result (IsRefused self.old (mark byte what ∷ [])) }
    {
        let token = self.token()?;
        if !is_bracket(&token, byte) {
            return Err(ReadFault::Expected(what, token.line));
        }
        Ok(())
    }

    /// The next token, which has to be this bracket.
    #[inline(always)]
    pub(crate) fn expect(&mut self, byte: u8, what: What) -> Result<(), ReadFault>
        ensures read { OnOk result (Passes self.old self.new (mark byte what ∷ []) [] (bracket byte ∷ []) []) }
        ensures fault { IfErr result (IsRefused self.old (mark byte what ∷ [])) }
    {
        if self.take_bracket(byte) {
            return Ok(());
        }
        self.expect_anywhere(byte, what)
    }

    /// Takes the format of a face that begins its texture on this line: it has to be that of the first one.
    pub(crate) fn settle(&mut self, format: Format, line: u32) -> Result<(), ReadFault>
        ensures allowed { OnOk result (IsTrue (allows self.old.first format)) }
        ensures state { OnOk result (self.new ≡ record { last = self.old.last; first = Some format; left = self.old.left }) }
        ensures other { OnErr result (allows self.old.first format ≡ false) }
        ensures fault { IfErr result (λ why. why ≡ ReadFault.MixedFormat line) }
    {
        if let Some(first) = self.format
            && first != format
        {
            return Err(ReadFault::MixedFormat(line));
        }
        self.format = Some(format);
        Ok(())
    }
}

/// Whether a token is this bracket.
pub(crate) fn is_bracket(token: &Token<'_>, byte: u8) -> bool
    ensures { result ≡ is_bracket byte (value_of token.now) }
{
    !token.quoted && token.text == [byte].as_slice()
}

/// Whether a text ends with a backslash.
pub(crate) fn ends_with_backslash(text: &[u8]) -> bool
    ensures { result ≡ ends_with_backslash text.now }
{
    text.ends_with(b"\\")
}
