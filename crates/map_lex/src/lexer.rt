//! The tokens of a text, asked for one after another.

ghost use Rattle.std.specs.Prelude.{◌≡◌, ◌+◌, ◌-◌, ◌^◌, ◌<◌, ◌≤◌, ◌↔◌, ◌∷◌, [], true, false, ℕ, IsTrue, IfOk, IfErr, IfSome, IfNone, MatchOption, MatchResult, length, option_map, slice_get};
ghost use Rattle.map_lex.specs.Cut.{begins_word};
ghost use Rattle.map_lex.specs.TokenList.{TokenList, tokens_left, cut_off, put_first, no_more, stopped, value_of, without_mark, token_list, AreTokensOf};

use crate::places::{Place, past_gap};
use crate::plain_words::{behind_mark, plain_word};
use crate::spans::{closing_quote, has_stray, line_len, word_len};
use std::marker::Model;

/// A word of a map text or a quoted text in it.
#[derive(Clone, Copy, Debug)]
pub struct Token<'a> {
    /// The bytes of the word, or those between the quotes, with all backslashes.
    pub text: &'a [u8],
    /// Whether the bytes stood between quotes.
    pub quoted: bool,
    /// The line on which it stands, counted from 1.
    pub line: u32,
}

/// Why a text can't be read any further, with the line, counted from 1, of what is at fault.
#[derive(Clone, Copy, Debug, PartialEq, Eq)]
pub enum LexFault {
    /// A quoted token isn't closed on its line.
    OpenQuote(u32),
    /// A byte below 32 is no space, tab, carriage return or line feed.
    StrayByte(u32),
}

/// The tokens of a text that are still to come, and the fault behind them or the end.
#[derive(Drop)]
pub struct Tokens<'a> {
    place: Place<'a>,
    // The fault that was answered, if there was one.
    fault: Option<LexFault>,
}

impl<'a> Model for Tokens<'a> {
    ghost use Rattle.map_lex.specs.TokenList.{TokenList, left_after};

    ghost Value = { TokenList };

    ghost view = { λ t. left_after t.fault t.place.line t.place.rest.now };
}

impl<'a> Tokens<'a> {
    /// All tokens of a text, behind a byte order mark where it begins with one.
    pub fn new(text: &'a [u8]) -> Tokens<'a>
        requires { length text.now < 2 ^ 32 - 1 }
        ensures tokens { result ≡ token_list text.now }
        ensures cut { AreTokensOf result text.now }
        ensures count { length result.tokens ≤ length text.now }
    {
        let place = Place {
            rest: without_mark(text),
            line: 1,
        };
        Tokens { place, fault: None }
    }

    /// The next token, if there is one. It is left.
    pub fn peek(&self) -> Option<Token<'a>>
        ensures { option_map value_of result ≡ slice_get self.now.tokens 0 }
    {
        if self.fault.is_some() {
            return None;
        }
        if let Some((token, _)) = plain_word(self.place) {
            return Some(token);
        }
        match first_token(self.place) {
            Ok(Some((token, _))) => Some(token),
            Ok(None) | Err(_) => None,
        }
    }

    /// The next token, or `None` where blanks and comments alone are left.
    ///
    /// A `LexFault` is answered where the next piece of the text is at fault: `StrayByte` where it
    /// has a byte below 32 that is no blank, and otherwise `OpenQuote` where it begins with a quote
    /// that isn't closed on its line. The same fault is then answered at each further call.
    #[inline(always)]
    pub fn next(&mut self) -> Result<Option<Token<'a>>, LexFault>
        // A token is the first of those that were left, and the others are left now.
        ensures token { IfOk result (λ found. IfSome found (λ token.
            self.old ≡ put_first (value_of token) self.new)) }
        // Where no token is left, the answer is what ends the list, and nothing changes.
        ensures none { (result ≡ Ok None) ↔ (self.old ≡ no_more) }
        ensures fault { IfErr result (λ fault. self.old ≡ stopped fault) }
        ensures fault_again { (fault : LexFault) → self.old ≡ stopped fault → result ≡ Err fault }
        ensures stays { self.old.tokens ≡ [] → self.new ≡ self.old }
    {
        match self.next_word() {
            Some(token) => Ok(Some(token)),
            None => self.next_token(),
        }
    }

    /// Takes the next token where it is the word of this byte alone and a space stands on either side of it, and tells whether it
    /// did. Else nothing changes, whatever the next token is.
    #[inline(always)]
    pub fn take_mark(&mut self, byte: u8) -> bool
        ensures taken { result ≡ true → (line : ℕ)
            × self.old ≡ put_first (record { text = byte ∷ []; quoted = false; line = line }) self.new }
        ensures left { result ≡ false → self.new ≡ self.old }
    {
        if self.fault.is_some() {
            return false;
        }
        match behind_mark(self.place.rest, byte) {
            Some(rest) => {
                self.place.rest = rest;
                true
            }
            None => false,
        }
    }

    // The next token, by the short way.
    #[inline(always)]
    fn next_word(&mut self) -> Option<Token<'a>>
        ensures token { IfSome result (λ token. self.old ≡ put_first (value_of token) self.new) }
        ensures none { IfNone result (self.new ≡ self.old) }
    {
        if self.fault.is_some() {
            return None;
        }
        let (token, place) = plain_word(self.place)?;
        self.place = place;
        Some(token)
    }

    // The next token, by the way that finds each.
    #[inline(never)]
    #[tactic(auto, using(crate::proofs::Reading::left_end))]
    fn next_token(&mut self) -> Result<Option<Token<'a>>, LexFault>
        ensures token { IfOk result (λ found. IfSome found (λ token.
            self.old ≡ put_first (value_of token) self.new)) }
        ensures none { (result ≡ Ok None) ↔ (self.old ≡ no_more) }
        ensures fault { IfErr result (λ fault. self.old ≡ stopped fault) }
        ensures fault_again { (fault : LexFault) → self.old ≡ stopped fault → result ≡ Err fault }
        ensures stays { self.old.tokens ≡ [] → self.new ≡ self.old }
    {
        if let Some(fault) = self.fault {
            return Err(fault);
        }
        match first_token(self.place) {
            Ok(None) => {
                self.place.rest = &[];
                Ok(None)
            }
            Ok(Some((token, place))) => {
                self.place = place;
                Ok(Some(token))
            }
            Err(fault) => {
                self.fault = Some(fault);
                Err(fault)
            }
        }
    }
}

fn without_mark(text: &[u8]) -> &[u8]
    ensures rest { result.now ≡ without_mark text.now }
    ensures no_longer { length result.now ≤ length text.now }
{
    let mark = b"\xEF\xBB\xBF";
    if text.starts_with(mark) {
        &text[mark.len()..]
    } else {
        text
    }
}

// The first token from a place on, and what follows it.
#[tactic(auto, using(crate::proofs::Reading::left_empty))]
fn first_token(place: Place<'_>) -> Result<Option<(Token<'_>, Place<'_>)>, LexFault>
    ensures left { MatchResult result
        (λ found. MatchOption found (tokens_left place.entry.line place.entry.rest.now ≡ no_more)
        (λ cut. tokens_left place.entry.line place.entry.rest.now
        ≡ put_first (value_of cut.0) (tokens_left cut.1.line cut.1.rest.now)))
        (λ fault. tokens_left place.entry.line place.entry.rest.now ≡ stopped fault) }
{
    let Place { rest, line } = past_gap(place)?;
    let (token, rest) = match rest {
        [] => return Ok(None),
        [b'"', text @ ..] => quoted(text, line)?,
        _ => word(rest, line)?,
    };
    Ok(Some((token, Place { rest, line })))
}

// The word that begins here, and what follows it.
fn word(text: &[u8], line: u32) -> Result<(Token<'_>, &[u8]), LexFault>
    requires { IsTrue (begins_word text.now) }
    ensures left { tokens_left line text.now ≡ cut_off line result }
    ensures no_longer { IfOk result (λ cut. length cut.1.now ≤ length text.now) }
{
    let Some(len) = word_len(text) else {
        return Err(LexFault::StrayByte(line));
    };
    let (word, rest) = text.split_at(len);
    let token = Token {
        text: word,
        quoted: false,
        line,
    };
    Ok((token, rest))
}

// The quoted token whose bytes begin here, behind its quote, and what follows it. Apart from words, so that these stay short.
#[inline(never)]
fn quoted(text: &[u8], line: u32) -> Result<(Token<'_>, &[u8]), LexFault>
    ensures left { tokens_left line (34 ∷ text.now) ≡ cut_off line result }
    ensures no_longer { IfOk result (λ cut. length cut.1.now ≤ length text.now) }
{
    let Some(len) = closing_quote(text) else {
        if has_stray(&text[..line_len(text)]) {
            return Err(LexFault::StrayByte(line));
        }
        return Err(LexFault::OpenQuote(line));
    };
    let inside = &text[..len];
    if has_stray(inside) {
        return Err(LexFault::StrayByte(line));
    }
    let token = Token {
        text: inside,
        quoted: true,
        line,
    };
    Ok((token, &text[len + 1..]))
}
