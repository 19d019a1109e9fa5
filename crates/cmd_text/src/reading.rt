//! Lines read into commands.

ghost use Rattle.std.specs.Prelude.{◌≡◌, ◌≤◌, ◌<◌, length, IfOk, IfSome};
ghost use Rattle.cmd_text.specs.Kept.{KeepsRanges, KeepsCounts, KeepsTexts};
ghost use Rattle.std.specs.List.{list_all};
ghost use Rattle.cmd_text.specs.Cut.{is_blank};
ghost use Rattle.cmd_text.specs.Reading.{verb_of, without_return, is_comment, is_silent, by_verb, by_words, words_read, line_read, IsRead};

use crate::build::command;
use crate::command::{Command, LineFault};
use crate::misfit::misfit;
use crate::verb::{Verb, verb_at};
use crate::words::{Words, is_blank};
use key_table::command_keys;
use std::alloc::Global;

/// The most bytes of a line.
const MOST_BYTES: usize = 4096;

fn verb_of(word: &[u8]) -> Option<Verb>
    ensures { result ≡ verb_of word.now }
{
    match command_keys().find(word) {
        Some(place) => verb_at(place),
        None => None,
    }
}

fn without_return(line: &[u8]) -> &[u8]
    ensures rest { result.now ≡ without_return line.now }
    ensures no_longer { length result.now ≤ length line.now }
{
    if line.ends_with(b"\r") {
        &line[..line.len() - 1]
    } else {
        line
    }
}

fn is_comment(line: &[u8]) -> bool
    ensures { result ≡ is_comment line.now }
{
    line.starts_with(b"#")
}

fn all_blank(line: &[u8]) -> bool
    ensures { result ≡ list_all is_blank line.now }
{
    line.iter().all(|byte| is_blank(*byte))
}

#[tactic(auto, unfolding(crate::specs::Reading::is_silent))]
fn is_silent(line: &[u8]) -> bool
    ensures { result ≡ is_silent line.now }
{
    is_comment(line) || all_blank(line)
}

// The command that the words behind its own spell.
fn read_arguments(
    verb: Option<Verb>,
    words: Words<'_>,
    alloc: Global,
) -> Result<Option<Command>, LineFault>
    requires { length words < 4096 }
    ensures value { IsRead (by_verb verb words.entry) result }
    ensures within { IfOk result (λ read. IfSome read KeepsRanges) }
{
    let Some(verb) = verb else {
        return Err(LineFault::UnknownWord);
    };
    if let Some(place) = misfit(verb, words.again()) {
        return Err(LineFault::Arguments(place));
    }
    match command(verb, words, alloc) {
        Ok(command) => Ok(Some(command)),
        Err(_) => Err(LineFault::Memory),
    }
}

// The command that the words of a line spell.
fn read_words(line: &[u8], alloc: Global) -> Result<Option<Command>, LineFault>
    requires { length line.now ≤ 4096 }
    ensures value { IsRead (words_read line.now) result }
    ensures within { IfOk result (λ read. IfSome read KeepsRanges) }
{
    let Some(mut words) = Words::of(line) else {
        return Err(LineFault::Arguments(0));
    };
    match words.next() {
        None => Ok(None),
        Some(word) => read_arguments(verb_of(word), words, alloc),
    }
}

/// The command of a line of a script, without its line feed; `None` exactly for a silent line: one of at most 4,096 bytes that
/// is empty, has blanks only, or begins with `#`. A carriage return at the end of the line is dropped.
///
/// A line of more than 4,096 bytes is `TooLong`. One that can't be cut into words is `Arguments(0)`. One whose first word
/// begins no command is `UnknownWord`. Else the words behind the first must be what the command takes; where they aren't,
/// `Arguments(k)` tells the first that can't stand where it does. `Memory` comes only in place of a command that keeps a text
/// or a list. Numbers, counts and texts of the command are as the last three clauses say.
pub fn read_line(alloc: Global, line: &[u8]) -> Result<Option<Command>, LineFault>
    ensures value { IsRead (line_read line.now) result }
    ensures within { IfOk result (λ read. IfSome read KeepsRanges) }
    ensures counts { IfOk result (λ read. IfSome read KeepsCounts) }
    ensures texts { IfOk result (λ read. IfSome read KeepsTexts) }
{
    if line.len() > MOST_BYTES {
        return Err(LineFault::TooLong);
    }
    let line = without_return(line);
    if is_silent(line) {
        return Ok(None);
    }
    read_words(line, alloc)
}
