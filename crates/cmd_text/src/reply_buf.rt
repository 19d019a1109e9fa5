//! The text of a line that the program gives, which takes no memory.

ghost use Rattle.std.specs.Prelude.{◌≡◌, ◌+◌, ◌≤◌, [], ◌∷◌, ◌++◌, length, decimal};
ghost use Rattle.std.specs.Fmt.{signed_decimal};
ghost use Rattle.cmd_text.specs.Lines.{ratio_text, counted, field_text, fields_of, spaced, line_text, words_of_line};
ghost use Rattle.cmd_text.specs.Replies.{reply_line};

use crate::line::{Field, Line};
use crate::reply::Reply;
use crate::reply_lines::reply_line;
use fixed_num::Frac;
use itoa::Buffer;
use key_table::Word;
use std::marker::Model;

/// The longest line: a name of 32 bytes, three fields of 81 with a blank before each, and a line feed.
const ROOM: usize = 279;

/// A buffer of fixed size that holds any line of a name and three fields, so that of every reply. Contracts see what was
/// written.
#[derive(Drop)]
pub struct ReplyBuf {
    bytes: [u8; ROOM],
    len: usize,
}

impl Model for ReplyBuf {
    ghost use Rattle.std.specs.Prelude.{List, ℕ, take, ◌≤◌};

    ghost Value = { List ℕ };

    ghost view = { λ t. take t.len t.bytes };

    ghost invariant = { λ t. t.len ≤ 279 };
}

impl ReplyBuf {
    /// An empty buffer.
    pub fn new() -> ReplyBuf
        ensures { result ≡ [] }
    {
        ReplyBuf {
            bytes: [0; ROOM],
            len: 0,
        }
    }

    /// What was written last.
    pub fn text(&self) -> &[u8]
        ensures { result.now ≡ self.now }
    {
        &self.bytes[..self.len]
    }

    fn clear(&mut self)
        ensures { self.new ≡ [] }
    {
        self.len = 0;
    }

    fn push(&mut self, text: &[u8])
        requires { length self.old + length text.now ≤ ROOM }
        ensures { self.new ≡ self.old ++ text.now }
    {
        let end = self.len + text.len();
        self.bytes[self.len..end].copy_from_slice(text);
        self.len = end;
    }

    fn push_number(&mut self, number: u64)
        requires { length self.old + 40 ≤ ROOM }
        ensures text { self.new ≡ self.old ++ decimal number }
        ensures short { length self.new ≤ length self.old + 40 }
    {
        let mut buffer = Buffer::new();
        self.push(buffer.format(number).as_bytes());
    }

    fn push_signed(&mut self, number: i128)
        requires { length self.old + 40 ≤ ROOM }
        ensures text { self.new ≡ self.old ++ signed_decimal number }
        ensures short { length self.new ≤ length self.old + 40 }
    {
        let mut buffer = Buffer::new();
        self.push(buffer.format(number).as_bytes());
    }

    fn push_ratio(&mut self, ratio: Frac)
        requires { length self.old + 81 ≤ ROOM }
        ensures text { self.new ≡ self.old ++ ratio_text ratio }
        ensures short { length self.new ≤ length self.old + 81 }
    {
        self.push_signed(ratio.num);
        if ratio.den.unsigned_abs() != 1 {
            self.push(b"/");
            self.push_signed(ratio.den);
        }
    }

    fn push_counted(&mut self, label: Word, count: u64)
        requires { length self.old + 81 ≤ ROOM }
        ensures text { self.new ≡ self.old ++ counted label count }
        ensures short { length self.new ≤ length self.old + 81 }
    {
        self.push(label.bytes());
        self.push(b" ");
        self.push_number(count);
    }

    fn push_field(&mut self, field: Field)
        requires { length self.old + 81 ≤ ROOM }
        ensures text { self.new ≡ self.old ++ field_text field }
        ensures short { length self.new ≤ length self.old + 81 }
    {
        match field {
            Field::Number(number) => self.push_number(number),
            Field::Ratio(ratio) => self.push_ratio(ratio),
            Field::Word(word) => self.push(word.bytes()),
            Field::Counted(label, count) => self.push_counted(label, count),
        }
    }

    fn push_option(&mut self, field: Option<Field>)
        requires { length self.old + 82 ≤ ROOM }
        ensures text { self.new ≡ self.old ++ spaced (fields_of (field ∷ [])) }
        ensures short { length self.new ≤ length self.old + 82 }
    {
        if let Some(field) = field {
            self.push(b" ");
            self.push_field(field);
        }
    }

    fn push_fields(&mut self, fields: [Option<Field>; 3])
        requires { length self.old + 246 ≤ ROOM }
        ensures text { self.new ≡ self.old ++ spaced (fields_of fields) }
        ensures short { length self.new ≤ length self.old + 246 }
    {
        let [a, b, c] = fields;
        self.push_option(a);
        self.push_option(b);
        self.push_option(c);
    }

    /// Writes a line, with its line feed, in the place of what the buffer held.
    pub fn write(&mut self, line: Line)
        ensures { self.new ≡ line_text (words_of_line line) }
    {
        self.clear();
        self.push(line.name.bytes());
        self.push_fields(line.fields);
        self.push(b"\n");
    }
}

/// Writes the line of a reply, with its line feed, in the place of what the buffer held.
pub fn reply_text(reply: &Reply, buf: &mut ReplyBuf)
    ensures { buf.new ≡ reply_line reply.now }
{
    buf.write(reply_line(*reply));
}
