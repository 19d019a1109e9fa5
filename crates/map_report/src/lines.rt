//! The tables of notes, refusals and summaries.

ghost use Rattle.std.specs.Prelude.{◌≡◌, ◌≢◌, ◌≤◌, [], ◌∷◌, ◌++◌, length, codes};
ghost use Rattle.std.specs.Fmt.{decimal};
ghost use Rattle.cmd_text.specs.Lines.{words, words_of_line, fields_of, counted};
ghost use Rattle.map_report.specs.declared.fault.MapFault.TheVariants.{Read};
ghost use Rattle.map_text.specs.declared.read_fault.ReadFault.TheVariants.{Memory};
ghost use Rattle.map_report.specs.Reports.{reason_name, what_name, format_name, lex_words, read_words, fault_words, note_words, summary_words, note_line, fault_line, summary_line};

use crate::fault::MapFault;
use crate::note::Note;
use crate::summary::Summary;
use cmd_text::{Field, Line, ReplyBuf};
use map_lex::LexFault;
use map_text::{ReadFault, Reason, What};
use uv_lock::Format;

fn reason_name(reason: Reason) -> &'static [u8]
    ensures name { result.now ≡ reason_name reason }
    ensures short { length result.now ≤ 32 }
{
    match reason {
        Reason::Point => b"point",
        Reason::Range => b"range",
        Reason::Texture => b"texture",
        Reason::Surface => b"surface",
        Reason::Flat => b"flat",
        Reason::Many => b"many",
        Reason::Volume => b"volume",
        Reason::World => b"world",
        Reason::Faces => b"faces",
    }
}

fn what_name(what: What) -> &'static [u8]
    ensures name { result.now ≡ what_name what }
    ensures short { length result.now ≤ 32 }
{
    match what {
        What::Entity => b"entity",
        What::Item => b"item",
        What::Key => b"key",
        What::Value => b"value",
        What::Face => b"face",
        What::Point => b"point",
        What::Number => b"number",
        What::Material => b"material",
        What::Axis => b"axis",
    }
}

fn format_name(format: Format) -> &'static [u8]
    ensures name { result.now ≡ format_name format }
    ensures short { length result.now ≤ 32 }
{
    match format {
        Format::Standard => b"map standard",
        Format::Valve => b"map valve",
    }
}

fn note_row(note: Note) -> Line
    ensures { words_of_line result ≡ note_words note }
{
    match note {
        Note::Brush {
            entity,
            brush,
            reason,
        } => Line::of(
            b"note brush",
            [
                Field::number(entity),
                Field::number(brush),
                Field::word(reason_name(reason)),
            ],
        ),
        Note::Id(entity) => Line::one(b"note id", entity),
        Note::Parent(entity) => Line::one(b"note parent", entity),
        Note::Empty(entity) => Line::one(b"note empty", entity),
        Note::Transformation(entity) => Line::one(b"note transformation", entity),
        Note::Nested(entity) => Line::one(b"note nested", entity),
        Note::Links(entity) => Line::one(b"note links", entity),
    }
}

fn lex_row(fault: LexFault) -> Line
    ensures { words_of_line result ≡ lex_words fault }
{
    match fault {
        LexFault::OpenQuote(line) => Line::one(b"map open-quote", line),
        LexFault::StrayByte(line) => Line::one(b"map stray-byte", line),
    }
}

fn read_row(fault: ReadFault) -> Line
    requires { fault ≢ Memory }
    ensures { words_of_line result ≡ read_words fault }
{
    match fault {
        ReadFault::Lex(fault) => lex_row(fault),
        ReadFault::Expected(what, line) => Line::of(
            b"map expected",
            [Field::word(what_name(what)), Field::number(line), None],
        ),
        ReadFault::MixedFormat(line) => Line::one(b"map mixed-format", line),
        ReadFault::UnknownBlock(line) => Line::one(b"map unknown-block", line),
        ReadFault::EndsEarly(line) => Line::one(b"map ends-early", line),
        ReadFault::Memory => unreachable!(),
    }
}

fn fault_row(fault: MapFault) -> Line
    requires { fault ≢ Read Memory }
    ensures { words_of_line result ≡ fault_words fault }
{
    match fault {
        MapFault::Read(fault) => read_row(fault),
        MapFault::NoWorld => Line::bare(b"map no-world"),
        MapFault::NotBuilt => Line::bare(b"map not-built"),
        MapFault::Full(count) => Line::of(b"map full", [Some(Field::Number(count)), None, None]),
    }
}

fn counts(name: &[u8], first: Option<Field>, brushes: u32, links: u32) -> Line
    requires { length name.now ≤ 32 }
    ensures { words_of_line result ≡ words name.now (fields_of (first ∷ []) ++ counted (codes "brushes") brushes ∷ counted (codes "links") links ∷ []) }
{
    Line::of(
        name,
        [
            first,
            Field::counted(b"brushes", u64::from(brushes)),
            Field::counted(b"links", u64::from(links)),
        ],
    )
}

fn summary_row(summary: Summary) -> Line
    ensures { words_of_line result ≡ summary_words summary }
{
    match summary {
        Summary::Map {
            format,
            nodes,
            brushes,
            links,
        } => counts(
            format_name(format),
            Field::counted(b"nodes", u64::from(nodes)),
            brushes,
            links,
        ),
        Summary::Generated {
            boxes,
            brushes,
            links,
        } => counts(b"gen", Field::number(boxes), brushes, links),
        Summary::Exported {
            brushes,
            vertices,
            faces,
        } => Line::of(
            b"export",
            [
                Field::counted(b"brushes", brushes),
                Field::counted(b"vertices", vertices),
                Field::counted(b"faces", faces),
            ],
        ),
    }
}

/// Writes the line of a note, with its line feed, in the place of what the buffer held.
pub fn note_text(note: Note, buf: &mut ReplyBuf)
    ensures { buf.new ≡ note_line note }
{
    buf.write(note_row(note));
}

/// Writes the line of a refused map, with its line feed, in the place of what the buffer held. Want of memory has no line.
pub fn fault_text(fault: MapFault, buf: &mut ReplyBuf)
    requires { fault ≢ Read Memory }
    ensures { buf.new ≡ fault_line fault }
{
    buf.write(fault_row(fault));
}

/// Writes the line of a summary, with its line feed, in the place of what the buffer held.
pub fn summary_text(summary: Summary, buf: &mut ReplyBuf)
    ensures { buf.new ≡ summary_line summary }
{
    buf.write(summary_row(summary));
}
