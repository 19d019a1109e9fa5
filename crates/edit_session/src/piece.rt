//! Answers the lines that end in a piece of the script.

ghost use Rattle.std.specs.Prelude.{◌≡◌, ℕ, ◌≤◌, List, take, OnOk, OnErr};
ghost use Rattle.outside_io.specs.Moved.{Rose, Grew};
ghost use Rattle.line_machine.specs.Lines.{whole_from, last_line};
ghost use Rattle.line_machine.specs.Served.{Served, ServedSoFar, Answered, AnsweredInPart};
ghost use Rattle.line_machine.specs.Pieces.{InPiece};
ghost use Rattle.cmd_text.specs.Replies.{reply_line};
ghost use Rattle.map_model.specs.Machine.{answer_text};
ghost use Rattle.tree_session.specs.Sitting.{state_of, answer_of};
ghost use Rattle.edit_session.specs.Tests.{Tests, step_by};
ghost use Rattle.edit_session.specs.declared.begun.TheConstants.{HELD};

use crate::begun::Begun;
use cmd_text::{Reply, ReplyBuf, reply_text};
use outside_io::{Failed, Sink, give_all};
use std::alloc::Global;
use tree_session::{Answer, Session};

// Gives a reply of one line, as one piece.
fn give_reply<R: Sink>(reply: Reply, replies: &mut R) -> Result<(), Failed>
    ensures ok { OnOk result (Grew (R.given replies.old) (R.given replies.new) (reply_line reply)) }
    ensures err { OnErr result
        ((n : ℕ) × Grew (R.given replies.old) (R.given replies.new) (take n (reply_line reply))) }
    ensures quiet { OnOk result (R.faults replies.new ≡ R.faults replies.old) }
    ensures later { R.faults replies.old ≤ R.faults replies.new }
    ensures cause { OnErr result (Rose (R.faults replies.old) (R.faults replies.new)) }
{
    let mut line = ReplyBuf::new();
    reply_text(&reply, &mut line);
    give_all(replies, line.text())
}

// Gives an answer, as one piece.
fn give_answer<R: Sink>(answer: Answer, replies: &mut R) -> Result<(), Failed>
    ensures ok { OnOk result
        (Grew (R.given replies.old) (R.given replies.new) (answer_text (answer_of answer))) }
    ensures err { OnErr result ((n : ℕ)
        × Grew (R.given replies.old) (R.given replies.new) (take n (answer_text (answer_of answer)))) }
    ensures quiet { OnOk result (R.faults replies.new ≡ R.faults replies.old) }
    ensures later { R.faults replies.old ≤ R.faults replies.new }
    ensures cause { OnErr result (Rose (R.faults replies.old) (R.faults replies.new)) }
{
    match answer {
        Answer::Silent => Ok(()),
        Answer::Short(reply) => give_reply(reply, replies),
        Answer::Long(text) => give_all(replies, text.bytes()),
    }
}

// Answers one line, and gives its answer.
fn answer<R: Sink>(
    alloc: Global,
    session: &mut Session,
    line: &[u8],
    replies: &mut R,
) -> Result<(), Failed>
    ensures ok { OnOk result ((tests : Tests) →
        Answered (step_by tests) (state_of session.old) line.now (state_of session.new)
        (R.given replies.old) (R.given replies.new)) }
    ensures err { OnErr result ((tests : Tests) →
        AnsweredInPart (step_by tests) (state_of session.old) line.now
        (R.given replies.old) (R.given replies.new)) }
    ensures quiet { OnOk result (R.faults replies.new ≡ R.faults replies.old) }
    ensures later { R.faults replies.old ≤ R.faults replies.new }
    ensures cause { OnErr result (Rose (R.faults replies.old) (R.faults replies.new)) }
{
    let given = session.step(alloc, line);
    give_answer(given, replies)
}

/// Answers the lines that end in the piece. The first of them began with bytes that came before it.
pub(crate) fn serve_piece<R: Sink>(
    alloc: Global,
    session: &mut Session,
    begun: &mut Begun,
    piece: &[u8],
    replies: &mut R,
) -> Result<(), Failed>
    ensures ok { OnOk result ((tests : Tests) (before : List ℕ) → begun.old ≡ take HELD before →
        InPiece (step_by tests) HELD before piece.now (state_of session.old) (state_of session.new) begun.new
        (R.given replies.old) (R.given replies.new)) }
    ensures err { OnErr result ((tests : Tests) (before : List ℕ) → begun.old ≡ take HELD before →
        ServedSoFar (step_by tests) (state_of session.old) (whole_from before piece.now)
        (R.given replies.old) (R.given replies.new)) }
    ensures quiet { OnOk result (R.faults replies.new ≡ R.faults replies.old) }
    ensures later { R.faults replies.old ≤ R.faults replies.new }
    ensures cause { OnErr result (Rose (R.faults replies.old) (R.faults replies.new)) }
{
    for byte in piece {
        if *byte != b'\n' {
            begun.push(*byte);
            continue;
        }
        answer(alloc, session, begun.bytes(), replies)?;
        begun.clear();
    }
    Ok(())
}

/// Answers the last line where it has no line feed.
pub(crate) fn serve_last<R: Sink>(
    alloc: Global,
    session: &mut Session,
    begun: &Begun,
    replies: &mut R,
) -> Result<(), Failed>
    ensures ok { OnOk result ((tests : Tests) (line : List ℕ) → begun.now ≡ take HELD line →
        Served (step_by tests) (state_of session.old) (last_line line) (state_of session.new)
        (R.given replies.old) (R.given replies.new)) }
    ensures err { OnErr result ((tests : Tests) (line : List ℕ) → begun.now ≡ take HELD line →
        ServedSoFar (step_by tests) (state_of session.old) (last_line line)
        (R.given replies.old) (R.given replies.new)) }
    ensures quiet { OnOk result (R.faults replies.new ≡ R.faults replies.old) }
    ensures later { R.faults replies.old ≤ R.faults replies.new }
    ensures cause { OnErr result (Rose (R.faults replies.old) (R.faults replies.new)) }
{
    if begun.bytes().is_empty() {
        return Ok(());
    }
    answer(alloc, session, begun.bytes(), replies)
}
