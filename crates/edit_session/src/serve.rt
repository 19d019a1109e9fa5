//! Reads a script to its end and answers each line as soon as it is whole.

ghost use Rattle.std.specs.Prelude.{◌≡◌, ℕ, ◌<◌, ◌≤◌, List, [], length, Some, IfOk, IfErr, OnOk, IfSome};
ghost use Rattle.line_machine.specs.Pieces.{InPiece, Goes};
ghost use Rattle.tree_session.specs.Sitting.{state_of};
ghost use Rattle.edit_session.specs.Tests.{Tests, step_by};
ghost use Rattle.edit_session.specs.declared.begun.TheConstants.{HELD};
ghost use Rattle.edit_session.specs.declared.status.TheConstants.{LIMIT};
ghost use Rattle.edit_session.specs.Serving.{ReadAll, StoppedAt, StoppedInPiece, StopCause, stop_status};

use crate::begun::Begun;
use crate::piece::{serve_last, serve_piece};
use crate::status::{LIMIT, Status, Which};
use outside_io::{Sink, Source};
use std::alloc::Global;
use tree_session::Session;

/// Why reading a script stopped early.
#[derive(Drop)]
pub(crate) enum Stop {
    /// A piece couldn't be taken.
    TakeFailed,
    /// A reply couldn't be given.
    GiveFailed,
    /// The script has more bytes than the limit.
    TooLong,
}

impl Stop {
    /// The status of a run that stopped so.
    pub(crate) fn status(self) -> Status
        ensures { result ≡ stop_status self }
    {
        match self {
            Stop::TakeFailed => Status::ReadFault,
            Stop::GiveFailed => Status::WriteFault,
            Stop::TooLong => Status::TooLong(Which::Script),
        }
    }
}

// Takes a piece and answers the lines that end in it. 0 is the end of the script.
fn serve_next<C: Source, R: Sink>(
    alloc: Global,
    session: &mut Session,
    begun: &mut Begun,
    script: &mut C,
    replies: &mut R,
    piece: &mut [u8],
) -> Result<usize, Stop>
    requires { 0 < length piece.old }
    ensures within { IfOk result (λ n. n ≤ length piece.old) }
    ensures ok { IfOk result (λ n. (tests : Tests) → IfSome (C.left script.old) (λ bytes.
        Goes (step_by tests) HELD n bytes (C.left script.new) (state_of session.old) begun.old (state_of session.new) begun.new
        (R.given replies.old) (R.given replies.new))) }
    ensures err { IfErr result (λ stop. (tests : Tests) → IfSome (C.left script.old) (λ bytes.
        StoppedInPiece (step_by tests) HELD (length piece.old) stop bytes (C.left script.new)
        (state_of session.old) begun.old (state_of session.new) (R.given replies.old) (R.given replies.new))) }
    ensures quiet { OnOk result ((C.faults script.new ≡ C.faults script.old)
        × (R.faults replies.new ≡ R.faults replies.old)) }
    ensures cause { IfErr result (λ stop. StopCause stop
        (C.faults script.old) (C.faults script.new) (R.faults replies.old) (R.faults replies.new)) }
    ensures takes_later { C.faults script.old ≤ C.faults script.new }
    ensures gives_later { R.faults replies.old ≤ R.faults replies.new }
{
    let n = match script.take(piece) {
        Ok(n) => n,
        Err(_) => return Err(Stop::TakeFailed),
    };
    match serve_piece(alloc, session, begun, &piece[..n], replies) {
        Ok(()) => Ok(n),
        Err(_) => Err(Stop::GiveFailed),
    }
}

// Answers the whole lines of the script, and leaves what begins the last one.
fn serve_lines<C: Source, R: Sink>(
    alloc: Global,
    session: &mut Session,
    begun: &mut Begun,
    script: &mut C,
    replies: &mut R,
) -> Result<(), Stop>
    requires { begun.old ≡ [] }
    ensures end { OnOk result ((tests : Tests) → IfSome (C.left script.old) (λ bytes.
        (C.left script.new ≡ Some []) × (length bytes ≤ LIMIT)
        × InPiece (step_by tests) HELD [] bytes (state_of session.old) (state_of session.new) begun.new
        (R.given replies.old) (R.given replies.new))) }
    ensures stopped { IfErr result (λ stop. (tests : Tests) → IfSome (C.left script.old) (λ bytes.
        (left : List ℕ) × (C.left script.new ≡ Some left)
        × StoppedAt (step_by tests) (state_of session.old) stop bytes left
        (R.given replies.old) (R.given replies.new))) }
    ensures quiet { OnOk result ((C.faults script.new ≡ C.faults script.old)
        × (R.faults replies.new ≡ R.faults replies.old)) }
    ensures cause { IfErr result (λ stop. StopCause stop
        (C.faults script.old) (C.faults script.new) (R.faults replies.old) (R.faults replies.new)) }
    ensures takes_later { C.faults script.old ≤ C.faults script.new }
    ensures gives_later { R.faults replies.old ≤ R.faults replies.new }
{
    let mut piece = [0u8; 4096];
    let mut taken: usize = 0;
    while taken < LIMIT {
        let want = (LIMIT - taken).min(4096);
        let n = match serve_next(alloc, session, begun, script, replies, &mut piece[..want]) {
            Ok(n) => n,
            Err(stop) => return Err(stop),
        };
        if n == 0 {
            return Ok(());
        }
        taken += n;
    }
    match script.take(&mut piece[..1]) {
        Ok(0) => Ok(()),
        Ok(_) => Err(Stop::TooLong),
        Err(_) => Err(Stop::TakeFailed),
    }
}

/// Reads the script to its end and answers all of its lines.
pub(crate) fn serve_script<C: Source, R: Sink>(
    alloc: Global,
    session: &mut Session,
    script: &mut C,
    replies: &mut R,
) -> Result<(), Stop>
    ensures end { OnOk result ((tests : Tests) → IfSome (C.left script.old) (λ bytes.
        ReadAll (step_by tests) (state_of session.old) bytes (C.left script.new) (state_of session.new)
        (R.given replies.old) (R.given replies.new))) }
    ensures stopped { IfErr result (λ stop. (tests : Tests) → IfSome (C.left script.old) (λ bytes.
        (left : List ℕ) × (C.left script.new ≡ Some left)
        × StoppedAt (step_by tests) (state_of session.old) stop bytes left
        (R.given replies.old) (R.given replies.new))) }
    ensures quiet { OnOk result ((C.faults script.new ≡ C.faults script.old)
        × (R.faults replies.new ≡ R.faults replies.old)) }
    ensures cause { IfErr result (λ stop. StopCause stop
        (C.faults script.old) (C.faults script.new) (R.faults replies.old) (R.faults replies.new)) }
    ensures takes_later { C.faults script.old ≤ C.faults script.new }
    ensures gives_later { R.faults replies.old ≤ R.faults replies.new }
{
    let mut begun = Begun::new();
    match serve_lines(alloc, session, &mut begun, script, replies) {
        Ok(()) => {}
        Err(stop) => return Err(stop),
    }
    match serve_last(alloc, session, &begun, replies) {
        Ok(()) => Ok(()),
        Err(_) => Err(Stop::GiveFailed),
    }
}
