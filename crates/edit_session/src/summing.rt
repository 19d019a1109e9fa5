//! The line of a run's summary.

ghost use Rattle.std.specs.Prelude.{◌≤◌};
ghost use Rattle.edit_session.specs.Summing.{Sums, SumCause};

use crate::status::Status;
use cmd_text::ReplyBuf;
use map_report::{Summary, summary_text};
use outside_io::{Sink, give_all};

/// Gives the line of a summary.
pub(crate) fn sum_up<R: Sink>(summary: Summary, replies: &mut R) -> Status
    ensures given { Sums result summary (R.given replies.old) (R.given replies.new) }
    ensures cause { SumCause result (R.faults replies.old) (R.faults replies.new) }
    ensures later { R.faults replies.old ≤ R.faults replies.new }
{
    let mut line = ReplyBuf::new();
    summary_text(summary, &mut line);
    match give_all(replies, line.text()) {
        Ok(()) => Status::Ended,
        Err(_) => Status::WriteFault,
    }
}
