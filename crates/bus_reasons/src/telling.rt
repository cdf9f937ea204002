//! The reason of a refusal.

use crate::logs::log_reason;
use crate::ratify::ratify_reason;
use crate::reasons::Reason;
use crate::refusals::{Refusal, refusal_of, text_at};
use crate::replay::replay_reason;
use std::alloc::{AllocError, Global};

/// Which command reads an input. `trace` refuses what `replay` refuses, at the same line.
#[derive(Clone, Copy, Debug, PartialEq, Eq)]
pub enum Reads {
    Ratify,
    Replay,
    /// `log`, of so many senders, with so many messages in a frame at most.
    Log { senders: u64, batch: u64 },
}

/// Why this refusal of the input.
fn reason_at<'a>(command: Reads, input: &'a [u8], refusal: Refusal<'_>) -> Option<Reason<'a>> {
    match command {
        Reads::Ratify => ratify_reason(input, refusal),
        Reads::Replay => replay_reason(input, refusal),
        Reads::Log { senders, batch } => log_reason(senders, batch, input, refusal),
    }
}

/// Where and why the command refused an input with this line, as `line 2: BadLine`: one line
/// without its end, or nothing if the input was not refused so.
pub fn reason_of(
    alloc: Global,
    command: Reads,
    input: &[u8],
    line: &[u8],
) -> Result<Option<String>, AllocError> {
    let Some(refusal) = refusal_of(line) else {
        return Ok(None);
    };
    match reason_at(command, input, refusal) {
        Some(reason) => Ok(Some(text_at(alloc, refusal.spot, reason)?)),
        None => Ok(None),
    }
}
