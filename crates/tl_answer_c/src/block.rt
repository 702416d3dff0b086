//! The block with the answer to a text, which C receives.
ghost use Rattle.std.specs.Prelude.{IfOk, IfErr};
ghost use Rattle.tl_answer_c.specs.Calls.{IsGiven, IsOfCall};

use std::alloc::Global;
use tl_answer::{Answer, MAX_BYTES, TextFault, answer_sync};
use tl_c_beats::AnswerBlock;

/// Returns the block of the answer to a text: the line with the widths, the far beats unless
/// `check` is set, and the five report lines.
///
/// Errors: `TooLong`, `Trace` with the text's first fault and its line, or `OutOfMemory`.
pub(crate) fn block_of(alloc: Global, text: &[u8], check: bool) -> Result<AnswerBlock, TextFault>
    ensures ok { IfOk result (IsGiven text.now check) }
    ensures err { IfErr result (IsOfCall text.now) }
{
    if text.len() > MAX_BYTES {
        return Err(TextFault::TooLong);
    }
    let Answer { text, all_done } = match answer_sync(alloc, text, check) {
        Ok(answer) => answer,
        Err(fault) => return Err(fault),
    };
    match AnswerBlock::of(alloc, text, all_done) {
        Ok(block) => Ok(block),
        Err(_) => Err(TextFault::OutOfMemory),
    }
}
