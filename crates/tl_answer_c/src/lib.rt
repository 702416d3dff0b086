//! The answer to a whole trace for C: from its text to the text of the answer, for every pair of
//! widths. Both sides of the bridge run in one thread. `include/tlbridge.h` lists the duties of a
//! caller that is not proved.
#![tactic(auto)]

mod block;

ghost use Rattle.std.specs.Prelude.{◌≡◌, ◌≢◌, None};
ghost use Rattle.tl_stream.specs.Faults.{text_fault_name, text_fault_number};
ghost use Rattle.tl_stream.specs.declared.fault.TextFault.{TextFault};
ghost use Rattle.tl_c_beats.specs.Texts.{status_name, status_text};
ghost use Rattle.tl_c_beats.specs.Blocks.{IsNoBlock};
ghost use Rattle.tl_answer_c.specs.Calls.{IsGiven, IsRefusal, is_set};

use crate::block::block_of;
use std::alloc::Global;
use tl_c_beats::{AnswerBlock, StatusText, status_text};

/// Makes the answer to the text of a trace, without its far beats if `check` is not 0. Frees an
/// answer that was there before.
///
/// Returns 0 if there is an answer. `answer` then points to its text, which stays at the same
/// address until `tl_answer_free` frees it.
///
/// Errors: the number of the fault. It is 14 to 19, with its line, if the text is not a valid
/// trace, 23 if it has more than 67,108,864 bytes, and 13 if memory ran out. `answer` then has no
/// text.
#[unsafe(no_mangle)]
pub extern "C" fn tl_answer_trace(
    alloc: Global,
    text: &[u8],
    check: u8,
    answer: &mut AnswerBlock,
) -> u8
    ensures given { result ≡ 0 → IsGiven text.now (is_set check) answer.new }
    ensures refused { result ≢ 0 → IsRefusal text.now result answer.new }
{
    answer.free(alloc);
    match block_of(alloc, text, check != 0) {
        Ok(block) => {
            *answer = block;
            0
        }
        Err(fault) => answer.refuse(alloc, fault.number(), fault.line()),
    }
}

/// Frees the text of an answer, if there is one. Afterwards there is none.
#[unsafe(no_mangle)]
pub extern "C" fn tl_answer_free(alloc: Global, answer: &mut AnswerBlock)
    ensures { IsNoBlock None answer.new }
{
    answer.free(alloc);
}

/// Writes the name and the sentence for a returned number, each padded with zeros. The numbers are
/// 0, each fault from 1 to 23, and the numbers that the library for a pair of widths returns. For
/// any other number it writes only zeros.
#[unsafe(no_mangle)]
pub extern "C" fn tl_status_text(answer: u8, text: &mut StatusText)
    ensures text { text.new ≡ status_text answer }
    // the names are those of the faults of a text
    ensures names { (fault : TextFault) →
        status_name (text_fault_number fault) ≡ text_fault_name fault }
{
    *text = status_text(answer);
}
