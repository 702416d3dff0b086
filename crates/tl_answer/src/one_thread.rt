//! The answer to a text with both sides in one thread, while the text is read.
ghost use Rattle.std.specs.Prelude.{◌≤◌, length, IfOk, IfErr};
ghost use Rattle.tl_ring.specs.declared.pipe.TheConstants.{MAX_RING};
ghost use Rattle.tl_trace.specs.Faults.{HasHeader};
ghost use Rattle.tl_stream.specs.Inputs.{IsFresh, held, most_bytes, unread_of};
ghost use Rattle.tl_answer.specs.Inner.Answered.{ReadsAnswer};
ghost use Rattle.tl_answer.specs.Texts.{IsAnswer, IsOfText};

use crate::answer::Answer;
use crate::at_widths;
use crate::check_input::check_input;
use crate::crossing::run_input;
use crate::parts::AnswerParts;
use crate::widths::known_header;
use std::alloc::Global;
use std::io::Read;
use tl_stream::{Input, TextFault};

/// The number of beats that a ring holds if the caller does not choose it. No answer depends on it.
const RING: usize = 256;

/// Returns the answer to a text whose header names this version and these widths.
fn with_widths<R: Read, const C: usize, const M: usize>(
    alloc: Global,
    reader: &mut R,
    input: &mut Input,
    version: u8,
    check: bool,
    ring: usize,
) -> Result<AnswerParts, TextFault>
    requires { IsFresh (R.remaining reader.old) input.old ×
        HasHeader (held input.old) version C M × (1 ≤ ring) × (ring ≤ MAX_RING) }
    ensures { ReadsAnswer (unread_of input.old (R.remaining reader.old)) (R.remaining reader.new)
        check input.new result }
{
    if check {
        return check_input::<R, C, M>(alloc, reader, input, version);
    }
    run_input::<R, C, M>(alloc, reader, input, version, ring)
}

/// Returns the answer to a text with both sides in one thread: by a check if `check` is set,
/// otherwise by a run with rings of `ring` beats. The input holds the first piece of the text, and
/// nothing of it was used. The answer has the line with the version of the trace and the widths,
/// the far beats unless `check` is set, and the five report lines.
///
/// Errors: as `script_of_input`.
pub(crate) fn answer_input<R: Read>(
    alloc: Global,
    reader: &mut R,
    input: &mut Input,
    check: bool,
    ring: usize,
) -> Result<AnswerParts, TextFault>
    requires { IsFresh (R.remaining reader.old) input.old × (1 ≤ ring) × (ring ≤ MAX_RING) }
    ensures { ReadsAnswer (unread_of input.old (R.remaining reader.old)) (R.remaining reader.new)
        check input.new result }
{
    let header = match known_header(input.held()) {
        Ok(header) => header,
        Err(fault) => return Err(fault),
    };
    at_widths!(
        header,
        with_widths::<R, _, _>(alloc, reader, input, header.version, check, ring)
    )
}

/// Returns the answer to a text in memory, with both sides in one thread. The answer has the line
/// with the version of the trace and the widths, the far beats unless `check` is set, and the five
/// report lines.
///
/// Errors: `Trace` with the text's first fault and its line, or `OutOfMemory`. Requires: the text
/// has at most 67,108,864 bytes.
pub fn answer_sync(alloc: Global, text: &[u8], check: bool) -> Result<Answer, TextFault>
    requires few { length text.now ≤ most_bytes }
    ensures ok { IfOk result (λ made. IsAnswer text.now check made.text.items made.all_done) }
    ensures err { IfErr result (IsOfText text.now) }
{
    let mut reader = text;
    let mut input = match Input::open(alloc, &mut reader) {
        Ok(input) => input,
        Err(_) => return Err(TextFault::OutOfMemory),
    };
    match answer_input(alloc, &mut reader, &mut input, check, RING) {
        Ok(parts) => parts.joined(),
        Err(TextFault::Trace(fault)) => Err(TextFault::Trace(fault)),
        // only out of memory: a slice is read without failure, and this one is not too long
        Err(_) => Err(TextFault::OutOfMemory),
    }
}
