//! From the input bytes to the output bytes.
ghost use Rattle.std.specs.Prelude.{◌≤◌, false, length, IfOk, IfErr, OnOk};
ghost use Rattle.std.specs.Option.{option_copied};
ghost use Rattle.tl_stream.specs.Inputs.{most_bytes};
ghost use Rattle.tl_explain.specs.Explained.{IsUntold, ShowsAnswer};
ghost use Rattle.tl_formats.specs.Formats.{ExplainsText, HasBadTime, HasTimes, Shows};

use crate::fault::ExplainFault;
use std::alloc::{AllocError, Global};
use std::io::{Read, Write};
use tl_answer::{TextFault, read_all, write_all};
use tl_explain::{
    DisplayOptions, Format, explain_to, fault_record, page_model_of, records_to, show_fault,
};
use tl_markup::{fault_markup, markup_of};
use tl_times::{TimesFault, beats_of, check_times};
use tl_trace::TraceFault;

/// Writes a page on a text, after all of it is complete.
fn page_to<W: Write>(
    alloc: Global,
    text: &[u8],
    look: &DisplayOptions,
    times: &[u8],
    writer: &mut W,
) -> Result<bool, TextFault>
    requires few { length text.now ≤ most_bytes }
    ensures ok { IfOk result
        (ShowsAnswer text.now (W.contents writer.old) (W.contents writer.new)) }
    ensures err { IfErr result
        (IsUntold false text.now (W.contents writer.old) (W.contents writer.new)) }
{
    let scene = page_model_of::<W>(alloc, text, look, times, writer)?;
    let all_done = scene.answer.all_done;
    let page = markup_of(alloc, scene)?;
    write_all(writer, &page)?;
    Ok(all_done)
}

/// Writes the outcome of each line of a text, in the format that `look` requests.
fn show<W: Write>(
    alloc: Global,
    text: &[u8],
    look: &DisplayOptions,
    times: &[u8],
    writer: &mut W,
) -> Result<bool, TextFault>
    requires few { length text.now ≤ most_bytes }
    ensures ok { IfOk result
        (Shows look.now.format text.now (W.contents writer.old) (W.contents writer.new)) }
    ensures err { IfErr result
        (IsUntold false text.now (W.contents writer.old) (W.contents writer.new)) }
{
    match look.format {
        Format::Text => explain_to::<W>(alloc, text, look, times, writer),
        Format::Json => records_to::<W>(alloc, text, look, times, writer),
        Format::Page => page_to::<W>(alloc, text, look, times, writer),
    }
}

/// Returns the output for a text that is not a valid trace, in this format. Errors: `AllocError` if
/// the allocator fails.
fn shown_fault(
    alloc: Global,
    text: &[u8],
    fault: &TraceFault,
    format: Format,
) -> Result<Vec<u8>, AllocError> {
    match format {
        Format::Text => show_fault(alloc, text, fault),
        Format::Json => fault_record(alloc, text, fault),
        Format::Page => fault_markup(alloc, &show_fault(alloc, text, fault)?),
    }
}

/// Checks the times of a trace's beats, if there are any. Errors: as for `check_times`.
fn check_given(trace: &[u8], times: Option<&[u8]>) -> Result<(), TimesFault>
    ensures good { OnOk result (HasTimes trace.now (option_copied times.entry)) }
    ensures fault { IfErr result (HasBadTime trace.now (option_copied times.entry)) }
{
    match times {
        Some(times) => check_times(times, beats_of(trace)),
        None => Ok(()),
    }
}

/// Reads a trace to the end of the input, and then writes the outcome of each of its lines, in the
/// format that `look` requests. `times` has the time of each beat, if these are known. Returns true
/// if and only if all five channels are done.
///
/// A page is written after all of it is complete. Errors:
/// - `Read` if a read fails or is interrupted;
/// - `TooLong` if the input has more than 67,108,864 bytes;
/// - `Times` with the first faulty line of the times, if `check_times` refuses them;
/// - `Trace` if the text is not a valid trace, after its first faulty line, the place of the fault
///   and what was expected there are written;
/// - `Write` if a write fails, is interrupted or takes no byte, after an unknown number of bytes;
/// - `OutOfMemory` before anything is written.
pub fn run_explain<R: Read, W: Write>(
    alloc: Global,
    reader: &mut R,
    writer: &mut W,
    look: &DisplayOptions,
    times: Option<&[u8]>,
) -> Result<bool, ExplainFault>
    ensures { ExplainsText look.now.format (option_copied times.entry) (R.remaining reader.old)
        (R.remaining reader.new) (W.contents writer.old) (W.contents writer.new) result }
{
    let text = read_all(alloc, reader)?;
    check_given(&text, times)?;
    match show::<W>(alloc, &text, look, times.unwrap_or(&[]), writer) {
        Err(TextFault::Trace(fault)) => {
            let shown = shown_fault(alloc, &text, &fault, look.format)?;
            write_all(writer, &shown)?;
            Err(ExplainFault::Text(TextFault::Trace(fault)))
        }
        ending => Ok(ending?),
    }
}
