//! The whole way from the input bytes to the output bytes.
ghost use Rattle.std.specs.Prelude.{◌≡◌, ◌++◌, IfOk, OnErr, OnOk, IfErr};
ghost use Rattle.std.specs.Io.KnownBytes.{Appends};
ghost use Rattle.tl_order.specs.Orders.{IsRunnable, is_check};
ghost use Rattle.tl_answer.specs.Inner.Answered.{AnswersRead, ReadsAnswer};
ghost use Rattle.tl_answer.specs.Inner.Parts.{spelled};
ghost use Rattle.tl_answer.specs.Texts.{AnswersText};
ghost use Rattle.tl_stream.specs.Inputs.{IsFresh, unread_of};
ghost use Rattle.tl_stream.specs.Outputs.{AppendsPart};
ghost use Rattle.tl_stream.specs.declared.fault.TextFault.TheVariants.{Write as WriteFault};

use crate::one_thread::answer_input;
use crate::parts::AnswerParts;
use crate::threads::answer_by_threads;
use std::alloc::Global;
use std::io::{Read, Write};
use std::thread::Threads;
use tl_order::Order;
use tl_stream::{Input, TextFault, write_all, write_bytes};

/// Writes two texts, one after the other. Errors: as `write_all`.
fn write_both<W: Write>(writer: &mut W, first: &[u8], second: &[u8]) -> Result<(), TextFault>
    ensures all { OnOk result (Appends (W.contents writer.old) (W.contents writer.new)
        (first.now ++ second.now)) }
    ensures part { OnErr result (AppendsPart (W.contents writer.old) (W.contents writer.new)
        (first.now ++ second.now)) }
    ensures kind { IfErr result (λ e. e ≡ WriteFault) }
{
    match write_bytes(writer, first) {
        Ok(()) => write_bytes(writer, second),
        Err(fault) => Err(fault),
    }
}

/// Writes an answer and flushes. Returns whether all five channels are done. Errors: as
/// `write_all`.
fn write_answer<W: Write>(writer: &mut W, answer: &AnswerParts) -> Result<bool, TextFault>
    ensures text { OnOk result (Appends (W.contents writer.old) (W.contents writer.new)
        (spelled answer.now)) }
    ensures part { OnErr result (AppendsPart (W.contents writer.old) (W.contents writer.new)
        (spelled answer.now)) }
    ensures done { IfOk result (λ all_done. all_done ≡ answer.now.all_done) }
    ensures kind { IfErr result (λ e. e ≡ WriteFault) }
{
    write_both(writer, &answer.a, &answer.b)?;
    write_both(writer, &answer.c, &answer.d)?;
    write_all(writer, &answer.e)?;
    Ok(answer.all_done)
}

/// Returns the answer to a text as the command asks. The first piece of the text has been read and
/// not consumed. Errors: as `script_of_input`.
fn answer_by<T: Threads, R: Read>(
    rt: &T,
    alloc: Global,
    reader: &mut R,
    input: &mut Input,
    order: &Order,
) -> Result<AnswerParts, TextFault>
    requires { IsFresh (R.remaining reader.old) input.old × IsRunnable order.now }
    ensures { ReadsAnswer (unread_of input.old (R.remaining reader.old)) (R.remaining reader.new)
        (is_check order.now) input.new result }
{
    if order.is_sync() {
        return answer_input(alloc, reader, input, order.is_check(), order.ring());
    }
    answer_by_threads(rt, alloc, reader, input, order)
}

/// Reads a text to its end. Returns its answer.
fn read_answer<T: Threads, R: Read>(
    rt: &T,
    alloc: Global,
    reader: &mut R,
    order: &Order,
) -> Result<AnswerParts, TextFault>
    requires { IsRunnable order.now }
    ensures { AnswersRead (R.remaining reader.old) (R.remaining reader.new) order.now result }
{
    let mut input = match Input::open(alloc, reader) {
        Ok(input) => input,
        Err(fault) => return Err(fault),
    };
    match answer_by(rt, alloc, reader, &mut input, order) {
        Err(TextFault::Trace(fault)) => match input.drain(reader) {
            Ok(()) => Err(TextFault::Trace(fault)),
            Err(fault) => Err(fault),
        },
        answered => answered,
    }
}

/// Reads a trace to the end of the input, and writes its answer, which is the one of the
/// definitions. The answer has the line with the version of the trace and the widths, the beats
/// that arrive (unless the order is a check), and how far each channel got. Returns whether all
/// five channels are done.
///
/// All input is read, and the whole answer is made, before anything is written.
///
/// Errors:
/// - `Read`: a read failed or was interrupted.
/// - `TooLong`: the input has more than 67,108,864 bytes.
/// - `Trace`: the text's first fault, with its line.
/// - `OutOfMemory`: comes before anything is written. If the text is answered while it is read, it
///   may come before the fault of a later line is seen (this project's choice).
/// - `Write`: a write failed, was interrupted or took no byte. It is not specified how much was
///   written, but it is the beginning of the answer.
///
/// `Stalled` is never returned.
///
/// The rings have the order's size. If the order is a check or has `sync`, both sides run in one
/// thread while the text is read, and beats that are no longer needed are removed from memory.
/// Otherwise each side runs in its own thread once the whole text is read, and the threads meet
/// after each round of the order's turns. Requires: an order that can be run, as `order_of` returns
/// it.
pub fn run_text<T: Threads, R: Read, W: Write>(
    rt: &T,
    alloc: Global,
    reader: &mut R,
    writer: &mut W,
    order: &Order,
) -> Result<bool, TextFault>
    requires { IsRunnable order.now }
    ensures { AnswersText (R.remaining reader.old) (R.remaining reader.new)
        (W.contents writer.old) (W.contents writer.new) order.now result }
{
    match read_answer(rt, alloc, reader, order) {
        Ok(answer) => write_answer(writer, &answer),
        Err(fault) => Err(fault),
    }
}
