//! Passes the near beats of a text to a consumer while it is read.
ghost use Rattle.std.specs.Prelude.{ℕ, ◌≤◌, length, IfOk, IfErr};
ghost use Rattle.tl_lanes.specs.Lanes.{IsWidth};
ghost use Rattle.tl_trace.specs.Faults.{HasHeader};
ghost use Rattle.tl_trace.specs.Scripts.{Discarded};
ghost use Rattle.tl_stream.specs.Inner.Lines.{IsBeginning, IsReading, ReadsHeld, UsesHeader};
ghost use Rattle.tl_stream.specs.Inner.Consuming.{CanConsume, ReadsThrough};
ghost use Rattle.tl_stream.specs.Consuming.{IsConsumedInPieces, IsNew, IsReadThrough};
ghost use Rattle.tl_stream.specs.Inputs.{IsFresh, IsRefused, ReadsScript, held, unread_of};

use crate::beat_consumer::BeatConsumer;
use crate::fault::TextFault;
use crate::input::Input;
use crate::keep_all::KeepAll;
use std::alloc::Global;
use std::io::Read;
use tl_trace::{Script, ScriptReader, TraceFault, TraceKind, line_end};

/// Uses the header line of a text. Errors: `NoEnd` if the line has no end.
fn use_header(input: &mut Input) -> Result<(), TextFault>
    requires { (input.old.from ≤ input.old.to) × (input.old.to ≤ length input.old.buffer.items) }
    ensures { UsesHeader input.old input.new result }
{
    let held = input.held();
    let end = line_end(held, 0);
    if end >= held.len() {
        return Err(TextFault::Trace(TraceFault {
            line: 1,
            kind: TraceKind::NoEnd,
        }));
    }
    input.advance(end + 1);
    Ok(())
}

/// Reads the whole lines that the input holds. Returns whether there may be more to read.
///
/// Errors: the first fault of the text. If there is no more to read, a line without its end is a
/// fault.
fn read_held<const C: usize, const M: usize>(
    lines: &mut ScriptReader<C, M>,
    input: &mut Input,
) -> Result<bool, TextFault>
    requires { IsReading lines.old input.old }
    ensures { ReadsHeld lines.old input.old lines.new input.new result }
{
    match lines.read(input.held()) {
        Ok(used) => input.advance(used),
        Err(fault) => return Err(TextFault::from(fault)),
    }
    if input.is_full() {
        return Ok(true);
    }
    match lines.end_fault(input.held()) {
        Some(fault) => Err(TextFault::from(fault)),
        None => Ok(false),
    }
}

/// Reads the whole lines that the input holds, like `read_held`, and proves for a consumer, which
/// is not called here, that `consume` may be called.
#[inline(always)]
fn read_on<By, L: BeatConsumer<By, C, M>, const C: usize, const M: usize>(
    lines: &mut ScriptReader<C, M>,
    input: &mut Input,
    _consumer: &L,
) -> Result<bool, TextFault>
    requires { IsReading lines.old input.old × CanConsume L.HasConsumed lines.old input.old _consumer.now }
    ensures read { ReadsHeld lines.old input.old lines.new input.new result }
    ensures consume { IfOk result (λ _. IsWidth C × IsWidth M ×
        ((version : ℕ) × (discarded : Discarded C M) × L.HasConsumed version _consumer.now discarded lines.new.script)) }
{
    read_held(lines, input)
}

/// Reads a text to its end, incrementally. Its first piece has been read and not consumed, and no
/// line was parsed yet. After each piece except the last one, the consumer advances over the
/// beats that were read, and the beats that it no longer needs are removed.
///
/// Errors: as `script_of_input`, and `OutOfMemory` if the consumer fails.
#[inline(never)]
fn read_pieces<R: Read, By, L: BeatConsumer<By, C, M>, const C: usize, const M: usize>(
    reader: &mut R,
    input: &mut Input,
    lines: &mut ScriptReader<C, M>,
    consumer: &mut L,
) -> Result<(), TextFault>
    requires { IsBeginning L.HasConsumed (R.remaining reader.old) input.old lines.old consumer.old }
    ensures { ReadsThrough (L.HasConsumed lines.old.version) L.ConsumesOn (length input.old.buffer.items) consumer.old
        (unread_of input.old (R.remaining reader.old)) (R.remaining reader.new)
        lines.old.version consumer.new lines.new.script input.new result }
{
    if let Err(fault) = use_header(input) {
        return Err(fault);
    }
    'pieces: loop {
        match read_on::<By, L, C, M>(lines, input, consumer) {
            Ok(true) => {}
            Ok(false) => return Ok(()),
            Err(fault) => return Err(fault),
        }
        match consumer.consume(&lines.script) {
            Ok(counts) => lines.remove_front(&counts),
            Err(_) => return Err(TextFault::OutOfMemory),
        }
        if let Err(fault) = input.refill(reader) {
            return Err(fault);
        }
    }
}

/// Reads a text to its end, incrementally. Its header names this version and these widths. Its
/// first piece has been read and not consumed, and the consumer is new. After each piece
/// except the last one, the consumer advances over the beats that were read, and the beats that it
/// no longer needs are removed. A piece has at most as many bytes as the input's buffer. Returns the
/// beats of the script that are left at the end.
///
/// Errors: as [`script_of_input`], and `OutOfMemory` if the consumer fails.
pub fn read_through<R: Read, By, L: BeatConsumer<By, C, M>, const C: usize, const M: usize>(
    alloc: Global,
    reader: &mut R,
    input: &mut Input,
    version: u8,
    consumer: &mut L,
) -> Result<Script<C, M>, TextFault>
    requires { IsFresh (R.remaining reader.old) input.old ×
        HasHeader (held input.old) version C M × IsNew (L.HasConsumed version) consumer.old }
    ensures ok { IfOk result (IsReadThrough (L.HasConsumed version)
        (unread_of input.old (R.remaining reader.old)) (R.remaining reader.new)
        version consumer.new) }
    ensures pieces { IfOk result (IsConsumedInPieces L.ConsumesOn version (length input.old.buffer.items) consumer.old
        (unread_of input.old (R.remaining reader.old)) (R.remaining reader.new) consumer.new) }
    ensures err { IfErr result (IsRefused
        (unread_of input.old (R.remaining reader.old)) (R.remaining reader.new) input.new) }
{
    let mut lines = ScriptReader::<C, M>::new(alloc, version);
    match read_pieces::<R, By, L, C, M>(reader, input, &mut lines, consumer) {
        Ok(()) => Ok(lines.script),
        Err(fault) => Err(fault),
    }
}

/// Reads a text to its end, incrementally, so that only a piece of it is in memory. Its header
/// names this version and these widths. Its first piece has been read and not
/// consumed. Returns the script of the text.
///
/// Errors:
/// - `Trace`: the text's first fault and its line. The rest of the text is not read yet.
/// - `Read`: a read failed or was interrupted.
/// - `TooLong`: the text has more than 67,108,864 bytes.
/// - `OutOfMemory`
#[inline(never)]
pub fn script_of_input<R: Read, const C: usize, const M: usize>(
    alloc: Global,
    reader: &mut R,
    input: &mut Input,
    version: u8,
) -> Result<Script<C, M>, TextFault>
    requires client { IsWidth C }
    requires manager { IsWidth M }
    requires fresh { IsFresh (R.remaining reader.old) input.old }
    requires header { HasHeader (held input.old) version C M }
    ensures { ReadsScript (unread_of input.old (R.remaining reader.old)) (R.remaining reader.new)
        version input.new result }
{
    read_through::<R, KeepAll, KeepAll, C, M>(alloc, reader, input, version, &mut KeepAll)
}
