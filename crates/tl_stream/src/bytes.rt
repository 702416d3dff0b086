//! Functions that read or write all bytes of a text.
ghost use Rattle.std.specs.Prelude.{◌≡◌, ◌≢◌, ◌≤◌, ◌<◌, [], length, IfSome, IfOk, OnOk, IfErr, IsErrOf, OnErr};
ghost use Rattle.std.specs.Io.KnownBytes.{Appends, Keeps, IsAtEnd};
ghost use Rattle.tl_stream.specs.Inputs.{most_bytes};
ghost use Rattle.tl_stream.specs.Outputs.{AppendsPart};
ghost use Rattle.tl_stream.specs.Inner.Reading.{ReadsAll};
ghost use Rattle.tl_stream.specs.declared.fault.TextFault.TheVariants.{Read as ReadFault, Write as WriteFault, TooLong, OutOfMemory};

use crate::fault::TextFault;
use crate::input::{MAX_BYTES, fill, read_buffer};
use std::alloc::Global;
use std::io::{Read, Write};

/// The largest number of bytes of one read.
const READ_BYTES: usize = 65_536;

/// Reads to the end, through a buffer, into an empty list. Errors: as `read_all`.
fn read_rest<R: Read>(reader: &mut R, all: &mut Vec<u8>, buffer: &mut [u8]) -> Result<(), TextFault>
    requires { (all.old.items ≡ []) × (0 < length buffer.old) }
    ensures { ReadsAll (R.remaining reader.old) (R.remaining reader.new) all.new.items result }
{
    loop {
        let n = match fill(reader, buffer, MAX_BYTES - all.len()) {
            Ok(n) => n,
            Err(fault) => return Err(fault),
        };
        if let Err(_) = all.extend_from_slice(&buffer[..n]) {
            return Err(TextFault::OutOfMemory);
        }
        if n < buffer.len() {
            return Ok(());
        }
    }
}

/// Reads to the end. Returns all bytes.
///
/// Errors: `Read` if a read fails or is interrupted, `TooLong` above 67,108,864 bytes, or
/// `OutOfMemory`. After an error it is not specified how much was read.
pub fn read_all<R: Read>(alloc: Global, reader: &mut R) -> Result<Vec<u8>, TextFault>
    ensures all { IfOk result (λ v. IfSome (R.remaining reader.old) (λ text. v.items ≡ text)) }
    ensures few { IfOk result (λ v. length v.items ≤ most_bytes) }
    ensures end { OnOk result (IsAtEnd (R.remaining reader.new)) }
    ensures long { IsErrOf result TooLong → IfSome (R.remaining reader.old) (λ text.
        most_bytes < length text) }
    ensures kinds { IfErr result (λ e. (e ≢ ReadFault) → (e ≢ TooLong) → e ≡ OutOfMemory) }
{
    let Ok(mut buffer) = read_buffer(alloc, READ_BYTES) else {
        return Err(TextFault::OutOfMemory);
    };
    let mut all = Vec::new(alloc);
    match read_rest(reader, &mut all, buffer.as_mut_slice()) {
        Ok(()) => Ok(all),
        Err(fault) => Err(fault),
    }
}

/// Writes all bytes without flushing. Errors: as `write_all`.
pub fn write_bytes<W: Write>(writer: &mut W, bytes: &[u8]) -> Result<(), TextFault>
    ensures all { OnOk result (Appends (W.contents writer.old) (W.contents writer.new) bytes.now) }
    ensures part { OnErr result (AppendsPart (W.contents writer.old) (W.contents writer.new) bytes.now) }
    ensures kind { IfErr result (λ e. e ≡ WriteFault) }
{
    let mut written = 0;
    while written < bytes.len() {
        match writer.write(&bytes[written..]) {
            Ok(0) => return Err(TextFault::Write),
            Ok(n) => written += n,
            Err(_) => return Err(TextFault::Write),
        }
    }
    Ok(())
}

/// Flushes a writer. Errors: as `write_all`.
pub fn flush<W: Write>(writer: &mut W) -> Result<(), TextFault>
    ensures kept { Keeps (W.contents writer.old) (W.contents writer.new) }
    ensures kind { IfErr result (λ e. e ≡ WriteFault) }
{
    if writer.flush().is_err() {
        return Err(TextFault::Write);
    }
    Ok(())
}

/// Writes all bytes and flushes.
///
/// Errors: only `Write`, if a write or the flush fails, is interrupted or takes no byte. After an
/// error it is not specified how much was written, but it is the first of these bytes.
pub fn write_all<W: Write>(writer: &mut W, bytes: &[u8]) -> Result<(), TextFault>
    ensures all { OnOk result (Appends (W.contents writer.old) (W.contents writer.new) bytes.now) }
    ensures part { OnErr result (AppendsPart (W.contents writer.old) (W.contents writer.new) bytes.now) }
    ensures kind { IfErr result (λ e. e ≡ WriteFault) }
{
    write_bytes(writer, bytes)?;
    flush(writer)
}
