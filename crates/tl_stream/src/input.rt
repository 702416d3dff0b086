//! A text that is read incrementally.
ghost use Rattle.std.specs.Prelude.{◌≡◌, ◌≢◌, ◌≤◌, ◌<◌, ◌+◌, ◌-◌, ℕ, List, [], Option, length, IfSome, IfOk, OnOk, IfErr, IsErrOf, ◌==◌};
ghost use Rattle.std.specs.Io.KnownBytes.{IsAtEnd};
ghost use Rattle.tl_stream.specs.Inner.Filling.{Fills};
ghost use Rattle.tl_stream.specs.Inputs.{HasTaken, held};
ghost use Rattle.tl_stream.specs.Inputs.{most_bytes};
ghost use Rattle.tl_stream.specs.declared.input.TheConstants.{PIECE_BYTES};
ghost use Rattle.tl_stream.specs.declared.fault.TextFault.TheVariants.{Read as ReadFault, TooLong, OutOfMemory};

use crate::fault::TextFault;
use std::alloc::{AllocError, Global};
use std::io::Read;

/// The largest number of bytes of a text (this project's choice).
pub const MAX_BYTES: usize = 67_108_864;

/// The number of bytes of a piece of a text.
pub const PIECE_BYTES: usize = 262_144;

/// Allocates a buffer of `bytes` bytes.
pub fn read_buffer(alloc: Global, bytes: usize) -> Result<Vec<u8>, AllocError>
    ensures { IfOk result (λ v. length v.items ≡ bytes) }
{
    vec![in alloc; 0u8; bytes]
}

/// Reads until `room` is full, or to the end. Returns how many bytes were read.
///
/// Errors: `Read` if a read fails or is interrupted, `TooLong` if more than `most` bytes were read.
pub(crate) fn fill<R: Read>(
    reader: &mut R,
    room: &mut [u8],
    most: usize,
) -> Result<usize, TextFault>
    ensures { Fills (R.remaining reader.old) (R.remaining reader.new) most room.new result }
{
    let mut filled = 0;
    while filled < room.len() {
        match reader.read(&mut room[filled..]) {
            Ok(0) => return Ok(filled),
            Ok(n) => {
                if n > most - filled {
                    return Err(TextFault::TooLong);
                }
                filled += n;
            }
            Err(_) => return Err(TextFault::Read),
        }
    }
    Ok(filled)
}

/// A text that is read incrementally: the bytes that were read and are not used yet.
///
/// In contracts the input has taken a part of what a reader had, and some of that part was used
/// (`HasTaken`). If the buffer is not full, the reader is at its end.
#[derive(Drop)]
pub struct Input {
    /// Used bytes, then those that are not used yet, and then free capacity: 262,144 bytes in all.
    pub buffer: Vec<u8>,
    /// The position of the first byte that is not used yet.
    pub from: usize,
    /// The position after the last byte that is not used yet.
    pub to: usize,
    /// The number of bytes of the text that were read so far, at most 67,108,864.
    pub total: usize,
}

impl Input {
    /// Reads the first piece of a text.
    ///
    /// Errors: `Read` if a read fails or is interrupted, `TooLong` above 67,108,864 bytes, or
    /// `OutOfMemory`.
    pub fn open<R: Read>(alloc: Global, reader: &mut R) -> Result<Input, TextFault>
        ensures ok { IfOk result (HasTaken (R.remaining reader.old) (R.remaining reader.new) []) }
        ensures first { IfOk result (λ input. input.from ≡ 0) }
        ensures size { IfOk result (λ input. length input.buffer.items ≡ PIECE_BYTES) }
        ensures long { IsErrOf result TooLong → IfSome (R.remaining reader.old) (λ text.
            most_bytes < length text) }
        ensures kinds { IfErr result (λ e. (e ≢ ReadFault) → (e ≢ TooLong) → e ≡ OutOfMemory) }
    {
        let Ok(mut buffer) = read_buffer(alloc, PIECE_BYTES) else {
            return Err(TextFault::OutOfMemory);
        };
        match fill(reader, buffer.as_mut_slice(), MAX_BYTES) {
            Ok(to) => Ok(Input {
                buffer,
                from: 0,
                to,
                total: to,
            }),
            Err(fault) => Err(fault),
        }
    }

    /// Returns the bytes that were read and are not used yet.
    pub fn held(&self) -> &[u8]
        requires from { self.now.from ≤ self.now.to }
        requires to { self.now.to ≤ length self.now.buffer.items }
        ensures { result.now ≡ held self.now }
    {
        &self.buffer[self.from..self.to]
    }

    /// Returns whether the buffer is full, so that there may be more to read.
    pub fn is_full(&self) -> bool
        ensures { result ≡ (self.now.to == length self.now.buffer.items) }
    {
        self.to == self.buffer.len()
    }

    /// Marks `used` more bytes as used. Requires: that many are not used yet.
    pub fn advance(&mut self, used: usize)
        requires { self.old.from + used ≤ self.old.to }
        ensures from { self.new.from ≡ self.old.from + used }
        ensures to { self.new.to ≡ self.old.to }
        ensures buffer { self.new.buffer.items ≡ self.old.buffer.items }
        ensures total { self.new.total ≡ self.old.total }
    {
        self.from += used;
    }

    /// Reads more bytes, after those that are not used yet, until the buffer is full or to the end.
    ///
    /// Errors: `Read` if a read fails or is interrupted, `TooLong` above 67,108,864 bytes in all.
    pub fn refill<R: Read>(&mut self, reader: &mut R) -> Result<(), TextFault>
        requires from { self.old.from ≤ self.old.to }
        requires to { self.old.to ≤ length self.old.buffer.items }
        requires few { self.old.total ≤ most_bytes }
        ensures ok { (unread : Option (List ℕ)) → (used : List ℕ) →
            HasTaken unread (R.remaining reader.old) used self.old →
            OnOk result (HasTaken unread (R.remaining reader.new) used self.new) }
        ensures from { OnOk result (self.new.from ≡ 0) }
        ensures size { OnOk result (length self.new.buffer.items ≡ length self.old.buffer.items) }
        ensures more { OnOk result (self.old.total ≤ self.new.total) }
        ensures grown { OnOk result (self.new.to ≡ length self.new.buffer.items →
            self.old.to - self.old.from < length self.old.buffer.items →
            self.old.total < self.new.total) }
        ensures long { (unread : Option (List ℕ)) → (used : List ℕ) →
            HasTaken unread (R.remaining reader.old) used self.old →
            IsErrOf result TooLong → IfSome unread (λ text. most_bytes < length text) }
        ensures kinds { IfErr result (λ e. (e ≢ ReadFault) → e ≡ TooLong) }
    {
        let most = MAX_BYTES - self.total;
        let kept = self.to - self.from;
        let buffer = self.buffer.as_mut_slice();
        buffer.copy_within(self.from..self.to, 0);
        match fill(reader, &mut buffer[kept..], most) {
            Ok(read) => {
                self.total += read;
                self.from = 0;
                self.to = kept + read;
                Ok(())
            }
            Err(fault) => Err(fault),
        }
    }

    /// Reads to the end and discards all bytes but those of the last piece. Errors: as `refill`.
    pub fn drain<R: Read>(&mut self, reader: &mut R) -> Result<(), TextFault>
        requires taken { (unread : Option (List ℕ)) × (used : List ℕ) ×
            HasTaken unread (R.remaining reader.old) used self.old }
        ensures ok { (unread : Option (List ℕ)) → (used : List ℕ) →
            HasTaken unread (R.remaining reader.old) used self.old →
            OnOk result (IsAtEnd (R.remaining reader.new) × IfSome unread (λ text.
            length text ≤ most_bytes)) }
        // (the last piece is still held)
        ensures taken { (unread : Option (List ℕ)) → (used : List ℕ) →
            HasTaken unread (R.remaining reader.old) used self.old →
            OnOk result ((all : List ℕ) × HasTaken unread (R.remaining reader.new) all self.new) }
        ensures long { (unread : Option (List ℕ)) → (used : List ℕ) →
            HasTaken unread (R.remaining reader.old) used self.old →
            IsErrOf result TooLong → IfSome unread (λ text. most_bytes < length text) }
        ensures kinds { IfErr result (λ e. (e ≢ ReadFault) → e ≡ TooLong) }
    {
        while self.is_full() {
            self.from = self.to;
            if let Err(fault) = self.refill(reader) {
                return Err(fault);
            }
        }
        Ok(())
    }
}
