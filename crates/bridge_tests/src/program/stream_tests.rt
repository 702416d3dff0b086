use crate::lending::holds_at;
use std::alloc::Global;
use std::io;
use std::io::{Read, Write};
use tl_stream::{Input, TextFault, read_all, write_all};

const TEXT: &str =
    "tilelink-trace 1 client 8 manager 4\nA 4 0 2 07 0000000000001004 f0 1122334455667788 0\n";

/// A reader that returns a text, some bytes per call, and fails at one call.
#[derive(Drop)]
struct Pieces<'a> {
    rest: &'a [u8],
    most: usize,
    calls: usize,
    bad_call: usize,
    kind: io::ErrorKind,
}

impl<'a> Read for Pieces<'a> {
    fn read(&mut self, buf: &mut [u8]) -> io::Result<usize> {
        self.calls = self.calls.saturating_add(1);
        if self.calls == self.bad_call {
            return Err(io::Error::from(self.kind));
        }
        let n = buf.len().min(self.most).min(self.rest.len());
        buf[..n].copy_from_slice(&self.rest[..n]);
        self.rest = &self.rest[n..];
        Ok(n)
    }
}

/// A writer that takes some bytes per call, and fails at one call and, if configured so, at a
/// flush. It notes how many bytes it had taken at the last flush.
#[derive(Drop)]
struct Slow {
    taken: Vec<u8>,
    flushed: usize,
    most: usize,
    calls: usize,
    bad_call: usize,
    kind: io::ErrorKind,
    flushes: bool,
}

impl Write for Slow {
    fn write(&mut self, buf: &[u8]) -> io::Result<usize> {
        self.calls = self.calls.saturating_add(1);
        if self.calls == self.bad_call {
            return Err(io::Error::from(self.kind));
        }
        let n = buf.len().min(self.most);
        self.taken.extend_from_slice(&buf[..n])?;
        Ok(n)
    }

    fn flush(&mut self) -> io::Result<()> {
        if self.flushes {
            self.flushed = self.taken.len();
            Ok(())
        } else {
            Err(io::Error::from(io::ErrorKind::Other))
        }
    }
}

const KINDS: [io::ErrorKind; 2] = [io::ErrorKind::Interrupted, io::ErrorKind::Other];

/// Returns whether the text, one byte per call, is read if no call fails (call 0), and otherwise
/// the result is a read fault.
fn is_read_or_fault(alloc: Global, bad_call: usize, kind: io::ErrorKind) -> bool {
    let mut reader = Pieces {
        rest: TEXT.as_bytes(),
        most: 1,
        calls: 0,
        bad_call,
        kind,
    };
    match read_all(alloc, &mut reader) {
        Ok(text) => (bad_call == 0) & (text.as_slice() == TEXT.as_bytes()),
        Err(fault) => (bad_call != 0) & (fault == TextFault::Read),
    }
}

/// The text has 86 bytes, so call 87 finds the end of it. No call fails, and then each in turn.
#[test]
fn readers(rt: HostRuntime) {
    for bad_call in 0..=87 {
        for &kind in &KINDS {
            holds_at(&rt, is_read_or_fault(rt.alloc(), bad_call, kind), bad_call);
        }
    }
}

/// Returns the result of reading a text incrementally, as a run reads it, some bytes per call.
fn read_in_pieces(
    alloc: Global,
    text: &[u8],
    bad_call: usize,
    kind: io::ErrorKind,
) -> Result<usize, TextFault> {
    let mut reader = Pieces {
        rest: text,
        most: 100_000,
        calls: 0,
        bad_call,
        kind,
    };
    match Input::open(alloc, &mut reader) {
        Ok(mut input) => match input.drain(&mut reader) {
            Ok(()) => Ok(input.total),
            Err(fault) => Err(fault),
        },
        Err(fault) => Err(fault),
    }
}

/// Returns whether all 300,000 bytes are read if call 6 or a later one fails, and otherwise the
/// result is a read fault.
fn comes_in_pieces(alloc: Global, text: &[u8], bad_call: usize, kind: io::ErrorKind) -> bool {
    let wanted = if bad_call > 5 {
        Ok(300_000)
    } else {
        Err(TextFault::Read)
    };
    read_in_pieces(alloc, text, bad_call, kind) == wanted
}

/// A piece has 262,144 bytes. So calls 1 to 3 read the first piece of 300,000 bytes, call 4 the rest,
/// and call 5 finds the end. Each call fails in turn, and none is made again. There is no call 6.
#[test]
fn read_in_pieces_that_fail(rt: HostRuntime) {
    let text = vec![in rt.alloc(); b'x'; 300_000].expect(&rt, "there is memory");
    for &kind in &KINDS {
        for bad_call in 1..=6 {
            holds_at(
                &rt,
                comes_in_pieces(rt.alloc(), text.as_slice(), bad_call, kind),
                bad_call,
            );
        }
    }
}

/// A row: the number of bytes that a call takes, the call that fails, whether a flush succeeds, and
/// whether the text is written.
type Taken = (usize, usize, bool, bool);

const WRITERS: [Taken; 3] = [
    (1, 0, true, true),
    (0, 0, true, false),
    (1000, 0, false, false),
];

/// Returns whether the text is written and then flushed, or the result is a write fault, as the row
/// expects.
fn is_written(alloc: Global, row: &Taken, kind: io::ErrorKind) -> bool {
    let &(most, bad_call, flushes, is_well) = row;
    let mut writer = Slow {
        taken: Vec::new(alloc),
        flushed: 0,
        most,
        calls: 0,
        bad_call,
        kind,
        flushes,
    };
    match write_all(&mut writer, TEXT.as_bytes()) {
        Ok(()) => {
            is_well && writer.taken.as_slice() == TEXT.as_bytes() && writer.flushed == TEXT.len()
        }
        Err(fault) => !is_well && fault == TextFault::Write,
    }
}

/// Also if each write of one byte fails in turn, the Nth in row 100 + N.
#[test]
fn writers(rt: HostRuntime) {
    for (number, row) in WRITERS.iter().enumerate() {
        holds_at(
            &rt,
            is_written(rt.alloc(), row, io::ErrorKind::Other),
            number,
        );
    }
    for bad_call in 1..=TEXT.len() {
        for &kind in &KINDS {
            holds_at(
                &rt,
                is_written(rt.alloc(), &(1, bad_call, true, false), kind),
                bad_call.saturating_add(100),
            );
        }
    }
}
