//! A text buffer that is written incrementally.
use itoa::Buffer;
use std::alloc::{AllocError, Global};
use tl_lanes::MAX_SIZE;
use tl_msg::{Kind, SourceId};
use tl_trace::id_digits;

/// The colours of a terminal by their numbers.
#[derive(Clone, Copy)]
pub enum Colour {
    Red = 31,
    Green = 32,
    Yellow = 33,
}

/// A piece of a sentence.
#[derive(Clone, Copy)]
pub enum Piece<'a> {
    Text(&'a str),
    /// A text in a colour, if the page has colours.
    Coloured(Colour, &'a str),
    Letter(u8),
    Number(u64),
    /// `line ` and the number of a line, which is a link on a page that shows the line.
    Line(u64),
    /// The two digits of a byte.
    Byte(u8),
    Address(u64),
    /// A source or a sink, with the digits that it has in a trace of this version.
    Id(SourceId, u8),
    /// The length of a message of this size.
    Length(u8),
    /// The name of a message, as the standard spells it.
    Name(Kind),
    /// An opcode that no message has.
    Opcode(u8),
}

use Piece::{Address, Byte, Coloured, Id, Length, Letter, Line, Name, Number, Opcode, Text};

/// The hexadecimal digits, and the largest number of them in a number.
const DIGITS: &[u8; 16] = b"0123456789abcdef";

const MOST_DIGITS: usize = 16;

/// The names of the messages, as the standard spells them, in the order of [`Kind`].
const NAMES: &[&str; 20] = &[
    "PutFullData",
    "PutPartialData",
    "ArithmeticData",
    "LogicalData",
    "Get",
    "Intent",
    "AcquireBlock",
    "AcquirePerm",
    "ProbeBlock",
    "ProbePerm",
    "AccessAck",
    "AccessAckData",
    "HintAck",
    "ProbeAck",
    "ProbeAckData",
    "Release",
    "ReleaseData",
    "Grant",
    "GrantData",
    "ReleaseAck",
];

/// A text buffer that is written incrementally. Allocation failures are recorded and reported once,
/// at the end.
#[derive(Drop)]
pub struct TextBuf {
    /// The text that was written, without the parts that were removed.
    pub text: Vec<u8>,
    has_colours: bool,
    /// For a page: whether it shows each line of a trace, from line 2 on. Empty for other texts.
    pub shown: Vec<bool>,
    pub out_of_memory: bool,
}

impl TextBuf {
    /// Creates an empty buffer. If `has_colours` is true, coloured pieces have their colours.
    pub fn new(alloc: Global, has_colours: bool) -> TextBuf {
        TextBuf {
            text: Vec::new(alloc),
            has_colours,
            shown: Vec::new(alloc),
            out_of_memory: false,
        }
    }

    /// Returns the whole text. Errors: `AllocError` if an allocation failed for a part of it.
    pub fn into_text(self) -> Result<Vec<u8>, AllocError> {
        if self.out_of_memory {
            return Err(AllocError);
        }
        Ok(self.text)
    }

    /// Writes bytes.
    #[inline(always)]
    pub fn put_bytes(&mut self, bytes: &[u8]) {
        self.out_of_memory |= self.text.extend_from_slice(bytes).is_err();
    }

    /// Writes a word.
    #[inline(always)]
    pub fn put_text(&mut self, word: &str) {
        self.put_bytes(word.as_bytes());
    }

    /// Writes the last decimal digit of a number.
    fn put_digit(&mut self, number: u64) {
        let digit = b'0' + (number % 10) as u8;
        self.out_of_memory |= self.text.push(digit).is_err();
    }

    /// Writes a number in decimal digits.
    pub fn put_number(&mut self, number: u64) {
        if number < 100 {
            if number >= 10 {
                self.put_digit(number / 10);
            }
            return self.put_digit(number % 10);
        }
        let mut buffer = Buffer::new();
        self.put_bytes(buffer.format(number).as_bytes());
    }

    /// Writes a space, then the number in decimal, right-aligned in at least `room` columns.
    pub fn put_column(&mut self, number: u64, room: usize) {
        let mut buffer = Buffer::new();
        let digits = buffer.format(number).as_bytes();
        for _ in digits.len()..room.saturating_add(1) {
            self.put_bytes(b" ");
        }
        self.put_bytes(digits);
    }

    /// Returns whether this is a page that shows this line.
    pub fn is_shown(&self, line: u64) -> bool {
        let shown = self.shown.get((line as usize).wrapping_sub(2));
        shown.copied().unwrap_or(false)
    }

    /// Writes `line ` and the number of a line; as a link if the page shows the line.
    pub fn put_line(&mut self, line: u64) {
        if self.is_shown(line) {
            self.put_text("<a href=\"#line-");
            self.put_number(line);
            self.put_text("\">line ");
            self.put_number(line);
            return self.put_text("</a>");
        }
        self.put_text("line ");
        self.put_number(line);
    }

    /// Writes a number in hexadecimal, with at least `least` digits.
    fn put_hex(&mut self, number: u64, least: usize) {
        let mut digits = [b'0'; MOST_DIGITS];
        let (mut rest, mut first) = (number, 0);
        for back in 0..MOST_DIGITS {
            let at = MOST_DIGITS - 1 - back;
            digits[at] = DIGITS[(rest % 16) as usize];
            rest /= 16;
            if rest == 0 {
                first = at;
                break;
            }
        }
        let first = first.min(MOST_DIGITS.saturating_sub(least));
        self.put_bytes(digits.get(first..).unwrap_or(&[]));
    }

    /// Writes an address.
    pub fn put_address(&mut self, address: u64) {
        self.put_bytes(b"0x");
        self.put_hex(address, 1);
    }

    /// Writes a source or a sink, with the digits that it has in a trace of this version.
    pub fn put_id(&mut self, id: SourceId, version: u8) {
        self.put_hex(id as u64, id_digits(version));
    }

    /// Writes a word, in a colour of the terminal if the text has colours.
    #[inline(always)]
    pub fn put_coloured(&mut self, colour: Colour, word: &str) {
        if !self.has_colours {
            return self.put_text(word);
        }
        self.put_bytes(b"\x1b[");
        self.put_number(colour as u64);
        self.put_bytes(b"m");
        self.put_text(word);
        self.put_bytes(b"\x1b[0m");
    }

    /// Writes the length of a message of this size.
    pub fn put_length(&mut self, size: u8) {
        if size == 0 {
            return self.put_bytes(b"1 byte");
        }
        if size <= MAX_SIZE {
            self.put_number(1u64 << size);
        } else {
            self.put_bytes(b"2^");
            self.put_number(size as u64);
        }
        self.put_bytes(b" bytes");
    }

    /// Writes a piece.
    pub fn put(&mut self, piece: Piece<'_>) {
        match piece {
            Text(word) => self.put_text(word),
            Coloured(colour, word) => self.put_coloured(colour, word),
            Letter(letter) => self.put_bytes(&[letter]),
            Number(number) => self.put_number(number),
            Line(line) => self.put_line(line),
            Byte(byte) => self.put_hex(byte as u64, 2),
            Address(address) => self.put_address(address),
            Id(id, version) => self.put_id(id, version),
            Length(size) => self.put_length(size),
            Name(kind) => self.put_text(NAMES[kind as usize]),
            Opcode(opcode) => {
                self.put_bytes(b"opcode ");
                self.put_number(opcode as u64);
            }
        }
    }

    /// Writes a sentence, with each `#` replaced by the next of these pieces. Pieces after the last
    /// `#` are ignored.
    pub fn say(&mut self, sentence: &str, pieces: &[Piece<'_>]) {
        let mut rest = sentence;
        for piece in pieces {
            let Some((before, after)) = rest.split_once("#") else {
                break;
            };
            self.put_text(before);
            self.put(*piece);
            rest = after;
        }
        self.put_text(rest);
    }
}
