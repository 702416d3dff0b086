//! The texts of the statuses.
ghost use Rattle.std.specs.Prelude.{◌≡◌, ◌≤◌, ◌<◌, length};
ghost use Rattle.tl_c_beats.specs.Texts.{status_name, status_sentence, status_text, zero_ended};

use crate::answers::{BRIDGE_MISMATCH, NOT_OPEN, NOT_READY, NOT_SENT, NOT_TAKEN, WRONG_RECEIPT};

/// The number of bytes of a status's name, including the zeros at its end.
pub const NAME_BYTES: usize = 16;

/// The number of bytes of a status's sentence, including the zeros at its end.
pub const SENTENCE_BYTES: usize = 144;

/// The name of a status and the sentence that explains it, each followed by zeros.
#[repr(C)]
#[derive(Drop)]
pub struct StatusText {
    pub name: [u8; NAME_BYTES],
    pub sentence: [u8; SENTENCE_BYTES],
}

// C gets these sizes only from the header.
const _: () = prove!(NAME_BYTES == 16);

const _: () = prove!(SENTENCE_BYTES == 144);

const _: () = prove!(size_of::<StatusText>() == 160);

// Returns the name of a status: `Ok`, the name of the fault with this number, or the name of a
// status that only the library has. Empty for a number that is not a status.
fn status_name(answer: u8) -> &'static str
    ensures name { result.now ≡ status_name answer }
    ensures fits { length result.now < NAME_BYTES }
{
    match answer {
        0 => "Ok",
        1 => "Opcode",
        2 => "Param",
        3 => "Size",
        4 => "Unaligned",
        5 => "Mask",
        6 => "Corrupt",
        7 => "HeadChanged",
        8 => "SourceBusy",
        9 => "NoRequest",
        10 => "SizeMismatch",
        11 => "MidBurst",
        12 => "RingSize",
        13 => "OutOfMemory",
        14 => "Header",
        15 => "Channel",
        16 => "Length",
        17 => "Shape",
        18 => "Range",
        19 => "NoEnd",
        20 => "Stalled",
        21 => "Read",
        22 => "Write",
        23 => "TooLong",
        NOT_TAKEN => "NotTaken",
        WRONG_RECEIPT => "WrongReceipt",
        BRIDGE_MISMATCH => "BridgeMismatch",
        NOT_OPEN => "NotOpen",
        NOT_SENT => "NotSent",
        NOT_READY => "NotReady",
        _ => "",
    }
}

// Returns the sentence that explains a status. Empty for a number that is not a status.
fn status_sentence(answer: u8) -> &'static str
    ensures sentence { result.now ≡ status_sentence answer }
    ensures fits { length result.now < SENTENCE_BYTES }
{
    match answer {
        0 => "it is done",
        1 => "the channel has no message with this opcode",
        2 => "the message has no such param",
        3 => "the size is above 12: a message has at most 2^12 = 4096 bytes",
        4 => "the address is not a multiple of the message's size in bytes",
        5 =>
            "the mask does not match the active lanes (PutPartialData: the mask sets lanes that are not active)",
        6 => "corrupt is set on a message that carries no data",
        7 => "inside a burst, a beat does not repeat the head of the burst's first beat",
        8 => "the source's last request still waits for its response",
        9 => "no request of this source waits for a response",
        10 => "the size of the response is not that of its request",
        11 => "the channel cannot be closed within a burst",
        12 => "a ring holds 1 to 4096 beats",
        13 => "memory ran out",
        14 =>
            "line 1 must be 'tilelink-trace V client C manager M': V is 1 or 2, C and M are bus widths in bytes (1 to 64; 128 in version 2 only)",
        15 => "the line is empty, or does not begin with a channel's letter, A to E",
        16 => "the line has the wrong length for its channel, trace version and bus width",
        17 => "a space or a lower-case hexadecimal digit is missing at its position",
        18 => "a field has a value that it cannot have, for example opcode 8",
        19 => "the last line does not end with a newline (LF)",
        20 => "the two sides stopped moving beats; it is proved that no run does",
        21 => "the trace could not be read",
        22 => "standard output could not be written",
        23 => "the trace has more than 67108864 bytes (64 MiB)",
        NOT_TAKEN => "not all beats that the receipt counts were taken yet",
        WRONG_RECEIPT => "this is no receipt that the other side gave since the bridge was opened",
        BRIDGE_MISMATCH => "the two numbers of the bridge differ",
        NOT_OPEN => "the handle holds no side of a bridge",
        NOT_SENT => "a channel that the side sends is open, or far beats are staged",
        NOT_READY => "the channel takes no beat now: far beats are staged, or it is closed",
        _ => "",
    }
}

// Returns a text followed by zeros, `N` bytes in all. Requires: the text has at most `N` bytes.
fn zero_ended<const N: usize>(text: &str) -> [u8; N]
    requires { length text.now ≤ N }
    ensures { result ≡ zero_ended N text.now }
{
    let mut bytes = [0; N];
    bytes[..text.len()].copy_from_slice(text.as_bytes());
    bytes
}

/// Returns the name and the sentence of a status: of 0, of each fault by its number, and of the
/// statuses that only the library has. All zeros for a number that is not a status.
pub fn status_text(answer: u8) -> StatusText
    ensures { result ≡ status_text answer }
{
    StatusText {
        name: zero_ended(status_name(answer)),
        sentence: zero_ended(status_sentence(answer)),
    }
}
