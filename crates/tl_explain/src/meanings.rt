//! The faults by number, each in a sentence.
use tl_answer::TextFault;

/// The position of the sentence in a line of `FAULTS`, after number and name.
const SENTENCE: usize = 16;

/// The faults of the program `tlbridge` and of the bridge's calls, a line each: number, name, and
/// what it means.
pub const FAULTS: &str = r#" 1 Opcode       the channel has no message with this opcode
 2 Param        the message has no such param
 3 Size         the size is above 12: a message has at most 2^12 = 4096 bytes
 4 Unaligned    the address is not a multiple of the message's size in bytes
 5 Mask         the mask does not match the active lanes (PutPartialData: the mask sets lanes that are not active)
 6 Corrupt      corrupt is set on a message that carries no data
 7 HeadChanged  inside a burst, a beat does not repeat the head of the burst's first beat
 8 SourceBusy   the source's last request still waits for its response
 9 NoRequest    no request of this source waits for a response
10 SizeMismatch the size of the response is not that of its request
11 MidBurst     a caller closed a channel within a burst; no trace shows it
12 RingSize     a caller asked for a ring of no beats or of more than 4096; no trace shows it
13 OutOfMemory  memory ran out
14 Header       line 1 must be 'tilelink-trace V client C manager M': V is 1 or 2, C and M are bus widths in bytes (1 to 64; 128 in version 2 only)
15 Channel      the line is empty, or does not begin with a channel's letter, A to E
16 Length       the line has the wrong length for its channel, trace version and bus width
17 Shape        a space or a lower-case hexadecimal digit is missing at its position
18 Range        a field has a value that it cannot have, for example opcode 8
19 NoEnd        the last line does not end with a newline (LF)
20 Stalled      the two sides stopped moving beats; it is proved that no run does
21 Read         the trace could not be read
22 Write        standard output could not be written
23 TooLong      the trace has more than 67108864 bytes (64 MiB)
"#;

/// Returns the sentence that explains a fault, from its line of `FAULTS`.
pub fn meaning(fault: &TextFault) -> &'static str {
    let before = usize::from(fault.number()).wrapping_sub(1);
    match FAULTS.lines().nth(before) {
        Some(line) => line.get(SENTENCE..).unwrap_or(line),
        None => "",
    }
}
