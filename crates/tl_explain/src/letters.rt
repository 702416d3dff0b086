//! The lines of a trace by their letters.
ghost use Rattle.tl_lanes.specs.Lanes.{IsWidth};

use crate::walk::{LETTERS, place};
use arrayvec::ArrayVec;
use std::alloc::{AllocError, Global};
use tl_answer::at_width;
use tl_msg::{ChA, ChB, ChC, ChD, ChE};
use tl_trace::{Header, LONGEST_LINE, line_end, line_of};

/// Returns the line with this letter of a beat of zeros, on `W` lanes, in a trace of this version,
/// with its LF. Empty if no channel has the letter.
fn form_on<const W: usize>(letter: u8, version: u8) -> ArrayVec<u8, LONGEST_LINE>
    requires { IsWidth W }
{
    match letter {
        b'A' => line_of::<ChA, W>(&Default::default(), version),
        b'B' => line_of::<ChB, W>(&Default::default(), version),
        b'C' => line_of::<ChC, W>(&Default::default(), version),
        b'D' => line_of::<ChD, W>(&Default::default(), version),
        b'E' => line_of::<ChE, W>(&Default::default(), version),
        _ => ArrayVec::new(),
    }
}

/// Returns the form of the lines with this letter in a trace with this header.
pub fn form_of(letter: u8, header: &Header) -> ArrayVec<u8, LONGEST_LINE> {
    let width = match letter {
        b'B' | b'D' => header.manager,
        _ => header.client,
    };
    at_width!(width, form_on::<_>(letter, header.version))
}

/// Returns the first letters of the lines of a trace with this header, from line 2 on. Errors:
/// `AllocError` if the allocator fails.
pub fn letters_of(alloc: Global, text: &[u8], header: &Header) -> Result<Vec<u8>, AllocError> {
    let lengths = LETTERS.map(|letter| form_of(letter, header).len().max(1));
    let mut letters = Vec::new(alloc);
    let mut at = line_end(text, 0).saturating_add(1);
    for _ in 0..text.len() {
        let Some(letter) = text.get(at) else {
            break;
        };
        letters.push(*letter)?;
        at = at.saturating_add(lengths[place(*letter)]);
    }
    Ok(letters)
}
