//! The result of a trace as C receives it.
ghost use Rattle.std.specs.Prelude.{◌≡◌, ◌≢◌, ◌↔◌, true, Option, Some, None};
ghost use Rattle.tl_c_beats.specs.TextOwners.{holds_text, text_coded};
ghost use Rattle.tl_c_beats.specs.declared.text_held.TextHeld.{TextHeld};

use crate::parts::{Live, Parts};
use crate::text_held::TextHeld;
use std::alloc::Global;
use std::marker::Model;
use std::ptr::null_mut;

/// The ownership of a boxed text, or of nothing.
#[repr(C)]
#[derive(Drop)]
pub struct OwnedText {
    ptr: *mut (),
    alloc: Global,
    pub ghost held: { Option TextHeld } by { text_coded },
}

impl Model for OwnedText {
    ghost also_owns = { λ o. holds_text o.alloc o.ptr o.held };
}

impl OwnedText {
    pub(crate) fn nothing(alloc: Global) -> OwnedText
        ensures { result.held ≡ None }
    {
        OwnedText {
            ptr: null_mut(),
            alloc,
        }
    }

    pub(crate) fn of_parts(parts: Parts<TextHeld, Global>) -> OwnedText
        ensures { result.held ≡ Some parts.value }
    {
        let Parts { ptr, alloc } = parts;
        OwnedText {
            ptr: ptr as *mut (),
            alloc,
        }
    }

    pub(crate) fn into_parts(self) -> Parts<TextHeld, Global>
        requires { self.held ≢ None }
        ensures { self.held ≡ Some result.value }
    {
        let OwnedText { ptr, alloc } = self;
        Parts {
            ptr: ptr as *mut TextHeld,
            alloc,
        }
    }
}

/// The answer to a trace, with the ownership of its text, or the line of the fault for which there
/// is none. A block of zeros has no answer.
#[repr(C)]
#[derive(Drop)]
pub struct AnswerBlock {
    /// The pointer to the first byte; null if there is no answer.
    pub text: *const u8,
    /// The number of bytes; 0 if there is no answer.
    pub length: usize,
    /// The line of the trace that has the fault, counted from 1; 0 if no line has it.
    pub line: u64,
    pub owned: OwnedText,
    pub(crate) live: Live,
    /// 1 if all five channels are done, otherwise 0.
    pub all_done: u8,
    ghost tied: { (live.is ≡ true) ↔ (owned.held ≢ None) },
}

// C gets this size only from the header.
const _: () = prove!(size_of::<AnswerBlock>() == 40);
