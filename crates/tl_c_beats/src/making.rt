//! Making and freeing the block of an answer.
ghost use Rattle.std.specs.Prelude.{◌≡◌, None, IfOk, IfErr};
ghost use Rattle.tl_c_beats.specs.declared.answers.TheConstants.{OUT_OF_MEMORY};
ghost use Rattle.tl_c_beats.specs.Blocks.{IsBlockOf, IsNoBlock};

use crate::answer_block::{AnswerBlock, OwnedText};
use crate::parts::{Live, Parts, boxed};
use crate::text_held::TextHeld;
use std::alloc::Global;
use std::mem::replace;
use std::ptr::null;

impl AnswerBlock {
    /// Creates the block of an answer, which holds its text. Errors: `OUT_OF_MEMORY` if the
    /// allocator fails.
    pub fn of(alloc: Global, text: Vec<u8>, all_done: bool) -> Result<AnswerBlock, u8>
        ensures block { IfOk result (IsBlockOf (record { text = text }) all_done) }
        ensures refused { IfErr result (λ number. number ≡ OUT_OF_MEMORY) }
    {
        let (at, length) = (text.as_ptr(), text.len());
        match boxed(alloc, TextHeld { text }) {
            Ok(held) => Ok(AnswerBlock {
                text: at,
                length,
                line: 0,
                owned: OwnedText::of_parts(Parts::of(held)),
                live: Live::set(),
                all_done: u8::from(all_done),
            }),
            Err(fault) => Err(fault),
        }
    }

    /// Returns a block without an answer, with the line of the fault, if there is one.
    pub fn none(alloc: Global, line: Option<u64>) -> AnswerBlock
        ensures { IsNoBlock line result }
    {
        AnswerBlock {
            text: null(),
            length: 0,
            line: line.unwrap_or(0),
            owned: OwnedText::nothing(alloc),
            live: Live::unset(),
            all_done: 0,
        }
    }

    /// Frees the answer's text, if there is one. The block then has no answer.
    pub fn free(&mut self, alloc: Global)
        ensures { IsNoBlock None self.new }
    {
        let AnswerBlock { owned, live, .. } = replace(self, AnswerBlock::none(alloc, None));
        if live.is {
            drop(owned.into_parts().into_box());
        }
    }

    /// Frees the answer's text, if there is one, and stores the line of a fault. Returns `number`,
    /// the number of the fault.
    pub fn refuse(&mut self, alloc: Global, number: u8, line: Option<u64>) -> u8
        ensures block { IsNoBlock line self.new }
        ensures number { result ≡ number }
    {
        self.free(alloc);
        self.line = line.unwrap_or(0);
        number
    }
}
