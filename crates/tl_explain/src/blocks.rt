//! Output of the sentences in blocks, while lines are processed.
ghost use Rattle.std.specs.Prelude.{◌≡◌, false, OnOk, IfErr};
ghost use Rattle.tl_stream.specs.declared.fault.TextFault.TheVariants.{Write as WriteFault};
ghost use Rattle.tl_explain.specs.Inner.Explanation.{Continues};

use crate::story::Story;
use std::io::Write;
use tl_answer::{TextFault, write_all};
use tl_text::TextBuf;

/// The number of bytes that are collected before they are written.
const BLOCK: usize = 65_536;

/// The capacity for a block and for the text on one more line.
pub const BLOCK_CAPACITY: usize = 2 * BLOCK;

/// Writes the text of a buffer, and empties the buffer.
#[inline(never)]
fn write_page<W: Write>(page: &mut TextBuf, writer: &mut W) -> Result<(), TextFault>
    ensures out { OnOk result
        (Continues false (W.contents writer.old) (W.contents writer.new)) }
    ensures kind { IfErr result (λ fault. fault ≡ WriteFault) }
{
    let written = write_all(writer, &page.text);
    page.text.clear();
    written
}

impl Story {
    /// Returns whether there is a block of sentences, none of which can still be removed.
    fn has_block(&self) -> bool {
        self.page.text.len() >= BLOCK && !self.entry.is_held()
    }

    /// Writes the text so far, if it fills a block; for a page, writes nothing. Errors: `Write`.
    #[inline(always)]
    pub fn write_block<W: Write>(&mut self, is_page: bool, writer: &mut W) -> Result<(), TextFault>
        ensures out { OnOk result
            (Continues is_page (W.contents writer.old) (W.contents writer.new)) }
        ensures kind { IfErr result (λ fault. (fault ≡ WriteFault) × (is_page ≡ false)) }
    {
        if is_page || !self.has_block() {
            return Ok(());
        }
        write_page(&mut self.page, writer)
    }

    /// Writes the text that was not written yet; for a page, writes nothing. Errors: `Write`.
    pub fn write_rest<W: Write>(&mut self, is_page: bool, writer: &mut W) -> Result<(), TextFault>
        ensures out { OnOk result
            (Continues is_page (W.contents writer.old) (W.contents writer.new)) }
        ensures kind { IfErr result (λ fault. (fault ≡ WriteFault) × (is_page ≡ false)) }
    {
        if is_page {
            return Ok(());
        }
        if self.page.out_of_memory {
            return Err(TextFault::Write);
        }
        write_page(&mut self.page, writer)
    }
}
