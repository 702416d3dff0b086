//! The text that the block of an answer holds.
use std::alloc::Global;

/// The text of an answer behind a block.
pub struct TextHeld {
    pub text: Vec<u8, Global>,
}

// Written by hand, because a derived one would require the text's size for every allocator.
impl Drop for TextHeld {
    fn drop(self) {
        let TextHeld { text: _text } = self;
    }
}
