//! The simulation times of a trace's beats: a line for each beat, in the order of the trace.
use crate::record::Span;
use std::alloc::{AllocError, Global};
use tl_trace::line_end;

/// The times of a trace's beats, and the position of the current one.
#[derive(Drop)]
pub struct Times {
    text: Vec<u8>,
    now: Span,
}

impl Times {
    /// Returns the times in a text that `tl_times::check_times` accepts, at the position before the first
    /// beat. An empty text has no times. Errors: `AllocError` if the allocator fails.
    pub fn new(alloc: Global, text: &[u8]) -> Result<Times, AllocError> {
        let mut times = Times {
            text: Vec::new(alloc),
            now: Span::default(),
        };
        times.text.extend_from_slice(text)?;
        Ok(times)
    }

    /// Advances to the next beat. Returns the position of its time, which is empty if it is not
    /// known.
    pub fn advance(&mut self) -> Span {
        let at = self.now.to.saturating_add((self.now.to > 0) as usize);
        let from = at.min(self.text.len());
        self.now = Span {
            from,
            to: line_end(&self.text, from),
        };
        self.now
    }

    /// Returns the time at this position.
    pub fn at(&self, time: Span) -> &[u8] {
        self.text.get(time.from..time.to).unwrap_or(&[])
    }
}
