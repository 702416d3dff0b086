//! The lines of a text that have the beats of a channel.

/// A position in the lines of one channel.
#[derive(Clone, Copy, Default)]
pub struct Cursor {
    /// The number of lines from line 2 up to the line of the last beat.
    lines: usize,
}

impl Cursor {
    /// Advances to the next line with this letter. The letters are those of the lines from line 2
    /// on.
    pub fn seek(&mut self, letters: &[u8], letter: u8) {
        let rest = letters.get(self.lines..).unwrap_or(&[]);
        let before = rest.iter().position(|other| *other == letter);
        self.lines = self
            .lines
            .saturating_add(before.map_or(0, |before| before + 1));
    }

    /// Returns the number of the current line.
    pub fn line(&self) -> u64 {
        (self.lines as u64).saturating_add(1)
    }
}
