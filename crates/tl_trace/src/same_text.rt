//! Compares two parts of a text, eight bytes at a time.
ghost use Rattle.std.specs.Prelude.{◌≡◌, ◌≤◌, ◌+◌, true, length};
ghost use Rattle.std.specs.Int.{w64, to_le_bytes};
ghost use Rattle.std.specs.List.{slice_range};
ghost use Rattle.tl_trace.specs.Inner.KnownHeads.{IsSameAt};
ghost use Rattle.tl_trace.specs.declared.same_text.TheConstants.{WORD};

/// The number of bytes of a word.
const WORD: usize = 8;

/// Returns the word at `at`.
#[inline(always)]
fn word(text: &[u8], at: usize) -> u64
    requires { at + WORD ≤ length text.now }
    ensures { to_le_bytes w64 result ≡ slice_range text.now at (at + WORD) }
{
    u64::from_le_bytes([
        text[at],
        text[at + 1],
        text[at + 2],
        text[at + 3],
        text[at + 4],
        text[at + 5],
        text[at + 6],
        text[at + 7],
    ])
}

/// Returns true only if the text has `len` bytes from `at` on, and they are the same as those from
/// `before` on.
#[inline(always)]
pub fn repeats_at(text: &[u8], at: usize, before: usize, len: usize) -> bool
    requires { (at ≤ length text.now) × (before + len ≤ length text.now) }
    ensures { result ≡ true → IsSameAt text.now at before len }
{
    if len > text.len() - at {
        return false;
    }
    let one = &text[at..at + len];
    let other = &text[before..before + len];
    if len < WORD {
        return one == other;
    }
    for i in 0..len / WORD {
        if word(one, WORD * i) != word(other, WORD * i) {
            return false;
        }
    }
    // the last word may overlap the one before it
    word(one, len - WORD) == word(other, len - WORD)
}
