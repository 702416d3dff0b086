//! Beats that their channel did not accept.
use tl_msg::{Beat, SourceId, Verdict};
use tl_remarks::{Cursor, accepted};
use tl_text::Describe;

/// A beat that its channel did not accept.
#[derive(Clone, Copy)]
pub struct Held {
    pub line: u64,
    pub letter: u8,
}

/// The beats for which other beats wait, if their own channel did not accept them.
#[derive(Clone, Copy)]
pub struct HeldPair {
    /// The request for which the waiting beat of D waits.
    pub request: Option<Held>,
    /// The response for which the waiting beat of A waits.
    pub response: Option<Held>,
}

/// Returns the source of the beat that waits on a channel, if one waits.
#[inline(never)]
pub fn waiting_source<K: Describe, const W: usize>(
    verdict: &Verdict,
    beats: &[Beat<K, W>],
) -> Option<SourceId> {
    match (verdict, beats.get(accepted(verdict))) {
        (Verdict::Waiting { .. }, Some(beat)) => Some(K::seen(beat.head).source),
        _ => None,
    }
}

/// Returns the line of the beat after the first `before` beats of the channel with this letter. The
/// letters are those of the lines from line 2 on.
pub fn line_of(letters: &[u8], letter: u8, before: usize) -> u64 {
    let mut cursor = Cursor::default();
    for _ in 0..=before {
        cursor.seek(letters, letter);
    }
    cursor.line()
}

/// Returns the first beat of this source that its channel did not accept, and that is a request on
/// A or a response on D. Returns `None` if no source is given.
#[inline(never)]
pub fn held_of<K: Describe, const W: usize>(
    letters: &[u8],
    verdict: &Verdict,
    beats: &[Beat<K, W>],
    source: Option<SourceId>,
) -> Option<Held> {
    let (letter, before) = (K::LETTER, accepted(verdict));
    let rest = beats.get(before..).unwrap_or(&[]);
    let offset = rest.iter().position(|beat| {
        let seen = K::seen(beat.head);
        (letter != b'D' || seen.answers_request()) && Some(seen.source) == source
    })?;
    let line = line_of(letters, letter, before.saturating_add(offset));
    Some(Held { line, letter })
}
