//! The fields of a beat of any channel, for remarks and sentences.
ghost use Rattle.std.specs.Prelude.{◌≤◌};

use tl_lanes::{MAX_SIZE, Mask, beats, is_width};
use tl_msg::{
    Beat, ChA, ChB, ChC, ChD, ChE, HeadA, HeadB, HeadC, HeadD, HeadE, Kind, SinkId, SourceId,
};
use tl_trace::HeadText;

/// The fields of a beat, without its lanes. A field that its channel does not have is 0.
#[derive(Clone, Copy, Default)]
pub struct BeatFields {
    /// The version of its trace, which determines the number of digits of an id.
    pub version: u8,
    /// `A` to `E`.
    pub letter: u8,
    /// The message of the opcode, if the channel has one; `None` on E.
    pub kind: Option<Kind>,
    pub opcode: u8,
    pub param: u8,
    /// The message is of `2^size` bytes.
    pub size: u8,
    pub source: SourceId,
    pub address: u64,
    pub sink: SinkId,
    pub denied: bool,
    pub mask: Mask,
    pub corrupt: bool,
}

/// A channel whose beats can be described in sentences.
pub trait Describe: HeadText {
    /// Returns the fields of a head.
    fn seen(head: Self::Head) -> BeatFields;
}

// The fields of a beat with this letter and this message, and those of its head.
macro_rules! seen_with {
    ($letter:literal, $kind:expr, $head:ident: $($field:ident)*) => {
        BeatFields { letter: $letter, kind: $kind, $($field: $head.$field,)* ..BeatFields::default() }
    };
}

impl Describe for ChA {
    fn seen(head: HeadA) -> BeatFields {
        seen_with!(b'A', Kind::on_a(head.opcode), head: opcode param size source address)
    }
}

impl Describe for ChB {
    fn seen(head: HeadB) -> BeatFields {
        seen_with!(b'B', Kind::on_b(head.opcode), head: opcode param size source address)
    }
}

impl Describe for ChC {
    fn seen(head: HeadC) -> BeatFields {
        seen_with!(b'C', Kind::on_c(head.opcode), head: opcode param size source address)
    }
}

impl Describe for ChD {
    fn seen(head: HeadD) -> BeatFields {
        seen_with!(b'D', Kind::on_d(head.opcode), head: opcode param size source sink denied)
    }
}

impl Describe for ChE {
    fn seen(head: HeadE) -> BeatFields {
        seen_with!(b'E', None, head: sink)
    }
}

/// Returns the fields of a beat of a trace of this version.
pub fn beat_fields_of<K: Describe, const W: usize>(beat: &Beat<K, W>, version: u8) -> BeatFields {
    BeatFields {
        version,
        mask: beat.mask,
        corrupt: beat.corrupt,
        ..K::seen(beat.head)
    }
}

impl BeatFields {
    /// Returns whether its message carries data.
    pub fn carries_data(&self) -> bool {
        self.kind.is_some_and(Kind::carries_data)
    }

    /// Returns whether its channel has masks.
    pub fn is_masked(&self) -> bool {
        matches!(self.letter, b'A' | b'B')
    }

    /// Returns whether it is a response to a request of A: any message of D except ReleaseAck.
    pub fn answers_request(&self) -> bool {
        self.letter == b'D' && !matches!(self.kind, Some(Kind::ReleaseAck))
    }

    /// Returns the number of beats of its message on a bus of `w` bytes.
    pub fn beats(&self, w: usize) -> usize
        ensures { 1 ≤ result }
    {
        if self.size > MAX_SIZE || !is_width(w) {
            return 1;
        }
        beats(self.carries_data(), self.size, w).max(1)
    }
}
