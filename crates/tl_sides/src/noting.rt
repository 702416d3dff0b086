//! Records the beats that a side takes in its book.
ghost use Rattle.std.specs.Prelude.{◌≡◌, ◌∷◌, ◌++◌, [], List, All, None};
ghost use Rattle.tl_lanes.specs.Lanes.{IsWidth};
ghost use Rattle.tl_msg.specs.Tables.{rules_a, rules_d};
ghost use Rattle.tl_settle.specs.Histories.{Ask, Answer};
ghost use Rattle.tl_settle.specs.Books.{KnowsClient, KnowsManager};
ghost use Rattle.tl_sides.specs.Inner.NotingAll.{HasNoted, noted_none, noted_then};

use std::alloc::Allocator;
use tl_msg::{BeatOf, HeadA, HeadD};
use tl_settle::{ClientBook, ManagerBook};

/// A book that records the beats `B` that a side takes, one after another.
pub(crate) trait Notes<B> {
    // whether it may record a beat
    ghost CanNote: { B → Type 0 };

    // `new` is `old` after these beats were recorded
    ghost Becomes: { (old : Self) → (beats : List B) → (new : Self) → Type 0 };

    /// Records a beat.
    fn note(&mut self, beat: &B)
        requires { CanNote beat.now }
        ensures { Becomes self.old (beat.now ∷ []) self.new };

    ghost notes_none: { (s : Self) → Becomes s [] s };

    ghost notes_then: { (s t u : Self) (i j : List B) → Becomes s i t → Becomes t j u →
        Becomes s (i ++ j) u };
}

// The manager's side records the requests that it takes on A.
impl<const M: usize, A: Allocator> Notes<BeatOf<HeadA, M>> for ManagerBook<M, A> {
    ghost CanNote = { λ b. IsWidth M × (rules_a.fault b.head ≡ None) };

    ghost Becomes = { HasNoted KnowsManager Ask };

    fn note(&mut self, beat: &BeatOf<HeadA, M>) {
        self.record_request(&beat.head);
    }

    ghost notes_none = { noted_none KnowsManager Ask };

    ghost notes_then = { noted_then KnowsManager Ask };
}

// The client's side records the responses that it takes on D.
impl<const C: usize, A: Allocator> Notes<BeatOf<HeadD, C>> for ClientBook<C, A> {
    ghost CanNote = { λ b. IsWidth C × (rules_d.fault b.head ≡ None) };

    ghost Becomes = { HasNoted KnowsClient Answer };

    fn note(&mut self, beat: &BeatOf<HeadD, C>) {
        self.record_response(&beat.head);
    }

    ghost notes_none = { noted_none KnowsClient Answer };

    ghost notes_then = { noted_then KnowsClient Answer };
}

// Records the beats that a side takes in its book.
pub(crate) fn note_all<B, N: Notes<B>>(book: &mut N, beats: &[B])
    requires can { All (λ beat. N.CanNote beat) beats.now }
    ensures { N.Becomes book.old beats.now book.new }
{
    for beat in beats {
        book.note(beat);
    }
}
