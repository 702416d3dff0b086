ghost use Rattle.std.specs.Prelude.{◌≡◌, ◌==◌, ◌++◌, ◌∷◌, [], List, None};
ghost use Rattle.tl_lanes.specs.Lanes.{IsWidth};
ghost use Rattle.tl_msg.specs.declared.beat.BeatOf.{BeatOf};
ghost use Rattle.tl_burst.specs.Begun.{left};

use std::marker::{Model, PhantomData};
use tl_lanes::beats;
use tl_msg::Channel;

/// A counter of the beats of one channel, `W` bytes wide, which finds where messages begin.
///
/// It is for the receiving end of a channel, whose beats are already checked: it reads heads and
/// tests nothing. In contracts its value is the number of beats that are still missing from the
/// last message, by the sizes in the heads. It represents a list of beats if that number is `left`
/// of the list. A new counter represents the empty list, and `pass` adds one beat to the list
/// (TileLink: burst rules).
#[derive(Drop)]
pub struct BurstCounter<K: Channel, const W: usize> {
    left: usize,
    channel: PhantomData<K>,
}

impl<K: Channel, const W: usize> Model for BurstCounter<K, W> {
    ghost use Rattle.std.specs.Prelude.{ℕ};

    ghost Value = { ℕ };

    ghost view = { λ c. c.left };
}

impl<K: Channel, const W: usize> BurstCounter<K, W> {
    /// Creates a counter that no beat has passed.
    pub fn new() -> Self
        ensures { result ≡ 0 }
    {
        BurstCounter {
            left: 0,
            channel: PhantomData,
        }
    }

    /// Returns whether the next beat is the first one of its message.
    pub fn first(&self) -> bool
        ensures { result ≡ (self.now == 0) }
    {
        self.left == 0
    }

    /// Counts a beat with this head. Requires: `W` is a width, and the head has no fault.
    pub fn pass(&mut self, head: &K::Head)
        requires width { IsWidth W }
        requires lawful { K.rules.fault head.now ≡ None }
        ensures { (bs : List (BeatOf K.Head W)) (b : BeatOf K.Head W) →
            self.old ≡ left K.rules W bs → b.head ≡ head.now →
            self.new ≡ left K.rules W (bs ++ b ∷ []) }
    {
        if self.left == 0 {
            self.left = beats(K::carries_data(head), K::size(head), W);
        }
        self.left -= 1;
    }
}
