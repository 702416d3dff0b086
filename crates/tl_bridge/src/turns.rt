//! The part of a side, of either kind, in a round of a run in two threads.
ghost use Rattle.std.specs.Prelude.{◌+◌, ℕ};
ghost use Rattle.tl_parts.specs.Parts.{HasShortLists, near_beats};
ghost use Rattle.tl_offer.specs.Widths.{AreWidths};
ghost use Rattle.tl_run.specs.Inner.Running.{HaveRoomToCount};
ghost use Rattle.tl_bridge.specs.Inner.Sides.{HasPlayedTurns, HasTaken, HasTurned, MayPlay, Playing};

use crate::gates::Gate;
use tl_run::Turn;
use tl_sides::PerChannel;
use tl_trace::Script;

/// A side of a run in its own thread, with the far beats that it has taken, in lists that never
/// grow.
pub(crate) trait PlaysRounds<const C: usize, const M: usize> {
    // the description that the contracts use
    ghost playing: { Playing Self C M };

    /// Takes all beats of its inboxes.
    fn take_each(&mut self)
        requires { AreWidths C M × playing.HasRoom self.old }
        ensures { HasTaken playing self.old self.new };

    /// Makes a turn: offers the next beat of each of its channels, of which `at` were accepted,
    /// pumps and fetches. Returns the result.
    fn turn(&mut self, script: &Script<C, M>, at: &PerChannel<usize>) -> Turn
        requires { AreWidths C M × HasShortLists script.now × HaveRoomToCount at.now }
        ensures { HasTurned playing (near_beats script.now) at.now self.old self.new result };
}

// Runs a side's part of a round, before which `at` beats of each channel were accepted. Returns the
// result of its turns. A turn in which nothing moves is its last: later ones would do the same,
// until the other side moves.
#[inline(never)]
pub(crate) fn play<S: PlaysRounds<C, M>, G: Gate, const C: usize, const M: usize>(
    side: &mut S,
    script: &Script<C, M>,
    at: &PerChannel<usize>,
    turns: usize,
    gate: &mut G,
) -> Turn
    requires { AreWidths C M × HasShortLists script.now ×
        MayPlay S.playing (near_beats script.now) at.now side.old }
    ensures played { HasPlayedTurns S.playing (near_beats script.now) at.now side.old side.new result }
    ensures passed { (n : ℕ) → G.HasPassed n gate.old → G.HasPassed (n + 1) gate.new }
{
    gate.pass();
    side.take_each();
    let mut played = side.turn(script, at);
    if !played.moved {
        return played;
    }
    'turns: for _ in 1..turns {
        let last = side.turn(script, &played.at);
        played = played.then(&last);
        if !last.moved {
            return played;
        }
    }
    played
}
