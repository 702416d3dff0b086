//! Laws of the far beats that are due. Each is the contract of a function that does nothing.

ghost use Rattle.tl_lanes.specs.Lanes.{IsWidth};
ghost use Rattle.tl_convert.specs.Accepted.{AcceptedIsLongest};
ghost use Rattle.tl_convert.specs.CutThrough.{CutThrough};
ghost use Rattle.tl_convert.specs.Series.{InSeries};
ghost use Rattle.tl_convert.specs.Laws.{DueIsOne, DueGrows, DueIsHanded, DueIsLawful, DueHasNoFaults, LayoutSpells};

use tl_msg::Channel;

/// Lemma: near beats with their homes can be read in one way only, as these messages and this rest
/// of one more message. The far beats that are due do not depend on which message the rest begins.
/// They are the list that `due` computes.
pub fn due_is_one<K: Channel, const W: usize, const V: usize>()
    requires near { IsWidth W }
    requires far { IsWidth V }
    ensures { DueIsOne K.rules W V }
{}

/// Lemma: more near beats only add far beats at the end of those that are due.
pub fn due_grows<K: Channel, const W: usize, const V: usize>()
    requires near { IsWidth W }
    requires far { IsWidth V }
    ensures { DueGrows K.rules W V }
{}

/// Lemma, cut-through: a far beat is due as soon as the near beat with its last byte is accepted,
/// and not before. It does not wait for the rest of its message, or for anything else.
pub fn cut_through<K: Channel, const W: usize, const V: usize>()
    requires near { IsWidth W }
    requires far { IsWidth V }
    ensures { CutThrough K.rules W V }
{}

/// Lemma: the far layout of a message carries this message, even if the message is not lawful,
/// provided that in each far beat all bytes are corrupt or none is.
pub fn layout_spells<K: Channel, const V: usize>()
    requires far { IsWidth V }
    ensures { LayoutSpells K.rules V }
{}

/// Lemma: no burst is interrupted on the far side. The far beats that are due are handed, by the
/// same messages as on the near side, with corrupt gathered over each far beat, and with the homes
/// of the messages that have begun.
pub fn due_is_handed<K: Channel, const W: usize, const V: usize>()
    requires near { IsWidth W }
    requires far { IsWidth V }
    ensures { DueIsHanded K.rules W V }
{}

/// Lemma: each far beat that is due is lawful by itself. A new tracker of the far width does not
/// refuse it.
pub fn due_is_lawful<K: Channel, const W: usize, const V: usize>()
    requires near { IsWidth W }
    requires far { IsWidth V }
    ensures { DueIsLawful K.rules W V }
{}

/// Lemma: no far beat that is due has a fault after those before it, so the far link refuses none
/// of them.
pub fn due_has_no_faults<K: Channel, const W: usize, const V: usize>()
    requires near { IsWidth W }
    requires far { IsWidth V }
    ensures { DueHasNoFaults K.rules W V }
{}

/// Lemma, bridges in series: a bridge from V to U that is fed the far beats of a bridge from W to V
/// gives what one bridge from W to U gives. If the middle bus is wider than both others, it gathers
/// corrupt, and rounds the part of the last message down to whole middle beats.
pub fn in_series<K: Channel, const W: usize, const V: usize, const U: usize>()
    requires near { IsWidth W }
    requires middle { IsWidth V }
    requires far { IsWidth U }
    ensures { InSeries K.rules W V U }
{}

/// Lemma: the beats before the first one that has a fault after those before it are the longest
/// first part of the list that is handed.
pub fn accepted_is_longest<K: Channel, const W: usize>()
    requires near { IsWidth W }
    ensures { AcceptedIsLongest K.rules W }
{}
