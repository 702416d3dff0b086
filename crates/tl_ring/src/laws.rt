//! The laws of the crossing. Each function does nothing; its contract is the law.
ghost use Rattle.tl_ring.specs.Arriving.{Arrives};
ghost use Rattle.tl_ring.specs.Laws.{EveryRunCrosses};
ghost use Rattle.tl_ring.specs.Soon.{HowSoon};

use tl_msg::Channel;

/// Lemma: no beat is lost, doubled, reordered or cut on its way from one end of a channel to the
/// other, for all lists of events, widths and ring sizes. After each list of events, the beats
/// taken, followed by those in the inbox, the ring and the stage, are the far layout of the
/// accepted beats. Once closed, no more beats are accepted. If a closed crossing has nothing under
/// way, the beats taken are the whole layout of whole messages.
pub fn every_run_crosses<K: Channel>()
    ensures { EveryRunCrosses K.rules }
{}

/// Lemma: how soon far beats can be taken, counted in calls. If nothing is under way, one offer of
/// the near beat that makes them due, one pump and one fetch bring them into the inbox, as many as
/// ring and inbox have room for. If the ring is emptied before each pump, staged beats leave in as
/// many pumps as the number of rings that they fill.
pub fn how_soon<K: Channel>()
    ensures { HowSoon K.rules }
{}

/// Lemma: every accepted beat arrives. From every state of a crossing, also one with beats in
/// stage, ring and inbox, a cycle is one pump, one fetch and a take of everything in the inbox.
/// After as many cycles as beats are under way, all of them were taken, in order, and nothing is
/// under way. The exact number of cycles, and the exact beats taken by each, follow from the room
/// in ring and inbox.
pub fn every_beat_arrives<K: Channel>()
    ensures { Arrives K.rules }
{}
