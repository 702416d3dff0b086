//! Laws of both sides, for the proofs of the crates above. Each function does nothing; its contract
//! is the law.
ghost use Rattle.tl_lanes.specs.Lanes.{IsWidth};
ghost use Rattle.tl_sides.specs.Arriving.{EveryBeatArrives};
ghost use Rattle.tl_sides.specs.ArrivingSides.{AllBeatsCome};
ghost use Rattle.tl_sides.specs.Bridges.{Bridge, Past, StandsFor};
ghost use Rattle.tl_sides.specs.Legal.{BothLinksObey, SidesObey};
ghost use Rattle.tl_sides.specs.Receipts.{AsManyAreAll};
ghost use Rattle.tl_sides.specs.Separate.{NoChannelBlocks};
ghost use Rattle.tl_sides.specs.Sides.{ClientState, ManagerState, ClientPast, ManagerPast, SidesMeet};

use std::alloc::Allocator;
use tl_convert::laws::due_has_no_faults;
use tl_msg::{ChA, ChB, ChC, ChD, ChE};
use tl_ring::laws::every_beat_arrives;

/// Lemma: legal in, legal out. After any calls, the beats that came out of a bridge obey, at the
/// far link's width, the rules that beats offered there are held to. No beat taken has a fault or
/// breaks a burst. A request was taken only while its source was free on that link, and a response
/// only while its request was outstanding there, with its size.
pub fn legal_in_legal_out<const C: usize, const M: usize>()
    requires client { IsWidth C }
    requires manager { IsWidth M }
    ensures { (bridge : Bridge C M) (x : Past C M) → StandsFor bridge x → BothLinksObey x }
{
    due_has_no_faults::<ChB, M, C>();
    due_has_no_faults::<ChC, C, M>();
    due_has_no_faults::<ChE, C, M>();
}

/// Lemma: the same for two sides in threads of their own. At every meeting both links have obeyed
/// the rules, whatever each side did since the last one. They still obey them after later calls of
/// each side, if these took no more of A and D than had arrived by the meeting.
pub fn sides_obey<const C: usize, const M: usize, A: Allocator>()
    requires client { IsWidth C }
    requires manager { IsWidth M }
    ensures { SidesObey A C M }
{
    due_has_no_faults::<ChB, M, C>();
    due_has_no_faults::<ChC, C, M>();
    due_has_no_faults::<ChE, C, M>();
}

/// Lemma: no channel blocks another. Whether a beat of a channel may be offered, and the effect of
/// a pump and of a fetch on the channel, depend only on its own stage, ring and inbox. So a request
/// never holds back a response. (A beat of A or D is refused if its source is busy, or its request
/// was not yet taken. That is a rule of the link, and holds back no beat that was accepted.)
pub fn no_channel_blocks_another<const C: usize, const M: usize, A: Allocator>()
    ensures { NoChannelBlocks A C M }
{}

/// Lemma: every accepted beat arrives, in one thread. From every state of a bridge, a round is one
/// pump, one fetch and a take of everything in the inboxes. After as many rounds as beats are under
/// way on any one channel, all of them were taken, in order, and these are all that the accepted
/// beats made due. Each channel needs exactly the rounds that its crossing alone needs.
pub fn all_beats_arrive<const C: usize, const M: usize>()
    ensures { EveryBeatArrives C M }
{
    every_beat_arrives::<ChA>();
    every_beat_arrives::<ChB>();
    every_beat_arrives::<ChC>();
    every_beat_arrives::<ChD>();
    every_beat_arrives::<ChE>();
}

/// Lemma: every accepted beat arrives at two sides that meet. From every state that a meeting
/// leaves, a round is a pump of both sides, a meeting, a fetch of both, a take of everything in the
/// inboxes, and a meeting. After as many rounds as beats are under way on any one channel, the beats
/// taken are all that the accepted ones made due, in order.
pub fn all_beats_of_sides_arrive<const C: usize, const M: usize, A: Allocator>()
    ensures { AllBeatsCome A C M }
{}

/// Equal counts mean that every sent beat was taken. If the two numbers of a channel are equal at a
/// meeting of both sides, the beats taken are the beats that the other side has sent, in order, and
/// none is in the ring or in the inbox.
pub fn as_many_are_all<const C: usize, const M: usize, A: Allocator>()
    ensures { (s : ClientState A C M) (t : ManagerState A C M) (x : ClientPast C M)
        (y : ManagerPast C M) → SidesMeet s t x y → AsManyAreAll A C M s t x y }
{}
