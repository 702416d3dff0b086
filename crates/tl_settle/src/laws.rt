//! Laws of the definitions, for the proofs of the crates above. Each function does nothing; its
//! contract is the law.
ghost use Rattle.std.specs.Prelude.{◌≡◌, ◌<◌, ◌↔◌, ◌^◌, ◌++◌, ◌∷◌, [], ℕ, None, List, All};
ghost use mathlib.Core.List.{IsPrefix};
ghost use Rattle.tl_lanes.specs.Lanes.{IsWidth};
ghost use Rattle.tl_msg.specs.declared.head.HeadA.{HeadA};
ghost use Rattle.tl_msg.specs.declared.head.HeadD.{HeadD};
ghost use Rattle.tl_msg.specs.declared.beat.BeatOf.{BeatOf};
ghost use Rattle.tl_msg.specs.Beats.{IsBeat};
ghost use Rattle.tl_msg.specs.Tables.{rules_a, rules_d};
ghost use Rattle.tl_burst.specs.Handing.{IsHanded, IsHandedWith, IsAdmitted, homes_with, fault_after};
ghost use Rattle.tl_convert.specs.Accepted.{AcceptedIsLongest};
ghost use Rattle.tl_convert.specs.Due.{due};
ghost use Rattle.tl_convert.specs.Laws.{DueIsOne, DueIsHanded, DueHasNoFaults};
ghost use Rattle.tl_settle.specs.Steps.{Reaches};
ghost use Rattle.tl_settle.specs.Settling.{IsSettledState, settled_state, goes_a, goes_d};
ghost use Rattle.tl_settle.specs.Laws.{IsAtAdmitted, OpenIsLast};
ghost use Rattle.tl_settle.specs.InMessages.{AreBeats, EndsInMessages};
ghost use Rattle.tl_settle.specs.Outcomes.{Beats};
ghost use Rattle.tl_settle.specs.Histories.{Event, asked, answered};
ghost use Rattle.tl_settle.specs.Rounds.{Run, IsOver, IsSettledRun};
ghost use Rattle.tl_settle.specs.Obeying.{LinksObey, ObeysRules, RequestsObey, ResponsesObey};
ghost use Rattle.tl_settle.specs.OneOrder.{InOneOrder, Timed, events, ClocksAgree};
ghost use Rattle.tl_settle.specs.Clocks.{TimeGoesOn, TimesShowAnOrder, client_way, manager_way};
ghost use Rattle.tl_settle.specs.Channels.{ArePrefixes, NoChannelBlocksAnother, OnlyLengthens};

use tl_burst::laws::{faults_are_exact, homes_are_kept};
use tl_convert::laws::{accepted_is_longest, due_has_no_faults, due_is_handed, due_is_one};
use tl_msg::{ChA, ChB, ChC, ChD, ChE, Channel};

/// Lemma: for every script there is exactly one settled state, and no order of steps goes beyond
/// it.
pub fn one_settled_state()
    ensures { (c m : ℕ) → IsWidth c → IsWidth m →
        (a : List (BeatOf HeadA c)) (d : List (BeatOf HeadD m)) →
        IsSettledState a d (settled_state a d) }
{}

/// Lemma: whatever the two sides do concurrently within rounds, a run that is over is at the
/// settled state. The result of each side for the next beat of its list is the one in the verdict,
/// and the home of each response is the address of its request.
pub fn every_run()
    ensures { (c m : ℕ) → IsWidth c → IsWidth m →
        (a : List (BeatOf HeadA c)) (d : List (BeatOf HeadD m)) →
        (i j : ℕ) (client : List (Event c)) (manager : List (Event m)) →
        IsOver a d i j client manager → IsSettledRun a d i j client manager }
{}

/// Lemma: legal in, legal out. In every run each link obeys the rules that an offer is held to,
/// whatever the two sides do concurrently within rounds. A beat that comes out of the bridge has no
/// fault and breaks no burst at its width. When a request comes out, its source is free. When a
/// response comes out, its request is outstanding and has its size.
pub fn every_run_obeys<const C: usize, const M: usize>()
    requires client { IsWidth C }
    requires manager { IsWidth M }
    ensures { (a : List (BeatOf HeadA C)) (d : List (BeatOf HeadD M)) →
        All (λ b. IsBeat rules_a b) a → All (λ b. IsBeat rules_d b) d →
        (i j : ℕ) (client : List (Event C)) (manager : List (Event M)) →
        Run a d i j client manager → ObeysRules client × ObeysRules manager }
{
    one_channel::<ChA, C, M>();
    one_channel::<ChD, M, C>();
}

/// Lemma: legal in, legal out, for a whole script of beats that memory can hold. One run of both
/// sides ends at the settled state, and in its order the beats that come out on each link, together
/// with those that the link's own side sends, obey the rules there. So a second bridge after this
/// one, of widths `M` and any other, is offered only beats that its rules allow.
pub fn links_obey<const C: usize, const M: usize>()
    requires client { IsWidth C }
    requires manager { IsWidth M }
    ensures { (near : Beats C M) → AreBeats near → LinksObey near }
{
    one_channel::<ChA, C, M>();
    one_channel::<ChB, M, C>();
    one_channel::<ChC, C, M>();
    one_channel::<ChD, M, C>();
    one_channel::<ChE, C, M>();
    due_has_no_faults::<ChB, M, C>();
    due_has_no_faults::<ChC, C, M>();
    due_has_no_faults::<ChE, C, M>();
}

/// Lemma: legal in, legal out, in any one order. If the events of both sides are in one order, in
/// which each beat is taken only after the beats that made it due were accepted, then both links
/// obey the rules, whatever the order is. The other premises are those of a meeting: each side's
/// offers were allowed by its own history, and the beats taken are the first of those that are due.
pub fn one_order_obeys()
    ensures { (c m : ℕ) → IsWidth c → IsWidth m →
        (client : List (Event c)) (manager : List (Event m)) → InOneOrder client manager →
        RequestsObey client → ResponsesObey manager → (a_homes d_homes : List ℕ) →
        IsHandedWith rules_a (asked client) a_homes → IsHandedWith rules_d (answered manager) d_homes →
        IsPrefix (asked manager) (due rules_a c m (asked client) a_homes) →
        IsPrefix (answered client) (due rules_d m c (answered manager) d_homes) →
        ObeysRules client × ObeysRules manager }
{}

/// Lemma: every run in rounds is in one order.
pub fn every_run_is_in_order()
    ensures { (c m : ℕ) → IsWidth c → IsWidth m →
        (a : List (BeatOf HeadA c)) (d : List (BeatOf HeadD m)) →
        (i j : ℕ) (client : List (Event c)) (manager : List (Event m)) →
        Run a d i j client manager → InOneOrder client manager }
{}

/// Lemma: clocks show one order. If each event has a time, and each beat was taken at a time after
/// those of the other side's events that made it due and of all before these, then the events of
/// both sides are in one order.
pub fn clocks_show_an_order()
    ensures { (c m : ℕ) (client : List (Timed c)) (manager : List (Timed m)) →
        ClocksAgree client manager → InOneOrder (events client) (events manager) }
{}

/// Lemma: the clocks of two sides. Each call of a side keeps its clock, and at a meeting both clocks
/// show that the histories are in one order, whatever each side took since the last meeting.
pub fn times_show_an_order()
    ensures client { (c m : ℕ) → TimeGoesOn (client_way {C = c} {M = m}) }
    ensures manager { (c m : ℕ) → TimeGoesOn (manager_way {C = c} {M = m}) }
    ensures order { (c m : ℕ) → TimesShowAnOrder c m }
{}

/// Lemma: no channel blocks another. The far beats and the verdict of B depend only on the near
/// beats of B. The same holds of C and of E. Those of A and D depend only on the near beats of A
/// and D.
pub fn no_channel_blocks_another()
    ensures { (c m : ℕ) → (one other : Beats c m) → NoChannelBlocksAnother one other }
{}

/// Lemma: a longer script only lengthens the result. If each list of a script is a prefix of that
/// of another script, then each near beat that the first one accepts is accepted in the other one,
/// and its far beats are a prefix of the other's, on each channel.
pub fn a_longer_script_only_lengthens()
    ensures { (c m : ℕ) → IsWidth c → IsWidth m → (script longer : Beats c m) →
        ArePrefixes script longer → OnlyLengthens script longer }
{}

/// Lemma: in every state that steps reach, the beats accepted on A and on D are handed. The next
/// beat of each list has no fault if and only if it is admitted, and it is the first of a message
/// if and only if no burst is unfinished.
pub fn steps_are_admitted<const C: usize, const M: usize>()
    requires client { IsWidth C }
    requires manager { IsWidth M }
    ensures { (a : List (BeatOf HeadA C)) (d : List (BeatOf HeadD M)) →
        All (λ b. IsBeat rules_a b) a → All (λ b. IsBeat rules_d b) d →
        (i j : ℕ) → Reaches (goes_a a d) (goes_d a d) i j → IsAtAdmitted a d i j }
{
    faults_are_exact::<ChA, C>();
    faults_are_exact::<ChD, M>();
}

/// Lemma: among messages that have begun, the outstanding request of a source is its last message,
/// if that is a request. A source is busy if and only if no response to it other than ReleaseAck
/// has begun since one of its requests (TileLink: source and size of responses; the moments: this
/// project's choice).
pub fn open_request_is_last()
    ensures { OpenIsLast }
{}

/// Lemma: the final state of a script of beats that memory can hold, in whole messages. On each
/// channel, the accepted beats are whole messages, one after the other, and then perhaps the first
/// beats of one more. The far beats are the layout of these messages, as far as the beats of the
/// last one go, and no burst of it is interrupted. The verdict is `Done` or `Cut` if all beats are
/// accepted, and otherwise says what happens to the next one. The beats that come out on each link
/// obey the rules there (TileLink: burst rules, byte lanes, source and size of responses; the
/// moments and the verdicts: this project's choice).
pub fn ends_in_messages<const C: usize, const M: usize>()
    requires client { IsWidth C }
    requires manager { IsWidth M }
    ensures { (near : Beats C M) → AreBeats near → EndsInMessages near }
{
    links_obey::<C, M>();
    one_channel::<ChA, C, M>();
    one_channel::<ChB, M, C>();
    one_channel::<ChC, C, M>();
    one_channel::<ChD, M, C>();
    one_channel::<ChE, C, M>();
}

// Lemma: the laws of the layers below for one channel by itself.
fn one_channel<K: Channel, const W: usize, const V: usize>()
    requires near { IsWidth W }
    requires far { IsWidth V }
    ensures exact { (bs : List (BeatOf K.Head W)) (b : BeatOf K.Head W) →
        IsHanded K.rules bs → IsBeat K.rules b →
        (fault_after K.rules bs b ≡ None) ↔ IsAdmitted K.rules bs b }
    ensures kept { (bs : List (BeatOf K.Head W)) (homes : List ℕ) (b : BeatOf K.Head W) (home : ℕ) →
        IsHandedWith K.rules bs homes → IsBeat K.rules b → fault_after K.rules bs b ≡ None →
        K.rules.lane_address b.head home < 2 ^ 64 →
        IsHandedWith K.rules (bs ++ b ∷ []) (homes_with K.rules bs homes b home) }
    ensures one { DueIsOne K.rules W V }
    ensures far_side { DueIsHanded K.rules W V }
    ensures longest { AcceptedIsLongest K.rules W }
{
    faults_are_exact::<K, W>();
    homes_are_kept::<K, W>();
    due_is_one::<K, W, V>();
    due_is_handed::<K, W, V>();
    accepted_is_longest::<K, W>();
}
