//! A and D, which the books of both sides couple.
ghost use Rattle.std.specs.Prelude.{◌≡◌, ◌+◌, ◌-◌, ◌≤◌, ◌<◌, ℕ, None, Some, List, length, slice_get, take};
ghost use Rattle.std.specs.Option.{option_map_or};
ghost use Rattle.tl_lanes.specs.Lanes.{IsWidth};
ghost use Rattle.tl_msg.specs.Tables.{rules_a, rules_d};
ghost use Rattle.tl_msg.specs.declared.head.HeadA.{HeadA};
ghost use Rattle.tl_msg.specs.declared.head.HeadD.{HeadD};
ghost use Rattle.tl_msg.specs.declared.beat.BeatOf.{BeatOf};
ghost use Rattle.tl_settle.specs.Settling.{stops_a, stops_d};
ghost use Rattle.tl_burst.specs.Begun.{left};
ghost use Rattle.tl_settle.specs.Outcomes.{verdict_a, verdict_d, verdict_of};
ghost use Rattle.tl_check.specs.Inner.Passing.{AreAt, HasCome, IsWithin, NotesAsks, NotesAnswers};
ghost use Rattle.tl_parts.specs.Parts.{IsEnd, IsPart};
ghost use Rattle.tl_parts.specs.Stopping.{IsStuck};

use crate::progress::Progress;
use tl_msg::{Beat, ChA, ChD, HeadA, HeadD, SideFault};
use tl_settle::{ClientBook, ManagerBook};
use tl_trace::Counts;

// Records that the manager's side takes `count` beats of A with this head.
fn record_requests<const M: usize>(book: &mut ManagerBook<M>, head: &HeadA, count: usize)
    requires { IsWidth M × (rules_a.fault head.now ≡ None) }
    ensures { NotesAsks M head.now count book.old book.new }
{
    for _ in 0..count {
        book.record_request(head);
    }
}

// Records that the client's side takes `count` beats of D with this head.
fn record_responses<const C: usize>(book: &mut ClientBook<C>, head: &HeadD, count: usize)
    requires { IsWidth C × (rules_d.fault head.now ≡ None) }
    ensures { NotesAnswers C head.now count book.old book.new }
{
    for _ in 0..count {
        book.record_response(head);
    }
}

// Offers the beats of A from the client's side, up to the first one that is refused. `discarded`
// beats of its list were discarded, and `beats` are held. Returns the reason why the next beat is
// refused, or `None` if no beat is left.
fn offer_requests<const C: usize, const M: usize>(
    client: &mut ClientBook<C>,
    manager: &mut ManagerBook<M>,
    beats: &[Beat<ChA, C>],
    discarded: usize,
    asks: &mut Progress<ChA, C>,
) -> Option<SideFault>
    requires { IsWidth C × IsWidth M ×
        IsWithin discarded asks.old.at asks.old.far (length beats.now) }
    ensures within { IsWithin discarded asks.new.at asks.new.far (length beats.now) }
    ensures come { (a : List (BeatOf HeadA C)) → IsPart discarded beats.now a →
        HasCome rules_a M a asks.old.tracker asks.old.at asks.old.far →
        HasCome rules_a M a asks.new.tracker asks.new.at asks.new.far }
    ensures accepted { (a : List (BeatOf HeadA C)) (d : List (BeatOf HeadD M)) (j : ℕ) →
        IsPart discarded beats.now a →
        HasCome rules_a M a asks.old.tracker asks.old.at asks.old.far →
        AreAt a d asks.old.at j client.old manager.old →
        AreAt a d asks.new.at j client.new manager.new }
    ensures stopped { (a : List (BeatOf HeadA C)) (d : List (BeatOf HeadD M)) (j : ℕ) →
        IsPart discarded beats.now a →
        HasCome rules_a M a asks.old.tracker asks.old.at asks.old.far →
        AreAt a d asks.old.at j client.old manager.old →
        result ≡ option_map_or (λ b. stops_a a d asks.new.at j b)
        (slice_get beats.now (asks.new.at - discarded)) None }
    ensures all { result ≡ None → discarded + length beats.now ≤ asks.new.at }
{
    'beats: while let Some(beat) = beats.get(asks.at - discarded) {
        match client.admit(asks.tracker.check(beat)) {
            Ok(place) => record_requests(manager, &beat.head, asks.accept(place, M)),
            Err(fault) => return Some(fault),
        }
    }
    None
}

// Offers the beats of D from the manager's side, up to the first one that is refused. `discarded`
// beats of its list were discarded, and `beats` are held. Returns the reason why the next beat is
// refused, or `None` if no beat is left.
fn offer_responses<const C: usize, const M: usize>(
    client: &mut ClientBook<C>,
    manager: &mut ManagerBook<M>,
    beats: &[Beat<ChD, M>],
    discarded: usize,
    answers: &mut Progress<ChD, M>,
) -> Option<SideFault>
    requires { IsWidth C × IsWidth M ×
        IsWithin discarded answers.old.at answers.old.far (length beats.now) }
    ensures within { IsWithin discarded answers.new.at answers.new.far (length beats.now) }
    ensures on { answers.old.at ≤ answers.new.at }
    ensures come { (d : List (BeatOf HeadD M)) → IsPart discarded beats.now d →
        HasCome rules_d C d answers.old.tracker answers.old.at answers.old.far →
        HasCome rules_d C d answers.new.tracker answers.new.at answers.new.far }
    ensures accepted { (a : List (BeatOf HeadA C)) (d : List (BeatOf HeadD M)) (i : ℕ) →
        IsPart discarded beats.now d →
        HasCome rules_d C d answers.old.tracker answers.old.at answers.old.far →
        AreAt a d i answers.old.at client.old manager.old →
        AreAt a d i answers.new.at client.new manager.new }
    ensures stopped { (a : List (BeatOf HeadA C)) (d : List (BeatOf HeadD M)) (i : ℕ) →
        IsPart discarded beats.now d →
        HasCome rules_d C d answers.old.tracker answers.old.at answers.old.far →
        AreAt a d i answers.old.at client.old manager.old →
        result ≡ option_map_or (λ b. stops_d a d i answers.new.at b)
        (slice_get beats.now (answers.new.at - discarded)) None }
    ensures all { result ≡ None → discarded + length beats.now ≤ answers.new.at }
{
    'beats: while let Some(beat) = beats.get(answers.at - discarded) {
        match manager.admit(answers.tracker.check(beat)) {
            Ok((place, _)) => record_responses(client, &beat.head, answers.accept(place, C)),
            Err(fault) => return Some(fault),
        }
    }
    None
}

// Advances A and D, until neither can advance. `discarded` beats of their lists were discarded, and `a`
// and `d` are held. Returns for each the reason why its next beat is refused, or `None` if no beat
// is left.
#[inline(never)]
pub(crate) fn judge_coupled<const C: usize, const M: usize>(
    client: &mut ClientBook<C>,
    manager: &mut ManagerBook<M>,
    a: &[Beat<ChA, C>],
    d: &[Beat<ChD, M>],
    discarded: &Counts,
    asks: &mut Progress<ChA, C>,
    answers: &mut Progress<ChD, M>,
) -> (Option<SideFault>, Option<SideFault>)
    requires { IsWidth C × IsWidth M ×
        IsWithin discarded.now.a asks.old.at asks.old.far (length a.now) ×
        IsWithin discarded.now.d answers.old.at answers.old.far (length d.now) }
    ensures within_a { IsWithin discarded.now.a asks.new.at asks.new.far (length a.now) }
    ensures within_d { IsWithin discarded.now.d answers.new.at answers.new.far (length d.now) }
    ensures come_a { (near : List (BeatOf HeadA C)) → IsPart discarded.now.a a.now near →
        HasCome rules_a M near asks.old.tracker asks.old.at asks.old.far →
        HasCome rules_a M near asks.new.tracker asks.new.at asks.new.far }
    ensures come_d { (near : List (BeatOf HeadD M)) → IsPart discarded.now.d d.now near →
        HasCome rules_d C near answers.old.tracker answers.old.at answers.old.far →
        HasCome rules_d C near answers.new.tracker answers.new.at answers.new.far }
    ensures both { (near : List (BeatOf HeadA C)) (back : List (BeatOf HeadD M)) →
        IsPart discarded.now.a a.now near → IsPart discarded.now.d d.now back →
        HasCome rules_a M near asks.old.tracker asks.old.at asks.old.far →
        HasCome rules_d C back answers.old.tracker answers.old.at answers.old.far →
        AreAt near back asks.old.at answers.old.at client.old manager.old →
        AreAt near back asks.new.at answers.new.at client.new manager.new }
    ensures stopped { (near : List (BeatOf HeadA C)) (back : List (BeatOf HeadD M)) →
        IsEnd discarded.now.a a.now near → IsEnd discarded.now.d d.now back →
        HasCome rules_a M near asks.old.tracker asks.old.at asks.old.far →
        HasCome rules_d C back answers.old.tracker answers.old.at answers.old.far →
        AreAt near back asks.old.at answers.old.at client.old manager.old →
        (verdict_of asks.new.at asks.new.far (left rules_a C (take asks.new.at near)) result.0
        ≡ verdict_a near back) × (verdict_of answers.new.at answers.new.far
        (left rules_d M (take answers.new.at back)) result.1 ≡ verdict_d near back) }
    ensures stuck { (near : List (BeatOf HeadA C)) (back : List (BeatOf HeadD M)) →
        IsPart discarded.now.a a.now near → IsPart discarded.now.d d.now back →
        HasCome rules_a M near asks.old.tracker asks.old.at asks.old.far →
        HasCome rules_d C back answers.old.tracker answers.old.at answers.old.far →
        AreAt near back asks.old.at answers.old.at client.old manager.old →
        IsStuck discarded.now.a asks.new.at a.now (stops_a near back asks.new.at answers.new.at) ×
        IsStuck discarded.now.d answers.new.at d.now (stops_d near back asks.new.at answers.new.at) }
{
    'passes: loop {
        let a_stops = offer_requests(client, manager, a, discarded.a, asks);
        let before = answers.at;
        let d_stops = offer_responses(client, manager, d, discarded.d, answers);
        if answers.at == before {
            return (a_stops, d_stops);
        }
    }
}
