//! The far beats that the two sides of a run take.
ghost use Rattle.std.specs.Prelude.{◌≡◌, ◌≤◌, ◌+◌, ◌*◌, ◌++◌, ◌^◌, ℕ, length, vec_len, vec_capacity, IsOk, IfOk, OnOk};
ghost use Rattle.tl_settle.specs.Outcomes.{Beats, far_beats, verdicts};
ghost use Rattle.tl_sides.specs.Bridges.{Past, StandsFor};
ghost use Rattle.tl_sides.specs.ChannelCalls.{after_take_all};
ghost use Rattle.tl_sides.specs.declared.per_channel.PerChannel.{PerChannel as PerChannelOf};
ghost use Rattle.tl_run.specs.Arrivals.{Fit, joined, no_beats};
ghost use Rattle.tl_run.specs.Scripts.{EndsIn, far_count, near_count};
ghost use Rattle.tl_parts.specs.Parts.{HasShortLists, near_beats};
ghost use Rattle.tl_offer.specs.Widths.{AreWidths};
ghost use Rattle.tl_run.specs.Running.{lengths};
ghost use Rattle.tl_run.specs.Inner.Running.{CanAdd, added, inboxes};
ghost use Rattle.tl_run.specs.Inner.Sizes.{BeatFits};
ghost use Rattle.tl_run.specs.Inner.Arriving.{beats_of, AreDueCounts, HaveCapacity, HasRoomFor};

use crate::far_sink::FarSink;
use crate::outcome::Outcome;
use std::alloc::{AllocError, Global};
use tl_convert::far_count;
use tl_msg::{Beat, ChA, ChB, ChC, ChD, ChE, Verdict};
use tl_sides::{PerChannel, SyncBridge};
use tl_trace::{Script, empty_script};

// Lemma: a beat of each width fits in memory.
#[inline(always)]
fn beats_fit<const C: usize, const M: usize>()
    requires { AreWidths C M }
    ensures { BeatFits C × BeatFits M }
{}

// Returns a list as a slice. Requires: it has at most `2^40` beats.
#[inline(always)]
fn short<B>(list: &Vec<B>) -> &[B]
    requires { length list.now.items ≤ 2 ^ 40 }
    ensures is { result.now ≡ list.now.items }
    ensures few { length result.now ≤ 2 ^ 40 }
{
    list
}

// Returns the largest number of far beats of each channel that a script can make due. No more room
// than that is allocated.
fn far_rooms<const C: usize, const M: usize>(script: &Script<C, M>) -> PerChannel<usize>
    requires { AreWidths C M × HasShortLists script.now }
    ensures { AreDueCounts (near_beats script.now) result }
{
    beats_fit::<C, M>();
    let a = far_count::<ChA, C, M>(short(&script.a));
    let b = far_count::<ChB, M, C>(short(&script.b));
    let c = far_count::<ChC, C, M>(short(&script.c));
    let d = far_count::<ChD, M, C>(short(&script.d));
    let e = far_count::<ChE, C, M>(short(&script.e));
    PerChannel { a, b, c, d, e }
}

/// Returns the far beats of a run that has taken none: five empty lists. Allocates nothing.
pub fn no_far_beats<const C: usize, const M: usize>(alloc: Global) -> Script<M, C>
    ensures { beats_of result ≡ no_beats }
{
    empty_script(alloc)
}

/// Reserves room in empty lists for all far beats that a script can make due. The lists stay empty.
/// Errors: `AllocError` if the allocator fails. Requires: `C` and `M` are widths, each list of the
/// script has at most `2^40` beats, and the five lists are empty.
#[inline(never)]
pub fn reserve_far<const C: usize, const M: usize>(
    far: &mut Script<M, C>,
    script: &Script<C, M>,
) -> Result<(), AllocError>
    requires { AreWidths C M × HasShortLists script.now × (beats_of far.old ≡ no_beats) }
    ensures empty { beats_of far.new ≡ no_beats }
    ensures room { OnOk result (HasRoomFor (near_beats script.now) far.new) }
{
    let room = far_rooms(script);
    let a = far.a.reserve_exact(room.a);
    let b = far.b.reserve_exact(room.b);
    let c = far.c.reserve_exact(room.c);
    let d = far.d.reserve_exact(room.d);
    let e = far.e.reserve_exact(room.e);
    a.and(b).and(c).and(d).and(e)
}

// Returns the outcome of a run that took these far beats and ended with these verdicts after
// `rounds` rounds.
pub(crate) fn outcome_of<const C: usize, const M: usize>(
    far: Script<M, C>,
    found: [Verdict; 5],
    rounds: u64,
) -> Outcome<C, M>
    requires { AreWidths C M }
    ensures ends { (near : Beats C M) → found ≡ verdicts near →
        rounds ≤ near_count near + 2 * far_count near + 1 →
        beats_of far.entry ≡ far_beats near → EndsIn near result }
    ensures rounds { result.rounds ≡ rounds }
{
    let Script { a, b, c, d, e } = far;
    Outcome {
        a,
        b,
        c,
        d,
        e,
        verdicts: found,
        rounds,
    }
}

// Appends the beats of an inbox to a list. Usually there is at most one.
#[inline(always)]
fn append<B: Copy>(list: &mut Vec<B>, beats: &[B]) -> Result<(), AllocError>
    ensures items { OnOk result (list.new.items ≡ list.old.items ++ beats.now) }
    ensures room { vec_len list.old + length beats.now ≤ vec_capacity list.old → IsOk result }
    ensures capacity { vec_capacity list.old ≤ vec_capacity list.new }
{
    if beats.is_empty() {
        return Ok(());
    }
    if let [beat] = beats {
        list.push(*beat)?;
        return Ok(());
    }
    list.extend_from_slice(beats)
}

// The far beats of a run have the form of a script with the two widths exchanged: those of A, C and E
// are on `M` lanes, those of B and D on `C` (this project's choice).
impl<const C: usize, const M: usize> FarSink<C, M> for Script<M, C> {
    ghost Holds = { λ t far. beats_of t ≡ far };

    ghost HasRoom = { HaveCapacity };

    ghost made_with = { λ _. 0 };

    // The lists have room for all far beats.
    fn take(
        &mut self,
        a: &[Beat<ChA, M>],
        b: &[Beat<ChB, C>],
        c: &[Beat<ChC, M>],
        d: &[Beat<ChD, C>],
        e: &[Beat<ChE, M>],
    ) -> Result<(), AllocError> {
        let a = append(&mut self.a, a);
        let b = append(&mut self.b, b);
        let c = append(&mut self.c, c);
        let d = append(&mut self.d, d);
        let e = append(&mut self.e, e);
        a.and(b).and(c).and(d).and(e)
    }
}

// Adds `more` to the counts of each channel. (A count saturates at the largest number, which no run
// reaches; that need not be known here.)
pub(crate) fn add_counts(counts: &mut PerChannel<usize>, more: &PerChannel<usize>)
    ensures { CanAdd counts.old more.now → counts.new ≡ added counts.old more.now }
{
    counts.a = counts.a.saturating_add(more.a);
    counts.b = counts.b.saturating_add(more.b);
    counts.c = counts.c.saturating_add(more.c);
    counts.d = counts.d.saturating_add(more.d);
    counts.e = counts.e.saturating_add(more.e);
}

// Takes all beats of the inboxes of both sides, and passes them to `far`. Returns their number on
// each channel. Errors: `AllocError` if `far` runs out of memory.
pub(crate) fn take_from_each<F: FarSink<C, M>, const C: usize, const M: usize>(
    bridge: &mut SyncBridge<C, M>,
    far: &mut F,
) -> Result<PerChannel<usize>, AllocError>
    requires { AreWidths C M }
    ensures taken { (x : Past C M) → StandsFor bridge.old x →
        OnOk result (StandsFor bridge.new (after_take_all x)) }
    ensures far { (all : Beats M C) → F.Holds far.old all →
        OnOk result (F.Holds far.new (joined all (inboxes bridge.old))) }
    ensures room { (all : Beats M C) (room : PerChannelOf ℕ) → F.Holds far.old all →
        F.HasRoom far.old room → Fit (joined all (inboxes bridge.old)) room →
        IsOk result × F.HasRoom far.new room }
    ensures same { OnOk result (F.made_with far.new ≡ F.made_with far.old) }
    ensures counted { IfOk result (λ more. more ≡ lengths (inboxes bridge.old)) }
{
    beats_fit::<C, M>();
    let a = bridge.inbox_a();
    let b = bridge.inbox_b();
    let c = bridge.inbox_c();
    let d = bridge.inbox_d();
    let e = bridge.inbox_e();
    let more = PerChannel {
        a: a.len(),
        b: b.len(),
        c: c.len(),
        d: d.len(),
        e: e.len(),
    };
    let Ok(()) = far.take(a, b, c, d, e) else {
        return Err(AllocError);
    };
    bridge.take_all();
    Ok(more)
}
