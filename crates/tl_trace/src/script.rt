//! The beats of a trace by channel.
ghost use Rattle.std.specs.Prelude.{◌≡◌, ◌≤◌, ◌++◌, ◌∷◌, [], drop, length, IfOk, IfErr, OnOk};
ghost use Rattle.tl_lanes.specs.declared.limits.TheConstants.{WIDEST};
ghost use Rattle.tl_trace.specs.Scripts.{HasCounts, HasRemoved, IsScriptOf, on_lanes};
ghost use Rattle.tl_trace.specs.Inner.Reading.{IsPushed, IsSameScript};
ghost use Rattle.tl_lanes.specs.Lanes.{IsWidth};

use crate::line::Line;
use crate::trace::Trace;
use std::alloc::Global;
use tl_lanes::WIDEST;
use tl_msg::{
    Beat, BeatOf, ChA, ChB, ChC, ChD, ChE, HeadA, HeadB, HeadC, HeadD, HeadE, OutOfMemory,
};

/// The near beats of the five channels, each on its sender's lanes. The order between channels has
/// no meaning.
#[derive(Drop)]
pub struct Script<const C: usize, const M: usize> {
    /// The beats that the client side sends on A, on its `C` lanes, in order.
    pub a: Vec<Beat<ChA, C>>,
    /// The beats that the manager side sends on B, on its `M` lanes, in order.
    pub b: Vec<Beat<ChB, M>>,
    /// The beats that the client side sends on C, on its `C` lanes, in order.
    pub c: Vec<Beat<ChC, C>>,
    /// The beats that the manager side sends on D, on its `M` lanes, in order.
    pub d: Vec<Beat<ChD, M>>,
    /// The beats that the client side sends on E, in order.
    pub e: Vec<Beat<ChE, C>>,
}

/// A number of beats for each channel.
#[derive(Clone, Copy)]
pub struct Counts {
    pub a: usize,
    pub b: usize,
    pub c: usize,
    pub d: usize,
    pub e: usize,
}

/// Removes the first `count` items of a list. Requires a list of at least `count` items.
#[inline(never)]
fn remove_front_of<T: Copy>(list: &mut Vec<T>, count: usize)
    requires { count ≤ length list.old.items }
    ensures { list.new.items ≡ drop count list.old.items }
{
    // nothing to move
    if count == 0 {
        return;
    }
    let len = list.len();
    list.as_mut_slice().copy_within(count..len, 0);
    list.truncate(len - count);
}

impl<const C: usize, const M: usize> Script<C, M> {
    /// Removes the first `counts` beats of each list and moves the rest to the front. A call that
    /// removes at least half of each list, or nothing, moves no more beats than it removes.
    ///
    /// Requires: each list has at least as many beats as are removed, and `C` and `M` are at most
    /// `WIDEST`.
    pub fn remove_front(&mut self, counts: &Counts)
        requires client { C ≤ WIDEST }
        requires manager { M ≤ WIDEST }
        requires counts { HasCounts counts.now self.old }
        ensures { HasRemoved counts.now self.old self.new }
    {
        remove_front_of(&mut self.a, counts.a);
        remove_front_of(&mut self.b, counts.b);
        remove_front_of(&mut self.c, counts.c);
        remove_front_of(&mut self.d, counts.d);
        remove_front_of(&mut self.e, counts.e);
    }
}

/// Appends the first `W` lanes of a beat to a list. If the allocation fails, the list stays as it
/// was.
fn push_beat<H: Copy, const W: usize>(
    list: &mut Vec<BeatOf<H, W>>,
    beat: &BeatOf<H, WIDEST>,
) -> Result<(), OutOfMemory>
    requires { W ≤ WIDEST }
    ensures pushed { OnOk result (list.new.items ≡ list.old.items ++ on_lanes W beat.now ∷ []) }
    ensures kept { IfErr result (λ _. list.new.items ≡ list.old.items) }
{
    let mut lanes = [0u8; W];
    lanes.copy_from_slice(&beat.lanes[..W]);
    let narrow = BeatOf {
        head: beat.head,
        mask: beat.mask,
        lanes,
        corrupt: beat.corrupt,
    };
    match list.push(narrow) {
        Ok(()) => Ok(()),
        Err(_) => Err(OutOfMemory),
    }
}

/// Appends the beat of a line to the list of its channel, on its sender's lanes. If the allocation
/// fails, the lists stay as they were.
pub fn push_beat_of<const C: usize, const M: usize>(
    script: &mut Script<C, M>,
    line: &Line,
) -> Result<(), OutOfMemory>
    requires client { C ≤ WIDEST }
    requires manager { M ≤ WIDEST }
    ensures pushed { OnOk result (IsPushed line.now script.old script.new) }
    ensures kept { IfErr result (λ _. IsSameScript script.old script.new) }
{
    match line {
        Line::A(beat) => push_beat::<HeadA, C>(&mut script.a, beat),
        Line::B(beat) => push_beat::<HeadB, M>(&mut script.b, beat),
        Line::C(beat) => push_beat::<HeadC, C>(&mut script.c, beat),
        Line::D(beat) => push_beat::<HeadD, M>(&mut script.d, beat),
        Line::E(beat) => push_beat::<HeadE, C>(&mut script.e, beat),
    }
}

/// Returns a script without beats.
pub fn empty_script<const C: usize, const M: usize>(alloc: Global) -> Script<C, M>
    ensures { IsScriptOf [] result }
{
    Script {
        a: Vec::new(alloc),
        b: Vec::new(alloc),
        c: Vec::new(alloc),
        d: Vec::new(alloc),
        e: Vec::new(alloc),
    }
}

/// Returns the beats of a trace by channel, on each channel in the order of its lines. Errors:
/// `OutOfMemory`. Requires: `C` and `M` are widths, and they are the widths of the trace.
pub fn script_of<const C: usize, const M: usize>(
    alloc: Global,
    trace: &Trace,
) -> Result<Script<C, M>, OutOfMemory>
    requires client_width { IsWidth C }
    requires manager_width { IsWidth M }
    requires client { trace.now.client ≡ C }
    requires manager { trace.now.manager ≡ M }
    ensures { IfOk result (IsScriptOf trace.now.lines.items) }
{
    let mut script = empty_script(alloc);
    for line in &trace.lines {
        if push_beat_of(&mut script, line).is_err() {
            return Err(OutOfMemory);
        }
    }
    Ok(script)
}
