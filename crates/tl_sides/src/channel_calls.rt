//! Calls on one channel of a bridge in one thread: forwarding staged beats, and reading the inbox.
//! Also a call that takes all beats of the inboxes at once.
ghost use Rattle.std.specs.Prelude.{◌≡◌};
ghost use Rattle.tl_lanes.specs.Lanes.{IsWidth};
ghost use Rattle.tl_sides.specs.Bridges.{Past, StandsFor};
ghost use Rattle.tl_sides.specs.ChannelCalls.{after_take_all, passed, passes_a, passes_b, passes_c, passes_d, passes_e};
ghost use Rattle.tl_sides.specs.Joining.{pipe_of};

use crate::sync_bridge::SyncBridge;
use std::alloc::Allocator;
use tl_msg::{Beat, BeatOf, ChA, ChB, ChC, ChD, ChE, Channel, HeadA, HeadB, HeadC, HeadD, HeadE};
use tl_ring::{Inbox, Outbox, Ring, fetch, pump};

// Moves staged beats into the ring. If the ring has too little room, moves its beats into the
// inbox, and then the remaining staged beats into the ring, as many as fit.
fn forward_staged<K: Channel, const W: usize, const V: usize, A: Allocator>(
    outbox: &mut Outbox<K, W, V>,
    ring: &mut Ring<K, V, A>,
    inbox: &mut Inbox<K, V>,
)
    ensures { pipe_of outbox.new ring.new inbox.new ≡
        passed (pipe_of outbox.old ring.old inbox.old) }
{
    pump(outbox, ring);
    if outbox.staged() == 0 {
        return;
    }
    fetch(ring, inbox);
    pump(outbox, ring);
}

/// A holder that forwards the staged beats of the channel on which it offers beats `B`.
pub trait Forward<B> {
    // the relation between the holder before and after
    ghost Passes: { (old : Self) → (new : Self) → Type 0 };

    /// Moves staged beats into the ring. If the ring has too little room, moves its beats into the
    /// inbox, and then the remaining staged beats into the ring, as many as fit.
    fn forward_staged(&mut self)
        ensures { Passes self.old self.new };
}

impl<const C: usize, const M: usize, A: Allocator> Forward<BeatOf<HeadA, C>>
    for SyncBridge<C, M, A> {
    ghost Passes = { passes_a };

    fn forward_staged(&mut self) {
        forward_staged(&mut self.client.a, &mut self.a, &mut self.manager.a);
    }
}

impl<const C: usize, const M: usize, A: Allocator> Forward<BeatOf<HeadB, M>>
    for SyncBridge<C, M, A> {
    ghost Passes = { passes_b };

    fn forward_staged(&mut self) {
        forward_staged(&mut self.manager.b, &mut self.b, &mut self.client.b);
    }
}

impl<const C: usize, const M: usize, A: Allocator> Forward<BeatOf<HeadC, C>>
    for SyncBridge<C, M, A> {
    ghost Passes = { passes_c };

    fn forward_staged(&mut self) {
        forward_staged(&mut self.client.c, &mut self.c, &mut self.manager.c);
    }
}

impl<const C: usize, const M: usize, A: Allocator> Forward<BeatOf<HeadD, M>>
    for SyncBridge<C, M, A> {
    ghost Passes = { passes_d };

    fn forward_staged(&mut self) {
        forward_staged(&mut self.manager.d, &mut self.d, &mut self.client.d);
    }
}

impl<const C: usize, const M: usize, A: Allocator> Forward<BeatOf<HeadE, C>>
    for SyncBridge<C, M, A> {
    ghost Passes = { passes_e };

    fn forward_staged(&mut self) {
        forward_staged(&mut self.client.e, &mut self.e, &mut self.manager.e);
    }
}

impl<const C: usize, const M: usize, A: Allocator> SyncBridge<C, M, A> {
    /// Returns the beats of A's inbox, in order, for use with [`SyncBridge::take_all`].
    pub fn inbox_a(&self) -> &[Beat<ChA, M>]
        ensures { result.now ≡ self.now.a.inbox }
    {
        self.manager.a.as_slice()
    }

    /// Returns the beats of B's inbox, in order, for use with [`SyncBridge::take_all`].
    pub fn inbox_b(&self) -> &[Beat<ChB, C>]
        ensures { result.now ≡ self.now.b.inbox }
    {
        self.client.b.as_slice()
    }

    /// Returns the beats of C's inbox, in order, for use with [`SyncBridge::take_all`].
    pub fn inbox_c(&self) -> &[Beat<ChC, M>]
        ensures { result.now ≡ self.now.c.inbox }
    {
        self.manager.c.as_slice()
    }

    /// Returns the beats of D's inbox, in order, for use with [`SyncBridge::take_all`].
    pub fn inbox_d(&self) -> &[Beat<ChD, C>]
        ensures { result.now ≡ self.now.d.inbox }
    {
        self.client.d.as_slice()
    }

    /// Returns the beats of E's inbox, in order, for use with [`SyncBridge::take_all`].
    pub fn inbox_e(&self) -> &[Beat<ChE, M>]
        ensures { result.now ≡ self.now.e.inbox }
    {
        self.manager.e.as_slice()
    }

    /// Takes all beats of the inboxes of both sides, those that [`SyncBridge::inbox_a`] to
    /// [`SyncBridge::inbox_e`] return. Has the effect of `take_x` on each channel until its inbox
    /// is empty. Requires: `C` and `M` are widths.
    pub fn take_all(&mut self)
        requires client { IsWidth C }
        requires manager { IsWidth M }
        ensures { (x : Past C M) → StandsFor self.old x → StandsFor self.new (after_take_all x) }
    {
        self.client.take_all();
        self.manager.take_all();
    }
}
