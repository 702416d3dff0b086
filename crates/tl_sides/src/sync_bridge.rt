//! The bridge of both sides in one thread.
ghost use Rattle.std.specs.Prelude.{ℕ, ◌≡◌, ◌≤◌, ◌<◌, ◌*◌, ◌↔◌, ◌⊎◌, [], IsOk, IsTrue, IfOk, IfErr};
ghost use Rattle.tl_ring.specs.declared.pipe.TheConstants.{MAX_RING};
ghost use Rattle.tl_ring.specs.declared.queue.TheConstants.{STAGE_CAPACITY};
ghost use Rattle.tl_lanes.specs.Lanes.{IsWidth};
ghost use Rattle.tl_ring.specs.Pipe.{IsReady};
ghost use Rattle.circular_buffer.specs.Buffer.{buffer};
ghost use Rattle.tl_sides.specs.Bridges.{Past, StandsFor, IsStanding, nothing_yet, all_pumped, all_fetched, after_pump, after_fetch};
ghost use Rattle.tl_settle.specs.Books.{KnowsClient, KnowsManager};
ghost use Rattle.tl_sides.specs.Bridges.{bridge_client, bridge_manager};
ghost use Rattle.tl_sides.specs.Ports.{sends_a, sends_b, sends_c, sends_d, sends_e};
ghost use Rattle.tl_sides.specs.Ports.{takes_a, takes_b, takes_c, takes_d, takes_e};
ghost use Rattle.tl_sides.specs.Calls.{OffersBeat, ClosesChannel, TakesBeat};
ghost use Rattle.tl_sides.specs.Separate.{each_pumped, each_fetched};

use crate::client_port::ClientPort;
use crate::making::{Parts, new_parts};
use crate::manager_port::ManagerPort;
use crate::offering::{offer_alone, offer_request, offer_response};
use crate::per_channel::PerChannel;
use crate::sides::standings_between;
use crate::taking::{take_request, take_response};
use std::alloc::{Allocator, Global};
use std::marker::Model;
use tl_msg::{Beat, ChA, ChB, ChC, ChD, ChE, SideFault};
use tl_ring::{BuildFault, EndFault, Ring, Standing, fetch, pump};

/// The number of far beats at each place of each channel.
pub type Standings = PerChannel<Standing>;

/// Both sides of the bridge within one thread: five crossings, and the coupling of channel D to
/// channel A.
///
/// The client's side, on a bus of `C` bytes, offers beats of A, C and E and takes those of B and D;
/// the manager's side, on a bus of `M` bytes, offers beats of B and D and takes those of A, C and
/// E. Between an offer and a take are a stage, a ring and an inbox: `pump` moves beats from the
/// stages into the rings, and `fetch` from the rings into the inboxes. Stage and inbox hold
/// [`tl_ring::STAGE_CAPACITY`] beats each.
///
/// A source has at most one request in flight: it is busy from the first accepted beat of the
/// request on A until the client's side takes the first beat of the response. A response may be
/// offered once the first beat of its request was taken. It has the request's size, and its lanes
/// are given by the request's address. ReleaseAck responds to no request (TileLink: source and size
/// of responses; the moments at which a source is busy and a request is outstanding: this project's
/// choice).
#[derive(Drop)]
pub struct SyncBridge<const C: usize, const M: usize, A: Allocator = Global> {
    pub(crate) client: ClientPort<C, M, A>,
    pub(crate) manager: ManagerPort<C, M, A>,
    pub(crate) a: Ring<ChA, M, A>,
    pub(crate) b: Ring<ChB, C, A>,
    pub(crate) c: Ring<ChC, M, A>,
    pub(crate) d: Ring<ChD, C, A>,
    pub(crate) e: Ring<ChE, M, A>,
}

impl<const C: usize, const M: usize, A: Allocator> Model for SyncBridge<C, M, A> {
    ghost use Rattle.tl_sides.specs.Bridges.{Bridge};
    ghost use Rattle.tl_sides.specs.Joining.{bridge_of};

    ghost Value = { Bridge C M };

    ghost view = { λ s. bridge_of s.client s.manager s.a s.b s.c s.d s.e };
}

// Creates the bridge from its rings and books.
fn bridge_over<const C: usize, const M: usize, A: Allocator>(
    parts: Parts<
        Ring<ChA, M, A>,
        Ring<ChB, C, A>,
        Ring<ChC, M, A>,
        Ring<ChD, C, A>,
        Ring<ChE, M, A>,
        C,
        M,
        A,
    >,
) -> SyncBridge<C, M, A>
    // for rings of one size, and for the books of a new bridge
    ensures { (ring : ℕ) → 1 ≤ ring → IsWidth C → IsWidth M →
        (parts.0 ≡ buffer [] ring) × (parts.1 ≡ buffer [] ring) × (parts.2 ≡ buffer [] ring) ×
        (parts.3 ≡ buffer [] ring) × (parts.4 ≡ buffer [] ring) →
        KnowsClient {w = C} parts.5 [] → KnowsManager {w = M} parts.6 [] →
        StandsFor result (nothing_yet ring) }
{
    let (a, b, c, d, e, client, manager) = parts;
    SyncBridge {
        client: ClientPort::with_book(client),
        manager: ManagerPort::with_book(manager),
        a,
        b,
        c,
        d,
        e,
    }
}

impl<const C: usize, const M: usize, A: Allocator + Copy> SyncBridge<C, M, A> {
    /// Creates a bridge with five rings of `ring` beats each and the tables of both sides, of 64
    /// KiB and 1 MiB. This is the only memory that it allocates.
    ///
    /// Errors: `RingSize` if and only if `ring` is 0 or above 4,096; otherwise `OutOfMemory` if the
    /// allocator fails for a ring or a table. Requires: `C` and `M` are widths.
    #[inline(never)]
    pub fn new(alloc: A, ring: usize) -> Result<Self, BuildFault>
        requires client { IsWidth C }
        requires manager { IsWidth M }
        ensures new { IfOk result (λ bridge. StandsFor bridge (nothing_yet ring)) }
        ensures size { IsOk result → (1 ≤ ring) × (ring ≤ MAX_RING) }
        ensures ring_size { IfErr result (λ fault. (fault ≡ BuildFault.RingSize) ↔
            ((ring ≡ 0) ⊎ (MAX_RING < ring))) }
    {
        let parts = given!(new_parts(alloc, ring));
        Ok(bridge_over(parts))
    }
}

impl<const C: usize, const M: usize, A: Allocator> SyncBridge<C, M, A> {
    /// Returns whether a beat of A may be offered: nothing of A is staged, and the channel is not
    /// closed.
    pub fn ready_a(&self) -> bool
        ensures { IsTrue result ↔ IsReady self.now.a }
    {
        self.client.a.ready()
    }

    /// Returns whether a beat of B may be offered: nothing of B is staged, and the channel is not
    /// closed.
    pub fn ready_b(&self) -> bool
        ensures { IsTrue result ↔ IsReady self.now.b }
    {
        self.manager.b.ready()
    }

    /// Returns whether a beat of C may be offered: nothing of C is staged, and the channel is not
    /// closed.
    pub fn ready_c(&self) -> bool
        ensures { IsTrue result ↔ IsReady self.now.c }
    {
        self.client.c.ready()
    }

    /// Returns whether a beat of D may be offered: nothing of D is staged, and the channel is not
    /// closed.
    pub fn ready_d(&self) -> bool
        ensures { IsTrue result ↔ IsReady self.now.d }
    {
        self.manager.d.ready()
    }

    /// Returns whether a beat of E may be offered: nothing of E is staged, and the channel is not
    /// closed.
    pub fn ready_e(&self) -> bool
        ensures { IsTrue result ↔ IsReady self.now.e }
    {
        self.client.e.ready()
    }

    /// Offers a beat of A. If it is accepted, the far beats that it completes are staged, and a
    /// first beat makes its source busy.
    ///
    /// Errors: the beat's own fault; otherwise `SourceBusy` if and only if the beat is the first of
    /// a message whose source is busy. Nothing changes then. Requires: `C` and `M` are widths, and
    /// A is ready.
    pub fn offer_a(&mut self, beat: Beat<ChA, C>) -> Result<(), SideFault>
        requires client { IsWidth C }
        requires manager { IsWidth M }
        requires ready { IsReady self.old.a }
        ensures { OffersBeat (sends_a bridge_client) beat.entry self.old result self.new }
    {
        offer_request(&mut self.client.book, &mut self.client.a, &beat)
    }

    /// Offers a beat of B from the manager's side. If it is accepted, the far beats that it
    /// completes are staged.
    ///
    /// Errors: the beat's own fault, and only that; the bridge is then unchanged. Requires: `C` and
    /// `M` are widths, and B is ready.
    pub fn offer_b(&mut self, beat: Beat<ChB, M>) -> Result<(), SideFault>
        requires client { IsWidth C }
        requires manager { IsWidth M }
        requires ready { IsReady self.old.b }
        ensures { OffersBeat (sends_b bridge_manager) beat.entry self.old result self.new }
    {
        offer_alone(&mut self.manager.b, &beat)
    }

    /// Offers a beat of C from the client's side. If it is accepted, the far beats that it
    /// completes are staged.
    ///
    /// Errors: the beat's own fault, and only that; the bridge is then unchanged. Requires: `C` and
    /// `M` are widths, and C is ready.
    pub fn offer_c(&mut self, beat: Beat<ChC, C>) -> Result<(), SideFault>
        requires client { IsWidth C }
        requires manager { IsWidth M }
        requires ready { IsReady self.old.c }
        ensures { OffersBeat (sends_c bridge_client) beat.entry self.old result self.new }
    {
        offer_alone(&mut self.client.c, &beat)
    }

    /// Offers a beat of D. If it is accepted, the far beats that it completes are staged, and a
    /// first beat ends its request, whose address is the home of the message.
    ///
    /// Errors: the beat's own fault; otherwise, for the first beat of any message except
    /// ReleaseAck, `NoRequest` if and only if its source has no outstanding request, and
    /// `SizeMismatch` if and only if that request has another size. Nothing changes then. Requires:
    /// `C` and `M` are widths, and D is ready.
    pub fn offer_d(&mut self, beat: Beat<ChD, M>) -> Result<(), SideFault>
        requires client { IsWidth C }
        requires manager { IsWidth M }
        requires ready { IsReady self.old.d }
        ensures { OffersBeat (sends_d bridge_manager) beat.entry self.old result self.new }
    {
        offer_response(&mut self.manager.book, &mut self.manager.d, &beat)
    }

    /// Offers a beat of E, and stages the far beat. No beat of E has a fault. Requires: `C` and `M`
    /// are widths, and E is ready.
    pub fn offer_e(&mut self, beat: Beat<ChE, C>) -> Result<(), SideFault>
        requires client { IsWidth C }
        requires manager { IsWidth M }
        requires ready { IsReady self.old.e }
        ensures { OffersBeat (sends_e bridge_client) beat.entry self.old result self.new }
    {
        offer_alone(&mut self.client.e, &beat)
    }

    /// Removes and returns the first beat of A's inbox, for the manager's side. Returns `None` if
    /// and only if the inbox is empty. A first beat begins its request, to which the side may
    /// respond from now on. Requires: `M` is a width.
    pub fn take_a(&mut self) -> Option<Beat<ChA, M>>
        requires far { IsWidth M }
        ensures { TakesBeat (takes_a bridge_manager) self.old result self.new }
    {
        take_request(&mut self.manager.book, &mut self.manager.a)
    }

    /// Removes and returns the first beat of B's inbox, for the client's side. Returns `None` if
    /// and only if the inbox is empty.
    pub fn take_b(&mut self) -> Option<Beat<ChB, C>>
        ensures { TakesBeat (takes_b bridge_client) self.old result self.new }
    {
        self.client.b.take()
    }

    /// Removes and returns the first beat of C's inbox, for the manager's side. Returns `None` if
    /// and only if the inbox is empty.
    pub fn take_c(&mut self) -> Option<Beat<ChC, M>>
        ensures { TakesBeat (takes_c bridge_manager) self.old result self.new }
    {
        self.manager.c.take()
    }

    /// Removes and returns the first beat of D's inbox, for the client's side. Returns `None` if
    /// and only if the inbox is empty. The first beat of a response, that is, of any message except
    /// ReleaseAck, frees its source. Requires: `C` is a width.
    pub fn take_d(&mut self) -> Option<Beat<ChD, C>>
        requires far { IsWidth C }
        ensures { TakesBeat (takes_d bridge_client) self.old result self.new }
    {
        take_response(&mut self.client.book, &mut self.client.d)
    }

    /// Removes and returns the first beat of E's inbox, for the manager's side. Returns `None` if
    /// and only if the inbox is empty.
    pub fn take_e(&mut self) -> Option<Beat<ChE, M>>
        ensures { TakesBeat (takes_e bridge_manager) self.old result self.new }
    {
        self.manager.e.take()
    }

    /// Ends the offers of A by the client's side. Beats in the stage stay there, and still cross.
    /// Closing again returns `Ok` and changes nothing.
    ///
    /// Errors: `MidBurst` if and only if a burst is unfinished; nothing changes then.
    pub fn close_a(&mut self) -> Result<(), EndFault>
        ensures { ClosesChannel (sends_a bridge_client) self.old result self.new }
    {
        self.client.a.close()
    }

    /// Ends the offers of B by the manager's side. Beats in the stage stay there, and still cross.
    /// Closing again returns `Ok` and changes nothing.
    ///
    /// Errors: `MidBurst` if and only if a burst is unfinished; nothing changes then.
    pub fn close_b(&mut self) -> Result<(), EndFault>
        ensures { ClosesChannel (sends_b bridge_manager) self.old result self.new }
    {
        self.manager.b.close()
    }

    /// Ends the offers of C by the client's side. Beats in the stage stay there, and still cross.
    /// Closing again returns `Ok` and changes nothing.
    ///
    /// Errors: `MidBurst` if and only if a burst is unfinished; nothing changes then.
    pub fn close_c(&mut self) -> Result<(), EndFault>
        ensures { ClosesChannel (sends_c bridge_client) self.old result self.new }
    {
        self.client.c.close()
    }

    /// Ends the offers of D by the manager's side. Beats in the stage stay there, and still cross.
    /// Closing again returns `Ok` and changes nothing.
    ///
    /// Errors: `MidBurst` if and only if a burst is unfinished; nothing changes then.
    pub fn close_d(&mut self) -> Result<(), EndFault>
        ensures { ClosesChannel (sends_d bridge_manager) self.old result self.new }
    {
        self.manager.d.close()
    }

    /// Ends the offers of E by the client's side. Beats in the stage stay there, and still cross.
    /// Closing again returns `Ok` and changes nothing.
    ///
    /// Errors: `MidBurst` if and only if a burst is unfinished; nothing changes then.
    pub fn close_e(&mut self) -> Result<(), EndFault>
        ensures { ClosesChannel (sends_e bridge_client) self.old result self.new }
    {
        self.client.e.close()
    }

    /// Moves staged beats to the rings on all channels, as many as each ring has room for. Returns
    /// their total number.
    pub fn pump(&mut self) -> usize
        ensures count { result ≡ all_pumped self.old }
        ensures moved { (x : Past C M) → StandsFor self.old x →
            StandsFor self.new (after_pump self.old x) }
        ensures most { result ≤ 5 * STAGE_CAPACITY }
        // on each channel, depending only on that channel
        ensures each { self.new ≡ each_pumped self.old }
    {
        let a = pump(&mut self.client.a, &mut self.a);
        let b = pump(&mut self.manager.b, &mut self.b);
        let c = pump(&mut self.client.c, &mut self.c);
        let d = pump(&mut self.manager.d, &mut self.d);
        let e = pump(&mut self.client.e, &mut self.e);
        a + b + c + d + e
    }

    /// Moves beats from the rings to the inboxes on all channels, as many as each inbox has room
    /// for. Returns their total number.
    pub fn fetch(&mut self) -> usize
        ensures count { result ≡ all_fetched self.old }
        ensures moved { (x : Past C M) → StandsFor self.old x →
            StandsFor self.new (after_fetch self.old x) }
        ensures most { result ≤ 5 * STAGE_CAPACITY }
        // on each channel, depending only on that channel
        ensures each { self.new ≡ each_fetched self.old }
    {
        let a = fetch(&mut self.a, &mut self.manager.a);
        let b = fetch(&mut self.b, &mut self.client.b);
        let c = fetch(&mut self.c, &mut self.manager.c);
        let d = fetch(&mut self.d, &mut self.client.d);
        let e = fetch(&mut self.e, &mut self.manager.e);
        a + b + c + d + e
    }

    /// Returns the number of far beats in the stage, the ring and the inbox of each channel.
    pub fn standings(&self) -> Standings
        ensures a { IsStanding self.now.a result.a }
        ensures b { IsStanding self.now.b result.b }
        ensures c { IsStanding self.now.c result.c }
        ensures d { IsStanding self.now.d result.d }
        ensures e { IsStanding self.now.e result.e }
    {
        standings_between(
            &self.client,
            &self.manager,
            self.a.len(),
            self.b.len(),
            self.c.len(),
            self.d.len(),
            self.e.len(),
        )
    }

    /// Discards the bridge, with all beats under way.
    // (the crates above call it, because a function that drops a bridge is expensive to check)
    pub fn discard(self) {
        self.client.discard();
        self.manager.discard();
    }
}
