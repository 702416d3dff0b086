//! The client's side of the bridge.
ghost use Rattle.std.specs.Prelude.{◌≡◌, ◌+◌, ◌*◌, ◌≤◌, ◌↔◌, [], take, IsTrue};
ghost use Rattle.tl_lanes.specs.Lanes.{IsWidth};
ghost use Rattle.tl_ring.specs.Ends.{LookedAfter, as_pipe};
ghost use Rattle.tl_ring.specs.Pipe.{IsReady};
ghost use Rattle.tl_ring.specs.declared.queue.TheConstants.{STAGE_CAPACITY};
ghost use Rattle.tl_sides.specs.Calls.{OffersBeat, ClosesChannel, TakesBeat};
ghost use Rattle.tl_sides.specs.Ends.{Pumps, Fetches, IsIdle, pump_count, fetch_count};
ghost use Rattle.tl_sides.specs.Receipts.{ClientIsSentOut, ClientLeaves, LeftShowsClient, AreManagersReceipts, ShowsManager, ManagerIsShown, CountClient, client_totals};
ghost use Rattle.tl_sides.specs.Sides.{ClientPast, ClientStandsFor, ManagerPast, ManagerState, AreSides, client_pumps, client_takes_b, client_takes_d};
ghost use Rattle.tl_sides.specs.Sides.{client_side};
ghost use Rattle.tl_sides.specs.Ports.{sends_a, sends_c, sends_e, takes_b, takes_d};

use crate::client_port::ClientPort;
use crate::offering::{offer_alone, offer_request};
use crate::per_channel::PerChannel;
use crate::receipts::{FinishedClient, ManagerReceipt};
use crate::taking::take_response;
use std::alloc::{Allocator, Global};
use std::marker::Model;
use tl_msg::{BeatOf, ChA, ChB, ChC, ChD, ChE, HeadA, HeadB, HeadC, HeadD, HeadE, SideFault};
use tl_ring::{
    EndFault, RingReader, SendHalf, TakeEnd, finish, is_drained, receive, send_staged, taken_count,
};

/// The client's side of the bridge, on a bus of `C` bytes. It offers beats of A, C and E, and takes
/// those of B and D.
///
/// Between an offer and a take are a stage, a ring and an inbox: `pump` moves beats from this
/// side's stages into its rings, and `fetch` from the other side's rings into this side's inboxes.
/// Stage and inbox hold [`tl_ring::STAGE_CAPACITY`] beats each. No call waits for the other side.
///
/// A source is busy from the first accepted beat of its request on A until this side takes the
/// first beat of the response (TileLink: source and size of responses; the moments at which a
/// source is busy: this project's choice).
#[derive(Drop)]
pub struct ClientSide<const C: usize, const M: usize, A: Allocator = Global> {
    pub(crate) port: ClientPort<C, M, A>,
    pub(crate) a: SendHalf<ChA, M, A>,
    pub(crate) b: RingReader<ChB, C, A>,
    pub(crate) c: SendHalf<ChC, M, A>,
    pub(crate) d: RingReader<ChD, C, A>,
    pub(crate) e: SendHalf<ChE, M, A>,
}

impl<const C: usize, const M: usize, A: Allocator> Model for ClientSide<C, M, A> {
    ghost use Rattle.tl_sides.specs.Sides.{ClientState, client_state_of};

    ghost Value = { ClientState A C M };

    ghost view = { λ s. client_state_of s.port s.a s.b.half s.c s.d.half s.e };
}

impl<const C: usize, const M: usize, A: Allocator> ClientSide<C, M, A> {
    /// Returns whether a beat of A may be offered: nothing of A is staged, and the channel is not
    /// closed.
    pub fn ready_a(&self) -> bool
        ensures { IsTrue result ↔ IsReady (as_pipe self.now.a) }
    {
        self.port.a.ready()
    }

    /// Returns whether a beat of C may be offered: nothing of C is staged, and the channel is not
    /// closed.
    pub fn ready_c(&self) -> bool
        ensures { IsTrue result ↔ IsReady (as_pipe self.now.c) }
    {
        self.port.c.ready()
    }

    /// Returns whether a beat of E may be offered: nothing of E is staged, and the channel is not
    /// closed.
    pub fn ready_e(&self) -> bool
        ensures { IsTrue result ↔ IsReady (as_pipe self.now.e) }
    {
        self.port.e.ready()
    }

    /// Offers a beat of A. If it is accepted, the far beats that it completes, at most
    /// [`tl_ring::STAGE_CAPACITY`], are staged, and a first beat makes its source busy.
    ///
    /// Errors: the beat's own fault; otherwise `SourceBusy` if and only if the beat is the first of
    /// a message whose source is busy. Nothing changes then. Requires: `C` and `M` are widths, and
    /// A is ready.
    pub fn offer_a(&mut self, beat: BeatOf<HeadA, C>) -> Result<(), SideFault>
        requires near { IsWidth C }
        requires far { IsWidth M }
        requires ready { IsReady (as_pipe self.old.a) }
        ensures { OffersBeat (sends_a client_side) beat.entry self.old result self.new }
    {
        offer_request(&mut self.port.book, &mut self.port.a, &beat)
    }

    /// Offers a beat of C. If it is accepted, the far beats that it completes, at most
    /// [`tl_ring::STAGE_CAPACITY`], are staged.
    ///
    /// Errors: the beat's own fault, and only that; the side is then unchanged. Requires: `C` and
    /// `M` are widths, and C is ready.
    pub fn offer_c(&mut self, beat: BeatOf<HeadC, C>) -> Result<(), SideFault>
        requires near { IsWidth C }
        requires far { IsWidth M }
        requires ready { IsReady (as_pipe self.old.c) }
        ensures { OffersBeat (sends_c client_side) beat.entry self.old result self.new }
    {
        offer_alone(&mut self.port.c, &beat)
    }

    /// Offers a beat of E, and stages the far beat. No beat of E has a fault. Requires: `C` and `M`
    /// are widths, and E is ready.
    pub fn offer_e(&mut self, beat: BeatOf<HeadE, C>) -> Result<(), SideFault>
        requires near { IsWidth C }
        requires far { IsWidth M }
        requires ready { IsReady (as_pipe self.old.e) }
        ensures { OffersBeat (sends_e client_side) beat.entry self.old result self.new }
    {
        offer_alone(&mut self.port.e, &beat)
    }

    /// Removes and returns the first beat of B's inbox, which is lawful at `C` bytes. Returns
    /// `None` if and only if the inbox is empty.
    pub fn take_b(&mut self) -> Option<BeatOf<HeadB, C>>
        ensures { TakesBeat (takes_b client_side) self.old result self.new }
    {
        self.port.b.take()
    }

    /// Removes and returns the first beat of D's inbox, which is lawful at `C` bytes. Returns
    /// `None` if and only if the inbox is empty. The first beat of a response, that is, of any
    /// message except ReleaseAck, frees its source. Requires: `C` is a width.
    pub fn take_d(&mut self) -> Option<BeatOf<HeadD, C>>
        requires far { IsWidth C }
        ensures { TakesBeat (takes_d client_side) self.old result self.new }
    {
        take_response(&mut self.port.book, &mut self.port.d)
    }

    /// Returns the beats of B's inbox, in order, for use with [`ClientSide::take_all`].
    pub fn inbox_b(&self) -> &[BeatOf<HeadB, C>]
        ensures { result.now ≡ self.now.b.inbox }
    {
        self.port.b.as_slice()
    }

    /// Returns the beats of D's inbox, in order, for use with [`ClientSide::take_all`].
    pub fn inbox_d(&self) -> &[BeatOf<HeadD, C>]
        ensures { result.now ≡ self.now.d.inbox }
    {
        self.port.d.as_slice()
    }

    /// Takes all beats of its inboxes, those that [`ClientSide::inbox_b`] and its siblings return.
    /// Has the effect of `take_x` on each channel until its inbox is empty. Requires: `C` is a
    /// width.
    pub fn take_all(&mut self)
        requires { IsWidth C }
        // for every past that the side represents
        ensures taken { (x : ClientPast C M) → ClientStandsFor self.old x →
            ClientStandsFor self.new (client_takes_d self.old.d.inbox (client_takes_b self.old.b.inbox x)) }
        // for every side
        ensures rest { self.new ≡
            record self.old { b = record self.old.b { inbox = [] }; d = record self.old.d { inbox = [] }; book = self.new.book } }
    {
        self.port.take_all();
    }

    /// Ends the offers of A. Beats in the stage stay there, and still cross. Closing again returns
    /// `Ok` and changes nothing.
    ///
    /// Errors: `MidBurst` if and only if a burst is unfinished; nothing changes then.
    pub fn close_a(&mut self) -> Result<(), EndFault>
        ensures { ClosesChannel (sends_a client_side) self.old result self.new }
    {
        self.port.a.close()
    }

    /// Ends the offers of C. Beats in the stage stay there, and still cross. Closing again returns
    /// `Ok` and changes nothing.
    ///
    /// Errors: `MidBurst` if and only if a burst is unfinished; nothing changes then.
    pub fn close_c(&mut self) -> Result<(), EndFault>
        ensures { ClosesChannel (sends_c client_side) self.old result self.new }
    {
        self.port.c.close()
    }

    /// Ends the offers of E. Beats in the stage stay there, and still cross. Closing again returns
    /// `Ok` and changes nothing.
    ///
    /// Errors: `MidBurst` if and only if a burst is unfinished; nothing changes then.
    pub fn close_e(&mut self) -> Result<(), EndFault>
        ensures { ClosesChannel (sends_e client_side) self.old result self.new }
    {
        self.port.e.close()
    }

    /// Moves staged beats into the rings on each channel that this side sends. Returns their total
    /// number. On each channel it moves at least all beats that are known to fit.
    pub fn pump(&mut self) -> usize
        ensures total { result ≡ pump_count self.old.a self.new.a +
            pump_count self.old.c self.new.c + pump_count self.old.e self.new.e }
        ensures most { result ≤ 3 * STAGE_CAPACITY }
        ensures a { Pumps self.old.a self.new.a }
        ensures c { Pumps self.old.c self.new.c }
        ensures e { Pumps self.old.e self.new.e }
        ensures rest { self.new ≡
            record self.old { a = self.new.a; c = self.new.c; e = self.new.e } }
        // for every past that the side represents
        ensures stands { (x : ClientPast C M) → ClientStandsFor self.old x →
            ClientStandsFor self.new (client_pumps self.old self.new x) }
    {
        let clock = self.d.half.clock();
        let a = send_staged(&mut self.port.a, &mut self.a, clock);
        let c = send_staged(&mut self.port.c, &mut self.c, clock);
        let e = send_staged(&mut self.port.e, &mut self.e, clock);
        a + c + e
    }

    /// Moves beats from the rings into the inboxes on each channel that this side takes. Returns
    /// their total number. On each channel it moves at least all beats that are known to be in the
    /// ring, up to the free places of the inbox.
    pub fn fetch(&mut self) -> usize
        ensures total { result ≡
            fetch_count self.old.b self.new.b + fetch_count self.old.d self.new.d }
        ensures most { result ≤ 2 * STAGE_CAPACITY }
        ensures b { Fetches self.old.b self.new.b }
        ensures d { Fetches self.old.d self.new.d }
        ensures rest { self.new ≡ record self.old { b = self.new.b; d = self.new.d } }
        // for every past that the side represents
        ensures stands { (x : ClientPast C M) → ClientStandsFor self.old x →
            ClientStandsFor self.new x }
    {
        let b = receive(&mut self.b, &mut self.port.b);
        let d = receive(&mut self.d, &mut self.port.d);
        b + d
    }

    /// Returns whether the side may finish: A, C and E are closed, and nothing of them is staged.
    pub fn is_sent_out(&self) -> bool
        ensures { IsTrue result ↔ ClientIsSentOut self.now }
    {
        self.port.a.is_sent_out() & self.port.c.is_sent_out() & self.port.e.is_sent_out()
    }

    /// Ends the sending. Returns the ends that still take beats of B and D, and a receipt for each
    /// channel that was sent, which shows the manager's side all beats that were sent. It is `None`
    /// if the other side was dropped (no contract says so); beats that were sent can still be
    /// fetched.
    /// Requires: A, C and E are closed and nothing of them is staged.
    pub fn finish(self) -> FinishedClient<C, M, A>
        requires { ClientIsSentOut self }
        ensures takes { (result.b ≡ self.b) × (result.d ≡ self.d) }
        // the other side of the same bridge can be asked with them
        ensures taker { (t : ManagerState A C M) → AreSides self t → ClientLeaves result t }
        // for every past that the side represents
        ensures shows { (x : ClientPast C M) → ClientStandsFor self x → LeftShowsClient result x }
    {
        let ClientSide {
            port,
            a,
            b,
            c,
            d,
            e,
        } = self;
        let ClientPort {
            a: out_a,
            b: in_b,
            c: out_c,
            d: in_d,
            e: out_e,
            book: _,
        } = port;
        FinishedClient {
            a: finish(out_a, a),
            b: TakeEnd::from_parts(in_b, b),
            c: finish(out_c, c),
            d: TakeEnd::from_parts(in_d, d),
            e: finish(out_e, e),
        }
    }

    /// Returns whether this side has taken all beats that the manager's side sent. The beats taken,
    /// followed by those in the inboxes and in the rings, are the far layout of all accepted beats
    /// of the other side, each beat once, in order. This side then knows every beat in its rings.
    /// No beat moves. Requires: the receipt is the one of the other side of this bridge.
    pub fn drained(&mut self, receipt: &mut ManagerReceipt<C, M, A>) -> bool
        requires { AreManagersReceipts receipt.old self.old }
        ensures b { LookedAfter receipt.old.b self.old.b receipt.new.b self.new.b }
        ensures d { LookedAfter receipt.old.d self.old.d receipt.new.d self.new.d }
        ensures rest { self.new ≡ record self.old { b = self.new.b; d = self.new.d } }
        ensures drained { IsTrue result ↔ (IsIdle self.new.b × IsIdle self.new.d) }
        // for every past that the receipt shows, and every past that this side represents
        ensures shown { (y : ManagerPast C M) (x : ClientPast C M) → ShowsManager receipt.old y →
            ClientStandsFor self.old x → ManagerIsShown receipt.new self.new y x }
    {
        let b = is_drained(&mut self.b, &self.port.b, &mut receipt.b);
        let d = is_drained(&mut self.d, &self.port.d, &mut receipt.d);
        b & d
    }

    /// Returns how many beats this side has sent on A, C and E, and how many were taken from it on
    /// B and D. Each number is exact if it is below 2^63.
    pub fn totals(&self) -> PerChannel<u64>
        ensures totals { result ≡ client_totals self.now }
        // for every past that the side represents
        ensures exact { (x : ClientPast C M) → ClientStandsFor self.now x → CountClient result x }
    {
        PerChannel {
            a: self.a.count(),
            b: taken_count(&self.b, &self.port.b),
            c: self.c.count(),
            d: taken_count(&self.d, &self.port.d),
            e: self.e.count(),
        }
    }
}
