//! The manager's side of the bridge.
ghost use Rattle.std.specs.Prelude.{◌≡◌, ◌+◌, ◌*◌, ◌≤◌, ◌↔◌, [], take, IsTrue};
ghost use Rattle.tl_lanes.specs.Lanes.{IsWidth};
ghost use Rattle.tl_ring.specs.Ends.{LookedAfter, as_pipe};
ghost use Rattle.tl_ring.specs.Pipe.{IsReady};
ghost use Rattle.tl_ring.specs.declared.queue.TheConstants.{STAGE_CAPACITY};
ghost use Rattle.tl_sides.specs.Calls.{OffersBeat, ClosesChannel, TakesBeat};
ghost use Rattle.tl_sides.specs.Ends.{Pumps, Fetches, IsIdle, pump_count, fetch_count};
ghost use Rattle.tl_sides.specs.Receipts.{ManagerIsSentOut, ManagerLeaves, LeftShowsManager, AreClientsReceipts, ShowsClient, ClientIsShown, CountManager, manager_totals};
ghost use Rattle.tl_sides.specs.Sides.{ManagerPast, ManagerStandsFor, ClientPast, ClientState, AreSides, manager_pumps, manager_takes_a, manager_takes_c, manager_takes_e};
ghost use Rattle.tl_sides.specs.Sides.{manager_side};
ghost use Rattle.tl_sides.specs.Ports.{sends_b, sends_d, takes_a, takes_c, takes_e};

use crate::manager_port::ManagerPort;
use crate::offering::{offer_alone, offer_response};
use crate::per_channel::PerChannel;
use crate::receipts::{ClientReceipt, FinishedManager};
use crate::taking::take_request;
use std::alloc::{Allocator, Global};
use std::marker::Model;
use tl_msg::{BeatOf, ChA, ChB, ChC, ChD, ChE, HeadA, HeadB, HeadC, HeadD, HeadE, SideFault};
use tl_ring::{
    EndFault, RingReader, SendHalf, TakeEnd, finish, is_drained, receive, send_staged, taken_count,
};

/// The manager's side of the bridge, on a bus of `M` bytes. It offers beats of B and D, and takes
/// those of A, C and E.
///
/// Between an offer and a take are a stage, a ring and an inbox: `pump` moves beats from this
/// side's stages into its rings, and `fetch` from the other side's rings into this side's inboxes.
/// Stage and inbox hold [`tl_ring::STAGE_CAPACITY`] beats each. No call waits for the other side.
///
/// A response may be offered once this side has taken the first beat of its request. It has the
/// request's size, and its lanes are given by the request's address. ReleaseAck responds to no
/// request (TileLink: source and size of responses; the moments at which a request is outstanding:
/// this project's choice).
#[derive(Drop)]
pub struct ManagerSide<const C: usize, const M: usize, A: Allocator = Global> {
    pub(crate) port: ManagerPort<C, M, A>,
    pub(crate) a: RingReader<ChA, M, A>,
    pub(crate) b: SendHalf<ChB, C, A>,
    pub(crate) c: RingReader<ChC, M, A>,
    pub(crate) d: SendHalf<ChD, C, A>,
    pub(crate) e: RingReader<ChE, M, A>,
}

impl<const C: usize, const M: usize, A: Allocator> Model for ManagerSide<C, M, A> {
    ghost use Rattle.tl_sides.specs.Sides.{ManagerState, manager_state_of};

    ghost Value = { ManagerState A C M };

    ghost view = { λ s. manager_state_of s.port s.a.half s.b s.c.half s.d s.e.half };
}

impl<const C: usize, const M: usize, A: Allocator> ManagerSide<C, M, A> {
    /// Returns whether a beat of B may be offered: nothing of B is staged, and the channel is not
    /// closed.
    pub fn ready_b(&self) -> bool
        ensures { IsTrue result ↔ IsReady (as_pipe self.now.b) }
    {
        self.port.b.ready()
    }

    /// Returns whether a beat of D may be offered: nothing of D is staged, and the channel is not
    /// closed.
    pub fn ready_d(&self) -> bool
        ensures { IsTrue result ↔ IsReady (as_pipe self.now.d) }
    {
        self.port.d.ready()
    }

    /// Offers a beat of B. If it is accepted, the far beats that it completes, at most
    /// [`tl_ring::STAGE_CAPACITY`], are staged.
    ///
    /// Errors: the beat's own fault, and only that; the side is then unchanged. Requires: `C` and
    /// `M` are widths, and B is ready.
    pub fn offer_b(&mut self, beat: BeatOf<HeadB, M>) -> Result<(), SideFault>
        requires near { IsWidth M }
        requires far { IsWidth C }
        requires ready { IsReady (as_pipe self.old.b) }
        ensures { OffersBeat (sends_b manager_side) beat.entry self.old result self.new }
    {
        offer_alone(&mut self.port.b, &beat)
    }

    /// Offers a beat of D. If it is accepted, the far beats that it completes, at most
    /// [`tl_ring::STAGE_CAPACITY`], are staged, and a first beat ends its request, whose address is the home
    /// of the message.
    ///
    /// Errors: the beat's own fault; otherwise, for the first beat of any message except
    /// ReleaseAck, `NoRequest` if and only if its source has no outstanding request, and
    /// `SizeMismatch` if and only if that request has another size. Nothing changes then. Requires:
    /// `C` and `M` are widths, and D is ready.
    pub fn offer_d(&mut self, beat: BeatOf<HeadD, M>) -> Result<(), SideFault>
        requires near { IsWidth M }
        requires far { IsWidth C }
        requires ready { IsReady (as_pipe self.old.d) }
        ensures { OffersBeat (sends_d manager_side) beat.entry self.old result self.new }
    {
        offer_response(&mut self.port.book, &mut self.port.d, &beat)
    }

    /// Removes and returns the first beat of A's inbox, which is lawful at `M` bytes. Returns
    /// `None` if and only if the inbox is empty. A first beat begins its request, to which the side
    /// may respond from now on. Requires: `M` is a width.
    pub fn take_a(&mut self) -> Option<BeatOf<HeadA, M>>
        requires far { IsWidth M }
        ensures { TakesBeat (takes_a manager_side) self.old result self.new }
    {
        take_request(&mut self.port.book, &mut self.port.a)
    }

    /// Removes and returns the first beat of C's inbox, which is lawful at `M` bytes. Returns
    /// `None` if and only if the inbox is empty.
    pub fn take_c(&mut self) -> Option<BeatOf<HeadC, M>>
        ensures { TakesBeat (takes_c manager_side) self.old result self.new }
    {
        self.port.c.take()
    }

    /// Removes and returns the first beat of E's inbox, which is lawful at `M` bytes. Returns
    /// `None` if and only if the inbox is empty.
    pub fn take_e(&mut self) -> Option<BeatOf<HeadE, M>>
        ensures { TakesBeat (takes_e manager_side) self.old result self.new }
    {
        self.port.e.take()
    }

    /// Returns the beats of A's inbox, in order, for use with [`ManagerSide::take_all`].
    pub fn inbox_a(&self) -> &[BeatOf<HeadA, M>]
        ensures { result.now ≡ self.now.a.inbox }
    {
        self.port.a.as_slice()
    }

    /// Returns the beats of C's inbox, in order, for use with [`ManagerSide::take_all`].
    pub fn inbox_c(&self) -> &[BeatOf<HeadC, M>]
        ensures { result.now ≡ self.now.c.inbox }
    {
        self.port.c.as_slice()
    }

    /// Returns the beats of E's inbox, in order, for use with [`ManagerSide::take_all`].
    pub fn inbox_e(&self) -> &[BeatOf<HeadE, M>]
        ensures { result.now ≡ self.now.e.inbox }
    {
        self.port.e.as_slice()
    }

    /// Takes all beats of its inboxes, those that [`ManagerSide::inbox_a`] and its siblings return.
    /// Has the effect of `take_x` on each channel until its inbox is empty. Requires: `M` is a
    /// width.
    pub fn take_all(&mut self)
        requires { IsWidth M }
        // for every past that the side represents
        ensures taken { (x : ManagerPast C M) → ManagerStandsFor self.old x →
            ManagerStandsFor self.new (manager_takes_e self.old.e.inbox (manager_takes_c self.old.c.inbox (manager_takes_a self.old.a.inbox x))) }
        // for every side
        ensures rest { self.new ≡
            record self.old { a = record self.old.a { inbox = [] }; c = record self.old.c { inbox = [] }; e = record self.old.e { inbox = [] }; book = self.new.book } }
    {
        self.port.take_all();
    }

    /// Ends the offers of B. Beats in the stage stay there, and still cross. Closing again returns
    /// `Ok` and changes nothing.
    ///
    /// Errors: `MidBurst` if and only if a burst is unfinished; nothing changes then.
    pub fn close_b(&mut self) -> Result<(), EndFault>
        ensures { ClosesChannel (sends_b manager_side) self.old result self.new }
    {
        self.port.b.close()
    }

    /// Ends the offers of D. Beats in the stage stay there, and still cross. Closing again returns
    /// `Ok` and changes nothing.
    ///
    /// Errors: `MidBurst` if and only if a burst is unfinished; nothing changes then.
    pub fn close_d(&mut self) -> Result<(), EndFault>
        ensures { ClosesChannel (sends_d manager_side) self.old result self.new }
    {
        self.port.d.close()
    }

    /// Moves staged beats into the rings on each channel that this side sends. Returns their total
    /// number. On each channel it moves at least all beats that are known to fit.
    pub fn pump(&mut self) -> usize
        ensures total { result ≡
            pump_count self.old.b self.new.b + pump_count self.old.d self.new.d }
        ensures most { result ≤ 2 * STAGE_CAPACITY }
        ensures b { Pumps self.old.b self.new.b }
        ensures d { Pumps self.old.d self.new.d }
        ensures rest { self.new ≡ record self.old { b = self.new.b; d = self.new.d } }
        // for every past that the side represents
        ensures stands { (x : ManagerPast C M) → ManagerStandsFor self.old x →
            ManagerStandsFor self.new (manager_pumps self.old self.new x) }
    {
        let clock = self.a.half.clock();
        let b = send_staged(&mut self.port.b, &mut self.b, clock);
        let d = send_staged(&mut self.port.d, &mut self.d, clock);
        b + d
    }

    /// Moves beats from the rings into the inboxes on each channel that this side takes. Returns
    /// their total number. On each channel it moves at least all beats that are known to be in the
    /// ring, up to the free places of the inbox.
    pub fn fetch(&mut self) -> usize
        ensures total { result ≡ fetch_count self.old.a self.new.a +
            fetch_count self.old.c self.new.c + fetch_count self.old.e self.new.e }
        ensures most { result ≤ 3 * STAGE_CAPACITY }
        ensures a { Fetches self.old.a self.new.a }
        ensures c { Fetches self.old.c self.new.c }
        ensures e { Fetches self.old.e self.new.e }
        ensures rest { self.new ≡
            record self.old { a = self.new.a; c = self.new.c; e = self.new.e } }
        // for every past that the side represents
        ensures stands { (x : ManagerPast C M) → ManagerStandsFor self.old x →
            ManagerStandsFor self.new x }
    {
        let a = receive(&mut self.a, &mut self.port.a);
        let c = receive(&mut self.c, &mut self.port.c);
        let e = receive(&mut self.e, &mut self.port.e);
        a + c + e
    }

    /// Returns whether the side may finish: B and D are closed, and nothing of them is staged.
    pub fn is_sent_out(&self) -> bool
        ensures { IsTrue result ↔ ManagerIsSentOut self.now }
    {
        self.port.b.is_sent_out() & self.port.d.is_sent_out()
    }

    /// Ends the sending. Returns the ends that still take beats of A, C and E, and a receipt for
    /// each channel that was sent, which shows the client's side all beats that were sent. It is
    /// `None` if the other side was dropped (no contract says so); beats that were sent can still be
    /// fetched.
    /// Requires: B and D are closed and nothing of them is staged.
    pub fn finish(self) -> FinishedManager<C, M, A>
        requires { ManagerIsSentOut self }
        ensures takes { (result.a ≡ self.a) × (result.c ≡ self.c) × (result.e ≡ self.e) }
        // the other side of the same bridge can be asked with them
        ensures taker { (s : ClientState A C M) → AreSides s self → ManagerLeaves result s }
        // for every past that the side represents
        ensures shows { (y : ManagerPast C M) → ManagerStandsFor self y → LeftShowsManager result y }
    {
        let ManagerSide {
            port,
            a,
            b,
            c,
            d,
            e,
        } = self;
        let ManagerPort {
            a: in_a,
            b: out_b,
            c: in_c,
            d: out_d,
            e: in_e,
            book: _,
        } = port;
        FinishedManager {
            a: TakeEnd::from_parts(in_a, a),
            b: finish(out_b, b),
            c: TakeEnd::from_parts(in_c, c),
            d: finish(out_d, d),
            e: TakeEnd::from_parts(in_e, e),
        }
    }

    /// Returns whether this side has taken all beats that the client's side sent. The beats taken,
    /// followed by those in the inboxes and in the rings, are the far layout of all accepted beats
    /// of the other side, each beat once, in order. This side then knows every beat in its rings.
    /// No beat moves. Requires: the receipt is the one of the other side of this bridge.
    pub fn drained(&mut self, receipt: &mut ClientReceipt<C, M, A>) -> bool
        requires { AreClientsReceipts receipt.old self.old }
        ensures a { LookedAfter receipt.old.a self.old.a receipt.new.a self.new.a }
        ensures c { LookedAfter receipt.old.c self.old.c receipt.new.c self.new.c }
        ensures e { LookedAfter receipt.old.e self.old.e receipt.new.e self.new.e }
        ensures rest { self.new ≡
            record self.old { a = self.new.a; c = self.new.c; e = self.new.e } }
        ensures drained { IsTrue result ↔ (IsIdle self.new.a × IsIdle self.new.c × IsIdle self.new.e) }
        // for every past that the receipt shows, and every past that this side represents
        ensures shown { (x : ClientPast C M) (y : ManagerPast C M) → ShowsClient receipt.old x →
            ManagerStandsFor self.old y → ClientIsShown receipt.new self.new x y }
    {
        let a = is_drained(&mut self.a, &self.port.a, &mut receipt.a);
        let c = is_drained(&mut self.c, &self.port.c, &mut receipt.c);
        let e = is_drained(&mut self.e, &self.port.e, &mut receipt.e);
        a & c & e
    }

    /// Returns how many beats this side has sent on B and D, and how many were taken from it on
    /// A, C and E. Each number is exact if it is below 2^63.
    pub fn totals(&self) -> PerChannel<u64>
        ensures totals { result ≡ manager_totals self.now }
        // for every past that the side represents
        ensures exact { (y : ManagerPast C M) → ManagerStandsFor self.now y → CountManager result y }
    {
        PerChannel {
            a: taken_count(&self.a, &self.port.a),
            b: self.b.count(),
            c: taken_count(&self.c, &self.port.c),
            d: self.d.count(),
            e: taken_count(&self.e, &self.port.e),
        }
    }
}
