//! The book of each side of the bridge: its knowledge of the history of its own beats of A and D.
ghost use Rattle.std.specs.Prelude.{◌≡◌, ◌++◌, ◌∷◌, [], List, Ok, true, false, cond, Some, None, IfOk, IfErr};
ghost use Rattle.std.specs.Option.{is_some};
ghost use Rattle.tl_lanes.specs.Lanes.{IsWidth};
ghost use Rattle.tl_msg.specs.Tables.{rules_a, rules_d};
ghost use Rattle.tl_msg.specs.declared.head.HeadA.{HeadA};
ghost use Rattle.tl_msg.specs.declared.head.HeadD.{HeadD};
ghost use Rattle.tl_msg.specs.declared.beat.BeatOf.{BeatOf};
ghost use Rattle.tl_burst.specs.Begun.{left};
ghost use Rattle.tl_settle.specs.Requests.{is_release_ack};
ghost use Rattle.tl_settle.specs.Histories.{Event, Ask, Answer, Mark, Asks, Answers, answered, manager_home, open_request, home_after};
ghost use Rattle.tl_settle.specs.Tables.{AreBusy, AreOpen};
ghost use Rattle.tl_settle.specs.Books.{KnowsClient, KnowsManager, IsChecked, Admits, client_decides, manager_decides};
ghost use Rattle.tl_settle.specs.Inner.Noting.{begun_with, stops_response};

use crate::tables::{Request, RequestTable, SourceTable};
use std::alloc::{Allocator, Global};
use std::marker::Model;
use tl_burst::{BurstCounter, Place};
use tl_msg::{BeatFault, ChA, ChD, HeadA, HeadD, OutOfMemory, SideFault};

/// The opcode of ReleaseAck, which responds to a message of channel C and not to a request
/// (TileLink: opcode tables).
const RELEASE_ACK: u8 = 6;

/// The book of the client's side, on a bus of `C` bytes: which sources are busy, and its position
/// in the responses on D. It decides whether a request is accepted. The owner of the side's ends of
/// A and D calls it once for each beat of A offered and each beat of D taken.
///
/// A source is busy from the first beat of its request, accepted on A, until the first beat of the
/// response is taken on D (TileLink: source of requests; the moments: this project's choice).
#[derive(Drop)]
pub struct ClientBook<const C: usize, A: Allocator = Global> {
    sources: SourceTable<A>,
    responses: BurstCounter<ChD, C>,
}

impl<const C: usize, A: Allocator> Model for ClientBook<C, A> {
    ghost use Rattle.tl_settle.specs.Books.{Client};

    ghost Value = { Client };

    ghost view = { λ b. record { sources = b.sources; lacking = b.responses } };
}

impl<const C: usize, A: Allocator> ClientBook<C, A> {
    /// Creates the book of a side that has accepted and taken nothing yet. Errors: `OutOfMemory` if
    /// the allocator fails for its table.
    pub fn new(alloc: A) -> Result<Self, OutOfMemory>
        ensures { IfOk result (λ book. KnowsClient {w = C} book []) }
    {
        let sources = SourceTable::new(alloc)?;
        Ok(ClientBook {
            sources,
            responses: BurstCounter::new(),
        })
    }

    /// Decides whether a beat of A is accepted, from the result of its tracker, and records an
    /// accepted beat. Returns its place in its message.
    ///
    /// Errors: the beat's own fault; otherwise `SourceBusy` if and only if the beat is the first of
    /// a message whose source is busy. Nothing changes then.
    // inlined, like the check whose large result it reads
    #[inline(always)]
    pub fn admit(&mut self, checked: Result<Place<ChA>, BeatFault>) -> Result<Place<ChA>, SideFault>
        ensures admits { Admits {w = C} client_decides checked self.old result self.new }
        ensures place { IfOk result (λ place. checked ≡ Ok place) }
    {
        let place = match checked {
            Ok(place) => place,
            Err(fault) => return Err(SideFault::Beat(fault)),
        };
        let first = place.index == 0;
        if is_taken(&self.sources, &place.head, first) {
            return Err(SideFault::SourceBusy);
        }
        note_asked(&mut self.sources, &place.head, first);
        Ok(place)
    }

    /// Records that the side takes a beat of D with this head. Requires: `C` is a width, and the
    /// head has no fault.
    pub fn record_response(&mut self, head: &HeadD)
        requires width { IsWidth C }
        requires lawful { rules_d.fault head.now ≡ None }
        ensures { (es : List (Event C)) (b : BeatOf HeadD C) → KnowsClient self.old es →
            b.head ≡ head.now →
            KnowsClient self.new (es ++ Answer b ∷ []) }
    {
        let first = self.responses.first();
        self.responses.pass(head);
        note_answered(&mut self.sources, head, first);
    }
}

/// The book of the manager's side, on a bus of `M` bytes: the outstanding requests, and its
/// position in the requests on A. It decides whether a response is accepted, and at which address
/// it is. The owner of the side's ends of A and D calls it once for each beat of A taken and each
/// beat of D offered.
///
/// A request is outstanding from its first beat, taken on A, until the first beat of the response
/// is accepted on D (TileLink: source and size of responses; the moments: this project's choice).
#[derive(Drop)]
pub struct ManagerBook<const M: usize, A: Allocator = Global> {
    requests: RequestTable<A>,
    asks: BurstCounter<ChA, M>,
}

impl<const M: usize, A: Allocator> Model for ManagerBook<M, A> {
    ghost use Rattle.tl_settle.specs.Books.{Manager};

    ghost Value = { Manager };

    ghost view = { λ b. record { requests = b.requests; lacking = b.asks } };
}

impl<const M: usize, A: Allocator> ManagerBook<M, A> {
    /// Creates the book of a side that has accepted and taken nothing yet. Errors: `OutOfMemory` if
    /// the allocator fails for its table.
    pub fn new(alloc: A) -> Result<Self, OutOfMemory>
        ensures { IfOk result (λ book. KnowsManager {w = M} book []) }
    {
        let requests = RequestTable::new(alloc)?;
        Ok(ManagerBook {
            requests,
            asks: BurstCounter::new(),
        })
    }

    /// Decides whether a beat of D is accepted, from the result of its tracker, and records an
    /// accepted beat. Returns its place in its message and, for the first beat of a message, the
    /// message's home: the address of its request in bytes, and 0 for ReleaseAck.
    ///
    /// Errors: the beat's own fault; otherwise, for the first beat of any message except
    /// ReleaseAck, `NoRequest` if and only if its source has no outstanding request, and
    /// `SizeMismatch` if and only if that request has another size. Nothing changes then.
    // inlined, like the check whose large result it reads
    #[inline(always)]
    pub fn admit(
        &mut self,
        checked: Result<Place<ChD>, BeatFault>,
    ) -> Result<(Place<ChD>, u64), SideFault>
        ensures admits { Admits {w = M} manager_decides checked self.old result self.new }
        ensures place { IfOk result (λ given. checked ≡ Ok given.0) }
        // for every history that the book knows
        ensures home { (es : List (Event M)) (b : BeatOf HeadD M) → KnowsManager self.old es →
            IsChecked rules_d (answered es) b checked → left rules_d M (answered es) ≡ 0 →
            IfOk result (λ given. given.1 ≡ manager_home es b.head) }
    {
        let place = match checked {
            Ok(place) => place,
            Err(fault) => return Err(SideFault::Beat(fault)),
        };
        let first = place.index == 0;
        let home = match ask_for_home(&self.requests, &place.head, first) {
            Ok(home) => home,
            Err(fault) => return Err(fault),
        };
        note_response(&mut self.requests, &place.head, first);
        Ok((place, home))
    }

    /// Records that the side takes a beat of A with this head. Requires: `M` is a width, and the
    /// head has no fault.
    pub fn record_request(&mut self, head: &HeadA)
        requires width { IsWidth M }
        requires lawful { rules_a.fault head.now ≡ None }
        ensures { (es : List (Event M)) (b : BeatOf HeadA M) → KnowsManager self.old es →
            b.head ≡ head.now →
            KnowsManager self.new (es ++ Ask b ∷ []) }
    {
        let first = self.asks.first();
        self.asks.pass(head);
        note_request(&mut self.requests, head, first);
    }
}

// Returns whether a message of D is ReleaseAck, which responds to no request.
fn is_release_ack(head: &HeadD) -> bool
    ensures { result ≡ Rattle.tl_settle.specs.Requests.is_release_ack head.now }
{
    head.opcode == RELEASE_ACK
}

// Returns whether the beat is the first of a request and its source is busy.
fn is_taken<A: Allocator>(sources: &SourceTable<A>, head: &HeadA, first: bool) -> bool
    ensures { (ms : List Mark) → AreBusy sources.now ms →
        result ≡ cond first (is_some (open_request head.now.source ms)) false }
{
    first && sources.busy(head.source)
}

// Returns, for the first beat of a response, its home: the address of its request, and 0 for
// ReleaseAck. Errors: `NoRequest` or `SizeMismatch`.
fn ask_for_home<A: Allocator>(
    requests: &RequestTable<A>,
    head: &HeadD,
    first: bool,
) -> Result<u64, SideFault>
    ensures refused { (ms : List Mark) → AreOpen requests.now ms →
        IfErr result (λ fault. (first ≡ true) × (stops_response ms head.now ≡ Some fault)) }
    ensures home { (ms : List Mark) → AreOpen requests.now ms →
        IfOk result (λ home. first ≡ true →
        (stops_response ms head.now ≡ None) × (home ≡ home_after ms head.now)) }
{
    if !first || is_release_ack(head) {
        return Ok(0);
    }
    let Some(request) = requests.get(head.source) else {
        return Err(SideFault::NoRequest);
    };
    if request.size != head.size {
        return Err(SideFault::SizeMismatch);
    }
    Ok(request.address)
}

// Marks the source of a request as busy, if the beat is the first of its message.
fn note_asked<A: Allocator>(sources: &mut SourceTable<A>, head: &HeadA, first: bool)
    ensures { (ms : List Mark) → AreBusy sources.old ms →
        AreBusy sources.new (begun_with first (Asks head.now) ms) }
{
    if first {
        sources.begin(head.source);
    }
}

// Frees the source of a response, if the beat is the first of its message and not of ReleaseAck.
fn note_answered<A: Allocator>(sources: &mut SourceTable<A>, head: &HeadD, first: bool)
    ensures { (ms : List Mark) → AreBusy sources.old ms →
        AreBusy sources.new (begun_with first (Answers head.now) ms) }
{
    if first && !is_release_ack(head) {
        sources.end(head.source);
    }
}

// Enters a request, if the beat is the first of its message.
fn note_request<A: Allocator>(requests: &mut RequestTable<A>, head: &HeadA, first: bool)
    ensures { (ms : List Mark) → AreOpen requests.old ms →
        AreOpen requests.new (begun_with first (Asks head.now) ms) }
{
    if first {
        let request = Request {
            size: head.size,
            address: head.address,
        };
        requests.begin(head.source, request);
    }
}

// Removes the request of a response, if the beat is the first of its message and not of ReleaseAck.
fn note_response<A: Allocator>(requests: &mut RequestTable<A>, head: &HeadD, first: bool)
    ensures { (ms : List Mark) → AreOpen requests.old ms →
        AreOpen requests.new (begun_with first (Answers head.now) ms) }
{
    if first && !is_release_ack(head) {
        requests.end(head.source);
    }
}
