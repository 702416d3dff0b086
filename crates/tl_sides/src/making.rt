//! The parts of a new bridge: a ring for each channel, of either kind, and the books of both sides.
ghost use Rattle.std.specs.Prelude.{◌≡◌, [], ℕ};
ghost use Rattle.circular_buffer.specs.Buffer.{buffer};
ghost use Rattle.tl_ring.specs.Ends.{IsNewRing};
ghost use Rattle.tl_settle.specs.Books.{KnowsClient, KnowsManager};
ghost use Rattle.tl_sides.specs.Inner.Making.{IsMade};

use std::alloc::Allocator;
use tl_msg::Channel;
use tl_ring::{BuildFault, Ring, SendHalf, TakeHalf};
use tl_settle::{ClientBook, ManagerBook};

/// The two halves of a ring.
pub(crate) type Halves<K, const V: usize, A> = (SendHalf<K, V, A>, TakeHalf<K, V, A>);

/// A ring of a bridge that is being made: one buffer for one thread, or its two halves for two.
pub(crate) trait NewRing<A> {
    // it is new, and has a capacity of `size` beats
    ghost IsNew: { (size : ℕ) → Self → Type 0 };

    /// Creates a ring of `size` beats. Errors: those of [`Ring::new`].
    fn new_ring(alloc: A, size: usize) -> Result<Self, BuildFault>
        ensures { IsMade (λ ring. IsNew size ring) size result };

    /// Discards the ring, if the rest of the bridge cannot be made. (With a bound `Drop`, the sizes
    /// of its parts would have to be proved again.)
    fn discard(self);
}

impl<K: Channel, const V: usize, A: Allocator> NewRing<A> for Ring<K, V, A> {
    ghost IsNew = { λ size ring. ring ≡ buffer [] size };

    fn new_ring(alloc: A, size: usize) -> Result<Self, BuildFault> {
        Ring::new(alloc, size)
    }

    fn discard(self) {}
}

impl<K: Channel, const V: usize, A: Allocator + Copy> NewRing<A> for Halves<K, V, A> {
    ghost IsNew = { λ size halves. IsNewRing size halves.0 halves.1 };

    fn new_ring(alloc: A, size: usize) -> Result<Self, BuildFault> {
        tl_ring::new_ring(alloc, size)
    }

    fn discard(self) {}
}

/// The parts of a bridge: a ring for each channel, and the books of both sides.
pub(crate) type Parts<RingA, RingB, RingC, RingD, RingE, const C: usize, const M: usize, A> = (
    RingA,
    RingB,
    RingC,
    RingD,
    RingE,
    ClientBook<C, A>,
    ManagerBook<M, A>,
);

// Creates a ring for each channel, of either kind, and both books. This is all that allocates
// memory, so the caller has one return path. The function is generic in the rings, so that
// discarding some of them when the next one fails is cheap to check.
pub(crate) fn new_parts<
    const C: usize,
    const M: usize,
    A: Allocator + Copy,
    RingA: NewRing<A>,
    RingB: NewRing<A>,
    RingC: NewRing<A>,
    RingD: NewRing<A>,
    RingE: NewRing<A>,
>(alloc: A, ring: usize) -> Result<Parts<RingA, RingB, RingC, RingD, RingE, C, M, A>, BuildFault>
    ensures { IsMade (λ parts. (RingA.IsNew ring parts.0 × RingB.IsNew ring parts.1 ×
        RingC.IsNew ring parts.2 × RingD.IsNew ring parts.3 × RingE.IsNew ring parts.4) ×
        KnowsClient {w = C} parts.5 [] × KnowsManager {w = M} parts.6 []) ring result }
{
    let a = given!(RingA::new_ring(alloc, ring));
    let b = given!(RingB::new_ring(alloc, ring), a);
    let c = given!(RingC::new_ring(alloc, ring), a, b);
    let d = given!(RingD::new_ring(alloc, ring), a, b, c);
    let e = given!(RingE::new_ring(alloc, ring), a, b, c, d);
    // (one result for each book, because a result of both would be a type for each pair of widths)
    let Ok(client) = ClientBook::new(alloc) else {
        a.discard();
        b.discard();
        c.discard();
        d.discard();
        e.discard();
        return Err(BuildFault::OutOfMemory);
    };
    let Ok(manager) = ManagerBook::new(alloc) else {
        a.discard();
        b.discard();
        c.discard();
        d.discard();
        e.discard();
        return Err(BuildFault::OutOfMemory);
    };
    Ok((a, b, c, d, e, client, manager))
}
