//! Offers of the next beat of a list, by the calls of its channel.
ghost use Rattle.std.specs.Prelude.{ℕ, List};
ghost use Rattle.tl_offer.specs.declared.offered.Offered.{Offered};
ghost use Rattle.tl_offer.specs.Widths.{AreWidths};
ghost use Rattle.tl_offer.specs.Offering.{OffersNext};
ghost use Rattle.tl_sides.specs.Bridges.{bridge_client, bridge_manager};
ghost use Rattle.tl_sides.specs.Ports.{sends_a, sends_b, sends_c, sends_d, sends_e};
ghost use Rattle.tl_sides.specs.Sides.{client_side, manager_side};

use crate::offered::Offered;
use tl_msg::{BeatOf, HeadA, HeadB, HeadC, HeadD, HeadE};
use tl_sides::{ClientSide, ManagerSide, SyncBridge};

// The outcome of the next beat of a list, of which `$at` were accepted, by the calls of its
// channel. (Not a generic function: its callers would have to prove the sizes of each type that
// offers.)
macro_rules! next_offer {
    ($side:ident, $beats:ident, $at:ident, $ready:ident, $offer:ident, $close:ident) => {{
        if $at >= $beats.len() {
            return Offered::from_close($side.$close());
        }
        if !$side.$ready() {
            return Offered::NotReady;
        }
        Offered::from_offer($side.$offer($beats[$at]))
    }};
}

/// A holder that offers beats `B` on one of its channels, one after another: a bridge in one
/// thread, or a side in its own.
pub trait Offers<B> {
    // whether it may offer
    ghost CanOffer: { Type 0 };

    // `new` is `old` after the next beat of a list, of which `at` were accepted before, was offered
    // with this outcome
    ghost Becomes: { (beats : List B) → (at : ℕ) → (old : Self) → Offered → (new : Self) → Type 0 };

    /// Offers the next beat of a list, of which `at` were accepted, if the channel is ready. If no
    /// beat is left, closes the channel (this project's choice). Returns the outcome.
    fn offer_next(&mut self, beats: &[B], at: usize) -> Offered
        requires { CanOffer }
        ensures { Becomes beats.now at self.old result self.new };
}

impl<const C: usize, const M: usize> Offers<BeatOf<HeadA, C>> for SyncBridge<C, M> {
    ghost CanOffer = { AreWidths C M };

    ghost Becomes = { OffersNext (sends_a bridge_client) };

    fn offer_next(&mut self, beats: &[BeatOf<HeadA, C>], at: usize) -> Offered {
        next_offer!(self, beats, at, ready_a, offer_a, close_a)
    }
}

impl<const C: usize, const M: usize> Offers<BeatOf<HeadB, M>> for SyncBridge<C, M> {
    ghost CanOffer = { AreWidths C M };

    ghost Becomes = { OffersNext (sends_b bridge_manager) };

    fn offer_next(&mut self, beats: &[BeatOf<HeadB, M>], at: usize) -> Offered {
        next_offer!(self, beats, at, ready_b, offer_b, close_b)
    }
}

impl<const C: usize, const M: usize> Offers<BeatOf<HeadC, C>> for SyncBridge<C, M> {
    ghost CanOffer = { AreWidths C M };

    ghost Becomes = { OffersNext (sends_c bridge_client) };

    fn offer_next(&mut self, beats: &[BeatOf<HeadC, C>], at: usize) -> Offered {
        next_offer!(self, beats, at, ready_c, offer_c, close_c)
    }
}

impl<const C: usize, const M: usize> Offers<BeatOf<HeadD, M>> for SyncBridge<C, M> {
    ghost CanOffer = { AreWidths C M };

    ghost Becomes = { OffersNext (sends_d bridge_manager) };

    fn offer_next(&mut self, beats: &[BeatOf<HeadD, M>], at: usize) -> Offered {
        next_offer!(self, beats, at, ready_d, offer_d, close_d)
    }
}

impl<const C: usize, const M: usize> Offers<BeatOf<HeadE, C>> for SyncBridge<C, M> {
    ghost CanOffer = { AreWidths C M };

    ghost Becomes = { OffersNext (sends_e bridge_client) };

    fn offer_next(&mut self, beats: &[BeatOf<HeadE, C>], at: usize) -> Offered {
        next_offer!(self, beats, at, ready_e, offer_e, close_e)
    }
}

impl<const C: usize, const M: usize> Offers<BeatOf<HeadA, C>> for ClientSide<C, M> {
    ghost CanOffer = { AreWidths C M };

    ghost Becomes = { OffersNext (sends_a client_side) };

    fn offer_next(&mut self, beats: &[BeatOf<HeadA, C>], at: usize) -> Offered {
        next_offer!(self, beats, at, ready_a, offer_a, close_a)
    }
}

impl<const C: usize, const M: usize> Offers<BeatOf<HeadC, C>> for ClientSide<C, M> {
    ghost CanOffer = { AreWidths C M };

    ghost Becomes = { OffersNext (sends_c client_side) };

    fn offer_next(&mut self, beats: &[BeatOf<HeadC, C>], at: usize) -> Offered {
        next_offer!(self, beats, at, ready_c, offer_c, close_c)
    }
}

impl<const C: usize, const M: usize> Offers<BeatOf<HeadE, C>> for ClientSide<C, M> {
    ghost CanOffer = { AreWidths C M };

    ghost Becomes = { OffersNext (sends_e client_side) };

    fn offer_next(&mut self, beats: &[BeatOf<HeadE, C>], at: usize) -> Offered {
        next_offer!(self, beats, at, ready_e, offer_e, close_e)
    }
}

impl<const C: usize, const M: usize> Offers<BeatOf<HeadB, M>> for ManagerSide<C, M> {
    ghost CanOffer = { AreWidths C M };

    ghost Becomes = { OffersNext (sends_b manager_side) };

    fn offer_next(&mut self, beats: &[BeatOf<HeadB, M>], at: usize) -> Offered {
        next_offer!(self, beats, at, ready_b, offer_b, close_b)
    }
}

impl<const C: usize, const M: usize> Offers<BeatOf<HeadD, M>> for ManagerSide<C, M> {
    ghost CanOffer = { AreWidths C M };

    ghost Becomes = { OffersNext (sends_d manager_side) };

    fn offer_next(&mut self, beats: &[BeatOf<HeadD, M>], at: usize) -> Offered {
        next_offer!(self, beats, at, ready_d, offer_d, close_d)
    }
}
