//! Offers of a side on the channels that it sends. On A and D its book decides, and records what
//! was accepted.
ghost use Rattle.tl_lanes.specs.Lanes.{IsWidth};
ghost use Rattle.tl_ring.specs.Boxes.{IsOpen};
ghost use Rattle.tl_sides.specs.Calls.{OffersBeat};
ghost use Rattle.tl_sides.specs.Ports.{outbox_sends, sends_requests, sends_responses};

use std::alloc::Allocator;
use tl_msg::{Beat, ChA, ChD, Channel, SideFault};
use tl_ring::Outbox;
use tl_settle::{ClientBook, ManagerBook};

// Offers a beat on B, C or E. These channels do not depend on another channel.
pub(crate) fn offer_alone<K: Channel, const W: usize, const V: usize>(
    outbox: &mut Outbox<K, W, V>,
    beat: &Beat<K, W>,
) -> Result<(), SideFault>
    requires { IsWidth W × IsWidth V × IsOpen outbox.old }
    ensures { OffersBeat (outbox_sends K.rules) beat.now outbox.old result outbox.new }
{
    let place = match outbox.check(beat) {
        Ok(place) => place,
        Err(fault) => return Err(SideFault::Beat(fault)),
    };
    outbox.offer_at(beat, place, 0);
    Ok(())
}

// Offers a beat of A, if the book of its side admits it.
pub(crate) fn offer_request<const C: usize, const M: usize, A: Allocator>(
    book: &mut ClientBook<C, A>,
    outbox: &mut Outbox<ChA, C, M>,
    beat: &Beat<ChA, C>,
) -> Result<(), SideFault>
    requires { IsWidth C × IsWidth M × IsOpen outbox.old }
    ensures { OffersBeat sends_requests beat.now (record { box = outbox.old; book = book.old }) result
        (record { box = outbox.new; book = book.new }) }
{
    let place = given!(book.admit(outbox.check(beat)));
    outbox.offer_at(beat, place, 0);
    Ok(())
}

// Offers a beat of D, if the book of its side admits it.
pub(crate) fn offer_response<const C: usize, const M: usize, A: Allocator>(
    book: &mut ManagerBook<M, A>,
    outbox: &mut Outbox<ChD, M, C>,
    beat: &Beat<ChD, M>,
) -> Result<(), SideFault>
    requires { IsWidth M × IsWidth C × IsOpen outbox.old }
    ensures { OffersBeat sends_responses beat.now (record { box = outbox.old; book = book.old }) result
        (record { box = outbox.new; book = book.new }) }
{
    let (place, home) = given!(book.admit(outbox.check(beat)));
    outbox.offer_at(beat, place, home);
    Ok(())
}
