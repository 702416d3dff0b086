//! Takes of a side on A and D: its book records the beats that it takes.
ghost use Rattle.tl_lanes.specs.Lanes.{IsWidth};
ghost use Rattle.tl_sides.specs.Calls.{TakesBeat};
ghost use Rattle.tl_sides.specs.Ports.{takes_requests, takes_responses};

use std::alloc::Allocator;
use tl_msg::{Beat, ChA, ChD};
use tl_ring::Inbox;
use tl_settle::{ClientBook, ManagerBook};

// Takes the first beat of A's inbox, if there is one.
pub(crate) fn take_request<const M: usize, A: Allocator>(
    book: &mut ManagerBook<M, A>,
    inbox: &mut Inbox<ChA, M>,
) -> Option<Beat<ChA, M>>
    requires { IsWidth M }
    ensures { TakesBeat takes_requests (record { box = inbox.old; book = book.old }) result
        (record { box = inbox.new; book = book.new }) }
{
    match inbox.take() {
        Some(beat) => {
            book.record_request(&beat.head);
            Some(beat)
        }
        None => None,
    }
}

// Takes the first beat of D's inbox, if there is one.
pub(crate) fn take_response<const C: usize, A: Allocator>(
    book: &mut ClientBook<C, A>,
    inbox: &mut Inbox<ChD, C>,
) -> Option<Beat<ChD, C>>
    requires { IsWidth C }
    ensures { TakesBeat takes_responses (record { box = inbox.old; book = book.old }) result
        (record { box = inbox.new; book = book.new }) }
{
    match inbox.take() {
        Some(beat) => {
            book.record_response(&beat.head);
            Some(beat)
        }
        None => None,
    }
}
