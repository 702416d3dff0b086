//! The client's side, independent of the rings that carry its beats.
ghost use Rattle.std.specs.Prelude.{◌≡◌, ◌++◌, [], List, map};
ghost use Rattle.tl_lanes.specs.Lanes.{IsWidth};
ghost use Rattle.tl_ring.specs.Boxes.{IsOpen};
ghost use Rattle.tl_settle.specs.Histories.{Answer, Event};
ghost use Rattle.tl_settle.specs.Books.{KnowsClient};
ghost use Rattle.tl_sides.specs.Ports.{ClientIsNew};

use crate::noting::note_all;
use std::alloc::{Allocator, Global};
use std::marker::Model;
use tl_msg::{ChA, ChB, ChC, ChD, ChE};
use tl_ring::{Inbox, Outbox};
use tl_settle::ClientBook;

/// The client's side on a bus of `C` bytes, independent of the rings that carry its beats to and
/// from a bus of `M` bytes. It offers beats of A, C and E, and takes those of B and D.
///
/// It has an outbox for each channel that it sends, an inbox for each channel that it takes, and
/// its book. The owner of the port and its rings calls these parts, and moves beats from the
/// outboxes into the rings, and from the rings into the inboxes.
#[derive(Drop)]
pub(crate) struct ClientPort<const C: usize, const M: usize, A: Allocator = Global> {
    pub(crate) a: Outbox<ChA, C, M>,
    pub(crate) b: Inbox<ChB, C>,
    pub(crate) c: Outbox<ChC, C, M>,
    pub(crate) d: Inbox<ChD, C>,
    pub(crate) e: Outbox<ChE, C, M>,
    pub(crate) book: ClientBook<C, A>,
}

impl<const C: usize, const M: usize, A: Allocator> Model for ClientPort<C, M, A> {
    ghost use Rattle.tl_sides.specs.Ports.{ClientNow};

    ghost Value = { ClientNow C M };

    ghost view = { λ s. record { a = s.a; b = s.b; c = s.c; d = s.d; e = s.e; book = s.book } };
}

impl<const C: usize, const M: usize, A: Allocator> ClientPort<C, M, A> {
    /// Creates the port of a new side from its book. It has no precondition on the widths; its
    /// postconditions apply only to valid ones.
    pub(crate) fn with_book(book: ClientBook<C, A>) -> Self
        ensures new { IsWidth C → IsWidth M → KnowsClient {w = C} book [] → ClientIsNew {C = C} {M = M} result }
        ensures ready_a { IsOpen result.a }
        ensures ready_c { IsOpen result.c }
        ensures ready_e { IsOpen result.e }
        ensures empty_b { result.b ≡ [] }
        ensures empty_d { result.d ≡ [] }
        ensures book { result.book ≡ book }
    {
        ClientPort {
            a: Outbox::new(),
            b: Inbox::new(),
            c: Outbox::new(),
            d: Inbox::new(),
            e: Outbox::new(),
            book,
        }
    }

    /// Takes all beats of both inboxes, and records those of D in the book, in order. Requires: `C`
    /// is a width.
    pub(crate) fn take_all(&mut self)
        requires { IsWidth C }
        // for every history that the book records
        ensures book { (es : List (Event C)) → KnowsClient self.old.book es →
            KnowsClient self.new.book (es ++ map Answer self.old.d) }
        // for every side
        ensures rest { self.new ≡ record self.old { b = []; d = []; book = self.new.book } }
    {
        note_all(&mut self.book, self.d.as_slice());
        self.b.take_all();
        self.d.take_all();
    }

    // Discards the port.
    pub(crate) fn discard(self) {}
}
