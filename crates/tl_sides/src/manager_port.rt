//! The manager's side, independent of the rings that carry its beats.
ghost use Rattle.std.specs.Prelude.{◌≡◌, ◌++◌, [], List, map};
ghost use Rattle.tl_lanes.specs.Lanes.{IsWidth};
ghost use Rattle.tl_ring.specs.Boxes.{IsOpen};
ghost use Rattle.tl_settle.specs.Histories.{Ask, Event};
ghost use Rattle.tl_settle.specs.Books.{KnowsManager};
ghost use Rattle.tl_sides.specs.Ports.{ManagerIsNew};

use crate::noting::note_all;
use std::alloc::{Allocator, Global};
use std::marker::Model;
use tl_msg::{ChA, ChB, ChC, ChD, ChE};
use tl_ring::{Inbox, Outbox};
use tl_settle::ManagerBook;

/// The manager's side on a bus of `M` bytes, independent of the rings that carry its beats to and
/// from a bus of `C` bytes. It offers beats of B and D, and takes those of A, C and E.
///
/// It has an outbox for each channel that it sends, an inbox for each channel that it takes, and
/// its book, like [`crate::client_port::ClientPort`].
#[derive(Drop)]
pub(crate) struct ManagerPort<const C: usize, const M: usize, A: Allocator = Global> {
    pub(crate) a: Inbox<ChA, M>,
    pub(crate) b: Outbox<ChB, M, C>,
    pub(crate) c: Inbox<ChC, M>,
    pub(crate) d: Outbox<ChD, M, C>,
    pub(crate) e: Inbox<ChE, M>,
    pub(crate) book: ManagerBook<M, A>,
}

impl<const C: usize, const M: usize, A: Allocator> Model for ManagerPort<C, M, A> {
    ghost use Rattle.tl_sides.specs.Ports.{ManagerNow};

    ghost Value = { ManagerNow C M };

    ghost view = { λ s. record { a = s.a; b = s.b; c = s.c; d = s.d; e = s.e; book = s.book } };
}

impl<const C: usize, const M: usize, A: Allocator> ManagerPort<C, M, A> {
    /// Creates the port of a new side from its book. It has no precondition on the widths; its
    /// postconditions apply only to valid ones.
    pub(crate) fn with_book(book: ManagerBook<M, A>) -> Self
        ensures new { IsWidth C → IsWidth M → KnowsManager {w = M} book [] → ManagerIsNew {C = C} {M = M} result }
        ensures ready_b { IsOpen result.b }
        ensures ready_d { IsOpen result.d }
        ensures empty_a { result.a ≡ [] }
        ensures empty_c { result.c ≡ [] }
        ensures empty_e { result.e ≡ [] }
        ensures book { result.book ≡ book }
    {
        ManagerPort {
            a: Inbox::new(),
            b: Outbox::new(),
            c: Inbox::new(),
            d: Outbox::new(),
            e: Inbox::new(),
            book,
        }
    }

    /// Takes all beats of all three inboxes, and records those of A in the book, in order. Requires:
    /// `M` is a width.
    pub(crate) fn take_all(&mut self)
        requires { IsWidth M }
        // for every history that the book records
        ensures book { (es : List (Event M)) → KnowsManager self.old.book es →
            KnowsManager self.new.book (es ++ map Ask self.old.a) }
        // for every side
        ensures rest { self.new ≡ record self.old { a = []; c = []; e = []; book = self.new.book } }
    {
        note_all(&mut self.book, self.a.as_slice());
        self.a.take_all();
        self.c.take_all();
        self.e.take_all();
    }

    // Discards the port.
    pub(crate) fn discard(self) {}
}
