//! The tables in which a side keeps an entry for each source.
ghost use Rattle.std.specs.Prelude.{◌≡◌, ◌==◌, ℕ, List, Bool, Option, true, false, None, Some, cond, map, vec_len, IfOk};
ghost use Rattle.tl_settle.specs.declared.tables.Request.{Request};
ghost use Rattle.tl_settle.specs.declared.tables.TheConstants.{SOURCES};
ghost use Rattle.tl_settle.specs.Tables.{is_busy, entry};
ghost use Rattle.tl_settle.specs.Inner.Entries.{request_in};

use std::alloc::{Allocator, Global};
use std::marker::Model;
use tl_msg::{OutOfMemory, SourceId};

/// The number of sources, from the bits of a [`SourceId`].
const SOURCES: usize = 1 << SourceId::BITS;

/// A request that waits for its response (TileLink: source and size of responses).
#[derive(Clone, Copy, PartialEq, Eq, Debug)]
pub struct Request {
    /// The message is of 2 to this power bytes; the response has the same size.
    pub size: u8,
    /// The address in bytes, which is the home of the response.
    pub address: u64,
}

/// The busy sources: their request was accepted, and its response has not come yet. In a contract
/// the table is a list that says of each of the 65,536 sources whether it is busy.
#[derive(Drop)]
pub struct SourceTable<A: Allocator = Global> {
    busy: Vec<bool, A>,
}

impl<A: Allocator> Model for SourceTable<A> {
    ghost Value = { List Bool };

    ghost view = { λ t. t.busy.items };

    ghost invariant = { λ t. vec_len t.busy ≡ SOURCES };
}

impl<A: Allocator> SourceTable<A> {
    ghost use Rattle.std.specs.Prelude.{◌≡◌, ◌==◌, ℕ, true, false, cond, IfOk};
    ghost use Rattle.tl_settle.specs.Tables.{is_busy};

    /// Creates a table in which no source is busy. It allocates one byte for each source, 64 KiB,
    /// and never grows (this project's choice). Errors: `OutOfMemory` if the allocator fails.
    pub fn new(alloc: A) -> Result<Self, OutOfMemory>
        ensures { IfOk result (λ table. (s : ℕ) → is_busy table s ≡ false) }
    {
        let busy = vec![in alloc; false; SOURCES]?;
        Ok(SourceTable { busy })
    }

    /// Returns whether a source is busy.
    pub fn busy(&self, source: SourceId) -> bool
        ensures { result ≡ is_busy self.now source }
    {
        self.busy[source as usize]
    }

    /// Marks this source as busy, because a request of it begins. The other sources are unchanged.
    pub fn begin(&mut self, source: SourceId)
        ensures { (s : ℕ) → is_busy self.new s ≡ cond (source == s) true (is_busy self.old s) }
    {
        self.busy[source as usize] = true;
    }

    /// Marks this source as free, because a response to it begins. The other sources are unchanged,
    /// and a source that was free stays free.
    pub fn end(&mut self, source: SourceId)
        ensures { (s : ℕ) → is_busy self.new s ≡ cond (source == s) false (is_busy self.old s) }
    {
        self.busy[source as usize] = false;
    }
}

/// The entry of a source in a [`RequestTable`]. It has 16 bytes; an `Option<Request>` would have
/// 24.
#[derive(Clone, Copy)]
struct Entry {
    // Whether the source has a request. If not, size and address have no meaning.
    open: bool,
    size: u8,
    address: u64,
}

/// The entry of a source without a request.
const FREE: Entry = Entry {
    open: false,
    size: 0,
    address: 0,
};

impl Entry {
    fn of(request: Request) -> Self
        ensures { request_in result ≡ Some request }
    {
        Entry {
            open: true,
            size: request.size,
            address: request.address,
        }
    }

    fn request(self) -> Option<Request>
        ensures { result ≡ request_in self }
    {
        self.open.then_some(Request {
            size: self.size,
            address: self.address,
        })
    }
}

/// The outstanding request of each source. In a contract the table is a list that has the request
/// of each of the 65,536 sources, or `None`.
#[derive(Drop)]
pub struct RequestTable<A: Allocator = Global> {
    entries: Vec<Entry, A>,
}

impl<A: Allocator> Model for RequestTable<A> {
    ghost Value = { List (Option Request) };

    ghost view = { λ t. map request_in t.entries.items };

    ghost invariant = { λ t. vec_len t.entries ≡ SOURCES };
}

impl<A: Allocator> RequestTable<A> {
    ghost use Rattle.std.specs.Prelude.{◌≡◌, ◌==◌, ℕ, None, Some, cond, IfOk};
    ghost use Rattle.tl_settle.specs.Tables.{entry};

    /// Creates a table in which no source has a request. It allocates 16 bytes for each source, 1
    /// MiB, and never grows (this project's choice). Errors: `OutOfMemory` if the allocator fails.
    pub fn new(alloc: A) -> Result<Self, OutOfMemory>
        ensures { IfOk result (λ table. (s : ℕ) → entry table s ≡ None) }
    {
        let entries = vec![in alloc; FREE; SOURCES]?;
        Ok(RequestTable { entries })
    }

    /// Returns the request of a source, or `None`.
    pub fn get(&self, source: SourceId) -> Option<Request>
        ensures { result ≡ entry self.now source }
    {
        self.entries[source as usize].request()
    }

    /// Enters a request of this source. It replaces the one that the source had, if any. The other
    /// sources are unchanged.
    pub fn begin(&mut self, source: SourceId, request: Request)
        ensures { (s : ℕ) →
            entry self.new s ≡ cond (source == s) (Some request) (entry self.old s) }
    {
        self.entries[source as usize] = Entry::of(request);
    }

    /// Removes the request of this source, because a response to it begins. A source without a
    /// request is unchanged, and so are the other sources.
    pub fn end(&mut self, source: SourceId)
        ensures { (s : ℕ) → entry self.new s ≡ cond (source == s) None (entry self.old s) }
    {
        self.entries[source as usize] = FREE;
    }
}
