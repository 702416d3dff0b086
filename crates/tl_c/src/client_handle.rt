//! The handle by which C holds the client's side of a bridge.
ghost use Rattle.std.specs.Prelude.{◌≡◌, ◌≢◌, ◌↔◌, true, Option, Some, None, IfSome};
ghost use Rattle.tl_c_beats.specs.Receipts.{without_number};
ghost use Rattle.tl_c.specs.Handles.{holds_client, client_coded};
ghost use Rattle.tl_c.specs.declared.held.ClientHeld.{ClientHeld};

use crate::held::ClientHeld;
use std::alloc::Global;
use std::marker::Model;
use std::mem::replace;
use std::ptr::null_mut;
use tl_c_beats::{BridgeId, Live, Parts};

/// The ownership of a boxed side, or of nothing.
#[repr(C)]
#[derive(Drop)]
pub struct OwnedClient {
    ptr: *mut (),
    alloc: Global,
    pub ghost held: { Option ClientHeld } by { client_coded },
}

impl Model for OwnedClient {
    ghost also_owns = { λ o. holds_client o.alloc o.ptr o.held };
}

impl OwnedClient {
    fn nothing(alloc: Global) -> OwnedClient
        ensures { result.held ≡ None }
    {
        OwnedClient {
            ptr: null_mut(),
            alloc,
        }
    }

    fn of_parts(parts: Parts<ClientHeld, Global>) -> OwnedClient
        ensures { result.held ≡ Some parts.value }
    {
        let Parts { ptr, alloc } = parts;
        OwnedClient {
            ptr: ptr as *mut (),
            alloc,
        }
    }

    fn into_parts(self) -> Parts<ClientHeld, Global>
        requires { self.held ≢ None }
        ensures { self.held ≡ Some result.value }
    {
        let OwnedClient { ptr, alloc } = self;
        Parts {
            ptr: ptr as *mut ClientHeld,
            alloc,
        }
    }
}

/// A handle as C stores it: a pointer, whether there is a side, and the numbers of the side's
/// bridge. A handle of zeros holds no side.
#[repr(C)]
#[derive(Drop)]
pub struct ClientHandle {
    pub owned: OwnedClient,
    live: Live,
    pub bridge: BridgeId,
    ghost tied: { (live.is ≡ true) ↔ (owned.held ≢ None) },
}

// C gets this size only from the header.
const _: () = prove!(size_of::<ClientHandle>() == 32);

impl ClientHandle {
    /// Puts a side into the handle. The numbers are unchanged.
    pub fn put(&mut self, held: Box<ClientHeld>)
        ensures held { self.new.owned.held ≡ Some held.value }
        ensures number { self.new.bridge ≡ self.old.bridge }
    {
        *self = ClientHandle {
            owned: OwnedClient::of_parts(Parts::of(held)),
            live: Live::set(),
            bridge: self.bridge,
        };
    }

    /// Takes the side out of the handle and returns it, or `None` if the handle holds none. The
    /// handle then holds none; its numbers are unchanged.
    pub fn take(&mut self, alloc: Global) -> Option<Box<ClientHeld>>
        ensures some { IfSome result (λ held. self.old.owned.held ≡ Some held.value) }
        ensures none { result ≡ None → self.old.owned.held ≡ None }
        ensures after { self.new.owned.held ≡ None }
        ensures number { self.new.bridge ≡ self.old.bridge }
    {
        if !self.live.is {
            return None;
        }
        let empty = ClientHandle {
            owned: OwnedClient::nothing(alloc),
            live: Live::unset(),
            bridge: self.bridge,
        };
        let ClientHandle { owned, .. } = replace(self, empty);
        Some(owned.into_parts().into_box())
    }

    /// Frees the side, if the handle holds one. The handle then holds none, and of its numbers only
    /// that of the opening is left.
    pub fn free(&mut self, alloc: Global)
        ensures none { self.new.owned.held ≡ None }
        ensures number { self.new.bridge ≡ without_number self.old.bridge }
    {
        drop(self.take(alloc));
        self.bridge = self.bridge.without_number();
    }
}
