//! The handle by which C holds the manager's side of a bridge. It is that of the client's side with
//! other names: a struct that C gets has no type parameters, and a macro writes no contract.
ghost use Rattle.std.specs.Prelude.{◌≡◌, ◌≢◌, ◌↔◌, true, Option, Some, None, IfSome};
ghost use Rattle.tl_c_beats.specs.Receipts.{without_number};
ghost use Rattle.tl_c.specs.Handles.{holds_manager, manager_coded};
ghost use Rattle.tl_c.specs.declared.held.ManagerHeld.{ManagerHeld};

use crate::held::ManagerHeld;
use std::alloc::Global;
use std::marker::Model;
use std::mem::replace;
use std::ptr::null_mut;
use tl_c_beats::{BridgeId, Live, Parts};

/// The ownership of a boxed side, or of nothing.
#[repr(C)]
#[derive(Drop)]
pub struct OwnedManager {
    ptr: *mut (),
    alloc: Global,
    pub ghost held: { Option ManagerHeld } by { manager_coded },
}

impl Model for OwnedManager {
    ghost also_owns = { λ o. holds_manager o.alloc o.ptr o.held };
}

impl OwnedManager {
    fn nothing(alloc: Global) -> OwnedManager
        ensures { result.held ≡ None }
    {
        OwnedManager {
            ptr: null_mut(),
            alloc,
        }
    }

    fn of_parts(parts: Parts<ManagerHeld, Global>) -> OwnedManager
        ensures { result.held ≡ Some parts.value }
    {
        let Parts { ptr, alloc } = parts;
        OwnedManager {
            ptr: ptr as *mut (),
            alloc,
        }
    }

    fn into_parts(self) -> Parts<ManagerHeld, Global>
        requires { self.held ≢ None }
        ensures { self.held ≡ Some result.value }
    {
        let OwnedManager { ptr, alloc } = self;
        Parts {
            ptr: ptr as *mut ManagerHeld,
            alloc,
        }
    }
}

/// A handle as C stores it: a pointer, whether there is a side, and the numbers of the side's
/// bridge. A handle of zeros holds no side.
#[repr(C)]
#[derive(Drop)]
pub struct ManagerHandle {
    pub owned: OwnedManager,
    live: Live,
    pub bridge: BridgeId,
    ghost tied: { (live.is ≡ true) ↔ (owned.held ≢ None) },
}

// C gets this size only from the header.
const _: () = prove!(size_of::<ManagerHandle>() == 32);

impl ManagerHandle {
    /// Puts a side into the handle. The numbers are unchanged.
    pub fn put(&mut self, held: Box<ManagerHeld>)
        ensures held { self.new.owned.held ≡ Some held.value }
        ensures number { self.new.bridge ≡ self.old.bridge }
    {
        *self = ManagerHandle {
            owned: OwnedManager::of_parts(Parts::of(held)),
            live: Live::set(),
            bridge: self.bridge,
        };
    }

    /// Takes the side out of the handle and returns it, or `None` if the handle holds none. The
    /// handle then holds none; its numbers are unchanged.
    pub fn take(&mut self, alloc: Global) -> Option<Box<ManagerHeld>>
        ensures some { IfSome result (λ held. self.old.owned.held ≡ Some held.value) }
        ensures none { result ≡ None → self.old.owned.held ≡ None }
        ensures after { self.new.owned.held ≡ None }
        ensures number { self.new.bridge ≡ self.old.bridge }
    {
        if !self.live.is {
            return None;
        }
        let empty = ManagerHandle {
            owned: OwnedManager::nothing(alloc),
            live: Live::unset(),
            bridge: self.bridge,
        };
        let ManagerHandle { owned, .. } = replace(self, empty);
        Some(owned.into_parts().into_box())
    }

    /// Frees the side, if the handle holds one. The handle then holds none, and of its numbers only
    /// that of the opening is left.
    pub fn free(&mut self, alloc: Global)
        ensures none { self.new.owned.held ≡ None }
        ensures number { self.new.bridge ≡ without_number self.old.bridge }
    {
        drop(self.take(alloc));
        self.bridge = self.bridge.without_number();
    }
}
