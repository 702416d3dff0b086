//! The sides that the two handles hold.
use crate::widths::{CLIENT, MANAGER};
use tl_sides::{ClientSide, ManagerSide};

/// The client's side behind a handle.
pub struct ClientHeld {
    pub side: ClientSide<CLIENT, MANAGER>,
}

// Written by hand, because a derived one would require the side's size for every allocator.
impl Drop for ClientHeld {
    fn drop(self) {
        let ClientHeld { side: _side } = self;
    }
}

/// The manager's side behind a handle.
pub struct ManagerHeld {
    pub side: ManagerSide<CLIENT, MANAGER>,
}

// Written by hand, like that of the client's side.
impl Drop for ManagerHeld {
    fn drop(self) {
        let ManagerHeld { side: _side } = self;
    }
}
