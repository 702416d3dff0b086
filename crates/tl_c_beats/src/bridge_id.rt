//! The numbers by which C tells bridges apart.
ghost use Rattle.std.specs.Prelude.{◌≡◌, true};
ghost use Rattle.tl_c_beats.specs.Receipts.{same_bridge, IsLater, without_number};

/// The numbers of a bridge, which both of its sides have.
#[repr(C)]
#[derive(Drop, Clone, Copy)]
pub struct BridgeId {
    /// The caller's number of the bridge; 0 if no side is held.
    pub number: u64,
    /// The number of the opening: higher than that of each earlier opening of the two handles.
    pub opening: u64,
}

// C gets this size only from the header.
const _: () = prove!(size_of::<BridgeId>() == 16);

impl BridgeId {
    /// Returns the numbers of a bridge that is opened in two handles, given the openings that they
    /// had before. The opening is higher than both, unless one is `u64::MAX`.
    pub fn next(number: u64, client: u64, manager: u64) -> BridgeId
        ensures number { result.number ≡ number }
        ensures later { IsLater client manager result.opening }
    {
        let last = if client < manager { manager } else { client };
        let opening = if last == u64::MAX { 0 } else { last + 1 };
        BridgeId { number, opening }
    }

    /// Returns the numbers of a handle whose side is freed: only the opening is left.
    pub fn without_number(self) -> BridgeId
        ensures { result ≡ without_number self }
    {
        BridgeId {
            number: 0,
            opening: self.opening,
        }
    }

    /// Returns whether both numbers are the same.
    pub fn is(self, other: BridgeId) -> bool
        ensures result { result ≡ same_bridge self other }
        ensures same { result ≡ true → self ≡ other }
    {
        (self.number == other.number) & (self.opening == other.opening)
    }
}
