//! The command that the program executes on a trace.
#![tactic(auto)]

ghost use Rattle.std.specs.Prelude.{◌≡◌, ◌≤◌};
ghost use Rattle.tl_order.specs.Orders.{IsRunnable, is_check, is_sync, ring_of, turns_of};

/// The largest number of beats that a ring holds (this project's choice).
pub const MAX_RING: usize = 4096;

/// The largest number of turns that a side takes between two meetings (this project's choice).
pub const MAX_TURNS: usize = 1000;

// The numbers of `IsInRange`. A smaller one would only refuse more command lines, which no clause
// forbids.
const _: () = prove!(MAX_RING == 4096);

const _: () = prove!(MAX_TURNS == 1000);

/// The command that the program executes on a trace.
#[derive(Clone, Copy, Debug, PartialEq, Eq)]
pub enum Order {
    /// Sends the trace across the bridge.
    Run {
        /// The number of beats that each ring holds, 1 to 4,096.
        ring: usize,
        /// The number of turns of each side between two meetings of the two threads, 1 to 1,000.
        turns: usize,
        /// Whether both sides run in one thread. If so, `turns` has no effect.
        sync: bool,
    },
    /// Reports how far each channel gets. Both sides run in one thread.
    Check,
}

impl Order {
    /// Returns the number of beats that a ring holds; 1 for a check.
    pub fn ring(&self) -> usize
        ensures is { result ≡ ring_of self.now }
        ensures size { IsRunnable self.now → (1 ≤ result) × (result ≤ 4096) }
    {
        match self {
            Order::Run { ring, .. } => *ring,
            Order::Check => 1,
        }
    }

    /// Returns the number of turns that each side takes between two meetings; 1 for a check.
    pub fn turns(&self) -> usize
        ensures is { result ≡ turns_of self.now }
        ensures some { IsRunnable self.now → 1 ≤ result }
    {
        match self {
            Order::Run { turns, .. } => *turns,
            Order::Check => 1,
        }
    }

    /// Returns whether both sides run in one thread; true for a check.
    pub fn is_sync(&self) -> bool
        ensures { result ≡ is_sync self.now }
    {
        match self {
            Order::Run { sync, .. } => *sync,
            Order::Check => true,
        }
    }

    /// Returns whether the answer has no far beats: whether the order is a check.
    pub fn is_check(&self) -> bool
        ensures { result ≡ is_check self.now }
    {
        matches!(self, Order::Check)
    }
}
