//! The outcome of the next beat of a channel.
ghost use Rattle.std.specs.Prelude.{◌≡◌, ◌≢◌, ◌↔◌, IsTrue};
ghost use Rattle.tl_offer.specs.Offering.{close_outcome, offer_outcome, refused_by, steps};

use tl_msg::SideFault;
use tl_ring::EndFault;

/// The reason why a channel of a run offers no more beats, as its verdict says it (this project's
/// choice).
#[derive(Clone, Copy)]
pub enum Stop {
    /// No beat is left, and no burst is unfinished: the channel is closed.
    Done,
    /// No beat is left, and a burst is unfinished.
    Cut,
    /// The next beat is refused.
    Refused(SideFault),
}

/// The outcome of the next beat of a channel in a round of a run (this project's choice).
#[derive(Clone, Copy)]
pub enum Offered {
    /// It is accepted.
    Accepted,
    /// It is not offered, because the beats before it are still staged.
    NotReady,
    /// It is refused, or there is none.
    Stopped(Stop),
}

impl Offered {
    /// Returns the outcome of a beat from the result of its offer: accepted, or stopped if it is
    /// refused.
    pub fn from_offer(answer: Result<(), SideFault>) -> Offered
        ensures { result ≡ offer_outcome answer }
    {
        match answer {
            Ok(()) => Offered::Accepted,
            Err(fault) => Offered::Stopped(Stop::Refused(fault)),
        }
    }

    /// Returns the outcome of a channel that has no beat left, from the result of closing it:
    /// stopped as done, or as cut if the close is refused.
    pub fn from_close(answer: Result<(), EndFault>) -> Offered
        ensures { result ≡ close_outcome answer }
    {
        match answer {
            Ok(()) => Offered::Stopped(Stop::Done),
            Err(_) => Offered::Stopped(Stop::Cut),
        }
    }

    /// Returns whether the beat is accepted.
    pub fn is_accepted(&self) -> bool
        ensures { IsTrue result ↔ (steps self.now ≢ 0) }
    {
        match self {
            Offered::Accepted => true,
            Offered::NotReady | Offered::Stopped(_) => false,
        }
    }

    /// Returns the fault for which the beat is refused, or `None`.
    pub fn refused_by(&self) -> Option<SideFault>
        ensures { result ≡ refused_by self.now }
    {
        match self {
            Offered::Stopped(Stop::Refused(fault)) => Some(*fault),
            Offered::Stopped(_) | Offered::Accepted | Offered::NotReady => None,
        }
    }

    /// Returns the number of beats accepted, 0 or 1.
    pub fn steps(&self) -> usize
        ensures { result ≡ steps self.now }
    {
        match self {
            Offered::Accepted => 1,
            Offered::NotReady | Offered::Stopped(_) => 0,
        }
    }
}
