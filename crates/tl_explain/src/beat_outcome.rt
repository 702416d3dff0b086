//! The outcome of a near beat, from the verdict of its channel.
ghost use Rattle.std.specs.Prelude.{◌≡◌};
ghost use Rattle.tl_explain.specs.Fates.{fate_beside, fate_of};

use tl_msg::{SideFault, Verdict};

/// The outcome of a near beat.
#[derive(Clone, Copy, Default)]
pub enum BeatOutcome {
    /// Its side accepted it.
    #[default]
    Accepted,
    /// It breaks a rule of the link, and is refused permanently.
    Refused(SideFault),
    /// It would be accepted after the other channel advanced, which does not happen.
    Waiting(SideFault),
    /// A beat before it on its channel was not accepted, so it was never offered.
    NotOffered,
}

/// Returns the outcome of beat number `at` of a channel, if the channel stops at beat number `stop`
/// with the outcome `fate`.
fn fate_beside(at: u64, stop: u64, fate: BeatOutcome) -> BeatOutcome
    ensures { result ≡ fate_beside at stop fate }
{
    if at < stop {
        BeatOutcome::Accepted
    } else if at == stop {
        fate
    } else {
        BeatOutcome::NotOffered
    }
}

/// Returns the outcome of beat number `at`, from 0, of a channel with this verdict.
pub fn fate_at(at: u64, verdict: &Verdict) -> BeatOutcome
    ensures { result ≡ fate_of at verdict.now }
{
    match *verdict {
        Verdict::Done { near, .. } | Verdict::Cut { near, .. } => {
            fate_beside(at, near, BeatOutcome::NotOffered)
        }
        Verdict::Refused { at: stop, fault } => fate_beside(at, stop, BeatOutcome::Refused(fault)),
        Verdict::Waiting { at: stop, fault } => fate_beside(at, stop, BeatOutcome::Waiting(fault)),
    }
}
