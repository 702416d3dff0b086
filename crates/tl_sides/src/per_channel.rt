//! One value for each of the five channels.

/// One value for each of the five channels of a link.
#[derive(Clone, Copy, PartialEq, Eq, Debug, Default)]
pub struct PerChannel<T> {
    /// The value of channel A, on which the client's side sends requests.
    pub a: T,
    /// The value of channel B, on which the manager's side probes.
    pub b: T,
    /// The value of channel C, on which the client's side responds to probes and releases.
    pub c: T,
    /// The value of channel D, on which the manager's side responds.
    pub d: T,
    /// The value of channel E, on which the client's side acknowledges.
    pub e: T,
}
