//! The property of each beat in a ring.

use crate::stamped::Stamped;
use rtrb::Protocol;
use std::marker::PhantomData;
use tl_msg::{Beat, Channel};

/// The invariant of a ring between two threads: each beat in it is lawful at `V` bytes, that is, a
/// new tracker does not refuse it (this project's choice).
pub struct LawfulAt<K: Channel, const V: usize> {
    channel: PhantomData<K>,
}

impl<K: Channel, const V: usize> Protocol<Stamped<Beat<K, V>>> for LawfulAt<K, V> {
    ghost use Rattle.tl_msg.specs.Faults.{IsLawfulBeat};

    ghost allows = { λ before sent. IsLawfulBeat K.rules sent.item };
}
