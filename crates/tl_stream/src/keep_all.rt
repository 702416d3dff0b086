//! A consumer that keeps all beats.
ghost use Rattle.tl_stream.specs.Inner.Keeping.{Keeps, KeepsEach};

use crate::beat_consumer::BeatConsumer;
use std::alloc::AllocError;
use tl_trace::{Counts, Script};

/// Keeps all near beats of a text, for a run that needs the whole script.
#[derive(Drop)]
pub(crate) struct KeepAll;

impl<const C: usize, const M: usize> BeatConsumer<KeepAll, C, M> for KeepAll {
    ghost HasConsumed = { Keeps };

    ghost ConsumesOn = { KeepsEach };

    fn consume(&mut self, _held: &Script<C, M>) -> Result<Counts, AllocError> {
        Ok(Counts {
            a: 0,
            b: 0,
            c: 0,
            d: 0,
            e: 0,
        })
    }
}
