//! The out-of-memory error.
ghost use Rattle.std.specs.Prelude.{◌≡◌, Some, codes};
ghost use Rattle.tl_msg.specs.Names.{numbered};

use crate::fault::write_numbered;
use std::alloc::{AllocError, AllocFailed};
use std::fmt;
use thiserror::Error;

/// 13: an allocation failed (number and name are this project's choice).
#[derive(Clone, Copy, PartialEq, Eq, Debug, Error)]
pub struct OutOfMemory;

impl OutOfMemory {
    /// Returns the number of the fault, 13 (this project's choice).
    pub fn number(&self) -> u8
        ensures { result ≡ 13 }
    {
        13
    }

    /// Returns the name of the fault (this project's choice).
    pub fn name(&self) -> &'static str
        ensures { result.now ≡ codes "OutOfMemory" }
    {
        "OutOfMemory"
    }
}

impl fmt::Display for OutOfMemory {
    ghost output = { λ fault. Some (numbered 13 (codes "OutOfMemory")) };

    fn fmt<W: fmt::Write>(&self, f: &mut fmt::Formatter<W>) -> fmt::Result {
        write_numbered(f, self.number(), self.name())
    }
}

impl From<AllocError> for OutOfMemory {
    fn from(_error: AllocError) -> OutOfMemory {
        OutOfMemory
    }
}

impl<T: Drop> From<AllocFailed<T>> for OutOfMemory {
    fn from(_error: AllocFailed<T>) -> OutOfMemory {
        OutOfMemory
    }
}
