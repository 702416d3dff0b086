//! The parts of a handle: a box taken apart into its pointer and its allocator, and whether there
//! is one.
ghost use Rattle.std.specs.Prelude.{◌≡◌, true, false, IfOk, IfErr};
ghost use Rattle.std.specs.Box.Ownership.{box_owns};
ghost use Rattle.tl_c_beats.specs.declared.answers.TheConstants.{OUT_OF_MEMORY};

use crate::answers::OUT_OF_MEMORY;
use std::alloc::{Allocator, Global};
use std::marker::Model;

/// The parts of a box, which own what the box owned.
pub struct Parts<T, A: Allocator> {
    pub ptr: *mut T,
    pub alloc: A,
    pub ghost value: { T },
}

impl<T, A: Allocator> Model for Parts<T, A> {
    ghost also_owns = { λ p. box_owns (A.dealloc_token p.alloc) T.row p.ptr p.value };
}

impl<T, A: Allocator> Parts<T, A> {
    /// Takes a box apart.
    pub fn of(b: Box<T, A>) -> Parts<T, A>
    where
        T: Drop,
        ensures { result.value ≡ b.value }
    {
        let (ptr, alloc) = Box::into_raw_with_allocator(b);
        Parts { ptr, alloc }
    }

    /// Puts the box together again.
    pub fn into_box(self) -> Box<T, A>
        ensures { result.value ≡ self.value }
    {
        let Parts { ptr, alloc } = self;
        unsafe { Box::from_raw(alloc, ptr) }
    }
}

/// Boxes a value. Errors: `OUT_OF_MEMORY` if the allocator fails.
pub fn boxed<T: Drop>(alloc: Global, value: T) -> Result<Box<T>, u8>
    ensures boxed { IfOk result (λ b. b.value ≡ value) }
    ensures refused { IfErr result (λ number. number ≡ OUT_OF_MEMORY) }
{
    match Box::new(alloc, value) {
        Ok(made) => Ok(made),
        Err(_) => Err(OUT_OF_MEMORY),
    }
}

/// Whether a handle holds something, as C stores it.
#[repr(C)]
#[derive(Drop)]
pub struct Live {
    pub is: bool,
}

impl Live {
    /// Returns the flag of a handle that holds nothing.
    pub fn unset() -> Live
        ensures { result.is ≡ false }
    {
        Live { is: false }
    }

    /// Returns the flag of a handle that holds something.
    pub fn set() -> Live
        ensures { result.is ≡ true }
    {
        Live { is: true }
    }
}
