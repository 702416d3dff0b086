//! A first-in, first-out queue of at most [`STAGE_CAPACITY`] items that allocates no memory.
ghost use Rattle.std.specs.Prelude.{◌≡◌, ◌+◌, ◌≤◌, ◌++◌, [], length, drop, slice_get};
ghost use Rattle.tl_ring.specs.declared.queue.TheConstants.{STAGE_CAPACITY};

use arrayvec::ArrayVec;
use std::marker::Model;
use tl_lanes::WIDEST;

/// The capacity of a stage and of an inbox in beats: the most far beats of one near beat (this
/// project's choice).
pub const STAGE_CAPACITY: usize = WIDEST;

const _: () = prove!(STAGE_CAPACITY == 128);

/// A queue of items: those of the array from `first` on. Items before it were removed; their places
/// are used again once the array is full.
#[derive(Drop)]
pub(crate) struct Queue<T> {
    pub(crate) items: ArrayVec<T, STAGE_CAPACITY>,
    pub(crate) first: usize,
}

impl<T> Model for Queue<T> {
    ghost use Rattle.std.specs.Prelude.{◌≤◌, List, length, drop};

    ghost Value = { List T };

    ghost view = { λ q. drop q.first q.items.items };

    ghost invariant = { λ q. q.first ≤ length q.items.items };
}

impl<T: Default> Queue<T> {
    pub(crate) fn new() -> Self
        ensures { result ≡ [] }
    {
        Queue {
            items: ArrayVec::new(),
            first: 0,
        }
    }
}

impl<T> Queue<T> {
    pub(crate) fn len(&self) -> usize
        ensures value { result ≡ length self.now }
        ensures within { result ≤ STAGE_CAPACITY }
    {
        self.items.len() - self.first
    }

    pub(crate) fn as_slice(&self) -> &[T]
        ensures value { result.now ≡ self.now }
        ensures within { length result.now ≤ STAGE_CAPACITY }
    {
        &self.items.as_slice()[self.first..]
    }

    // Removes the first `count` items.
    pub(crate) fn drop_front(&mut self, count: usize)
        requires { count ≤ length self.old }
        ensures { self.new ≡ drop count self.old }
    {
        let left = self.len() - count;
        self.first = self.items.len() - left;
    }
}

impl<T: Copy> Queue<T> {
    // Removes and returns the first item.
    pub(crate) fn pop_front(&mut self) -> Option<T>
        ensures value { result ≡ slice_get self.old 0 }
        ensures rest { self.new ≡ drop 1 self.old }
    {
        let item = *self.as_slice().first()?;
        self.drop_front(1);
        Some(item)
    }
}

impl<T: Copy + Default> Queue<T> {
    // Appends all of `more`.
    pub(crate) fn append(&mut self, more: &[T])
        requires { length self.old + length more.now ≤ STAGE_CAPACITY }
        ensures { self.new ≡ self.old ++ more.now }
    {
        if more.len() > STAGE_CAPACITY - self.items.len() {
            cut_front(&mut self.items, self.first);
            self.first = 0;
        }
        if let [item] = more {
            self.items.push(*item);
            return;
        }
        match self.items.try_extend_from_slice(more) {
            Ok(()) => {}
            Err(_) => unreachable!(),
        }
    }
}

// Removes all items. A single item, the usual case in a stage, needs no call that overwrites many.
pub(crate) fn remove_all<T: Copy + Default>(items: &mut ArrayVec<T, STAGE_CAPACITY>)
    ensures { items.new.items ≡ [] }
{
    if items.len() == 1 {
        items.pop();
    } else {
        items.clear();
    }
}

// Removes the first `count` items, and moves the others to the start.
fn cut_front<T: Copy + Default>(items: &mut ArrayVec<T, STAGE_CAPACITY>, count: usize)
    requires { count ≤ length items.old.items }
    ensures { items.new.items ≡ drop count items.old.items }
{
    let left = items.len() - count;
    items.as_mut_slice().copy_within(count.., 0);
    items.truncate(left);
}
