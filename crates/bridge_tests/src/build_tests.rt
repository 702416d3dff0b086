//! Tests of the errors on making a pipe, a pair of ends, a bridge and a pair of sides.
#![tactic(auto, using(tl_lanes::proofs::Widths::width_4, tl_lanes::proofs::Widths::width_8, tl_lanes::proofs::Widths::width_16))]

use crate::lending::holds_at;
use linked_list_allocator::LocalHeap;
use std::alloc::Global;
use tl_bridge::SyncBridge;
use tl_msg::ChA;
use tl_ring::{BuildFault, SyncPipe, ring_pair};
use tl_sides::bridge;

/// The values that are made over rings.
enum Made {
    Pipe,
    Ends,
    Bridge,
    Sides,
}

fn refusal_of_pipe(heap: &LocalHeap, ring: usize) -> Option<BuildFault> {
    SyncPipe::<ChA, 8, 4, &LocalHeap>::new(heap, ring).err()
}

fn refusal_of_ends(heap: &LocalHeap, ring: usize) -> Option<BuildFault> {
    ring_pair::<ChA, 8, 4, &LocalHeap>(heap, ring).err()
}

fn refusal_of_bridge(heap: &LocalHeap, ring: usize) -> Option<BuildFault> {
    SyncBridge::<4, 16, &LocalHeap>::new(heap, ring).err()
}

fn refusal_of_sides(heap: &LocalHeap, ring: usize) -> Option<BuildFault> {
    bridge::<4, 16, &LocalHeap>(heap, ring).err()
}

/// Returns the fault of making this value over this heap, or `None` if it is made.
fn refusal(made: &Made, heap: &LocalHeap, ring: usize) -> Option<BuildFault> {
    match made {
        Made::Pipe => refusal_of_pipe(heap, ring),
        Made::Ends => refusal_of_ends(heap, ring),
        Made::Bridge => refusal_of_bridge(heap, ring),
        Made::Sides => refusal_of_sides(heap, ring),
    }
}

/// A row: the value that is made, the size of its rings in beats, the number of bytes that each
/// heap has more than the one before, the number of heaps, and whether the value is made over the
/// last of them. A bridge and its sides have tables, which are the last allocations and far larger
/// than the rings.
type Heaps = (Made, usize, usize, usize, bool);

const HEAPS: [Heaps; 14] = [
    (Made::Pipe, 16, 16, 128, true),
    (Made::Ends, 16, 16, 128, true),
    (Made::Bridge, 16, 16, 1024, false),
    (Made::Bridge, 16, 0x8000, 40, true),
    (Made::Sides, 16, 16, 4096, false),
    (Made::Sides, 16, 0x8000, 40, true),
    // the smallest ring and the largest one are valid sizes
    (Made::Pipe, 1, 0, 1, false),
    (Made::Pipe, 4096, 0, 1, false),
    (Made::Ends, 1, 0, 1, false),
    (Made::Ends, 4096, 0, 1, false),
    (Made::Bridge, 1, 0, 1, false),
    (Made::Bridge, 4096, 0, 1, false),
    (Made::Sides, 1, 0, 1, false),
    (Made::Sides, 4096, 0, 1, false),
];

/// Returns whether making this value is refused because of its ring size.
fn refuses_size(made: &Made, heap: &LocalHeap, ring: usize) -> bool {
    refusal(made, heap, ring) == Some(BuildFault::RingSize)
}

/// Returns whether a heap of `bytes` bytes has too little memory for this value. Returns `None` if
/// another fault is returned, the ring size is not 1 to 4,096, or not all of the heap is free at
/// the end.
fn is_refused(alloc: Global, made: &Made, ring: usize, bytes: usize) -> Option<bool> {
    let Ok(heap) = LocalHeap::new(alloc, bytes) else {
        return None;
    };
    let refuses_sizes = refuses_size(made, &heap, 0) & refuses_size(made, &heap, 4097);
    let fault = refusal(made, &heap, ring);
    if !(refuses_sizes & (heap.used() == 0)) {
        return None;
    }
    match fault {
        Some(BuildFault::OutOfMemory) => Some(true),
        Some(_) => None,
        None => Some(false),
    }
}

/// Returns whether each heap gives OutOfMemory, except the last ones over which the value is made.
fn are_refused(alloc: Global, heaps: &Heaps) -> bool {
    let (made, ring, more) = (&heaps.0, heaps.1, heaps.2);
    let (count, is_made) = (heaps.3, heaps.4);
    let (mut bytes, mut last) = (0usize, true);
    for _ in 0..count {
        last = match is_refused(alloc, made, ring, bytes) {
            Some(now) if now | is_made => now,
            _ => return false,
        };
        bytes = bytes.saturating_add(more);
    }
    last != is_made
}

/// A heap allocates at least 16 bytes at a time. So each ring is the allocation that fails at some
/// size, and then each table at some larger one.
#[test]
fn each_refused_growth_is_out_of_memory(rt: HostRuntime) {
    for (number, heaps) in HEAPS.iter().enumerate() {
        holds_at(&rt, are_refused(rt.alloc(), heaps), number);
    }
}
