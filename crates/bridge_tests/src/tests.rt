use crate::lending::{lent, let_both_go};
use linked_list_allocator::LocalHeap;
use tl_bridge::laws::{every_run, one_settled_state, steps_are_admitted};
use tl_bridge::{Request, RequestTable, SourceTable};
use tl_msg::OutOfMemory;

/// Returns whether a table distinguishes three sources, of which two begin and one ends.
fn notes_sources(table: &mut SourceTable) -> bool {
    let is_free = !table.busy(0x0107);
    table.begin(0x0107);
    table.begin(0xffff);
    let is_begun = table.busy(0x0107) & table.busy(0xffff) & !table.busy(0x0007);
    table.end(0x0007);
    table.end(0x0107);
    is_free & is_begun & !table.busy(0x0107) & table.busy(0xffff)
}

const FIRST: Request = Request {
    size: 2,
    address: 0x100c,
};

const SECOND: Request = Request {
    size: 6,
    address: u64::MAX - 63,
};

/// Returns the requests of three sources.
fn three_requests(table: &RequestTable) -> [Option<Request>; 3] {
    [table.get(0x0111), table.get(0xffff), table.get(0x0011)]
}

/// Returns whether a table distinguishes three sources: two of them send requests, one of these
/// twice, and that one ends.
fn notes_requests(table: &mut RequestTable) -> bool {
    let is_free = table.get(0x0111) == None;
    table.begin(0x0111, FIRST);
    table.begin(0xffff, SECOND);
    let is_begun = three_requests(table) == [Some(FIRST), Some(SECOND), None];
    table.begin(0x0111, SECOND);
    let is_again = table.get(0x0111) == Some(SECOND);
    table.end(0x0011);
    table.end(0x0111);
    let is_ended = three_requests(table) == [None, Some(SECOND), None];
    is_free & is_begun & is_again & is_ended
}

#[test]
fn sources_in_use_and_requests_that_wait(rt: HostRuntime) {
    let are_sources = lent(SourceTable::new(rt.alloc()), notes_sources);
    assert!(rt; are_sources & lent(RequestTable::new(rt.alloc()), notes_requests));
}

/// Returns whether there is no memory for a table of this kind.
fn has_no_sources(heap: &LocalHeap) -> bool {
    SourceTable::new(heap).err() == Some(OutOfMemory)
}

fn has_no_requests(heap: &LocalHeap) -> bool {
    RequestTable::new(heap).err() == Some(OutOfMemory)
}

/// Returns whether two tables allocate this number of bytes, there is no memory for a third one of
/// either kind, a failed allocation loses none, and all of it is free after they are dropped.
fn take_their_memory(heap: &LocalHeap) -> bool {
    let sources = SourceTable::new(heap);
    let has_sources = sources.is_ok() & (heap.used() == 1 << 16);
    let requests = RequestTable::new(heap);
    let has_both = requests.is_ok() & (heap.used() == 17 << 16);
    let has_no_third = has_no_sources(heap) & has_no_requests(heap) & (heap.used() == 17 << 16);
    let_both_go(sources, requests);
    has_sources & has_both & has_no_third & (heap.used() == 0)
}

/// A table of sources allocates one byte for each of the 65,536 sources, and a table of requests 16
/// bytes.
#[test]
fn tables_take_their_memory_at_once(rt: HostRuntime) {
    let heap = LocalHeap::new(rt.alloc(), 17 << 16).expect(&rt, "there is memory");
    assert!(rt; take_their_memory(&heap));
}

/// A heap allocates at least 16 bytes at a time. So an allocation fails even if only a few bytes
/// are missing.
#[test]
fn tables_without_memory(rt: HostRuntime) {
    let small = LocalHeap::new(rt.alloc(), (1 << 16) - 16).expect(&rt, "there is memory");
    let large = LocalHeap::new(rt.alloc(), (16 << 16) - 16).expect(&rt, "there is memory");
    assert!(rt; has_no_sources(&small) & has_no_requests(&large) & (large.used() == 0));
}

#[test]
fn laws_can_be_called(_rt: HostRuntime) {
    one_settled_state();
    every_run();
    steps_are_admitted::<4, 16>();
}
