use std::alloc::Global;
use std::fmt::Display;
use tl_bridge::RunFault;
use tl_msg::{BeatFault, OutOfMemory, SideFault};
use tl_ring::{BuildFault, EndFault};
use tl_trace::{TraceFault, TraceKind};

/// Returns whether a value is printed as this text.
fn is_printed<T: Display>(alloc: Global, value: &T, text: &str) -> bool {
    match format!(in alloc; "{value}") {
        Ok(printed) => printed.as_str() == text,
        Err(_) => false,
    }
}

/// Number and name of a fault of each type.
#[test]
fn faults_are_printed(rt: HostRuntime) {
    let alloc = rt.alloc();
    let in_trace = TraceFault {
        line: 2,
        kind: TraceKind::Range,
    };
    let are_below = is_printed(alloc, &BeatFault::HeadChanged, "7 HeadChanged")
        & is_printed(alloc, &SideFault::Beat(BeatFault::Mask), "5 Mask")
        & is_printed(alloc, &in_trace, "line 2: 18 Range")
        & is_printed(alloc, &OutOfMemory, "13 OutOfMemory");
    let are_above = is_printed(alloc, &BuildFault::RingSize, "12 RingSize")
        & is_printed(alloc, &EndFault::MidBurst, "11 MidBurst")
        & is_printed(alloc, &RunFault::Stalled, "20 Stalled");
    assert!(rt; are_below & are_above);
}
