//! A trace of one beat on each channel, and its script.
#![tactic(auto, using(tl_lanes::proofs::Widths::width_4, tl_lanes::proofs::Widths::width_8))]

ghost use Rattle.std.specs.Prelude.{IfOk, IsTrue};
ghost use Rattle.tl_parts.specs.Parts.{HasShortLists};

use std::alloc::Global;
use tl_trace::{Header, Script, TraceFault, TraceKind, header_of_text, read_script};

pub const FIVE: &str = "tilelink-trace 1 client 4 manager 8
E 07
D 4 0 6 01 07 0 0000000000000000 0
C 4 1 6 00 0000000000000080 00000000 0
B 7 2 6 00 0000000000000080 ff 0000000000000000 0
A 7 2 6 01 0000000000000040 f 00000000 0
";

/// Returns a script without beats.
pub fn empty<const C: usize, const M: usize>(alloc: Global) -> Script<C, M> {
    Script {
        a: Vec::new(alloc),
        b: Vec::new(alloc),
        c: Vec::new(alloc),
        d: Vec::new(alloc),
        e: Vec::new(alloc),
    }
}

/// Returns whether each list has one beat.
pub fn has_one_each(script: &Script<4, 8>) -> bool {
    (script.a.len() == 1)
        & (script.b.len() == 1)
        & (script.c.len() == 1)
        & (script.d.len() == 1)
        & (script.e.len() == 1)
}

/// Returns whether each list has at most 4,096 beats.
pub fn is_short<const C: usize, const M: usize>(script: &Script<C, M>) -> bool
    ensures { IsTrue result → HasShortLists script.now }
{
    (script.a.len() <= 4096)
        & (script.b.len() <= 4096)
        & (script.c.len() <= 4096)
        & (script.d.len() <= 4096)
        & (script.e.len() <= 4096)
}

const HEADER: Header = Header {
    version: 1,
    client: 4,
    manager: 8,
};

/// The fault that is returned if the text has another header, or its script is too long.
const OTHER: TraceFault = TraceFault {
    line: 1,
    kind: TraceKind::Header,
};

/// Returns the script of [`FIVE`].
pub fn script_of_five(alloc: Global) -> Result<Script<4, 8>, TraceFault>
    ensures { IfOk result HasShortLists }
{
    if header_of_text(FIVE.as_bytes()) != Some(HEADER) {
        return Err(OTHER);
    }
    match read_script::<4, 8>(alloc, FIVE.as_bytes(), 1) {
        Ok(script) if is_short(&script) => Ok(script),
        Ok(_) => Err(OTHER),
        Err(fault) => Err(fault),
    }
}
