//! The first line of a trace.
ghost use Rattle.std.specs.Prelude.{◌≡◌, ◌≤◌, ◌<◌, ◌+◌, find};
ghost use Rattle.tl_lanes.specs.declared.limits.TheConstants.{WIDEST_POWER};
ghost use Rattle.tl_trace.specs.Texts.{header_text, widest_power};
ghost use Rattle.tl_trace.specs.Faults.{headers_of, header_of, is_header_of};

use crate::text::{Text, put, put_decimal};
use arrayvec::ArrayVec;
use tl_lanes::WIDEST_POWER;

/// The contents of the first line of a trace.
#[derive(Clone, Copy, PartialEq, Eq)]
pub struct Header {
    /// The version of the trace, 1 or 2. Ids have two digits in version 1 and four in version 2
    /// (this project's choice).
    pub version: u8,
    /// The width of the client's side in bytes; at most 64 in version 1 (this project's choice).
    pub client: usize,
    /// The width of the manager's side in bytes; at most 64 in version 1 (this project's choice).
    pub manager: usize,
}

/// Returns how many widths a header of this version can have: the powers of two up to 64 in version
/// 1, and up to the widest bus in version 2.
fn width_count(version: u8) -> usize
    ensures count { result ≡ widest_power version + 1 }
    ensures few { result ≤ WIDEST_POWER + 1 }
{
    if version == 1 {
        return 7;
    }
    WIDEST_POWER as usize + 1
}

/// Returns the header of this version and these widths, without its LF.
#[tactic(auto, using(crate::proofs::Decimals::length_decimal))]
pub fn header_text(version: u8, client: usize, manager: usize) -> Text
    ensures { result.items ≡ header_text version client manager }
{
    let mut text = ArrayVec::new();
    put(&mut text, b"tilelink-trace ");
    put_decimal(&mut text, version as u64);
    put(&mut text, b" client ");
    put_decimal(&mut text, client as u64);
    put(&mut text, b" manager ");
    put_decimal(&mut text, manager as u64);
    text
}

/// Returns the header of this version that is `text`, byte for byte, or `None`.
fn header_in(text: &[u8], version: u8) -> Option<Header>
    ensures { result ≡ find (is_header_of text.now) (headers_of version) }
{
    let widths = width_count(version);
    for i in 0..widths * widths {
        let client = 1 << (i / widths);
        let manager = 1 << (i % widths);
        if text == header_text(version, client, manager).as_slice() {
            return Some(Header {
                version,
                client,
                manager,
            });
        }
    }
    None
}

/// Returns the header that is `text`, byte for byte, or `None`.
pub fn header_of(text: &[u8]) -> Option<Header>
    ensures { result ≡ header_of text.now }
{
    match header_in(text, 1) {
        Some(header) => Some(header),
        None => header_in(text, 2),
    }
}
