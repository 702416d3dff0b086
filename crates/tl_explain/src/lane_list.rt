//! Lanes in words.
use tl_lanes::{MAX_SIZE, Mask, WIDEST, active, is_width};
use tl_text::TextBuf;

/// Returns the lanes of a message of `2^size` bytes at this address, on a bus of `w` bytes. Returns
/// `None` if there is no such message or no such bus.
pub fn lanes_of(address: u64, size: u8, w: usize) -> Option<Mask> {
    if size > MAX_SIZE || !is_width(w) {
        return None;
    }
    Some(active(address, size, w))
}

/// Returns whether a mask has this lane; false after the last lane.
pub fn has_lane(mask: Mask, lane: usize) -> bool {
    lane < WIDEST && (mask >> lane) & 1 == 1
}

/// Writes the lanes of a mask: `no lane`, `lane 3`, or `lanes 0, 2 to 5`.
pub fn put_lanes(out: &mut TextBuf, mask: Mask) {
    out.put_text(match mask.count_ones() {
        0 => "no lane",
        1 => "lane ",
        _ => "lanes ",
    });
    let firsts = mask & !(mask << 1);
    let lasts = mask & !(mask >> 1);
    let mut separator = "";
    for lane in 0..WIDEST {
        if has_lane(firsts | lasts, lane) {
            let is_first = has_lane(firsts, lane);
            out.put_text(if is_first { separator } else { " to " });
            out.put_number(lane as u64);
            separator = ", ";
        }
    }
}
