#![tactic(auto, using(tl_lanes::proofs::Widths::width_4, tl_lanes::proofs::Widths::width_8))]

use tl_lanes::{WIDEST, active, beat_bytes, beats, is_width, lane, move_lanes, move_mask};

/// For a message of 2 bytes that wraps around the end of a bus of 4, and for one of 8 bytes.
#[test]
fn counts_and_lanes(rt: HostRuntime) {
    let is_counted = (beat_bytes(1, 4) == 2) & (beats(true, 3, 4) == 2) & (beats(false, 3, 4) == 1);
    let is_placed = (lane(3, 1, 4) == 0) & (active(3, 1, 4) == 0x9);
    assert!(rt; is_counted & is_placed & is_width(WIDEST) & !is_width(3));
}

/// Moves no lane of a bus of 4 into one of 8, and then all of them into the upper half.
#[test]
fn moved_lanes(rt: HostRuntime) {
    let mut lanes = [9; 8];
    move_lanes::<4, 8>(&[0, 1, 2, 3], &mut lanes, 4, 0);
    let is_kept = lanes == [9; 8];
    move_lanes::<4, 8>(&[0, 1, 2, 3], &mut lanes, 4, 4);
    assert!(rt; is_kept & (lanes == [9, 9, 9, 9, 0, 1, 2, 3]));
}

/// Moves the upper half of a bus of 8 into one of 4, and a bus of 4 into the lower half of one of
/// 8.
#[test]
fn moved_bits(rt: HostRuntime) {
    assert!(rt;
        (move_mask(0xf0, 8, 0, 4, 4, 4) == 0xf) & (move_mask(0x5, 4, 0xf0, 8, 0, 4) == 0xf5)
    );
}
