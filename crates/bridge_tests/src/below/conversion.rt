#![tactic(auto, using(tl_lanes::proofs::Widths::width_4, tl_lanes::proofs::Widths::width_8))]

use crate::values::put;
use tl_convert::{Converter, far_count};
use tl_lanes::is_width;
use tl_msg::{Beat, ChA};

/// Returns whether a near beat gives these far beats.
fn gives(converter: &mut Converter<ChA, 4, 8>, near: Beat<ChA, 4>, far: &[Beat<ChA, 8>]) -> bool {
    match converter.feed(near, 0) {
        Ok(out) => out.as_slice() == far,
        Err(_) => false,
    }
}

/// Returns whether two beats of 4 bytes make one of 8.
fn are_joined(converter: &mut Converter<ChA, 4, 8>) -> bool {
    let is_begun = gives(converter, put(3, 16, 0xf, [0, 1, 2, 3]), &[]) & !converter.at_boundary();
    let far = [put(3, 16, 0xff, [0, 1, 2, 3, 4, 5, 6, 7])];
    let is_given = gives(converter, put(3, 16, 0xf, [4, 5, 6, 7]), &far);
    is_begun & is_given & converter.at_boundary()
}

/// Returns whether a list of near beats of 4 bytes gives this number of far beats.
fn has_count<const V: usize>(beats: &[Beat<ChA, 4>], far: usize) -> bool {
    is_width(V) && beats.len() <= 5 && far_count::<ChA, 4, V>(beats) == far
}

/// Also the number of far beats of three of the four beats of a message, of no beat, and of a
/// message whose head changes.
#[test]
fn a_widened_burst(rt: HostRuntime) {
    let next: Beat<ChA, 4> = put(4, 32, 0xf, [0; 4]);
    let three = [next; 3];
    let are_three = has_count::<8>(&three, 1)
        & has_count::<4>(&three, 3)
        & has_count::<1>(&three, 12);
    let changed = [next, next, put(4, 64, 0xf, [0; 4]), next, next];
    let are_two = has_count::<8>(&changed, 1)
        & has_count::<4>(&changed, 2)
        & has_count::<1>(&changed, 8);
    assert!(rt; are_joined(&mut Converter::new()) & are_three & are_two & has_count::<8>(&[], 0));
}
