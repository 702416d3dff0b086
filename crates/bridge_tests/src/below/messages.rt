use crate::values::blank;
use tl_msg::{
    Beat, BeatFault, BeatOf, ChA, ChB, ChC, ChD, ChE, Channel, HeadA, HeadB, HeadC, HeadD, HeadE,
    Kind, SideFault, Verdict,
};

/// Returns whether each item is equal to itself, and to no other item of the list.
fn are_told_apart<T: PartialEq>(items: &[T]) -> bool {
    for (i, x) in items.iter().enumerate() {
        for (j, y) in items.iter().enumerate() {
            if (x == y) != (i == j) {
                return false;
            }
        }
    }
    true
}

const BEAT_FAULTS: [BeatFault; 7] = [
    BeatFault::Opcode,
    BeatFault::Param,
    BeatFault::Size,
    BeatFault::Unaligned,
    BeatFault::Mask,
    BeatFault::Corrupt,
    BeatFault::HeadChanged,
];

const SIDE_FAULTS: [SideFault; 10] = [
    SideFault::Beat(BeatFault::Opcode),
    SideFault::Beat(BeatFault::Param),
    SideFault::Beat(BeatFault::Size),
    SideFault::Beat(BeatFault::Unaligned),
    SideFault::Beat(BeatFault::Mask),
    SideFault::Beat(BeatFault::Corrupt),
    SideFault::Beat(BeatFault::HeadChanged),
    SideFault::SourceBusy,
    SideFault::NoRequest,
    SideFault::SizeMismatch,
];

const KINDS: [Kind; 20] = [
    Kind::PutFullData,
    Kind::PutPartialData,
    Kind::ArithmeticData,
    Kind::LogicalData,
    Kind::Get,
    Kind::Intent,
    Kind::AcquireBlock,
    Kind::AcquirePerm,
    Kind::ProbeBlock,
    Kind::ProbePerm,
    Kind::AccessAck,
    Kind::AccessAckData,
    Kind::HintAck,
    Kind::ProbeAck,
    Kind::ProbeAckData,
    Kind::Release,
    Kind::ReleaseData,
    Kind::Grant,
    Kind::GrantData,
    Kind::ReleaseAck,
];

const BUSY: SideFault = SideFault::SourceBusy;

const NO_REQUEST: SideFault = SideFault::NoRequest;

const VERDICTS: [Verdict; 12] = [
    Verdict::Done { near: 1, far: 1 },
    Verdict::Done { near: 2, far: 1 },
    Verdict::Done { near: 1, far: 2 },
    Verdict::Cut { near: 1, far: 1 },
    Verdict::Cut { near: 2, far: 1 },
    Verdict::Cut { near: 1, far: 2 },
    Verdict::Refused { at: 1, fault: BUSY },
    Verdict::Refused { at: 2, fault: BUSY },
    Verdict::Refused {
        at: 1,
        fault: NO_REQUEST,
    },
    Verdict::Waiting { at: 1, fault: BUSY },
    Verdict::Waiting { at: 2, fault: BUSY },
    Verdict::Waiting {
        at: 1,
        fault: NO_REQUEST,
    },
];

const ZERO: Beat<ChE, 2> = BeatOf {
    head: HeadE { sink: 0 },
    mask: 0,
    lanes: [0, 0],
    corrupt: false,
};

const BEATS: [Beat<ChE, 2>; 6] = [
    ZERO,
    BeatOf {
        head: HeadE { sink: 1 },
        ..ZERO
    },
    BeatOf { mask: 1, ..ZERO },
    BeatOf {
        lanes: [1, 0],
        ..ZERO
    },
    BeatOf {
        lanes: [0, 1],
        ..ZERO
    },
    BeatOf {
        corrupt: true,
        ..ZERO
    },
];

#[test]
fn values_are_told_apart(rt: HostRuntime) {
    let are_faults = are_told_apart(&BEAT_FAULTS) & are_told_apart(&SIDE_FAULTS);
    let are_others = are_told_apart(&KINDS) & are_told_apart(&VERDICTS) & are_told_apart(&BEATS);
    assert!(rt; are_faults & are_others);
}

/// A head of A or B with zero in all fields. The fields of C have the same names.
const ZERO_A: HeadA = HeadA {
    opcode: 0,
    param: 0,
    size: 0,
    source: 0,
    address: 0,
};

const ZERO_B: HeadB = HeadB {
    opcode: 0,
    param: 0,
    size: 0,
    source: 0,
    address: 0,
};

const ZERO_C: HeadC = HeadC {
    opcode: 0,
    param: 0,
    size: 0,
    source: 0,
    address: 0,
};

const ZERO_D: HeadD = HeadD {
    opcode: 0,
    param: 0,
    size: 0,
    source: 0,
    sink: 0,
    denied: false,
};

const ZERO_E: HeadE = HeadE { sink: 0 };

/// Returns whether a value is the default of its type.
fn is_default<T: Default + PartialEq + Drop>(value: &T) -> bool {
    *value == T::default()
}

#[test]
fn default_beats_are_zero(rt: HostRuntime) {
    let have_masks = is_default(&blank::<HeadA, 4>(ZERO_A, 0))
        & is_default(&blank::<HeadB, 4>(ZERO_B, 0));
    let have_none = is_default(&blank::<HeadC, 4>(ZERO_C, 0))
        & is_default(&blank::<HeadD, 4>(ZERO_D, 0));
    assert!(rt; have_masks & have_none & is_default(&blank::<HeadE, 4>(ZERO_E, 0)));
}

#[test]
fn letters_and_masks(rt: HostRuntime) {
    let letters = [
        ChA::LETTER,
        ChB::LETTER,
        ChC::LETTER,
        ChD::LETTER,
        ChE::LETTER,
    ];
    let masked = [
        ChA::MASKED,
        ChB::MASKED,
        ChC::MASKED,
        ChD::MASKED,
        ChE::MASKED,
    ];
    assert!(rt; (letters == *b"ABCDE") & (masked == [true, true, false, false, false]));
}
