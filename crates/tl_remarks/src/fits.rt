//! The rules for a response to a message.
use crate::remark::{Message, Rule};
use tl_msg::Kind;

/// The caps toT and toB, params of a Grant and of a probe: the most permission that may be kept.
const TO_T: u8 = 0;

const TO_B: u8 = 1;

/// The param of an Acquire that requests permission to read, from none.
pub const N_TO_B: u8 = 0;

/// Returns whether a message of kind `answer` may respond to one of kind `ask` (TileLink: the
/// response of each message).
fn may_answer(ask: Kind, answer: Kind) -> bool {
    match ask {
        Kind::PutFullData | Kind::PutPartialData => matches!(answer, Kind::AccessAck),
        Kind::ArithmeticData | Kind::LogicalData | Kind::Get => {
            matches!(answer, Kind::AccessAckData)
        }
        Kind::Intent => matches!(answer, Kind::HintAck),
        Kind::AcquireBlock => matches!(answer, Kind::Grant | Kind::GrantData),
        Kind::AcquirePerm => matches!(answer, Kind::Grant),
        Kind::ProbeBlock => matches!(answer, Kind::ProbeAck | Kind::ProbeAckData),
        Kind::ProbePerm => matches!(answer, Kind::ProbeAck),
        _ => true,
    }
}

/// Returns whether a Grant gives the permission that an Acquire requests: for NtoB a cap toB or
/// toT, otherwise toT (TileLink: Grant).
fn is_granted(growth: u8, cap: u8) -> bool {
    cap == TO_T || (growth == N_TO_B && cap == TO_B)
}

/// Returns the permission that a report keeps: 0 for none, 1 to read, 2 to read and write
/// (TileLink: shrink and report permissions).
fn kept(report: u8) -> u8 {
    match report {
        0 | 4 => 1,
        3 => 2,
        _ => 0,
    }
}

/// Returns the permission that a probe leaves (TileLink: cap permissions).
fn left(cap: u8) -> u8 {
    match cap {
        TO_T => 2,
        TO_B => 1,
        _ => 0,
    }
}

/// Returns the rule that a response to this message breaks, or `None`.
pub fn rule_of(ask: &Message, answer: &Message) -> Option<Rule> {
    let (Some(asked), Some(answered)) = (ask.kind, answer.kind) else {
        return None;
    };
    let is_acquire = matches!(asked, Kind::AcquireBlock | Kind::AcquirePerm);
    let is_probe = matches!(asked, Kind::ProbeBlock | Kind::ProbePerm);
    if !may_answer(asked, answered) {
        Some(Rule::OtherResponse)
    } else if is_acquire & !answer.denied & !is_granted(ask.param, answer.param) {
        Some(Rule::OtherCap)
    } else if is_probe & (kept(answer.param) > left(ask.param)) {
        Some(Rule::LeavesMore)
    } else {
        None
    }
}
