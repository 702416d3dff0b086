//! Remarks, and the messages that belong together.
use std::alloc::Global;
use tl_msg::Kind;

/// A message of an exchange: one that needs a response, or its response.
#[derive(Clone, Copy, Default)]
pub struct Message {
    /// The line of its first beat, and the letter of its channel.
    pub line: u64,
    pub letter: u8,
    /// The letter of the channel of the first message in the exchange.
    pub asked_on: u8,
    /// `None` on E.
    pub kind: Option<Kind>,
    pub param: u8,
    /// The message has `2^size` bytes.
    pub size: u8,
    pub denied: bool,
    /// The source or sink by which the message and its response are matched.
    pub id: u16,
    /// 0 on D and E.
    pub address: u64,
    /// Whether its first beat was accepted.
    pub is_accepted: bool,
}

impl Message {
    /// Returns the key by which a message and its response are matched, as a number: their id, and
    /// on B and C also their address.
    pub(crate) fn rank(&self) -> u128 {
        let address = if self.asked_on == b'B' {
            self.address
        } else {
            0
        };
        (self.asked_on as u128) << 80 | (address as u128) << 16 | (self.id as u128)
    }
}

/// The rules behind the remarks on a message, by the SiFive TileLink Specification 1.8.
#[derive(Clone, Copy)]
pub enum Rule {
    /// It is not a response of the right kind for its partner, the matched request.
    OtherResponse,
    /// It grants less than its partner requests.
    OtherCap,
    /// It reports that more permission is kept than its partner leaves.
    LeavesMore,
    /// It has no response, or none before its partner, which has the same id.
    NotAnswered,
    /// There is no message to which it could respond.
    AnswersNothing,
    /// It is a ReleaseAck that is denied.
    DeniedAck,
    /// It has data that are denied and not corrupt.
    DeniedData,
    /// It is an AcquirePerm that requests permission to read.
    PermToRead,
    /// Its id is still in use by its partner, which has no response yet.
    IdInUse,
}

/// The names of the rules, in the order of [`Rule`].
const NAMES: &[&str; 9] = &[
    "OtherResponse",
    "OtherCap",
    "LeavesMore",
    "NotAnswered",
    "AnswersNothing",
    "DeniedAck",
    "DeniedData",
    "PermToRead",
    "IdInUse",
];

impl Rule {
    /// Returns the number of the rule, from 1.
    pub fn number(self) -> u8 {
        (self as u8).saturating_add(1)
    }

    /// Returns the name of the rule.
    pub fn name(self) -> &'static str {
        NAMES[self as usize]
    }
}

/// A remark on a message. If its rule is about one message, that message is also the partner.
#[derive(Clone, Copy)]
pub struct Remark {
    pub rule: Rule,
    pub message: Message,
    pub partner: Message,
}

/// A message, and the line in which its response begins.
#[derive(Clone, Copy)]
pub struct Exchange {
    pub ask: Message,
    /// `u64::MAX` if the message has no response.
    pub answer: u64,
}

impl Exchange {
    /// Returns whether the message has no response.
    pub fn is_open(&self) -> bool {
        self.answer == u64::MAX
    }
}

/// The remarks and exchanges of the messages of a trace. Allocation failures are recorded and
/// reported once, at the end.
#[derive(Drop)]
pub struct Noted {
    /// The remarks in the order of their lines; empty if none are wanted.
    pub remarks: Vec<Remark>,
    /// The exchanges in the order of the lines of their responses, followed by those without a
    /// response.
    pub exchanges: Vec<Exchange>,
    /// The exchanges of accepted messages, matched in the order of time. Empty if it is not known.
    pub ties: Vec<Exchange>,
    pub(crate) wants_remarks: bool,
    pub out_of_memory: bool,
}

impl Noted {
    /// Returns an empty value.
    pub(crate) fn new(alloc: Global, wants_remarks: bool) -> Noted {
        Noted {
            remarks: Vec::new(alloc),
            exchanges: Vec::new(alloc),
            ties: Vec::new(alloc),
            wants_remarks,
            out_of_memory: false,
        }
    }

    /// Adds a remark, if there is one and remarks are wanted.
    pub(crate) fn push_remark(&mut self, rule: Option<Rule>, message: &Message, partner: &Message) {
        if let (Some(rule), true) = (rule, self.wants_remarks) {
            let remark = Remark {
                rule,
                message: *message,
                partner: *partner,
            };
            self.out_of_memory |= self.remarks.push(remark).is_err();
        }
    }

    /// Adds a message whose response begins in line `answer`.
    pub(crate) fn push_exchange(&mut self, ask: &Message, answer: u64) {
        let exchange = Exchange { ask: *ask, answer };
        self.out_of_memory |= self.exchanges.push(exchange).is_err();
    }

    /// Adds a message whose response, matched in the order of time, begins in line `answer`. Does
    /// nothing if the message was not accepted.
    pub(crate) fn push_tie(&mut self, ask: &Message, answer: u64) {
        let exchange = Exchange { ask: *ask, answer };
        if ask.is_accepted {
            self.out_of_memory |= self.ties.push(exchange).is_err();
        }
    }
}
