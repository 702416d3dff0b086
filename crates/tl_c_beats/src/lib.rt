//! The part of the library for C that is the same for every pair of widths: the fields of a beat,
//! the counts of waiting beats, the statuses and their texts, the parts of a handle and of the
//! block of an answer, and the settling of both sides of a bridge in one thread.
#![tactic(auto)]

mod answer_block;
mod answers;
mod bridge_id;
mod calls;
mod closes;
mod counts;
mod fields;
pub mod laws;
mod making;
mod masks;
mod parts;
mod settling;
mod text_held;
mod texts;
mod totals;
mod writes;

pub use answer_block::AnswerBlock;
pub use answers::{
    BRIDGE_MISMATCH, NOT_OPEN, NOT_READY, NOT_SENT, NOT_TAKEN, OUT_OF_MEMORY, VERSION,
    WRONG_RECEIPT, close_number, offer_number,
};
pub use bridge_id::BridgeId;
pub use closes::{close_a, close_b, close_c, close_d, close_e};
pub use counts::{BeatCounts, ChannelCounts, channel_counts};
pub use fields::{
    BeatFields, RESERVED, beat_a, beat_b, beat_c, beat_d, beat_e, fields_a, fields_b, fields_c,
    fields_d, fields_e,
};
pub use masks::{high_word, low_word, whole_mask};
pub use parts::{Live, Parts, boxed};
pub use settling::settle;
pub use texts::{NAME_BYTES, SENTENCE_BYTES, StatusText, status_text};
pub use totals::{
    BeatTotals, CLIENT_FINISHED, MANAGER_FINISHED, NOT_FINISHED, count_client, count_manager,
    drained_client, drained_manager, finish_client, finish_manager,
};
pub use writes::{write_a, write_b, write_c, write_d, write_e};
