//! Tests of lanes, messages, bursts, the converter and traces.
mod bursts;
mod conversion;
mod lanes;
mod messages;
mod trace;
