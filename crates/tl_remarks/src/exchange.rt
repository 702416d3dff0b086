//! Matching of messages with their responses, as the bridge does.
use crate::fits::rule_of;
use crate::remark::{Message, Noted, Rule};

/// The line at which each channel stops, from A to E: the line of its first beat that was not
/// accepted, or `u64::MAX`. From that line on, it is not known which messages the channel carries.
pub type Stops = [u64; 5];

/// Returns the line at which the channel with this letter stops.
pub fn stop_of(stops: &Stops, letter: u8) -> u64 {
    let stop = stops.get(letter.wrapping_sub(b'A') as usize);
    stop.copied().unwrap_or(u64::MAX)
}

/// Returns the channel that carries the responses to the messages of this one.
pub fn answered_on(letter: u8) -> u8 {
    match letter {
        b'B' => b'C',
        b'D' => b'E',
        _ => b'D',
    }
}

/// The messages of one rank that need a response, and the responses of that rank, each in the order
/// of lines. Only the last one of each can be a message that was not accepted.
#[derive(Clone, Copy)]
pub struct Exchanges<'a> {
    pub asks: &'a [Message],
    pub answers: &'a [Message],
    pub stops: &'a Stops,
}

impl Exchanges<'_> {
    /// Matches the first message with the first response, and so on, because an id is free for
    /// another message after the one before it has its response. Adds remarks on both, unless the
    /// order of time is known. A missing partner gets a remark only if its channel does not stop.
    fn pair_up(&self, in_order: bool, noted: &mut Noted) {
        for at in 0..self.asks.len().max(self.answers.len()) {
            let ask = self.asks.get(at).filter(|ask| ask.is_accepted);
            let answer = self.answers.get(at).filter(|answer| answer.is_accepted);
            let (rule, message, partner) = match (ask, answer) {
                (Some(ask), Some(answer)) => (rule_of(ask, answer), answer, ask),
                (Some(ask), None) => {
                    let is_missing = stop_of(self.stops, answered_on(ask.letter)) == u64::MAX;
                    (is_missing.then_some(Rule::NotAnswered), ask, ask)
                }
                (None, Some(answer)) => {
                    let is_missing = stop_of(self.stops, answer.asked_on) == u64::MAX;
                    (is_missing.then_some(Rule::AnswersNothing), answer, answer)
                }
                (None, None) => continue,
            };
            if let Some(ask) = ask {
                noted.push_exchange(ask, answer.map_or(u64::MAX, |answer| answer.line));
            }
            if !in_order {
                noted.push_remark(rule, message, partner);
            }
        }
    }
}

/// Divides sorted messages into those of this rank and those after them.
fn split_rank(messages: &[Message], rank: u128) -> (&[Message], &[Message]) {
    let same = messages.iter().take_while(|message| message.rank() == rank);
    messages
        .split_at_checked(same.count())
        .unwrap_or((messages, &[]))
}

/// Matches messages with responses as the bridge does, and if `in_order` is true also in the order
/// of time. Adds the remarks of one matching, the latter if it is made, in the order of ranks. Both
/// lists are sorted by rank, and within a rank by line.
pub fn judge(
    asks: &[Message],
    answers: &[Message],
    stops: &Stops,
    in_order: bool,
    noted: &mut Noted,
) {
    let (mut asks, mut answers) = (asks, answers);
    for _ in 0..asks.len().saturating_add(answers.len()) {
        let rank = match (asks.first(), answers.first()) {
            (Some(ask), Some(answer)) => ask.rank().min(answer.rank()),
            (Some(message), None) | (None, Some(message)) => message.rank(),
            (None, None) => return,
        };
        let (asked, asks_after) = split_rank(asks, rank);
        let (answered, answers_after) = split_rank(answers, rank);
        let exchanges = Exchanges {
            asks: asked,
            answers: answered,
            stops,
        };
        exchanges.pair_up(in_order, noted);
        if in_order {
            exchanges.judge_in_order(noted);
        }
        (asks, answers) = (asks_after, answers_after);
    }
}
