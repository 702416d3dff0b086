//! Matching of messages with their responses in a trace whose lines are in the order of time.
use crate::exchange::{Exchanges, answered_on, stop_of};
use crate::fits::rule_of;
use crate::remark::{Message, Noted, Rule};
use arrayvec::ArrayVec;

/// The largest number of messages that are assumed to share an id. If more would have to share it,
/// the response to the first one is assumed to be missing.
const MOST_SHARED: usize = 4;

/// Returns the number of messages, from index `from` up to the first one that does not come before
/// this line.
fn count_before(messages: &[Message], from: usize, line: u64) -> usize {
    let messages = messages.get(from..).unwrap_or(&[]).iter();
    messages.take_while(|message| message.line < line).count()
}

/// Returns the index of the message to which a response belongs: the first one before it that has
/// its size and to which it may respond, otherwise the first one.
fn index_for(asks: &[Message], answer: &Message) -> usize {
    let fits = asks.iter().position(|ask| {
        ask.line < answer.line && ask.size == answer.size && rule_of(ask, answer).is_none()
    });
    fits.unwrap_or(0)
}

/// Records that a response belongs to a message, and adds a remark if it breaks a rule. If the
/// response was not accepted, records the message as one without a response.
fn pair(ask: &Message, answer: &Message, noted: &mut Noted) {
    if !answer.is_accepted {
        return noted.push_tie(ask, u64::MAX);
    }
    noted.push_tie(ask, answer.line);
    noted.push_remark(rule_of(ask, answer), answer, ask);
}

impl Exchanges<'_> {
    /// Returns the line of the message at this index; `u64::MAX` if there is none.
    fn line(&self, at: usize) -> u64 {
        self.asks.get(at).map_or(u64::MAX, |message| message.line)
    }

    /// Adds a remark on each of the responses from index `from` on, up to `count` of them, because
    /// they respond to nothing. Adds none on a response after the channel of its messages stopped.
    fn leave(&self, from: usize, count: usize, noted: &mut Noted) {
        for answer in self.answers.get(from..).unwrap_or(&[]).iter().take(count) {
            let is_known = answer.line < stop_of(self.stops, answer.asked_on);
            noted.push_remark(is_known.then_some(Rule::AnswersNothing), answer, answer);
        }
    }

    /// Records that the message at index `at` has no response, or none before the next message with
    /// its id. Adds a remark, except if the message was not accepted or the channel of its response
    /// had stopped by then.
    fn miss(&self, at: usize, ask: &Message, noted: &mut Noted) {
        noted.push_tie(ask, u64::MAX);
        let stop = stop_of(self.stops, answered_on(ask.letter));
        let next = self.asks.get(at.saturating_add(1));
        let is_missing = match next {
            Some(next) => next.line < stop,
            None => stop == u64::MAX && ask.is_accepted,
        };
        noted.push_remark(
            is_missing.then_some(Rule::NotAnswered),
            ask,
            next.unwrap_or(ask),
        );
    }

    /// Matches `count` messages from index `at` on, which share an id, with `count` responses from
    /// index `from` on. Adds a remark on the second message, because it came before the response to
    /// the first one.
    fn share(&self, at: usize, from: usize, count: usize, noted: &mut Noted) {
        let asks = self.asks.get(at..).unwrap_or(&[]);
        if let [first, second, ..] = asks {
            noted.push_remark(Some(Rule::IdInUse), second, first);
        }
        let mut open = ArrayVec::<Message, MOST_SHARED>::new();
        let _ = open.try_extend_from_slice(asks.get(..count).unwrap_or(asks));
        for answer in self.answers.get(from..).unwrap_or(&[]).iter().take(count) {
            if let Some(ask) = open.pop_at(index_for(&open, answer)) {
                pair(&ask, answer, noted);
            }
        }
    }

    /// Returns how many messages from index `at` on share an id, if no response comes between the
    /// first two. `from` is the number of responses before the message at `at`. By the message
    /// after the shared ones, there is a response to each of them. Returns `None` if a response is
    /// missing.
    fn shared(&self, at: usize, from: usize) -> Option<usize> {
        for count in 2..=MOST_SHARED {
            let next = at.saturating_add(count);
            let behind = count_before(self.answers, from, self.line(next));
            if behind >= count {
                return Some(count);
            }
            if behind < count - 1 || next > self.asks.len() {
                return None;
            }
        }
        None
    }

    /// Matches the message at index `at`, and those that share its id, with responses. `from` is
    /// the number of responses before that message. Returns the numbers of messages and of
    /// responses that it handled. Between two messages with one id, one response is expected.
    fn step(&self, at: usize, ask: &Message, from: usize, noted: &mut Noted) -> (usize, usize) {
        let count = count_before(self.answers, from, self.line(at.saturating_add(1)));
        if let (Some(answer), true) = (self.answers.get(from), count > 0) {
            pair(ask, answer, noted);
            self.leave(from.saturating_add(1), count.saturating_sub(1), noted);
            (1, count)
        } else if let Some(count) = self.shared(at, from) {
            self.share(at, from, count, noted);
            (count, count)
        } else {
            self.miss(at, ask, noted);
            (1, 0)
        }
    }

    /// Matches all messages with their responses, and adds the remarks on them.
    pub fn judge_in_order(&self, noted: &mut Noted) {
        let (mut at, mut from) = (0usize, 0usize);
        for _ in 0..self.asks.len() {
            let Some(ask) = self.asks.get(at) else {
                break;
            };
            let unasked = count_before(self.answers, from, ask.line);
            self.leave(from, unasked, noted);
            from = from.saturating_add(unasked);
            let (asked, answered) = self.step(at, ask, from, noted);
            at = at.saturating_add(asked);
            from = from.saturating_add(answered);
        }
        self.leave(from, self.answers.len(), noted);
    }
}
