//! The messages that belong together.
use std::alloc::{AllocError, Global};
use tl_remarks::{Exchange, Noted};

/// The messages that belong to the message that begins in a line.
#[derive(Clone, Copy, Default)]
pub struct Links {
    /// The line of the message to which it responds, and of its response; 0 if there is none.
    pub asked_in: u64,
    pub answered_in: u64,
    /// The address of the request of A with which the bridge matches a response.
    pub home: u64,
    /// The number of the exchange that begins in it, from 1 in the order of lines; 0 if none does.
    pub exchange: u64,
}

/// Returns the index of a line among those from line 2 on.
pub fn index_of(line: u64) -> usize {
    (line as usize).wrapping_sub(2)
}

/// Returns the messages that belong to the one that begins in this line.
pub fn links_at(links: &[Links], line: u64) -> Links {
    links.get(index_of(line)).copied().unwrap_or_default()
}

/// Records which messages and responses belong together.
fn link_all(links: &mut [Links], exchanges: &[Exchange]) {
    for exchange in exchanges {
        if exchange.is_open() {
            break;
        }
        if let Some(ask) = links.get_mut(index_of(exchange.ask.line)) {
            ask.answered_in = exchange.answer;
        }
        if let Some(answer) = links.get_mut(index_of(exchange.answer)) {
            answer.asked_in = exchange.ask.line;
        }
    }
}

/// Returns which messages belong together, for `lines` lines from line 2 on. They are matched in the
/// order of time if it is known, and otherwise as the bridge matches them. Errors: `AllocError` if
/// the allocator fails.
pub fn links_of(
    alloc: Global,
    lines: usize,
    noted: &Noted,
    in_order: bool,
) -> Result<Vec<Links>, AllocError> {
    let mut links = vec![in alloc; Links::default(); lines]?;
    let matched = if in_order {
        &noted.ties
    } else {
        &noted.exchanges
    };
    link_all(links.as_mut_slice(), matched);
    for Exchange { ask, answer } in &noted.exchanges {
        if let (b'A', Some(answer)) = (ask.letter, links.get_mut(index_of(*answer))) {
            answer.home = ask.address;
        }
    }
    Ok(links)
}
