use crate::lending::holds_at;
use std::alloc::Global;
use tl_order::Order;
use tl_words::{command_line_of, order_of};

/// A row: words, the command that they give, and the file that they name.
type Line = (&'static [&'static str], Order, Option<&'static str>);

const USUAL_RUN: Order = Order::Run {
    ring: 16,
    turns: 4,
    sync: false,
};

const LEAST_RUN: Order = Order::Run {
    ring: 1,
    turns: 1,
    sync: true,
};

const LARGEST_RUN: Order = Order::Run {
    ring: 4096,
    turns: 1000,
    sync: false,
};

const LINES: [Line; 6] = [
    (&["tlbridge", "run"], USUAL_RUN, None),
    (
        &["tlbridge", "run", "--ring", "1", "--turns", "1", "--sync"],
        LEAST_RUN,
        None,
    ),
    (
        &["tlbridge", "run", "--ring", "4096", "--turns", "1000"],
        LARGEST_RUN,
        None,
    ),
    (
        &[
            "tlbridge", "run", "--ring", "4096", "a b", "--turns", "1000",
        ],
        LARGEST_RUN,
        Some("a b"),
    ),
    (&["tlbridge", "check"], Order::Check, None),
    (
        &["tlbridge", "check", "--", "--sync"],
        Order::Check,
        Some("--sync"),
    ),
];

fn asks_for(alloc: Global, line: &Line) -> bool {
    matches!(command_line_of(alloc, line.0), Ok(asked) if asked.order == line.1 && asked.file == line.2)
}

fn gives(alloc: Global, line: &Line) -> bool {
    matches!(order_of(alloc, line.0), Ok(order) if order == line.1)
}

#[test]
fn lines(rt: HostRuntime) {
    for (number, line) in LINES.iter().enumerate() {
        holds_at(
            &rt,
            asks_for(rt.alloc(), line) & gives(rt.alloc(), line),
            number,
        );
    }
}
