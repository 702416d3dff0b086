//! The steps of a call of a handle.

/// Makes a call on the value that a handle holds, which is taken out for the call and put back.
/// Evaluates to the result of the call. If the handle holds nothing, the calling function returns
/// `$none` at once.
#[macro_export]
macro_rules! on_held {
    ($handle:ident, $alloc:ident, $none:expr, |$held:ident| $call:expr) => {{
        let Some(mut $held) = $handle.take($alloc) else {
            return $none;
        };
        let answer = $call;
        $handle.put($held);
        answer
    }};
}

/// Makes an offer to a part of the value that a handle holds, as [`on_held!`] makes a call. If the
/// channel accepts no beat now, the calling function returns `NOT_READY` at once.
#[macro_export]
macro_rules! offer_held {
    ($handle:ident, $alloc:ident, $none:expr, $part:ident.$ready:ident, $offer:ident($beat:expr)) => {{
        let Some(mut held) = $handle.take($alloc) else {
            return $none;
        };
        if !held.$part.$ready() {
            $handle.put(held);
            return $crate::NOT_READY;
        }
        let offered = held.$part.$offer($beat);
        $handle.put(held);
        $crate::offer_number(offered)
    }};
}
