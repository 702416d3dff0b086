//! Heads that were read before, so that they are not read again.
ghost use Rattle.std.specs.Prelude.{ℕ, ◌≡◌, ◌≤◌, ◌+◌, List, length, IfSome};
ghost use Rattle.std.specs.List.{slice_range};
ghost use Rattle.tl_trace.specs.Inner.KnownHeads.{head_length, HasHead, IsKnown, AreKnown};

use crate::head_reader::ReadHead;
use crate::same_text::repeats_at;
use tl_msg::{HeadA, HeadB, HeadC, HeadD, HeadE};

/// A head that was read, and the position where its line begins.
#[derive(Drop)]
pub struct KnownHead<H> {
    pub at: usize,
    pub head: H,
}

/// The last head of each channel.
#[derive(Drop)]
pub struct LastHeads {
    pub a: Option<KnownHead<HeadA>>,
    pub b: Option<KnownHead<HeadB>>,
    pub c: Option<KnownHead<HeadC>>,
    pub d: Option<KnownHead<HeadD>>,
    pub e: Option<KnownHead<HeadE>>,
}

/// Returns the state without a head on any channel.
pub fn no_heads() -> LastHeads
    ensures { (version : ℕ) (text : List ℕ) → AreKnown version text result }
{
    LastHeads {
        a: None,
        b: None,
        c: None,
        d: None,
        e: None,
    }
}

/// Returns the head in a text that goes from the letter to the last field of the head. Returns
/// `None` if it has a fault.
#[inline(never)]
fn new_head<K: ReadHead, const VERSION: u8>(text: &[u8]) -> Option<K::Head>
    requires { length text.now ≡ head_length (K.form VERSION) }
    ensures { IfSome result (HasHead (K.form VERSION) VERSION text.now) }
{
    let fields = K::read_head(text, VERSION);
    if fields.bad > 15 {
        return None;
    }
    K::head_of(&fields)
}

/// Returns the head of the line that begins at `at`, or `None` if it has a fault. If its text is
/// the same as that of the last line of its channel, up to the end of the head, the head is not
/// read again.
#[inline(always)]
pub fn head_at<K: ReadHead, const VERSION: u8>(
    text: &[u8],
    at: usize,
    last: &mut Option<KnownHead<K::Head>>,
) -> Option<K::Head>
    requires room { at + head_length (K.form VERSION) ≤ length text.now }
    requires known { IfSome last.old (IsKnown (K.form VERSION) VERSION text.now) }
    ensures head { IfSome result (HasHead (K.form VERSION) VERSION
        (slice_range text.now at (at + head_length (K.form VERSION)))) }
    ensures known { IfSome last.new (IsKnown (K.form VERSION) VERSION text.now) }
{
    let len = K::head_end(VERSION);
    if let Some(before) = last {
        if repeats_at(text, at, before.at, len) {
            return Some(before.head);
        }
    }
    let Some(head) = new_head::<K, VERSION>(&text[at..at + len]) else {
        return None;
    };
    *last = Some(KnownHead { at, head });
    Some(head)
}
