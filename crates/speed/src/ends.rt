//! Measures one crossing between its two ends, in one thread and in two, and a plain `rtrb` ring
//! that moves the same beats in the same slices.
ghost use Rattle.tl_lanes.specs.Lanes.{IsWidth};

use crate::figures::Figures;
use rtrb::{Consumer, Producer, RingBuffer};
use std::alloc::{AllocError, Global};
use std::slice;
use std::thread::{Threads, join};
use tl_lanes::{Mask, active, is_width};
use tl_msg::{Beat, BeatOf, ChA, ChE, Channel, HeadA, SinkId};
use tl_ring::{STAGE_CAPACITY, SendEnd, TakeEnd, ring_pair};

/// The names of the figures of a crossing and of a plain ring, in their order. Their positions
/// follow.
pub const OF_ENDS: [&str; 5] = [
    "beats",
    "crossing_one_thread",
    "crossing_two_threads",
    "plain_one_thread",
    "plain_two_threads",
];

const BEATS: usize = 0;

/// The positions of the times of a pair of ends: in one thread, and in two.
type Places = (usize, usize);

const CROSSING: Places = (1, 2);

const PLAIN: Places = (3, 4);

/// The number of beats in memory, which are sent repeatedly. They are whole messages.
const SOME: usize = 64;

/// The number of turns after which a side gives up.
const TURNS: usize = 1 << 40;

/// The sending end of a ring.
trait Sender<B> {
    /// Accepts a beat if possible. Returns whether it was accepted.
    fn offer(&mut self, beat: &B) -> bool;

    /// Sends as many accepted beats as possible. Returns whether all of them are sent.
    fn pump(&mut self) -> bool;
}

/// The receiving end of a ring.
trait Taker {
    /// Takes all beats that have arrived. Returns their number. Adds the mask of each to the sum,
    /// so that the beat is read.
    fn take(&mut self, masks: &mut Mask) -> usize;
}

impl<const W: usize> Sender<Beat<ChA, W>> for SendEnd<ChA, W, W> {
    fn offer(&mut self, beat: &Beat<ChA, W>) -> bool {
        is_width(W) && self.ready() && SendEnd::offer(self, *beat, 0).is_ok()
    }

    fn pump(&mut self) -> bool {
        SendEnd::pump(self);
        self.staged() == 0
    }
}

impl Sender<Beat<ChE, 8>> for SendEnd<ChE, 8, 8> {
    #[tactic(auto, using(tl_lanes::proofs::Widths::width_8))]
    fn offer(&mut self, beat: &Beat<ChE, 8>) -> bool {
        self.ready() && SendEnd::offer(self, *beat, 0).is_ok()
    }

    fn pump(&mut self) -> bool {
        SendEnd::pump(self);
        self.staged() == 0
    }
}

impl<K: Channel, const W: usize> Taker for TakeEnd<K, W, W> {
    fn take(&mut self, masks: &mut Mask) -> usize {
        let count = self.fetch();
        for _ in 0..count {
            if let Some(beat) = TakeEnd::take(self) {
                *masks = masks.wrapping_add(beat.mask);
            }
        }
        count
    }
}

impl<H: Copy, const W: usize> Sender<BeatOf<H, W>> for Producer<BeatOf<H, W>, Global> {
    fn offer(&mut self, beat: &BeatOf<H, W>) -> bool {
        self.push_entire_slice(slice::from_ref(beat)).is_ok()
    }

    fn pump(&mut self) -> bool {
        true
    }
}

/// The receiving end of a plain ring, with a buffer for the beats that one call takes.
#[derive(Drop)]
struct PlainTaker<B: Copy> {
    end: Consumer<B, Global>,
    room: Vec<B>,
}

impl<H: Copy, const W: usize> Taker for PlainTaker<BeatOf<H, W>> {
    fn take(&mut self, masks: &mut Mask) -> usize {
        let count = self.end.pop_partial_slice(&mut self.room);
        for beat in &self.room[..count] {
            *masks = masks.wrapping_add(beat.mask);
        }
        count
    }
}

/// Creates both ends of a plain ring of `ring` beats. `beat` fills the buffer.
fn plain_pair<B: Copy>(
    alloc: Global,
    ring: usize,
    beat: B,
) -> Result<(Producer<B, Global>, PlainTaker<B>), AllocError> {
    let room = vec![in alloc; beat; STAGE_CAPACITY]?;
    let (producer, end) = RingBuffer::new(alloc, ring)?;
    Ok((producer, PlainTaker { end, room }))
}

/// Offers beat number `number`, and sends as many beats as possible. Returns whether the beat was
/// accepted.
fn send_next<S: Sender<B>, B>(sender: &mut S, beats: &[B], number: usize) -> bool {
    let accepted = match beats.get(number % SOME) {
        Some(beat) => sender.offer(beat),
        None => false,
    };
    sender.pump();
    accepted
}

/// Sends `count` beats.
fn send_all<S: Sender<B>, B>(sender: &mut S, beats: &[B], count: usize) {
    let mut sent = 0;
    for _ in 0..TURNS {
        if sent < count {
            if send_next(sender, beats, sent) {
                sent += 1;
            }
        } else if sender.pump() {
            return;
        }
    }
}

/// Takes `count` beats. Returns the sum of their masks.
fn take_all<T: Taker>(taker: &mut T, count: usize) -> Mask {
    let (mut left, mut masks) = (count, 0);
    for _ in 0..TURNS {
        left = left.saturating_sub(taker.take(&mut masks));
        if left == 0 {
            break;
        }
    }
    masks
}

/// Sends and takes `count` beats in one thread: whenever no more are accepted, takes all that have
/// arrived. Returns the sum of their masks.
fn send_and_take<S: Sender<B>, T: Taker, B>(
    sender: &mut S,
    taker: &mut T,
    beats: &[B],
    count: usize,
) -> Mask {
    let (mut sent, mut left, mut masks) = (0, count, 0);
    for _ in 0..TURNS {
        if sent < count && send_next(sender, beats, sent) {
            sent += 1;
        } else {
            sender.pump();
            left = left.saturating_sub(taker.take(&mut masks));
            if left == 0 {
                break;
            }
        }
    }
    masks
}

/// Sends `count` beats from a sender to a receiver, in one thread and then in two that run freely.
/// Times both passes.
fn measure_pair<S: Sender<B> + Send + Drop, T: Taker + Send + Drop, B: Sync>(
    rt: &HostRuntime,
    threads: &impl Threads,
    places: Places,
    ends: (S, T),
    beats: &[B],
    count: usize,
    figures: &mut Figures,
) {
    let (mut sender, mut taker) = ends;
    figures.start(rt);
    let one = send_and_take(&mut sender, &mut taker, beats, count);
    figures.lap(rt, places.0);
    let (_, two) = join(
        threads,
        || send_all(&mut sender, beats, count),
        || take_all(&mut taker, count),
    );
    figures.lap(rt, places.1);
    if one != two {
        figures.refuse("the two passes took different beats");
    }
}

/// Sends `count` beats through a plain ring.
fn measure_plain<H: Copy + Send + Sync, const W: usize>(
    rt: &HostRuntime,
    threads: &impl Threads,
    beats: &[BeatOf<H, W>; SOME],
    ring: usize,
    count: usize,
    figures: &mut Figures,
) {
    match plain_pair(rt.alloc(), ring, beats[0]) {
        Ok(ends) => measure_pair(rt, threads, PLAIN, ends, beats, count, figures),
        Err(_) => figures.refuse("a plain ring of this size cannot be made"),
    }
}

/// Returns one beat of a PutFullData with `byte` on all lanes. The message has 64 bytes, or 128 on
/// a bus of 128 bytes.
fn request<const W: usize>(byte: u8) -> Beat<ChA, W>
    requires { IsWidth W }
{
    let (size, address) = (if W > 64 { 7 } else { 6 }, 128);
    BeatOf {
        head: HeadA {
            opcode: 0,
            param: 0,
            size,
            source: 7,
            address,
        },
        mask: active(address, size, W),
        lanes: [byte; W],
        corrupt: false,
    }
}

/// Numbers beats of requests by the bytes on their lanes.
fn number_requests<const W: usize>(beats: &mut [Beat<ChA, W>])
    requires { IsWidth W }
{
    let mut number: u8 = 0;
    for beat in beats {
        *beat = request::<W>(number);
        number = number.wrapping_add(1);
    }
}

/// Numbers GrantAcks by their sinks.
fn number_acks(beats: &mut [Beat<ChE, 8>]) {
    let mut number: SinkId = 0;
    for beat in beats {
        beat.head.sink = number;
        number = number.wrapping_add(1);
    }
}

/// Sends `count` beats of requests through a crossing, and through a plain ring of the same size.
fn measure_requests<const W: usize>(
    rt: &HostRuntime,
    threads: &impl Threads,
    ring: usize,
    count: usize,
    figures: &mut Figures,
)
    requires { IsWidth W }
{
    let mut beats = [request::<W>(0); SOME];
    number_requests(&mut beats);
    match ring_pair::<ChA, W, W, Global>(rt.alloc(), ring) {
        Ok(ends) => {
            measure_pair(rt, threads, CROSSING, ends, &beats, count, figures);
            measure_plain(rt, threads, &beats, ring, count, figures);
        }
        Err(_) => figures.refuse("a crossing with a ring of this size cannot be made"),
    }
}

/// Sends `count` GrantAcks through a crossing, and through a plain ring of the same size.
#[tactic(auto, using(tl_lanes::proofs::Widths::width_8))]
fn measure_acks(
    rt: &HostRuntime,
    threads: &impl Threads,
    ring: usize,
    count: usize,
    figures: &mut Figures,
) {
    let mut beats = [Beat::<ChE, 8>::default(); SOME];
    number_acks(&mut beats);
    match ring_pair::<ChE, 8, 8, Global>(rt.alloc(), ring) {
        Ok(ends) => {
            measure_pair(rt, threads, CROSSING, ends, &beats, count, figures);
            measure_plain(rt, threads, &beats, ring, count, figures);
        }
        Err(_) => figures.refuse("a crossing with a ring of this size cannot be made"),
    }
}

/// Sends `count` beats of a channel through a ring of `ring` beats: through a crossing, and through
/// a plain `rtrb` ring, each in one thread and then in two. Times each pass.
#[tactic(auto, using(tl_lanes::proofs::Widths::width_8, tl_lanes::proofs::Widths::width_64, tl_lanes::proofs::Widths::width_128))]
pub fn measure(
    rt: &HostRuntime,
    threads: &impl Threads,
    channel: &str,
    width: usize,
    ring: usize,
    count: usize,
    figures: &mut Figures,
) {
    figures.add(BEATS, count as u128);
    match (channel, width) {
        ("A", 8) => measure_requests::<8>(rt, threads, ring, count, figures),
        ("A", 64) => measure_requests::<64>(rt, threads, ring, count, figures),
        ("A", 128) => measure_requests::<128>(rt, threads, ring, count, figures),
        ("E", 8) => measure_acks(rt, threads, ring, count, figures),
        _ => figures.refuse("this channel is not measured at this width"),
    }
}
