//! Measures reading, conversion and writing.
ghost use Rattle.std.specs.Prelude.{IfSome};
ghost use Rattle.tl_lanes.specs.Lanes.{IsWidth};
ghost use Rattle.tl_trace.specs.Faults.{HasHeader};
ghost use Rattle.tl_stream.specs.Inputs.{IsFresh};

use crate::figures::Figures;
use arrayvec::ArrayVec;
use std::io::{Read, Stdin};
use tl_convert::Converter;
use tl_lanes::{WIDEST, is_width};
use tl_msg::{Beat, ChA, ChE};
use tl_stream::{Input, MAX_BYTES, script_of_input};
use tl_trace::{HeadText, Script, header_of_text, write_far};

/// The number of near beats that are converted before the lines of their far beats are written.
const AT_ONCE: usize = 64;

/// The names of the figures of a pass, in their order. Their positions follow.
pub const OF_PASS: [&str; 4] = ["whole", "count", "bytes", "lines"];

const WHOLE: usize = 0;

const COUNT: usize = 1;

const BYTES: usize = 2;

const LINES: usize = 3;

/// The names of the figures of a trace, in their order. Their positions follow.
pub const OF_TRACE: [&str; 7] = [
    "read",
    "peak",
    "convert",
    "write",
    "near_beats",
    "far_beats",
    "far_bytes",
];

const READ: usize = 0;

const PEAK: usize = 1;

const CONVERT: usize = 2;

const WRITE: usize = 3;

const NEAR_BEATS: usize = 4;

const FAR_BEATS: usize = 5;

const FAR_BYTES: usize = 6;

/// Returns the number of LFs in a text.
fn line_ends(text: &[u8]) -> usize {
    let mut count: usize = 0;
    for byte in text {
        count = count.wrapping_add((*byte == b'\n') as usize);
    }
    count
}

/// Reads all of standard input into memory and counts its LFs, as plain passes for comparison.
pub fn pass(rt: &HostRuntime, reader: &mut Stdin, figures: &mut Figures) {
    let Ok(mut text) = Vec::with_capacity(rt.alloc(), MAX_BYTES) else {
        return figures.refuse("out of memory: the text does not fit");
    };
    figures.start(rt);
    if reader.read_to_end(&mut text).is_err() {
        return figures.refuse("the text cannot be read");
    }
    figures.lap(rt, WHOLE);
    let lines = line_ends(&text);
    figures.lap(rt, COUNT);
    figures.add(BYTES, text.len() as u128);
    figures.add(LINES, lines as u128);
}

/// A channel whose conversion is measured. (Functions that are generic in a trait of this crate
/// need no proof of the sizes behind references.)
trait Measured: HeadText {}

impl Measured for ChA {}

impl Measured for ChE {}

/// Feeds near beats to a converter, and appends the far beats that they complete. Returns whether
/// all were fed.
fn convert<K: Measured, const W: usize, const V: usize>(
    converter: &mut Converter<K, W, V>,
    given: &mut ArrayVec<Beat<K, V>, WIDEST>,
    near: &[Beat<K, W>],
    far: &mut Vec<Beat<K, V>>,
) -> bool
    requires { IsWidth W × IsWidth V }
{
    for beat in near {
        given.clear();
        let Ok(place) = converter.check(beat) else {
            return false;
        };
        converter.feed_at(beat, place, 0, given);
        if far.extend_from_slice(given.as_slice()).is_err() {
            return false;
        }
    }
    true
}

/// Converts some beats, and appends the lines of their far beats to a text.
fn convert_some<K: Measured, const W: usize, const V: usize>(
    rt: &HostRuntime,
    converter: &mut Converter<K, W, V>,
    given: &mut ArrayVec<Beat<K, V>, WIDEST>,
    near: &[Beat<K, W>],
    far: &mut Vec<Beat<K, V>>,
    text: &mut Vec<u8>,
    version: u8,
    figures: &mut Figures,
)
    requires { IsWidth W × IsWidth V }
{
    far.clear();
    figures.start(rt);
    let is_fed = convert(converter, given, near, far);
    figures.lap(rt, CONVERT);
    let is_written = write_far::<K, V>(text, far, version).is_ok();
    figures.lap(rt, WRITE);
    figures.add(FAR_BEATS, far.len() as u128);
    if !(is_fed & is_written) {
        figures.refuse("the beats cannot be converted and written");
    }
}

/// Converts the beats of a channel, which are whole messages, and writes the lines of their far
/// beats one after the other. It converts a few at a time, so that far beats go into memory that
/// was used before.
fn convert_and_write<K: Measured, const W: usize, const V: usize>(
    rt: &HostRuntime,
    converter: &mut Converter<K, W, V>,
    given: &mut ArrayVec<Beat<K, V>, WIDEST>,
    near: &[Beat<K, W>],
    version: u8,
    figures: &mut Figures,
)
    requires { IsWidth W × IsWidth V }
{
    let (mut far, mut text) = (Vec::new(rt.alloc()), Vec::new(rt.alloc()));
    for some in near.chunks(AT_ONCE) {
        convert_some(
            rt, converter, given, some, &mut far, &mut text, version, figures,
        );
    }
    figures.add(NEAR_BEATS, near.len() as u128);
    figures.add(FAR_BYTES, text.len() as u128);
}

/// Returns the version of a trace between these widths, from its first line.
fn version_between(text: &[u8], client: usize, manager: usize) -> Option<u8>
    ensures { IfSome result (λ version. IsWidth client × IsWidth manager × HasHeader text.now version client manager) }
{
    match header_of_text(text) {
        Some(header)
            if (header.client == client)
                & (header.manager == manager)
                & is_width(client)
                & is_width(manager) => { Some(header.version) }
        _ => None,
    }
}

/// Adds the time and memory of reading a script. Then converts its beats of A, or of E if it has
/// none of A, and writes the far beats.
fn measure_script<const C: usize, const M: usize>(
    rt: &HostRuntime,
    script: &Script<C, M>,
    version: u8,
    figures: &mut Figures,
)
    requires { IsWidth C × IsWidth M }
{
    figures.lap(rt, READ);
    figures.add_peak(rt, PEAK);
    if script.a.is_empty() {
        let mut converter = Converter::<ChE, C, M>::new();
        let mut given = ArrayVec::<Beat<ChE, M>, WIDEST>::new();
        convert_and_write(rt, &mut converter, &mut given, &script.e, version, figures);
    } else {
        let mut converter = Converter::<ChA, C, M>::new();
        let mut given = ArrayVec::<Beat<ChA, M>, WIDEST>::new();
        convert_and_write(rt, &mut converter, &mut given, &script.a, version, figures);
    }
}

/// Reads a trace between these widths incrementally, as the program does. Then converts its beats
/// of A, or of E if it has none of A, and writes the far beats.
fn measure_pair<const C: usize, const M: usize>(
    rt: &HostRuntime,
    reader: &mut Stdin,
    input: &mut Input,
    figures: &mut Figures,
)
    requires { IsFresh (⟦<Stdin as Read>⟧.remaining reader.old) input.old }
{
    let version = match version_between(input.held(), C, M) {
        Some(version) => version,
        _ => return figures.refuse("the text is not a trace between these widths"),
    };
    match script_of_input::<Stdin, C, M>(rt.alloc(), reader, input, version) {
        Ok(script) => measure_script(rt, &script, version, figures),
        Err(_) => figures.refuse("the text is not a valid trace"),
    }
}

/// Reads the rest of a trace, whose first piece the input holds, converts its beats and writes the
/// far beats.
fn measure_input(rt: &HostRuntime, reader: &mut Stdin, input: &mut Input, figures: &mut Figures)
    requires { IsFresh (⟦<Stdin as Read>⟧.remaining reader.old) input.old }
{
    let Some(header) = header_of_text(input.held()) else {
        return figures.refuse("the text is not a valid trace");
    };
    match (header.client, header.manager) {
        (8, 8) => measure_pair::<8, 8>(rt, reader, input, figures),
        (4, 64) => measure_pair::<4, 64>(rt, reader, input, figures),
        (64, 4) => measure_pair::<64, 4>(rt, reader, input, figures),
        (64, 1) => measure_pair::<64, 1>(rt, reader, input, figures),
        (8, 32) => measure_pair::<8, 32>(rt, reader, input, figures),
        (128, 1) => measure_pair::<128, 1>(rt, reader, input, figures),
        (1, 128) => measure_pair::<1, 128>(rt, reader, input, figures),
        _ => figures.refuse("nothing is measured at these widths"),
    }
}

/// Reads a trace from standard input incrementally, as the program does, converts its beats and
/// writes the far beats. Times each part.
pub fn measure(rt: &HostRuntime, reader: &mut Stdin, figures: &mut Figures) {
    figures.start(rt);
    match Input::open(rt.alloc(), reader) {
        Ok(mut input) => measure_input(rt, reader, &mut input, figures),
        Err(_) => figures.refuse("the text cannot be read"),
    }
}
