//! From a text to the outcome of each of its lines. (No function of a pair of widths is inlined
//! into another one, because LLVM takes longer for eight large functions than for many small ones.)
ghost use Rattle.std.specs.Prelude.{◌≡◌, ◌≤◌, true, false, length, IfOk, OnOk, IfErr};
ghost use Rattle.tl_lanes.specs.Lanes.{IsWidth};
ghost use Rattle.tl_trace.specs.Faults.{HasHeader};
ghost use Rattle.tl_trace.specs.Scripts.{TellsScript};
ghost use Rattle.tl_answer.specs.Texts.{IsAnswer};
ghost use Rattle.tl_stream.specs.Inputs.{most_bytes};
ghost use Rattle.tl_stream.specs.declared.fault.TextFault.TheVariants.{OutOfMemory as NoMemory, Write as WriteFault};
ghost use Rattle.tl_explain.specs.Explained.{Explains, IsUntold, is_page};
ghost use Rattle.tl_explain.specs.Inner.Explanation.{Continues, Tells};

use crate::channel::tell;
use crate::display_options::{DisplayOptions, Format};
use crate::held::{HeldPair, held_of, waiting_source};
use crate::letters::letters_of;
use crate::story::Story;
use crate::walk::Walk;
use arrayvec::ArrayVec;
use std::alloc::Global;
use std::io::Write;
use tl_answer::{Answer, TextFault, at_widths, check_of, known_header, write_all};
use tl_check::verdicts_of;
use tl_convert::Converter;
use tl_lanes::WIDEST;
use tl_msg::{Beat, ChA, ChB, ChC, ChD, ChE, Verdict};
use tl_remarks::notes_of;
use tl_trace::{Header, Script, read_script};

/// Describes the outcome of the beats of a script, and writes it in blocks; for a page, writes
/// nothing. Each channel has a converter, and a list for the far beats of one near beat. A beat of
/// E has nothing on its lanes, so a bus of one byte is used for any width.
#[inline(never)]
fn tell_all<W: Write, const C: usize, const M: usize>(
    story: &mut Story,
    script: &Script<C, M>,
    is_page: bool,
    writer: &mut W,
) -> Result<(), TextFault>
    requires { IsWidth C × IsWidth M }
    ensures out { OnOk result
        (Continues is_page (W.contents writer.old) (W.contents writer.new)) }
    ensures kind { IfErr result (λ fault. (fault ≡ WriteFault) × (is_page ≡ false)) }
{
    let mut way_a = Converter::<ChA, C, M>::new();
    let mut far_a = ArrayVec::<Beat<ChA, M>, WIDEST>::new();
    let mut way_b = Converter::<ChB, M, C>::new();
    let mut far_b = ArrayVec::<Beat<ChB, C>, WIDEST>::new();
    let mut way_c = Converter::<ChC, C, M>::new();
    let mut far_c = ArrayVec::<Beat<ChC, M>, WIDEST>::new();
    let mut way_d = Converter::<ChD, M, C>::new();
    let mut far_d = ArrayVec::<Beat<ChD, C>, WIDEST>::new();
    let mut way_e = Converter::<ChE, C, 1>::new();
    let mut far_e = ArrayVec::<Beat<ChE, 1>, WIDEST>::new();
    for at in 0..story.walk.lines() {
        match story.walk.letter_at(at) {
            b'A' => tell::<ChA, C, M>(story, &script.a, &mut way_a, &mut far_a),
            b'B' => tell::<ChB, M, C>(story, &script.b, &mut way_b, &mut far_b),
            b'C' => tell::<ChC, C, M>(story, &script.c, &mut way_c, &mut far_c),
            b'D' => tell::<ChD, M, C>(story, &script.d, &mut way_d, &mut far_d),
            _ => tell::<ChE, C, 1>(story, &script.e, &mut way_e, &mut far_e),
        }
        story.write_block(is_page, writer)?;
    }
    story.end();
    story.write_rest(is_page, writer)
}

/// Returns the beats that were not accepted and for which the waiting beats of D and of A wait.
#[inline(never)]
fn held_in<const C: usize, const M: usize>(
    letters: &[u8],
    script: &Script<C, M>,
    verdicts: &[Verdict; 5],
) -> HeldPair
    requires { IsWidth C × IsWidth M }
{
    let [on_a, _, _, on_d, _] = verdicts;
    let busy = waiting_source::<ChA, C>(on_a, &script.a);
    let missing = waiting_source::<ChD, M>(on_d, &script.d);
    HeldPair {
        request: held_of::<ChA, C>(letters, on_a, &script.a, missing),
        response: held_of::<ChD, M>(letters, on_d, &script.d, busy),
    }
}

/// The part of a text's story that is not written yet, and the answer of a check.
#[derive(Drop)]
pub struct Explanation {
    pub story: Story,
    pub answer: Answer,
}

/// Creates the story and the answer for the text of this script, in this version; no line has been
/// written yet. All memory that they need is allocated here, except for a page. Errors:
/// `OutOfMemory`.
#[inline(never)]
fn begin<const C: usize, const M: usize>(
    alloc: Global,
    text: &[u8],
    script: &Script<C, M>,
    version: u8,
    look: &DisplayOptions,
    times: &[u8],
) -> Result<Explanation, TextFault>
    requires { IsWidth C × IsWidth M × (length text.now ≤ most_bytes) ×
        TellsScript version text.now script.now }
    ensures ok { IfOk result (λ made.
        IsAnswer text.now true made.answer.text.items made.answer.all_done) }
    ensures err { IfErr result (λ fault. fault ≡ NoMemory) }
{
    let verdicts = verdicts_of::<C, M>(alloc, script)?;
    let answer = check_of(alloc, &verdicts, version, C, M)?;
    let header = Header {
        version,
        client: C,
        manager: M,
    };
    let letters = letters_of(alloc, text, &header)?;
    let (remarks, in_order) = (look.remarks, look.in_order);
    let noted = notes_of::<C, M>(alloc, &letters, script, &verdicts, remarks, in_order);
    let held = held_in::<C, M>(&letters, script, &verdicts);
    let walk = Walk::new(
        alloc, &header, &verdicts, letters, noted, held, in_order, times,
    )?;
    let story = Story::new(alloc, walk, look)?;
    Ok(Explanation { story, answer })
}

/// Explains a text whose header has this version and these widths.
#[inline(never)]
fn with_widths<W: Write, const C: usize, const M: usize>(
    alloc: Global,
    text: &[u8],
    version: u8,
    look: &DisplayOptions,
    times: &[u8],
    writer: &mut W,
) -> Result<Explanation, TextFault>
    requires { HasHeader text.now version C M × (length text.now ≤ most_bytes) }
    ensures { Tells (is_page look.now.format) text.now (W.contents writer.old) (W.contents writer.new) result }
{
    let script = read_script::<C, M>(alloc, text, version)?;
    let mut telling = begin::<C, M>(alloc, text, &script, version, look, times)?;
    tell_all::<W, C, M>(&mut telling.story, &script, look.format.is_page(), writer)?;
    Ok(telling)
}

/// Explains a text, and writes the sentences in blocks; for a page, writes nothing.
///
/// Errors, before anything is written: `Trace` with the text's first fault and its line, or
/// `OutOfMemory`. Also `Write`, as for `write_all`.
pub fn explanation_of<W: Write>(
    alloc: Global,
    text: &[u8],
    look: &DisplayOptions,
    times: &[u8],
    writer: &mut W,
) -> Result<Explanation, TextFault>
    requires few { length text.now ≤ most_bytes }
    ensures { Tells (is_page look.now.format) text.now (W.contents writer.old) (W.contents writer.new) result }
{
    let header = match known_header(text) {
        Ok(header) => header,
        Err(fault) => return Err(fault),
    };
    at_widths!(
        header,
        with_widths::<W, _, _>(alloc, text, header.version, look, times, writer)
    )
}

/// Writes a sentence on each line of a text that is shown, in the order of the lines, and then the
/// answer of `tlbridge check`. Returns true if and only if all five channels are done. `times` has
/// the time of each beat, or is empty.
///
/// The sentence says whether the beat was accepted. If so, it says which far beats the beat
/// completed, or how many bytes of the next one are staged. Otherwise it says why the beat was
/// refused, waits, or was not offered. The lines of the far beats follow, each after four spaces.
///
/// Errors, before anything is written: `Trace` with the text's first fault and its line, or
/// `OutOfMemory`. Also `Write` if a write fails, is interrupted or takes no byte; an unknown number
/// of bytes may then have been written.
pub fn explain_to<W: Write>(
    alloc: Global,
    text: &[u8],
    look: &DisplayOptions,
    times: &[u8],
    writer: &mut W,
) -> Result<bool, TextFault>
    requires few { length text.now ≤ most_bytes }
    ensures ok { IfOk result
        (Explains text.now (W.contents writer.old) (W.contents writer.new)) }
    ensures err { IfErr result
        (IsUntold false text.now (W.contents writer.old) (W.contents writer.new)) }
{
    let look = DisplayOptions {
        format: Format::Text,
        ..*look
    };
    let telling = explanation_of::<W>(alloc, text, &look, times, writer)?;
    write_all(writer, &telling.answer.text)?;
    Ok(telling.answer.all_done)
}
