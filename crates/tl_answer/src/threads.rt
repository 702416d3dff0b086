//! The answer to a text by a run in two threads, after the whole text was read.
ghost use Rattle.std.specs.Prelude.{◌≡◌, ◌<◌, ◌++◌, false, IfOk, OnOk, IfErr};
ghost use Rattle.std.specs.List.{list_all};
ghost use Rattle.tl_lanes.specs.Lanes.{IsWidth};
ghost use Rattle.tl_settle.specs.Outcomes.{verdicts};
ghost use Rattle.tl_run.specs.Arrivals.{no_beats};
ghost use Rattle.tl_run.specs.Scripts.{SettlesTo};
ghost use Rattle.tl_parts.specs.Parts.{HasShortLists, near_beats};
ghost use Rattle.tl_run.specs.declared.outcome.RunFault.TheVariants.{OutOfMemory as NoRunMemory};
ghost use Rattle.tl_order.specs.Orders.{IsRunnable};
ghost use Rattle.tl_answer.specs.Answer.{far_header, far_lines, taken, report, is_done};
ghost use Rattle.tl_answer.specs.Inner.Answered.{ReadsAnswer, WasRead};
ghost use Rattle.tl_answer.specs.Inner.FarTexts.{HasLines};
ghost use Rattle.tl_answer.specs.Inner.Parts.{spelled, text_of};
ghost use Rattle.tl_answer.specs.Inner.Sizes.{beat_size};
ghost use Rattle.tl_trace.specs.Faults.{HasHeader};
ghost use Rattle.tl_stream.specs.Inputs.{IsFresh, held, unread_of};
ghost use Rattle.tl_stream.specs.declared.fault.TextFault.TheVariants.{OutOfMemory as NoMemory};

use crate::at_widths;
use crate::far_text::FarTexts;
use crate::parts::AnswerParts;
use crate::widths::{known_header, lemma_are_widths};
use std::alloc::{AllocError, Global};
use std::io::Read;
use std::thread::Threads;
use tl_bridge::{FarSink, NoGate, Outcome, RunFault, run_threads};
use tl_order::Order;
use tl_stream::{Input, TextFault, script_of_input};
use tl_trace::Script;

/// Lemma: the lists of a script that was read are short.
fn lemma_lists_are_short<const C: usize, const M: usize>(script: &Script<C, M>)
    requires { WasRead script.now }
    ensures { HasShortLists script.now }
{}

/// Runs a script with each side in its own thread, with the ring size and turns of the order.
/// Returns the outcome. Errors: only `OutOfMemory`.
fn run_script<T: Threads, const C: usize, const M: usize>(
    rt: &T,
    alloc: Global,
    script: &Script<C, M>,
    order: &Order,
) -> Result<Outcome<C, M>, RunFault>
    requires { IsWidth C × IsWidth M × WasRead script.now × IsRunnable order.now }
    ensures ok { IfOk result (SettlesTo script.now) }
    ensures err { IfErr result (λ fault. fault ≡ NoRunMemory) }
{
    lemma_lists_are_short::<C, M>(script);
    let ring = order.ring();
    let turns = order.turns();
    run_threads(rt, alloc, script, ring, turns, &mut NoGate, &mut NoGate)
}

/// Lemma: a beat takes little memory, whatever the width of its bus.
fn lemma_beats_fit<const C: usize, const M: usize>()
    requires { IsWidth C × IsWidth M }
    ensures client { beat_size C < 9223372036854775808 }
    ensures manager { beat_size M < 9223372036854775808 }
{}

/// Writes the lines of the far beats of a run. Requires: no lines were written before.
fn take_far<const C: usize, const M: usize>(
    far: &mut FarTexts,
    outcome: &Outcome<C, M>,
) -> Result<(), AllocError>
    requires { IsWidth C × IsWidth M × HasLines {C = C} {M = M} far.old no_beats }
    ensures lines { OnOk result (HasLines far.new (taken outcome.now)) }
    ensures version { OnOk result (far.new.version ≡ far.old.version) }
{
    lemma_beats_fit::<C, M>();
    far.take(&outcome.a, &outcome.b, &outcome.c, &outcome.d, &outcome.e)
}

/// Returns the answer for the outcome of a run, in parts. Errors: only `OutOfMemory`.
fn parts_of<const C: usize, const M: usize>(
    alloc: Global,
    outcome: &Outcome<C, M>,
    version: u8,
) -> Result<AnswerParts, TextFault>
    requires { IsWidth C × IsWidth M }
    ensures text { IfOk result (λ made. spelled made ≡ far_header version C M
        ++ far_lines version (taken outcome.now) ++ report outcome.now.verdicts) }
    ensures done { IfOk result (λ made. made.all_done ≡ list_all is_done outcome.now.verdicts) }
    ensures err { IfErr result (λ fault. fault ≡ NoMemory) }
{
    let mut far = match FarTexts::new(alloc, version, C, M) {
        Ok(far) => far,
        Err(error) => return Err(TextFault::from(error)),
    };
    match take_far(&mut far, outcome) {
        Ok(()) => far.into_answer(&outcome.verdicts),
        Err(_) => Err(TextFault::OutOfMemory),
    }
}

/// Returns the answer to a script, by a run in two threads. Frees the script before it makes the
/// answer. Errors: only `OutOfMemory`.
#[inline(never)]
fn threads_answer_of<T: Threads, const C: usize, const M: usize>(
    rt: &T,
    alloc: Global,
    script: Script<C, M>,
    version: u8,
    order: &Order,
) -> Result<AnswerParts, TextFault>
    requires { IsWidth C × IsWidth M × WasRead script × IsRunnable order.now }
    ensures text { IfOk result (λ made. spelled made
        ≡ text_of version (near_beats script.entry) false) }
    ensures done { IfOk result (λ made. made.all_done
        ≡ list_all is_done (verdicts (near_beats script.entry))) }
    ensures err { IfErr result (λ fault. fault ≡ NoMemory) }
{
    let run = run_script::<T, C, M>(rt, alloc, &script, order);
    drop(script);
    let outcome = match run {
        Ok(outcome) => outcome,
        Err(_) => return Err(TextFault::OutOfMemory),
    };
    let answer = parts_of(alloc, &outcome, version);
    drop(outcome);
    answer
}

/// Returns the answer to a text whose header names this version and these widths.
fn with_widths<T: Threads, R: Read, const C: usize, const M: usize>(
    rt: &T,
    alloc: Global,
    reader: &mut R,
    input: &mut Input,
    version: u8,
    order: &Order,
) -> Result<AnswerParts, TextFault>
    requires { IsFresh (R.remaining reader.old) input.old ×
        HasHeader (held input.old) version C M × IsRunnable order.now }
    ensures { ReadsAnswer (unread_of input.old (R.remaining reader.old)) (R.remaining reader.new)
        false input.new result }
{
    lemma_are_widths::<C, M>(input, version);
    match script_of_input::<R, C, M>(alloc, reader, input, version) {
        Ok(script) => threads_answer_of::<T, C, M>(rt, alloc, script, version, order),
        Err(fault) => Err(fault),
    }
}

/// Returns the answer to a text by a run in two threads, with the ring size and turns of the order:
/// the line with the version of the trace and the widths, the far beats, and the five report lines.
/// The input holds the first piece of the text, and nothing of it was used. The run begins after
/// the whole text was read.
///
/// Errors: as `script_of_input`.
pub(crate) fn answer_by_threads<T: Threads, R: Read>(
    rt: &T,
    alloc: Global,
    reader: &mut R,
    input: &mut Input,
    order: &Order,
) -> Result<AnswerParts, TextFault>
    requires { IsFresh (R.remaining reader.old) input.old × IsRunnable order.now }
    ensures { ReadsAnswer (unread_of input.old (R.remaining reader.old)) (R.remaining reader.new)
        false input.new result }
{
    let header = match known_header(input.held()) {
        Ok(header) => header,
        Err(fault) => return Err(fault),
    };
    at_widths!(
        header,
        with_widths::<T, R, _, _>(rt, alloc, reader, input, header.version, order)
    )
}
