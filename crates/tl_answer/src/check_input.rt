//! The answer of a check to a text that is read incrementally. Beats that were judged are removed
//! from memory.
ghost use Rattle.std.specs.Prelude.{◌≡◌, ◌++◌, [], true, IfOk, IfErr};
ghost use Rattle.std.specs.List.{list_all};
ghost use Rattle.tl_lanes.specs.Lanes.{IsWidth};
ghost use Rattle.tl_settle.specs.Outcomes.{Beats, verdicts};
ghost use Rattle.tl_trace.specs.Faults.{HasHeader};
ghost use Rattle.tl_parts.specs.Parts.{AreEnd};
ghost use Rattle.tl_settle.specs.Books.{KnowsClient, KnowsManager};
ghost use Rattle.tl_check.specs.Judging.{CanJudge, HasJudged};
ghost use Rattle.tl_answer.specs.Answer.{far_header, is_done, report};
ghost use Rattle.tl_answer.specs.Inner.Answered.{ReadsAnswer};
ghost use Rattle.tl_answer.specs.Inner.Checking.{Judges, JudgesOn};
ghost use Rattle.tl_stream.specs.Consuming.{IsNew};
ghost use Rattle.tl_answer.specs.Inner.Parts.{spelled};
ghost use Rattle.tl_stream.specs.Inputs.{IsFresh, held, unread_of};
ghost use Rattle.tl_stream.specs.declared.fault.TextFault.TheVariants.{OutOfMemory as NoMemory};

use crate::answer::check_of;
use crate::parts::AnswerParts;
use crate::widths::lemma_are_widths;
use std::alloc::{AllocError, Global};
use std::io::Read;
use tl_check::Judge;
use tl_settle::{ClientBook, ManagerBook};
use tl_stream::{BeatConsumer, Input, TextFault, read_through};
use tl_trace::{Counts, Script};

// (`AnswerParts` is only a type of this crate: `Judge` is of another one)
impl<const C: usize, const M: usize> BeatConsumer<AnswerParts, C, M> for Judge<C, M> {
    ghost HasConsumed = { Judges };

    ghost ConsumesOn = { JudgesOn };

    fn consume(&mut self, held: &Script<C, M>) -> Result<Counts, AllocError> {
        Ok(self.advance(held))
    }
}

// Returns the answer of the check that ends with these beats. Errors: only `OutOfMemory`.
fn end_of<const C: usize, const M: usize>(
    alloc: Global,
    judge: &mut Judge<C, M>,
    version: u8,
    last: Script<C, M>,
) -> Result<AnswerParts, TextFault>
    requires { IsWidth C × IsWidth M × CanJudge judge.old last }
    ensures text { (near : Beats C M) → AreEnd judge.old.discarded last.entry near →
        HasJudged near judge.old → IfOk result (λ made.
        spelled made ≡ far_header version C M ++ report (verdicts near)) }
    ensures done { (near : Beats C M) → AreEnd judge.old.discarded last.entry near →
        HasJudged near judge.old → IfOk result (λ made.
        made.all_done ≡ list_all is_done (verdicts near)) }
    ensures err { IfErr result (λ fault. fault ≡ NoMemory) }
{
    let verdicts = judge.end(&last);
    drop(last);
    match check_of(alloc, &verdicts, version, C, M) {
        Ok(answer) => Ok(AnswerParts::of(alloc, answer)),
        Err(fault) => Err(fault),
    }
}

// Returns the answer of a check, by a new judge, to a text whose header names this version and
// these widths.
fn check_by<R: Read, const C: usize, const M: usize>(
    alloc: Global,
    reader: &mut R,
    input: &mut Input,
    version: u8,
    judge: &mut Judge<C, M>,
) -> Result<AnswerParts, TextFault>
    requires { IsFresh (R.remaining reader.old) input.old ×
        HasHeader (held input.old) version C M × IsNew (Judges version) judge.old }
    ensures { ReadsAnswer (unread_of input.old (R.remaining reader.old)) (R.remaining reader.new)
        true input.new result }
{
    lemma_are_widths::<C, M>(input, version);
    match read_through::<R, AnswerParts, Judge<C, M>, C, M>(alloc, reader, input, version, judge) {
        Ok(last) => end_of(alloc, judge, version, last),
        Err(fault) => Err(fault),
    }
}

// Creates a judge that has advanced over no beat of a trace in this version.
fn new_judge<const C: usize, const M: usize>(
    client: ClientBook<C>,
    manager: ManagerBook<M>,
    version: u8,
) -> Judge<C, M>
    requires { KnowsClient {w = C} client [] × KnowsManager {w = M} manager [] }
    ensures { IsNew (Judges version) result }
{
    Judge::new(client, manager)
}

/// Returns the answer of a check to a text whose header names this version and these widths. Its
/// first piece has been read and not consumed. The text is read to its end,
/// incrementally: one piece of it, the beats that wait and fewer finished beats are in memory.
/// Errors: as `script_of_input`.
#[inline(never)]
pub(crate) fn check_input<R: Read, const C: usize, const M: usize>(
    alloc: Global,
    reader: &mut R,
    input: &mut Input,
    version: u8,
) -> Result<AnswerParts, TextFault>
    requires { IsFresh (R.remaining reader.old) input.old × HasHeader (held input.old) version C M }
    ensures { ReadsAnswer (unread_of input.old (R.remaining reader.old)) (R.remaining reader.new)
        true input.new result }
{
    let Ok(client) = ClientBook::<C, Global>::new(alloc) else {
        return Err(TextFault::OutOfMemory);
    };
    let Ok(manager) = ManagerBook::<M, Global>::new(alloc) else {
        return Err(TextFault::OutOfMemory);
    };
    let mut judge = new_judge::<C, M>(client, manager, version);
    check_by(alloc, reader, input, version, &mut judge)
}
